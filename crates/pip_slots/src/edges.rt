//! The steps of a slot.
ghost use Rattle.std.specs.Prelude.{◌≡◌, ◌<◌};
ghost use Rattle.pip_cpu.specs.Made.{Acts};
ghost use Rattle.pip_io.specs.Causes.{HasCause};
ghost use Rattle.pip_model.specs.Port.{TakesNoMore};
ghost use Rattle.pip_model.specs.Worlds.{World};
ghost use Rattle.pip_slots.specs.Slots.{closing, slot_turn, opening};
ghost use Rattle.pip_native.specs.Watching.{root_runs};

use pip_base::Steps;
use pip_cpu::{turn, write_call, write_moved};
use pip_io::{Failed, Sink};
use pip_model::Port;
use pip_model::call_number::{NOT_SAVED, SAVED, YIELD};
use std::sync::ledger::Ledger;

/// The first step of a slot: what runs on processor 0, which is the root, yields into a child.
pub fn open_slot<P: Port, K: Sink, L: Ledger>(
    port: &mut P,
    child: u32,
    t: u64,
    sink: &mut K,
    steps: &mut Steps<L>,
) -> Result<(), Failed>
    requires { 0 < P.count port.old }
    ensures acts { Acts result (P.stands port.old) (P.stands port.new) (K.history sink.old) (K.history sink.new)
        (λ w. opening w child t) }
    ensures cause { HasCause (K.history sink.old).faults (K.history sink.new).faults result }
    ensures count { P.count port.new ≡ P.count port.old }
    ensures work { TakesNoMore (P.stands port.old) (λ w. opening w child t) steps.old steps.new }
{
    let outcome = port.call(0, YIELD, &[child, SAVED, NOT_SAVED, 0, 0], steps);
    write_call(sink, t, 0, YIELD, outcome)
}

/// A step within a slot: processor 0 has its turn, unless the root runs there, which `here` says.
pub fn inner_once<P: Port, K: Sink, L: Ledger>(
    port: &mut P,
    here: bool,
    t: u64,
    sink: &mut K,
    steps: &mut Steps<L>,
) -> Result<(), Failed>
    requires some { 0 < P.count port.old }
    requires here { (w : World) → P.stands port.old w → here ≡ root_runs w }
    ensures acts { Acts result (P.stands port.old) (P.stands port.new) (K.history sink.old) (K.history sink.new)
        (λ w. slot_turn w t) }
    ensures cause { HasCause (K.history sink.old).faults (K.history sink.new).faults result }
    ensures count { P.count port.new ≡ P.count port.old }
    ensures work { TakesNoMore (P.stands port.old) (λ w. slot_turn w t) steps.old steps.new }
{
    if here {
        return Ok(());
    }
    match turn::<(), P, K, L>(port, 0, t, sink, steps) {
        Ok(_) => Ok(()),
        Err(failed) => Err(failed),
    }
}

/// The last step of a slot: unless the root runs on processor 0, which `here` says, it takes the processor by line 0.
pub fn close_slot<P: Port, K: Sink, L: Ledger>(
    port: &mut P,
    here: bool,
    t: u64,
    sink: &mut K,
    steps: &mut Steps<L>,
) -> Result<(), Failed>
    requires some { 0 < P.count port.old }
    requires here { (w : World) → P.stands port.old w → here ≡ root_runs w }
    ensures acts { Acts result (P.stands port.old) (P.stands port.new) (K.history sink.old) (K.history sink.new)
        (λ w. closing w t) }
    ensures cause { HasCause (K.history sink.old).faults (K.history sink.new).faults result }
    ensures count { P.count port.new ≡ P.count port.old }
    ensures work { TakesNoMore (P.stands port.old) (λ w. closing w t) steps.old steps.new }
{
    if here {
        return Ok(());
    }
    port.raise(0, steps);
    let outcome = port.poll(0, steps);
    write_moved(sink, t, 0, outcome)
}
