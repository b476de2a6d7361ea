//! One step after the raised lines.
ghost use Rattle.std.specs.Prelude.{◌≡◌, ◌<◌};
ghost use Rattle.pip_cpu.specs.Made.{Acts};
ghost use Rattle.pip_io.specs.Causes.{HasCause};
ghost use Rattle.pip_model.specs.Port.{TakesNoMore};
ghost use Rattle.pip_model.specs.Worlds.{World};
ghost use Rattle.pip_native.specs.Watching.{monitor_next, root_runs, watch_step};

use crate::lines::write_decision;
use crate::{Chooser, Monitor, decide};
use pip_base::Steps;
use pip_cpu::turn;
use pip_io::{Failed, Sink};
use pip_model::Port;
use std::sync::ledger::Ledger;

/// Where the root runs on processor 0, which `here` says, its monitor decides; else the processor takes its turn. Fails
/// only if a write failed; all was done then up to the line that was not written whole.
pub fn watch_once<P: Port, C: Chooser, K: Sink, L: Ledger>(
    port: &mut P,
    here: bool,
    monitor: &mut Monitor<C>,
    t: u64,
    sink: &mut K,
    steps: &mut Steps<L>,
) -> Result<(), Failed>
    requires some { 0 < P.count port.old }
    requires here { (w : World) → P.stands port.old w → here ≡ root_runs w }
    ensures acts { Acts result (P.stands port.old) (P.stands port.new) (K.history sink.old) (K.history sink.new)
        (λ w. watch_step w monitor.old t) }
    ensures monitor { (w : World) → P.stands port.old w → monitor.new ≡ monitor_next w monitor.old }
    ensures cause { HasCause (K.history sink.old).faults (K.history sink.new).faults result }
    ensures count { P.count port.new ≡ P.count port.old }
    ensures work { TakesNoMore (P.stands port.old) (λ w. watch_step w monitor.old t) steps.old steps.new }
{
    if here {
        let decision = decide(port, 0, monitor, steps);
        return write_decision(sink, t, decision);
    }
    match turn::<Monitor<C>, P, K, L>(port, 0, t, sink, steps) {
        Ok(_) => Ok(()),
        Err(failed) => Err(failed),
    }
}
