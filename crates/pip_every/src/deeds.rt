//! What a partition does that has deeds.
ghost use Rattle.std.specs.Prelude.{◌≡◌, ◌<◌};
ghost use Rattle.pip_cpu.specs.Made.{Acts};
ghost use Rattle.pip_io.specs.Writes.{Writes};
ghost use Rattle.pip_model.specs.Port.{Follows};
ghost use Rattle.pip_every.specs.Menus.{deed_acts, deed_event, deed_line, hostile_acts};

use crate::menus::Deed;
use pip_base::{Outcome, Size, Steps};
use pip_cpu::{write_call, write_moved};
use pip_io::{Failed, Sink};
use pip_model::Port;
use std::sync::ledger::Ledger;

// Makes the event of a deed on a processor.
fn make_event<P: Port, L: Ledger>(
    port: &mut P,
    cpu: u32,
    deed: &Deed,
    steps: &mut Steps<L>,
) -> Outcome
    requires { cpu < P.count port.old }
    ensures event { Follows (P.stands port.old) (P.stands port.new) (deed_event cpu deed.now) result }
    ensures count { P.count port.new ≡ P.count port.old }
{
    match deed {
        Deed::Load { va, size } => port.load(cpu, *va, *size, steps),
        Deed::StoreWord { va, word } => port.store(cpu, *va, Size::Word, *word, steps),
        Deed::StoreByte { va, byte } => {
            port.store(cpu, *va, Size::Byte, u32::from(*byte), steps)
        }
        Deed::Trap { vector, a, b } => port.trap(cpu, u32::from(*vector), *a, *b, steps),
        Deed::Call { number, args } => port.call(cpu, *number, args, steps),
    }
}

// Writes the line of a deed, if it has one.
fn write_deed<K: Sink>(sink: &mut K, cpu: u32, deed: &Deed, outcome: Outcome) -> Result<(), Failed>
    ensures { Writes K.history sink.old sink.new result (deed_line cpu deed.now outcome) }
{
    match deed {
        Deed::Call { number, .. } => write_call(sink, 0, cpu, *number, outcome),
        Deed::Load { .. } | Deed::StoreWord { .. } | Deed::StoreByte { .. } | Deed::Trap { .. } =>
            write_moved(sink, 0, cpu, outcome),
    }
}

// Does a deed on a processor. Fails only if a write failed.
fn do_deed<P: Port, K: Sink, L: Ledger>(
    port: &mut P,
    cpu: u32,
    deed: &Deed,
    sink: &mut K,
    steps: &mut Steps<L>,
) -> Result<(), Failed>
    requires { cpu < P.count port.old }
    ensures acts { Acts result (P.stands port.old) (P.stands port.new) (K.history sink.old) (K.history sink.new)
        (λ w. deed_acts w cpu deed.now) }
    ensures count { P.count port.new ≡ P.count port.old }
{
    let outcome = make_event(port, cpu, deed, steps);
    write_deed(sink, cpu, deed, outcome)
}

/// Polls for a line on a processor where a partition runs that has deeds. If none comes, the partition does this deed,
/// if there is one. The lines are those of step 0. Fails only if a write failed.
pub(crate) fn act_from_menu<P: Port, K: Sink, L: Ledger>(
    port: &mut P,
    cpu: u32,
    deed: &Option<Deed>,
    sink: &mut K,
    steps: &mut Steps<L>,
) -> Result<(), Failed>
    requires { cpu < P.count port.old }
    ensures acts { Acts result (P.stands port.old) (P.stands port.new) (K.history sink.old) (K.history sink.new)
        (λ w. hostile_acts w cpu deed.now) }
    ensures count { P.count port.new ≡ P.count port.old }
{
    let outcome = port.poll(cpu, steps);
    if let Outcome::Switched { .. } = outcome {
        return write_moved(sink, 0, cpu, outcome);
    }
    match deed {
        Some(deed) => do_deed(port, cpu, deed, sink, steps),
        None => Ok(()),
    }
}
