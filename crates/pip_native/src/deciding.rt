//! One decision of a monitor.
ghost use Rattle.std.specs.Prelude.{◌≡◌, ◌≢◌, ◌<◌, ◌↔◌, IsSome, length};
ghost use Rattle.pip_model.specs.Acts.{after_acts};
ghost use Rattle.pip_model.specs.Happens.{event};
ghost use Rattle.pip_model.specs.Port.{TakesNoMore};
ghost use Rattle.pip_model.specs.Worlds.{World, runs_on};
ghost use Rattle.pip_native.specs.Monitoring.{RunsChild, HasSwitched, choice, decision_in, monitor_after, visit};
ghost use Rattle.pip_native.specs.Monitoring.{visit_acts};

use crate::chooser::Chooser;
use crate::decision::Decision;
use crate::monitor::Monitor;
use pip_base::{Outcome, Steps};
use pip_model::Port;
use pip_model::call_number::{NOT_SAVED, SAVED, YIELD};
use std::sync::ledger::Ledger;

/// The parent that runs on a processor yields to the child that its monitor chooses, by call 8 with vector 63, and
/// saves nothing. Nothing happens where no child is alive. A child whose call is refused is dropped.
pub fn decide<P: Port, F: Chooser, L: Ledger>(
    port: &mut P,
    cpu: u32,
    monitor: &mut Monitor<F>,
    steps: &mut Steps<L>,
) -> Decision
    requires cpu { cpu < P.count port.old }
    requires runs { (w : World) → P.stands port.old w → IsSome (runs_on w cpu) }
    ensures decision { (w : World) → P.stands port.old w → result ≡ decision_in w cpu monitor.old }
    ensures ran { (w : World) → P.stands port.old w →
        RunsChild result ↔ (choice monitor.old ≢ length monitor.old.children)
        × HasSwitched (event w (visit cpu monitor.old)).outcome }
    ensures monitor { (w : World) → P.stands port.old w → monitor.new ≡ monitor_after w cpu monitor.old }
    ensures acts { (w : World) → P.stands port.old w → P.stands port.new (after_acts w (visit_acts cpu monitor.old)) }
    ensures count { P.count port.new ≡ P.count port.old }
    ensures work { TakesNoMore (P.stands port.old) (λ w. visit_acts cpu monitor.old) steps.old steps.new }
{
    let i = monitor.next();
    if i == monitor.count() {
        return Decision::Nobody;
    }
    match port.call(
        cpu,
        YIELD,
        &[monitor.child(i), SAVED, NOT_SAVED, 0, 0],
        steps,
    ) {
        Outcome::Reply { status, .. } => {
            monitor.dropped(i);
            Decision::Dropped { child: i, status }
        }
        // What runs is refused, or the processor switches.
        _ => {
            monitor.ran(i);
            Decision::Ran { child: i }
        }
    }
}
