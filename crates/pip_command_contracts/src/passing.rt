//! Steps that are made and not shown.
ghost use Rattle.std.specs.Prelude.{◌≡◌, ◌≤◌, ◌<◌, length};
ghost use Rattle.std.specs.List.{AllByRecursion};
ghost use Rattle.pip_model.specs.Acts.{after_acts};
ghost use Rattle.pip_model.specs.Run.{steps as run_steps};
ghost use Rattle.pip_model.specs.Worlds.{World};
ghost use Rattle.pip_switch.specs.Standing.{StandsAs};

use pip_base::{Steps, never};
use pip_frames::Frames;
use pip_io::Discard;
use pip_lines::{Callback, Line, run_lines};
use pip_switch::Machine;
use std::sync::ledger::Ledger;

/// Makes the steps, and shows nothing of them.
pub fn pass<M: Frames, F: Callback, L: Ledger>(
    machine: &mut Machine<M>,
    lines: &[Line<F>],
    count: u32,
    seed: u32,
    steps: &mut Steps<L>,
)
    requires below { AllByRecursion (λ p. p.line < 16) lines.now }
    requires seed { 1 ≤ seed }
    ensures stands { (w : World) → StandsAs machine.old w → StandsAs machine.new
        (after_acts w (run_steps w lines.now seed (length machine.old.cpus) count 0)) }
    ensures count { length machine.new.cpus ≡ length machine.old.cpus }
{
    match run_lines(machine, lines, count, seed, &mut Discard::new(), steps) {
        Ok(()) => {}
        // A sink that takes everything doesn't fail.
        Err(_) => never!(),
    }
}
