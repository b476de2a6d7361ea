//! Partitions that are confined.
ghost use Rattle.std.specs.Prelude.{◌≡◌, ◌<◌, length};
ghost use Rattle.pip_model.specs.Worlds.{World, runs_on};
ghost use Rattle.pip_guests.specs.Sights as tests;
ghost use Rattle.pip_switch.specs.Standing.{StandsAs};

use crate::blind::Blind;
use crate::rows::is_childless;
use pip_base::Steps;
use pip_frames::Frames;
use pip_model::ROOT;
use pip_switch::Machine;
use std::sync::ledger::Ledger;

/// Whether what runs on a processor, if anything does, is one of these partitions, isn't the root, and has no children.
pub fn is_confined<M: Frames, L: Ledger>(
    machine: &Machine<M>,
    blind: &Blind,
    cpu: u32,
    steps: &mut Steps<L>,
) -> bool
    requires cpu { cpu < length machine.now.cpus }
    requires stands { (w : World) × StandsAs machine.now w }
    ensures { (w : World) → StandsAs machine.now w → result
        ≡ tests.if_runs (runs_on w cpu) (tests.has_no_child blind.now.own.items w.tree) }
{
    match machine.runs(cpu) {
        None => true,
        Some(part) => {
            if !blind.is_own(part) {
                return false;
            }
            if part.number() == ROOT {
                return false;
            }
            is_childless(machine.mem(), part, steps)
        }
    }
}
