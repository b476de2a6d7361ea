//! Machines that take events.
ghost use Rattle.std.specs.Prelude.{◌≡◌, ◌≤◌, ℕ, true, length};
ghost use Rattle.pip_model.specs.Booted.{HasBooted, IsBooted};
ghost use Rattle.pip_model.specs.Happens.{after};
ghost use Rattle.pip_model.specs.Worlds.{boot_world_with};
ghost use Rattle.pip_test_every.specs.Asked.{all_asked, can_take_all};
ghost use Rattle.pip_test_every.specs.Met.{TookAll, Took};

use crate::asks::{Ask, take_one};
use pip_base::Steps;
use pip_frames::Frames;
use pip_switch::Machine;
use std::sync::ledger::Ledger;

// Makes the events of a list.
fn take_all<M: Frames, L: Ledger>(machine: &mut Machine<M>, list: &[Ask], steps: &mut Steps<L>)
    requires { can_take_all (length machine.old.cpus) list.now ≡ true }
    ensures takes { TookAll machine.old (all_asked list.now) machine.new }
    ensures count { length machine.new.cpus ≡ length machine.old.cpus }
{
    match list {
        [] => {}
        [first, rest @ ..] => {
            take_one(machine, first, steps);
            take_all(machine, rest, steps);
        }
    }
}

/// Boots a machine over frames that lay out the boot tree, and makes the events of three lists, one list after the
/// other. So in whatever world the first two end, from a boot, a machine that stands for it takes the third.
pub fn boot_and_take<M: Frames + Drop, L: Ledger>(
    mem: M,
    cpus: u32,
    first: &[Ask],
    second: &[Ask],
    list: &[Ask],
    steps: &mut Steps<L>,
)
    requires booted { HasBooted (M.memory mem) }
    requires least { 1 ≤ cpus }
    requires most { cpus ≤ 4 }
    requires first { can_take_all cpus first.now ≡ true }
    requires second { can_take_all cpus second.now ≡ true }
    requires list { can_take_all cpus list.now ≡ true }
    ensures { (n : ℕ) (words : ℕ → ℕ → ℕ) → IsBooted n words (M.memory mem) →
        Took (after (after (boot_world_with words n cpus) (all_asked first.now)) (all_asked second.now))
        (all_asked list.now) }
{
    let mut machine = Machine::new(mem, cpus);
    take_all(&mut machine, first, steps);
    take_all(&mut machine, second, steps);
    take_all(&mut machine, list, steps);
}
