//! Faults and traps: who takes them.
ghost use Rattle.std.specs.Prelude.{◌≡◌, ◌+◌, ◌*◌, ◌<◌, ◌≤◌, None, Some, length};
ghost use Rattle.pip_model.specs.Deliver.{deliver, nearest_taker};
ghost use Rattle.pip_model.specs.Partitions.{HasPartition, InEach};
ghost use Rattle.pip_model.specs.Tree.{chain};
ghost use Rattle.pip_model.specs.declared.processors.Occupant.{Occupant};
ghost use Rattle.pip_switch.specs.Occupied.{part_on};
ghost use Rattle.pip_switch.specs.Plain.{plain_world};
ghost use Rattle.pip_switch.specs.Standing.{HasWorld, LeadsFrom};
ghost use Rattle.pip_switch.specs.Takers.{free_handler};

use crate::handlers::find_handler;
use crate::processors::{Processors, entering, is_running, parked, set_running, switched};
use crate::saves::save;
use pip_base::{Ctx, Frame, Outcome, Steps, never};
use pip_frames::Frames;
use pip_kern::{born_of, parent_of};
use pip_model::{Occupant, Taker};
use std::sync::ledger::Ledger;

// The context with which a partition handles a vector. None if it runs or doesn't handle it.
fn free_handler<M: Frames, L: Ledger>(
    mem: &M,
    cpus: &[Option<Occupant>],
    part: Frame,
    vector: u32,
    steps: &mut Steps<L>,
) -> Option<Ctx>
    requires stands { HasPartition (M.memory mem.now) part }
    requires vector { vector < 256 }
    ensures handler { InEach (M.memory mem.now) part
        (λ t x. result ≡ free_handler (plain_world t cpus.now) part vector) }
    ensures steps { steps.new ≤ steps.old + 39 }
    ensures none { result ≡ None → steps.new ≤ steps.old + 7 }
{
    if is_running(cpus, part) {
        return None;
    }
    find_handler(mem, part, vector, steps)
}

/// The nearest ancestor of a partition that doesn't run and handles the vector.
pub(crate) fn find_taker<M: Frames, L: Ledger>(
    mem: &M,
    cpus: &[Option<Occupant>],
    part: Frame,
    vector: u32,
    steps: &mut Steps<L>,
) -> Option<Taker>
    requires stands { HasPartition (M.memory mem.now) part }
    requires vector { vector < 256 }
    ensures taker { InEach (M.memory mem.now) part
        (λ t x. result ≡ nearest_taker (plain_world t cpus.now) part vector) }
    ensures chain { InEach (M.memory mem.now) part (λ t x. steps.new ≤ steps.old + 8 * length (chain t part) + 33) }
{
    let mut at = part;
    for _i in 0..mem.count() {
        let up = parent_of(mem, at, steps);
        if up == at {
            return None;
        }
        if let Some(handler) = free_handler(mem, cpus, up, vector, steps) {
            return Some(Taker {
                to: up,
                handler,
                born: born_of(mem, at, steps),
            });
        }
        at = up;
    }
    never!()
}

/// A vector that was raised, with two words for whoever takes it.
#[derive(Clone, Copy)]
pub(crate) struct Raised {
    pub vector: u32,
    pub a: u32,
    pub b: u32,
}

/// Delivers what the partition which runs on a processor raised.
pub(crate) fn deliver<M: Frames, L: Ledger>(
    mem: &mut M,
    cpus: &mut Processors,
    cpu: u32,
    part: Frame,
    raised: Raised,
    steps: &mut Steps<L>,
) -> Outcome
    requires world { HasWorld (M.memory mem.old) cpus.old.items }
    requires cpu { cpu < length cpus.old.items }
    requires runs { part_on cpus.old.items cpu ≡ Some part }
    requires vector { raised.vector < 256 }
    ensures event { LeadsFrom (M.memory mem.old) cpus.old.items cpu
        (λ w r. deliver w cpu r raised.vector raised.a raised.b)
        result (M.memory mem.new) cpus.new.items }
    ensures count { length cpus.new.items ≡ length cpus.old.items }
    ensures chain { InEach (M.memory mem.old) part (λ t x. steps.new ≤ steps.old + 8 * length (chain t part) + 76) }
{
    let taker = find_taker(mem, cpus.as_slice(), part, raised.vector, steps);
    save(mem, cpus, cpu, steps);
    match taker {
        None => {
            set_running(cpus, cpu, None);
            parked(part, raised.vector)
        }
        Some(y) => {
            let runs = entering(y.to, &y.handler, raised.vector, raised.a, raised.b, y.born);
            set_running(cpus, cpu, Some(runs));
            switched(part, y.to, raised.vector)
        }
    }
}
