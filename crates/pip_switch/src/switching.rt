//! The call that switches.
ghost use Rattle.std.specs.Prelude.{◌≡◌, ◌≢◌, ◌+◌, ◌<◌, ◌≤◌, ◌%◌, ◌==◌, ◌&&◌, ◌||◌, nat_le, false, not, IfOk, IfSome};
ghost use Rattle.std.specs.Prelude.{Some};
ghost use Rattle.std.specs.Prelude.{length, option_map, if◌then◌else◌};
ghost use Rattle.std.specs.List.{list_any};
ghost use Rattle.pip_model.specs.Answers.{five_of};
ghost use Rattle.pip_model.specs.Layout.{LaysOut};
ghost use Rattle.pip_model.specs.Partitions.{HasPartition, InEach};
ghost use Rattle.pip_model.specs.Switching.{parent_of, target_node, yield};
ghost use Rattle.pip_model.specs.Tree.{is_place};
ghost use Rattle.pip_model.specs.Worlds.{with_masked};
ghost use Rattle.pip_model.specs.declared.processors.Occupant.{Occupant};
ghost use Rattle.pip_switch.specs.Blocks.{HasRoom, IsPlace};
ghost use Rattle.pip_switch.specs.Occupied.{part_on, runs_name};
ghost use Rattle.pip_switch.specs.Standing.{HasWorld, LeadsFrom};
ghost use Rattle.pip_switch.specs.Yielding.{YieldTested};

use crate::blocks::HandlerBlock;
use crate::contexts::{put_reply, set_reply};
use crate::handlers::{find_handler, find_place};
use crate::processors::{Processors, is_running, set_running, switched};
use crate::saves::save_to;
use pip_base::{Frame, Outcome, Status, Steps};
use pip_frames::Frames;
use pip_kern::{child_at, parent_of};
use pip_model::call_number::NOT_SAVED;
use pip_model::{Occupant, ROOT};
use pip_space::set_masked;
use std::sync::ledger::Ledger;

// The parent of a partition. None for the root.
fn parent<M: Frames, L: Ledger>(mem: &M, part: Frame, steps: &mut Steps<L>) -> Option<Frame>
    requires { HasPartition (M.memory mem.now) part }
    ensures parent { InEach (M.memory mem.now) part (λ t x. result ≡ option_map (λ y. y.name) (parent_of t part)) }
    ensures steps { steps.new ≡ steps.old + 1 }
{
    let up = parent_of(mem, part, steps);
    if up == part {
        return None;
    }
    Some(up)
}

// The target of a yield: the parent for 0, the caller for 1, else the child whose descriptor the caller has at `d`, a
// multiple of 4096.
fn find_target<M: Frames, L: Ledger>(
    mem: &M,
    caller: Frame,
    d: u32,
    steps: &mut Steps<L>,
) -> Option<Frame>
    requires stands { HasPartition (M.memory mem.now) caller }
    requires place { d ≢ 1 → d % 4096 ≡ 0 }
    ensures target { InEach (M.memory mem.now) caller
        (λ t x. result ≡ option_map (λ y. y.name) (target_node t caller d)) }
    ensures steps { steps.new ≤ steps.old + 6 }
{
    if d == 0 {
        return parent(mem, caller, steps);
    }
    if d == 1 {
        return Some(caller);
    }
    child_at(mem, caller, d, steps)
}

// Whether an address can't name a target: it is neither 1 nor a multiple of 4096.
fn is_misplaced(d: u32) -> bool
    ensures { result ≡ (not (d == 1) && not (is_place d)) }
{
    d != 1 && d % 4096 != 0
}

// Whether a vector, or the one to save by, is no number that a yield takes.
fn is_no_vector(vector: u32, save: u32) -> bool
    ensures { result ≡ (nat_le 256 vector || nat_le 257 save) }
{
    vector >= 256 || save >= 257
}

// Whether a target that isn't the caller runs.
fn is_busy(cpus: &[Option<Occupant>], to: Frame, caller: Frame) -> bool
    ensures { result ≡ (not (to == caller) && list_any (λ cpu. runs_name to cpu) cpus.now) }
{
    to != caller && is_running(cpus, to)
}

// Where the caller is saved, by the vector that it gives: `Ok(None)` for 256. `Err` if its block can't be saved to.
fn find_save<M: Frames, L: Ledger>(
    mem: &M,
    caller: Frame,
    save: u32,
    steps: &mut Steps<L>,
) -> Result<Option<HandlerBlock>, Status>
    requires stands { HasPartition (M.memory mem.now) caller }
    requires vector { save ≤ 256 }
    ensures place { InEach (M.memory mem.now) caller (λ t x. IsPlace t caller save result) }
    ensures room { IfOk result (λ y. IfSome y (HasRoom (M.memory mem.now))) }
    ensures steps { steps.new ≤ steps.old + 11 }
{
    if save == NOT_SAVED {
        return Ok(None);
    }
    match find_place(mem, caller, save, steps) {
        None => Err(Status::BadSave),
        Some(place) => Ok(Some(place)),
    }
}

// The target of a yield, the context of its handler and where the caller is saved, or the status of the first test that
// fails. Nothing is written.
fn check_yield<M: Frames, L: Ledger>(
    mem: &M,
    cpus: &Processors,
    caller: Frame,
    args: &[u32; 5],
    steps: &mut Steps<L>,
) -> Result<(Occupant, Option<HandlerBlock>), Status>
    requires { HasPartition (M.memory mem.now) caller }
    ensures tested { YieldTested (M.memory mem.now) cpus.now.items caller (five_of args.now) result }
    ensures room { IfOk result (λ y. IfSome y.1 (HasRoom (M.memory mem.now))) }
    ensures steps { steps.new ≤ steps.old + 56 }
{
    let [d, vector, save, _, _] = *args;
    if is_misplaced(d) {
        return Err(Status::NotAligned);
    }
    let Some(to) = find_target(mem, caller, d, steps) else {
        return Err(Status::NotChild);
    };
    if is_no_vector(vector, save) {
        return Err(Status::BadVector);
    }
    if is_busy(cpus.as_slice(), to, caller) {
        return Err(Status::Running);
    }
    let Some(ctx) = find_handler(mem, to, vector, steps) else {
        return Err(Status::NoHandler);
    };
    match find_save(mem, caller, save, steps) {
        Err(status) => Err(status),
        Ok(place) => Ok((Occupant { name: to, ctx }, place)),
    }
}

// Unmasks the root if it is the caller.
fn unmask<M: Frames>(mem: &mut M, caller: Frame)
    requires { HasPartition (M.memory mem.old) caller }
    ensures { InEach (M.memory mem.old) caller (λ t x.
        let masked = if caller == t.root.name then false else t.root.masked in
        LaysOut (with_masked t.root.name masked t) (M.memory mem.new)) }
{
    if caller.number() == ROOT {
        set_masked(mem, caller, false);
    }
}

/// What runs on a processor yields.
pub(crate) fn yield_to<M: Frames, L: Ledger>(
    mem: &mut M,
    cpus: &mut Processors,
    cpu: u32,
    caller: Frame,
    args: &[u32; 5],
    steps: &mut Steps<L>,
) -> Outcome
    requires world { HasWorld (M.memory mem.old) cpus.old.items }
    requires cpu { cpu < length cpus.old.items }
    requires runs { part_on cpus.old.items cpu ≡ Some caller }
    ensures event { LeadsFrom (M.memory mem.old) cpus.old.items cpu (λ w r. yield w cpu r (five_of args.now)) result
        (M.memory mem.new) cpus.new.items }
    ensures count { length cpus.new.items ≡ length cpus.old.items }
    ensures steps { steps.new ≤ steps.old + 88 }
{
    match check_yield(mem, cpus, caller, args, steps) {
        Err(status) => put_reply(cpus, cpu, status, 0),
        Ok((runs, place)) => {
            set_reply(cpus, cpu, Status::Ok, 0);
            save_to(mem, cpus, cpu, place, steps);
            unmask(mem, caller);
            let to = runs.name;
            set_running(cpus, cpu, Some(runs));
            switched(caller, to, args[1])
        }
    }
}
