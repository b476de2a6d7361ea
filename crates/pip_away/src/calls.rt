//! Calls.
ghost use Rattle.std.specs.Prelude.{◌≡◌, IfSome, option_map};
ghost use Rattle.pip_model.specs.Answers.{five_of, page_of};
ghost use Rattle.pip_model.specs.Happens.{call_named};
ghost use Rattle.pip_model.specs.Partitions.{HasPartition, InEach};
ghost use Rattle.pip_model.specs.Prepare.{next_in_chain};
ghost use Rattle.pip_model.specs.Switching.{target_node};
ghost use Rattle.pip_guests.specs.Sights as tests;
ghost use Rattle.pip_away.specs.Blind.{sight_of};

use crate::blind::Blind;
use crate::handlers::{handler_misses, save_misses};
use pip_base::{Frame, Steps};
use pip_frames::Frames;
use pip_kern::{child_at, parent_of, row_at};
use pip_model::call_number::{NOT_SAVED, PREPARE, YIELD};
use std::sync::ledger::Ledger;

// The page that a partition has at an address, 0 where it has none, and its first word, 0 where it can't be read.
fn link_at<M: Frames, L: Ledger>(
    mem: &M,
    part: Frame,
    va: u32,
    steps: &mut Steps<L>,
) -> (Frame, u32)
    requires { HasPartition (M.memory mem.now) part }
    ensures page { InEach (M.memory mem.now) part (λ t x. result.0 ≡ page_of t part va) }
    ensures next { InEach (M.memory mem.now) part (λ t x. result.1 ≡ next_in_chain t part va) }
{
    match row_at(mem, part, va, steps) {
        None => (Frame::new(0), 0),
        Some(row) => {
            if row.user {
                return (row.frame, mem.word(row.frame, 0, steps));
            }
            (row.frame, 0)
        }
    }
}

// Whether the pages of a chain but the last have no first word that is left out.
fn chain_misses<M: Frames, L: Ledger>(
    mem: &M,
    blind: &Blind,
    part: Frame,
    first: u32,
    steps: &mut Steps<L>,
) -> bool
    requires { HasPartition (M.memory mem.now) part }
    ensures { InEach (M.memory mem.now) part
        (λ t x. result ≡ tests.chain_passes (sight_of blind.now) t part 3 first) }
{
    let mut at = first;
    for _i in 0..3u32 {
        let link = link_at(mem, part, at, steps);
        if !blind.sees(link.0, 0) {
            return false;
        }
        at = link.1;
    }
    true
}

// The target of a yield: the parent for 0, the caller for 1, else the child whose descriptor the caller has at `d`.
fn find_target<M: Frames, L: Ledger>(
    mem: &M,
    caller: Frame,
    d: u32,
    steps: &mut Steps<L>,
) -> Option<Frame>
    requires { HasPartition (M.memory mem.now) caller }
    ensures target { InEach (M.memory mem.now) caller
        (λ t x. result ≡ option_map (λ y. y.name) (target_node t caller d)) }
    ensures stands { IfSome result (HasPartition (M.memory mem.now)) }
{
    if d == 0 {
        let up = parent_of(mem, caller, steps);
        return if up == caller { None } else { Some(up) };
    }
    if d == 1 {
        return Some(caller);
    }
    if d % 4096 != 0 {
        return None;
    }
    child_at(mem, caller, d, steps)
}

// Whether the handler of a yield's target, if it has one, isn't left out.
fn target_misses<M: Frames, L: Ledger>(
    mem: &M,
    blind: &Blind,
    caller: Frame,
    d: u32,
    vector: u32,
    steps: &mut Steps<L>,
) -> bool
    requires { HasPartition (M.memory mem.now) caller }
    ensures { InEach (M.memory mem.now) caller (λ t x. result ≡ tests.target_passes blind.now.own.items
        (sight_of blind.now) t vector (target_node t caller d)) }
{
    match find_target(mem, caller, d, steps) {
        None => true,
        Some(to) => handler_misses(mem, blind, to, vector, steps),
    }
}

// Whether a yield reads no word that is left out: the handler of its target isn't, nor is the entry by which the caller
// is saved.
fn yield_misses<M: Frames, L: Ledger>(
    mem: &M,
    blind: &Blind,
    caller: Frame,
    args: &[u32; 5],
    steps: &mut Steps<L>,
) -> bool
    requires { HasPartition (M.memory mem.now) caller }
    ensures { InEach (M.memory mem.now) caller (λ t x. result
        ≡ tests.yield_passes blind.now.own.items (sight_of blind.now) t caller (five_of args.now)) }
{
    let [d, vector, save, _, _] = *args;
    if !target_misses(mem, blind, caller, d, vector, steps) {
        return false;
    }
    save >= NOT_SAVED || save_misses(mem, blind, caller, save, steps)
}

/// Whether a call reads no word that is left out.
pub(crate) fn call_misses<M: Frames, L: Ledger>(
    mem: &M,
    blind: &Blind,
    caller: Frame,
    number: u32,
    args: &[u32; 5],
    steps: &mut Steps<L>,
) -> bool
    requires { HasPartition (M.memory mem.now) caller }
    ensures { InEach (M.memory mem.now) caller (λ t x. result ≡ tests.call_passes blind.now.own.items
        (sight_of blind.now) t caller (five_of args.now) (call_named number)) }
{
    match number {
        PREPARE => chain_misses(mem, blind, caller, args[2], steps),
        YIELD => yield_misses(mem, blind, caller, args, steps),
        _ => true,
    }
}
