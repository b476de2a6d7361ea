//! Parents, children and chains of partitions.
ghost use Rattle.std.specs.Prelude.{◌≡◌, ◌+◌, ◌%◌, ◌≤◌, ◌↔◌, Option, Some, length, option_map, true};
ghost use Rattle.pip_model.specs.FullRows.{FullRow, row_word};
ghost use Rattle.pip_model.specs.declared.level.Level.TheVariants.{Mmu};
ghost use Rattle.pip_model.specs.Midway.{OnChain};
ghost use Rattle.pip_model.specs.Partitions.{HasPartition, InEach};
ghost use Rattle.pip_model.specs.Tree.{chain, child_at as tree_child_at};
ghost use Rattle.pip_space.specs.Rows.{IsPacked};

use pip_base::{Frame, Steps, VPage, never};
use pip_entry::descriptor::{PARENT, SELF_VA};
use pip_entry::{Leaf, Sh1, unpack_leaf};
use pip_frames::Frames;
use pip_space::{given, leaf_word};
use std::sync::ledger::Ledger;

/// The parent of a partition. The root's parent is the root. Takes one step.
pub fn parent_of<M: Frames, L: Ledger>(mem: &M, part: Frame, steps: &mut Steps<L>) -> Frame
    requires { HasPartition (M.memory mem.now) part }
    ensures parent { InEach (M.memory mem.now) part (λ t x. result ≡ x.up) }
    ensures stands { HasPartition (M.memory mem.now) result }
    ensures step { steps.new ≡ steps.old + 1 }
{
    Frame::new(mem.word(part, PARENT, steps))
}

/// The address at which the parent of a partition has its descriptor. 0 for the root. Takes one step.
pub fn born_of<M: Frames, L: Ledger>(mem: &M, part: Frame, steps: &mut Steps<L>) -> u32
    requires { HasPartition (M.memory mem.now) part }
    ensures born { InEach (M.memory mem.now) part (λ t x. result ≡ x.born) }
    ensures step { steps.new ≡ steps.old + 1 }
{
    mem.word(part, SELF_VA, steps)
}

// The page that a word of an MMU table names. None if it names none.
fn page_of(word: u32) -> Option<Frame>
    ensures { (r : Option FullRow) → IsPacked r → word ≡ row_word Mmu r → result ≡ option_map (λ q. q.frame) r }
{
    match unpack_leaf(word)? {
        Leaf::Empty => None,
        Leaf::Page { frame, .. } => Some(frame),
    }
}

/// The child whose descriptor the caller has at the address `va`, a multiple of 4096. None exactly where there is none.
/// Takes at most 6 steps.
pub fn child_at<M: Frames, L: Ledger>(
    mem: &M,
    caller: Frame,
    va: u32,
    steps: &mut Steps<L>,
) -> Option<Frame>
    requires stands { HasPartition (M.memory mem.now) caller }
    requires place { va % 4096 ≡ 0 }
    ensures child { InEach (M.memory mem.now) caller (λ t x.
        result ≡ option_map (λ y. y.name) (tree_child_at t caller va)) }
    ensures steps { steps.new ≤ steps.old + 6 }
{
    let v = VPage::of_address(va);
    match given(mem, caller, v, steps) {
        Sh1::Descriptor(_) => page_of(leaf_word(mem, caller, v, steps)),
        Sh1::Free => None,
        Sh1::Config(_) => None,
        Sh1::Lent(_) => None,
    }
}

/// Whether a partition is `top` or below it: `top` is on the chain of its parents. No chain has as many partitions as
/// the memory has frames, so the climb ends at `top` or at the root.
pub fn is_below<M: Frames, L: Ledger>(
    mem: &M,
    part: Frame,
    top: Frame,
    steps: &mut Steps<L>,
) -> bool
    requires { HasPartition (M.memory mem.now) part }
    ensures below { InEach (M.memory mem.now) part (λ t x. (result ≡ true) ↔ OnChain t top part) }
    ensures steps { steps.new ≤ steps.old + length (M.memory mem.now) }
    ensures chain { InEach (M.memory mem.now) part (λ t x. steps.new ≤ steps.old + length (chain t part)) }
{
    let mut at = part;
    for _i in 0..mem.count() {
        if at == top {
            return true;
        }
        let up = parent_of(mem, at, steps);
        if up == at {
            return false;
        }
        at = up;
    }
    never!()
}
