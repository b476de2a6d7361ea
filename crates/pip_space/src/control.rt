//! What a partition's descriptor says of its control: whether it is masked, and the lines that are pending in it.
//! Unlike the rest of this crate, this speaks of whole trees: after a write the memory lays out the tree in which only
//! the control of this partition has changed.
ghost use Rattle.std.specs.Prelude.{◌≡◌, ℕ, ◌+◌, ◌^◌, List, length, sum_by};
ghost use Rattle.pip_model.specs.Layout.{LaysOut};
ghost use Rattle.pip_model.specs.NodeWords.{flag};
ghost use Rattle.pip_model.specs.Partitions.{HasPartition, InEach, IsHeld};
ghost use Rattle.pip_model.specs.Sound.{AreLines, IsSound};
ghost use Rattle.pip_model.specs.Tree.{Tree};
ghost use Rattle.pip_model.specs.Worlds.{with_masked, with_pending};

use pip_base::{Frame, Steps};
use pip_entry::descriptor::{FLAGS, MASKED, PENDING};
use pip_frames::Frames;
use pip_model::ROOT;
use std::sync::ledger::Ledger;

// The word of the flags.
fn flags_word(masked: bool) -> u32
    ensures { result ≡ flag masked 1 }
{
    if masked { MASKED } else { 0 }
}

/// Whether `part` is masked. Takes one step.
pub fn is_masked<M: Frames, L: Ledger>(mem: &M, part: Frame, steps: &mut Steps<L>) -> bool
    requires { HasPartition (M.memory mem.now) part }
    ensures masked { InEach (M.memory mem.now) part (λ t x. result ≡ x.masked) }
    ensures step { steps.new ≡ steps.old + 1 }
{
    mem.word(part, FLAGS, steps) == MASKED
}

/// The lines that are pending in the root, bit k for line k. Takes one step.
pub fn pending<M: Frames, L: Ledger>(mem: &M, steps: &mut Steps<L>) -> u32
    requires { HasPartition (M.memory mem.now) 1 }
    ensures lines { (t : Tree) → IsSound t → LaysOut t (M.memory mem.now) →
        result ≡ sum_by (λ j. 2 ^ j) t.root.pending }
    ensures step { steps.new ≡ steps.old + 1 }
{
    mem.word(Frame::new(ROOT), PENDING, steps)
}

/// Masks `part`, or unmasks it.
pub fn set_masked<M: Frames>(mem: &mut M, part: Frame, masked: bool)
    requires { HasPartition (M.memory mem.old) part }
    ensures tree { InEach (M.memory mem.old) part (λ t x. IsHeld (with_masked part masked t) (M.memory mem.new)) }
    ensures count { length (M.memory mem.new) ≡ length (M.memory mem.old) }
{
    mem.set_word(part, FLAGS, flags_word(masked));
}

/// Sets the root's pending lines, bit k for line k.
pub fn set_pending<M: Frames>(mem: &mut M, lines: u32)
    requires { HasPartition (M.memory mem.old) 1 }
    ensures tree { (t : Tree) (js : List ℕ) → IsSound t → LaysOut t (M.memory mem.old) → AreLines 0 js →
        lines ≡ sum_by (λ j. 2 ^ j) js → IsHeld (with_pending js t) (M.memory mem.new) }
    ensures count { length (M.memory mem.new) ≡ length (M.memory mem.old) }
{
    mem.set_word(Frame::new(ROOT), PENDING, lines);
}
