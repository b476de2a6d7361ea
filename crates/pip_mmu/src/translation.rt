//! From a virtual address to a word of a frame.
ghost use Rattle.std.specs.Prelude.{◌≡◌, ℕ, ◌+◌, ◌≤◌};
ghost use Rattle.pip_base.specs.Rights.{rights_number};
ghost use Rattle.pip_model.specs.Partitions.{HasPartition, InEach};
ghost use Rattle.pip_model.specs.Reach.{reach, right};
ghost use Rattle.pip_space.specs.Nodes.{InEachSpace};
ghost use Rattle.pip_mmu.specs.Answers.{reached_of, word_in};
ghost use Rattle.pip_mmu.specs.Leaves.{leaf_of, through_leaf};

use crate::faults::MmuFault;
use bitflags::Flags;
use pip_base::{Access, Frame, Rights, Size, Steps, VPage, never};
use pip_entry::{Leaf, unpack_leaf};
use pip_frames::Frames;
use pip_space::leaf_word;
use std::sync::ledger::Ledger;

// The right that an access needs.
#[inline(always)]
fn right_for(access: Access) -> Rights
    ensures { rights_number result ≡ right access }
{
    match access {
        Access::Load => Rights::READ,
        Access::Store => Rights::WRITE,
        Access::Fetch => Rights::EXEC,
    }
}

// What the MMU's tables say of a virtual page.
#[inline(always)]
fn walk<M: Frames, L: Ledger>(mem: &M, part: Frame, v: VPage, steps: &mut Steps<L>) -> Leaf
    requires { HasPartition (M.memory mem.now) part }
    ensures leaf { InEachSpace (M.memory mem.now) part (λ x rows. result ≡ leaf_of (rows v)) }
    ensures steps { steps.new ≤ steps.old + 3 }
{
    match unpack_leaf(leaf_word(mem, part, v, steps)) {
        Some(entry) => entry,
        None => never!(),
    }
}

/// What the MMU's tables say, out of line: loads, stores and fetches rarely need it.
#[inline(never)]
pub(crate) fn mmu_leaf<M: Frames, L: Ledger>(
    mem: &M,
    part: Frame,
    v: VPage,
    steps: &mut Steps<L>,
) -> Leaf
    requires { HasPartition (M.memory mem.now) part }
    ensures leaf { InEachSpace (M.memory mem.now) part (λ x rows. result ≡ leaf_of (rows v)) }
    ensures steps { steps.new ≤ steps.old + 3 }
{
    walk(mem, part, v, steps)
}

/// The page to which an access leads by what the MMU's tables say of its virtual page.
#[inline(always)]
pub(crate) fn through(entry: Leaf, access: Access) -> Result<Frame, MmuFault>
    ensures { (va : ℕ) → reached_of (word_in va result) ≡ through_leaf va access entry }
{
    match entry {
        Leaf::Empty => Err(MmuFault::Unmapped),
        Leaf::Page {
            frame,
            user,
            rights,
        } => {
            if !user {
                Err(MmuFault::Hidden)
            } else if !rights.contains(right_for(access)) {
                Err(MmuFault::Right)
            } else {
                Ok(frame)
            }
        }
    }
}

/// The page that an access of `part` reaches at address `va`, or the first fault that applies. The alignment isn't
/// tested.
#[inline(always)]
pub(crate) fn page_of<M: Frames, L: Ledger>(
    mem: &M,
    part: Frame,
    va: u32,
    access: Access,
    steps: &mut Steps<L>,
) -> Result<Frame, MmuFault>
    requires { HasPartition (M.memory mem.now) part }
    ensures reached { InEach (M.memory mem.now) part (λ t x.
        reached_of (word_in va result) ≡ reach t part va access Size.Byte) }
    ensures steps { steps.new ≤ steps.old + 3 }
{
    let entry = walk(mem, part, VPage::of_address(va), steps);
    through(entry, access)
}

/// The frame and the index of the word that an access of `part` reaches at address `va`, or the first fault that
/// applies. The alignment isn't tested, so this is what an access of a byte reaches.
#[inline(always)]
pub fn translate<M: Frames, L: Ledger>(
    mem: &M,
    part: Frame,
    va: u32,
    access: Access,
    steps: &mut Steps<L>,
) -> Result<(Frame, u32), MmuFault>
    requires { HasPartition (M.memory mem.now) part }
    ensures reached { InEach (M.memory mem.now) part (λ t x.
        reached_of result ≡ reach t part va access Size.Byte) }
    ensures steps { steps.new ≤ steps.old + 3 }
{
    match page_of(mem, part, va, access, steps) {
        Ok(frame) => Ok((frame, va % 4096 / 4)),
        Err(fault) => Err(fault),
    }
}
