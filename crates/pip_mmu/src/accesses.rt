//! Loads, stores and fetches.
ghost use Rattle.std.specs.Prelude.{◌≡◌, ◌≢◌, ◌+◌, ◌<◌, ◌≤◌, IfOk, OnErr, length};
ghost use Rattle.pip_model.specs.Events.{below_of};
ghost use Rattle.pip_model.specs.Partitions.{HasPartition, InEach, IsHeld};
ghost use Rattle.pip_model.specs.Reach.{reach};
ghost use Rattle.pip_mmu.specs.Answers.{load_answer, place_answer, store_answer, tree_stored, word_in};

use crate::around::{by_translation, is_misaligned, read_at, write_at};
use crate::faults::AccessFault;
use crate::translation::page_of;
use pip_base::{Access, Frame, Size, Steps};
use pip_frames::Frames;
use std::sync::ledger::Ledger;

// The page that an access of `part` reaches at address `va`, or the first fault that applies.
fn locate<M: Frames, L: Ledger>(
    mem: &M,
    part: Frame,
    va: u32,
    size: Size,
    access: Access,
    steps: &mut Steps<L>,
) -> Result<Frame, AccessFault>
    requires { HasPartition (M.memory mem.now) part }
    ensures place { InEach (M.memory mem.now) part (λ t x.
        word_in va result ≡ place_answer (reach t part va access size)) }
    ensures inside { IfOk result (λ frame. frame < length (M.memory mem.now)) }
    ensures steps { steps.new ≤ steps.old + 3 }
{
    if is_misaligned(va, size) {
        return Err(AccessFault::Alignment);
    }
    by_translation(page_of(mem, part, va, access, steps))
}

/// The word, or the byte as a number below 256, that a load or a fetch of `part` reads at address `va`, or the first
/// fault that applies.
pub fn load<M: Frames, L: Ledger>(
    mem: &M,
    part: Frame,
    va: u32,
    size: Size,
    access: Access,
    steps: &mut Steps<L>,
) -> Result<u32, AccessFault>
    requires stands { HasPartition (M.memory mem.now) part }
    requires reads { access ≢ Access.Store }
    ensures answer { InEach (M.memory mem.now) part (λ t x.
        result ≡ load_answer t va size (reach t part va access size)) }
    ensures steps { steps.new ≤ steps.old + 4 }
{
    let frame = locate(mem, part, va, size, access, steps)?;
    Ok(read_at(mem, frame, va, size, steps))
}

/// Writes a word, or a byte that is at most 255, at address `va` of `part`, or gives the first fault that applies.
/// Nothing changes after a fault.
pub fn store<M: Frames, L: Ledger>(
    mem: &mut M,
    part: Frame,
    va: u32,
    size: Size,
    word: u32,
    steps: &mut Steps<L>,
) -> Result<(), AccessFault>
    requires stands { HasPartition (M.memory mem.old) part }
    requires fits { word < below_of size }
    ensures answer { InEach (M.memory mem.old) part (λ t x.
        result ≡ store_answer (reach t part va Access.Store size)) }
    ensures tree { InEach (M.memory mem.old) part (λ t x.
        IsHeld (tree_stored t va size word (reach t part va Access.Store size)) (M.memory mem.new)) }
    ensures count { length (M.memory mem.new) ≡ length (M.memory mem.old) }
    ensures fault { OnErr result (M.memory mem.new ≡ M.memory mem.old) }
    ensures steps { steps.new ≤ steps.old + 4 }
{
    let frame = locate(mem, part, va, size, Access::Store, steps)?;
    write_at(mem, frame, va, size, word, steps);
    Ok(())
}
