//! What accesses do before and after a translation, whether it comes from the tables or the cache.
ghost use Rattle.std.specs.Prelude.{◌≡◌, ℕ, ◌+◌, ◌/◌, ◌%◌, ◌<◌, length};
ghost use Rattle.pip_base.specs.Memory.{put_word, word_at};
ghost use Rattle.pip_model.specs.Events.{below_of};
ghost use Rattle.pip_model.specs.Happens.{read_of, written_over};
ghost use Rattle.pip_model.specs.Reach.{is_misaligned};
ghost use Rattle.pip_mmu.specs.Answers.{place_answer, reached_of, word_in};

use crate::bytes::{read_of, written_over};
use crate::faults::{AccessFault, MmuFault};
use pip_base::{Frame, Size, Steps};
use pip_frames::Frames;
use std::sync::ledger::Ledger;

/// Whether an access of this size isn't aligned at address `va`.
#[inline(always)]
pub(crate) fn is_misaligned(va: u32, size: Size) -> bool
    ensures { result ≡ is_misaligned va size }
{
    match size {
        Size::Byte => false,
        Size::Word => va % 4 != 0,
    }
}

/// What an aligned access answers, by its translation.
#[inline(always)]
pub(crate) fn by_translation(translated: Result<Frame, MmuFault>) -> Result<Frame, AccessFault>
    ensures { (va : ℕ) → word_in va result ≡ place_answer (reached_of (word_in va translated)) }
{
    match translated {
        Ok(frame) => Ok(frame),
        Err(fault) => Err(AccessFault::Mmu(fault)),
    }
}

/// What an access at address `va` reads of the word there of a page.
#[inline(always)]
pub(crate) fn read_at<M: Frames, L: Ledger>(
    mem: &M,
    frame: Frame,
    va: u32,
    size: Size,
    steps: &mut Steps<L>,
) -> u32
    requires { frame < length (M.memory mem.now) }
    ensures value { result ≡ read_of va size (word_at (M.memory mem.now) frame (va % 4096 / 4)) }
    ensures step { steps.new ≡ steps.old + 1 }
{
    read_of(va, size, mem.word(frame, va % 4096 / 4, steps))
}

/// Writes `x` over what an access at address `va` reaches of the word there of a page.
#[inline(always)]
pub(crate) fn write_at<M: Frames, L: Ledger>(
    mem: &mut M,
    frame: Frame,
    va: u32,
    size: Size,
    x: u32,
    steps: &mut Steps<L>,
)
    requires frame { frame < length (M.memory mem.old) }
    requires fits { x < below_of size }
    ensures words { M.memory mem.new ≡ put_word (M.memory mem.old) frame (va % 4096 / 4)
        (written_over va size x (word_at (M.memory mem.old) frame (va % 4096 / 4))) }
    ensures count { length (M.memory mem.new) ≡ length (M.memory mem.old) }
    ensures step { steps.new ≡ steps.old + 1 }
{
    let i = va % 4096 / 4;
    let old = mem.word(frame, i, steps);
    mem.set_word(frame, i, written_over(va, size, x, old));
}
