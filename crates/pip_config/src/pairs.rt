//! Pairs in two words: an address in the parent, and the frame there.
ghost use Rattle.std.specs.Prelude.{◌≡◌, ◌<◌, ◌+◌, ◌^◌, [], ◌∷◌, length};
ghost use Rattle.pip_base.specs.Memory.{put_words, word_at};

use pip_base::{Frame, Pair, Steps};
use pip_frames::Frames;
use std::sync::ledger::Ledger;

/// Writes a pair at the index `at`, below 1023: the address, then the frame.
pub fn write_pair<M: Frames>(mem: &mut M, page: Frame, at: u32, p: Pair)
    requires frame { page < length (M.memory mem.old) }
    requires index { at < 1023 }
    ensures words { M.memory mem.new ≡ put_words (M.memory mem.old) page at (p.va ∷ p.frame ∷ []) }
    ensures small { p.frame < 2 ^ 20 }
    ensures count { length (M.memory mem.new) ≡ length (M.memory mem.old) }
{
    mem.set_word(page, at, p.va);
    mem.set_word(page, at + 1, p.frame.number());
}

/// Reads a pair at the index `at`, below 1023: the address, then the frame, whose number is below 2^20.
pub fn read_pair<M: Frames, L: Ledger>(mem: &M, page: Frame, at: u32, steps: &mut Steps<L>) -> Pair
    requires frame { page < length (M.memory mem.now) }
    requires index { at < 1023 }
    requires small { word_at (M.memory mem.now) page (at + 1) < 2 ^ 20 }
    ensures va { result.va ≡ word_at (M.memory mem.now) page at }
    ensures frame { result.frame ≡ word_at (M.memory mem.now) page (at + 1) }
    ensures steps { steps.new ≡ steps.old + 2 }
{
    Pair {
        va: mem.word(page, at, steps),
        frame: Frame::new(mem.word(page, at + 1, steps)),
    }
}
