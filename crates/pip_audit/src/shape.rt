//! That a memory has frames of 1024 words, whatever they hold.
ghost use Rattle.std.specs.Prelude.{◌≡◌, ℕ, ◌<◌, length, slice_index};
ghost use Rattle.pip_base.specs.Memory.{IsMemory, frame_at, word_at};
ghost use Rattle.pip_model.specs.Audit.{HasWordsOnly};
ghost use Rattle.pip_model.specs.Sound.{IsWord};

use pip_base::{Frame, Steps};
use pip_frames::Frames;
use std::sync::ledger::Ledger;

// Shows a proof, by their type, that all of them are below 2^32.
fn see_words(words: &[u32])
    ensures { (i : ℕ) → i < length words.now → IsWord (slice_index words.now i) }
{
    let _words = words.len();
}

// Shows a proof, by their type, that there are 1024 of them.
fn see_page(words: &[u32; 1024])
    ensures shape { length words.now ≡ 1024 }
    ensures words { (i : ℕ) → i < 1024 → IsWord (slice_index words.now i) }
{
    see_words(words);
}

// Borrows a frame.
fn see_frame<M: Frames, L: Ledger>(mem: &M, f: Frame, steps: &mut Steps<L>)
    requires frame { f < length (M.memory mem.now) }
    ensures shape { length (frame_at (M.memory mem.now) f) ≡ 1024 }
    ensures words { (i : ℕ) → i < 1024 → IsWord (word_at (M.memory mem.now) f i) }
{
    see_page(mem.frame(f, steps));
}

/// Borrows each frame once, since no law of the trait says how many words a frame has. No word is read.
pub(crate) fn see_frames<M: Frames, L: Ledger>(mem: &M, steps: &mut Steps<L>)
    ensures shape { IsMemory (M.memory mem.now) }
    ensures words { HasWordsOnly (M.memory mem.now) }
{
    for f in 0..mem.count() {
        see_frame(mem, Frame::new(f), steps);
    }
}
