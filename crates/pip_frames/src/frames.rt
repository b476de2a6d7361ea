//! The machine's memory as a trait, over which the kernel is generic.
ghost use Rattle.std.specs.Prelude.{◌≡◌, ◌≢◌, ℕ, ◌+◌, ◌<◌, ◌≤◌, List, length, slice_set};
ghost use Rattle.std.specs.Borrow.{sem, Lends, Array, u32};
ghost use Rattle.pip_base.specs.Memory.{Memory, frame_at, put_word, word_at, zero_frame};

use pip_base::{Frame, Steps};
use std::sync::ledger::Ledger;

/// 16 to 4096 frames of 1024 words of 32 bits each. A frame is named by its place, from 0 on.
pub trait Frames {
    /// Each frame as the list of its words. Each list has 1024 words (`IsMemory`) where a constructor begins, and keeps
    /// them at each write below; no law says so of every value of the type.
    ghost memory: { Self → Memory };

    /// The frames with these words in one of them, for contracts alone: what is left when they were lent for writing.
    ghost put: { Self → ℕ → List ℕ → Self };

    /// The number of frames.
    fn count(&self) -> u32
        ensures { result ≡ length (memory self.now) };

    /// Word `i` of frame `f`. The read is one step.
    fn word<L: Ledger>(&self, f: Frame, i: u32, steps: &mut Steps<L>) -> u32
        requires frame { f < length (memory self.now) }
        requires index { i < 1024 }
        ensures word { result ≡ word_at (memory self.now) f i }
        ensures step { steps.new ≡ steps.old + 1 };

    /// Writes `w` as word `i` of frame `f`, and changes no other word.
    fn set_word(&mut self, f: Frame, i: u32, w: u32)
        requires frame { f < length (memory self.old) }
        requires index { i < 1024 }
        ensures words { memory self.new ≡ put_word (memory self.old) f i w }
        ensures count { length (memory self.new) ≡ length (memory self.old) };

    /// Writes 0 as each word of frame `f`, and changes no other frame.
    fn zero(&mut self, f: Frame)
        requires { f < length (memory self.old) }
        ensures words { memory self.new ≡ zero_frame (memory self.old) f }
        ensures count { length (memory self.new) ≡ length (memory self.old) };

    /// The words of frame `f`, lent for reading. `f` is below the number of frames. That is 32 steps, one for each 32
    /// words.
    fn frame<L: Ledger>(&self, f: Frame, steps: &mut Steps<L>) -> &[u32; 1024]
        requires { f < length (memory self.now) }
        ensures words { result.now ≡ frame_at (memory self.now) f }
        ensures steps { steps.new ≡ steps.old + 32 };

    /// The words of frame `f`, lent for writing. `f` is below the number of frames. It then has what was left in them;
    /// the other frames stay. That is 32 steps.
    fn frame_mut<L: Ledger>(&mut self, f: Frame, steps: &mut Steps<L>) -> &mut [u32; 1024]
        requires { f < length (memory self.old) }
        ensures* writes_back { sem 𝓛 (Lends Self.row (Array u32 1024) self.entry result (put self.old f)) }
        ensures words { result.now ≡ frame_at (memory self.old) f }
        ensures steps { steps.new ≡ steps.old + 32 };

    /// The words of frame `read`, lent for reading, and those of frame `write`, lent for writing. The two are different
    /// frames below the number of frames. `write` then has what was written through the second; the other frames stay.
    /// That is 64 steps.
    fn pair<L: Ledger>(
        &mut self,
        read: Frame,
        write: Frame,
        steps: &mut Steps<L>,
    ) -> (&[u32; 1024], &mut [u32; 1024])
        requires read { read < length (memory self.old) }
        requires write { write < length (memory self.old) }
        requires apart { read ≢ write }
        ensures* writes_back { sem 𝓛 (Lends Self.row (Array u32 1024) self.entry result.1 (put self.old write)) }
        ensures read { result.0.now ≡ frame_at (memory self.old) read }
        ensures write { result.1.now ≡ frame_at (memory self.old) write }
        ensures steps { steps.new ≡ steps.old + 64 };

    /// `put` changes that frame alone.
    ghost puts: { (m : Self) (f : ℕ) (ws : List ℕ) → memory (put m f ws) ≡ slice_set (memory m) f ws };

    /// How many frames there are, whatever they hold.
    ghost bounds: { (m : Self) → (16 ≤ length (memory m)) × (length (memory m) ≤ 4096) };
}
