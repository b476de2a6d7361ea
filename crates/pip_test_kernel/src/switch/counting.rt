//! Frames that count how often one is lent for writing.
ghost use Rattle.std.specs.Prelude.{◌≡◌};

use pip_base::{Frame, Steps};
use pip_frames::{Frames, VecFrames};
use std::sync::ledger::Ledger;

/// A vector of frames that does each call, and the number of frames that were lent for writing, modulo 2^32.
#[derive(Drop)]
pub struct CountingFrames {
    frames: VecFrames,
    loans: u32,
}

impl CountingFrames {
    /// No frame was lent yet.
    pub fn new(frames: VecFrames) -> CountingFrames
        ensures { ⟦<CountingFrames as Frames>⟧.memory result ≡ ⟦<VecFrames as Frames>⟧.memory frames }
    {
        CountingFrames { frames, loans: 0 }
    }

    /// How many frames were lent for writing, modulo 2^32.
    pub fn loans(&self) -> u32 {
        self.loans
    }
}

impl Frames for CountingFrames {
    ghost use Rattle.std.proofs.Common.{refl};
    ghost use Rattle.std.specs.Prelude.{◌+◌, ◌%◌, ◌^◌};
    ghost use Rattle.pip_frames.specs.VecLending.{with_frame};

    ghost memory = { λ m. m.frames.frames.items };

    ghost put = { λ m f ws. record { frames = with_frame m.frames f ws; loans = (m.loans + 1) % 2 ^ 32 } };

    ghost puts = { λ m f ws. refl };

    ghost bounds = { λ m. (m.frames.least, m.frames.most) };

    fn count(&self) -> u32 {
        self.frames.count()
    }

    fn word<L: Ledger>(&self, f: Frame, i: u32, steps: &mut Steps<L>) -> u32 {
        self.frames.word(f, i, steps)
    }

    fn set_word(&mut self, f: Frame, i: u32, w: u32) {
        self.frames.set_word(f, i, w);
    }

    fn zero(&mut self, f: Frame) {
        self.frames.zero(f);
    }

    fn frame<L: Ledger>(&self, f: Frame, steps: &mut Steps<L>) -> &[u32; 1024] {
        self.frames.frame(f, steps)
    }

    fn frame_mut<L: Ledger>(&mut self, f: Frame, steps: &mut Steps<L>) -> &mut [u32; 1024] {
        self.loans = self.loans.wrapping_add(1);
        self.frames.frame_mut(f, steps)
    }

    fn pair<L: Ledger>(
        &mut self,
        read: Frame,
        write: Frame,
        steps: &mut Steps<L>,
    ) -> (&[u32; 1024], &mut [u32; 1024]) {
        self.loans = self.loans.wrapping_add(1);
        self.frames.pair(read, write, steps)
    }
}
