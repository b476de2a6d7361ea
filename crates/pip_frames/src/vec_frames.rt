//! The machine's memory as a vector of frames.
ghost use Rattle.std.specs.Prelude.{◌≡◌, ◌≤◌, IfOk, length, replicate};
ghost use Rattle.pip_base.specs.Memory.{zeros};

use crate::Frames;
use crate::vec_pair::item_pair;
use crate::zeros::zero_words;
use pip_base::{Frame, Steps};
use std::alloc::{AllocError, Global};
use std::sync::ledger::Ledger;

/// Frames in one vector, which never grows.
#[derive(Drop)]
pub struct VecFrames {
    frames: Vec<[u32; 1024]>,
    ghost least: { 16 ≤ length frames.items },
    ghost most: { length frames.items ≤ 4096 },
}

impl VecFrames {
    /// `n` frames, each word 0. `n` is from 16 to 4096. The only error is that memory is out.
    pub fn new(alloc: Global, n: u32) -> Result<VecFrames, AllocError>
        requires least { 16 ≤ n }
        requires most { n ≤ 4096 }
        ensures { IfOk result (λ m. ⟦<VecFrames as Frames>⟧.memory m ≡ replicate n (zeros 1024)) }
    {
        let mut frames = Vec::with_capacity(alloc, n as usize)?;
        for _ in 0..n {
            frames.push(zero_words())?;
        }
        Ok(VecFrames { frames })
    }
}

impl Frames for VecFrames {
    ghost use Rattle.pip_frames.specs.VecLending.{with_frame};
    ghost use Rattle.std.proofs.Common.{refl};

    ghost memory = { λ m. m.frames.items };

    ghost put = { with_frame };

    ghost puts = { λ m f w. refl };

    ghost bounds = { λ m. (m.least, m.most) };

    fn count(&self) -> u32 {
        self.frames.len() as u32
    }

    #[tactic(auto, unfolding(pip_base::specs::Memory::word_at))]
    fn word<L: Ledger>(&self, f: Frame, i: u32, steps: &mut Steps<L>) -> u32 {
        steps.tick();
        self.frames[f.number() as usize][i as usize]
    }

    #[tactic(auto, unfolding(pip_base::specs::Memory::put_word))]
    fn set_word(&mut self, f: Frame, i: u32, w: u32) {
        self.frames[f.number() as usize][i as usize] = w;
    }

    #[tactic(auto, unfolding(pip_base::specs::Memory::zero_frame))]
    fn zero(&mut self, f: Frame) {
        self.frames[f.number() as usize] = zero_words();
    }

    #[tactic(auto, unfolding(pip_base::specs::Memory::frame_at))]
    fn frame<L: Ledger>(&self, f: Frame, steps: &mut Steps<L>) -> &[u32; 1024] {
        steps.ticks(32);
        &self.frames[f.number() as usize]
    }

    fn frame_mut<L: Ledger>(&mut self, f: Frame, steps: &mut Steps<L>) -> &mut [u32; 1024] {
        steps.ticks(32);
        &mut self.frames[f.number() as usize]
    }

    fn pair<L: Ledger>(
        &mut self,
        read: Frame,
        write: Frame,
        steps: &mut Steps<L>,
    ) -> (&[u32; 1024], &mut [u32; 1024]) {
        steps.ticks(64);
        item_pair(
            &mut self.frames,
            read.number() as usize,
            write.number() as usize,
        )
    }
}
