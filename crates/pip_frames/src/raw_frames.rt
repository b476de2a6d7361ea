//! The machine's memory as one raw block.
ghost use Rattle.std.specs.Prelude.{◌≡◌, ◌≤◌, IfOk, replicate};
ghost use Rattle.pip_base.specs.Memory.{zeros};

use crate::Frames;
use crate::block::Block;
use crate::zeros::zero_words;
use pip_base::{Frame, Steps};
use std::alloc::{AllocError, Global};
use std::sync::ledger::Ledger;

/// Frames in one block of memory, which is given back when the value is dropped.
pub struct RawFrames {
    block: Block,
    alloc: Global,
}

impl RawFrames {
    /// `n` frames, each word 0. `n` is from 16 to 4096. The only error is that memory is out.
    pub fn new(alloc: Global, n: u32) -> Result<RawFrames, AllocError>
        requires least { 16 ≤ n }
        requires most { n ≤ 4096 }
        ensures { IfOk result (λ m. ⟦<RawFrames as Frames>⟧.memory m ≡ replicate n (zeros 1024)) }
    {
        let block = Block::new(&alloc, n as usize, zero_words())?;
        Ok(RawFrames { block, alloc })
    }
}

impl Drop for RawFrames {
    fn drop(self) {
        let RawFrames { block, alloc } = self;
        block.free(&alloc);
    }
}

impl Frames for RawFrames {
    ghost use Rattle.pip_frames.specs.Lending.{block_with_frame};
    ghost use Rattle.pip_frames.specs.RawBounds.{raw_bounds};
    ghost use Rattle.std.proofs.Common.{refl};

    ghost memory = { λ m. m.block.frames };

    ghost put = { λ m f ws. record m { block = block_with_frame m.block f ws } };

    ghost puts = { λ m f ws. refl };

    ghost bounds = { raw_bounds };

    fn count(&self) -> u32 {
        self.block.count() as u32
    }

    #[tactic(auto, unfolding(pip_base::specs::Memory::word_at))]
    fn word<L: Ledger>(&self, f: Frame, i: u32, steps: &mut Steps<L>) -> u32 {
        steps.tick();
        self.block.frame(f.number() as usize)[i as usize]
    }

    #[tactic(auto, unfolding(pip_base::specs::Memory::put_word))]
    fn set_word(&mut self, f: Frame, i: u32, w: u32) {
        self.block.frame_mut(f.number() as usize)[i as usize] = w;
    }

    #[tactic(auto, unfolding(pip_base::specs::Memory::zero_frame))]
    fn zero(&mut self, f: Frame) {
        *self.block.frame_mut(f.number() as usize) = zero_words();
    }

    #[tactic(auto, unfolding(pip_base::specs::Memory::frame_at))]
    fn frame<L: Ledger>(&self, f: Frame, steps: &mut Steps<L>) -> &[u32; 1024] {
        steps.ticks(32);
        self.block.frame(f.number() as usize)
    }

    fn frame_mut<L: Ledger>(&mut self, f: Frame, steps: &mut Steps<L>) -> &mut [u32; 1024] {
        steps.ticks(32);
        self.block.frame_mut(f.number() as usize)
    }

    fn pair<L: Ledger>(
        &mut self,
        read: Frame,
        write: Frame,
        steps: &mut Steps<L>,
    ) -> (&[u32; 1024], &mut [u32; 1024]) {
        steps.ticks(64);
        self.block
            .pair(read.number() as usize, write.number() as usize)
    }
}
