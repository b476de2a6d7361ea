//! Contexts in frames: a block is a pc and 16 registers.
ghost use Rattle.std.specs.Prelude.{◌≡◌, ◌+◌, ◌≤◌, ◌∷◌, ◌++◌, length, take, drop, slice_index};
ghost use Rattle.pip_base.specs.Memory.{put_words, word_at};
ghost use Rattle.pip_model.specs.Handlers.{context_in};
ghost use Rattle.pip_switch.specs.Blocks.{HasRoom};

use pip_base::{Ctx, Frame, Steps};
use pip_frames::Frames;
use std::sync::ledger::Ledger;

/// Where a block of 17 words begins: a frame, and the index of the block's first word in it.
#[derive(Clone, Copy)]
pub(crate) struct HandlerBlock {
    pub(crate) frame: Frame,
    pub(crate) index: u32,
}

// The context in the words of a frame from an index on.
fn context_of(words: &[u32; 1024], index: u32) -> Ctx
    requires { index + 17 ≤ 1024 }
    ensures { result ≡ context_in (slice_index words.now) index }
{
    let first = index as usize;
    let mut regs = [0; 16];
    regs.copy_from_slice(&words[first + 1..first + 17]);
    Ctx {
        pc: words[first],
        regs,
    }
}

// Puts a context into the words of a frame from an index on.
fn put_context(words: &mut [u32; 1024], index: u32, ctx: &Ctx)
    requires { index + 17 ≤ 1024 }
    ensures words { words.new ≡ take index words.old ++ (ctx.now.pc ∷ ctx.now.regs ++ drop (index + 17) words.old) }
    ensures registers { length ctx.now.regs ≡ 16 }
    ensures frame { length words.old ≡ 1024 }
{
    let first = index as usize;
    words[first] = ctx.pc;
    words[first + 1..first + 17].copy_from_slice(&ctx.regs);
}

/// The context in a block.
pub(crate) fn read_context<M: Frames, L: Ledger>(
    mem: &M,
    block: HandlerBlock,
    steps: &mut Steps<L>,
) -> Ctx
    requires { HasRoom (M.memory mem.now) block }
    ensures context { result ≡ context_in (word_at (M.memory mem.now) block.frame) block.index }
    ensures steps { steps.new ≡ steps.old + 32 }
{
    context_of(mem.frame(block.frame, steps), block.index)
}

/// Writes a context into a block.
pub(crate) fn write_context<M: Frames, L: Ledger>(
    mem: &mut M,
    block: HandlerBlock,
    ctx: &Ctx,
    steps: &mut Steps<L>,
)
    requires { HasRoom (M.memory mem.old) block }
    ensures words { M.memory mem.new ≡ put_words (M.memory mem.old) block.frame block.index
        (ctx.now.pc ∷ ctx.now.regs) }
    ensures registers { length ctx.now.regs ≡ 16 }
    ensures count { length (M.memory mem.new) ≡ length (M.memory mem.old) }
    ensures steps { steps.new ≡ steps.old + 32 }
{
    let words = mem.frame_mut(block.frame, steps);
    put_context(words, block.index, ctx);
}
