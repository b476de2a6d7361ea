ghost use Rattle.std.specs.Prelude.{◌≡◌, ◌≢◌, ◌+◌, ◌<◌, length};
ghost use Rattle.pip_base.specs.Opening.{CanOpen};
ghost use Rattle.pip_base.specs.Memory.{put_word, word_at};

use pip_base::{Frame, Steps};
use pip_frames::{Frames, RawFrames, VecFrames};
use std::marker::Brand;
use std::process::Abort;
use std::sync::ledger::{Blank, Ledger};
use std::test::Fail;

// A word of a lent frame.
#[tactic(auto, unfolding(pip_base::specs::Memory::word_at, pip_base::specs::Memory::frame_at))]
fn lent_word<M: Frames, L: Ledger>(mem: &M, f: Frame, i: u32, steps: &mut Steps<L>) -> u32
    requires frame { f < length (M.memory mem.now) }
    requires index { i < 1024 }
    ensures word { result ≡ word_at (M.memory mem.now) f i }
    ensures steps { steps.new ≡ steps.old + 32 }
{
    mem.frame(f, steps)[i as usize]
}

// Copies word `i` of frame `from` to the same place of frame `to`.
#[tactic(auto, unfolding(pip_base::specs::Memory::put_word, pip_base::specs::Memory::word_at, pip_base::specs::Memory::frame_at))]
fn copy_word<M: Frames, L: Ledger>(
    mem: &mut M,
    from: Frame,
    to: Frame,
    i: u32,
    steps: &mut Steps<L>,
)
    requires from { from < length (M.memory mem.old) }
    requires to { to < length (M.memory mem.old) }
    requires apart { from ≢ to }
    requires index { i < 1024 }
    ensures words { M.memory mem.new ≡ put_word (M.memory mem.old) to i (word_at (M.memory mem.old) from i) }
    ensures count { length (M.memory mem.new) ≡ length (M.memory mem.old) }
    ensures steps { steps.new ≡ steps.old + 64 }
{
    let (read, write) = mem.pair(from, to, steps);
    write[i as usize] = read[i as usize];
}

// What a new memory holds after it was written, lent and zeroed.
fn keeps_and_lends<M: Frames, L: Ledger>(rt: &impl Abort, mem: &mut M, blank: Blank)
    requires blank { CanOpen blank.name blank.parts L.name L.parts }
    requires frames { length (M.memory mem.old) ≡ 16 }
{
    let mut steps: Steps<L> = Steps::new(blank);
    assert_eq!(rt; mem.count(), 16);
    mem.set_word(Frame::new(3), 1023, 9);
    copy_word(mem, Frame::new(3), Frame::new(4), 1023, &mut steps);
    for (frame, index, word) in [
        (3, 1023, 9),
        (3, 1022, 0),
        (4, 1023, 9),
        (4, 0, 0),
        (5, 0, 0),
        (15, 1023, 0),
    ] {
        assert_eq!(rt; mem.word(Frame::new(frame), index, &mut steps), word);
        assert_eq!(rt; lent_word(mem, Frame::new(frame), index, &mut steps), word);
    }
    mem.zero(Frame::new(4));
    assert_eq!(rt; mem.word(Frame::new(4), 1023, &mut steps), 0);
    assert_eq!(rt; mem.word(Frame::new(3), 1023, &mut steps), 9);
}

#[test]
fn a_vector_keeps_and_lends_words(rt: HostRuntime) -> Result<(), Fail> {
    let mut mem = VecFrames::new(rt.alloc(), 16)?;
    keeps_and_lends::<VecFrames, Brand>(&rt, &mut mem, Blank::new(1));
    Ok(())
}

#[test]
fn a_raw_block_keeps_and_lends_words(rt: HostRuntime) -> Result<(), Fail> {
    let mut mem = RawFrames::new(rt.alloc(), 16)?;
    keeps_and_lends::<RawFrames, Brand>(&rt, &mut mem, Blank::new(1));
    Ok(())
}
