//! One frame's words over another's.
ghost use Rattle.std.specs.Prelude.{◌≡◌, ◌<◌, IfOk, IsTrue, length, slice_set};
ghost use Rattle.pip_base.specs.Memory.{frame_at};
ghost use Rattle.pip_base.specs.Opening.{CanOpen};
ghost use Rattle.pip_every.specs.Changes.{AreOther, IsRewritten};
ghost use Rattle.pip_every.specs.Tracks.{TracksWords};
ghost use Rattle.pip_switch.specs.Rewinding.{ArePlaces, rewritten};

use crate::journals::opened::{PART, Parts, all_parts, are_all, next_opened};
use pip_base::{Frame, Steps};
use pip_frames::{Frames, RawFrames};
use std::alloc::{AllocError, Global};
use std::sync::ledger::{Blank, Ledger};

// Writes the words of the opened parts over another frame's.
fn restore_parts(from: &[u32; 1024], to: &mut [u32; 1024], parts: &Parts)
    requires { TracksWords from.now to.old parts.now }
    ensures { to.new ≡ from.now }
{
    let mut part = next_opened(parts, 0);
    while part < parts.len() {
        let start = part * PART;
        to[start..start + PART].copy_from_slice(&from[start..start + PART]);
        part = next_opened(parts, part + 1);
    }
}

/// Writes the words of a frame over those of the same frame of `to`, which differ in opened parts only.
pub(crate) fn restore_frame<L: Ledger>(
    from: &RawFrames,
    to: &mut RawFrames,
    frame: Frame,
    parts: &Parts,
    steps: &mut Steps<L>,
)
    requires from { frame < length from.now.block.frames }
    requires to { frame < length to.old.block.frames }
    requires parts { TracksWords (frame_at from.now.block.frames frame) (frame_at to.old.block.frames frame) parts.now }
    ensures { to.new.block.frames ≡ slice_set to.old.block.frames frame (frame_at from.now.block.frames frame) }
{
    let words = from.frame(frame, steps);
    if are_all(parts) {
        *to.frame_mut(frame, steps) = *words;
    } else {
        restore_parts(words, to.frame_mut(frame, steps), parts);
    }
}

/// Writes words over two memories, each of which comes after its place.
pub(crate) fn write_both(one: &mut RawFrames, other: &mut RawFrames, words: &[u32])
    requires one { ArePlaces (length one.old.block.frames) words.now }
    requires other { length other.old.block.frames ≡ length one.old.block.frames }
    ensures one { one.new.block.frames ≡ rewritten one.old.block.frames words.now }
    ensures other { other.new.block.frames ≡ rewritten other.old.block.frames words.now }
{
    let mut rest = words;
    while rest.len() >= 2 {
        let frame = Frame::new(rest[0] / 1024);
        let index = rest[0] % 1024;
        let word = rest[1];
        one.set_word(frame, index, word);
        other.set_word(frame, index, word);
        rest = &rest[2..];
    }
}

/// Takes two memories, which are the same, back to what they were before words were written over them, each of which
/// comes after its place.
pub(crate) fn take_back<L: Ledger>(
    first: &RawFrames,
    one: &mut RawFrames,
    other: &mut RawFrames,
    words: &[u32],
    steps: &mut Steps<L>,
)
    requires kept { ∥ IsRewritten first.now.block.frames one.old.block.frames words.now ∥₁ }
    requires other { other.old.block.frames ≡ one.old.block.frames }
    ensures one { one.new.block.frames ≡ first.now.block.frames }
    ensures other { other.new.block.frames ≡ first.now.block.frames }
{
    let mut rest = words;
    while rest.len() >= 2 {
        let frame = Frame::new(rest[0] / 1024);
        let index = rest[0] % 1024;
        let word = first.word(frame, index, steps);
        one.set_word(frame, index, word);
        other.set_word(frame, index, word);
        rest = &rest[2..];
    }
}

/// Whether the places of words rise, and each word is another than that of `first` there.
pub(crate) fn are_other<L: Ledger>(first: &RawFrames, words: &[u32], steps: &mut Steps<L>) -> bool
    requires { ArePlaces (length first.now.block.frames) words.now }
    ensures { IsTrue result → AreOther first.now.block.frames 0 words.now }
{
    let mut rest = words;
    let mut least = 0;
    while rest.len() >= 2 {
        let place = rest[0];
        let word = first.word(Frame::new(place / 1024), place % 1024, steps);
        if place < least || word == rest[1] {
            return false;
        }
        least = place + 1;
        rest = &rest[2..];
    }
    true
}

/// Frames with the words of others. The only error is that memory is out.
pub fn copied<L: Ledger>(
    alloc: Global,
    from: &RawFrames,
    steps: &mut Steps<L>,
) -> Result<RawFrames, AllocError>
    ensures { IfOk result (λ r. ⟦<RawFrames as Frames>⟧.memory r ≡ ⟦<RawFrames as Frames>⟧.memory from.now) }
{
    let count = from.count();
    let parts = all_parts(true);
    let mut to = RawFrames::new(alloc, count)?;
    for f in 0..count {
        restore_frame(from, &mut to, Frame::new(f), &parts, steps);
    }
    Ok(to)
}

/// The same, where nobody counts the steps.
pub(crate) fn copied_uncounted<L: Ledger>(
    alloc: Global,
    from: &RawFrames,
    blank: Blank,
) -> Result<RawFrames, AllocError>
    requires blank { CanOpen blank.name blank.parts L.name L.parts }
    ensures { IfOk result (λ r. ⟦<RawFrames as Frames>⟧.memory r ≡ ⟦<RawFrames as Frames>⟧.memory from.now) }
{
    let mut steps: Steps<L> = Steps::new(blank);
    copied(alloc, from, &mut steps)
}
