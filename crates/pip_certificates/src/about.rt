//! What a part is of.
ghost use Rattle.std.specs.Prelude.{◌≡◌};
ghost use Rattle.pip_certificates.specs.PartAbout.{about_numbers, frames_summed, part_sum};
ghost use Rattle.pip_certificates.specs.PartAbout.{sum_with, summed};

use arrayvec::ArrayString;
use pip_base::{Frame, Steps};
use pip_frames::{Frames, RawFrames};
use pip_script::{push_decimal, push_digits};
use std::sync::ledger::Ledger;

/// More bytes than what a part says that it is of.
pub const MAX_ABOUT: usize = 80;

// A sum and one number more.
fn sum_with(sum: u64, number: u32) -> u64
    ensures { result ≡ sum_with sum number }
{
    (sum ^ u64::from(number)).wrapping_mul(0x100000001b3)
}

// A sum and more numbers.
fn sum_words(start: u64, words: &[u32]) -> u64
    ensures { result ≡ summed start words.now }
{
    let mut sum = start;
    for word in words {
        sum = sum_with(sum, *word);
    }
    sum
}

// A sum and the words of frames.
fn sum_frames<L: Ledger>(start: u64, mem: &RawFrames, steps: &mut Steps<L>) -> u64
    ensures { result ≡ frames_summed start (⟦<RawFrames as Frames>⟧.memory mem.now) }
{
    let mut sum = start;
    for f in 0..mem.count() {
        sum = sum_words(sum, mem.frame(Frame::new(f), steps));
    }
    sum
}

/// The sum over the lines that can be raised, the words of an image's frames, and those that keys are compared with.
pub fn part_sum<L: Ledger>(
    lines: &[u32],
    mem: &RawFrames,
    later: &RawFrames,
    steps: &mut Steps<L>,
) -> u64
    ensures { result ≡ part_sum lines.now (⟦<RawFrames as Frames>⟧.memory mem.now)
        (⟦<RawFrames as Frames>⟧.memory later.now) }
{
    let own = sum_frames(sum_words(0xcbf29ce484222325, lines), mem, steps);
    sum_frames(own, later, steps)
}

/// What a part is of: the numbers of its image, from how many turns on lines come, and the sum.
pub fn about_text(
    frames: u32,
    cpus: u32,
    plans: u32,
    pages: u32,
    from: u32,
    sum: u64,
) -> ArrayString<MAX_ABOUT>
    ensures { result.bytes ≡ about_numbers frames cpus plans pages from sum }
{
    let mut text = ArrayString::new();
    push_decimal(&mut text, frames);
    text.push_str(" ");
    push_decimal(&mut text, cpus);
    text.push_str(" ");
    push_decimal(&mut text, plans);
    text.push_str(" ");
    push_decimal(&mut text, pages);
    text.push_str(" ");
    push_decimal(&mut text, from);
    text.push_str(" ");
    push_digits(&mut text, (sum >> 32) as u32);
    push_digits(&mut text, (sum % 0x1_0000_0000) as u32);
    text
}
