//! The text of a frame.
ghost use Rattle.std.specs.Prelude.{◌≡◌, ◌+◌, ◌*◌, ◌<◌, ◌≤◌, ◌++◌, codes, decimal, flat_map, length, slice_index};
ghost use Rattle.pip_io.specs.Causes.{HasCause};
ghost use Rattle.pip_model.specs.Dump.{frame_text, frames_text, group_line, group_text, index_text, numbers_from};
ghost use Rattle.pip_model.specs.Dump.{words_text};
ghost use Rattle.pip_model.specs.Partitions.{IsHeld};
ghost use Rattle.pip_model.specs.Text.{line_text};
ghost use Rattle.pip_model.specs.Tree.{Tree};
ghost use Rattle.pip_table.specs.NextWord.{AreZero};
ghost use Rattle.pip_dump.specs.Groups.{IsNextGroup};
ghost use Rattle.pip_io.specs.Taken.{Wrote};

use arrayvec::ArrayString;
use pip_base::{Frame, Steps};
use pip_frames::Frames;
use pip_io::{Failed, Sink, write_all};
use pip_script::{push_decimal, push_digits};
use pip_table::are_zero;
use std::sync::ledger::Ledger;

// The first group from `from` on with a word that isn't 0.
fn next_group(words: &[u32; 1024], from: u32) -> Option<u32>
    requires { from ≤ 128 }
    ensures { IsNextGroup words.now from result }
{
    for k in from..128 {
        if !are_zero(words, 8 * k) {
            return Some(k);
        }
    }
    None
}

// An index below 1024 as four decimal digits, and a colon.
fn index_text(i: u32) -> ArrayString<5>
    requires { i < 1024 }
    ensures { result.bytes ≡ index_text i ++ codes ":" }
{
    let mut text = ArrayString::new();
    text.push(digit(i / 1000));
    text.push(digit(i / 100 % 10));
    text.push(digit(i / 10 % 10));
    text.push(digit(i % 10));
    text.push_str(":");
    text
}

fn digit(d: u32) -> char
    requires { d < 10 }
    ensures value { result ≡ 48 + d }
    ensures ascii { result < 128 }
{
    char::from_digit(d, 10).unwrap()
}

// The line of group `k` of a frame's words: the eight from `8 * k` on.
fn group_line(words: &[u32; 1024], k: u32) -> ArrayString<80>
    requires { k < 128 }
    ensures { result.bytes ≡ group_line (slice_index words.now) k }
{
    let mut text = ArrayString::new();
    text.push_str(index_text(8 * k).as_str());
    for i in 8 * k..8 * k + 8 {
        text.push_str(" ");
        push_digits(&mut text, words[i as usize]);
    }
    text.push_str("\n");
    text
}

// Writes the lines of all groups of a frame, of which those before the first are 0.
fn groups_text<K: Sink>(words: &[u32; 1024], first: u32, sink: &mut K) -> Result<(), Failed>
    requires most { first ≤ 128 }
    requires zeros { AreZero words.now 0 (8 * first) }
    ensures text { Wrote result (K.history sink.old).written (K.history sink.new).written
        (flat_map (group_text (slice_index words.now)) (numbers_from 0 128)) }
    ensures cause { HasCause (K.history sink.old).faults (K.history sink.new).faults result }
{
    let mut from = first;
    while let Some(k) = next_group(words, from) {
        write_all(sink, group_line(words, k).as_bytes())?;
        from = k + 1;
    }
    Ok(())
}

// The line with which the text of a frame begins.
fn frame_line(f: Frame) -> ArrayString<17>
    ensures { result.bytes ≡ line_text (codes "frame " ++ decimal f) }
{
    let mut text = ArrayString::new();
    text.push_str("frame ");
    push_decimal(&mut text, f.number());
    text.push_str("\n");
    text
}

// Writes the lines of a frame with these words, none where all are 0.
fn words_text<K: Sink>(f: Frame, words: &[u32; 1024], sink: &mut K) -> Result<(), Failed>
    ensures text { Wrote result (K.history sink.old).written (K.history sink.new).written
        (words_text f (slice_index words.now)) }
    ensures cause { HasCause (K.history sink.old).faults (K.history sink.new).faults result }
{
    let Some(first) = next_group(words, 0) else {
        return Ok(());
    };
    write_all(sink, frame_line(f).as_bytes())?;
    groups_text(words, first, sink)
}

/// Writes the lines of frame `f`, none where all its words are 0 (docs/FORMATS.md, "core"). `f` is below the number of
/// frames. Fails only if a write failed; a prefix of the lines was written then. The frame is read at once, in 32
/// steps.
pub fn frame_text<M: Frames, K: Sink, L: Ledger>(
    mem: &M,
    f: Frame,
    sink: &mut K,
    steps: &mut Steps<L>,
) -> Result<(), Failed>
    requires { f < length (M.memory mem.now) }
    ensures text { (t : Tree) → IsHeld t (M.memory mem.now) → Wrote result (K.history sink.old).written
        (K.history sink.new).written (frame_text t f) }
    ensures cause { HasCause (K.history sink.old).faults (K.history sink.new).faults result }
    ensures steps { steps.new ≤ steps.old + 32 }
{
    words_text(f, mem.frame(f, steps), sink)
}

/// Writes the lines of all frames in their order, without a last line (docs/FORMATS.md, "core"). Fails only if a write
/// failed; a prefix of the lines was written then. Takes no memory.
pub fn frames_text<M: Frames, K: Sink, L: Ledger>(
    mem: &M,
    sink: &mut K,
    steps: &mut Steps<L>,
) -> Result<(), Failed>
    ensures text { (t : Tree) → IsHeld t (M.memory mem.now) → Wrote result (K.history sink.old).written
        (K.history sink.new).written (frames_text t) }
    ensures cause { HasCause (K.history sink.old).faults (K.history sink.new).faults result }
{
    for f in 0..mem.count() {
        frame_text(mem, Frame::new(f), sink, steps)?;
    }
    Ok(())
}
