//! What was named last in the text of a raw memory, and what a line does after it.
ghost use Rattle.std.specs.Prelude.{◌≡◌, ◌==◌, ◌≤◌, ◌<◌, IfSome, length, not};
ghost use Rattle.std.specs.List.{list_any};
ghost use Rattle.pip_base.specs.Memory.{put_words};
ghost use Rattle.pip_audit.specs.Core.{core_step, is_closed, on_group, takes_frame, takes_group};
ghost use Rattle.pip_audit.specs.CoreRead.{state_at, step_seen};
ghost use Rattle.pip_audit.specs.Lines.{core_line};

use crate::core_text::line::{CoreLine, read_core_line};
use pip_base::{Frame, MAX_STEPS};
use pip_frames::Frames;

/// What was named last: a frame, and a group of it.
#[derive(Clone, Copy, Debug, PartialEq, Eq)]
pub struct LastNamed {
    pub frame: Option<u32>,
    pub group: Option<u32>,
}

/// What a line does.
#[derive(Clone, Copy, Debug, PartialEq, Eq)]
pub enum LineEffect {
    /// It may not stand here.
    Bad,
    /// Reading goes on, with this named last.
    Goes(LastNamed),
    /// It is the last.
    Ends,
}

impl LastNamed {
    // Whether the frame that was named last has a group, if one was named.
    fn is_closed(&self) -> bool
        ensures { result ≡ is_closed self.now.frame self.now.group }
    {
        self.frame.is_none() || self.group.is_some()
    }

    // Whether this frame of that many may be named next.
    fn takes_frame(&self, frame: u32, count: u32) -> bool
        ensures { result ≡ takes_frame count self.now.frame self.now.group frame }
    {
        let is_above = match self.frame {
            None => true,
            Some(last) => last < frame,
        };
        self.is_closed() && is_above && frame < count
    }

    // Whether a group with this index and these words may stand next.
    fn takes_group(&self, index: u32, words: &[u32; 8]) -> bool
        ensures { result ≡ takes_group self.now.group index words.now }
    {
        let is_above = match self.group {
            None => true,
            Some(last) => last < index,
        };
        index % 8 == 0 && index <= 1016 && is_above && has_word(words)
    }
}

// Whether a word isn't 0.
fn has_word(words: &[u32]) -> bool
    ensures { result ≡ list_any (λ w. not (w == 0)) words.now }
{
    let mut rest = words;
    while let [word, tail @ ..] = rest {
        if *word != 0 {
            return true;
        }
        rest = tail;
    }
    false
}

// Writes eight words into a frame from an index on.
fn put_words<M: Frames>(mem: &mut M, frame: Frame, index: u32, words: &[u32; 8])
    requires frame { frame < length (M.memory mem.old) }
    requires index { index ≤ 1016 }
    ensures words { M.memory mem.new ≡ put_words (M.memory mem.old) frame index words.now }
    ensures count { length (M.memory mem.new) ≡ length (M.memory mem.old) }
{
    for k in 0..8 {
        mem.set_word(frame, index + k, words[k as usize]);
    }
}

// Takes a group, where one may stand.
fn take_group<M: Frames>(mem: &mut M, place: LastNamed, index: u32, words: &[u32; 8]) -> LineEffect
    requires { IfSome place.frame (λ f. f < length (M.memory mem.old)) }
    ensures step { step_seen result (M.memory mem.new) ≡ on_group place.frame
        (state_at place (M.memory mem.old)) index words.now }
    ensures count { length (M.memory mem.new) ≡ length (M.memory mem.old) }
{
    match place.frame {
        Some(frame) if place.takes_group(index, words) => {
            put_words(mem, Frame::new(frame), index, words);
            LineEffect::Goes(LastNamed {
                frame: Some(frame),
                group: Some(index),
            })
        }
        _ => LineEffect::Bad,
    }
}

/// Takes a line, and writes its words into the memory.
pub fn take_line<M: Frames>(mem: &mut M, place: LastNamed, line: &[u8]) -> LineEffect
    requires { IfSome place.frame (λ f. f < length (M.memory mem.old)) }
    ensures step { step_seen result (M.memory mem.new) ≡ core_step (length (M.memory mem.old))
        (state_at place (M.memory mem.old)) (core_line line.now) }
    ensures count { length (M.memory mem.new) ≡ length (M.memory mem.old) }
{
    match read_core_line(line) {
        Some(CoreLine::Frame { frame }) if place.takes_frame(frame, mem.count()) => {
            LineEffect::Goes(LastNamed {
                frame: Some(frame),
                group: None,
            })
        }
        Some(CoreLine::Group { index, words }) => take_group(mem, place, index, &words),
        Some(CoreLine::End { steps }) if place.is_closed() && steps <= MAX_STEPS =>
            LineEffect::Ends,
        _ => LineEffect::Bad,
    }
}
