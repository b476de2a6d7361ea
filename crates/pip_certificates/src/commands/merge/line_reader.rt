//! Lines of any length, read from a source.
ghost use Rattle.std.specs.Prelude.{◌≡◌, ◌<◌, [], IfOk, MatchResult, Ok};
ghost use Rattle.std.specs.Io.KnownBytes.{Keeps};
ghost use Rattle.pip_io.specs.Causes.{HasCause};
ghost use Rattle.pip_io.specs.Moments.{joined};
ghost use Rattle.pip_io.specs.Pacing.{MayRead};
ghost use Rattle.pip_certificates.specs.LongLines.{IsUnended, ReadsAfter, StopsLine, TakesHeld, TakesNextLine};

use pip_io::{Failed, Joint, Sink, Source, find_newline};
use std::alloc::AllocError;
use std::marker::Model;

/// How many bytes are read at once at most.
const LINE_CHUNK: usize = 16384;

/// Reads one line after another. It holds what was read and not yet taken. Each byte of a line is copied once.
#[derive(Drop)]
pub struct LineReader {
    chunk: [u8; LINE_CHUNK],
    start: usize,
    end: usize,
}

impl Model for LineReader {
    ghost use Rattle.std.specs.Prelude.{◌≤◌, ℕ, List};
    ghost use Rattle.pip_io.specs.Gathering.{between};
    ghost use Rattle.pip_certificates.specs.declared.commands.merge.line_reader.TheConstants.{LINE_CHUNK};

    ghost Value = { List ℕ };

    ghost view = { λ r. between r.chunk r.start r.end };

    ghost invariant = { λ r. (r.start ≤ r.end) × (r.end ≤ LINE_CHUNK) };
}

/// How a line ends.
#[derive(Clone, Copy, Debug, PartialEq, Eq)]
pub enum LineKind {
    /// With a newline.
    Whole,
    /// With the input, and it isn't empty.
    Last,
    /// There is none: the input has ended.
    End,
}

/// Why no line was read.
#[derive(Clone, Copy, Debug, PartialEq, Eq)]
pub enum LineStop {
    /// A read failed.
    Unread,
    /// There is no memory for a line of this length.
    Memory,
}

impl From<Failed> for LineStop {
    ghost use Rattle.std.specs.Prelude.{◌≡◌};
    ghost use Rattle.pip_certificates.specs.declared.commands.merge.line_reader.LineStop.TheVariants.{Unread};

    ghost from_gives = { λ _ e. e ≡ Unread };

    fn from(_: Failed) -> LineStop {
        LineStop::Unread
    }
}

impl From<AllocError> for LineStop {
    ghost use Rattle.std.specs.Prelude.{◌≡◌};
    ghost use Rattle.pip_certificates.specs.declared.commands.merge.line_reader.LineStop.TheVariants.{Memory};

    ghost from_gives = { λ _ e. e ≡ Memory };

    fn from(_: AllocError) -> LineStop {
        LineStop::Memory
    }
}

impl LineReader {
    /// Nothing was read yet.
    pub fn new() -> LineReader
        ensures { result ≡ [] }
    {
        LineReader {
            chunk: [0; LINE_CHUNK],
            start: 0,
            end: 0,
        }
    }

    /// Makes `line` the next one, its newline left off, and reads as far as it goes.
    pub fn read_line<S: Source, K: Sink>(
        &mut self,
        joint: &mut Joint<'_, S, K>,
        line: &mut Vec<u8>,
    ) -> Result<LineKind, LineStop>
        requires is_open { S.is_open joint.old.source.now }
        requires flushed { (K.history joint.old.sink.now).written.buffered ≡ [] }
        requires paced { MayRead S.allows (IsUnended self.old) (joined S.history K.history joint.old) }
        ensures same_source { joint.new.source.ghost_name ≡ joint.old.source.ghost_name }
        ensures sink { joint.new.sink ≡ joint.old.sink }
        ensures takes { MatchResult result
            (λ kind. TakesNextLine self.old self.new line.new.items (S.history joint.old.source.now).left
            (S.history joint.new.source.now).left kind
            × ((S.history joint.new.source.now).faults ≡ (S.history joint.old.source.now).faults))
            (StopsLine self.old (S.history joint.old.source.now).left (S.history joint.new.source.now).left
            (S.history joint.old.source.now).faults (S.history joint.new.source.now).faults) }
        ensures is_open { result ≡ Ok LineKind.Whole → S.is_open joint.new.source.now }
    {
        line.clear();
        if self.take_held(line)? {
            return Ok(LineKind::Whole);
        }
        loop {
            if self.read_on(joint)? == 0 {
                return Ok(if line.is_empty() {
                    LineKind::End
                } else {
                    LineKind::Last
                });
            }
            if self.take_held(line)? {
                return Ok(LineKind::Whole);
            }
        }
    }

    // Adds what is held to a line up to the first newline, which it takes, too; or all of it where there is none.
    // Answers whether there is one.
    fn take_held(&mut self, line: &mut Vec<u8>) -> Result<bool, AllocError>
        ensures { IfOk result (TakesHeld self.old self.new line.old.items line.new.items) }
    {
        let held = &self.chunk[self.start..self.end];
        match find_newline(held) {
            Some(at) => {
                line.extend_from_slice(&held[..at])?;
                self.start += at + 1;
                Ok(true)
            }
            None => {
                line.extend_from_slice(held)?;
                self.start = self.end;
                Ok(false)
            }
        }
    }

    // Reads further bytes where none are held, and answers how many; none at the end of the input.
    fn read_on<S: Source, K: Sink>(&mut self, joint: &mut Joint<'_, S, K>) -> Result<usize, Failed>
        requires is_open { S.is_open joint.old.source.now }
        requires flushed { (K.history joint.old.sink.now).written.buffered ≡ [] }
        requires allowed { S.allows (joined S.history K.history joint.old) }
        ensures same_source { joint.new.source.ghost_name ≡ joint.old.source.ghost_name }
        ensures sink { joint.new.sink ≡ joint.old.sink }
        ensures bytes { MatchResult result
            (λ count. ReadsAfter count self.new (S.history joint.old.source.now).left
            (S.history joint.new.source.now).left)
            (λ _. Keeps (S.history joint.old.source.now).left (S.history joint.new.source.now).left) }
        ensures cause { HasCause (S.history joint.old.source.now).faults
            (S.history joint.new.source.now).faults result }
        ensures is_open { IfOk result (λ count. 0 < count → S.is_open joint.new.source.now) }
    {
        let count = joint.read(&mut self.chunk)?;
        self.start = 0;
        self.end = count;
        Ok(count)
    }
}
