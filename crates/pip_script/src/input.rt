//! Bytes that are read ahead of what was taken.
ghost use Rattle.std.specs.Prelude.{◌≡◌, ◌≤◌, ◌<◌, ℕ, List, [], length, take, drop, IfOk, Ok, OnErr, MatchOption};
ghost use Rattle.std.specs.declared.option.Option.{Option};
ghost use Rattle.std.specs.Io.KnownBytes.{Keeps, prepend_known};
ghost use Rattle.pip_io.specs.Causes.{HasCause};
ghost use Rattle.pip_io.specs.Moments.{joined};
ghost use Rattle.pip_io.specs.Pacing.{MayRead};
ghost use Rattle.pip_io.specs.Taken.{plain};
ghost use Rattle.pip_script.specs.Lines.{BeginsLine, HasNoNewline, HoldsLine, HoldsPart, IsLineless, ReadsOn, still};

use pip_base::{MAX_INPUT, MAX_LINE};
use pip_io::{Failed, Joint, Sink, Source, find_newline};
use std::marker::Model;

/// How many bytes are held at most. A line with its newline fits.
const MAX_HELD: usize = 16384;

/// What was read of a source and not yet taken, in order, and how many bytes may still be read. All that was taken,
/// what is held and what may still be read are together as many bytes as the input may have.
#[derive(Drop)]
pub struct Input {
    bytes: [u8; MAX_HELD],
    start: usize,
    end: usize,
    room: u32,
}

impl Model for Input {
    ghost use Rattle.std.specs.Prelude.{◌≤◌, ◌-◌, take, drop};
    ghost use Rattle.pip_script.specs.Held.{Held};
    ghost use Rattle.pip_script.specs.declared.input.TheConstants.{MAX_HELD};

    ghost Value = { Held };

    ghost view = { λ i. record { bytes = take (i.end - i.start) (drop i.start i.bytes); room = i.room } };

    ghost invariant = { λ i. (i.start ≤ i.end) × (i.end ≤ MAX_HELD) };
}

/// What stands at the head of the bytes that are held.
#[derive(Clone, Copy, Debug, PartialEq, Eq)]
pub enum LineEnd {
    /// A line of that many bytes, and its newline.
    Newline(usize),
    /// A line of that many bytes, one at least, with which the input ends.
    Last(usize),
    /// Nothing: the input has ended.
    End,
    /// More bytes than a line may have.
    TooLong,
    /// The bytes up to the limit, which are no whole line, and one byte more.
    Over,
}

impl Input {
    /// Nothing was read yet.
    pub fn new() -> Input
        ensures bytes { result.bytes ≡ [] }
        ensures room { result.room ≡ MAX_INPUT }
    {
        Input::with_room(MAX_INPUT)
    }

    /// Nothing was read yet, and that many bytes may be.
    pub fn with_room(room: u32) -> Input
        ensures bytes { result.bytes ≡ [] }
        ensures room { result.room ≡ room }
    {
        Input {
            bytes: [0; MAX_HELD],
            start: 0,
            end: 0,
            room,
        }
    }

    /// What stands at the head of the bytes that are held, or `None` where more has to be read to tell. Nothing is
    /// taken.
    pub fn line_ahead(&self) -> Option<LineEnd>
        ensures { MatchOption result (HoldsPart (still self.now) self.now)
            (λ end. (left : Option (List ℕ)) → HoldsLine (still self.now) self.now left end) }
    {
        // An empty line needs no search.
        if let [b'\n', ..] = self.held() {
            return Some(LineEnd::Newline(0));
        }
        self.look(0)
    }

    /// Reads until a line stands at the head of what is held, where none stands there yet. Nothing is taken.
    pub fn read_line<S: Source, K: Sink>(
        &mut self,
        joint: &mut Joint<'_, S, K>,
    ) -> Result<LineEnd, Failed>
        requires part { HoldsPart (still self.old) self.old }
        requires is_open { S.is_open joint.old.source.now }
        requires flushed { (K.history joint.old.sink.now).written.buffered ≡ [] }
        requires paced { MayRead S.allows (IsLineless self.old) (joined S.history K.history joint.old) }
        ensures same_source { joint.new.source.ghost_name ≡ joint.old.source.ghost_name }
        ensures sink { joint.new.sink ≡ joint.old.sink }
        ensures kept { Keeps (prepend_known self.old.bytes (S.history joint.old.source.now).left)
            (prepend_known self.new.bytes (S.history joint.new.source.now).left) }
        ensures line { IfOk result (HoldsLine (still self.old) self.new (S.history joint.new.source.now).left) }
        ensures part { OnErr result (HoldsPart (still self.old) self.new) }
        ensures cause { HasCause (S.history joint.old.source.now).faults
            (S.history joint.new.source.now).faults result }
        ensures is_open { (n : ℕ) → result ≡ Ok (LineEnd.Newline n) → S.is_open joint.new.source.now }
    {
        loop {
            let seen = self.held().len();
            let is_over = self.room == 0;
            let count = self.read_on(joint)?;
            if count == 0 {
                return Ok(if seen == 0 {
                    LineEnd::End
                } else {
                    LineEnd::Last(seen)
                });
            }
            if is_over {
                return Ok(LineEnd::Over);
            }
            if let Some(end) = self.look(seen) {
                return Ok(end);
            }
        }
    }

    /// What stands at the head of what is left. It reads where that isn't known yet, and takes nothing.
    pub fn next_line<S: Source, K: Sink>(
        &mut self,
        joint: &mut Joint<'_, S, K>,
    ) -> Result<LineEnd, Failed>
        requires is_open { S.is_open joint.old.source.now }
        requires flushed { (K.history joint.old.sink.now).written.buffered ≡ [] }
        requires paced { MayRead S.allows (IsLineless self.old) (joined S.history K.history joint.old) }
        ensures same_source { joint.new.source.ghost_name ≡ joint.old.source.ghost_name }
        ensures sink { joint.new.sink ≡ joint.old.sink }
        ensures kept { Keeps (prepend_known self.old.bytes (S.history joint.old.source.now).left)
            (prepend_known self.new.bytes (S.history joint.new.source.now).left) }
        ensures line { IfOk result (HoldsLine (still self.old) self.new (S.history joint.new.source.now).left) }
        ensures part { OnErr result (HoldsPart (still self.old) self.new) }
        ensures cause { HasCause (S.history joint.old.source.now).faults
            (S.history joint.new.source.now).faults result }
        ensures is_open { (n : ℕ) → result ≡ Ok (LineEnd.Newline n) → S.is_open joint.new.source.now }
    {
        match self.line_ahead() {
            Some(end) => Ok(end),
            None => self.read_line(joint),
        }
    }

    // What stands at the head, where none of the first `seen` bytes is a newline.
    fn look(&self, seen: usize) -> Option<LineEnd>
        requires seen { seen ≤ length self.now.bytes }
        requires plain { HasNoNewline (take seen self.now.bytes) }
        ensures { MatchOption result (HoldsPart (still self.now) self.now)
            (λ end. (left : Option (List ℕ)) → HoldsLine (still self.now) self.now left end) }
    {
        let held = self.held();
        match first_newline(held, seen) {
            Some(at) if at <= MAX_LINE => Some(LineEnd::Newline(at)),
            None if held.len() <= MAX_LINE => None,
            _ => Some(LineEnd::TooLong),
        }
    }

    /// The first `count` bytes that are held.
    pub fn head(&self, count: usize) -> &[u8]
        requires { count ≤ length self.now.bytes }
        ensures { result.now ≡ take count self.now.bytes }
    {
        &self.bytes[self.start..self.start + count]
    }

    /// Takes the first `count` bytes that are held.
    pub fn take(&mut self, count: usize)
        requires { count ≤ length self.old.bytes }
        ensures bytes { self.new.bytes ≡ drop count self.old.bytes }
        ensures room { self.new.room ≡ self.old.room }
    {
        self.start += count;
    }

    // All bytes that are held.
    fn held(&self) -> &[u8]
        ensures { result.now ≡ self.now.bytes }
    {
        &self.bytes[self.start..self.end]
    }

    // Reads further bytes, and answers how many; none at the end of the input. At the limit it asks for one byte more.
    fn read_on<S: Source, K: Sink>(&mut self, joint: &mut Joint<'_, S, K>) -> Result<usize, Failed>
        requires short { length self.old.bytes < MAX_HELD }
        requires is_open { S.is_open joint.old.source.now }
        requires flushed { (K.history joint.old.sink.now).written.buffered ≡ [] }
        requires allowed { S.allows (joined S.history K.history joint.old) }
        ensures same_source { joint.new.source.ghost_name ≡ joint.old.source.ghost_name }
        ensures sink { joint.new.sink ≡ joint.old.sink }
        ensures kept { Keeps (prepend_known self.old.bytes (S.history joint.old.source.now).left)
            (prepend_known self.new.bytes (S.history joint.new.source.now).left) }
        ensures more { IfOk result
            (λ count. ReadsOn count self.old self.new (S.history joint.old.source.now).left
            (S.history joint.new.source.now).left) }
        ensures part { OnErr result (self.new ≡ self.old) }
        ensures cause { HasCause (S.history joint.old.source.now).faults
            (S.history joint.new.source.now).faults result }
        ensures is_open { IfOk result (λ count. 0 < count → S.is_open joint.new.source.now) }
    {
        self.bytes.copy_within(self.start..self.end, 0);
        self.end -= self.start;
        self.start = 0;
        let most = (self.room.max(1) as usize).min(MAX_HELD - self.end);
        let count = joint.read(&mut self.bytes[self.end..self.end + most])?;
        self.end += count;
        self.room = self.room.saturating_sub(count as u32);
        Ok(count)
    }
}

// The place of the first newline; none of the first `seen` bytes is one.
#[inline(always)]
fn first_newline(bytes: &[u8], seen: usize) -> Option<usize>
    requires seen { seen ≤ length bytes.now }
    requires plain { HasNoNewline (take seen bytes.now) }
    ensures { MatchOption result (HasNoNewline bytes.now) (λ at. BeginsLine at bytes.now) }
{
    match find_newline(&bytes[seen..]) {
        Some(at) => Some(seen + at),
        None => None,
    }
}
