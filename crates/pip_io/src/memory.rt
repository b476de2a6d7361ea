//! Sources and sinks in memory.
ghost use Rattle.std.specs.Prelude.{◌≡◌, ◌+◌, ◌-◌, ◌<◌, ◌≤◌, if◌then◌else◌, [], length, min};
ghost use Rattle.std.specs.Prelude.{Some, None, IfOk, is_ok, is_err, vec_len, vec_capacity};
ghost use Rattle.std.specs.Io.{ReadsAtMost, WritesAtMost};
ghost use Rattle.std.specs.Io.KnownBytes.{ReadConsumes};
ghost use Rattle.pip_io.specs.Causes.{HasCause, next_count, faults_after};
ghost use Rattle.pip_io.specs.Taken.{WriteTakes, plain};
ghost use Rattle.pip_io.specs.Histories.{remaining, writing};

use crate::calls::Calls;
use crate::{Failed, Sink, Source};
use std::alloc::{AllocError, Global};
use std::io::Read;

/// A source of bytes in memory that never fails.
#[derive(Debug, Drop)]
pub struct SureSource<'a> {
    rest: &'a [u8],
}

impl<'a> SureSource<'a> {
    ghost use Rattle.pip_io.specs.Memory.{sure_left};

    /// A source of these bytes.
    pub fn new(bytes: &'a [u8]) -> SureSource<'a>
        ensures { sure_left result ≡ bytes.now }
    {
        SureSource { rest: bytes }
    }
}

impl Source for SureSource<'_> {
    ghost use Rattle.pip_io.specs.Memory.{sure_left};

    ghost history = { λ s. remaining (Some (sure_left s)) 0 };

    /// Reads all that is left, or as much of it as fits.
    fn read(&mut self, buf: &mut [u8]) -> Result<usize, Failed>
        requires { 0 < length buf.old }
        ensures bound { ReadsAtMost result buf.new }
        ensures bytes { ReadConsumes (Some (sure_left self.old)) (Some (sure_left self.new))
            result buf.new }
        ensures cause { HasCause 0 0 result }
        ensures is_open { IfOk result (λ n. 0 < n → Unit {0}) }

        ensures gives { result ≡ Ok (min (length (sure_left self.old)) (length buf.old)) }
    {
        let given = self.rest.read(buf).unwrap();
        Ok(given)
    }
}

/// A source of bytes in memory whose listed calls fail.
#[derive(Debug, Drop)]
pub struct MemSource<'a> {
    bytes: SureSource<'a>,
    calls: Calls<'a>,
}

impl<'a> MemSource<'a> {
    ghost use Rattle.pip_io.specs.Memory.{source_left, source_calls, source_faults, source_failing};

    /// A source of these bytes. `failing` lists the numbers of the calls that fail, counted from 1.
    pub fn new(bytes: &'a [u8], failing: &'a [u32]) -> MemSource<'a>
        ensures left { source_left result ≡ bytes.now }
        ensures failing { source_failing result ≡ failing.now }
        ensures calls { source_calls result ≡ 0 }
        ensures faults { source_faults result ≡ 0 }
    {
        MemSource {
            bytes: SureSource::new(bytes),
            calls: Calls::new(failing),
        }
    }
}

impl Source for MemSource<'_> {
    ghost use Rattle.pip_io.specs.Memory.{source_left, source_calls, source_faults, source_failing};
    ghost use Rattle.pip_io.specs.Memory.{read_fails};

    ghost history = { λ s. remaining (Some (source_left s)) (source_faults s) };

    /// Fails if the call's number is listed; else it reads all that is left, or as much of it as fits.
    fn read(&mut self, buf: &mut [u8]) -> Result<usize, Failed>
        requires { 0 < length buf.old }
        ensures bound { ReadsAtMost result buf.new }
        ensures bytes { ReadConsumes (Some (source_left self.old)) (Some (source_left self.new))
            result buf.new }
        ensures cause { HasCause (source_faults self.old) (source_faults self.new) result }
        ensures is_open { IfOk result (λ n. 0 < n → Unit {0}) }

        ensures fails { is_err result ≡ read_fails self.old }
        ensures gives { IfOk result (λ n.
            n ≡ min (length (source_left self.old)) (length buf.old)) }

        ensures calls { source_calls self.new ≡ next_count (source_calls self.old) }
        ensures faults { source_faults self.new ≡ faults_after result (source_faults self.old) }
        ensures failing { source_failing self.new ≡ source_failing self.old }
    {
        if self.calls.make() {
            return Err(self.calls.fail());
        }
        self.bytes.read(buf)
    }
}

/// A sink in memory of a fixed size. Its listed calls fail, and so does a call with a piece longer than the room that
/// is left.
#[derive(Debug, Drop)]
pub struct MemSink<'a> {
    bytes: Vec<u8>,
    room: usize,
    calls: Calls<'a>,
    ghost reserved: { vec_len bytes + room ≤ vec_capacity bytes },
}

impl<'a> MemSink<'a> {
    ghost use Rattle.pip_io.specs.Memory.{sink_bytes, sink_room, sink_calls, sink_faults};
    ghost use Rattle.pip_io.specs.Memory.{sink_failing};

    /// An empty sink with room for `room` bytes, allocated at once. `failing` lists the numbers of the calls that fail,
    /// counted from 1.
    pub fn new(alloc: Global, room: u32, failing: &'a [u32]) -> Result<MemSink<'a>, AllocError>
        ensures bytes { IfOk result (λ s. sink_bytes s ≡ []) }
        ensures room { IfOk result (λ s. sink_room s ≡ room) }
        ensures failing { IfOk result (λ s. sink_failing s ≡ failing.now) }
        ensures calls { IfOk result (λ s. sink_calls s ≡ 0) }
        ensures faults { IfOk result (λ s. sink_faults s ≡ 0) }
    {
        let room = room as usize;
        Ok(MemSink {
            bytes: Vec::with_capacity(alloc, room)?,
            room,
            calls: Calls::new(failing),
        })
    }

    /// What was written.
    pub fn bytes(&self) -> &[u8]
        ensures { result.now ≡ sink_bytes self.now }
    {
        self.bytes.as_slice()
    }
}

impl Sink for MemSink<'_> {
    ghost use Rattle.pip_io.specs.Memory.{sink_bytes, sink_room, sink_calls, sink_faults};
    ghost use Rattle.pip_io.specs.Memory.{sink_failing, write_fails};

    ghost history = { λ s. writing (plain (Some (sink_bytes s))) (sink_faults s) };

    /// Fails if the call's number is listed or the piece is longer than the room that is left; else it takes the whole
    /// piece.
    fn write(&mut self, piece: &[u8]) -> Result<usize, Failed>
        requires { 0 < length piece.now }
        ensures bound { WritesAtMost result piece.now }
        ensures some { IfOk result (λ n. 0 < n) }
        ensures bytes { WriteTakes (plain (Some (sink_bytes self.old)))
            (plain (Some (sink_bytes self.new))) result piece.now }
        ensures cause { HasCause (sink_faults self.old) (sink_faults self.new) result }

        ensures fails { is_err result ≡ write_fails self.old (length piece.now) }
        ensures takes { IfOk result (λ n. n ≡ length piece.now) }

        ensures room { sink_room self.new ≡
            (if is_ok result then sink_room self.old - length piece.now else sink_room self.old) }
        ensures calls { sink_calls self.new ≡ next_count (sink_calls self.old) }
        ensures faults { sink_faults self.new ≡ faults_after result (sink_faults self.old) }
        ensures failing { sink_failing self.new ≡ sink_failing self.old }
    {
        let listed = self.calls.make();
        if listed || piece.len() > self.room {
            return Err(self.calls.fail());
        }
        self.room -= piece.len();
        self.bytes.extend_from_slice(piece).unwrap();
        Ok(piece.len())
    }

    /// It holds nothing.
    fn flush(&mut self) -> Result<(), Failed> {
        Ok(())
    }
}

/// A sink that takes everything, keeps nothing and never fails. It doesn't say what it took.
#[derive(Clone, Copy, Debug, Default)]
pub struct Discard;

impl Discard {
    /// A sink that keeps nothing.
    pub fn new() -> Discard {
        Discard
    }
}

impl Sink for Discard {
    ghost history = { λ _. writing (plain None) 0 };

    /// Takes the whole piece.
    fn write(&mut self, piece: &[u8]) -> Result<usize, Failed>
        requires { 0 < length piece.now }
        ensures bound { WritesAtMost result piece.now }
        ensures some { IfOk result (λ n. 0 < n) }
        ensures bytes { WriteTakes (plain None) (plain None) result piece.now }
        ensures cause { HasCause 0 0 result }

        ensures takes { result ≡ Ok (length piece.now) }
    {
        Ok(piece.len())
    }

    /// It holds nothing.
    fn flush(&mut self) -> Result<(), Failed> {
        Ok(())
    }

    /// It keeps nothing.
    fn discards(&self) -> bool {
        true
    }
}
