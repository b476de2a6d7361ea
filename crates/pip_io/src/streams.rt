//! The streams of the outside world. No contract says which bytes they had, since nobody can know what a device took.
ghost use Rattle.std.specs.Prelude.{◌≡◌, ◌<◌, ℕ, List, Option, None, length, false, IfOk, IsTrue};
ghost use Rattle.std.specs.Io.{ReadsAtMost, WritesAtMost};
ghost use Rattle.std.specs.Io.KnownBytes.{ReadConsumes, WriteAppends};
ghost use Rattle.pip_io.specs.Causes.{HasCause, faults_after};
ghost use Rattle.pip_io.specs.Taken.{WriteTakes, plain};
ghost use Rattle.pip_io.specs.Histories.{remaining, writing};

use crate::{Failed, Sink, Source};
use std::io::{Read, Write};

/// Any reader of std, with a count of its errors, which stops at 2^64 - 1.
#[derive(Debug, Drop)]
pub struct StdSource<R> {
    inner: R,
    faults: u64,
}

impl<R: Read> StdSource<R> {
    ghost use Rattle.pip_io.specs.Streams.{reader_of, reader_faults};

    /// A source that reads from a reader.
    pub fn new(inner: R) -> StdSource<R>
        ensures inner { reader_of result ≡ inner }
        ensures faults { reader_faults result ≡ 0 }
    {
        StdSource { inner, faults: 0 }
    }
}

impl<R: Read> Source for StdSource<R> {
    ghost use Rattle.pip_io.specs.Streams.{reader_of, reader_faults};

    ghost history = { λ s. remaining None (reader_faults s) };

    /// Makes one read of the reader, and fails if that fails.
    fn read(&mut self, buf: &mut [u8]) -> Result<usize, Failed>
        requires { 0 < length buf.old }
        ensures bound { ReadsAtMost result buf.new }
        ensures bytes { ReadConsumes None None result buf.new }
        ensures cause { HasCause (reader_faults self.old) (reader_faults self.new) result }

        // What the reader's own contract says of this read.
        ensures inner { ReadConsumes (R.remaining (reader_of self.old))
            (R.remaining (reader_of self.new)) result buf.new }
        ensures faults { reader_faults self.new ≡ faults_after result (reader_faults self.old) }
    {
        match self.inner.read(buf) {
            Ok(count) => Ok(count),
            Err(_) => {
                self.faults = self.faults.saturating_add(1);
                Err(Failed)
            }
        }
    }
}

/// Any writer of std, with a count of its errors, which stops at 2^64 - 1. A write that takes no byte is an error too.
/// The writer is never flushed.
#[derive(Debug, Drop)]
pub struct StdSink<W> {
    inner: W,
    faults: u64,
}

impl<W: Write> StdSink<W> {
    ghost use Rattle.pip_io.specs.Streams.{writer_of, writer_faults};

    /// A sink that writes to a writer.
    pub fn new(inner: W) -> StdSink<W>
        ensures inner { writer_of result ≡ inner }
        ensures faults { writer_faults result ≡ 0 }
    {
        StdSink { inner, faults: 0 }
    }
}

impl<W: Write> Sink for StdSink<W> {
    ghost use Rattle.pip_io.specs.Streams.{writer_of, writer_faults};

    ghost history = { λ s. writing (plain None) (writer_faults s) };

    /// Makes one write to the writer, and fails if that fails or takes nothing.
    fn write(&mut self, piece: &[u8]) -> Result<usize, Failed>
        requires { 0 < length piece.now }
        ensures bound { WritesAtMost result piece.now }
        ensures some { IfOk result (λ n. 0 < n) }
        ensures bytes { WriteTakes (plain None) (plain None) result piece.now }
        ensures cause { HasCause (writer_faults self.old) (writer_faults self.new) result }

        // What the writer's own contract says of this write.
        ensures inner { WriteAppends (W.contents (writer_of self.old))
            (W.contents (writer_of self.new)) result piece.now }
        ensures faults { writer_faults self.new ≡ faults_after result (writer_faults self.old) }
    {
        match self.inner.write(piece) {
            Ok(count) if count > 0 => Ok(count),
            _ => {
                self.faults = self.faults.saturating_add(1);
                Err(Failed)
            }
        }
    }

    /// It holds nothing.
    fn flush(&mut self) -> Result<(), Failed> {
        Ok(())
    }

    /// It discards nothing.
    fn discards(&self) -> bool
        ensures untold { IsTrue result → ◌≡◌ {A = Option (List ℕ)} None None }
        ensures never { result ≡ false }
    {
        false
    }
}
