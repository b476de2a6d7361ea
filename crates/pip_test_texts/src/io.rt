//! What no clause says: that calls succeed, what the streams of std do, and the printed text.
use crate::compare::{holds, same};
use pip_io::{
    Discard, Failed, Gatherer, MemSink, MemSource, Sink, Source, StdSink, StdSource, SureSource,
    write_all,
};
use std::io::{self, ErrorKind, Read, Write};
use std::process::Abort;
use std::test::Fail;

/// A stream that moves at most three bytes at a call, and fails at one call, counted from 1.
#[derive(Drop)]
struct Faulty<T> {
    inner: T,
    calls: u32,
    failing: u32,
}

impl<T> Faulty<T> {
    fn call(&mut self) -> io::Result<()> {
        self.calls = self.calls.saturating_add(1);
        if self.calls == self.failing {
            return Err(ErrorKind::Other.into());
        }
        Ok(())
    }
}

impl<R: Read> Read for Faulty<R> {
    fn read(&mut self, buf: &mut [u8]) -> io::Result<usize> {
        self.call()?;
        let most = buf.len().min(3);
        self.inner.read(&mut buf[..most])
    }
}

impl<W: Write> Write for Faulty<W> {
    fn write(&mut self, buf: &[u8]) -> io::Result<usize> {
        self.call()?;
        let most = buf.len().min(3);
        self.inner.write(&buf[..most])
    }

    fn flush(&mut self) -> io::Result<()> {
        self.inner.flush()
    }
}

// Compares what a read gave with the text that it has to give, or with none where it has to fail.
fn check_read(rt: &impl Abort, read: Result<&[u8], Failed>, wanted: Option<&str>) {
    match (read, wanted) {
        (Ok(bytes), Some(text)) => same(rt, bytes, text.as_bytes(), text),
        (read, wanted) => holds(rt, read.is_ok() == wanted.is_some(), "a read"),
    }
}

// The texts of five reads of three bytes at most, of which the second fails.
static READS: [Option<&str>; 5] = [Some("abc"), None, Some("def"), Some("gh"), Some("")];

#[test]
fn a_reader_goes_on_after_a_fault(rt: HostRuntime) {
    let mut source = StdSource::new(Faulty {
        inner: b"abcdefgh".as_slice(),
        calls: 0,
        failing: 2,
    });
    let mut buf = [0; 8];
    for wanted in &READS {
        match source.read(&mut buf) {
            Ok(count) => check_read(&rt, Ok(&buf[..count]), *wanted),
            Err(failed) => check_read(&rt, Err(failed), *wanted),
        }
    }
}

// Writes eight bytes, three at most a call, where a call fails, and compares what was written.
fn check_faulty(rt: &(impl Abort + AllocGlobal), failing: u32, wanted: &str) -> Result<(), Fail> {
    let mut written = Vec::new(rt.alloc());
    let mut sink = StdSink::new(Faulty {
        inner: &mut written,
        calls: 0,
        failing,
    });
    let result = write_all(&mut sink, b"abcdefgh");
    holds(rt, result.is_ok() == (failing == 4), failing);
    same(rt, written.as_slice(), wanted.as_bytes(), failing);
    Ok(())
}

#[test]
fn a_writer_holds_a_prefix_after_a_fault(rt: HostRuntime) -> Result<(), Fail> {
    for (failing, wanted) in [(1, ""), (2, "abc"), (3, "abcdef"), (4, "abcdefgh")] {
        check_faulty(&rt, failing, wanted)?;
    }
    Ok(())
}

#[test]
fn a_writer_that_takes_nothing_is_a_fault(rt: HostRuntime) {
    let mut room = [0; 4];
    let mut sink = StdSink::new(room.as_mut_slice());
    let result = write_all(&mut sink, b"abcdef");
    holds(&rt, result == Err(Failed), "a full array");
    same(&rt, room.as_slice(), b"abcd".as_slice(), "the array");
}

/// A writer that takes one byte a call.
#[derive(Drop)]
struct Slow<W> {
    inner: W,
}

impl<W: Write> Write for Slow<W> {
    fn write(&mut self, buf: &[u8]) -> io::Result<usize> {
        let most = buf.len().min(1);
        self.inner.write(&buf[..most])
    }

    fn flush(&mut self) -> io::Result<()> {
        self.inner.flush()
    }
}

// Writes a piece that many times, and flushes.
fn gather<K: Sink>(sink: &mut K, piece: &[u8], times: u32) -> Result<(), Failed> {
    for _ in 0..times {
        write_all(sink, piece)?;
    }
    sink.flush()
}

// Gathers 1200 pieces of 50 bytes, where a write fails, and compares how many bytes were written.
fn check_gathered(
    rt: &(impl Abort + AllocGlobal),
    failing: u32,
    written: usize,
) -> Result<(), Fail> {
    let piece = [b'x'; 50];
    let calls = [failing];
    let mut sink = Gatherer::new(MemSink::new(rt.alloc(), 60_000, &calls)?);
    let result = gather(&mut sink, &piece, 1200);
    holds(rt, result.is_ok() == (failing == 5), failing);
    same(rt, sink.sink().bytes().len(), written, failing);
    Ok(())
}

#[test]
fn a_gatherer_writes_where_no_more_fits(rt: HostRuntime) -> Result<(), Fail> {
    // 327 pieces are held at once: all of them are four writes, of which the third has 16,350 bytes too.
    for (failing, written) in [(1, 0), (2, 16_350), (3, 32_700), (4, 49_050), (5, 60_000)] {
        check_gathered(&rt, failing, written)?;
    }
    Ok(())
}

#[test]
fn a_gatherer_writes_on_where_little_is_taken(rt: HostRuntime) -> Result<(), Fail> {
    let mut written = Vec::new(rt.alloc());
    let mut sink = Gatherer::new(StdSink::new(Slow {
        inner: &mut written,
    }));
    let result = gather(&mut sink, b"abcde", 3);
    holds(&rt, result.is_ok(), "three pieces");
    same(
        &rt,
        written.as_slice(),
        b"abcdeabcdeabcde".as_slice(),
        "them",
    );
    Ok(())
}

#[test]
fn a_gatherer_holds_what_was_not_written(rt: HostRuntime) -> Result<(), Fail> {
    let mut written = Vec::new(rt.alloc());
    let mut gatherer = Gatherer::new(StdSink::new(Faulty {
        inner: &mut written,
        calls: 0,
        failing: 2,
    }));
    let result = write_all(&mut gatherer, b"abcdefgh");
    holds(&rt, result.is_ok(), "a piece");
    let first = gatherer.flush();
    holds(&rt, first == Err(Failed), "the first try");
    let second = gatherer.flush();
    holds(&rt, second.is_ok(), "the second try");
    same(&rt, written.as_slice(), b"abcdefgh".as_slice(), "the piece");
    Ok(())
}

#[test]
fn a_long_piece_is_gathered_in_parts(rt: HostRuntime) -> Result<(), Fail> {
    let piece = [b'y'; 10_000];
    let mut sink = Gatherer::new(MemSink::new(rt.alloc(), 10_000, &[4])?);
    let result = gather(&mut sink, &piece, 1);
    holds(&rt, result.is_ok(), "a long piece");
    same(&rt, sink.sink().bytes(), piece.as_slice(), "it");
    Ok(())
}

// One read of up to eight bytes, written whole.
fn pass<S: Source, K: Sink>(source: &mut S, sink: &mut K) -> Result<usize, Failed>
    requires { S.is_open source.old }
{
    let mut buf = [0; 8];
    let count = source.read(&mut buf)?;
    write_all(sink, &buf[..count])?;
    Ok(count)
}

#[test]
fn bytes_pass_through_memory(rt: HostRuntime) -> Result<(), Fail> {
    let mut source = MemSource::new(b"abcdefghijkl", &[]);
    let mut sink = MemSink::new(rt.alloc(), 12, &[])?;
    for wanted in [8, 4, 0] {
        let count = pass(&mut source, &mut sink);
        holds(&rt, count == Ok(wanted), wanted);
    }
    same(&rt, sink.bytes(), b"abcdefghijkl".as_slice(), "the sink");
    holds(&rt, !sink.discards(), "the sink");
    let full = pass(&mut SureSource::new(b"abc"), &mut sink);
    holds(&rt, full == Err(Failed), "a full sink");
    Ok(())
}

#[test]
fn bytes_are_discarded(rt: HostRuntime) {
    let count = pass(&mut SureSource::new(b"abc"), &mut Discard::new());
    holds(&rt, count == Ok(3), "a sink that discards");
    holds(&rt, Discard::new().discards(), "a sink that discards");
}

// Each `unwrap` is proved: the clauses tell a caller which calls fail.
#[test]
fn the_listed_reads_fail(rt: HostRuntime) {
    let (bytes, failing) = ([1, 2, 3], [2]);
    let mut source = MemSource::new(&bytes, &failing);
    let mut buf = [0; 2];
    let first = source.read(&mut buf).unwrap();
    let second = source.read(&mut buf).unwrap_err();
    let third = source.read(&mut buf).unwrap();
    same(&rt, first, 2, "the first read");
    holds(&rt, second == Failed, "the second read");
    same(&rt, third, 1, "the third read");
}

#[test]
fn the_listed_writes_fail(rt: HostRuntime) -> Result<(), Fail> {
    let failing = [2];
    let mut sink = MemSink::new(rt.alloc(), 4, &failing)?;
    let first = sink.write(&[1, 2, 3]).unwrap();
    let second = sink.write(&[4]).unwrap_err();
    let third = sink.write(&[5, 6]).unwrap_err();
    let fourth = sink.write(&[7]).unwrap();
    same(&rt, first, 3, "the first write");
    holds(&rt, second == Failed, "the second write");
    holds(&rt, third == Failed, "the third write");
    same(&rt, fourth, 1, "the fourth write");
    same(&rt, sink.bytes(), [1, 2, 3, 7].as_slice(), "the sink");
    Ok(())
}

#[test]
fn a_fault_has_its_text(rt: HostRuntime) -> Result<(), Fail> {
    let text = format!(in rt.alloc(); "{Failed}")?;
    same(&rt, text.as_str(), "a read or a write failed", "a fault");
    Ok(())
}
