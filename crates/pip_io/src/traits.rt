//! What a source and a sink promise, and the writing of a whole text.
ghost use Rattle.std.specs.Prelude.{◌≡◌, ◌≢◌, ◌<◌, [], length, None, IfOk, IsOk, IsTrue, OnOk, OnErr};
ghost use Rattle.std.specs.Io.{ReadsAtMost, WritesAtMost};
ghost use Rattle.std.specs.Io.KnownBytes.{ReadConsumes};
ghost use Rattle.pip_io.specs.Causes.{HasCause};
ghost use Rattle.pip_io.specs.Moments.{Streams};
ghost use Rattle.pip_io.specs.Taken.{Appends, AppendsPart, Keeps, SendsPart, WriteTakes};
ghost use Rattle.pip_io.specs.Histories.{Remaining, Writing};

use thiserror::Error;

/// A read or a write failed.
#[derive(Clone, Copy, Debug, PartialEq, Eq, Error)]
#[error("a read or a write failed")]
pub struct Failed;

/// Where bytes come from.
pub trait Source {
    /// What it tells of itself: the bytes that are left, if it says which, and how many faults it has counted. The
    /// count never falls.
    ghost history: { Self → Remaining };

    /// Whether a `Joint` with a sink may read more, by what the two tell. It always may, unless a source says
    /// otherwise. Code that reads through a `Joint` is proved for any source, so it reads only when its own contract
    /// lets it.
    ghost allows: { Streams → Type 0 } = { λ _. Unit {0} };

    /// Whether it may be read. It still may after a read that gave bytes. After one that answered 0 or failed nothing
    /// is known, unless a source says so. So code for any source reads the end once, and nothing after a fault.
    ghost is_open: { Self → Type 0 } = { λ _. Unit {0} };

    /// Reads into the front of a buffer that isn't empty, and answers how many bytes it read, 0 only at the end of the
    /// input. It fails only if it counted one more fault, and then it read nothing. Above this crate that is called: a
    /// read failed.
    fn read(&mut self, buf: &mut [u8]) -> Result<usize, Failed>
        requires some { 0 < length buf.old }
        requires is_open { is_open self.old }
        ensures bound { ReadsAtMost result buf.new }
        ensures bytes { ReadConsumes (history self.old).left (history self.new).left result buf.new }
        ensures cause { HasCause (history self.old).faults (history self.new).faults result }
        ensures is_open { IfOk result (λ n. 0 < n → is_open self.new) };
}

/// Where bytes go. A sink may hold bytes that it took, to write them later.
pub trait Sink {
    /// What it tells of itself: what it took, which is the bytes that went out, if it says which, and those that it
    /// still holds; and how many faults it has counted. The count never falls.
    ghost history: { Self → Writing };

    /// Takes the front of a piece that isn't empty, and answers how many bytes it took, at least one. It fails only if
    /// it counted one more fault, and then it took nothing. Above this crate that is called: a write failed.
    fn write(&mut self, piece: &[u8]) -> Result<usize, Failed>
        requires { 0 < length piece.now }
        ensures bound { WritesAtMost result piece.now }
        ensures some { IfOk result (λ n. 0 < n) }
        ensures bytes { WriteTakes (history self.old).written (history self.new).written result piece.now }
        ensures cause { HasCause (history self.old).faults (history self.new).faults result };

    /// Writes all that it holds. It fails only if it counted one more fault, and then it still holds something.
    fn flush(&mut self) -> Result<(), Failed>
        ensures kept { Keeps (history self.old).written (history self.new).written }
        ensures none { OnOk result ((history self.new).written.buffered ≡ []) }
        ensures some { OnErr result ((history self.new).written.buffered ≢ []) }
        ensures cause { HasCause (history self.old).faults (history self.new).faults result };

    /// Whether nothing that is written is kept, so that no text need be made for it. A sink that says what went out
    /// doesn't discard.
    fn discards(&self) -> bool
        ensures untold { IsTrue result → (history self.now).written.out ≡ None }
    {
        false
    }
}

/// Writes a whole text, by as many writes as the sink needs; none for an empty one. After a fault the sink has a prefix
/// of it.
#[inline(always)]
pub fn write_all<K: Sink>(sink: &mut K, text: &[u8]) -> Result<(), Failed>
    ensures whole { OnOk result (Appends (K.history sink.old).written (K.history sink.new).written text.now) }
    ensures prefix { OnErr result (AppendsPart (K.history sink.old).written (K.history sink.new).written text.now) }
    ensures cause { HasCause (K.history sink.old).faults (K.history sink.new).faults result }
    ensures empty { text.now ≡ [] → (sink.new ≡ sink.old) × IsOk result }
{
    let mut rest = text;
    while !rest.is_empty() {
        let Ok(taken) = sink.write(rest) else {
            return Err(Failed);
        };
        rest = &rest[taken..];
    }
    Ok(())
}

/// Writes a whole text, and all that the sink holds.
pub fn write_out<K: Sink>(sink: &mut K, text: &[u8]) -> Result<(), Failed>
    ensures whole { OnOk result (Appends (K.history sink.old).written (K.history sink.new).written text.now) }
    ensures part { OnErr result (SendsPart (K.history sink.old).written (K.history sink.new).written text.now) }
    ensures none { OnOk result ((K.history sink.new).written.buffered ≡ []) }
    ensures cause { HasCause (K.history sink.old).faults (K.history sink.new).faults result }
{
    write_all(sink, text)?;
    sink.flush()
}
