//! A sink that gathers what it is given, and writes it in large pieces.
ghost use Rattle.std.specs.Prelude.{◌≡◌, ◌≢◌, ◌+◌, ◌≤◌, ◌<◌, ◌++◌, [], length, IfOk, OnOk, OnErr};
ghost use Rattle.std.specs.Io.{WritesAtMost};
ghost use Rattle.pip_io.specs.Causes.{HasCause};
ghost use Rattle.pip_io.specs.Gathering.{between};
ghost use Rattle.pip_io.specs.Taken.{Appends, Keeps, WriteTakes, over};
ghost use Rattle.pip_io.specs.Histories.{writing};
ghost use Rattle.pip_io.specs.declared.gather.TheConstants.{HELD};

use crate::{Failed, Sink};

/// How many bytes are buffered at most.
const HELD: usize = 16384;

/// A sink over another one. It holds up to 16384 bytes, and writes them when it is full or is flushed. Bytes that it
/// still holds when it is dropped are lost.
#[derive(Drop)]
pub struct Gatherer<K> {
    sink: K,
    bytes: [u8; HELD],
    start: usize,
    end: usize,
    ghost order: { start ≤ end },
    ghost fits: { end ≤ HELD },
}

impl<K: Sink> Gatherer<K> {
    /// A gatherer that holds nothing.
    pub fn new(sink: K) -> Gatherer<K>
        ensures sink { result.sink ≡ sink }
        ensures none { between result.bytes result.start result.end ≡ [] }
    {
        Gatherer {
            sink,
            bytes: [0; HELD],
            start: 0,
            end: 0,
        }
    }

    /// The sink that it writes to.
    pub fn sink(&self) -> &K
        ensures { result.now ≡ self.now.sink }
    {
        &self.sink
    }

    // Writes all that is buffered, and doesn't move what is left to the front of the buffer. After an error the rest is
    // buffered.
    #[inline(never)]
    fn hand_on(&mut self) -> Result<(), Failed>
        ensures kept { Keeps (over (K.history self.old.sink).written
            (between self.old.bytes self.old.start self.old.end))
            (over (K.history self.new.sink).written (between self.new.bytes self.new.start self.new.end)) }
        ensures none { OnOk result (self.new.start ≡ self.new.end) }
        ensures some { OnErr result (between self.new.bytes self.new.start self.new.end ≢ []) }
        ensures cause { HasCause (K.history self.old.sink).faults (K.history self.new.sink).faults result }
    {
        let (place, result) = write_between(&mut self.sink, &self.bytes, self.start, self.end);
        self.start = place;
        result
    }

    // Takes bytes for which there is room.
    fn hold(&mut self, piece: &[u8])
        requires { self.old.end + length piece.now ≤ HELD }
        ensures sink { self.new.sink ≡ self.old.sink }
        ensures buffered { between self.new.bytes self.new.start self.new.end
            ≡ between self.old.bytes self.old.start self.old.end ++ piece.now }
    {
        let end = self.end + piece.len();
        self.bytes[self.end..end].copy_from_slice(piece);
        self.end = end;
    }
}

impl<K: Sink> Sink for Gatherer<K> {
    ghost history = { λ g. writing (over (K.history g.sink).written (between g.bytes g.start g.end))
        (K.history g.sink).faults };

    /// Holds as much of the piece as fits. If not all of it fits, what is buffered is written first, and only that can
    /// fail.
    fn write(&mut self, piece: &[u8]) -> Result<usize, Failed>
        requires { 0 < length piece.now }
        ensures bound { WritesAtMost result piece.now }
        ensures some { IfOk result (λ n. 0 < n) }
        ensures bytes { WriteTakes
            (over (K.history self.old.sink).written (between self.old.bytes self.old.start self.old.end))
            (over (K.history self.new.sink).written (between self.new.bytes self.new.start self.new.end)) result
            piece.now }
        ensures cause { HasCause (K.history self.old.sink).faults (K.history self.new.sink).faults result }
    {
        if piece.len() <= HELD - self.end {
            self.hold(piece);
            return Ok(piece.len());
        }
        self.flush()?;
        let count = piece.len().min(HELD);
        self.hold(&piece[..count]);
        Ok(count)
    }

    /// Writes all that is buffered, and then what the sink below holds.
    fn flush(&mut self) -> Result<(), Failed>
        ensures kept { Keeps (over (K.history self.old.sink).written
            (between self.old.bytes self.old.start self.old.end))
            (over (K.history self.new.sink).written (between self.new.bytes self.new.start self.new.end)) }
        ensures none { OnOk result
            ((K.history self.new.sink).written.buffered ++ between self.new.bytes self.new.start self.new.end ≡ []) }
        ensures some { OnErr result
            ((K.history self.new.sink).written.buffered ++ between self.new.bytes self.new.start self.new.end ≢ []) }
        ensures cause { HasCause (K.history self.old.sink).faults (K.history self.new.sink).faults result }

        // The buffer is empty, so a piece of up to 16384 bytes fits.
        ensures room { OnOk result (self.new.end ≡ 0) }
    {
        self.hand_on()?;
        self.start = 0;
        self.end = 0;
        self.sink.flush()
    }
}

// Writes the bytes of a buffer from one place to another, until a write fails. Answers the place that it reached, too.
fn write_between<K: Sink>(
    sink: &mut K,
    bytes: &[u8; HELD],
    start: usize,
    end: usize,
) -> (usize, Result<(), Failed>)
    requires order { start ≤ end }
    requires fits { end ≤ HELD }
    ensures least { start ≤ result.0 }
    ensures most { result.0 ≤ end }
    ensures all { OnOk result.1 (result.0 ≡ end) }
    ensures some { OnErr result.1 (result.0 < end) }
    ensures bytes { Appends (K.history sink.old).written (K.history sink.new).written
        (between bytes.now start result.0) }
    ensures cause { HasCause (K.history sink.old).faults (K.history sink.new).faults result.1 }
{
    let mut place = start;
    while place < end {
        match sink.write(&bytes[place..end]) {
            Ok(taken) => place += taken,
            Err(failed) => return (place, Err(failed)),
        }
    }
    (place, Ok(()))
}
