//! What was read and not yet taken.
ghost use Rattle.std.specs.Prelude.{◌≡◌, ◌+◌, ◌<◌, ◌≤◌, [], length, drop, IfOk};
ghost use Rattle.pip_io.specs.Causes.{HasCause};
ghost use Rattle.pip_io.specs.Moments.{streams};
ghost use Rattle.pip_io.specs.declared.window.TheConstants.{WINDOW_ROOM};

use crate::{Failed, Sink, Source};

/// How many bytes are read ahead at most.
const WINDOW_ROOM: usize = 16384;

/// Bytes in order.
#[derive(Drop)]
pub(crate) struct Window {
    bytes: [u8; WINDOW_ROOM],
    start: usize,
    end: usize,
    ghost order: { start ≤ end },
    ghost fits: { end ≤ WINDOW_ROOM },
}

impl Window {
    ghost use Rattle.pip_io.specs.Windows.{ReadsAhead, window_bytes};

    pub fn new() -> Window
        ensures { window_bytes result ≡ [] }
    {
        Window {
            bytes: [0; WINDOW_ROOM],
            start: 0,
            end: 0,
        }
    }

    pub fn as_slice(&self) -> &[u8]
        ensures { result.now ≡ window_bytes self.now }
    {
        &self.bytes[self.start..self.end]
    }

    /// Takes the first `count` bytes.
    pub fn take(&mut self, count: usize)
        requires { count ≤ length (window_bytes self.old) }
        ensures { window_bytes self.new ≡ drop count (window_bytes self.old) }
    {
        self.start += count;
    }

    /// Reads up to `room` bytes more, by the one read that there is. The sink holds nothing, and the source allows it
    /// by what both tell.
    pub fn read_on<S: Source, K: Sink>(
        &mut self,
        source: &mut S,
        _sink: &K,
        room: usize,
    ) -> Result<usize, Failed>
        requires some { 0 < room }
        requires fits { length (window_bytes self.old) + room ≤ 16384 }
        requires is_open { S.is_open source.old }
        requires flushed { (K.history _sink.now).written.buffered ≡ [] }
        requires allowed { S.allows (streams S.history K.history source.old _sink.now) }
        ensures reads { ReadsAhead result (window_bytes self.old) (window_bytes self.new) room
            (S.history source.old).left
            (S.history source.new).left }
        ensures cause { HasCause (S.history source.old).faults (S.history source.new).faults result }
        ensures is_open { IfOk result (λ n. 0 < n → S.is_open source.new) }
    {
        self.bytes.copy_within(self.start..self.end, 0);
        self.end -= self.start;
        self.start = 0;
        let end = self.end;
        match source.read(&mut self.bytes[end..end + room]) {
            Ok(count) => {
                self.end += count;
                Ok(count)
            }
            Err(failed) => Err(failed),
        }
    }
}
