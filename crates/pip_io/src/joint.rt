//! A source and a sink together, so that what was written is out before more is read.
ghost use Rattle.std.specs.Prelude.{◌≡◌, ◌<◌, [], length, IfOk};
ghost use Rattle.std.specs.Io.{ReadsAtMost};
ghost use Rattle.std.specs.Io.KnownBytes.{ReadConsumes};
ghost use Rattle.pip_io.specs.Causes.{HasCause};
ghost use Rattle.pip_io.specs.Moments.{joined};

use crate::{Failed, Sink, Source};

/// A source, which only `read` reads, and a sink, which anyone may write to.
#[derive(Drop)]
pub struct Joint<'a, S: Source, K: Sink> {
    source: &'a mut S,
    pub sink: &'a mut K,
}

impl<'a, S: Source, K: Sink> Joint<'a, S, K> {
    /// Joins a source and a sink.
    pub fn new(source: &'a mut S, sink: &'a mut K) -> Joint<'a, S, K>
        ensures same_source { result.source.ghost_name ≡ source.entry.ghost_name }
        ensures same_sink { result.sink.ghost_name ≡ sink.entry.ghost_name }
        ensures source { result.source.now ≡ source.old }
        ensures sink { result.sink.now ≡ sink.old }
    {
        Joint { source, sink }
    }

    /// Reads as the source does. It has to be open, the sink has to hold nothing, and the source has to allow the read.
    pub fn read(&mut self, buf: &mut [u8]) -> Result<usize, Failed>
        requires some { 0 < length buf.old }
        requires is_open { S.is_open self.old.source.now }
        requires flushed { (K.history self.old.sink.now).written.buffered ≡ [] }
        requires allowed { S.allows (joined S.history K.history self.old) }
        ensures same_source { self.new.source.ghost_name ≡ self.old.source.ghost_name }
        ensures sink { self.new.sink ≡ self.old.sink }
        ensures bound { ReadsAtMost result buf.new }
        ensures bytes { ReadConsumes (S.history self.old.source.now).left (S.history self.new.source.now).left result
            buf.new }
        ensures cause { HasCause (S.history self.old.source.now).faults (S.history self.new.source.now).faults result }
        ensures is_open { IfOk result (λ n. 0 < n → S.is_open self.new.source.now) }
    {
        self.source.read(buf)
    }
}
