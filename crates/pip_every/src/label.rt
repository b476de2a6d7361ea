//! What a choice shows.
ghost use Rattle.std.specs.Prelude.{◌≡◌, ◌<◌, [], Some};
ghost use Rattle.pip_io.specs.Taken.{plain};
ghost use Rattle.pip_io.specs.Histories.{writing};

use pip_io::{Failed, Sink};
use std::alloc::Global;

/// A sink that keeps all that is written. It fails only if memory is out.
#[derive(Drop)]
pub struct Label {
    bytes: Vec<u8>,
    failed: u64,
}

impl Label {
    /// An empty one.
    pub fn new(alloc: Global) -> Label
        ensures { result.bytes.items ≡ [] }
    {
        Label {
            bytes: Vec::new(alloc),
            failed: 0,
        }
    }

    /// What was written.
    pub fn bytes(&self) -> &[u8]
        ensures { result.now ≡ self.now.bytes.items }
    {
        self.bytes.as_slice()
    }

    /// Forgets what was written, and keeps the room for it.
    pub fn clear(&mut self)
        ensures { self.new.bytes.items ≡ [] }
    {
        self.bytes.clear();
    }
}

impl Sink for Label {
    ghost history = { λ s. writing (plain (Some s.bytes.items)) s.failed };

    fn write(&mut self, piece: &[u8]) -> Result<usize, Failed> {
        match self.bytes.extend_from_slice(piece) {
            Ok(()) => Ok(piece.len()),
            Err(_) => {
                self.failed = self.failed.saturating_add(1);
                Err(Failed)
            }
        }
    }

    /// It holds nothing.
    fn flush(&mut self) -> Result<(), Failed> {
        Ok(())
    }
}
