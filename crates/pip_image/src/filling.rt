//! Buffers that are filled from a source.
ghost use Rattle.std.specs.Prelude.{◌≡◌, ◌≤◌, [], length};
ghost use Rattle.pip_io.specs.Moments.{joined};
ghost use Rattle.pip_io.specs.Pacing.{MayRead};
ghost use Rattle.pip_image.specs.Filling.{IsFilled};
ghost use Rattle.pip_image.specs.Pacing.{IsUnfilled};
ghost use Rattle.pip_image.specs.Reading.{IsFaultWithin, fault_of};
ghost use Rattle.pip_image.specs.Sought.{IsSought, is_wrong};

use crate::parse;
use pip_io::{Joint, Sink, Source};
use pip_model::ImageError;

/// The part that comes next in an image, and what its bytes are judged by.
#[derive(Clone, Copy)]
pub enum Sought<'a> {
    Fields,
    Plan {
        at: u64,
        least: u32,
    },
    Page {
        frames: u32,
        before: &'a [u32],
        at: u64,
    },
}

impl Sought<'_> {
    // Whether bytes have a fault, whatever follows them.
    fn is_wrong(&self, bytes: &[u8]) -> bool
        requires { IsSought self.now }
        ensures { result ≡ is_wrong self.now bytes.now }
    {
        match *self {
            Sought::Fields => parse::are_wrong_fields(bytes),
            Sought::Plan { at, least } => parse::is_wrong_plan(at, least, bytes),
            Sought::Page { frames, before, at } => parse::is_wrong_page(frames, before, at, bytes),
        }
    }
}

/// How many bytes of a buffer were filled, and whether a read failed after them.
#[derive(Clone, Copy, Debug, PartialEq, Eq)]
pub struct Filled {
    pub count: usize,
    pub failed: bool,
}

impl Filled {
    /// What is wrong with bytes that have this fault: where they only end too early, a read that failed.
    pub fn fault(self, error: ImageError) -> ImageError
        ensures fault { result ≡ fault_of error self.failed }
        ensures inside { IsFaultWithin error → IsFaultWithin result }
    {
        match error {
            ImageError::Short { .. } if self.failed => ImageError::Read,
            _ => error,
        }
    }
}

/// Takes bytes until the buffer is full, none is left, a read fails or they are wrong for what is sought.
pub fn fill<S: Source, K: Sink>(
    joint: &mut Joint<'_, S, K>,
    sought: &Sought<'_>,
    buf: &mut [u8],
) -> Filled
    requires sought { IsSought sought.now }
    requires is_open { S.is_open joint.old.source.now }
    requires flushed { (K.history joint.old.sink.now).written.buffered ≡ [] }
    requires paced { MayRead S.allows (IsUnfilled (length buf.old) sought.now) (joined S.history K.history joint.old) }
    ensures same_source { joint.new.source.ghost_name ≡ joint.old.source.ghost_name }
    ensures sink { joint.new.sink ≡ joint.old.sink }
    ensures filled { IsFilled (is_wrong sought.now) result buf.new (S.history joint.old.source.now).left
        (S.history joint.new.source.now).left (S.history joint.old.source.now).faults
        (S.history joint.new.source.now).faults }
    ensures later { (S.history joint.old.source.now).faults ≤ (S.history joint.new.source.now).faults }
    ensures is_open { result.count ≡ length buf.new → S.is_open joint.new.source.now }
{
    let mut taken = 0;
    while taken < buf.len() && !sought.is_wrong(&buf[..taken]) {
        match joint.read(&mut buf[taken..]) {
            Ok(0) => return Filled {
                count: taken,
                failed: false,
            },
            Ok(count) => taken += count,
            Err(_) => return Filled {
                count: taken,
                failed: true,
            },
        }
    }
    Filled {
        count: taken,
        failed: false,
    }
}
