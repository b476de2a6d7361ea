//! What is wrong with an image.
use thiserror::Error;

/// The first fault of an image, with its offset in bytes (docs/FORMATS.md, "Images"); or a failed read.
#[derive(Clone, Copy, Debug, PartialEq, Eq, Error)]
pub enum ImageError {
    /// It doesn't begin with `PIPIMG2` and a newline.
    #[error("magic {at}")]
    Magic { at: u64 },
    /// It begins as images of version 1 did.
    #[error("oldversion {at}")]
    OldVersion { at: u64 },
    /// The number of frames isn't from 16 to 4096.
    #[error("frames {at}")]
    Frames { at: u64 },
    /// The number of processors isn't from 1 to 4.
    #[error("cpus {at}")]
    Cpus { at: u64 },
    /// There are more than 16 plans, or a plan's line is 16 or more, or not above the line of the plan before.
    #[error("plan {at}")]
    Plan { at: u64 },
    /// There are more than 4096 pages, or the root has no page at this vpage.
    #[error("page {at}")]
    Page { at: u64 },
    /// An earlier page has the same vpage.
    #[error("twice {at}")]
    Twice { at: u64 },
    /// The input ends within a field.
    #[error("short {at}")]
    Short { at: u64 },
    /// The input goes on after the last page.
    #[error("long {at}")]
    Long { at: u64 },
    /// The source failed.
    #[error("the source failed")]
    Read,
}
