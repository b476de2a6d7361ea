//! Constants, plain types and the step counter that every crate of the kernel names.
//!
//! In a clause a frame or a virtual page is a number below 2^20. specs/Words says which number each packed word is, and
//! specs/Memory what a memory is: a list of frames, each a list of words (`Memory`), with the laws of writing a word.
//! The step counter counts reads of words and costs nothing at run time. `never!()` marks code that a proof shows to be
//! unreachable, such as an arm of a match: LLVM drops the test that leads there.
#![tactic(auto)]

mod outcome;
mod rights;
mod steps;
mod types;
mod unreached;

pub use outcome::{Outcome, Status};
pub use rights::Rights;
pub use steps::Steps;
pub use types::{Access, Ctx, Frame, Pair, Plan, Size, VPage};
pub use unreached::assert_unchecked;

/// The number of 32-bit words in a frame.
pub const WORDS: u32 = 1024;

/// The number of virtual pages, each of 4096 bytes.
pub const VPAGES: u32 = 1 << 20;

/// The least number of frames that a machine has.
pub const MIN_FRAMES: u32 = 16;

/// The greatest number of frames that a machine has.
pub const MAX_FRAMES: u32 = 4096;

/// The greatest number of processors that a machine has.
pub const MAX_CPUS: u32 = 4;

/// The number of interrupt lines.
pub const LINES: u32 = 16;

/// The greatest number of bytes that a program reads.
pub const MAX_INPUT: u32 = 1 << 24;

/// The greatest number of bytes of a line of text, without its newline.
pub const MAX_LINE: usize = 120;

/// The greatest number of steps of a run.
pub const MAX_STEPS: u32 = 10_000_000;

/// The number of the virtual page at which a partition has its handler table.
pub const VIDT: u32 = 0xfffff;
