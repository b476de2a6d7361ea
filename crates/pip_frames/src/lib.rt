//! The machine's memory: frames of words, as a trait, as a vector and as one raw block.
//!
//! [`Frames`] is a list of 16 to 4096 frames of 1024 words. `word` reads one word and adds one step, `set_word` writes
//! one, `zero` a whole frame, and neither touches another. `frame` lends the words of one frame for reading,
//! `frame_mut` for writing, and each adds 32 steps; `pair` lends two different ones, the first for reading, the second
//! for writing, and adds 64. Afterwards the memory is `put memory f words`, where `words` is what the caller left in
//! the frame `f` that was lent for writing; the law `puts` says that this changes frame `f` alone. [`VecFrames`] and
//! [`RawFrames`] begin with zeros; no crate of the kernel knows which of the two it has.
#![tactic(auto)]

mod block;
mod frames;
mod raw_frames;
mod vec_frames;
mod vec_pair;
mod zeros;

pub use frames::Frames;
pub use raw_frames::RawFrames;
pub use vec_frames::VecFrames;
