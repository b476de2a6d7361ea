//! The frames of a machine as text: the tree of partitions that they lay out, their words, and totals.
//!
//! For every sound tree that the frames lay out, `tree_text`, `frame_text` and `frames_text` write the tree's text or a
//! prefix of it (`Wrote`), and `totals` gives the tree's totals. They read nothing but the frames, a partition's rows
//! table by table (specs/Tables). `law_walk` says that the order of a tree's text leaves no partition out and has none
//! twice.
#![tactic(auto)]

mod frames;
mod laws;
mod line;
mod numbers;
mod part;
mod place;
mod sums;
mod tables;
mod tree;

pub use frames::{frame_text, frames_text};
pub use laws::law_walk;
pub use numbers::Totals;
pub use sums::totals;
pub use tree::tree_text;
