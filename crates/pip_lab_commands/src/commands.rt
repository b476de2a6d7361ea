//! The commands that are of no crate below.
pub mod slots;
