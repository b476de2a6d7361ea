//! The commands, one file each.
pub mod merge;
pub mod part;
