//! Frames that can be taken back to their first words, and that list which of their words differ from these.
//!
//! A [`Journal`] is frames with two more memories: the first words, and those to which the frames were taken back last,
//! which are the first ones with a list of words over them. A flag for each frame and for each part of 32 words is set
//! where the frames may differ from the latter. They are taken back by copying those parts alone, and `add_changes`
//! compares no others: elsewhere the words that differ from the first ones are those of the list. It begins with any
//! words, and each may differ from the first one. The first words are named by a type ([`First`]), so they are known of
//! every journal over it, also of one that a machine lends.

mod changes;
mod first;
mod frames;
mod journal;
mod opened;

pub use first::First;
pub use frames::copied;
pub use journal::Journal;
