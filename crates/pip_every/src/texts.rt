//! The text of what a search found: each label at the step at which it is shown, with a way to it.
//!
//! `ways_of` takes the memory for the way to each label, so that nothing is written before all memory is there;
//! `write_search` writes a line for each label that was covered, and the last line (`search_text` of specs/Texts). Of
//! pip it knows the number of processors and the lines, and that the choices after these are deeds. `write_shown`,
//! `write_times`, `write_way` and `write_verdict` are its pieces, for other texts.

mod lines;
mod ways;
mod words;

pub use lines::{inner, write_search, write_shown, write_verdict};
pub use ways::ways_of;
pub use words::{write_times, write_way};
