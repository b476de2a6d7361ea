//! The lines of the parts of a certificate, and their merge (docs/CERTIFICATES.md).
//!
//! A line says an `Entry` (specs/Entries), and [`read_line`] reads it. [`Merger`] takes the sorted lines of all parts
//! one after another; what it makes of them is `merge_lines` of specs/Merges. It holds one key, and compares it with
//! what is asked right after it. [`law_merge`] says what follows of lines that could be merged (specs/MergeLaw): those
//! of parts that `check_part` of pip_search has checked, in any order, over any system of states; and that none was
//! lost.

mod faults;
mod forms;
mod laws;
mod lines;
mod merging;
mod sums;

pub use faults::{MergeError, MergeFault, Uneven};
pub use laws::{law_lost, law_merge};
pub use lines::{PartLine, PartNumbers, read_line};
pub use merging::Merger;
pub use sums::{label_sum, sum_and};
