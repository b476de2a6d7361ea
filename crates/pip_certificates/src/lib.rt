//! The commands of certificates, over any source and any sink (docs/CERTIFICATES.md).
//!
//! - `part` reads an image and a part after it, checks the part, and writes its lines.
//! - `merge` reads the sorted lines of all parts, and says what they say together.
//!
//! What is due of each is in specs/PartDues and specs/MergeDues, and [`law_certified`] says what the text of `merge`
//! says of an image.
//!
//! A line of a part says an `Entry` (specs/Entries), and [`read_line`] reads it. [`Merger`] takes the sorted lines of
//! all parts one after another; what it makes of them is `merge_lines` of specs/Merges. It holds one key, and compares
//! it with what is asked right after it. [`law_merge`] says what follows of lines that could be merged
//! (specs/MergeLaw): those of parts that `check_part` of pip_search has checked, in any order, over any system of
//! states; and [`law_lost`] that none was lost.
#![tactic(auto)]

mod about;
mod checking;
mod commands;
mod faults;
mod laws;
mod parts;
mod reading;
mod writing;

pub use commands::merge::merge;
pub use commands::part::part;
pub use laws::law_certified;
pub use parts::{
    MergeError, MergeFault, Merger, PartLine, PartNumbers, Uneven, label_sum, law_lost, law_merge,
    read_line, sum_and,
};
