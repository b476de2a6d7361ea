//! Tables of two levels, as a map from virtual pages to words.
//!
//! A table is named by the frame of its directory, `top`. Each function here needs that every word of the directory is
//! one that `pack_dir` gives, and that the directory and its tables are different frames of the memory (`IsDirectory`).
//! Reading gives the map's word, or nothing if the directory index has no table. Writing at a virtual page that has a
//! table changes the map there and no other word of any frame. Writing a directory entry changes that word alone: if
//! the new table is a further frame, the map has that frame's words under the index and is the same elsewhere. The next
//! virtual page with a word that isn't 0 is found exactly, and a table is empty exactly if its 1024 words are 0.
#![tactic(auto)]

mod next;
mod table;

pub use next::{are_zero, first_index, next_leaf, next_table, table_is_empty};
pub use table::{dir, leaf, set_dir, set_leaf};
