//! Packed words, one for each value, and the places of fields in descriptors and list pages. docs/FORMATS.md has both.
//!
//! Each directory entry, row, use of a page and place in the parent has exactly one word. Packing gives that number.
//! Unpacking a word gives the one value that packs to it, and None exactly if no value does: a word with a stray bit, a
//! page without READ and a child at virtual page 0 have no value.
#![tactic(auto)]

pub mod descriptor;
mod dir_word;
mod leaf;
pub mod list_page;
mod shadows;

pub use dir_word::{DirWord, pack_dir, unpack_dir};
pub use leaf::{Leaf, pack_leaf, unpack_leaf};
pub use shadows::{Sh1, Sh2, pack_sh1, pack_sh2, unpack_sh1, unpack_sh2};
