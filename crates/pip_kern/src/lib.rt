//! What the kernel's calls are made of, over frames: the boot tree, partitions by their parents and children, pages
//! hidden from the user, given to children and taken back.
//!
//! What names a partition needs frames that lay out some sound tree which has it (`HasPartition`); what hides, gives or
//! takes a page is for the middle of a call.
//!
//! - `boot` takes any frames and leaves the layout of the boot tree of that many frames, in every word; `boot_zeros`
//!   does so for frames of zeros.
//! - `parent_of`, `born_of`, `child_at` (at most 6 steps) and `is_below` find partitions by their parents and children.
//! - `hide` and `show` clear and set the user bit of a page in the caller and in all its ancestors, and change no other
//!   word. `give_page` and `give_pages` give pages of the caller to a child as configuration: each is hidden in this
//!   way, and the caller's first shadow says so. `take_page` and `take_pages` take them back.
//! - `check_places`, `check_child` and `row_at` (at most 9 steps) are tests. `Tested` says what tests answer,
//!   `IsAnswer` what a call with a value answers, `Does` and `DoesWithValue` what a call does (specs/Calls).
#![tactic(auto)]

mod hiding;
mod nodes;
mod pages;
mod root;
mod rows;

pub use hiding::{hide, show};
pub use nodes::{born_of, child_at, is_below, parent_of};
pub use pages::{give_page, give_pages, take_page, take_pages};
pub use root::{boot, boot_zeros};
pub use rows::{check_child, check_places, is_free, is_writable, place_above, row_at};
