//! The list in which a partition records its tables: slots in list pages, as docs/FORMATS.md lays them out.
//!
//! A list begins in the frame `first` and has 170 slots in each page. Each function here needs that its pages are
//! different frames of the memory and have room for its slots. One relation, `ListIn`, says that the pages from this
//! frame on, and then these, hold the list of these tables, which determines every word of each page. For every list
//! that the pages hold: `slot_at` gives slot k; `find` the least place whose MMU table is in a given frame; `push_slot`
//! adds at the end; `swap_remove` moves the last slot into the free place and zeroes its old place; `append_page` adds
//! a page after the last; `pop_page` returns the last, in which no slot is left, with its address, and leaves its
//! words. No frame changes but pages of the list.
#![tactic(auto)]

mod pages;
mod pairs;
mod slots;

pub use pages::{append_page, pop_page};
pub use pairs::{read_pair, write_pair};
pub use slots::{Slot, find, push_slot, slot_at, swap_remove};
