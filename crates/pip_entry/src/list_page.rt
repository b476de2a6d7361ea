//! The words of a list page, by their index: docs/FORMATS.md, "List pages and slots". The last two words are 0.

/// The frame of the next list page, 0 in the last one.
pub const NEXT_FRAME: u32 = 0;
/// The address of the next list page in the parent, 0 in the last one.
pub const NEXT_VA: u32 = 1;
/// The first word of the first slot.
pub const FIRST_SLOT: u32 = 2;
/// The number of words in a slot: two for each of its three tables (MMU, first shadow, second shadow), which are the
/// table's address in the parent and its frame.
pub const SLOT_WORDS: u32 = 6;
/// The number of slots in a list page.
pub const SLOTS: u32 = 170;
