//! The words of a descriptor, by their index: docs/FORMATS.md, "Descriptor". Every word that has no name here is 0. A
//! page of the partition has two words, the address at which the parent maps it and its frame.

/// The descriptor itself: its address in the parent, 0 in the root.
pub const SELF_VA: u32 = 0;
/// The frame of the descriptor itself.
pub const SELF_FRAME: u32 = 1;
/// The MMU directory: its address in the parent.
pub const MMU_VA: u32 = 2;
/// The frame of the MMU directory.
pub const MMU_FRAME: u32 = 3;
/// The first shadow directory: its address in the parent.
pub const SHADOW1_VA: u32 = 4;
/// The frame of the first shadow directory.
pub const SHADOW1_FRAME: u32 = 5;
/// The second shadow directory: its address in the parent.
pub const SHADOW2_VA: u32 = 6;
/// The frame of the second shadow directory.
pub const SHADOW2_FRAME: u32 = 7;
/// The first list page: its address in the parent.
pub const LIST_VA: u32 = 8;
/// The frame of the first list page.
pub const LIST_FRAME: u32 = 9;
/// The frame of the parent's descriptor. The root has its own.
pub const PARENT: u32 = 11;
/// The number of tables, 0 to 1024.
pub const TABLES: u32 = 12;
/// The flags: `MASKED` where it holds, else 0.
pub const FLAGS: u32 = 14;
/// The pending lines, bit k for line k. 0 but in the root.
pub const PENDING: u32 = 15;

/// The flag that the partition is masked.
pub const MASKED: u32 = 1;
