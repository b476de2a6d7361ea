//! The calls, a file each: the tests, the writes, and the call.

pub mod add_vaddr;
pub mod mapped_in_child;
pub mod remove_vaddr;
