//! The calls, a file each: the tests, the writes, and the call.

pub mod collect;
pub mod count_to_map;
pub mod prepare;
