//! The calls, a file each: the tests, and the call.

pub mod create_partition;
pub mod delete_partition;
