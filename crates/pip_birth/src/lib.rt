//! The calls that make and end partitions, over frames: a file each under `calls`.
//!
//! Both need frames that lay out some sound tree which has the caller (`HasPartition`). For every such tree the status
//! is the model's, in the model's order of tests, and afterwards the frames lay out the model's new tree, which is
//! sound, in every word; after a refusal no word has changed. They keep nothing beside the frames and take no memory.
//! `delete_partition` is given the names of the partitions that run, and ends the child with its whole subtree in one
//! pass over the caller's first shadow: the pages that the shadow says the child has come back, and those of them that
//! are hidden, the configuration of the subtree, are zeroed. `create-stands` and `delete-stands` say that the caller
//! can call again.
#![tactic(auto)]

mod calls;
mod ending;
mod newborn;

pub use calls::create_partition::create_partition;
pub use calls::delete_partition::delete_partition;
