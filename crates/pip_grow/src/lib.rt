//! The calls that give a child the pages of further tables and take them back, over frames: a file each under `calls`.
//!
//! Each needs frames that lay out some sound tree which has the caller (`HasPartition`). They keep nothing beside the
//! frames and take no memory. `count_to_map` gives the model's status and value and writes nothing. `prepare` and
//! `collect` promise what pip_birth's calls do, with a value. `prepare` follows the whole chain of pages and tests each
//! by its own row before it writes a word. `collect` finds out in at most 1026 steps whether the child's tables have a
//! row, removes them, opens their pages up the chain of partitions, frees them in the caller's first shadow and links
//! them into a chain that `prepare` takes. `prepare-stands` and `collect-stands` say that the caller can call again.
#![tactic(auto)]

mod calls;
mod chain;
mod links;

pub use calls::collect::collect;
pub use calls::count_to_map::count_to_map;
pub use calls::prepare::prepare;
