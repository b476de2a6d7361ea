//! The calls that lend pages to children, take them back and say where they are, over frames: a file each under
//! `calls`.
//!
//! Each needs frames that lay out some sound tree which has the caller (`HasPartition`). They keep nothing beside the
//! frames and take no memory. `mapped_in_child` gives the model's status and value in at most 6 steps and writes
//! nothing. `add_vaddr` and `remove_vaddr` promise what pip_birth's calls do. The first shadow's word of a row says
//! which child has the page, and the child's second shadow where the caller has a page that it takes back: no call
//! searches for either. `add-stands` and `remove-stands` say that the caller can call again.
#![tactic(auto)]

mod calls;
mod loan;
mod recall;

pub use calls::add_vaddr::add_vaddr;
pub use calls::mapped_in_child::mapped_in_child;
pub use calls::remove_vaddr::remove_vaddr;
