//! Building a child: the calls of a machine that give it exactly the pages that are wanted, in page tables made of a
//! pool of pages. No memory is taken.
//!
//! It is a library for authors of parents; of the commands `native` alone uses it. `need` says how many pages of a pool
//! a child takes, and [`build`] makes the child over any port. To be read in this order: specs/Wants (what is asked
//! for, and which wants no child can have), Pool (what is required of the pool), Built (the tree with the child),
//! Contract (each answer with its world), Events (the events that are made and the steps that they may take, whatever
//! the caller has). `calls.rt` has a function for each call, whose clause is the model's answer of it; proofs/ leads
//! from what the model tests to the next tree: Made, Tabled, Lent and Deleted for the four calls, Opening, Meeting and
//! Whole for the worlds of specs/Stages between. `Directories` (a truth value each) and `Addresses` (a hash table with
//! chains) keep on the stack which wants were seen (specs/Seen).
#![tactic(auto)]

mod addresses;
mod building;
mod built;
mod calls;
mod directories;
mod taken;
mod wants;

pub use building::build;
pub use built::{BuildError, Built};
pub use wants::{Want, need};
