//! The machine: processors over frames, faults, traps, interrupt lines and all eleven calls.
//!
//! [`Machine`] is frames and processors with their caches, and implements `Port` of pip_model. [`Machine::new`] makes
//! one from frames that lay out the boot tree, whatever the root's pages hold (`HasBooted`). Contracts see a machine as
//! a `State`: its memory, what runs on its processors, their caches, and that it represents some world (`StandsWith`).
//! Inside, each event is a function on frames and processors with the clause `Came (event w e) outcome ..` for every
//! such world. If the frames offer [`Rewind`], `Machine::rewind` takes the machine to other words and processors for
//! which there is a world. specs/Isolation has the laws of machines: `law_runs`, whatever a machine does, event by
//! event, is what happens in the model; `law_local` and `law_give_back`, locality and giving back. specs/Work has
//! `law_work`, in how many steps a machine runs.
//!
//! `handlers` finds a partition's blocks, `blocks` reads and writes their words, `saves` saves a context in one;
//! `delivery` finds the partition that takes a vector, and delivers it; `events` has accesses and traps, `calls` the
//! calls that don't switch, `switching` yield, `lines` raise and poll, `contexts` all that reads or writes a context.
#![tactic(auto)]

mod bits;
mod blocks;
mod caches;
mod calls;
mod contexts;
mod delivery;
mod events;
mod handlers;
mod laws;
mod lines;
mod machine;
mod processors;
mod rewinding;
mod saves;
mod switching;

pub use laws::{law_give_back, law_local, law_runs, law_work};
pub use machine::Machine;
pub use processors::Processors;
pub use rewinding::Rewind;
