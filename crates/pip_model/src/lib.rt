//! The written model of the machine: partitions, worlds, events, scripts and their laws; instructions, images and
//! assembly. Code has what a program computes with, and the laws; specs/ has the definitions.
//!
//! The headings of specs/Lib are the contents of specs/, and docs/MODEL.md says the same in plain words. NodeWords (the
//! words of one node), FullRows (what its tables hold) and Layout (the tree) say what frames hold. Calls are named by
//! one table of numbers (`call_named` of Happens). What the laws require of a call on memory is one record
//! (`MemoryLaws` of proofs/Calls/Laws), and `laws_of` has one for each call. Proofs are in folders by topic: OnLists,
//! Trees, Calls, Events, Locality, Nodes, Frames.
//!
//! The kernel's crates are stated and proved on the level of nodes: `NodeIn memory node cells`, the memory holds the
//! node with these words in its tables; `LaysOut tree memory`, every word of every frame is the tree's; `HasPartition
//! memory p`, some sound tree with p is laid out; `InEach memory p P`, P holds of p in each such tree; `Midway memory
//! tree rows`, in the middle of a call each node has these rows, which are the tree's except for user bits and for the
//! child to which a page is given. `laid_space` leads from a tree to its nodes, `lays_rows` back, and `midway_put` and
//! `midway_hidden` through the writes between.
//!
//! All that runs on the kernel is written over the trait [`Port`]. A port represents worlds; for each event it promises
//! `Follows`: for every world that it represents, the outcome is the model's, and then it represents the model's next
//! world. `TakesAtMost` (specs/Work): the event takes no more steps than in each of these worlds it may.
#![tactic(auto)]

mod assembly;
mod cached;
mod call_name;
pub mod call_number;
mod effect;
mod form;
mod image;
mod instr;
mod laws;
mod level;
mod list_pages;
mod operands;
mod plan;
mod port;
mod processors;
mod reading;
mod root;
mod script;
mod turn_end;

pub use assembly::{AsmKind, Stage};
pub use cached::Entry;
pub use call_name::{CallName, MemoryCall};
pub use effect::Effect;
pub use form::Form;
pub use image::ImageError;
pub use instr::Instr;
pub use laws::{
    law_audit, law_caches, law_give_back, law_layout, law_local, law_reach, law_sound, law_work,
};
pub use level::Level;
pub use list_pages::lists;
pub use operands::{Register, Shift, Vector};
pub use plan::due;
pub use port::Port;
pub use processors::{Occupant, Taker};
pub use reading::{Difference, Stop};
pub use root::{ROOT, root_frame, root_tables};
pub use script::{Said, ScriptLine};
pub use turn_end::TurnEnd;
