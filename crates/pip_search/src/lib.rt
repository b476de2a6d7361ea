//! A breadth-first search of a system of states: what can happen there, and what can't. It uses no other crate.
//!
//! A [`System`] has states, each with the same number of choices, and keys: lists of words that represent states. Its
//! method `make` makes a choice, and answers the next key and what the choice showed; `follow` makes those of a way,
//! and `stays` may say of a choice that it changes nothing, so that it needn't be made. What they promise (`LeadsOn`,
//! `LeadsAlong`) is about every state that the key represents, so the search never has to know what a key means.
//! [`explore`] searches, and [`runs`] gives the runs of equal choices on the way to each label that it found. What an
//! answer says about a state is `IsTold` of specs/Summary: there a way has its last choice first (that of `follow` has
//! its first), and comes before another by `IsBefore` of specs/Orders. This requires that no state has two keys;
//! without that, `Tells` (specs/Reached) explains what was found, and `Ends` (specs/Ending) why the search ended. Keys
//! are kept as bytes, one to five a word (specs/Packing), one key after another (specs/Storing). Keys and labels are
//! found by their hashes in a table (specs/Cells); it is proved that it has none twice, whatever the hash and its seed
//! are.
//!
//! Of a search that closed [`come_again`] says whether a label can come again wherever choices lead, by some of the
//! choices alone (`CanComeAgain` of specs/Again), or after which state it can't. It spreads marks against the choices,
//! from those that show the label (specs/Graphs); choices are found by where they lead, on chains (specs/Filing).
//! [`must_come`] says within how many choices it comes where they are fair, or shows a loop of fair choices that avoids
//! it (specs/Comes). One of the two is always found: at worst by stages (specs/Stages).
//!
//! A search that is too large for one process is a certificate of parts (specs/Certificates). [`check_part`] checks a
//! part by itself: it begins where a way leads, makes every choice at every key of the part, and a mark for each choice
//! says whether the next key is the part's own; any other key it asks of the other parts. So it reads no keys, only a
//! way and marks. [`law_certificates`] says what follows where all that is asked is among the keys of all parts.
#![tactic(auto)]

mod again;
mod blocks;
mod byte_lists;
mod coming;
mod found;
mod graph;
mod hash_table;
mod hashes;
mod index;
mod key_store;
mod laws;
mod names;
mod packing;
mod parts;
mod ranks;
mod searching;
mod stages;
mod stops;
mod system;
mod visits;
mod ways;

pub use again::come_again;
pub use coming::{Coming, must_come};
pub use found::Found;
pub use laws::{law_certificates, law_comes, law_once};
pub use parts::{Part, check_part, law_portions, reached};
pub use searching::{Extent, Search, explore};
pub use stops::Reached;
pub use system::System;
pub use visits::Visit;
pub use ways::{Run, runs, runs_along, runs_to};
