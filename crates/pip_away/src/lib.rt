//! Whether a machine looks away from words of some partitions, whose programs may be any: docs/GUARANTEES.md, "Any
//! program of a child".
//!
//! [`Blind`] names the partitions and the words that are left out. For each event there is a test of whether it reads
//! one of these words, before it is made: it answers exactly `event_passes` (specs/Sights of pip_guests) of each world
//! for which the machine stands. [`turn_looks_away`] is that of all events of a turn, each at its moment, and
//! [`is_confined`] says whether what runs can do nothing but stay inside, or exit.
#![tactic(auto)]

mod blind;
mod calls;
mod confined;
mod delivery;
mod events;
mod handlers;
mod lines;
mod places;
mod rows;
mod turns;

pub use blind::{
    Blind, MAX_ENTRIES, MAX_FREE, MAX_OWN, MAX_ROWS, MAX_SEEN, OwnRow, PageWord, TableEntry,
};
pub use confined::is_confined;
pub use events::{
    call_looks_away, fetch_looks_away, load_answers, load_looks_away, poll_looks_away,
    store_looks_away, trap_looks_away,
};
pub use turns::turn_looks_away;
