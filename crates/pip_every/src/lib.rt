//! The kernel as a system of states, and the search of all interleavings of its processors and lines.
//!
//! A state is a `Moment` (specs/Moments): a world, and a count up to FROM; `moment_after` is the choice of a
//! processor's turn or of a line. A key (specs/Keys) has this count, the processors, and the words that differ from
//! those of a later time. To make a choice, [`search`] takes its one machine to the key's moments, has it make its
//! turn, and writes its next key; what it shows goes to a sink that grows. A machine represents every world that its
//! frames lay out, so one run of the kernel is a step of each moment that has the key (`HasChosen` of specs/Choosing).
//! [`search_against`] searches with a menu (specs/Menus): what partitions that have deeds may do is all that is on it,
//! whatever their programs are; with an empty one it is the same search. [`search_on`] is both from any world on, and
//! also says of labels whether they can come again, wherever choices lead, by turns and lines alone (specs/Again), and
//! of labels whether they come, wherever choices lead, where those that are made next are fair (specs/Comes).
//! [`part`] checks a part of a search in the same way, for a certificate.
#![tactic(auto)]

mod again;
mod asking;
mod away;
mod comes;
mod deeds;
mod explorer;
mod journals;
mod label;
mod later;
mod laws;
mod looking;
mod menus;
mod parts;
mod processors;
mod searching;
mod seed;
mod texts;

pub use again::Again;
pub use asking::{Asked, MAX_LABEL, MAX_LABELS, Replies};
pub use away::Away;
pub use comes::Comes;
pub use journals::{First, Journal, copied};
pub use label::Label;
pub use later::{note_words, words_later};
pub use laws::law_keys;
pub use looking::looks_away;
pub use menus::{Deed, MAX_DEEDS, May};
pub use parts::part;
pub use processors::{add_processors, read_processors};
pub use searching::{search, search_against, search_on};
pub use seed::seed_of;
pub use texts::{inner, ways_of, write_search, write_shown, write_times, write_verdict, write_way};
