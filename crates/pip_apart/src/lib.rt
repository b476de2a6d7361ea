//! Guests that are searched alone hold in any company (docs/GUARANTEES.md, "Every interleaving").
//!
//! [`law_company`] is about runs: guests that stay inside alone do so beside each other, in every order of their turns
//! and with lines raised at any time, if the root takes no line (specs/Company). [`Guest`] is a machine as a `System`
//! of pip_search, whose choices are the turns of the processors on which one guest runs; a turn in which the guest
//! leaves has a mark in its label, and leads nowhere (specs/Alone). [`search_guest`] searches it, and [`stays`] says
//! whether it closed without such a turn. [`law_searches`] joins both: where each guest was searched so, every line
//! that all of them together can show is among those that were found (`SearchesAdd`).
//!
//! [`find_out`] does so for all guests of a machine: they are the children of the root below which something runs
//! ([`tops`]). It also says whether the root runs ([`root_on`]) or might take a line ([`first_taken`]), so that
//! [`hold_apart`] is a test of all that the law needs, and [`law_known`] says what follows for slots of any order, and
//! for each run that comes to such a world (specs/Found).
#![tactic(auto)]

mod guest;
mod guests;
mod searching;
mod taken;
mod text;

ghost use Rattle.pip_apart.specs.Alone.{MarkedGuestsLeave, SearchedGuestsStay, SearchesAdd};
ghost use Rattle.pip_apart.specs.Company.{AloneIsAnOrder, GuestsHoldAmongLines, GuestsHoldInCompany};
ghost use Rattle.pip_apart.specs.Company.{LinesAreShownAlone};
ghost use Rattle.pip_apart.specs.Found.{KnownAreInCompany, KnownGuestsHold, KnownLinesSuffice, KnownOnce};
ghost use Rattle.pip_apart.specs.Found.{RunsShowKnown, SlotsShowKnown};
ghost use Rattle.pip_apart.specs.Kept.{InsideTurnsAskNot, KeptTurnsStay};

pub use guest::Guest;
pub use guests::{processors_of, root_on, top_at, top_of, tops};
pub use searching::{
    GuestSearch, Knowledge, find_out, hold_apart, is_marked, search_guest, search_guests, stays,
};
pub use taken::{first_taken, might_take};
pub use text::write_known;

/// Guests that stay inside alone do so in any company, and each has the turns that it has alone.
pub fn law_company()
    ensures quiet { GuestsHoldInCompany }
    ensures lines { GuestsHoldAmongLines }
    ensures shown { LinesAreShownAlone }
    ensures order { AloneIsAnOrder }
{}

/// A search of each guest alone says what all of them can show together.
pub fn law_searches()
    ensures kept { KeptTurnsStay }
    ensures asks { InsideTurnsAskNot }
    ensures stay { SearchedGuestsStay }
    ensures leave { MarkedGuestsLeave }
    ensures add { SearchesAdd }
{}

/// What is known of the guests of a world by searches of each alone says what all of them can show together: from there
/// on, after each run that comes there, and of slots of any order; and that each does exactly what it does alone. There
/// is one thing to be known of each world.
pub fn law_known()
    ensures once { KnownOnce }
    ensures lines { KnownLinesSuffice }
    ensures slots { SlotsShowKnown }
    ensures runs { RunsShowKnown }
    ensures company { KnownAreInCompany }
    ensures hold { KnownGuestsHold }
{}
