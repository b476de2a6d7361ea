//! The commands that search what can happen to an image, over any source and any sink.
//!
//! - `every`: `every/searching` has pip_every search what can happen to an image's frames, and find the ways.
//!   Its answer is stated without keys and visits (`IsSearchedAgainst`).
//! - `against` is `every` with a menu: `against/menu` reads one after the image, line by line (`IsAtLine`), and
//!   `against/menu_line` says what a line says (`said_of`), by the grammar of scripts. `every` is the search with none.
//!   `against/again` and `against/comes` write what pip_every says of the labels of which a menu asks.
//! - `apart/searching` makes the steps of such an image twice: once for the words with which keys compare, and once on
//!   the machine on which pip_apart searches each guest alone (`IsFoundApart`).
//!
//! What is due of each is in specs/SearchDues. The laws say what their texts say of all runs: [`law_every`] and
//! [`law_every_runs`], [`law_against`], [`law_apart`].
#![tactic(auto)]

mod commands;
mod laws;
mod start;
mod text;

pub use commands::against::against;
pub use commands::apart::apart;
pub use commands::every::every;
pub use laws::{law_against, law_apart, law_every, law_every_runs};
pub use start::Start;
