//! A generated load: events that are drawn from a number and made on any machine, and the counts of what comes of them.
//!
//! Over any port of two or more processors `soak_load` makes the model's load and counts its outcomes (`CountsOf`), and
//! `load_text` writes them: with the totals of pip_dump over the same machine's frames, that is the model's text.
#![tactic(auto)]

mod asks;
mod counts;
mod draws;
mod load;
mod text;

pub use counts::Counts;
pub use load::soak_load;
pub use text::load_text;
