//! One turn of a processor: it polls, fetches and runs one instruction (docs/MODEL.md, "A turn"), and writes the lines
//! of the trace (docs/FORMATS.md, "Trace lines").
//!
//! A turn, over any port and any sink, is one list of *acts*: an event is made, or a line is written. For each world
//! that the port represented a caller gets: at Ok all acts were made (`Made`: the port represents the world after them,
//! and their lines were appended); at Err the acts up to a line, and a part of that line was appended (`Cut`). The
//! lemmas of proofs/Makings join the two: after an event, after a line, before a line, before more acts.
#![tactic(auto)]

mod carry;
mod effects;
mod lines;
mod turns;
mod words;

pub use effects::effect_of;
pub use lines::{write_call, write_line, write_moved};
pub use pip_model::{Effect, TurnEnd};
pub use turns::turn;
