//! Interrupt plans, each kept with a callback that is asked when it is due, and the steps of a run (docs/MODEL.md, "A
//! run").
//!
//! In a clause a line is its plan. `raise_due`, `run_lines` and `trace` speak about the same acts as pip_cpu; a run's
//! steps are a list by recursion on their number, and the schedule is a function of the step, so the generator occurs
//! in no clause. `run_lines` serves every command that runs an image: over the sink between the two lines of `trace`,
//! or over a sink that keeps nothing, with `write_end` after another text.
#![tactic(auto)]

mod callback;
mod line;
mod raise;
mod run;
mod schedule;
mod tracing;

pub use callback::Callback;
pub use line::Line;
pub use pip_model::due;
pub use raise::raise_due;
pub use run::run_lines;
pub use tracing::{ImageSize, trace, write_end, write_image};
