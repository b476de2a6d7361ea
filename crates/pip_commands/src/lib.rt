//! The commands of the program, over any source and any sink.
//!
//! [`pip`] and the nine commands carry the headline: by the words and the status, what was read and what was written
//! (`EndsBy` of pip_command_contracts, one record for all). What is due of a command, a value of `Due`, is in
//! specs/Dues, which chooses it by the words. `words` reads the command line, `commands/` has a file for each command,
//! where those that differ in their last step alone share one, and `text` has the lines that the commands write
//! themselves.
//!
//! - `script`: `line` runs one line, over any port once there is one; `turn` takes a line from the input and runs it
//!   (`LineComes`); the sink is flushed before more is read, and at the end. Between two turns `HasRun` holds: all
//!   lines before were run, their text was given to the sink, and the machine, if there is one, represents their world.
//! - `run`, `tree` and `core` are one body: an image is read into a new machine, `run/report` makes the steps and shows
//!   the trace, the tree or the frames.
//! - `native` has pip_children read an image and build the children, and its monitor is the scheduling of their steps.
//! - `soak` has pip_soak make its load on a new machine, and write the counts with pip_dump's totals of its frames.
//! - `audit` takes all its memory, has pip_audit read frames and judge them (`found_answer`).
//!   `law_core_audited` joins two commands: what `core` writes of a sound tree's frames is read as these frames, and
//!   `audit` answers it with the text of that tree.
#![tactic(auto)]

mod commands;
mod laws;
mod machines;
mod monitor;
mod text;
mod top;
mod words;

pub use commands::asm::asm;
pub use commands::audit::audit;
pub use commands::dis::dis;
pub use commands::native::native;
pub use commands::run::{core_dump, run, tree};
pub use commands::script::script;
pub use commands::soak::soak;
pub use laws::{law_core_audited, law_inputs_answered};
pub use machines::new_machine;
pub use monitor::MONITOR;
pub use pip_command_contracts::Ended;
pub use top::pip;
