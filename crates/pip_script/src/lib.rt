//! The lines of scripts, read from bytes, the text of answers, and the generator (docs/FORMATS.md, "Scripts" and
//! "Generator").
//!
//! A line is accepted exactly if it is in the grammar for the machine's number of processors, and its numbers are then
//! in the ranges that its event needs. `answer_line` reads a line that isn't blank, makes its event on any port, and
//! gives what the model answers (`RepliesTo`). One macro (`by_form`) serves it and `read_line`, so that the value of a
//! line need not be put together in memory. The text of an outcome is, byte for byte, the model's, and the generator's
//! draws are the model's.
//!
//! An [`Input`] is the bytes of a source up to a limit, and their lines. What is held and what the source has left are
//! together the bytes that were not taken; reading ahead moves bytes from the source to what is held and changes
//! nothing else. `line_ahead` says what is at the head of what is held, or that more has to be read. `read_line` reads
//! until a line is there, and answers how it ends; `head` lends its bytes, `take` takes them. At most 2^24 bytes are
//! ever taken, or the number given to `with_room`; one more byte shows that the limit was passed. [`read_whole`] reads
//! a source into one vector. All reading is through a `Joint`.
#![tactic(auto)]

mod answers;
mod forms;
mod generator;
mod input;
mod lines;
mod numbers;
mod text;
mod whole;

pub use generator::Generator;
pub use input::{Input, LineEnd};
pub use lines::{answer_line, is_blank, read_line, read_phrase, split_word};
pub use numbers::read_number;
pub use pip_model::{Said, ScriptLine};
pub use text::{
    outcome_text, push_decimal, push_digits, push_said, push_word, reply_line, word_line, word_text,
};
pub use whole::{ReadError, read_whole};
