//! Images as assembly texts (docs/FORMATS.md, "Assembly").
//!
//! `disassemble` writes each part of an image once it has been accepted, and flushes the sink after each: so if a write
//! fails, each part was read only after the text of the parts before it had gone out. `paced` says so of every read by
//! its `Joint`: the text of all that was read is out. Over streams that reveal no bytes it still says that nothing is
//! held and that no call has failed.

mod disassembler;
mod forms;
mod instructions;
mod lines;
mod operands;
mod output;

pub use disassembler::{DisError, Disassembler, disassemble};
