//! The words of instructions, and the table of their opcodes (docs/FORMATS.md, "Instructions").
//!
//! `opcode_row` and `opcode_named` read the table, and `encode` and `decode` are exact both ways. An instruction is one
//! row of the macro `instructions!`, from which all four are written. `row_passes` (proofs/Rows) is the one way to say
//! something about all rows: the row of each opcode passes a test that the whole table passes.
#![tactic(auto)]

mod fields;
mod instructions;
mod operands;
mod table;
mod words;

pub use fields::{immediate, register_a, register_b, register_c, signed_immediate};
pub use pip_model::{Form, Instr, Register, Shift, Vector};
pub use table::{Opcode, opcode_named, opcode_row};
pub use words::{decode, encode};
