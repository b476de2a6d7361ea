//! What one line of an assembly text says (docs/FORMATS.md, "Assembly").
//!
//! `cut_line` cuts the first line off a text, and `statement` says what a line says at a stage of the text. A word into
//! which half of an address or a distance goes has room for it (`HasRoomFor`).

mod cell;
mod instructions;
mod lines;
mod operands;
mod words;

pub use cell::{Cell, NameUse, Statement};
pub use lines::{cut_line, statement};
