//! The text of a raw memory: read into frames as `core` writes it, or refused at its first bad line.
//!
//! `core_text` (specs/Core) says what bytes mean as such a text, the words of a memory or a first bad line, by the
//! lines of specs/Lines. `read_core`, over any `Joint`, reads it into frames of zeros. `law_round_trip` says that these
//! are exactly the texts that `core` writes. `law_first_bad` says that the named line is the first bad one in the
//! grammar's own sense: some accepted text begins with the lines before it, and none begins with these and the line
//! itself, newline included. (Of a last line without its newline it says nothing.)

mod laws;
mod line;
mod place;
mod text;

pub use laws::{law_first_bad, law_lines, law_round_trip};
pub use line::take_word;
pub use text::{CoreError, read_core, read_core_from_joint};
