//! The assembler.
ghost use Rattle.std.specs.Prelude.{◌≤◌, ◌^◌, ◌≡◌, length, MatchResult, Ok};
ghost use Rattle.pip_model.specs.Assembly.{assembly};
ghost use Rattle.pip_asm.specs.Reading.{Refused};

use crate::reading::{AsmError, read_lines};
use std::alloc::Global;

/// The image that a text of at most 2^24 bytes is assembled to, byte for byte (docs/FORMATS.md, "Assembly"). `Line`
/// exactly where the text has a fault: the first, with its line. `Memory` only where no memory is left.
pub fn assemble(alloc: Global, text: &[u8]) -> Result<Vec<u8>, AsmError>
    requires { length text.now ≤ 2 ^ 24 }
    ensures { MatchResult result (λ image. assembly text.now ≡ Ok image.items) (Refused (assembly text.now)) }
{
    match read_lines(alloc, text) {
        Ok(passed) => passed.finish(),
        Err(error) => Err(error),
    }
}
