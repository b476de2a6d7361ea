//! The table of opcodes, which the assembler and the disassembler read too.
ghost use Rattle.std.specs.Prelude.{◌≡◌, ◌≤◌, ◌+◌, IfSome, map, length, option_map};
ghost use Rattle.std.specs.List.{position};
ghost use Rattle.std.specs.Str.{bytes_eq};
ghost use Rattle.pip_model.specs.InstrWords.{opcode_at, opcodes};
ghost use Rattle.pip_isa.specs.Table.{opcode_row_seen, row_of};

use crate::instructions::instructions;
use pip_model::Form;

/// A row of the table: the mnemonic, and which fields a word of this opcode uses.
#[derive(Clone, Copy, Debug, PartialEq, Eq)]
pub struct Opcode {
    pub name: &'static str,
    pub form: Form,
}

// The rows of the opcodes from 1 on.
macro_rules! opcode_rows {
    (; $($opcode:literal $name:literal $bytes:literal $form:ident $instr:ident $operands:tt)*) => {
        &[$(Opcode {
            name: $name,
            form: Form::$form,
        },)*]
    };
}

static OPCODES: &[Opcode] = instructions!(opcode_rows);

// The rows.
fn rows() -> &'static [Opcode]
    ensures same { map opcode_row_seen result.now ≡ map row_of opcodes }
    ensures count { length result.now ≡ length opcodes }
{
    OPCODES
}

/// The row of an opcode; None where no instruction has it.
#[tactic(auto, using(crate::proofs::Opcodes::row_at, crate::proofs::Opcodes::no_row_at))]
pub fn opcode_row(number: u32) -> Option<Opcode>
    ensures same { option_map opcode_row_seen result ≡ option_map row_of (opcode_at number) }
    ensures within { IfSome result (λ _. number ≤ length opcodes) }
{
    let rows = rows();
    if number == 0 || number as usize > rows.len() {
        return None;
    }
    Some(rows[number as usize - 1])
}

macro_rules! match_name {
    ($word:expr; $($opcode:literal $name:literal $bytes:literal $form:ident $instr:ident $operands:tt)*) => {
        match $word {
            $($bytes => Some($opcode),)*
            _ => None,
        }
    };
}

/// The opcode of a mnemonic.
pub fn opcode_named(name: &[u8]) -> Option<u32>
    ensures { result ≡ option_map (λ k. k + 1) (position (λ o. bytes_eq name.now o.name) opcodes) }
{
    instructions!(match_name name)
}
