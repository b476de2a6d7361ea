//! Words of instructions.
ghost use Rattle.std.specs.Prelude.{◌≡◌, ◌<◌, IfSome, IfNone, Some, false};
ghost use Rattle.pip_model.specs.InstrWords.{instruction_word, is_instruction};
ghost use Rattle.pip_model.specs.InstrRead.{instr_of, IsInstr};

use crate::instructions::instructions;
use crate::operands;
use pip_model::Instr;

macro_rules! match_instr {
    ($instr:expr; $($opcode:literal $name:literal $bytes:literal $form:ident $kind:ident { $($operand:ident),* })*) => {
        match $instr {
            $(Instr::$kind { $($operand),* } => operands::$form { $($operand: *$operand),* }.word($opcode),)*
        }
    };
}

/// The word of an instruction (docs/FORMATS.md, "Instructions").
pub fn encode(instr: &Instr) -> u32
    ensures { result ≡ instruction_word instr.now }
{
    instructions!(match_instr instr)
}

/// The instruction whose word this is, or None where it is the word of none: its opcode is in no row of the table, a
/// field that its form doesn't use isn't 0, or its immediate is out of range.
#[tactic(auto, using(crate::proofs::Laws::words_read, crate::proofs::Laws::read_none))]
#[inline(always)]
pub fn decode(word: u32) -> Option<Instr>
    ensures same { result ≡ instr_of word }
    ensures proper { IfSome result IsInstr }
    ensures found { IfSome result (λ i. instruction_word i ≡ word) }
    ensures back { (i : Instr) → IsInstr i → instruction_word i ≡ word → result ≡ Some i }
{
    decode_word(word)
}

macro_rules! match_word {
    ($word:expr; $($opcode:literal $name:literal $bytes:literal $form:ident $kind:ident { $($operand:ident),* })*) => {
        match $word / 0x100_0000 {
            $($opcode => {
                let operands::$form { $($operand),* } = operands::$form::read($word)?;
                Some(Instr::$kind { $($operand),* })
            })*
            _ => None,
        }
    };
}

#[inline(always)]
fn decode_word(word: u32) -> Option<Instr>
    ensures proper { IfSome result IsInstr }
    ensures found { IfSome result (λ i. instruction_word i ≡ word) }
    ensures none { IfNone result (is_instruction word ≡ false) }
{
    instructions!(match_word word)
}
