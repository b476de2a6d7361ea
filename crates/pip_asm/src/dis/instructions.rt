//! Instructions as text.
ghost use Rattle.std.specs.Prelude.{◌≡◌, ◌+◌, ◌≤◌, ◌++◌, ◌∷◌, [], length};
ghost use Rattle.arrayvec.specs.ArrayString.{array_string_len};
ghost use Rattle.pip_model.specs.InstrText.{instr_text, operands_text};

use crate::dis::forms::{one_number, one_signed, three, two, two_number, two_signed};
use crate::dis::operands::{push_decimal, push_last_register};
use arrayvec::ArrayString;
use pip_isa::{
    Form, Opcode, immediate, opcode_row, register_a, register_b, register_c, signed_immediate,
};

/// The text of the instruction that a word is, after a text: its mnemonic, and its operands by the form of its opcode.
pub fn push_instruction(text: &mut ArrayString<64>, word: u32)
    requires { array_string_len text.old + 24 ≤ 64 }
    ensures bytes { text.new.bytes ≡ text.old.bytes ++ instr_text word }
    ensures short { array_string_len text.new ≤ array_string_len text.old + 24 }
{
    match opcode_row(word / 0x100_0000) {
        None => {}
        Some(row) => {
            push_mnemonic(text, row);
            push_operands(text, row.form, word);
        }
    }
}

// The mnemonic of a row, and a space.
fn push_mnemonic(text: &mut ArrayString<64>, row: Opcode)
    requires name { length row.name.now ≤ 4 }
    requires room { array_string_len text.old + 5 ≤ 64 }
    ensures bytes { text.new.bytes ≡ text.old.bytes ++ (row.name.now ++ 32 ∷ []) }
    ensures short { array_string_len text.new ≤ array_string_len text.old + 5 }
{
    text.push_str(row.name);
    text.push_str(" ");
}

// The operands after a text.
fn push_operands(text: &mut ArrayString<64>, form: Form, word: u32)
    requires { array_string_len text.old + 19 ≤ 64 }
    ensures bytes { text.new.bytes ≡ text.old.bytes ++ operands_text form word }
    ensures short { array_string_len text.new ≤ array_string_len text.old + 19 }
{
    let a = register_a(word);
    let b = register_b(word);
    let number = u32::from(immediate(word));
    match form {
        Form::Two => two(text, a, b),
        Form::Three => three(text, a, b, register_c(word)),
        Form::TwoAndValue => two_number(text, a, b, number),
        Form::TwoAndShift => two_number(text, a, b, number),
        Form::TwoAndOffset => two_signed(text, a, b, signed_immediate(word)),
        Form::OneAndValue => one_number(text, a, number),
        Form::OneAndOffset => one_signed(text, a, signed_immediate(word)),
        Form::One => push_last_register(text, a),
        Form::Value => push_decimal(text, number),
        Form::Vector => push_decimal(text, number),
    }
}
