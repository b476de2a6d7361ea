//! The operands of each form after a text.
ghost use Rattle.std.specs.Prelude.{◌≡◌, ◌+◌, ◌≤◌, ◌++◌, decimal};
ghost use Rattle.arrayvec.specs.ArrayString.{array_string_len};
ghost use Rattle.pip_model.specs.InstrText.{before, reg_text, signed_text};

use crate::dis::operands::{push_decimal, push_last_register, push_register, push_signed};
use arrayvec::ArrayString;
use pip_model::Register;

#[tactic(auto, using(crate::proofs::Joined::joined))]
pub fn two(text: &mut ArrayString<64>, a: Register, b: Register)
    requires { array_string_len text.old + 7 ≤ 64 }
    ensures bytes { text.new.bytes ≡ text.old.bytes ++ before a (reg_text b) }
    ensures short { array_string_len text.new ≤ array_string_len text.old + 7 }
{
    push_register(text, a);
    push_last_register(text, b);
}

#[tactic(auto, using(crate::proofs::Joined::joined))]
pub fn three(text: &mut ArrayString<64>, a: Register, b: Register, c: Register)
    requires { array_string_len text.old + 11 ≤ 64 }
    ensures bytes { text.new.bytes ≡ text.old.bytes ++ before a (before b (reg_text c)) }
    ensures short { array_string_len text.new ≤ array_string_len text.old + 11 }
{
    push_register(text, a);
    two(text, b, c);
}

#[tactic(auto, using(crate::proofs::Joined::joined))]
pub fn two_number(text: &mut ArrayString<64>, a: Register, b: Register, value: u32)
    requires { array_string_len text.old + 18 ≤ 64 }
    ensures bytes { text.new.bytes ≡ text.old.bytes ++ before a (before b (decimal value)) }
    ensures short { array_string_len text.new ≤ array_string_len text.old + 18 }
{
    push_register(text, a);
    one_number(text, b, value);
}

#[tactic(auto, using(crate::proofs::Joined::joined))]
pub fn two_signed(text: &mut ArrayString<64>, a: Register, b: Register, offset: i16)
    requires { array_string_len text.old + 19 ≤ 64 }
    ensures bytes { text.new.bytes ≡ text.old.bytes ++ before a (before b (signed_text offset)) }
    ensures short { array_string_len text.new ≤ array_string_len text.old + 19 }
{
    push_register(text, a);
    one_signed(text, b, offset);
}

#[tactic(auto, using(crate::proofs::Joined::joined))]
pub fn one_number(text: &mut ArrayString<64>, a: Register, value: u32)
    requires { array_string_len text.old + 14 ≤ 64 }
    ensures bytes { text.new.bytes ≡ text.old.bytes ++ before a (decimal value) }
    ensures short { array_string_len text.new ≤ array_string_len text.old + 14 }
{
    push_register(text, a);
    push_decimal(text, value);
}

#[tactic(auto, using(crate::proofs::Joined::joined))]
pub fn one_signed(text: &mut ArrayString<64>, a: Register, offset: i16)
    requires { array_string_len text.old + 15 ≤ 64 }
    ensures bytes { text.new.bytes ≡ text.old.bytes ++ before a (signed_text offset) }
    ensures short { array_string_len text.new ≤ array_string_len text.old + 15 }
{
    push_register(text, a);
    push_signed(text, offset);
}
