//! The fields of a word.
ghost use Rattle.std.specs.Prelude.{◌≡◌, ◌<◌, ◌/◌, ◌%◌, ◌*◌, ◌+◌};
ghost use Rattle.pip_model.specs.InstrWords.{word_from, low16, immediate, reg_a, reg_b, reg_c, signed_immediate};

use pip_model::{Register, Shift, Vector};

/// The low 16 bits of a signed number.
pub fn low_bits(value: i16) -> u32
    ensures same { result ≡ low16 value }
    ensures small { result < 65536 }
{
    if value >= 0 {
        value as u32
    } else {
        65536 - value.unsigned_abs() as u32
    }
}

/// Register a of a word.
pub fn register_a(word: u32) -> Register
    ensures { result ≡ reg_a word }
{
    Register::new(word / 0x10_0000 % 16)
}

/// Register b of a word.
pub fn register_b(word: u32) -> Register
    ensures { result ≡ reg_b word }
{
    Register::new(word / 0x1_0000 % 16)
}

/// Register c of a word.
pub fn register_c(word: u32) -> Register
    ensures { result ≡ reg_c word }
{
    Register::new(word / 0x1000 % 16)
}

/// The immediate of a word.
pub fn immediate(word: u32) -> u16
    ensures { result ≡ immediate word }
{
    (word % 0x1_0000) as u16
}

/// The immediate of a word as a signed number.
pub fn signed_immediate(word: u32) -> i16
    ensures same { result ≡ signed_immediate word }
    ensures bits { low16 result ≡ immediate word }
{
    let bits = word % 0x1_0000;
    if bits < 32768 {
        bits as i16
    } else {
        (bits as i32 - 65536) as i16
    }
}

/// The word of an opcode, its registers and its immediate.
pub fn word_of(op: u32, a: u32, b: u32, c: u32, immediate: u32) -> u32
    requires op { op < 256 }
    requires a { a < 16 }
    requires b { b < 16 }
    requires c { c < 16 }
    requires immediate { c * 4096 + immediate < 65536 }
    ensures { result ≡ word_from op a b c immediate }
{
    op * 0x100_0000 + a * 0x10_0000 + b * 0x1_0000 + c * 0x1000 + immediate
}
