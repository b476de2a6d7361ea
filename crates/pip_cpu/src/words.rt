//! What instructions compute with words.
ghost use Rattle.std.specs.Prelude.{◌≡◌, ◌%◌};
ghost use Rattle.pip_model.specs.Effects as model;

/// The word for a signed immediate.
pub fn extended(offset: i16) -> u32
    ensures { result ≡ model.word_of_signed offset }
{
    i32::from(offset).cast_unsigned()
}

/// A comparison as a word: 1 or 0.
pub fn bit(holds: bool) -> u32
    ensures { result ≡ model.bit holds }
{
    if holds { 1 } else { 0 }
}

/// Whether a word is below another as a signed number.
pub fn is_below_signed(a: u32, b: u32) -> bool
    ensures { result ≡ model.below_signed a b }
{
    a.cast_signed() < b.cast_signed()
}

/// A word shifted right by the remainder of a distance by 32: its top bit comes in.
pub fn shifted_signed(a: u32, distance: u32) -> u32
    ensures { result ≡ model.shift_signed a (distance % 32) }
{
    (a.cast_signed() >> (distance % 32)).cast_unsigned()
}

/// A word with another upper half.
pub fn with_high(a: u32, value: u16) -> u32
    ensures { result ≡ model.with_high a value }
{
    u32::from(value) * 0x1_0000 + a % 0x1_0000
}
