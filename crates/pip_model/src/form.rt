//! The forms of instruction words.

/// Which fields of a word an instruction uses; the other fields are 0 (docs/FORMATS.md, "Instructions").
#[derive(Clone, Copy, Debug, PartialEq, Eq)]
pub enum Form {
    /// The registers a and b.
    Two,
    /// The registers a, b and c.
    Three,
    /// a, b and an unsigned immediate.
    TwoAndValue,
    /// a, b and an immediate of 31 at most.
    TwoAndShift,
    /// a, b and a signed immediate.
    TwoAndOffset,
    /// a and an unsigned immediate.
    OneAndValue,
    /// a and a signed immediate.
    OneAndOffset,
    /// a alone.
    One,
    /// An unsigned immediate.
    Value,
    /// An immediate from 64 to 255.
    Vector,
}
