//! The instructions of the machine.
use crate::operands::{Register, Shift, Vector};

/// One instruction (docs/FORMATS.md, "Instructions"). a, b and c are registers. Sums, differences and addresses wrap at
/// 2^32. A branch sets pc to `next + 4 * offset`, where `next` is the address after the instruction.
#[derive(Clone, Copy)]
pub enum Instr {
    /// a becomes b.
    Mov {
        a: Register,
        b: Register,
    },
    /// a becomes the value.
    Li {
        a: Register,
        value: u16,
    },
    /// Bits 31 to 16 of a become the value; the lower bits stay.
    LiHigh {
        a: Register,
        value: u16,
    },
    /// a becomes b + c.
    Add {
        a: Register,
        b: Register,
        c: Register,
    },
    /// a becomes b - c.
    Sub {
        a: Register,
        b: Register,
        c: Register,
    },
    /// a becomes the low 32 bits of b * c.
    Mul {
        a: Register,
        b: Register,
        c: Register,
    },
    /// a becomes b / c, unsigned; trap 0 where c is 0.
    Div {
        a: Register,
        b: Register,
        c: Register,
    },
    /// a becomes b mod c, unsigned; trap 0 where c is 0.
    Rem {
        a: Register,
        b: Register,
        c: Register,
    },
    /// Bitwise and.
    And {
        a: Register,
        b: Register,
        c: Register,
    },
    /// Bitwise or.
    Or {
        a: Register,
        b: Register,
        c: Register,
    },
    /// Bitwise exclusive or.
    Xor {
        a: Register,
        b: Register,
        c: Register,
    },
    /// a becomes b shifted left by c mod 32.
    ShiftLeft {
        a: Register,
        b: Register,
        c: Register,
    },
    /// a becomes b shifted right by c mod 32; zeros come in.
    ShiftRight {
        a: Register,
        b: Register,
        c: Register,
    },
    /// a becomes b shifted right by c mod 32; the top bit comes in.
    ShiftSigned {
        a: Register,
        b: Register,
        c: Register,
    },
    /// a becomes 1 where b < c as signed numbers, else 0.
    LessSigned {
        a: Register,
        b: Register,
        c: Register,
    },
    /// a becomes 1 where b < c as unsigned numbers, else 0.
    Less {
        a: Register,
        b: Register,
        c: Register,
    },
    /// a becomes b + offset.
    AddImmediate {
        a: Register,
        b: Register,
        offset: i16,
    },
    /// Bitwise and with the value.
    AndImmediate {
        a: Register,
        b: Register,
        value: u16,
    },
    /// Bitwise or with the value.
    OrImmediate {
        a: Register,
        b: Register,
        value: u16,
    },
    /// a becomes b shifted left.
    ShiftLeftImmediate {
        a: Register,
        b: Register,
        shift: Shift,
    },
    /// a becomes b shifted right; zeros come in.
    ShiftRightImmediate {
        a: Register,
        b: Register,
        shift: Shift,
    },
    /// a becomes the word at b + offset.
    LoadWord {
        a: Register,
        b: Register,
        offset: i16,
    },
    /// The word at b + offset becomes a.
    StoreWord {
        a: Register,
        b: Register,
        offset: i16,
    },
    /// a becomes the byte at b + offset.
    LoadByte {
        a: Register,
        b: Register,
        offset: i16,
    },
    /// The byte at b + offset becomes a mod 256.
    StoreByte {
        a: Register,
        b: Register,
        offset: i16,
    },
    /// A branch where a = b.
    BranchEqual {
        a: Register,
        b: Register,
        offset: i16,
    },
    /// A branch where a differs from b.
    BranchUnequal {
        a: Register,
        b: Register,
        offset: i16,
    },
    /// A branch where a < b as signed numbers.
    BranchLessSigned {
        a: Register,
        b: Register,
        offset: i16,
    },
    /// A branch where a < b as unsigned numbers.
    BranchLess {
        a: Register,
        b: Register,
        offset: i16,
    },
    /// a becomes the address of the next instruction; a branch.
    JumpAndLink {
        a: Register,
        offset: i16,
    },
    /// pc becomes a.
    Jump {
        a: Register,
    },
    /// The call of this number, with the arguments r1 to r5.
    Sys {
        value: u16,
    },
    /// The trap of this vector, with 0 and 0.
    Interrupt {
        vector: Vector,
    },
    /// A line of the trace shows a.
    Out {
        a: Register,
    },
}
