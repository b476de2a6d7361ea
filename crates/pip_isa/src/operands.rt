//! The operands of each form of words, read from a word and made into one. Reading gives None where a field that the
//! form doesn't use isn't 0, or its immediate is out of range.
ghost use Rattle.std.specs.Prelude.{◌≡◌, ◌<◌, ◌^◌, ◌/◌, IfSome, IfNone, false};
ghost use Rattle.pip_model.specs.InstrWords.{word_from, low16, fits};
ghost use Rattle.pip_model.specs.declared.form.Form.TheVariants as F;

use crate::fields::{
    immediate, low_bits, register_a, register_b, register_c, signed_immediate, word_of,
};
use pip_model::{Register, Shift};

/// The registers a and b.
#[derive(Clone, Copy)]
pub struct Two {
    pub a: Register,
    pub b: Register,
}

impl Two {
    pub fn word(self, opcode: u32) -> u32
        requires { opcode < 256 }
        ensures { result ≡ word_from opcode self.a self.b 0 0 }
    {
        word_of(opcode, self.a.number(), self.b.number(), 0, 0)
    }

    pub fn read(word: u32) -> Option<Two>
        ensures found { IfSome result (λ o. word_from (word / 2 ^ 24) o.a o.b 0 0 ≡ word) }
        ensures none { IfNone result (fits word F.Two ≡ false) }
    {
        if word % 0x1_0000 != 0 {
            return None;
        }
        Some(Two {
            a: register_a(word),
            b: register_b(word),
        })
    }
}

/// The registers a, b and c.
#[derive(Clone, Copy)]
pub struct Three {
    pub a: Register,
    pub b: Register,
    pub c: Register,
}

impl Three {
    pub fn word(self, opcode: u32) -> u32
        requires { opcode < 256 }
        ensures { result ≡ word_from opcode self.a self.b self.c 0 }
    {
        word_of(opcode, self.a.number(), self.b.number(), self.c.number(), 0)
    }

    pub fn read(word: u32) -> Option<Three>
        ensures found { IfSome result (λ o. word_from (word / 2 ^ 24) o.a o.b o.c 0 ≡ word) }
        ensures none { IfNone result (fits word F.Three ≡ false) }
    {
        if word % 0x1000 != 0 {
            return None;
        }
        Some(Three {
            a: register_a(word),
            b: register_b(word),
            c: register_c(word),
        })
    }
}

/// a, b and an unsigned immediate.
#[derive(Clone, Copy)]
pub struct TwoAndValue {
    pub a: Register,
    pub b: Register,
    pub value: u16,
}

impl TwoAndValue {
    pub fn word(self, opcode: u32) -> u32
        requires { opcode < 256 }
        ensures { result ≡ word_from opcode self.a self.b 0 self.value }
    {
        word_of(
            opcode,
            self.a.number(),
            self.b.number(),
            0,
            u32::from(self.value),
        )
    }

    pub fn read(word: u32) -> Option<TwoAndValue>
        ensures found { IfSome result (λ o. word_from (word / 2 ^ 24) o.a o.b 0 o.value ≡ word) }
        ensures none { IfNone result (fits word F.TwoAndValue ≡ false) }
    {
        Some(TwoAndValue {
            a: register_a(word),
            b: register_b(word),
            value: immediate(word),
        })
    }
}

/// a, b and an immediate of 31 at most.
#[derive(Clone, Copy)]
pub struct TwoAndShift {
    pub a: Register,
    pub b: Register,
    pub shift: Shift,
}

impl TwoAndShift {
    pub fn word(self, opcode: u32) -> u32
        requires { opcode < 256 }
        ensures { result ≡ word_from opcode self.a self.b 0 self.shift }
    {
        word_of(
            opcode,
            self.a.number(),
            self.b.number(),
            0,
            self.shift.number(),
        )
    }

    pub fn read(word: u32) -> Option<TwoAndShift>
        ensures found { IfSome result (λ o. word_from (word / 2 ^ 24) o.a o.b 0 o.shift ≡ word) }
        ensures none { IfNone result (fits word F.TwoAndShift ≡ false) }
    {
        if word % 0x1_0000 >= 32 {
            return None;
        }
        Some(TwoAndShift {
            a: register_a(word),
            b: register_b(word),
            shift: Shift::new(word % 0x1_0000),
        })
    }
}

/// a, b and a signed immediate.
#[derive(Clone, Copy)]
pub struct TwoAndOffset {
    pub a: Register,
    pub b: Register,
    pub offset: i16,
}

impl TwoAndOffset {
    pub fn word(self, opcode: u32) -> u32
        requires { opcode < 256 }
        ensures { result ≡ word_from opcode self.a self.b 0 (low16 self.offset) }
    {
        word_of(
            opcode,
            self.a.number(),
            self.b.number(),
            0,
            low_bits(self.offset),
        )
    }

    pub fn read(word: u32) -> Option<TwoAndOffset>
        ensures found { IfSome result (λ o. word_from (word / 2 ^ 24) o.a o.b 0 (low16 o.offset) ≡ word) }
        ensures none { IfNone result (fits word F.TwoAndOffset ≡ false) }
    {
        Some(TwoAndOffset {
            a: register_a(word),
            b: register_b(word),
            offset: signed_immediate(word),
        })
    }
}

/// a and an unsigned immediate.
#[derive(Clone, Copy)]
pub struct OneAndValue {
    pub a: Register,
    pub value: u16,
}

impl OneAndValue {
    pub fn word(self, opcode: u32) -> u32
        requires { opcode < 256 }
        ensures { result ≡ word_from opcode self.a 0 0 self.value }
    {
        word_of(opcode, self.a.number(), 0, 0, u32::from(self.value))
    }

    pub fn read(word: u32) -> Option<OneAndValue>
        ensures found { IfSome result (λ o. word_from (word / 2 ^ 24) o.a 0 0 o.value ≡ word) }
        ensures none { IfNone result (fits word F.OneAndValue ≡ false) }
    {
        if word / 0x1_0000 % 16 != 0 {
            return None;
        }
        Some(OneAndValue {
            a: register_a(word),
            value: immediate(word),
        })
    }
}

/// a and a signed immediate.
#[derive(Clone, Copy)]
pub struct OneAndOffset {
    pub a: Register,
    pub offset: i16,
}

impl OneAndOffset {
    pub fn word(self, opcode: u32) -> u32
        requires { opcode < 256 }
        ensures { result ≡ word_from opcode self.a 0 0 (low16 self.offset) }
    {
        word_of(opcode, self.a.number(), 0, 0, low_bits(self.offset))
    }

    pub fn read(word: u32) -> Option<OneAndOffset>
        ensures found { IfSome result (λ o. word_from (word / 2 ^ 24) o.a 0 0 (low16 o.offset) ≡ word) }
        ensures none { IfNone result (fits word F.OneAndOffset ≡ false) }
    {
        if word / 0x1_0000 % 16 != 0 {
            return None;
        }
        Some(OneAndOffset {
            a: register_a(word),
            offset: signed_immediate(word),
        })
    }
}

/// a alone.
#[derive(Clone, Copy)]
pub struct One {
    pub a: Register,
}

impl One {
    pub fn word(self, opcode: u32) -> u32
        requires { opcode < 256 }
        ensures { result ≡ word_from opcode self.a 0 0 0 }
    {
        word_of(opcode, self.a.number(), 0, 0, 0)
    }

    pub fn read(word: u32) -> Option<One>
        ensures found { IfSome result (λ o. word_from (word / 2 ^ 24) o.a 0 0 0 ≡ word) }
        ensures none { IfNone result (fits word F.One ≡ false) }
    {
        if word % 0x10_0000 != 0 {
            return None;
        }
        Some(One {
            a: register_a(word),
        })
    }
}

/// An unsigned immediate.
#[derive(Clone, Copy)]
pub struct Value {
    pub value: u16,
}

impl Value {
    pub fn word(self, opcode: u32) -> u32
        requires { opcode < 256 }
        ensures { result ≡ word_from opcode 0 0 0 self.value }
    {
        word_of(opcode, 0, 0, 0, u32::from(self.value))
    }

    pub fn read(word: u32) -> Option<Value>
        ensures found { IfSome result (λ o. word_from (word / 2 ^ 24) 0 0 0 o.value ≡ word) }
        ensures none { IfNone result (fits word F.Value ≡ false) }
    {
        if word / 0x1_0000 % 256 != 0 {
            return None;
        }
        Some(Value {
            value: immediate(word),
        })
    }
}

/// An immediate from 64 to 255.
#[derive(Clone, Copy)]
pub struct Vector {
    pub vector: pip_model::Vector,
}

impl Vector {
    pub fn word(self, opcode: u32) -> u32
        requires { opcode < 256 }
        ensures { result ≡ word_from opcode 0 0 0 self.vector }
    {
        word_of(opcode, 0, 0, 0, self.vector.number())
    }

    pub fn read(word: u32) -> Option<Vector>
        ensures found { IfSome result (λ o. word_from (word / 2 ^ 24) 0 0 0 o.vector ≡ word) }
        ensures none { IfNone result (fits word F.Vector ≡ false) }
    {
        if word / 0x1_0000 % 256 != 0 || word % 0x1_0000 < 64 || word % 0x1_0000 >= 256 {
            return None;
        }
        Some(Vector {
            vector: pip_model::Vector::new(word % 0x1_0000),
        })
    }
}
