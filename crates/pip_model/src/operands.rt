//! The operands of instructions whose types are narrower than an integer's.
ghost use Rattle.std.specs.Prelude.{◌≡◌, ◌<◌, ◌≤◌, ℕ};

use std::marker::Model;

/// One of the registers r0 to r15.
#[derive(Clone, Copy, Debug, PartialEq, Eq)]
pub struct Register(u32);

impl Model for Register {
    ghost Value = { ℕ };

    ghost view = { λ r. r.0 };

    ghost invariant = { λ r. r.0 < 16 };

    ghost inverse = { λ n. record { 0 = n } };
}

impl Register {
    /// The register of this number, which is below 16.
    pub const fn new(number: u32) -> Self
        requires { number < 16 }
        ensures { result ≡ number }
    {
        Register(number)
    }

    /// Its number, below 16.
    pub fn number(self) -> u32
        ensures same { result ≡ self }
        ensures below { result < 16 }
    {
        self.0
    }
}

/// How far a shift with an immediate goes: 0 to 31 bits.
#[derive(Clone, Copy, Debug, PartialEq, Eq)]
pub struct Shift(u32);

impl Model for Shift {
    ghost Value = { ℕ };

    ghost view = { λ r. r.0 };

    ghost invariant = { λ r. r.0 < 32 };

    ghost inverse = { λ n. record { 0 = n } };
}

impl Shift {
    /// A shift by a number of bits, at most 31.
    pub const fn new(number: u32) -> Self
        requires { number < 32 }
        ensures { result ≡ number }
    {
        Shift(number)
    }

    /// The number of bits, at most 31.
    pub fn number(self) -> u32
        ensures same { result ≡ self }
        ensures below { result < 32 }
    {
        self.0
    }
}

/// A vector of a trap that an instruction makes: 64 to 255.
#[derive(Clone, Copy, Debug, PartialEq, Eq)]
pub struct Vector(u32);

impl Model for Vector {
    ghost Value = { ℕ };

    ghost view = { λ r. r.0 };

    ghost invariant = { λ r. (64 ≤ r.0) × (r.0 < 256) };

    ghost inverse = { λ n. record { 0 = n } };
}

impl Vector {
    /// The vector of this number, which is from 64 to 255.
    pub const fn new(number: u32) -> Self
        requires least { 64 ≤ number }
        requires below { number < 256 }
        ensures { result ≡ number }
    {
        Vector(number)
    }

    /// Its number, from 64 to 255.
    pub fn number(self) -> u32
        ensures same { result ≡ self }
        ensures below { result < 256 }
        ensures least { 64 ≤ result }
    {
        self.0
    }
}
