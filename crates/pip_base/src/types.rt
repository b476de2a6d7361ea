//! The plain types. Virtual pages and frames are numbers in every clause.
ghost use Rattle.std.specs.Prelude.{◌≡◌, ℕ, ◌/◌, ◌%◌, ◌^◌, ◌<◌};

use std::marker::Model;

/// A virtual page: an address divided by 4096, so below 2^20.
#[derive(Clone, Copy, Debug, PartialEq, Eq, PartialOrd, Ord)]
pub struct VPage(u32);

impl Model for VPage {
    ghost Value = { ℕ };

    ghost view = { λ v. v.0 };

    ghost invariant = { λ v. v.0 < 2 ^ 20 };

    ghost inverse = { λ n. record { 0 = n } };
}

impl VPage {
    /// The virtual page of this number, which is below 2^20.
    pub const fn new(number: u32) -> Self
        requires { number < 2 ^ 20 }
        ensures { result ≡ number }
    {
        VPage(number)
    }

    /// The virtual page in which an address lies.
    pub const fn of_address(va: u32) -> Self
        ensures { result ≡ va / 4096 }
    {
        VPage(va / 4096)
    }

    /// Its number, below 2^20.
    pub fn number(self) -> u32
        ensures same { result ≡ self }
        ensures small { result < 2 ^ 20 }
    {
        self.0
    }

    /// The directory index of the table that maps it, below 1024.
    pub fn directory(self) -> u32
        ensures place { result ≡ self / 1024 }
        ensures small { result < 1024 }
    {
        self.0 / 1024
    }

    /// Its index in that table, below 1024.
    pub fn index(self) -> u32
        ensures place { result ≡ self % 1024 }
        ensures small { result < 1024 }
    {
        self.0 % 1024
    }
}

/// A frame of 1024 words of the machine's memory: its number, below 2^20.
#[derive(Clone, Copy, Debug, Default, PartialEq, Eq, PartialOrd, Ord)]
pub struct Frame(u32);

impl Model for Frame {
    ghost Value = { ℕ };

    ghost view = { λ f. f.0 };

    ghost invariant = { λ f. f.0 < 2 ^ 20 };

    ghost inverse = { λ n. record { 0 = n } };
}

impl Frame {
    /// The frame of this number, which is below 2^20.
    pub const fn new(number: u32) -> Self
        requires { number < 2 ^ 20 }
        ensures { result ≡ number }
    {
        Frame(number)
    }

    /// Its number, below 2^20.
    pub fn number(self) -> u32
        ensures same { result ≡ self }
        ensures small { result < 2 ^ 20 }
    {
        self.0
    }
}

/// A page that a parent gave: the address at which the parent maps it, and its frame.
#[derive(Clone, Copy, Debug, PartialEq, Eq)]
pub struct Pair {
    pub va: u32,
    pub frame: Frame,
}

/// The context of a partition: the program counter and the registers r0 to r15.
#[derive(Clone, Copy, Debug, PartialEq, Eq)]
pub struct Ctx {
    pub pc: u32,
    pub regs: [u32; 16],
}

/// What an access does with memory. A load needs the right READ, a store WRITE, a fetch EXEC.
#[derive(Clone, Copy, Debug, PartialEq, Eq)]
pub enum Access {
    Load,
    Store,
    Fetch,
}

/// How much an access reads or writes: one byte, or a word of four bytes in little-endian order.
#[derive(Clone, Copy, Debug, PartialEq, Eq)]
pub enum Size {
    Byte,
    Word,
}

/// When an interrupt line is raised: at step `first`, and then every `period` steps where that is not 0.
#[derive(Clone, Copy, Debug, Default, PartialEq, Eq)]
pub struct Plan {
    pub line: u32,
    pub first: u32,
    pub period: u32,
}
