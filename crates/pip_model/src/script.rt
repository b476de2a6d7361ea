//! The lines of a script.
use pip_base::{Outcome, Size};

/// A line of a script. Its numbers are within the ranges of its form (docs/FORMATS.md, "Scripts").
#[derive(Clone, Copy, PartialEq, Eq)]
pub enum ScriptLine {
    /// An empty line or a remark, which has no answer.
    Blank,
    /// A machine of `n` frames and `c` processors begins.
    Boot {
        n: u32,
        c: u32,
    },
    Load {
        cpu: u32,
        va: u32,
        size: Size,
    },
    Store {
        cpu: u32,
        va: u32,
        size: Size,
        word: u32,
    },
    Fetch {
        cpu: u32,
    },
    Trap {
        cpu: u32,
        vector: u32,
        a: u32,
        b: u32,
    },
    Call {
        cpu: u32,
        no: u32,
        args: [u32; 5],
    },
    /// Interrupt line `line` becomes pending in the root.
    Raise {
        line: u32,
    },
    Poll {
        cpu: u32,
    },
    /// Word `index` of frame `frame` is shown.
    Peek {
        frame: u32,
        index: u32,
    },
    /// Register `reg` of what runs on a processor is shown; 16 is the pc.
    Reg {
        cpu: u32,
        reg: u32,
    },
    /// What runs on a processor gets the pc `va`.
    SetPc {
        cpu: u32,
        va: u32,
    },
}

/// The answer to a line that has one.
#[derive(Clone, Copy, Debug, PartialEq, Eq)]
pub enum Said {
    /// A machine of `n` frames and `c` processors began.
    Booted { n: u32, c: u32 },
    /// The outcome of an event.
    Came(Outcome),
    /// A word of a frame. None if there is no such frame or no such word.
    Peeked(Option<u32>),
    /// A register. None if the processor runs nothing.
    Shown(Option<u32>),
}
