//! What can be wrong with a line of an assembly text, and which lines may come next.
use thiserror::Error;

/// What is wrong with a line of an assembly text (docs/FORMATS.md, "Assembly").
#[derive(Clone, Copy, Debug, PartialEq, Eq, Error)]
pub enum AsmKind {
    /// It is longer than 120 bytes, the table lacks its form, or its form isn't allowed here.
    #[error("unknown")]
    Unknown,
    /// Operands are missing or too many, or one is of another kind.
    #[error("operand")]
    Operand,
    /// A number is outside its field, or a name is too far away.
    #[error("range")]
    Range,
    /// It uses a name that no line defines.
    #[error("label")]
    Label,
    /// Its name or its page was defined before.
    #[error("twice")]
    Twice,
    /// Its page would have more than 1024 words.
    #[error("size")]
    Size,
}

/// Which lines may come next.
#[derive(Clone, Copy, Debug, PartialEq, Eq)]
pub enum Stage {
    /// `.frames`.
    Start,
    /// `.cpus`.
    Framed,
    /// `.line` or `.page`.
    Header,
    /// A line of a page, or the next page.
    InPage,
}
