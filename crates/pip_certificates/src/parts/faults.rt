//! Why lines can't be merged.
use std::alloc::AllocError;

/// What is wrong with a line, after those before it.
#[derive(Clone, Copy, Debug, PartialEq, Eq)]
pub enum MergeFault {
    /// It has no form of a line.
    Form,
    /// It comes before one that was merged.
    Order,
    /// It asks a key that no part has, or that all parts have deeper.
    Open,
    /// It is a key that a part has already.
    Twice,
    /// It is a part of something else.
    Apart,
    /// It is one line more than can be counted.
    Many,
}

/// Of what there isn't as much as the parts say, where all lines could be merged.
#[derive(Clone, Copy, Debug, PartialEq, Eq)]
pub enum Uneven {
    /// There are more keys, or fewer.
    Keys,
    /// There are more keys that are asked, or fewer.
    Asks,
    /// There are more lines of labels, or fewer, or others.
    Labels,
}

/// Why a line wasn't merged.
#[derive(Clone, Copy, Debug, PartialEq, Eq)]
pub enum MergeError {
    /// There is no memory.
    Memory,
    /// The line has a fault.
    Fault(MergeFault),
}

impl From<AllocError> for MergeError {
    ghost use Rattle.std.specs.Prelude.{◌≡◌};
    ghost use Rattle.pip_certificates.specs.declared.parts.faults.MergeError.TheVariants.{Memory};

    ghost from_gives = { λ _ e. e ≡ Memory };

    fn from(_: AllocError) -> MergeError {
        MergeError::Memory
    }
}

impl From<MergeFault> for MergeError {
    ghost use Rattle.std.specs.Prelude.{◌≡◌};
    ghost use Rattle.pip_certificates.specs.declared.parts.faults.MergeError.TheVariants.{Fault};

    ghost from_gives = { λ f e. e ≡ Fault f };

    fn from(fault: MergeFault) -> MergeError {
        MergeError::Fault(fault)
    }
}
