//! What is wrong with the text of a part.
ghost use Rattle.std.specs.Prelude.{◌≡◌, ◌≤◌, length};
ghost use Rattle.pip_certificates.specs.PartText.{bad_part_line, part_kind};

use arrayvec::ArrayString;
use pip_command_contracts::push_decimal;
use std::alloc::AllocError;

/// The kinds of faults of a part.
#[derive(Clone, Copy, Debug, PartialEq, Eq)]
pub enum PartKind {
    /// The input ends before the part does.
    Short,
    /// There is no such word of a frame, or it doesn't come after the one before it.
    Base,
    /// A run is empty, or of the choice of the one before it, or of one that can't be made; or the way is too long.
    Way,
    /// There are too many marks, or a bit after the last mark is 1.
    Marks,
    /// The input goes on after the part.
    Long,
}

/// A fault, and its offset in the input.
#[derive(Clone, Copy, Debug, PartialEq, Eq)]
pub struct PartFault {
    pub kind: PartKind,
    pub at: u64,
}

/// Why no part was read.
#[derive(Clone, Copy, Debug, PartialEq, Eq)]
pub enum PartStop {
    /// The first fault.
    Bad(PartFault),
    /// A read failed.
    Unread,
    /// There was no memory.
    Memory,
}

impl From<AllocError> for PartStop {
    ghost use Rattle.std.specs.Prelude.{◌≡◌};
    ghost use Rattle.pip_certificates.specs.declared.faults.PartStop.TheVariants.{Memory};

    ghost from_gives = { λ _ e. e ≡ Memory };

    fn from(_: AllocError) -> PartStop {
        PartStop::Memory
    }
}

/// `bad part`, the kind of a fault, its offset and a newline.
pub fn bad_part(fault: PartFault) -> ArrayString<64>
    ensures { result.bytes ≡ bad_part_line fault }
{
    let mut text = ArrayString::new();
    text.push_str("bad part ");
    text.push_str(kind_word(fault.kind));
    text.push_str(" ");
    push_decimal(&mut text, fault.at);
    text.push_str("\n");
    text
}

// The word for a kind.
fn kind_word(kind: PartKind) -> &'static str
    ensures text { result.now ≡ part_kind kind }
    ensures short { length result.now ≤ 5 }
{
    match kind {
        PartKind::Short => "short",
        PartKind::Base => "base",
        PartKind::Way => "way",
        PartKind::Marks => "marks",
        PartKind::Long => "long",
    }
}
