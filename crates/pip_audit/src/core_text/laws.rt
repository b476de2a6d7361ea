//! Laws of the text of a raw memory.
ghost use Rattle.pip_audit.specs.CoreLaws.{AreFirstBad, AreTexts, AreWritten, ReadsBack, SaysLines};

/// Each line that `core` writes says what it is written for, and no other line says anything.
pub fn law_lines()
    ensures told { SaysLines }
    ensures written { AreWritten }
{}

/// The text that `core` writes of a memory is read as this memory, and no other text is.
pub fn law_round_trip()
    ensures back { ReadsBack }
    ensures only { AreTexts }
{}

/// Where a text is refused, the line that is named is the first that no accepted text can have after the lines before
/// it.
pub fn law_first_bad()
    ensures { AreFirstBad }
{}
