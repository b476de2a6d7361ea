//! The text of a raw memory, read from a source.
ghost use Rattle.std.specs.Prelude.{◌≡◌, ◌≤◌, [], MatchResult, None, Ok, length, replicate};
ghost use Rattle.pip_base.specs.Memory.{zeros};
ghost use Rattle.pip_io.specs.Moments.{joined, alone};
ghost use Rattle.pip_io.specs.Pacing.{MayRead};
ghost use Rattle.pip_audit.specs.CoreRead.{BeginsLines, IsText, RefusesText};

use crate::core_text::place::{LastNamed, LineEffect, take_line};
use pip_frames::Frames;
use pip_io::{Discard, Failed, Joint, Sink, Source};
use pip_script::{Input, LineEnd};
use thiserror::Error;

/// Why no memory was read.
#[derive(Clone, Copy, Debug, PartialEq, Eq, Error)]
pub enum CoreError {
    /// The first line outside the grammar, by its number from 1 on.
    #[error("line {0} is none of the text of a memory")]
    Line(u64),
    /// A read failed.
    #[error("a read failed")]
    Read,
}

impl From<Failed> for CoreError {
    ghost use Rattle.pip_audit.specs.declared.core_text.text.CoreError.TheVariants.{Read};

    ghost from_gives = { λ _ e. e ≡ Read };

    fn from(_: Failed) -> CoreError {
        CoreError::Read
    }
}

/// The greatest number of lines: 4096 frames, 128 groups in each, and the last line.
const MAX_LINES: u64 = 528_385;

/// More bytes than the most lines and one line too long have together.
const MAX_BYTES: u32 = 1 << 26;

/// Reads the text that `core` writes into a memory of zeros, to the end of the source (docs/FORMATS.md). The memory has
/// at most 4096 frames. After an error it may hold some of the words.
pub fn read_core<S: Source, M: Frames>(source: &mut S, mem: &mut M) -> Result<(), CoreError>
    requires is_open { S.is_open source.old }
    requires paced { MayRead S.allows (BeginsLines (length (M.memory mem.old))) (alone (S.history source.old)) }
    requires zeros { M.memory mem.old ≡ replicate (length (M.memory mem.old)) (zeros 1024) }
    requires most { length (M.memory mem.old) ≤ 4096 }
    ensures reads { MatchResult result
        (λ _. IsText (length (M.memory mem.old)) (S.history source.old).left (S.history source.new).left
        (M.memory mem.new)
        × ((S.history source.new).faults ≡ (S.history source.old).faults))
        (RefusesText (length (M.memory mem.old)) (S.history source.old).left (S.history source.new).left
        (S.history source.old).faults (S.history source.new).faults) }
    ensures count { length (M.memory mem.new) ≡ length (M.memory mem.old) }
{
    let mut sink = Discard::new();
    let mut joint = Joint::new(source, &mut sink);
    read_core_from_joint(&mut joint, mem)
}

/// `read_core` over a source that is joined with a sink, which holds nothing.
pub fn read_core_from_joint<S: Source, K: Sink, M: Frames>(
    joint: &mut Joint<'_, S, K>,
    mem: &mut M,
) -> Result<(), CoreError>
    requires is_open { S.is_open joint.old.source.now }
    requires flushed { (K.history joint.old.sink.now).written.buffered ≡ [] }
    requires paced { MayRead S.allows (BeginsLines (length (M.memory mem.old))) (joined S.history K.history joint.old) }
    requires zeros { M.memory mem.old ≡ replicate (length (M.memory mem.old)) (zeros 1024) }
    requires most { length (M.memory mem.old) ≤ 4096 }
    ensures same_source { joint.new.source.ghost_name ≡ joint.old.source.ghost_name }
    ensures sink { joint.new.sink ≡ joint.old.sink }
    ensures reads { MatchResult result
        (λ _. IsText (length (M.memory mem.old)) (S.history joint.old.source.now).left
        (S.history joint.new.source.now).left
        (M.memory mem.new) × ((S.history joint.new.source.now).faults ≡ (S.history joint.old.source.now).faults))
        (RefusesText (length (M.memory mem.old)) (S.history joint.old.source.now).left
        (S.history joint.new.source.now).left
        (S.history joint.old.source.now).faults (S.history joint.new.source.now).faults) }
    ensures count { length (M.memory mem.new) ≡ length (M.memory mem.old) }
{
    let mut input = Input::with_room(MAX_BYTES);
    let mut place = LastNamed {
        frame: None,
        group: None,
    };
    for k in 1..MAX_LINES + 1 {
        let LineEnd::Newline(count) = input.next_line(joint)? else {
            return Err(CoreError::Line(k));
        };
        let step = take_line(mem, place, input.head(count));
        input.take(count + 1);
        match step {
            LineEffect::Bad => return Err(CoreError::Line(k)),
            LineEffect::Goes(next) => place = next,
            LineEffect::Ends => {
                return match input.next_line(joint)? {
                    LineEnd::End => Ok(()),
                    _ => Err(CoreError::Line(k + 1)),
                };
            }
        }
    }
    // No text has that many good lines.
    Err(CoreError::Line(MAX_LINES + 1))
}
