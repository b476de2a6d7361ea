//! The disassembler.
ghost use Rattle.std.specs.Prelude.{◌≡◌, [], false};
ghost use Rattle.pip_io.specs.Ends.{Ends, MayWait};
ghost use Rattle.pip_io.specs.Moments.{streams};
ghost use Rattle.pip_model.specs.Images.{image_parts};
ghost use Rattle.pip_asm.specs.Dues.{outcome, parts_due};

use crate::dis::output::push_part;
use pip_image::{ImageError, PartReader, is_short};
use pip_io::{FailedStream, Sink, Source, Step, Text, Transducer, drive};
use thiserror::Error;

/// Why a disassembly stopped.
#[derive(Clone, Copy, Debug, PartialEq, Eq, Error)]
pub enum DisError {
    /// The first fault of the image, or the source failed.
    #[error("image: {0}")]
    Image(ImageError),
    /// The sink failed.
    #[error("the sink failed")]
    Write,
}

/// A disassembler that is fed an image. It gives the text of each part once it has the part, and ends with the image's
/// first fault, or None.
#[derive(Drop)]
pub struct Disassembler {
    reader: PartReader,
    words: [u32; 1024],
}

impl Disassembler {
    ghost use Rattle.pip_image.specs.Fed.{told};

    /// Before the first byte.
    pub fn new() -> Disassembler
        ensures { told result.reader ≡ image_parts }
    {
        Disassembler {
            reader: PartReader::new(),
            words: [0; 1024],
        }
    }
}

impl Transducer for Disassembler {
    ghost use Rattle.pip_image.specs.Fed.{left, size, told};
    ghost use Rattle.std.specs.Prelude.{false};
    ghost use Rattle.std.proofs.lemmas.Bool.{false≢true};

    type End = Option<ImageError>;

    ghost due = { λ m. parts_due (told m.reader) };

    ghost room = { λ m. size m.reader };

    ghost parts = { λ m. left m.reader };

    ghost is_loose = { false };

    ghost loose = { λ m no. absurd (false≢true no) };

    fn step(&mut self, front: &[u8], ended: bool, text: &mut Text) -> Step<Option<ImageError>> {
        if self.reader.is_all_fed() && front.is_empty() {
            return if ended {
                Step::End(None)
            } else {
                Step::Read(1)
            };
        }
        match self.reader.part(front, &mut self.words) {
            Ok(part) => {
                push_part(text, part, &self.words);
                Step::Write(front.len())
            }
            Err(fault) if ended || !is_short(fault) => Step::End(Some(fault)),
            Err(_) => Step::Read(self.reader.size() - front.len()),
        }
    }
}

/// Writes the image that the source holds as an assembly text, part by part (docs/FORMATS.md, "Assembly"). At Ok the
/// source was read to its end and the whole text was written. At `Image` the text of what was accepted before the fault
/// was written; at `Write` all of it up to some place in the text of the last part that was read. The sink is flushed
/// after each part: whatever the source asks for at a read, it is asked nowhere but where the text of all that was read
/// is out.
pub fn disassemble<S: Source, K: Sink>(source: &mut S, sink: &mut K) -> Result<(), DisError>
    requires is_open { S.is_open source.old }
    requires none { (K.history sink.old).written.buffered ≡ [] }
    requires paced { MayWait (parts_due image_parts) S.allows (streams S.history K.history source.old sink.old) }
    ensures { Ends (parts_due image_parts) false (outcome result) (streams S.history K.history source.old sink.old)
        (streams S.history K.history source.new sink.new) }
{
    match drive(&mut Disassembler::new(), source, sink) {
        Ok(None) => Ok(()),
        Ok(Some(fault)) => Err(DisError::Image(fault)),
        Err(FailedStream::Read) => Err(DisError::Image(ImageError::Read)),
        Err(FailedStream::Write) => Err(DisError::Write),
    }
}
