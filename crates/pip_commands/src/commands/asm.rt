//! The command `asm`.
ghost use Rattle.std.specs.Prelude.{◌≡◌, ◌≢◌, ◌≤◌, ◌^◌, ◌⊎◌, [], None, length};
ghost use Rattle.pip_io.specs.Taken.{Keeps};
ghost use Rattle.pip_model.specs.Assembly.{assembly};
ghost use Rattle.pip_commands.specs.Dues.{asm_answer, asm_due};
ghost use Rattle.pip_command_contracts.specs.EndsBy.{EndsWithResponse};
ghost use Rattle.pip_command_contracts.specs.Commands.{Fulfils, FulfilsJoined, MayStart, MayStartJoined};

use crate::text::bad_asm_line;
use pip_asm::{AsmError, assemble};
use pip_command_contracts::{Ended, end_with};
use pip_io::{Joint, Sink, Source};
use pip_script::{ReadError, read_whole};
use std::alloc::Global;

/// Writes the image that an assembly text is (docs/FORMATS.md, "Assembly"). The whole input is read before a line is
/// judged.
pub fn asm<S: Source, K: Sink>(alloc: Global, source: &mut S, sink: &mut K) -> Ended
    requires paced { MayStart asm_due S.is_open S.allows S.history K.history source.old sink.old }
    ensures ends { Fulfils asm_due result S.history K.history source.old sink.old source.new sink.new }
{
    let mut joint = Joint::new(source, sink);
    assemble_input(alloc, &mut joint)
}

// Assembles what a joint reads.
fn assemble_input<S: Source, K: Sink>(alloc: Global, joint: &mut Joint<'_, S, K>) -> Ended
    requires paced { MayStartJoined asm_due S.is_open S.allows S.history K.history joint.old }
    ensures same_source { joint.new.source.ghost_name ≡ joint.old.source.ghost_name }
    ensures same_sink { joint.new.sink.ghost_name ≡ joint.old.sink.ghost_name }
    ensures ends { FulfilsJoined asm_due result S.history K.history joint.old joint.new }
{
    match read_whole(alloc, joint) {
        Ok(text) => write_assembly(alloc, text.as_slice(), &mut *joint.sink),
        Err(ReadError::Failed) => Ended::with_status(3),
        Err(ReadError::Memory) => Ended::with_status(5),
        Err(ReadError::Limit) => Ended::with_status(6),
    }
}

// Writes the image of a text, or the line that names its first fault.
fn write_assembly<K: Sink>(alloc: Global, text: &[u8], sink: &mut K) -> Ended
    requires limit { length text.now ≤ 2 ^ 24 }
    requires none { (K.history sink.old).written.buffered ≡ [] }
    ensures wrote { EndsWithResponse (asm_answer (assembly text.now)) result.status (K.history sink.old)
        (K.history sink.new)
        ⊎ ((result.status ≡ 5) × Keeps (K.history sink.old).written (K.history sink.new).written) }
    ensures no_faults { result.status ≢ 4 → (K.history sink.new).faults ≡ (K.history sink.old).faults }
    ensures none { result.machine ≡ None }
    ensures flushed { result.status ≢ 4 → (K.history sink.new).written.buffered ≡ [] }
{
    match assemble(alloc, text) {
        Ok(image) => end_with(sink, image.as_slice(), 0),
        Err(AsmError::Line(number, kind)) => {
            end_with(sink, bad_asm_line(number, kind).as_str().as_bytes(), 2)
        }
        Err(AsmError::Memory) => Ended::with_status(5),
    }
}
