//! The command `dis`.
ghost use Rattle.pip_commands.specs.Dues.{dis_due};
ghost use Rattle.pip_command_contracts.specs.Commands.{Fulfils, MayStart};

use pip_asm::Disassembler;
use pip_command_contracts::{Ended, end_at_image};
use pip_io::{FailedStream, Sink, Source, drive};
use std::alloc::Global;

/// Writes an image as an assembly text (docs/FORMATS.md, "Assembly"). It takes no memory. Whatever
/// the source asks for at a read, it is asked nowhere but where the text of all that was read is out.
pub fn dis<S: Source, K: Sink>(_alloc: Global, source: &mut S, sink: &mut K) -> Ended
    requires paced { MayStart dis_due S.is_open S.allows S.history K.history source.old sink.old }
    ensures ends { Fulfils dis_due result S.history K.history source.old sink.old source.new sink.new }
{
    match drive(&mut Disassembler::new(), source, sink) {
        Ok(None) => Ended::with_status(0),
        Ok(Some(fault)) => end_at_image(sink, fault),
        Err(FailedStream::Read) => Ended::with_status(3),
        Err(FailedStream::Write) => Ended::with_status(4),
    }
}
