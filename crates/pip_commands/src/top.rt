//! The program as one call.
ghost use Rattle.std.specs.Prelude.{map, string_bytes};
ghost use Rattle.pip_commands.specs.Dues.{due_of};
ghost use Rattle.pip_commands.specs.Words.{command_of};
ghost use Rattle.pip_command_contracts.specs.Commands.{Fulfils, MayStart};

use crate::commands::asm::asm;
use crate::commands::audit::audit;
use crate::commands::dis::dis;
use crate::commands::native::native;
use crate::commands::run::{core_dump, run, tree};
use crate::commands::script::script;
use crate::commands::soak::soak;
use crate::words::{Command, read_words};
use pip_command_contracts::{Ended, show_usage};
use pip_io::{Sink, Source};
use std::alloc::Global;

const USAGE: &[u8] =
    b"usage: pip script | run STEPS SEED | asm | dis | tree STEPS SEED | core STEPS SEED | soak COUNT SEED | native N STEPS | audit FRAMES\n";

/// Does what the words of the command line ask for. The words leave out the program's name (docs/FORMATS.md,
/// "Statuses"). The sink holds nothing at first, and at each status but 4 it holds nothing at the end. Whatever the
/// source asks for at a read, it is read nowhere but where what was read has no answer yet, and all that is due for it
/// is out. It is read only while it is open, so the end of the input is read once.
pub fn pip<S: Source, K: Sink>(
    alloc: Global,
    words: &[String],
    source: &mut S,
    sink: &mut K,
) -> Ended
    requires paced { MayStart (due_of (command_of (map string_bytes words.now))) S.is_open S.allows S.history K.history
        source.old sink.old }
    ensures ends { Fulfils (due_of (command_of (map string_bytes words.now))) result S.history K.history
        source.old sink.old
        source.new sink.new }
{
    match read_words(words) {
        Some(Command::Script) => script(alloc, source, sink),
        Some(Command::Assemble) => asm(alloc, source, sink),
        Some(Command::Disassemble) => dis(alloc, source, sink),
        Some(Command::Run { count, seed }) => run(alloc, count, seed, source, sink),
        Some(Command::Tree { count, seed }) => tree(alloc, count, seed, source, sink),
        Some(Command::Core { count, seed }) => core_dump(alloc, count, seed, source, sink),
        Some(Command::Soak { count, seed }) => soak(alloc, count, seed, source, sink),
        Some(Command::Native { children, count }) => native(alloc, children, count, source, sink),
        Some(Command::Audit { frames }) => audit(alloc, frames, source, sink),
        None => show_usage(USAGE, source, sink),
    }
}
