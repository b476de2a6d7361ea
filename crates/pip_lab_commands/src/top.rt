//! The program of the lab as one call.
ghost use Rattle.std.specs.Prelude.{map, string_bytes};
ghost use Rattle.pip_lab_commands.specs.Dues.{lab_due_of};
ghost use Rattle.pip_lab_commands.specs.Words.{lab_command_of};
ghost use Rattle.pip_command_contracts.specs.Commands.{Fulfils, MayStart};

use crate::commands::slots::slots;
use crate::words::{LabCommand, read_words};
use pip_certificates::{merge, part};
use pip_command_contracts::{Ended, show_usage};
use pip_io::{Sink, Source};
use pip_search_commands::{against, apart, every};
use std::alloc::Global;

const LAB_USAGE: &[u8] =
    b"usage: pip-lab slots N TURNS ROUNDS | slots N ROUNDS K:TURNS .. | every STATES [FROM [DEPTH]] [after STEPS SEED] | against STATES [FROM [DEPTH]] [after STEPS SEED] | apart STATES STEPS SEED | part [FROM] | merge\n";

/// Does what the words of the command line ask for. The words leave out the program's name (docs/FORMATS.md,
/// "Statuses"). The sink holds nothing at first, and at each status but 4 it holds nothing at the end. Whatever the
/// source asks for at a read, it is read nowhere but where what was read has no answer yet, and all that is due for it
/// is out. It is read only while it is open, so the end of the input is read once.
pub fn lab<S: Source, K: Sink>(
    alloc: Global,
    words: &[String],
    source: &mut S,
    sink: &mut K,
) -> Ended
    requires paced { MayStart (lab_due_of (lab_command_of (map string_bytes words.now))) S.is_open
        S.allows S.history K.history
        source.old sink.old }
    ensures ends { Fulfils (lab_due_of (lab_command_of (map string_bytes words.now))) result S.history K.history
        source.old sink.old
        source.new sink.new }
{
    match read_words(words) {
        Some(
            LabCommand::Slots {
                children,
                rounds,
                round,
            },
        ) => slots(alloc, children, rounds, round, source, sink),
        Some(
            LabCommand::Every {
                states,
                from,
                depth,
                start,
            },
        ) => every(alloc, states, from, depth, start, source, sink),
        Some(
            LabCommand::Against {
                states,
                from,
                depth,
                start,
            },
        ) => against(alloc, states, from, depth, start, source, sink),
        Some(
            LabCommand::Apart {
                states,
                count,
                seed,
            },
        ) => apart(alloc, states, count, seed, source, sink),
        Some(LabCommand::Part { from }) => part(alloc, from, source, sink),
        Some(LabCommand::Merge) => merge(alloc, source, sink),
        None => show_usage(LAB_USAGE, source, sink),
    }
}
