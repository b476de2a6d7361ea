//! One turn of a script: a line is taken and run, or the script ends.
ghost use Rattle.std.specs.Prelude.{◌≡◌, ◌≢◌, ◌≤◌, ℕ, [], List, Option, IfSome, None, Some, Ok, Err, OnOk, MatchOption};
ghost use Rattle.std.specs.Prelude.{MatchResult};
ghost use Rattle.std.specs.Io.KnownBytes as IO;
ghost use Rattle.std.specs.Io.KnownBytes.{prepend_known};
ghost use Rattle.pip_io.specs.Taken.{Keeps};
ghost use Rattle.pip_io.specs.Moments.{joined};
ghost use Rattle.pip_script.specs.Lines.{HoldsLine, HoldsPart, still};
ghost use Rattle.pip_commands.specs.Pacing.{MayReadLine};
ghost use Rattle.pip_commands.specs.Progress.{HasNoLine, LineComes, Names, Settles, TurnDoes, status_of};

use super::line::{ScriptLineError, run_line};
use crate::text::bad_line;
use pip_base::Steps;
use pip_frames::RawFrames;
use pip_io::{Joint, Sink, Source, write_all};
use pip_script::{Input, LineEnd};
use pip_switch::Machine;
use std::alloc::Global;
use std::sync::ledger::Ledger;

/// How a script ends.
#[derive(Clone, Copy, Debug, PartialEq, Eq)]
pub enum End {
    Finished,
    BadLine,
    ReadFault,
    WriteFault,
    NoMemory,
    /// The input goes on after `MAX_INPUT` bytes.
    Limit,
}

impl End {
    /// The status of the program.
    pub fn status(self) -> u8
        ensures { result ≡ status_of self }
    {
        match self {
            End::Finished => 0,
            End::BadLine => 2,
            End::ReadFault => 3,
            End::WriteFault => 4,
            End::NoMemory => 5,
            End::Limit => 6,
        }
    }
}

/// Takes line `number` and runs it; `None` where the script goes on. At its end all that the sink holds is written.
pub fn take_turn<S: Source, K: Sink, L: Ledger>(
    alloc: Global,
    number: u32,
    input: &mut Input,
    joint: &mut Joint<'_, S, K>,
    machine: &mut Option<Machine<RawFrames>>,
    steps: &mut Steps<L>,
) -> Option<End>
    requires is_open { S.is_open joint.old.source.now }
    requires paced { MayReadLine S.allows input.old (joined S.history K.history joint.old) }
    ensures same_source { joint.new.source.ghost_name ≡ joint.old.source.ghost_name }
    ensures same_sink { joint.new.sink.ghost_name ≡ joint.old.sink.ghost_name }
    ensures does { TurnDoes result machine.old machine.new number input.old input.new
        (joined S.history K.history joint.old)
        (joined S.history K.history joint.new) }
    ensures none { IfSome result (λ end. end ≢ End.WriteFault → (K.history joint.new.sink.now).written.buffered ≡ []) }
    ensures is_open { result ≡ None → S.is_open joint.new.source.now }
{
    match run_turn(alloc, number, input, joint, machine, steps) {
        None => None,
        Some(end) => Some(settle_end(end, &mut *joint.sink)),
    }
}

// Takes a line and runs it. The sink may hold a text at the end, but not where a read failed.
fn run_turn<S: Source, K: Sink, L: Ledger>(
    alloc: Global,
    number: u32,
    input: &mut Input,
    joint: &mut Joint<'_, S, K>,
    machine: &mut Option<Machine<RawFrames>>,
    steps: &mut Steps<L>,
) -> Option<End>
    requires is_open { S.is_open joint.old.source.now }
    requires paced { MayReadLine S.allows input.old (joined S.history K.history joint.old) }
    ensures same_source { joint.new.source.ghost_name ≡ joint.old.source.ghost_name }
    ensures same_sink { joint.new.sink.ghost_name ≡ joint.old.sink.ghost_name }
    ensures does { TurnDoes result machine.old machine.new number input.old input.new
        (joined S.history K.history joint.old)
        (joined S.history K.history joint.new) }
    ensures none { result ≡ Some End.ReadFault → (K.history joint.new.sink.now).written.buffered ≡ [] }
    ensures is_open { result ≡ None → S.is_open joint.new.source.now }
{
    match whole_line(alloc, number, input, joint, machine, steps) {
        Err(end) => Some(end),
        Ok(count) => {
            let ran = run_line(alloc, machine, input.head(count), &mut *joint.sink, steps);
            input.take(count + 1);
            match ran {
                Ok(()) => None,
                Err(stop) => Some(end_at(number, &mut *joint.sink, stop)),
            }
        }
    }
}

// The number of bytes of the line at the head of the input, whose newline comes after it; or how the script ends,
// where no such line comes. A last line without a newline is run.
#[inline(always)]
fn whole_line<S: Source, K: Sink, L: Ledger>(
    alloc: Global,
    number: u32,
    input: &mut Input,
    joint: &mut Joint<'_, S, K>,
    machine: &mut Option<Machine<RawFrames>>,
    steps: &mut Steps<L>,
) -> Result<usize, End>
    requires is_open { S.is_open joint.old.source.now }
    requires paced { MayReadLine S.allows input.old (joined S.history K.history joint.old) }
    ensures same_source { joint.new.source.ghost_name ≡ joint.old.source.ghost_name }
    ensures same_sink { joint.new.sink.ghost_name ≡ joint.old.sink.ghost_name }
    ensures does { LineComes result machine.old machine.new number input.old input.new
        (joined S.history K.history joint.old)
        (joined S.history K.history joint.new) }
    ensures none { result ≡ Err End.ReadFault → (K.history joint.new.sink.now).written.buffered ≡ [] }
    ensures is_open { OnOk result (S.is_open joint.new.source.now) }
{
    match input.line_ahead() {
        Some(LineEnd::Newline(count)) => Ok(count),
        ahead => other_line(ahead, alloc, number, input, joint, machine, steps),
    }
}

// The line if something else is at the head, or more has to be read to know. Out of line, since it is rarely taken.
#[inline(never)]
fn other_line<S: Source, K: Sink, L: Ledger>(
    ahead: Option<LineEnd>,
    alloc: Global,
    number: u32,
    input: &mut Input,
    joint: &mut Joint<'_, S, K>,
    machine: &mut Option<Machine<RawFrames>>,
    steps: &mut Steps<L>,
) -> Result<usize, End>
    requires ahead { MatchOption ahead (HoldsPart (still input.old) input.old)
        (λ end. (left : Option (List ℕ)) → HoldsLine (still input.old) input.old left end) }
    requires is_open { S.is_open joint.old.source.now }
    requires paced { MayReadLine S.allows input.old (joined S.history K.history joint.old) }
    ensures same_source { joint.new.source.ghost_name ≡ joint.old.source.ghost_name }
    ensures same_sink { joint.new.sink.ghost_name ≡ joint.old.sink.ghost_name }
    ensures does { LineComes result machine.old machine.new number input.old input.new
        (joined S.history K.history joint.old)
        (joined S.history K.history joint.new) }
    ensures none { result ≡ Err End.ReadFault → (K.history joint.new.sink.now).written.buffered ≡ [] }
    ensures is_open { OnOk result (S.is_open joint.new.source.now) }
{
    match next_line(ahead, input, joint) {
        Err(end) => Err(end),
        Ok(LineEnd::Newline(count)) => Ok(count),
        Ok(LineEnd::Last(count)) => match run_line(
            alloc,
            machine,
            input.head(count),
            &mut *joint.sink,
            steps,
        ) {
            Ok(()) => Err(End::Finished),
            Err(stop) => Err(end_at(number, &mut *joint.sink, stop)),
        },
        Ok(LineEnd::End) => Err(End::Finished),
        Ok(LineEnd::TooLong) => Err(end_at(number, &mut *joint.sink, ScriptLineError::Bad)),
        Ok(LineEnd::Over) => Err(End::Limit),
    }
}

// Writes what is held at an end, which is another one where that fails. Nothing more is tried after a failed read or
// write.
fn settle_end<K: Sink>(end: End, sink: &mut K) -> End
    ensures { Settles end result (K.history sink.old) (K.history sink.new) }
{
    match end {
        End::ReadFault | End::WriteFault => end,
        _ => match sink.flush() {
            Ok(()) => end,
            Err(_) => End::WriteFault,
        },
    }
}

// Tells what stands at the head of the input, where it isn't known yet. Where more has to be read for that, what is
// held of answers is written before. The error says which of the two failed.
fn next_line<S: Source, K: Sink>(
    ahead: Option<LineEnd>,
    input: &mut Input,
    joint: &mut Joint<'_, S, K>,
) -> Result<LineEnd, End>
    requires ahead { MatchOption ahead (HoldsPart (still input.old) input.old)
        (λ end. (left : Option (List ℕ)) → HoldsLine (still input.old) input.old left end) }
    requires is_open { S.is_open joint.old.source.now }
    requires paced { MayReadLine S.allows input.old (joined S.history K.history joint.old) }
    ensures same_source { joint.new.source.ghost_name ≡ joint.old.source.ghost_name }
    ensures same_sink { joint.new.sink.ghost_name ≡ joint.old.sink.ghost_name }
    ensures taken { Keeps (K.history joint.old.sink.now).written (K.history joint.new.sink.now).written }
    ensures kept { IO.Keeps (prepend_known input.old.bytes (S.history joint.old.source.now).left)
        (prepend_known input.new.bytes (S.history joint.new.source.now).left) }
    ensures line { MatchResult result
        (λ end. HoldsLine (still input.old) input.new (S.history joint.new.source.now).left end
        × ((S.history joint.new.source.now).faults ≡ (S.history joint.old.source.now).faults)
        × ((K.history joint.new.sink.now).faults ≡ (K.history joint.old.sink.now).faults))
        (λ end. HasNoLine end input.old input.new (joined S.history K.history joint.old)
        (joined S.history K.history joint.new)) }
    ensures is_open { (n : ℕ) → result ≡ Ok (LineEnd.Newline n) → S.is_open joint.new.source.now }
{
    if let Some(end) = ahead {
        return Ok(end);
    }
    if joint.sink.flush().is_err() {
        return Err(End::WriteFault);
    }
    match input.read_line(joint) {
        Ok(end) => Ok(end),
        Err(_) => Err(End::ReadFault),
    }
}

// Names a line that is bad, and answers how the script ends.
fn end_at<K: Sink>(number: u32, sink: &mut K, stop: ScriptLineError) -> End
    ensures later { (K.history sink.old).faults ≤ (K.history sink.new).faults }
    ensures no_faults { result ≢ End.WriteFault → (K.history sink.new).faults ≡ (K.history sink.old).faults }
    ensures names { Names stop number result (K.history sink.old) (K.history sink.new) }
{
    match stop {
        ScriptLineError::Bad => match write_all(
            sink,
            bad_line(u64::from(number)).as_str().as_bytes(),
        ) {
            Ok(()) => End::BadLine,
            Err(_) => End::WriteFault,
        },
        ScriptLineError::Write => End::WriteFault,
        ScriptLineError::Memory => End::NoMemory,
    }
}
