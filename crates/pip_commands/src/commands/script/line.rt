//! One line of a script.
ghost use Rattle.std.specs.Prelude.{◌≡◌, ◌≢◌, ◌≤◌, ℕ, List, Option, Err, IsErrOf, MatchResult, None, Some};
ghost use Rattle.pip_io.specs.Causes.{RoseByOne};
ghost use Rattle.pip_io.specs.Writes.{Writes};
ghost use Rattle.pip_model.specs.Grammar.{line_meaning};
ghost use Rattle.pip_model.specs.Text.{line_text, outcome_text, said_text};
ghost use Rattle.pip_model.specs.Worlds.{World};
ghost use Rattle.pip_script.specs.Phrases.{HasWords};
ghost use Rattle.pip_script.specs.Proper.{IsProper};
ghost use Rattle.pip_command_contracts.specs.Machines.{StandsIfAny};
ghost use Rattle.pip_commands.specs.Runs.{Runs, RunsIn, Stopped};

use crate::machines::new_machine;
use arrayvec::ArrayString;
use pip_base::{Outcome, Status, Steps};
use pip_frames::RawFrames;
use pip_io::{Failed, Sink, write_all};
use pip_model::Port;
use pip_script::{
    Said, ScriptLine, answer_line, is_blank, push_said, read_phrase, reply_line, word_line,
};
use pip_switch::Machine;
use std::alloc::{AllocError, Global};
use std::sync::ledger::Ledger;

/// Why a line wasn't run.
#[derive(Clone, Copy, Debug, PartialEq, Eq)]
pub enum ScriptLineError {
    Bad,
    /// A write failed.
    Write,
    /// There was no memory for the frames.
    Memory,
}

impl From<Failed> for ScriptLineError {
    ghost use Rattle.pip_commands.specs.declared.commands.script.line.ScriptLineError.TheVariants.{Write};

    ghost from_gives = { λ _ e. e ≡ Write };

    fn from(_: Failed) -> ScriptLineError {
        ScriptLineError::Write
    }
}

impl From<AllocError> for ScriptLineError {
    ghost use Rattle.pip_commands.specs.declared.commands.script.line.ScriptLineError.TheVariants.{Memory};

    ghost from_gives = { λ _ e. e ≡ Memory };

    fn from(_: AllocError) -> ScriptLineError {
        ScriptLineError::Memory
    }
}

/// Runs a line. There is a machine once the boot line was run. A blank line is told here, so that it costs no call.
#[inline(always)]
pub fn run_line<K: Sink, L: Ledger>(
    alloc: Global,
    machine: &mut Option<Machine<RawFrames>>,
    line: &[u8],
    sink: &mut K,
    steps: &mut Steps<L>,
) -> Result<(), ScriptLineError>
    ensures later { (K.history sink.old).faults ≤ (K.history sink.new).faults }
    ensures write { IsErrOf result ScriptLineError.Write → RoseByOne (K.history sink.old).faults
        (K.history sink.new).faults }
    ensures no_faults { result ≢ Err ScriptLineError.Write → (K.history sink.new).faults ≡ (K.history sink.old).faults }
    ensures did { (v : Option World) → StandsIfAny machine.old v → MatchResult result
        (λ _. Runs v line.now (K.history sink.old).written (K.history sink.new).written machine.new)
        (λ stop. Stopped stop v line.now (K.history sink.old).written (K.history sink.new).written) }
{
    if is_blank(line) {
        return Ok(());
    }
    match machine {
        None => run_first(alloc, machine, line, sink, steps),
        Some(machine) => run_event(machine, line, sink, steps),
    }
}

// Runs a line before the boot line, or the boot line, which makes the machine. The line isn't blank.
#[inline(never)]
fn run_first<K: Sink, L: Ledger>(
    alloc: Global,
    machine: &mut Option<Machine<RawFrames>>,
    line: &[u8],
    sink: &mut K,
    steps: &mut Steps<L>,
) -> Result<(), ScriptLineError>
    requires none { machine.old ≡ None }
    requires words { HasWords line.now }
    ensures later { (K.history sink.old).faults ≤ (K.history sink.new).faults }
    ensures write { IsErrOf result ScriptLineError.Write → RoseByOne (K.history sink.old).faults
        (K.history sink.new).faults }
    ensures no_faults { result ≢ Err ScriptLineError.Write → (K.history sink.new).faults ≡ (K.history sink.old).faults }
    ensures did { MatchResult result
        (λ _. Runs None line.now (K.history sink.old).written (K.history sink.new).written machine.new)
        (λ stop. Stopped stop None line.now (K.history sink.old).written (K.history sink.new).written) }
{
    match read_phrase(line, 0) {
        Some(ScriptLine::Boot { n, c }) => boot(alloc, machine, n, c, sink, steps),
        _ => Err(ScriptLineError::Bad),
    }
}

// Makes the machine that a boot line asks for, and reports it. Out of line, since a machine is large among locals,
// which are zeroed at each entry.
#[inline(never)]
fn boot<K: Sink, L: Ledger>(
    alloc: Global,
    machine: &mut Option<Machine<RawFrames>>,
    n: u32,
    c: u32,
    sink: &mut K,
    steps: &mut Steps<L>,
) -> Result<(), ScriptLineError>
    requires { IsProper 0 (ScriptLine.Boot n c) }
    ensures later { (K.history sink.old).faults ≤ (K.history sink.new).faults }
    ensures write { IsErrOf result ScriptLineError.Write → RoseByOne (K.history sink.old).faults
        (K.history sink.new).faults }
    ensures no_faults { result ≢ Err ScriptLineError.Write → (K.history sink.new).faults ≡ (K.history sink.old).faults }
    ensures did { (line : List ℕ) → line_meaning 0 line ≡ Some (ScriptLine.Boot n c) → MatchResult result
        (λ _. Runs None line (K.history sink.old).written (K.history sink.new).written machine.new)
        (λ stop. Stopped stop None line (K.history sink.old).written (K.history sink.new).written) }
{
    *machine = Some(new_machine(alloc, n, c, steps)?);
    write_said(sink, &Said::Booted { n, c })?;
    Ok(())
}

// Runs a line after the boot line, over any machine. The line isn't blank.
#[inline(never)]
fn run_event<P: Port, K: Sink, L: Ledger>(
    port: &mut P,
    line: &[u8],
    sink: &mut K,
    steps: &mut Steps<L>,
) -> Result<(), ScriptLineError>
    requires { HasWords line.now }
    ensures later { (K.history sink.old).faults ≤ (K.history sink.new).faults }
    ensures write { IsErrOf result ScriptLineError.Write → RoseByOne (K.history sink.old).faults
        (K.history sink.new).faults }
    ensures no_faults { result ≢ Err ScriptLineError.Write → (K.history sink.new).faults ≡ (K.history sink.old).faults }
    ensures did { (w : World) → P.stands port.old w → MatchResult result
        (λ _. RunsIn w line.now (K.history sink.old).written (K.history sink.new).written (P.stands port.new))
        (λ stop. Stopped stop (Some w) line.now (K.history sink.old).written (K.history sink.new).written) }
{
    match answer_line(port, line, steps) {
        None => Err(ScriptLineError::Bad),
        Some(said) => {
            write_said(sink, &said)?;
            Ok(())
        }
    }
}

// Writes the answer to a line. After a fault a prefix of it was written. What most lines answer is written as it is,
// and not at the end of a text first.
#[inline(always)]
fn write_said<K: Sink>(sink: &mut K, said: &Said) -> Result<(), Failed>
    ensures { Writes K.history sink.old sink.new result (line_text (said_text said.now)) }
{
    match *said {
        Said::Came(Outcome::Done) => write_all(sink, b"done\n"),
        Said::Came(Outcome::Idle) => write_all(sink, b"idle\n"),
        Said::Came(Outcome::Word(word)) => write_all(sink, &word_line(word)),
        Said::Peeked(Some(word)) => write_all(sink, &word_line(word)),
        Said::Peeked(None) => write_all(sink, b"none\n"),
        Said::Shown(Some(word)) => write_all(sink, &word_line(word)),
        Said::Shown(None) => write_all(sink, b"idle\n"),
        Said::Came(Outcome::Reply { status, value }) => write_reply(sink, status, value),
        _ => write_text(sink, said),
    }
}

// Writes the line of a reply. Most have a status of one digit, and so a line of one length.
#[inline(never)]
fn write_reply<K: Sink>(sink: &mut K, status: Status, value: u32) -> Result<(), Failed>
    ensures { Writes K.history sink.old sink.new result (line_text (outcome_text (Outcome.Reply status value))) }
{
    let number = status.number();
    if number < 10 {
        write_all(sink, &reply_line(number, value))
    } else {
        write_text(sink, &Said::Came(Outcome::Reply { status, value }))
    }
}

// Writes a line that is put together in a text.
#[inline(never)]
fn write_text<K: Sink>(sink: &mut K, said: &Said) -> Result<(), Failed>
    ensures { Writes K.history sink.old sink.new result (line_text (said_text said.now)) }
{
    let mut text = ArrayString::new();
    push_said(&mut text, said);
    write_all(sink, text.as_str().as_bytes())
}
