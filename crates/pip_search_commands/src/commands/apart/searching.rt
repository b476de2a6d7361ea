//! The searches of an image's guests, and their text.
ghost use Rattle.std.specs.Prelude.{◌≡◌, ◌≢◌, ◌≤◌, ◌<◌, [], length, IfOk, MatchResult, OnOk};
ghost use Rattle.std.specs.List.{AllByRecursion};
ghost use Rattle.pip_apart.specs.Searches.{CanBeShown};
ghost use Rattle.pip_base.specs.Memory.{IsMemory};
ghost use Rattle.pip_base.specs.Opening.{CanOpen};
ghost use Rattle.pip_base.specs.declared.types.Plan.{Plan};
ghost use Rattle.pip_image.specs.Coming.{IsHeader};
ghost use Rattle.pip_io.specs.Causes.{HasCause};
ghost use Rattle.pip_io.specs.Taken.{Appends, SendsPart, Wrote};
ghost use Rattle.pip_lines.specs.Due.{AnswersDue};
ghost use Rattle.pip_model.specs.Booted.{HasBooted};
ghost use Rattle.pip_model.specs.Images.{Image};
ghost use Rattle.pip_search_commands.specs.ApartSearches.{IsKnownFrom, knowledge_text};
ghost use Rattle.pip_search_commands.specs.Searches.{EndsWithFound};
ghost use Rattle.pip_search_commands.specs.SearchDues.{IsFoundApart};
ghost use Rattle.pip_command_contracts.specs.Loading.{BeginsFrames};

use pip_apart::{Knowledge, find_out, write_known};
use pip_base::{Plan, Steps};
use pip_command_contracts::begun::Begun;
use pip_command_contracts::loading::lines_of;
use pip_command_contracts::{Ended, pass};
use pip_every::{First, Journal, copied, note_words};
use pip_frames::{Frames, RawFrames};
use pip_image::Header;
use pip_io::{Failed, Sink};
use pip_lines::{Callback, Line, due, write_image};
use pip_switch::Machine;
use std::alloc::{AllocError, Global};
use std::marker::Brand;
use std::sync::ledger::{Blank, Ledger};

/// Makes the steps, searches each guest alone, and writes what was found.
pub fn end_apart<K: Sink>(
    alloc: Global,
    begun: Begun,
    states: u32,
    count: u32,
    seed: u32,
    sink: &mut K,
) -> Ended
    requires booted { HasBooted (⟦<RawFrames as Frames>⟧.memory begun.mem) }
    requires limits { IsHeader begun.head }
    requires some { 1 ≤ states }
    requires seed { 1 ≤ seed }
    requires none { (K.history sink.old).written.buffered ≡ [] }
    ensures ends { (i : Image) → BeginsFrames i begun.head (⟦<RawFrames as Frames>⟧.memory begun.mem) → EndsWithFound
        (IsFoundApart states count seed) i result.status (K.history sink.old) (K.history sink.new) }
    ensures no_faults { result.status ≢ 4 → (K.history sink.new).faults ≡ (K.history sink.old).faults }
    ensures none { result.machine ≡ None }
    ensures flushed { result.status ≢ 4 → (K.history sink.new).written.buffered ≡ [] }
{
    let Begun { head, mem } = begun;
    match find(alloc, &head, mem, states, count, seed) {
        Ok(known) => match show(&head, &known, sink) {
            Ok(()) => Ended::with_status(0),
            Err(_) => Ended::with_status(4),
        },
        Err(_) => Ended::with_status(5),
    }
}

// Makes the steps and searches. The only error is that memory is out.
fn find(
    alloc: Global,
    head: &Header,
    mem: RawFrames,
    states: u32,
    count: u32,
    seed: u32,
) -> Result<Knowledge, AllocError>
    requires booted { HasBooted (⟦<RawFrames as Frames>⟧.memory mem) }
    requires limits { IsHeader head.now }
    requires some { 1 ≤ states }
    requires seed { 1 ≤ seed }
    ensures shown { IfOk result (λ k. AllByRecursion CanBeShown k.guests.items) }
    ensures known { IfOk result (IsKnownFrom states count seed head.now.cpus head.now.plans.items
        (⟦<RawFrames as Frames>⟧.memory mem)) }
{
    find_made(
        alloc,
        head,
        mem,
        states,
        count,
        seed,
        |plan: Plan| move |t: u64| due(&plan, t),
    )
}

// `make` makes the callback of a plan, which says when the plan is due.
fn find_made<G: Fn(Plan) -> C, C: Callback + Drop>(
    alloc: Global,
    head: &Header,
    mem: RawFrames,
    states: u32,
    count: u32,
    seed: u32,
    make: G,
) -> Result<Knowledge, AllocError>
    requires makes { G.IsAlwaysCallable make }
    requires answer { (p : Plan) (f : C) → G.post make p f → AnswersDue (C.may_ask f) (C.answers f) p }
    requires booted { HasBooted (⟦<RawFrames as Frames>⟧.memory mem) }
    requires limits { IsHeader head.now }
    requires some { 1 ≤ states }
    requires seed { 1 ≤ seed }
    ensures shown { IfOk result (λ k. AllByRecursion CanBeShown k.guests.items) }
    ensures known { IfOk result (IsKnownFrom states count seed head.now.cpus head.now.plans.items
        (⟦<RawFrames as Frames>⟧.memory mem)) }
{
    let lines = lines_of(alloc, head.plans.as_slice(), make)?;
    find_planned(alloc, mem, head.cpus, lines.as_slice(), states, count, seed)
}

// With the callbacks. Keys compare with the words that the frames have after the steps.
fn find_planned<C: Callback>(
    alloc: Global,
    mem: RawFrames,
    cpus: u32,
    lines: &[Line<C>],
    states: u32,
    count: u32,
    seed: u32,
) -> Result<Knowledge, AllocError>
    requires booted { HasBooted (⟦<RawFrames as Frames>⟧.memory mem) }
    requires least { 1 ≤ cpus }
    requires most { cpus ≤ 4 }
    requires below { AllByRecursion (λ p. p.line < 16) lines.now }
    requires some { 1 ≤ states }
    requires seed { 1 ≤ seed }
    ensures shown { IfOk result (λ k. AllByRecursion CanBeShown k.guests.items) }
    ensures known { IfOk result (IsKnownFrom states count seed cpus lines.now (⟦<RawFrames as Frames>⟧.memory mem)) }
{
    let later = words_after::<C, Brand>(alloc, &mem, cpus, lines, count, seed, Blank::new(1))?;
    find_from::<C, Brand, Brand>(
        alloc,
        mem,
        later,
        cpus,
        lines,
        states,
        count,
        seed,
        Blank::new(1),
    )
}

// As many frames with the words that a machine over these has after the steps. The only error is that memory is out.
fn words_after<C: Callback, L: Ledger>(
    alloc: Global,
    mem: &RawFrames,
    cpus: u32,
    lines: &[Line<C>],
    count: u32,
    seed: u32,
    blank: Blank,
) -> Result<RawFrames, AllocError>
    requires ledger { CanOpen blank.name blank.parts L.name L.parts }
    requires booted { HasBooted (⟦<RawFrames as Frames>⟧.memory mem.now) }
    requires least { 1 ≤ cpus }
    requires most { cpus ≤ 4 }
    requires below { AllByRecursion (λ p. p.line < 16) lines.now }
    requires seed { 1 ≤ seed }
    ensures count { IfOk result (λ r. length (⟦<RawFrames as Frames>⟧.memory r)
        ≡ length (⟦<RawFrames as Frames>⟧.memory mem.now)) }
    ensures shape { IfOk result (λ r. IsMemory (⟦<RawFrames as Frames>⟧.memory r)) }
{
    let mut steps: Steps<L> = Steps::new(blank);
    let mut machine = Machine::new(copied(alloc, mem, &mut steps)?, cpus);
    pass(&mut machine, lines, count, seed, &mut steps);
    let mut later = RawFrames::new(alloc, mem.count())?;
    note_words(machine.mem(), &mut later, &mut steps);
    Ok(later)
}

// Makes the steps on a machine over a journal whose first words are those of the frames `later`, as many as the
// machine's, and searches each guest there. The type `F` stands for these words, and `L` for the ledger that counts the
// steps.
fn find_from<C: Callback, F: First, L: Ledger>(
    alloc: Global,
    mem: RawFrames,
    later: RawFrames,
    cpus: u32,
    lines: &[Line<C>],
    states: u32,
    count: u32,
    seed: u32,
    blank: Blank,
) -> Result<Knowledge, AllocError>
    requires first { ⟦<RawFrames as Frames>⟧.memory later ≡ F.words }
    requires shape { IsMemory F.words }
    requires count { length (⟦<RawFrames as Frames>⟧.memory mem) ≡ length F.words }
    requires ledger { CanOpen blank.name blank.parts L.name L.parts }
    requires booted { HasBooted (⟦<RawFrames as Frames>⟧.memory mem) }
    requires least { 1 ≤ cpus }
    requires most { cpus ≤ 4 }
    requires below { AllByRecursion (λ p. p.line < 16) lines.now }
    requires some { 1 ≤ states }
    requires seed { 1 ≤ seed }
    ensures shown { IfOk result (λ k. AllByRecursion CanBeShown k.guests.items) }
    ensures known { IfOk result (IsKnownFrom states count seed cpus lines.now (⟦<RawFrames as Frames>⟧.memory mem)) }
{
    let mut steps: Steps<L> = Steps::new(blank);
    let journal: Journal<F> = Journal::new(alloc, mem, later)?;
    let mut machine = Machine::new(journal, cpus);
    pass(&mut machine, lines, count, seed, &mut steps);
    find_out(alloc, machine, u32::MAX, states, steps)
}

// Writes the text, and all that the sink holds.
fn show<K: Sink>(head: &Header, known: &Knowledge, sink: &mut K) -> Result<(), Failed>
    requires { AllByRecursion CanBeShown known.now.guests.items }
    ensures wrote { MatchResult result
        (λ _. Appends (K.history sink.old).written (K.history sink.new).written (knowledge_text head.now known.now))
        (λ _. SendsPart (K.history sink.old).written (K.history sink.new).written (knowledge_text head.now known.now)) }
    ensures none { OnOk result ((K.history sink.new).written.buffered ≡ []) }
    ensures cause { HasCause (K.history sink.old).faults (K.history sink.new).faults result }
{
    give(head, known, sink)?;
    sink.flush()
}

// Writes the text.
fn give<K: Sink>(head: &Header, known: &Knowledge, sink: &mut K) -> Result<(), Failed>
    requires { AllByRecursion CanBeShown known.now.guests.items }
    ensures wrote { Wrote result (K.history sink.old).written (K.history sink.new).written
        (knowledge_text head.now known.now) }
    ensures cause { HasCause (K.history sink.old).faults (K.history sink.new).faults result }
{
    let plans = head.plans.len() as u64;
    write_image(head.frames, head.cpus, plans, head.pages, sink)?;
    write_known(sink, known)
}
