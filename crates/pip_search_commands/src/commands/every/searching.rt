//! The search of an image, and its text.
ghost use Rattle.std.specs.Prelude.{◌≡◌, ◌≢◌, ◌≤◌, ◌<◌, [], length, IfOk, MatchResult, OnOk};
ghost use Rattle.std.specs.List.{AllByRecursion};
ghost use Rattle.pip_base.specs.Memory.{IsMemory};
ghost use Rattle.pip_base.specs.Opening.{CanOpen};
ghost use Rattle.pip_base.specs.declared.types.Plan.{Plan};
ghost use Rattle.pip_image.specs.Coming.{IsHeader};
ghost use Rattle.pip_io.specs.Causes.{HasCause};
ghost use Rattle.pip_io.specs.Taken.{Appends, SendsPart, Wrote};
ghost use Rattle.pip_io.specs.Writes.{Writes};
ghost use Rattle.pip_lines.specs.Due.{AnswersDue};
ghost use Rattle.pip_model.specs.Booted.{HasBooted};
ghost use Rattle.pip_model.specs.Images.{Image};
ghost use Rattle.pip_search_commands.specs.EveryText.{away_text};
ghost use Rattle.pip_search_commands.specs.MenuReading.{menu_said};
ghost use Rattle.pip_command_contracts.specs.Loading.{BeginsFrames};
ghost use Rattle.pip_command_contracts.specs.Planned.{lines_planned};
ghost use Rattle.pip_search_commands.specs.SearchDues.{IsSearchedAgainst};
ghost use Rattle.pip_search_commands.specs.Searches.{EndsWithFound, HasReplies, HasWays, IsToldFrom, found_text};
ghost use Rattle.pip_search_commands.specs.Searches.{answers_text, told_text};

use crate::Start;
use crate::commands::against::again::write_said;
use crate::commands::against::away::write_away;
use crate::commands::against::comes::write_coming;
use crate::commands::against::menu::ReadMenu;
use pip_base::{Plan, Steps};
use pip_command_contracts::begun::Begun;
use pip_command_contracts::loading::lines_of;
use pip_command_contracts::{Ended, pass, planned_lines};
use pip_every::{First, Journal, Replies, copied, search_on, ways_of, words_later, write_search};
use pip_frames::{Frames, RawFrames};
use pip_image::Header;
use pip_io::{Failed, Sink};
use pip_lines::{Callback, Line, due, write_image};
use pip_search::{Extent, Run, Search};
use pip_switch::Machine;
use std::alloc::{AllocError, Global};
use std::marker::Brand;
use std::sync::ledger::{Blank, Ledger};

/// What a search found, how far it went, the ways to the labels, and what it says of those of which it is asked.
#[derive(Drop)]
pub struct Told {
    pub search: Search,
    pub verdict: Extent,
    pub ways: Vec<Vec<Run>>,
    pub replies: Replies,
}

/// Makes the steps, searches with a menu, and writes what was found, and what is said of the menu's labels.
pub fn end_search<K: Sink>(
    alloc: Global,
    begun: Begun,
    menu: &ReadMenu,
    states: u32,
    from: u32,
    depth: Option<u32>,
    start: Start,
    sink: &mut K,
) -> Ended
    requires booted { HasBooted (⟦<RawFrames as Frames>⟧.memory begun.mem) }
    requires limits { IsHeader begun.head }
    requires some { 1 ≤ states }
    requires seed { 1 ≤ start.seed }
    requires none { (K.history sink.old).written.buffered ≡ [] }
    ensures ends { (i : Image) → BeginsFrames i begun.head (⟦<RawFrames as Frames>⟧.memory begun.mem) → EndsWithFound
        (IsSearchedAgainst (menu_said menu.now) states from depth start) i result.status (K.history sink.old)
        (K.history sink.new) }
    ensures no_faults { result.status ≢ 4 → (K.history sink.new).faults ≡ (K.history sink.old).faults }
    ensures none { result.machine ≡ None }
    ensures flushed { result.status ≢ 4 → (K.history sink.new).written.buffered ≡ [] }
{
    let Begun { head, mem } = begun;
    match find(alloc, &head, mem, menu, states, from, depth, start) {
        Ok(told) => match show(&head, &told, menu, sink) {
            Ok(()) => Ended::with_status(0),
            Err(_) => Ended::with_status(4),
        },
        Err(_) => Ended::with_status(5),
    }
}

// Makes the steps and searches. The only error is that memory is out.
fn find(
    alloc: Global,
    head: &Header,
    mem: RawFrames,
    menu: &ReadMenu,
    states: u32,
    from: u32,
    depth: Option<u32>,
    start: Start,
) -> Result<Told, AllocError>
    requires booted { HasBooted (⟦<RawFrames as Frames>⟧.memory mem) }
    requires limits { IsHeader head.now }
    requires some { 1 ≤ states }
    requires seed { 1 ≤ start.seed }
    ensures ways { IfOk result HasWays }
    ensures replies { IfOk result (λ t. HasReplies t (menu_said menu.now)) }
    ensures found { IfOk result
        (IsToldFrom (menu_said menu.now) states from depth start head.now
        (⟦<RawFrames as Frames>⟧.memory mem)) }
{
    find_made(
        alloc,
        head,
        mem,
        menu,
        states,
        from,
        depth,
        start,
        |plan: Plan| move |t: u64| due(&plan, t),
    )
}

// `make` makes the callback of a plan, which says when the plan is due.
fn find_made<G: Fn(Plan) -> C, C: Callback + Drop>(
    alloc: Global,
    head: &Header,
    mem: RawFrames,
    menu: &ReadMenu,
    states: u32,
    from: u32,
    depth: Option<u32>,
    start: Start,
    make: G,
) -> Result<Told, AllocError>
    requires makes { G.IsAlwaysCallable make }
    requires answer { (p : Plan) (f : C) → G.post make p f → AnswersDue (C.may_ask f) (C.answers f) p }
    requires booted { HasBooted (⟦<RawFrames as Frames>⟧.memory mem) }
    requires limits { IsHeader head.now }
    requires some { 1 ≤ states }
    requires seed { 1 ≤ start.seed }
    ensures ways { IfOk result HasWays }
    ensures replies { IfOk result (λ t. HasReplies t (menu_said menu.now)) }
    ensures found { IfOk result
        (IsToldFrom (menu_said menu.now) states from depth start head.now
        (⟦<RawFrames as Frames>⟧.memory mem)) }
{
    let plans = lines_of(alloc, head.plans.as_slice(), make)?;
    find_planned(
        alloc,
        head,
        mem,
        plans.as_slice(),
        menu,
        states,
        from,
        depth,
        start,
    )
}

// With the callbacks of the plans. Keys compare with words that the frames have later.
fn find_planned<C: Callback>(
    alloc: Global,
    head: &Header,
    mem: RawFrames,
    plans: &[Line<C>],
    menu: &ReadMenu,
    states: u32,
    from: u32,
    depth: Option<u32>,
    start: Start,
) -> Result<Told, AllocError>
    requires same { plans.now ≡ head.now.plans.items }
    requires booted { HasBooted (⟦<RawFrames as Frames>⟧.memory mem) }
    requires limits { IsHeader head.now }
    requires some { 1 ≤ states }
    requires seed { 1 ≤ start.seed }
    ensures ways { IfOk result HasWays }
    ensures replies { IfOk result (λ t. HasReplies t (menu_said menu.now)) }
    ensures found { IfOk result
        (IsToldFrom (menu_said menu.now) states from depth start head.now
        (⟦<RawFrames as Frames>⟧.memory mem)) }
{
    let later = words_from::<C, Brand>(alloc, &mem, head.cpus, plans, start, Blank::new(1))?;
    find_from::<C, Brand, Brand>(
        alloc,
        head,
        mem,
        later,
        plans,
        menu,
        states,
        from,
        depth,
        start,
        Blank::new(1),
    )
}

// As many frames with words that a machine over these has after the steps, or later. The only error is that memory is
// out.
fn words_from<C: Callback, L: Ledger>(
    alloc: Global,
    mem: &RawFrames,
    cpus: u32,
    plans: &[Line<C>],
    start: Start,
    blank: Blank,
) -> Result<RawFrames, AllocError>
    requires ledger { CanOpen blank.name blank.parts L.name L.parts }
    requires booted { HasBooted (⟦<RawFrames as Frames>⟧.memory mem.now) }
    requires least { 1 ≤ cpus }
    requires most { cpus ≤ 4 }
    requires below { AllByRecursion (λ p. p.line < 16) plans.now }
    requires seed { 1 ≤ start.seed }
    ensures count { IfOk result (λ r. length (⟦<RawFrames as Frames>⟧.memory r)
        ≡ length (⟦<RawFrames as Frames>⟧.memory mem.now)) }
    ensures shape { IfOk result (λ r. IsMemory (⟦<RawFrames as Frames>⟧.memory r)) }
{
    let mut steps: Steps<L> = Steps::new(blank);
    let mut machine = Machine::new(copied(alloc, mem, &mut steps)?, cpus);
    pass(&mut machine, plans, start.count, start.seed, &mut steps);
    words_later(alloc, mem.count(), machine, steps)
}

// Makes the steps on a machine over a journal whose first words are those of the frames `later`, as many as the
// machine's, and searches from there on. The type `F` stands for these words, and `L` for the ledger that counts the
// steps.
fn find_from<C: Callback, F: First, L: Ledger>(
    alloc: Global,
    head: &Header,
    mem: RawFrames,
    later: RawFrames,
    plans: &[Line<C>],
    menu: &ReadMenu,
    states: u32,
    from: u32,
    depth: Option<u32>,
    start: Start,
    blank: Blank,
) -> Result<Told, AllocError>
    requires first { ⟦<RawFrames as Frames>⟧.memory later ≡ F.words }
    requires shape { IsMemory F.words }
    requires count { length (⟦<RawFrames as Frames>⟧.memory mem) ≡ length F.words }
    requires ledger { CanOpen blank.name blank.parts L.name L.parts }
    requires same { plans.now ≡ head.now.plans.items }
    requires booted { HasBooted (⟦<RawFrames as Frames>⟧.memory mem) }
    requires limits { IsHeader head.now }
    requires some { 1 ≤ states }
    requires seed { 1 ≤ start.seed }
    ensures ways { IfOk result HasWays }
    ensures replies { IfOk result (λ t. HasReplies t (menu_said menu.now)) }
    ensures found { IfOk result
        (IsToldFrom (menu_said menu.now) states from depth start head.now
        (⟦<RawFrames as Frames>⟧.memory mem)) }
{
    let mut steps: Steps<L> = Steps::new(blank);
    let journal: Journal<F> = Journal::new(alloc, mem, later)?;
    let mut machine = Machine::new(journal, head.cpus);
    pass(&mut machine, plans, start.count, start.seed, &mut steps);
    let lines = planned_lines(head.plans.as_slice());
    let most = depth.unwrap_or(u32::MAX);
    let mut may = Vec::new(alloc);
    may.extend_from_slice(menu.may.as_slice())?;
    let (search, verdict, replies) = search_on(
        alloc,
        machine,
        lines.as_slice(),
        from,
        may,
        &menu.asked,
        most,
        states,
        steps,
    )?;
    let ways = ways_of(alloc, &search)?;
    Ok(Told {
        search,
        verdict,
        ways,
        replies,
    })
}

// Writes the text, and all that the sink holds.
fn show<K: Sink>(head: &Header, told: &Told, menu: &ReadMenu, sink: &mut K) -> Result<(), Failed>
    requires ways { HasWays told.now }
    requires replies { HasReplies told.now (menu_said menu.now) }
    requires some { 1 ≤ head.now.cpus }
    ensures wrote { MatchResult result
        (λ _. Appends (K.history sink.old).written (K.history sink.new).written
        (told_text head.now told.now (menu_said menu.now)))
        (λ _. SendsPart (K.history sink.old).written (K.history sink.new).written
        (told_text head.now told.now (menu_said menu.now))) }
    ensures none { OnOk result ((K.history sink.new).written.buffered ≡ []) }
    ensures cause { HasCause (K.history sink.old).faults (K.history sink.new).faults result }
{
    give(head, told, menu, sink)?;
    sink.flush()
}

// Writes the text.
fn give<K: Sink>(head: &Header, told: &Told, menu: &ReadMenu, sink: &mut K) -> Result<(), Failed>
    requires ways { HasWays told.now }
    requires replies { HasReplies told.now (menu_said menu.now) }
    requires some { 1 ≤ head.now.cpus }
    ensures wrote { Wrote result (K.history sink.old).written (K.history sink.new).written
        (told_text head.now told.now (menu_said menu.now)) }
    ensures cause { HasCause (K.history sink.old).faults (K.history sink.new).faults result }
{
    give_found(head, told, sink)?;
    give_replies(head, told, menu, sink)?;
    give_away(head, told, sink)
}

// Writes what was found.
fn give_found<K: Sink>(head: &Header, told: &Told, sink: &mut K) -> Result<(), Failed>
    requires ways { HasWays told.now }
    requires some { 1 ≤ head.now.cpus }
    ensures wrote { Wrote result (K.history sink.old).written (K.history sink.new).written
        (found_text head.now told.now) }
    ensures cause { HasCause (K.history sink.old).faults (K.history sink.new).faults result }
{
    let lines = planned_lines(head.plans.as_slice());
    write_image(
        head.frames,
        head.cpus,
        head.plans.len() as u64,
        head.pages,
        sink,
    )?;
    write_search(
        sink,
        head.cpus,
        lines.as_slice(),
        &told.search,
        told.ways.as_slice(),
        told.verdict,
    )
}

// Writes what is said of the labels of a menu.
fn give_replies<K: Sink>(
    head: &Header,
    told: &Told,
    menu: &ReadMenu,
    sink: &mut K,
) -> Result<(), Failed>
    requires replies { HasReplies told.now (menu_said menu.now) }
    requires some { 1 ≤ head.now.cpus }
    ensures wrote { Wrote result (K.history sink.old).written (K.history sink.new).written
        (answers_text head.now told.now (menu_said menu.now)) }
    ensures cause { HasCause (K.history sink.old).faults (K.history sink.new).faults result }
{
    let lines = planned_lines(head.plans.as_slice());
    write_said(
        sink,
        head.cpus,
        lines.as_slice(),
        menu.asked.again.as_slice(),
        told.replies.again.as_slice(),
    )?;
    write_coming(
        sink,
        head.cpus,
        lines.as_slice(),
        menu.asked.comes.as_slice(),
        told.replies.comes.as_slice(),
    )
}

// Writes whether all outside looks away, if it was asked.
fn give_away<K: Sink>(head: &Header, told: &Told, sink: &mut K) -> Result<(), Failed>
    requires { 1 ≤ head.now.cpus }
    ensures { Writes K.history sink.old sink.new result
        (away_text head.now.cpus (lines_planned head.now.plans.items) told.now.replies.away) }
{
    let lines = planned_lines(head.plans.as_slice());
    write_away(sink, head.cpus, lines.as_slice(), &told.replies.away)
}
