//! The command `every`: an image is read, and all that can happen to it is searched.
ghost use Rattle.std.specs.Prelude.{◌≡◌, ◌≤◌};
ghost use Rattle.pip_base.specs.Opening.{CanOpen};
ghost use Rattle.pip_search_commands.specs.SearchDues.{every_due};
ghost use Rattle.pip_command_contracts.specs.Commands.{Fulfils, FulfilsJoined, MayStart, MayStartJoined};

pub(crate) mod searching;

use crate::Start;
use crate::commands::against::menu::ReadMenu;
use pip_base::Steps;
use pip_command_contracts::begun::load;
use pip_command_contracts::loading::LoadError;
use pip_command_contracts::{Ended, end_at_image};
use pip_io::{Joint, Sink, Source};
use searching::end_search;
use std::alloc::Global;
use std::marker::Brand;
use std::sync::ledger::{Blank, Ledger};

/// Writes what can happen to an image, whatever the order in which its processors take turns and its lines come
/// (docs/FORMATS.md, "every"). There is room for `states` states, at least 1; no line comes before `from` turns were
/// made, and at most `depth` choices are made, if that is given.
pub fn every<S: Source, K: Sink>(
    alloc: Global,
    states: u32,
    from: u32,
    depth: Option<u32>,
    start: Start,
    source: &mut S,
    sink: &mut K,
) -> Ended
    requires some { 1 ≤ states }
    requires seed { 1 ≤ start.seed }
    requires paced { MayStart (every_due states from depth start) S.is_open S.allows S.history K.history
        source.old sink.old }
    ensures ends { Fulfils (every_due states from depth start) result S.history K.history source.old sink.old source.new
        sink.new }
{
    every_counted::<S, K, Brand>(
        alloc,
        states,
        from,
        depth,
        start,
        source,
        sink,
        Blank::new(1),
    )
}

// With a counter of steps that nobody reads.
fn every_counted<S: Source, K: Sink, L: Ledger>(
    alloc: Global,
    states: u32,
    from: u32,
    depth: Option<u32>,
    start: Start,
    source: &mut S,
    sink: &mut K,
    blank: Blank,
) -> Ended
    requires blank { CanOpen blank.name blank.parts L.name L.parts }
    requires some { 1 ≤ states }
    requires seed { 1 ≤ start.seed }
    requires paced { MayStart (every_due states from depth start) S.is_open S.allows S.history K.history
        source.old sink.old }
    ensures ends { Fulfils (every_due states from depth start) result S.history K.history source.old sink.old source.new
        sink.new }
{
    let mut steps: Steps<L> = Steps::new(blank);
    let mut joint = Joint::new(source, sink);
    every_joined(alloc, states, from, depth, start, &mut joint, &mut steps)
}

// Reads the image, searches with an empty menu, and writes what was found.
fn every_joined<S: Source, K: Sink, L: Ledger>(
    alloc: Global,
    states: u32,
    from: u32,
    depth: Option<u32>,
    start: Start,
    joint: &mut Joint<'_, S, K>,
    steps: &mut Steps<L>,
) -> Ended
    requires some { 1 ≤ states }
    requires seed { 1 ≤ start.seed }
    requires paced { MayStartJoined (every_due states from depth start) S.is_open S.allows S.history
        K.history joint.old }
    ensures same_source { joint.new.source.ghost_name ≡ joint.old.source.ghost_name }
    ensures same_sink { joint.new.sink.ghost_name ≡ joint.old.sink.ghost_name }
    ensures ends { FulfilsJoined (every_due states from depth start) result S.history K.history joint.old joint.new }
{
    match load(alloc, joint, steps) {
        Ok(begun) => end_search(
            alloc,
            begun,
            &ReadMenu::new(),
            states,
            from,
            depth,
            start,
            &mut *joint.sink,
        ),
        Err(LoadError::Image(fault)) => end_at_image(&mut *joint.sink, fault),
        Err(LoadError::Memory) => Ended::with_status(5),
    }
}
