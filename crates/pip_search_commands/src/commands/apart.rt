//! The command `apart`: an image is read, its steps are made, and then each of its guests is searched alone.
ghost use Rattle.std.specs.Prelude.{◌≡◌, ◌≤◌};
ghost use Rattle.pip_base.specs.Opening.{CanOpen};
ghost use Rattle.pip_search_commands.specs.SearchDues.{apart_due};
ghost use Rattle.pip_command_contracts.specs.Commands.{Fulfils, FulfilsJoined, MayStart, MayStartJoined};

mod searching;

use pip_base::Steps;
use pip_command_contracts::begun::load;
use pip_command_contracts::loading::LoadError;
use pip_command_contracts::{Ended, end_at_image};
use pip_io::{Joint, Sink, Source};
use searching::end_apart;
use std::alloc::Global;
use std::marker::Brand;
use std::sync::ledger::{Blank, Ledger};

/// Writes what each guest of an image does alone after `count` steps by the schedule of a seed, and whether they hold
/// in company (docs/FORMATS.md, "apart"). The seed is not 0, and each search has room for `states` states, at least 1.
pub fn apart<S: Source, K: Sink>(
    alloc: Global,
    states: u32,
    count: u32,
    seed: u32,
    source: &mut S,
    sink: &mut K,
) -> Ended
    requires some { 1 ≤ states }
    requires seed { 1 ≤ seed }
    requires paced { MayStart (apart_due states count seed) S.is_open S.allows S.history K.history source.old sink.old }
    ensures ends { Fulfils (apart_due states count seed) result S.history K.history source.old sink.old
        source.new sink.new }
{
    apart_counted::<S, K, Brand>(alloc, states, count, seed, source, sink, Blank::new(1))
}

// With a counter of steps that nobody reads.
fn apart_counted<S: Source, K: Sink, L: Ledger>(
    alloc: Global,
    states: u32,
    count: u32,
    seed: u32,
    source: &mut S,
    sink: &mut K,
    blank: Blank,
) -> Ended
    requires blank { CanOpen blank.name blank.parts L.name L.parts }
    requires some { 1 ≤ states }
    requires seed { 1 ≤ seed }
    requires paced { MayStart (apart_due states count seed) S.is_open S.allows S.history K.history source.old sink.old }
    ensures ends { Fulfils (apart_due states count seed) result S.history K.history source.old sink.old
        source.new sink.new }
{
    let mut steps: Steps<L> = Steps::new(blank);
    let mut joint = Joint::new(source, sink);
    apart_joined(alloc, states, count, seed, &mut joint, &mut steps)
}

// Reads the image, makes the steps, searches, and writes what was found.
fn apart_joined<S: Source, K: Sink, L: Ledger>(
    alloc: Global,
    states: u32,
    count: u32,
    seed: u32,
    joint: &mut Joint<'_, S, K>,
    steps: &mut Steps<L>,
) -> Ended
    requires some { 1 ≤ states }
    requires seed { 1 ≤ seed }
    requires paced { MayStartJoined (apart_due states count seed) S.is_open S.allows S.history K.history joint.old }
    ensures same_source { joint.new.source.ghost_name ≡ joint.old.source.ghost_name }
    ensures same_sink { joint.new.sink.ghost_name ≡ joint.old.sink.ghost_name }
    ensures ends { FulfilsJoined (apart_due states count seed) result S.history K.history joint.old joint.new }
{
    match load(alloc, joint, steps) {
        Ok(begun) => end_apart(alloc, begun, states, count, seed, &mut *joint.sink),
        Err(LoadError::Image(fault)) => end_at_image(&mut *joint.sink, fault),
        Err(LoadError::Memory) => Ended::with_status(5),
    }
}
