//! The command `script`.
ghost use Rattle.std.specs.Prelude.{◌≡◌};
ghost use Rattle.pip_base.specs.Opening.{CanOpen};
ghost use Rattle.pip_commands.specs.Dues.{script_due};
ghost use Rattle.pip_command_contracts.specs.Commands.{Fulfils, FulfilsJoined, MayStart, MayStartJoined};

mod line;
mod turn;

use pip_base::{MAX_INPUT, Steps, never};
use pip_command_contracts::Ended;
use pip_io::{Joint, Sink, Source};
use pip_script::Input;
use std::alloc::Global;
use std::marker::Brand;
use std::sync::ledger::{Blank, Ledger};
use turn::{End, take_turn};

/// Runs a script (docs/FORMATS.md, "Scripts"). What was answered is written before more is read. At status 0 the
/// machine that its boot line made is handed back.
pub fn script<S: Source, K: Sink>(alloc: Global, source: &mut S, sink: &mut K) -> Ended
    requires paced { MayStart script_due S.is_open S.allows S.history K.history source.old sink.old }
    ensures ends { Fulfils script_due result S.history K.history source.old sink.old source.new sink.new }
{
    run_script::<S, K, Brand>(alloc, source, sink, Blank::new(1))
}

// Runs a script with a counter of steps that nobody reads.
fn run_script<S: Source, K: Sink, L: Ledger>(
    alloc: Global,
    source: &mut S,
    sink: &mut K,
    blank: Blank,
) -> Ended
    requires blank { CanOpen blank.name blank.parts L.name L.parts }
    requires paced { MayStart script_due S.is_open S.allows S.history K.history source.old sink.old }
    ensures ends { Fulfils script_due result S.history K.history source.old sink.old source.new sink.new }
{
    let mut steps: Steps<L> = Steps::new(blank);
    let mut joint = Joint::new(source, sink);
    run_lines(alloc, &mut joint, &mut steps)
}

// Runs the lines of a script.
fn run_lines<S: Source, K: Sink, L: Ledger>(
    alloc: Global,
    joint: &mut Joint<'_, S, K>,
    steps: &mut Steps<L>,
) -> Ended
    requires paced { MayStartJoined script_due S.is_open S.allows S.history K.history joint.old }
    ensures same_source { joint.new.source.ghost_name ≡ joint.old.source.ghost_name }
    ensures same_sink { joint.new.sink.ghost_name ≡ joint.old.sink.ghost_name }
    ensures ends { FulfilsJoined script_due result S.history K.history joint.old joint.new }
{
    let mut input = Input::new();
    let mut machine = None;
    for number in 1..MAX_INPUT + 2 {
        match take_turn(alloc, number, &mut input, joint, &mut machine, steps) {
            None => {}
            Some(End::Finished) => return Ended { status: 0, machine },
            Some(end) => return Ended::with_status(end.status()),
        }
    }
    // Each turn takes a byte at least, and there are no more.
    never!()
}
