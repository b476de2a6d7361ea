//! The commands `run`, `tree` and `core`: an image is read, its steps are made, and each shows something else of them.
ghost use Rattle.std.specs.Prelude.{◌≡◌, ◌≤◌};
ghost use Rattle.pip_base.specs.Opening.{CanOpen};
ghost use Rattle.pip_base.specs.declared.types.Plan.{Plan};
ghost use Rattle.pip_lines.specs.Due.{AnswersDue};
ghost use Rattle.pip_commands.specs.Dues.{run_due};
ghost use Rattle.pip_commands.specs.declared.commands.run.report.Report.TheVariants as R;
ghost use Rattle.pip_command_contracts.specs.Commands.{Fulfils, FulfilsJoined, MayStart, MayStartJoined};

pub(super) mod report;

use pip_base::{Plan, Steps};
use pip_command_contracts::loading::{LoadError, load};
use pip_command_contracts::{Ended, end_at_image};
use pip_io::{Joint, Sink, Source};
use pip_lines::{Callback, due};
use report::Report;
use std::alloc::Global;
use std::marker::Brand;
use std::sync::ledger::{Blank, Ledger};

/// Writes the trace of `count` steps of an image (docs/FORMATS.md, "Trace lines"). The seed of the schedule is not 0.
/// At status 0 the machine is handed back.
pub fn run<S: Source, K: Sink>(
    alloc: Global,
    count: u32,
    seed: u32,
    source: &mut S,
    sink: &mut K,
) -> Ended
    requires seed { 1 ≤ seed }
    requires paced { MayStart (run_due R.Trace count seed) S.is_open S.allows S.history K.history source.old sink.old }
    ensures ends { Fulfils (run_due R.Trace count seed) result S.history K.history source.old sink.old
        source.new sink.new }
{
    make_run(Report::Trace, alloc, count, seed, source, sink)
}

/// Writes the tree of partitions after `count` steps of an image (docs/FORMATS.md, "tree"). The seed of the schedule is
/// not 0. At status 0 the machine is handed back.
pub fn tree<S: Source, K: Sink>(
    alloc: Global,
    count: u32,
    seed: u32,
    source: &mut S,
    sink: &mut K,
) -> Ended
    requires seed { 1 ≤ seed }
    requires paced { MayStart (run_due R.Tree count seed) S.is_open S.allows S.history K.history source.old sink.old }
    ensures ends { Fulfils (run_due R.Tree count seed) result S.history K.history source.old sink.old
        source.new sink.new }
{
    make_run(Report::Tree, alloc, count, seed, source, sink)
}

/// Writes the words of all frames after `count` steps of an image (docs/FORMATS.md, "core"). The seed of the schedule
/// is not 0. At status 0 the machine is handed back.
pub fn core_dump<S: Source, K: Sink>(
    alloc: Global,
    count: u32,
    seed: u32,
    source: &mut S,
    sink: &mut K,
) -> Ended
    requires seed { 1 ≤ seed }
    requires paced { MayStart (run_due R.Frames count seed) S.is_open S.allows S.history K.history source.old sink.old }
    ensures ends { Fulfils (run_due R.Frames count seed) result S.history K.history source.old sink.old
        source.new sink.new }
{
    make_run(Report::Frames, alloc, count, seed, source, sink)
}

// Makes a run with a counter of steps that nobody reads.
fn make_run<S: Source, K: Sink>(
    report: Report,
    alloc: Global,
    count: u32,
    seed: u32,
    source: &mut S,
    sink: &mut K,
) -> Ended
    requires seed { 1 ≤ seed }
    requires paced { MayStart (run_due report count seed) S.is_open S.allows S.history K.history source.old sink.old }
    ensures ends { Fulfils (run_due report count seed) result S.history K.history source.old sink.old
        source.new sink.new }
{
    run_counted::<S, K, Brand>(report, alloc, count, seed, source, sink, Blank::new(1))
}

// Each plan's callback says when the plan is due.
fn run_counted<S: Source, K: Sink, L: Ledger>(
    report: Report,
    alloc: Global,
    count: u32,
    seed: u32,
    source: &mut S,
    sink: &mut K,
    blank: Blank,
) -> Ended
    requires blank { CanOpen blank.name blank.parts L.name L.parts }
    requires seed { 1 ≤ seed }
    requires paced { MayStart (run_due report count seed) S.is_open S.allows S.history K.history source.old sink.old }
    ensures ends { Fulfils (run_due report count seed) result S.history K.history source.old sink.old
        source.new sink.new }
{
    let mut steps: Steps<L> = Steps::new(blank);
    let mut joint = Joint::new(source, sink);
    run_plans(
        report,
        alloc,
        count,
        seed,
        &mut joint,
        |plan: Plan| move |t: u64| due(&plan, t),
        &mut steps,
    )
}

// Reads the image, and makes and shows its run. `make` makes the callback of a plan.
fn run_plans<S: Source, K: Sink, G: Fn(Plan) -> F, F: Callback + Drop, L: Ledger>(
    report: Report,
    alloc: Global,
    count: u32,
    seed: u32,
    joint: &mut Joint<'_, S, K>,
    make: G,
    steps: &mut Steps<L>,
) -> Ended
    requires makes { G.IsAlwaysCallable make }
    requires answer { (p : Plan) (f : F) → G.post make p f → AnswersDue (F.may_ask f) (F.answers f) p }
    requires seed { 1 ≤ seed }
    requires paced { MayStartJoined (run_due report count seed) S.is_open S.allows S.history K.history joint.old }
    ensures same_source { joint.new.source.ghost_name ≡ joint.old.source.ghost_name }
    ensures same_sink { joint.new.sink.ghost_name ≡ joint.old.sink.ghost_name }
    ensures ends { FulfilsJoined (run_due report count seed) result S.history K.history joint.old joint.new }
{
    match load(alloc, joint, make, steps) {
        Ok(mut loaded) => match report.show(&mut loaded, count, seed, &mut *joint.sink, steps) {
            Ok(()) => Ended {
                status: 0,
                machine: Some(loaded.machine),
            },
            Err(_) => Ended::with_status(4),
        },
        Err(LoadError::Image(fault)) => end_at_image(&mut *joint.sink, fault),
        Err(LoadError::Memory) => Ended::with_status(5),
    }
}
