//! The command `native`: children of the root of an image, which a monitor runs.
ghost use Rattle.std.specs.Prelude.{◌≡◌, ◌<◌, ◌≤◌, length};
ghost use Rattle.std.specs.List.{AllByRecursion};
ghost use Rattle.pip_cpu.specs.Made.{Acts};
ghost use Rattle.pip_command_contracts.specs.Commands.{Fulfils, MayStart};
ghost use Rattle.pip_io.specs.Causes.{HasCause};
ghost use Rattle.pip_model.specs.Worlds.{World};
ghost use Rattle.pip_native.specs.Choice.{AnswersNext};
ghost use Rattle.pip_switch.specs.Standing.{StandsAs};
ghost use Rattle.pip_native.specs.Watching.{root_runs as runs_root, watched_steps};
ghost use Rattle.pip_commands.specs.Children.{monitored};
ghost use Rattle.pip_commands.specs.Dues.{native_due};

use arrayvec::ArrayVec;
use pip_base::Steps;
use pip_children::{Scheduling, children};
use pip_command_contracts::Ended;
use pip_frames::Frames;
use pip_io::{Failed, Sink, Source};
use pip_lines::{Callback, Line, raise_due};
use pip_model::Port;
use pip_native::{Chooser, Monitor, next_child, watch_once};
use pip_switch::Machine;
use std::alloc::Global;
use std::marker::Brand;
use std::sync::ledger::{Blank, Ledger};

/// Builds `n` children of the root of an image, 1 to 8, and writes the trace of `count` steps in which a monitor runs
/// them (docs/FORMATS.md, "native"). At status 0 the machine is handed back. The monitor's callback chooses the next
/// child that is alive.
pub fn native<S: Source, K: Sink>(
    alloc: Global,
    n: u32,
    count: u32,
    source: &mut S,
    sink: &mut K,
) -> Ended
    requires least { 1 ≤ n }
    requires most { n ≤ 8 }
    requires paced { MayStart (native_due n count) S.is_open S.allows S.history K.history source.old sink.old }
    ensures ends { Fulfils (native_due n count) result S.history K.history source.old sink.old source.new sink.new }
{
    let scheduling = Monitored {
        count,
        choose: move |alive: u32, last: u32| next_child(n, alive, last),
    };
    children::<S, K, _, Brand>(alloc, n, scheduling, source, sink, Blank::new(1))
}

// A monitor decides at each step at which the root runs, for `count` steps.
#[derive(Drop)]
struct Monitored<C: Chooser> {
    count: u32,
    choose: C,
}

impl<C: Chooser + Drop> Scheduling for Monitored<C> {
    ghost schedule = { λ m. monitored m.count };

    ghost fits = { λ m n. AnswersNext (C.may_choose m.choose) (C.chooses m.choose) n };

    fn step_count(&self, _n: u32) -> u32 {
        self.count
    }

    fn run<M: Frames, F: Callback, K: Sink, L: Ledger>(
        self,
        machine: &mut Machine<M>,
        lines: &[Line<F>],
        children: ArrayVec<u32, 8>,
        sink: &mut K,
        steps: &mut Steps<L>,
    ) -> Result<(), Failed> {
        let mut monitor = Monitor::new(children, self.choose);
        watch(machine, lines, &mut monitor, self.count, sink, steps)
    }
}

// Makes the steps 0 to `count` - 1: at each the lines that are due are raised, and then the root's monitor decides, or
// the processor takes its turn.
fn watch<M: Frames, F: Callback, C: Chooser, K: Sink, L: Ledger>(
    machine: &mut Machine<M>,
    lines: &[Line<F>],
    monitor: &mut Monitor<C>,
    count: u32,
    sink: &mut K,
    steps: &mut Steps<L>,
) -> Result<(), Failed>
    requires below { AllByRecursion (λ p. p.line < 16) lines.now }
    requires some { 0 < length machine.old.cpus }
    ensures acts { Acts result (StandsAs machine.old) (StandsAs machine.new) (K.history sink.old) (K.history sink.new)
        (λ w. watched_steps w lines.now monitor.old count 0) }
    ensures cause { HasCause (K.history sink.old).faults (K.history sink.new).faults result }
{
    for i in 0..count {
        let t = i as u64;
        raise_due(machine, lines, t, steps);
        let here = root_runs(machine);
        watch_once(machine, here, monitor, t, sink, steps)?;
    }
    Ok(())
}

// Whether the root runs on processor 0.
fn root_runs<M: Frames>(machine: &Machine<M>) -> bool
    requires { 0 < length machine.now.cpus }
    ensures { (w : World) → StandsAs machine.now w → result ≡ runs_root w }
{
    match machine.runs(0) {
        Some(part) => part.number() == 1,
        None => false,
    }
}
