//! The steps of a run.
ghost use Rattle.std.specs.Prelude.{◌≡◌, ◌≢◌, ℕ, ◌<◌};
ghost use Rattle.std.specs.List.{AllByRecursion};
ghost use Rattle.pip_cpu.specs.Made.{Acts};
ghost use Rattle.pip_io.specs.Causes.{HasCause};
ghost use Rattle.pip_model.specs.Port.{TakesNoMore};
ghost use Rattle.pip_model.specs.Run.{steps as run_steps};

use crate::callback::Callback;
use crate::line::Line;
use crate::raise::raise_due;
use crate::schedule::{Alone, Drawn, Schedule};
use pip_base::Steps;
use pip_cpu::turn;
use pip_io::{Failed, Sink};
use pip_model::Port;
use std::sync::ledger::Ledger;

/// Makes the steps 0 to `count` - 1 of a run: at each the lines that are due are raised, and the processor that the
/// generator draws takes its turn. The generator begins at `seed`, which is not 0. Fails only if a write failed; all
/// was done then up to the line that was not written whole.
pub fn run_lines<P: Port, K: Sink, F: Callback, L: Ledger>(
    port: &mut P,
    lines: &[Line<F>],
    count: u32,
    seed: u32,
    sink: &mut K,
    steps: &mut Steps<L>,
) -> Result<(), Failed>
    requires below { AllByRecursion (λ p. p.line < 16) lines.now }
    requires seed { seed ≢ 0 }
    ensures acts { Acts result (P.stands port.old) (P.stands port.new) (K.history sink.old) (K.history sink.new)
        (λ w. run_steps w lines.now seed (P.count port.old) count 0) }
    ensures cause { HasCause (K.history sink.old).faults (K.history sink.new).faults result }
    ensures count { P.count port.new ≡ P.count port.old }
    ensures work { TakesNoMore (P.stands port.old) (λ w. run_steps w lines.now seed (P.count port.old) count 0)
        steps.old steps.new }
{
    let cpus = port.cpus();
    if cpus == 1 {
        return run_scheduled(port, lines, count, &mut Alone, sink, steps);
    }
    run_scheduled(port, lines, count, &mut Drawn::new(seed, cpus), sink, steps)
}

// Makes the steps by a schedule. It is compiled for each kind of schedule, so that a processor that is alone is known
// to be number 0.
fn run_scheduled<P: Port, K: Sink, F: Callback, S: Schedule, L: Ledger>(
    port: &mut P,
    lines: &[Line<F>],
    count: u32,
    schedule: &mut S,
    sink: &mut K,
    steps: &mut Steps<L>,
) -> Result<(), Failed>
    requires below { AllByRecursion (λ p. p.line < 16) lines.now }
    requires cpus { S.cpus schedule.old ≡ P.count port.old }
    ensures acts { (seed : ℕ) → S.is_at schedule.old seed 0 → Acts result (P.stands port.old) (P.stands port.new)
        (K.history sink.old) (K.history sink.new)
        (λ w. run_steps w lines.now seed (P.count port.old) count 0) }
    ensures cause { HasCause (K.history sink.old).faults (K.history sink.new).faults result }
    ensures count { P.count port.new ≡ P.count port.old }
    ensures work { (seed : ℕ) → S.is_at schedule.old seed 0 → TakesNoMore (P.stands port.old)
        (λ w. run_steps w lines.now seed (P.count port.old) count 0) steps.old steps.new }
{
    for i in 0..count {
        let t = i as u64;
        raise_due(port, lines, t, steps);
        turn::<(S, F), P, K, L>(port, schedule.next(), t, sink, steps)?;
    }
    Ok(())
}
