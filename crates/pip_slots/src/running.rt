//! A plan of slots, one after another.
ghost use Rattle.std.specs.Prelude.{◌≡◌, ◌+◌, ◌*◌, ◌<◌, ◌≤◌, ◌^◌, IfOk, length};
ghost use Rattle.pip_cpu.specs.Made.{Acts};
ghost use Rattle.pip_io.specs.Causes.{HasCause};
ghost use Rattle.pip_model.specs.Port.{TakesNoMore};
ghost use Rattle.pip_model.specs.Worlds.{World};
ghost use Rattle.pip_slots.specs.Slots.{plan_steps, rounds, slot_acts, slot_run, slot_turns};
ghost use Rattle.pip_native.specs.Watching.{root_runs};
ghost use Rattle.pip_switch.specs.Standing.{StandsAs};

use crate::edges::{close_slot, inner_once, open_slot};
use crate::time_slot::TimeSlot;
use pip_base::Steps;
use pip_frames::Frames;
use pip_io::{Failed, Sink};
use pip_switch::Machine;
use std::sync::ledger::Ledger;

/// Runs a round of slots `count` times, from step 0 on. It fails only if a write failed; then all was done up to the
/// line that was not written whole.
pub fn run_rounds<M: Frames, K: Sink, L: Ledger>(
    machine: &mut Machine<M>,
    round: &[TimeSlot],
    count: u32,
    sink: &mut K,
    steps: &mut Steps<L>,
) -> Result<(), Failed>
    requires some { 0 < length machine.old.cpus }
    requires few { plan_steps round.now * count ≤ 2 ^ 63 }
    ensures acts { Acts result (StandsAs machine.old) (StandsAs machine.new) (K.history sink.old) (K.history sink.new)
        (λ w. slot_run w (rounds round.now count) 0) }
    ensures cause { HasCause (K.history sink.old).faults (K.history sink.new).faults result }
    ensures count { length machine.new.cpus ≡ length machine.old.cpus }
    ensures work { TakesNoMore (StandsAs machine.old) (λ w. slot_run w (rounds round.now count) 0) steps.old steps.new }
{
    let mut t = 0u64;
    for k in 0..count {
        t = run_slots(machine, round, t, sink, steps)?;
    }
    Ok(())
}

/// Runs the slots of a plan, from step `first` on, and answers the step after the last of them. It fails only if a
/// write failed; then all was done up to the line that was not written whole.
pub fn run_slots<M: Frames, K: Sink, L: Ledger>(
    machine: &mut Machine<M>,
    slots: &[TimeSlot],
    first: u64,
    sink: &mut K,
    steps: &mut Steps<L>,
) -> Result<u64, Failed>
    requires some { 0 < length machine.old.cpus }
    requires few { first + plan_steps slots.now ≤ 2 ^ 63 }
    ensures acts { Acts result (StandsAs machine.old) (StandsAs machine.new) (K.history sink.old) (K.history sink.new)
        (λ w. slot_run w slots.now first) }
    ensures next { IfOk result (λ t. t ≡ first + plan_steps slots.now) }
    ensures cause { HasCause (K.history sink.old).faults (K.history sink.new).faults result }
    ensures count { length machine.new.cpus ≡ length machine.old.cpus }
    ensures work { TakesNoMore (StandsAs machine.old) (λ w. slot_run w slots.now first) steps.old steps.new }
{
    let mut t = first;
    for i in 0..slots.len() {
        let slot = slots[i];
        one_slot(machine, slot, t, sink, steps)?;
        t += slot.turns as u64 + 2;
    }
    Ok(t)
}

// All steps of a slot, from step `t` on.
fn one_slot<M: Frames, K: Sink, L: Ledger>(
    machine: &mut Machine<M>,
    slot: TimeSlot,
    t: u64,
    sink: &mut K,
    steps: &mut Steps<L>,
) -> Result<(), Failed>
    requires some { 0 < length machine.old.cpus }
    requires small { t + (slot.turns + 2) ≤ 2 ^ 63 }
    ensures acts { Acts result (StandsAs machine.old) (StandsAs machine.new) (K.history sink.old) (K.history sink.new)
        (λ w. slot_acts w slot t) }
    ensures cause { HasCause (K.history sink.old).faults (K.history sink.new).faults result }
    ensures count { length machine.new.cpus ≡ length machine.old.cpus }
    ensures work { TakesNoMore (StandsAs machine.old) (λ w. slot_acts w slot t) steps.old steps.new }
{
    open_slot(machine, slot.child, t, sink, steps)?;
    inner_steps(machine, slot.turns, t + 1, sink, steps)?;
    let here = root_runs(machine);
    close_slot(machine, here, t + 1 + slot.turns as u64, sink, steps)
}

// The steps within a slot, from step `t` on.
fn inner_steps<M: Frames, K: Sink, L: Ledger>(
    machine: &mut Machine<M>,
    turns: u32,
    t: u64,
    sink: &mut K,
    steps: &mut Steps<L>,
) -> Result<(), Failed>
    requires some { 0 < length machine.old.cpus }
    requires small { t + turns ≤ 2 ^ 63 }
    ensures acts { Acts result (StandsAs machine.old) (StandsAs machine.new) (K.history sink.old) (K.history sink.new)
        (λ w. slot_turns w turns t) }
    ensures cause { HasCause (K.history sink.old).faults (K.history sink.new).faults result }
    ensures count { length machine.new.cpus ≡ length machine.old.cpus }
    ensures work { TakesNoMore (StandsAs machine.old) (λ w. slot_turns w turns t) steps.old steps.new }
{
    for k in 0..turns {
        let here = root_runs(machine);
        inner_once(machine, here, t + k as u64, sink, steps)?;
    }
    Ok(())
}

// Whether the root runs on processor 0.
fn root_runs<M: Frames>(machine: &Machine<M>) -> bool
    requires { 0 < length machine.now.cpus }
    ensures { (w : World) → StandsAs machine.now w → result ≡ root_runs w }
{
    match machine.runs(0) {
        Some(part) => part.number() == 1,
        None => false,
    }
}
