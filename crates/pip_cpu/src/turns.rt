//! One turn of a processor.
ghost use Rattle.std.specs.Prelude.{◌≡◌, ◌<◌, IfOk};
ghost use Rattle.pip_cpu.specs.Made.{Acts};
ghost use Rattle.pip_io.specs.Causes.{HasCause};
ghost use Rattle.pip_model.specs.Port.{TakesNoMore};
ghost use Rattle.pip_model.specs.Effects.{IsEffect, word_effect};
ghost use Rattle.pip_model.specs.Events as E;
ghost use Rattle.pip_model.specs.InstrRead.{instr_of};
ghost use Rattle.pip_model.specs.Turn.{fetch_acts, fetched_end, outcome_of, turn, turn_end, word_acts};
ghost use Rattle.pip_model.specs.Worlds.{World, runs_on};

use crate::carry::carry;
use crate::effects::{effect_of, next_pc};
use crate::lines::write_moved;
use pip_base::{Ctx, Outcome, Steps};
use pip_io::{Failed, Sink};
use pip_isa::decode;
use pip_model::{Effect, Port, TurnEnd};
use std::sync::ledger::Ledger;

/// The turn that a processor has at step `t`: a poll, one instruction fetched and run, and the trace lines of both
/// (docs/MODEL.md, "A turn"). Fails only if a write failed; all was done then up to the line that was not written
/// whole. `W` is a type that names the caller, with the caller's own type parameters, so each caller has a turn of its
/// own: LLVM compiles a function into its only caller, however long it is.
pub fn turn<W, P: Port, K: Sink, L: Ledger>(
    port: &mut P,
    cpu: u32,
    t: u64,
    sink: &mut K,
    steps: &mut Steps<L>,
) -> Result<TurnEnd, Failed>
    requires { cpu < P.count port.old }
    ensures acts { Acts result (P.stands port.old) (P.stands port.new) (K.history sink.old) (K.history sink.new)
        (λ w. turn w cpu t) }
    ensures end { (w : World) → P.stands port.old w → IfOk result (λ e. e ≡ turn_end w cpu) }
    ensures cause { HasCause (K.history sink.old).faults (K.history sink.new).faults result }
    ensures count { P.count port.new ≡ P.count port.old }
    ensures work { TakesNoMore (P.stands port.old) (λ w. turn w cpu t) steps.old steps.new }
{
    let outcome = port.poll(cpu, steps);
    match outcome {
        Outcome::Switched { .. } => {
            match write_moved(sink, t, cpu, outcome) {
                Ok(()) => Ok(TurnEnd::Polled(outcome)),
                Err(failed) => Err(failed),
            }
        }
        Outcome::Idle => Ok(TurnEnd::Polled(outcome)),
        _ => fetch::<W, P, K, L>(port, cpu, t, sink, steps),
    }
}

// The turn after a poll that left the processor running.
fn fetch<W, P: Port, K: Sink, L: Ledger>(
    port: &mut P,
    cpu: u32,
    t: u64,
    sink: &mut K,
    steps: &mut Steps<L>,
) -> Result<TurnEnd, Failed>
    requires { cpu < P.count port.old }
    ensures acts { Acts result (P.stands port.old) (P.stands port.new) (K.history sink.old) (K.history sink.new)
        (λ w. fetch_acts w t cpu) }
    ensures end { (w : World) → P.stands port.old w → IfOk result (λ e. e ≡ fetched_end (outcome_of w (E.Fetch cpu))) }
    ensures cause { HasCause (K.history sink.old).faults (K.history sink.new).faults result }
    ensures count { P.count port.new ≡ P.count port.old }
    ensures work { TakesNoMore (P.stands port.old) (λ w. fetch_acts w t cpu) steps.old steps.new }
{
    let outcome = port.fetch(cpu, steps);
    if let Outcome::Word(word) = outcome {
        return match execute::<W, P, K, L>(port, cpu, t, word, sink, steps) {
            Ok(()) => Ok(TurnEnd::Ran),
            Err(failed) => Err(failed),
        };
    }
    match write_moved(sink, t, cpu, outcome) {
        Ok(()) => Ok(TurnEnd::Fetched(outcome)),
        Err(failed) => Err(failed),
    }
}

// Runs a word that was fetched. One that is no instruction traps. `Some` comes first, as where the machine looks for a
// context: LLVM makes one test of both then.
fn execute<W, P: Port, K: Sink, L: Ledger>(
    port: &mut P,
    cpu: u32,
    t: u64,
    word: u32,
    sink: &mut K,
    steps: &mut Steps<L>,
) -> Result<(), Failed>
    requires { cpu < P.count port.old }
    ensures acts { Acts result (P.stands port.old) (P.stands port.new) (K.history sink.old) (K.history sink.new)
        (λ w. word_acts w t cpu word (runs_on w cpu)) }
    ensures cause { HasCause (K.history sink.old).faults (K.history sink.new).faults result }
    ensures count { P.count port.new ≡ P.count port.old }
    ensures work { TakesNoMore (P.stands port.old) (λ w. word_acts w t cpu word (runs_on w cpu)) steps.old steps.new }
{
    match port.ctx(cpu) {
        Some(ctx) => {
            let next = next_pc(ctx);
            let effect = effect_of_word(ctx, word);
            carry::<W, P, K, L>(port, cpu, t, next, &effect, sink, steps)
        }
        None => Ok(()),
    }
}

// What a word does that was fetched.
#[inline(always)]
fn effect_of_word(ctx: &Ctx, word: u32) -> Effect
    ensures proper { IsEffect result }
    ensures same { result ≡ word_effect ctx.now word (instr_of word) }
{
    match decode(word) {
        None => Effect::Traps {
            vector: 6,
            a: ctx.pc,
            b: word,
        },
        Some(instr) => effect_of(ctx, &instr),
    }
}
