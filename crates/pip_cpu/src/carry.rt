//! Carries out what an instruction does: it makes the events and writes the lines.
ghost use Rattle.std.specs.Prelude.{◌≡◌, ◌<◌};
ghost use Rattle.pip_cpu.specs.Made.{Acts, IsNext};
ghost use Rattle.pip_io.specs.Causes.{HasCause};
ghost use Rattle.pip_model.specs.Port.{TakesNoMore};
ghost use Rattle.pip_model.specs.Effects.{IsEffect};
ghost use Rattle.pip_model.specs.Answers.{five_of};
ghost use Rattle.pip_model.specs.Turn.{arguments, effect_acts};
ghost use Rattle.pip_model.specs.Worlds.{World, ctx_on};
ghost use Rattle.pip_model.specs.declared.effect.Effect.TheVariants as F;

use crate::lines::{write_call, write_moved, write_out};
use pip_base::{Outcome, Size, Steps};
use pip_io::{Failed, Sink};
use pip_model::{Effect, Port, Register};
use std::sync::ledger::Ledger;

// Where an instruction is carried out: on which processor, at which step, and where the next instruction is.
#[derive(Clone, Copy)]
struct At {
    cpu: u32,
    t: u64,
    next: u32,
}

/// Carries out an effect on a processor. The address of its next instruction is `next`. Fails only if a write failed;
/// all was done then up to the line that was not written whole.
pub(crate) fn carry<W, P: Port, K: Sink, L: Ledger>(
    port: &mut P,
    cpu: u32,
    t: u64,
    next: u32,
    effect: &Effect,
    sink: &mut K,
    steps: &mut Steps<L>,
) -> Result<(), Failed>
    requires cpu { cpu < P.count port.old }
    requires next { IsNext (P.stands port.old) cpu next }
    requires proper { IsEffect effect.now }
    ensures acts { Acts result (P.stands port.old) (P.stands port.new) (K.history sink.old) (K.history sink.new)
        (λ w. effect_acts w t cpu (ctx_on w cpu) effect.now) }
    ensures cause { HasCause (K.history sink.old).faults (K.history sink.new).faults result }
    ensures count { P.count port.new ≡ P.count port.old }
    ensures work { TakesNoMore (P.stands port.old) (λ w. effect_acts w t cpu (ctx_on w cpu) effect.now)
        steps.old steps.new }
{
    let at = At { cpu, t, next };
    match effect {
        Effect::Sets { register, word } => {
            port.set_register(cpu, *register, *word, next);
            Ok(())
        }
        Effect::Goes { pc } => {
            port.set_pc(cpu, *pc);
            Ok(())
        }
        Effect::Links { register, pc } => {
            port.set_register(cpu, *register, next, *pc);
            Ok(())
        }
        Effect::Loads { register, va, size } => {
            load::<W, P, K, L>(port, at, *register, *va, *size, sink, steps)
        }
        Effect::Stores { va, word, size } => {
            store::<W, P, K, L>(port, at, *va, *size, *word, sink, steps)
        }
        Effect::Traps { vector, a, b } => trap(port, at, *vector, *a, *b, sink, steps),
        Effect::Interrupts { vector } => interrupt(port, at, *vector, sink, steps),
        Effect::Calls { number } => call(port, at, *number, sink, steps),
        Effect::Shows(word) => show(port, at, *word, sink),
    }
}

// Only where a word was read do the register and pc change.
fn load<W, P: Port, K: Sink, L: Ledger>(
    port: &mut P,
    at: At,
    register: Register,
    va: u32,
    size: Size,
    sink: &mut K,
    steps: &mut Steps<L>,
) -> Result<(), Failed>
    requires cpu { at.cpu < P.count port.old }
    requires next { IsNext (P.stands port.old) at.cpu at.next }
    ensures acts { Acts result (P.stands port.old) (P.stands port.new) (K.history sink.old) (K.history sink.new)
        (λ w. effect_acts w at.t at.cpu (ctx_on w at.cpu) (F.Loads register va size)) }
    ensures cause { HasCause (K.history sink.old).faults (K.history sink.new).faults result }
    ensures count { P.count port.new ≡ P.count port.old }
    ensures work { TakesNoMore (P.stands port.old)
        (λ w. effect_acts w at.t at.cpu (ctx_on w at.cpu) (F.Loads register va size)) steps.old steps.new }
{
    let outcome = port.load(at.cpu, va, size, steps);
    if let Outcome::Word(word) = outcome {
        port.set_register(at.cpu, register, word, at.next);
        return Ok(());
    }
    write_moved(sink, at.t, at.cpu, outcome)
}

// Only where it is done does pc change.
fn store<W, P: Port, K: Sink, L: Ledger>(
    port: &mut P,
    at: At,
    va: u32,
    size: Size,
    word: u32,
    sink: &mut K,
    steps: &mut Steps<L>,
) -> Result<(), Failed>
    requires cpu { at.cpu < P.count port.old }
    requires next { IsNext (P.stands port.old) at.cpu at.next }
    requires word { IsEffect (F.Stores va word size) }
    ensures acts { Acts result (P.stands port.old) (P.stands port.new) (K.history sink.old) (K.history sink.new)
        (λ w. effect_acts w at.t at.cpu (ctx_on w at.cpu) (F.Stores va word size)) }
    ensures cause { HasCause (K.history sink.old).faults (K.history sink.new).faults result }
    ensures count { P.count port.new ≡ P.count port.old }
    ensures work { TakesNoMore (P.stands port.old)
        (λ w. effect_acts w at.t at.cpu (ctx_on w at.cpu) (F.Stores va word size)) steps.old steps.new }
{
    let outcome = port.store(at.cpu, va, size, word, steps);
    if let Outcome::Done = outcome {
        port.set_pc(at.cpu, at.next);
        return Ok(());
    }
    write_moved(sink, at.t, at.cpu, outcome)
}

// pc stays at the instruction.
fn trap<P: Port, K: Sink, L: Ledger>(
    port: &mut P,
    at: At,
    vector: u32,
    a: u32,
    b: u32,
    sink: &mut K,
    steps: &mut Steps<L>,
) -> Result<(), Failed>
    requires cpu { at.cpu < P.count port.old }
    requires vector { vector < 256 }
    ensures acts { Acts result (P.stands port.old) (P.stands port.new) (K.history sink.old) (K.history sink.new)
        (λ w. effect_acts w at.t at.cpu (ctx_on w at.cpu) (F.Traps vector a b)) }
    ensures cause { HasCause (K.history sink.old).faults (K.history sink.new).faults result }
    ensures count { P.count port.new ≡ P.count port.old }
    ensures work { TakesNoMore (P.stands port.old)
        (λ w. effect_acts w at.t at.cpu (ctx_on w at.cpu) (F.Traps vector a b)) steps.old steps.new }
{
    let outcome = port.trap(at.cpu, vector, a, b, steps);
    write_moved(sink, at.t, at.cpu, outcome)
}

// pc goes on before the trap.
fn interrupt<P: Port, K: Sink, L: Ledger>(
    port: &mut P,
    at: At,
    vector: u32,
    sink: &mut K,
    steps: &mut Steps<L>,
) -> Result<(), Failed>
    requires cpu { at.cpu < P.count port.old }
    requires next { IsNext (P.stands port.old) at.cpu at.next }
    requires vector { vector < 256 }
    ensures acts { Acts result (P.stands port.old) (P.stands port.new) (K.history sink.old) (K.history sink.new)
        (λ w. effect_acts w at.t at.cpu (ctx_on w at.cpu) (F.Interrupts vector)) }
    ensures cause { HasCause (K.history sink.old).faults (K.history sink.new).faults result }
    ensures count { P.count port.new ≡ P.count port.old }
    ensures work { TakesNoMore (P.stands port.old)
        (λ w. effect_acts w at.t at.cpu (ctx_on w at.cpu) (F.Interrupts vector)) steps.old steps.new }
{
    port.set_pc(at.cpu, at.next);
    let outcome = port.trap(at.cpu, vector, 0, 0, steps);
    write_moved(sink, at.t, at.cpu, outcome)
}

// pc goes on before the call.
fn call<P: Port, K: Sink, L: Ledger>(
    port: &mut P,
    at: At,
    number: u32,
    sink: &mut K,
    steps: &mut Steps<L>,
) -> Result<(), Failed>
    requires cpu { at.cpu < P.count port.old }
    requires next { IsNext (P.stands port.old) at.cpu at.next }
    ensures acts { Acts result (P.stands port.old) (P.stands port.new) (K.history sink.old) (K.history sink.new)
        (λ w. effect_acts w at.t at.cpu (ctx_on w at.cpu) (F.Calls number)) }
    ensures cause { HasCause (K.history sink.old).faults (K.history sink.new).faults result }
    ensures count { P.count port.new ≡ P.count port.old }
    ensures work { TakesNoMore (P.stands port.old)
        (λ w. effect_acts w at.t at.cpu (ctx_on w at.cpu) (F.Calls number)) steps.old steps.new }
{
    let args = arguments_of(port, at.cpu);
    port.set_pc(at.cpu, at.next);
    let outcome = port.call(at.cpu, number, &args, steps);
    write_call(sink, at.t, at.cpu, number, outcome)
}

// pc goes on after the line.
fn show<P: Port, K: Sink>(port: &mut P, at: At, word: u32, sink: &mut K) -> Result<(), Failed>
    requires cpu { at.cpu < P.count port.old }
    requires next { IsNext (P.stands port.old) at.cpu at.next }
    ensures acts { Acts result (P.stands port.old) (P.stands port.new) (K.history sink.old) (K.history sink.new)
        (λ w. effect_acts w at.t at.cpu (ctx_on w at.cpu) (F.Shows word)) }
    ensures cause { HasCause (K.history sink.old).faults (K.history sink.new).faults result }
    ensures count { P.count port.new ≡ P.count port.old }
{
    match write_out(sink, at.t, at.cpu, word) {
        Ok(()) => {
            port.set_pc(at.cpu, at.next);
            Ok(())
        }
        Err(failed) => Err(failed),
    }
}

// The arguments of a call by what runs on a processor: r1 to r5.
fn arguments_of<P: Port>(port: &P, cpu: u32) -> [u32; 5]
    requires { cpu < P.count port.now }
    ensures { (w : World) → P.stands port.now w → five_of result ≡ arguments (ctx_on w cpu) }
{
    match port.ctx(cpu) {
        Some(ctx) => [
            ctx.regs[1],
            ctx.regs[2],
            ctx.regs[3],
            ctx.regs[4],
            ctx.regs[5],
        ],
        None => [0; 5],
    }
}
