//! Turns, event by event.
ghost use Rattle.std.specs.Prelude.{◌≡◌, ◌<◌, length};
ghost use Rattle.pip_model.specs.Acts.{events_made};
ghost use Rattle.pip_model.specs.Effects.{IsEffect, at_next, word_effect};
ghost use Rattle.pip_model.specs.InstrRead.{instr_of};
ghost use Rattle.pip_model.specs.Answers.{five_of};
ghost use Rattle.pip_model.specs.Events as E;
ghost use Rattle.pip_model.specs.Happens.{event};
ghost use Rattle.pip_model.specs.Turn.{arguments, effect_acts, fetch_acts, turn, word_acts};
ghost use Rattle.pip_model.specs.Worlds.{World, ctx_on, runs_on};
ghost use Rattle.pip_guests.specs.Sights.{event_passes, events_pass};
ghost use Rattle.pip_switch.specs.Standing.{StandsAs};
ghost use Rattle.pip_away.specs.Blind.{sight_of};

use crate::blind::Blind;
use crate::events::{
    call_looks_away, fetch_looks_away, load_looks_away, poll_looks_away, store_looks_away,
    trap_looks_away,
};
use pip_base::{Ctx, Outcome, Steps};
use pip_cpu::{Effect, effect_of};
use pip_frames::Frames;
use pip_isa::decode;
use pip_model::Port;
use pip_switch::Machine;
use std::sync::ledger::Ledger;

// A context with its pc at the next instruction.
fn next_of(ctx: &Ctx) -> Ctx
    ensures { result ≡ at_next ctx.now }
{
    Ctx {
        pc: ctx.pc.wrapping_add(4),
        regs: ctx.regs,
    }
}

// Whether an interrupt reads no word that is left out. The pc goes on before it.
fn interrupt_looks_away<M: Frames, L: Ledger>(
    machine: &mut Machine<M>,
    blind: &Blind,
    cpu: u32,
    ctx: &Ctx,
    vector: u32,
    steps: &mut Steps<L>,
) -> bool
    requires cpu { cpu < length machine.old.cpus }
    requires stands { (w : World) × StandsAs machine.old w }
    ensures away { (w : World) → StandsAs machine.old w → result ≡ event_passes blind.now.own.items
        (sight_of blind.now) (event w (E.SetContext cpu (at_next ctx.now))).world (E.Trap cpu vector 0 0) }
    ensures count { length machine.new.cpus ≡ length machine.old.cpus }
{
    machine.set_ctx(cpu, &next_of(ctx));
    trap_looks_away(machine, blind, cpu, vector, steps)
}

// The arguments of a call.
fn arguments(ctx: &Ctx) -> [u32; 5]
    ensures { five_of result ≡ arguments ctx.now }
{
    let r = &ctx.regs;
    [r[1], r[2], r[3], r[4], r[5]]
}

// Whether a call reads none. The pc goes on before it.
fn called_looks_away<M: Frames, L: Ledger>(
    machine: &mut Machine<M>,
    blind: &Blind,
    cpu: u32,
    ctx: &Ctx,
    number: u32,
    steps: &mut Steps<L>,
) -> bool
    requires cpu { cpu < length machine.old.cpus }
    requires stands { (w : World) × StandsAs machine.old w }
    ensures away { (w : World) → StandsAs machine.old w → result ≡ event_passes blind.now.own.items
        (sight_of blind.now) (event w (E.SetContext cpu (at_next ctx.now))).world
        (E.Call cpu number (arguments ctx.now)) }
    ensures count { length machine.new.cpus ≡ length machine.old.cpus }
{
    machine.set_ctx(cpu, &next_of(ctx));
    call_looks_away(machine, blind, cpu, number, &arguments(ctx), steps)
}

// Whether what an instruction does reads no word that is left out. The machine may then be elsewhere.
fn effect_looks_away<M: Frames, L: Ledger>(
    machine: &mut Machine<M>,
    blind: &Blind,
    cpu: u32,
    ctx: &Ctx,
    effect: &Effect,
    steps: &mut Steps<L>,
) -> bool
    requires cpu { cpu < length machine.old.cpus }
    requires stands { (w : World) × StandsAs machine.old w }
    requires effect { IsEffect effect.now }
    requires ctx { (w : World) → StandsAs machine.old w → ctx_on w cpu ≡ ctx.now }
    ensures away { (w : World) → StandsAs machine.old w → result ≡ events_pass blind.now.own.items
        (sight_of blind.now) w (events_made (effect_acts w 0 cpu (ctx_on w cpu) effect.now)) }
    ensures count { length machine.new.cpus ≡ length machine.old.cpus }
{
    match effect {
        Effect::Loads { va, size, .. } => load_looks_away(machine, blind, cpu, *va, *size, steps),
        Effect::Stores { va, size, .. } => store_looks_away(machine, blind, cpu, *va, *size, steps),
        Effect::Traps { vector, .. } => trap_looks_away(machine, blind, cpu, *vector, steps),
        Effect::Interrupts { vector } => {
            interrupt_looks_away(machine, blind, cpu, ctx, *vector, steps)
        }
        Effect::Calls { number } => called_looks_away(machine, blind, cpu, ctx, *number, steps),
        Effect::Sets { .. } | Effect::Goes { .. } | Effect::Links { .. } | Effect::Shows(_) => true,
    }
}

// What a word does that was fetched.
fn effect_of_word(ctx: &Ctx, word: u32) -> Effect
    ensures proper { IsEffect result }
    ensures same { result ≡ word_effect ctx.now word (instr_of word) }
{
    match decode(word) {
        None => Effect::Traps {
            vector: 6,
            a: ctx.pc,
            b: word,
        },
        Some(instr) => effect_of(ctx, &instr),
    }
}

// Whether what a word does that was fetched reads none.
fn word_looks_away<M: Frames, L: Ledger>(
    machine: &mut Machine<M>,
    blind: &Blind,
    cpu: u32,
    word: u32,
    steps: &mut Steps<L>,
) -> bool
    requires cpu { cpu < length machine.old.cpus }
    requires stands { (w : World) × StandsAs machine.old w }
    ensures away { (w : World) → StandsAs machine.old w → result ≡ events_pass blind.now.own.items
        (sight_of blind.now) w (events_made (word_acts w 0 cpu word (runs_on w cpu))) }
    ensures count { length machine.new.cpus ≡ length machine.old.cpus }
{
    match machine.ctx(cpu) {
        None => true,
        Some(ctx) => {
            let ctx = *ctx;
            let effect = effect_of_word(&ctx, word);
            effect_looks_away(machine, blind, cpu, &ctx, &effect, steps)
        }
    }
}

// Whether an instruction that is fetched and run reads none.
fn instruction_looks_away<M: Frames, L: Ledger>(
    machine: &mut Machine<M>,
    blind: &Blind,
    cpu: u32,
    steps: &mut Steps<L>,
) -> bool
    requires cpu { cpu < length machine.old.cpus }
    requires stands { (w : World) × StandsAs machine.old w }
    ensures away { (w : World) → StandsAs machine.old w → result ≡ events_pass blind.now.own.items
        (sight_of blind.now) w (events_made (fetch_acts w 0 cpu)) }
    ensures count { length machine.new.cpus ≡ length machine.old.cpus }
{
    if !fetch_looks_away(machine, blind, cpu, steps) {
        return false;
    }
    match machine.fetch(cpu, steps) {
        Outcome::Word(word) => word_looks_away(machine, blind, cpu, word, steps),
        _ => true,
    }
}

/// Whether no event of a processor's turn reads a word that is left out. The machine may then be elsewhere.
pub fn turn_looks_away<M: Frames, L: Ledger>(
    machine: &mut Machine<M>,
    blind: &Blind,
    cpu: u32,
    steps: &mut Steps<L>,
) -> bool
    requires cpu { cpu < length machine.old.cpus }
    requires stands { (w : World) × StandsAs machine.old w }
    ensures away { (w : World) → StandsAs machine.old w → result ≡ events_pass blind.now.own.items
        (sight_of blind.now) w (events_made (turn w cpu 0)) }
    ensures count { length machine.new.cpus ≡ length machine.old.cpus }
{
    if !poll_looks_away(machine, blind, cpu, steps) {
        return false;
    }
    match machine.poll(cpu, steps) {
        Outcome::Switched { .. } => true,
        Outcome::Idle => true,
        _ => instruction_looks_away(machine, blind, cpu, steps),
    }
}
