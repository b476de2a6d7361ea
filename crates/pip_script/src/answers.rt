//! What a line of a script does to a machine.
ghost use Rattle.std.specs.Prelude.{◌≡◌, ◌<◌, ◌≤◌, Some, option_map};
ghost use Rattle.pip_model.specs.Script.{with_pc};
ghost use Rattle.pip_model.specs.Views.{register_or_pc};
ghost use Rattle.pip_model.specs.Worlds.{World, runs_on};
ghost use Rattle.pip_script.specs.Proper.{IsProperEvent};
ghost use Rattle.pip_script.specs.Replies.{RepliesIn};

use pip_base::{Outcome, Steps, never};
use pip_model::{Port, Said, ScriptLine};
use std::sync::ledger::Ledger;

/// Does what a line says that isn't blank and stands in the grammar of a machine of that many processors, and answers
/// what is to be said of it (docs/FORMATS.md, "Scripts").
#[inline(always)]
pub fn answer<P: Port, L: Ledger>(port: &mut P, line: ScriptLine, steps: &mut Steps<L>) -> Said
    requires { IsProperEvent (P.count port.old) line }
    ensures replies { (w : World) → P.stands port.old w → RepliesIn w line (Some result) (P.stands port.new) }
    ensures count { P.count port.new ≡ P.count port.old }
{
    let outcome = match line {
        ScriptLine::Blank => never!(),
        // A machine has a processor, and then no boot line is in the grammar.
        ScriptLine::Boot { .. } => never!(),
        ScriptLine::Peek { frame, index } => return Said::Peeked(port.peek(frame, index, steps)),
        ScriptLine::Reg { cpu, reg } => return Said::Shown(register(port, cpu, reg)),
        ScriptLine::Load { cpu, va, size } => port.load(cpu, va, size, steps),
        ScriptLine::Store {
            cpu,
            va,
            size,
            word,
        } => port.store(cpu, va, size, word, steps),
        ScriptLine::Fetch { cpu } => port.fetch(cpu, steps),
        ScriptLine::Trap { cpu, vector, a, b } => port.trap(cpu, vector, a, b, steps),
        ScriptLine::Call { cpu, no, args } => port.call(cpu, no, &args, steps),
        ScriptLine::Poll { cpu } => port.poll(cpu, steps),
        ScriptLine::SetPc { cpu, va } => set_pc(port, cpu, va),
        ScriptLine::Raise { line } => {
            port.raise(line, steps);
            Outcome::Done
        }
    };
    Said::Came(outcome)
}

// A register of what runs on a processor, and from 16 on its pc. None where nothing runs.
fn register<P: Port>(port: &P, cpu: u32, index: u32) -> Option<u32>
    requires cpu { cpu < P.count port.now }
    requires index { index ≤ 16 }
    ensures { (w : World) → P.stands port.now w → result ≡ option_map (register_or_pc index) (runs_on w cpu) }
{
    let ctx = port.ctx(cpu)?;
    if index == 16 {
        Some(ctx.pc)
    } else {
        Some(ctx.regs[index as usize])
    }
}

// What runs on a processor goes on at an address.
fn set_pc<P: Port>(port: &mut P, cpu: u32, va: u32) -> Outcome
    requires { cpu < P.count port.old }
    ensures event { (w : World) → P.stands port.old w → let h = with_pc w cpu va (runs_on w cpu) in
        (result ≡ h.outcome) × P.stands port.new h.world }
    ensures count { P.count port.new ≡ P.count port.old }
{
    match port.ctx(cpu) {
        None => Outcome::Idle,
        Some(_) => {
            port.set_pc(cpu, va);
            Outcome::Done
        }
    }
}
