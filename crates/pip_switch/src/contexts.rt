//! What a processor holds of a context.
ghost use Rattle.std.specs.Prelude.{◌≡◌, ◌<◌, Some, length, option_map, slice_set};
ghost use Rattle.pip_base.specs.Status.{status_number};
ghost use Rattle.pip_model.specs.Sound.{IsContext};
ghost use Rattle.pip_model.specs.Switching.{with_reply};
ghost use Rattle.pip_model.specs.declared.processors.Occupant.{Occupant};
ghost use Rattle.pip_switch.specs.Occupied.{Replies, with_answer, with_ctx_on};

use crate::processors::Processors;
use pip_base::{Outcome, Status};
use pip_model::{Occupant, Register};

// A status in r0 and a value in r1.
fn set_first(regs: &mut [u32; 16], status: Status, value: u32)
    ensures { regs.new ≡ with_reply (status_number status) value regs.old }
{
    regs[0] = status.number();
    regs[1] = value;
}

// A status in r0 and a value in r1 of what runs on a processor, if anything does.
fn set_reply_of(runs: &mut Option<Occupant>, status: Status, value: u32)
    ensures { (r : Occupant) → runs.old ≡ Some r → runs.new ≡ Some (with_answer status value r) }
{
    if let Some(r) = runs {
        set_first(&mut r.ctx.regs, status, value);
    }
}

/// What runs on a processor gets a status in r0 and a value in r1.
pub(crate) fn set_reply(cpus: &mut Processors, cpu: u32, status: Status, value: u32)
    requires { cpu < length cpus.old.items }
    ensures set { Replies cpus.old.items cpu status value cpus.new.items }
    ensures count { length cpus.new.items ≡ length cpus.old.items }
{
    set_reply_of(&mut cpus[cpu as usize], status, value);
}

/// What runs on a processor gets a reply.
pub(crate) fn put_reply(cpus: &mut Processors, cpu: u32, status: Status, value: u32) -> Outcome
    requires { cpu < length cpus.old.items }
    ensures set { Replies cpus.old.items cpu status value cpus.new.items }
    ensures count { length cpus.new.items ≡ length cpus.old.items }
    ensures outcome { result ≡ Outcome.Reply status value }
{
    set_reply(cpus, cpu, status, value);
    Outcome::Reply { status, value }
}

// A copy of registers.
fn copied(regs: &[u32; 16]) -> [u32; 16]
    ensures { result ≡ regs.now }
{
    *regs
}

// What runs gets a program counter and registers, whose numbers are words.
fn set_context_of(runs: &mut Option<Occupant>, pc: u32, regs: &[u32; 16])
    ensures set { runs.new ≡ option_map {T = Occupant}
        (λ r. record r { ctx = record { pc = pc; regs = regs.now } }) runs.old }
    ensures context { IsContext (record { pc = pc; regs = regs.now }) }
{
    let regs = copied(regs);
    if let Some(r) = runs {
        r.ctx.pc = pc;
        r.ctx.regs = regs;
    }
}

/// What runs on a processor, if anything does, gets another context.
pub(crate) fn set_context(cpus: &mut Processors, cpu: u32, pc: u32, regs: &[u32; 16])
    requires { cpu < length cpus.old.items }
    ensures set { cpus.new.items ≡ with_ctx_on cpus.old.items cpu (λ x. record { pc = pc; regs = regs.now }) }
    ensures context { IsContext (record { pc = pc; regs = regs.now }) }
    ensures count { length cpus.new.items ≡ length cpus.old.items }
{
    set_context_of(&mut cpus[cpu as usize], pc, regs);
}

fn set_pc_of(runs: &mut Option<Occupant>, pc: u32)
    ensures { runs.new ≡ option_map {T = Occupant} (λ r. record r { ctx = record r.ctx { pc = pc } }) runs.old }
{
    if let Some(r) = runs {
        r.ctx.pc = pc;
    }
}

/// What runs on a processor, if anything does, gets another program counter.
pub(crate) fn set_pc(cpus: &mut Processors, cpu: u32, pc: u32)
    requires { cpu < length cpus.old.items }
    ensures set { cpus.new.items ≡ with_ctx_on cpus.old.items cpu (λ x. record x { pc = pc }) }
    ensures count { length cpus.new.items ≡ length cpus.old.items }
{
    set_pc_of(&mut cpus[cpu as usize], pc);
}

fn set_register_of(runs: &mut Option<Occupant>, register: Register, word: u32, pc: u32)
    ensures { runs.new ≡ option_map {T = Occupant}
        (λ r. record r { ctx = record { pc = pc; regs = slice_set r.ctx.regs register word } }) runs.old }
{
    if let Some(r) = runs {
        r.ctx.pc = pc;
        r.ctx.regs[register.number() as usize] = word;
    }
}

/// What runs on a processor, if anything does, gets a word in a register and another program counter.
pub(crate) fn set_register(cpus: &mut Processors, cpu: u32, register: Register, word: u32, pc: u32)
    requires { cpu < length cpus.old.items }
    ensures set { cpus.new.items ≡ with_ctx_on cpus.old.items cpu
        (λ x. record { pc = pc; regs = slice_set x.regs register word }) }
    ensures count { length cpus.new.items ≡ length cpus.old.items }
{
    set_register_of(&mut cpus[cpu as usize], register, word, pc);
}
