//! The processors: what runs on each.
ghost use Rattle.std.specs.Prelude.{◌≡◌, ◌<◌, ◌≤◌, length, option_map, slice_set, Some, None};
ghost use Rattle.std.specs.List.{list_any};
ghost use Rattle.pip_model.specs.Poll.{occupant_name};
ghost use Rattle.pip_model.specs.Worlds.{boot_cpus, handler_context, with_four};
ghost use Rattle.pip_model.specs.declared.processors.Occupant.{Occupant};
ghost use Rattle.pip_switch.specs.Occupied.{names_on, on_cpu, part_on, runs_name};

use arrayvec::ArrayVec;
use pip_base::{Ctx, Frame, Outcome};
use pip_model::Occupant;

/// 1 to 4 processors, each with what it runs.
pub type Processors = ArrayVec<Option<Occupant>, 4>;

/// What runs on 1 to 4 processors at first: the root on processor 0.
pub(crate) fn boot_processors(count: u32) -> Processors
    requires least { 1 ≤ count }
    requires most { count ≤ 4 }
    ensures cpus { result.items ≡ boot_cpus count }
    ensures count { length result.items ≡ count }
{
    let mut cpus = ArrayVec::new();
    cpus.push(Some(Occupant {
        name: Frame::new(1),
        ctx: Ctx {
            pc: 0x400000,
            regs: [0; 16],
        },
    }));
    for _i in 1..count {
        cpus.push(None);
    }
    cpus
}

/// The partition that runs on a processor.
pub(crate) fn runner(cpus: &Processors, cpu: u32) -> Option<Frame>
    requires { cpu < length cpus.now.items }
    ensures { result ≡ part_on cpus.now.items cpu }
{
    match &cpus.as_slice()[cpu as usize] {
        Some(r) => Some(r.name),
        None => None,
    }
}

/// The program counter of what runs on a processor. 0 where nothing does.
pub(crate) fn pc_on(cpus: &Processors, cpu: u32) -> u32
    requires { cpu < length cpus.now.items }
    ensures { (r : Occupant) → on_cpu cpus.now.items cpu ≡ Some r → result ≡ r.ctx.pc }
{
    match &cpus.as_slice()[cpu as usize] {
        Some(r) => r.ctx.pc,
        None => 0,
    }
}

/// The context of what runs on a processor.
pub(crate) fn context_on(cpus: &Processors, cpu: u32) -> Option<&Ctx>
    requires { cpu < length cpus.now.items }
    ensures { option_map (λ x. x.now) result ≡ option_map (λ r. r.ctx) (on_cpu cpus.now.items cpu) }
{
    match &cpus.as_slice()[cpu as usize] {
        Some(r) => Some(&r.ctx),
        None => None,
    }
}

/// The number of the partition that runs on a processor, 0 where nothing does.
pub(crate) fn number_on(cpus: &Processors, cpu: u32) -> u32
    requires { cpu < length cpus.now.items }
    ensures { result ≡ occupant_name (on_cpu cpus.now.items cpu) }
{
    match runner(cpus, cpu) {
        Some(part) => part.number(),
        None => 0,
    }
}

/// Writes what runs on a processor, if anything does.
pub(crate) fn set_running(cpus: &mut Processors, cpu: u32, runs: Option<Occupant>)
    requires { cpu < length cpus.old.items }
    ensures set { cpus.new.items ≡ slice_set cpus.old.items cpu runs }
    ensures count { length cpus.new.items ≡ length cpus.old.items }
{
    cpus[cpu as usize] = runs;
}

/// Whether a partition runs on a processor.
pub(crate) fn runs(cpu: &Option<Occupant>, part: Frame) -> bool
    ensures { result ≡ runs_name part cpu.now }
{
    match cpu {
        Some(r) => r.name == part,
        None => false,
    }
}

/// Whether a partition runs on one of the processors.
pub(crate) fn is_running(cpus: &[Option<Occupant>], part: Frame) -> bool
    ensures { result ≡ list_any (λ cpu. runs_name part cpu) cpus.now }
{
    cpus.iter().any(|cpu| runs(cpu, part))
}

/// The partitions that run, in the processors' order.
pub(crate) fn names_of(cpus: &Processors) -> ArrayVec<Frame, 4>
    ensures { result.items ≡ names_on cpus.now.items }
{
    let mut names = ArrayVec::new();
    for cpu in cpus.as_slice() {
        if let Some(r) = cpu {
            names.push(r.name);
        }
    }
    names
}

// Puts a vector into r0, two words into r1 and r2, and a word into r3.
fn set_told(regs: &mut [u32; 16], vector: u32, a: u32, b: u32, r3: u32)
    ensures { regs.new ≡ with_four vector a b r3 regs.old }
{
    regs[0] = vector;
    regs[1] = a;
    regs[2] = b;
    regs[3] = r3;
}

/// What runs on a processor that enters a partition: the context of its handler, with a vector in r0, two words in r1
/// and r2, and another r3.
pub(crate) fn entering(part: Frame, handler: &Ctx, vector: u32, a: u32, b: u32, r3: u32) -> Occupant
    ensures { result ≡ record { name = part; ctx = handler_context handler.now vector a b r3 } }
{
    let mut ctx = *handler;
    set_told(&mut ctx.regs, vector, a, b, r3);
    Occupant { name: part, ctx }
}

/// The outcome of an event by which a processor entered a partition.
pub(crate) fn switched(from: Frame, to: Frame, vector: u32) -> Outcome
    ensures { result ≡ Outcome.Switched from to vector }
{
    Outcome::Switched {
        from: from.number(),
        to: to.number(),
        vector,
    }
}

/// The outcome of an event if nobody takes the vector that a partition raised.
pub(crate) fn parked(from: Frame, vector: u32) -> Outcome
    ensures { result ≡ Outcome.Parked from vector }
{
    Outcome::Parked {
        from: from.number(),
        vector,
    }
}
