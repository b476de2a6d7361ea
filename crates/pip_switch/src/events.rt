//! Loads, stores, fetches and traps of what runs on a processor.
ghost use Rattle.std.specs.Prelude.{◌≡◌, ◌+◌, ◌*◌, ◌<◌, ◌≤◌, Some, length};
ghost use Rattle.pip_mmu.specs.Faults.{model_fault};
ghost use Rattle.pip_model.specs.Events as E;
ghost use Rattle.pip_model.specs.Events.{below_of};
ghost use Rattle.pip_model.specs.Happens.{access_number, what_happens, deliver_fault, fault_number, fault_vector};
ghost use Rattle.pip_model.specs.Partitions.{InEach};
ghost use Rattle.pip_model.specs.Port.{TakesAtMost};
ghost use Rattle.pip_model.specs.Tree.{chain};
ghost use Rattle.pip_switch.specs.Hits.{HitReadsOne};
ghost use Rattle.pip_switch.specs.Occupied.{part_on};
ghost use Rattle.pip_switch.specs.Standing.{HasCachedWorld, HasWorld, Leads, LeadsFrom, LeadsWith, StandsFor};

use crate::caches::Caches;
use crate::delivery::{Raised, deliver};
use crate::processors::{Processors, pc_on, runner};
use pip_base::{Access, Frame, Outcome, Size, Steps};
use pip_frames::Frames;
use pip_mmu::{AccessFault, MmuFault};
use std::sync::ledger::Ledger;

// The vector of a fault.
fn vector_of(fault: AccessFault) -> u32
    ensures vector { result ≡ fault_vector (model_fault fault) }
    ensures small { result < 256 }
{
    match fault {
        AccessFault::Alignment => 17,
        AccessFault::Mmu(_) => 14,
    }
}

// The number of an access.
fn number_of(access: Access) -> u32
    ensures number { result ≡ access_number access }
    ensures small { result < 3 }
{
    match access {
        Access::Load => 0,
        Access::Store => 1,
        Access::Fetch => 2,
    }
}

// The number of a fault.
fn kind_of(fault: AccessFault) -> u32
    ensures kind { result ≡ fault_number (model_fault fault) }
    ensures small { result < 4 }
{
    match fault {
        AccessFault::Alignment => 0,
        AccessFault::Mmu(MmuFault::Unmapped) => 1,
        AccessFault::Mmu(MmuFault::Hidden) => 2,
        AccessFault::Mmu(MmuFault::Right) => 3,
    }
}

/// The same outcome, rebuilt from its parts, so that LLVM keeps only the parts of the kind that a caller asks for.
#[inline(always)]
pub(crate) fn by_parts(outcome: Outcome) -> Outcome
    ensures { result ≡ outcome }
{
    match outcome {
        Outcome::Word(word) => Outcome::Word(word),
        Outcome::Done => Outcome::Done,
        Outcome::Reply { status, value } => Outcome::Reply { status, value },
        Outcome::Switched { from, to, vector } => Outcome::Switched { from, to, vector },
        Outcome::Parked { from, vector } => Outcome::Parked { from, vector },
        Outcome::Idle => Outcome::Idle,
    }
}

// An access at an address that failed.
#[derive(Clone, Copy)]
struct FailedAccess {
    va: u32,
    access: Access,
    fault: AccessFault,
}

// Delivers the fault of an access by the partition that runs on a processor.
#[inline(always)]
fn deliver_fault<M: Frames, L: Ledger>(
    mem: &mut M,
    cpus: &mut Processors,
    cpu: u32,
    part: Frame,
    failed: FailedAccess,
    steps: &mut Steps<L>,
) -> Outcome
    requires world { HasWorld (M.memory mem.old) cpus.old.items }
    requires cpu { cpu < length cpus.old.items }
    requires runs { part_on cpus.old.items cpu ≡ Some part }
    ensures event { LeadsFrom (M.memory mem.old) cpus.old.items cpu
        (λ w r. deliver_fault w cpu r failed.va failed.access (model_fault failed.fault)) result
        (M.memory mem.new) cpus.new.items }
    ensures count { length cpus.new.items ≡ length cpus.old.items }
    ensures chain { InEach (M.memory mem.old) part (λ t x. steps.new ≤ steps.old + 8 * length (chain t part) + 76) }
{
    let raised = Raised {
        vector: vector_of(failed.fault),
        a: failed.va,
        b: 16 * number_of(failed.access) + kind_of(failed.fault),
    };
    by_parts(deliver(mem, cpus, cpu, part, raised, steps))
}

/// What runs on a processor reads a word or a byte.
#[inline(always)]
pub(crate) fn load<M: Frames, L: Ledger>(
    mem: &mut M,
    cpus: &mut Processors,
    caches: &mut Caches,
    cpu: u32,
    va: u32,
    size: Size,
    steps: &mut Steps<L>,
) -> Outcome
    requires world { HasCachedWorld (M.memory mem.old) cpus.old.items caches.old.items }
    requires cpu { cpu < length cpus.old.items }
    ensures event { LeadsWith (M.memory mem.old) cpus.old.items caches.old.items (E.Load cpu va size) result
        (M.memory mem.new) cpus.new.items caches.new.items }
    ensures count { length cpus.new.items ≡ length cpus.old.items }
    ensures each { length caches.new.items ≡ length caches.old.items }
    ensures hit { HitReadsOne caches.old.items cpus.old.items cpu (λ r. va) result steps.old steps.new }
    ensures work { TakesAtMost (StandsFor (M.memory mem.old) cpus.old.items) (E.Load cpu va size) steps.old steps.new }
{
    let Some(part) = runner(cpus, cpu) else {
        return Outcome::Idle;
    };
    match pip_mmu::load_through(
        mem,
        &mut caches[cpu as usize],
        part,
        va,
        size,
        Access::Load,
        steps,
    ) {
        Ok(word) => Outcome::Word(word),
        Err(fault) => {
            let failed = FailedAccess {
                va,
                access: Access::Load,
                fault,
            };
            deliver_fault(mem, cpus, cpu, part, failed, steps)
        }
    }
}

/// What is written at an address: a word, or a byte below 256.
#[derive(Clone, Copy)]
pub(crate) struct StoredWord {
    pub va: u32,
    pub size: Size,
    pub word: u32,
}

/// It writes a word or a byte.
#[inline(always)]
pub(crate) fn store<M: Frames, L: Ledger>(
    mem: &mut M,
    cpus: &mut Processors,
    caches: &mut Caches,
    cpu: u32,
    written: StoredWord,
    steps: &mut Steps<L>,
) -> Outcome
    requires world { HasCachedWorld (M.memory mem.old) cpus.old.items caches.old.items }
    requires cpu { cpu < length cpus.old.items }
    requires fits { written.word < below_of written.size }
    ensures event { LeadsWith (M.memory mem.old) cpus.old.items caches.old.items
        (E.Store cpu written.va written.size written.word)
        result (M.memory mem.new) cpus.new.items caches.new.items }
    ensures count { length cpus.new.items ≡ length cpus.old.items }
    ensures each { length caches.new.items ≡ length caches.old.items }
    ensures hit { HitReadsOne caches.old.items cpus.old.items cpu (λ r. written.va) result steps.old steps.new }
    ensures work { TakesAtMost (StandsFor (M.memory mem.old) cpus.old.items)
        (E.Store cpu written.va written.size written.word)
        steps.old steps.new }
{
    let Some(part) = runner(cpus, cpu) else {
        return Outcome::Idle;
    };
    let StoredWord { va, size, word } = written;
    match pip_mmu::store_through(mem, &mut caches[cpu as usize], part, va, size, word, steps) {
        Ok(()) => Outcome::Done,
        Err(fault) => {
            let failed = FailedAccess {
                va,
                access: Access::Store,
                fault,
            };
            deliver_fault(mem, cpus, cpu, part, failed, steps)
        }
    }
}

/// It fetches the word at its program counter.
#[inline(always)]
pub(crate) fn fetch<M: Frames, L: Ledger>(
    mem: &mut M,
    cpus: &mut Processors,
    caches: &mut Caches,
    cpu: u32,
    steps: &mut Steps<L>,
) -> Outcome
    requires world { HasCachedWorld (M.memory mem.old) cpus.old.items caches.old.items }
    requires cpu { cpu < length cpus.old.items }
    ensures event { LeadsWith (M.memory mem.old) cpus.old.items caches.old.items (E.Fetch cpu) result
        (M.memory mem.new) cpus.new.items caches.new.items }
    ensures count { length cpus.new.items ≡ length cpus.old.items }
    ensures each { length caches.new.items ≡ length caches.old.items }
    ensures hit { HitReadsOne caches.old.items cpus.old.items cpu (λ r. r.ctx.pc) result steps.old steps.new }
    ensures work { TakesAtMost (StandsFor (M.memory mem.old) cpus.old.items) (E.Fetch cpu) steps.old steps.new }
{
    let Some(part) = runner(cpus, cpu) else {
        return Outcome::Idle;
    };
    let pc = pc_on(cpus, cpu);
    match pip_mmu::fetch_through(mem, &mut caches[cpu as usize], part, pc, steps) {
        Ok(word) => Outcome::Word(word),
        Err(fault) => {
            let failed = FailedAccess {
                va: pc,
                access: Access::Fetch,
                fault,
            };
            deliver_fault(mem, cpus, cpu, part, failed, steps)
        }
    }
}

/// It raises a vector below 256, with two words.
pub(crate) fn trap<M: Frames, L: Ledger>(
    mem: &mut M,
    cpus: &mut Processors,
    cpu: u32,
    vector: u32,
    a: u32,
    b: u32,
    steps: &mut Steps<L>,
) -> Outcome
    requires world { HasWorld (M.memory mem.old) cpus.old.items }
    requires cpu { cpu < length cpus.old.items }
    requires vector { vector < 256 }
    ensures event { Leads (M.memory mem.old) cpus.old.items (λ w. what_happens w (E.Trap cpu vector a b)) result
        (M.memory mem.new) cpus.new.items }
    ensures count { length cpus.new.items ≡ length cpus.old.items }
    ensures work { TakesAtMost (StandsFor (M.memory mem.old) cpus.old.items) (E.Trap cpu vector a b)
        steps.old steps.new }
{
    let Some(part) = runner(cpus, cpu) else {
        return Outcome::Idle;
    };
    deliver(mem, cpus, cpu, part, Raised { vector, a, b }, steps)
}
