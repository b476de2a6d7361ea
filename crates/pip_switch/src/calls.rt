//! Calls of the kernel.
ghost use Rattle.std.specs.Prelude.{◌≡◌, ◌+◌, ◌<◌, ◌≤◌, ◌&&◌, ℕ, Some, if◌then◌else◌, length};
ghost use Rattle.std.specs.List.{AllByRecursion};
ghost use Rattle.pip_base.specs.Memory.{Memory};
ghost use Rattle.pip_kern.specs.Calls.{Does, DoesWithValue};
ghost use Rattle.pip_model.specs.Answers.{Answer, list_of, five_of};
ghost use Rattle.pip_model.specs.Events as E;
ghost use Rattle.pip_model.specs.Cache.{all_emptied};
ghost use Rattle.pip_model.specs.Happens as model;
ghost use Rattle.pip_model.specs.Happens.{call_named, is_accepted};
ghost use Rattle.pip_model.specs.Partitions.{HasPartition, InEach};
ghost use Rattle.pip_model.specs.Port.{TakesAtMost};
ghost use Rattle.pip_model.specs.Sound.{IsWord};
ghost use Rattle.pip_model.specs.Tree.{Tree};
ghost use Rattle.pip_model.specs.Work.{memory_work};
ghost use Rattle.pip_model.specs.Worlds.{World};
ghost use Rattle.pip_switch.specs.Occupied.{names_on};
ghost use Rattle.pip_switch.specs.Plain.{plain_world};
ghost use Rattle.pip_switch.specs.Standing.{CameWith, HasWorld, StandsFor};

use crate::caches::{Caches, empty_all};
use crate::contexts::put_reply;
use crate::processors::{Processors, names_of, runner};
use crate::switching::yield_to;
use pip_base::{Frame, Outcome, Status, Steps};
use pip_birth::{create_partition, delete_partition};
use pip_frames::Frames;
use pip_grow::{collect, count_to_map, prepare};
use pip_lend::{add_vaddr, mapped_in_child, remove_vaddr};
use pip_model::{CallName, MemoryCall};
use pip_space::set_masked;
use std::sync::ledger::Ledger;

// The status and the value of a call that has a value.
fn reply(answered: Result<u32, Status>) -> (Status, u32)
    ensures { (call : Tree → Answer) (p : ℕ) (m n : Memory) → DoesWithValue call p answered m n →
        Does call p result.0 result.1 m n }
{
    match answered {
        Ok(value) => (Status::Ok, value),
        Err(status) => (status, 0),
    }
}

// What each number names, from 0 on.
static NAMES: [CallName; 12] = [
    CallName::OnMemory(MemoryCall::CreatePartition),
    CallName::OnMemory(MemoryCall::DeletePartition),
    CallName::OnMemory(MemoryCall::CountToMap),
    CallName::OnMemory(MemoryCall::Prepare),
    CallName::OnMemory(MemoryCall::Collect),
    CallName::OnMemory(MemoryCall::AddVAddr),
    CallName::OnMemory(MemoryCall::RemoveVAddr),
    CallName::OnMemory(MemoryCall::MappedInChild),
    CallName::Yields,
    CallName::Unknown,
    CallName::Masks { masked: true },
    CallName::Masks { masked: false },
];

// What a number names.
fn named(number: u32) -> CallName
    ensures { result ≡ call_named number }
{
    match NAMES.get(number as usize) {
        Some(name) => *name,
        None => CallName::Unknown,
    }
}

/// Makes a call on memory, and answers its status and its value.
fn answer_on_memory<M: Frames, L: Ledger>(
    mem: &mut M,
    cpus: &Processors,
    caller: Frame,
    call: MemoryCall,
    args: &[u32; 5],
    steps: &mut Steps<L>,
) -> (Status, u32)
    requires world { HasWorld (M.memory mem.old) cpus.now.items }
    requires stands { HasPartition (M.memory mem.old) caller }
    ensures does { Does (λ t. model.answer call (plain_world t cpus.now.items) caller (five_of args.now)) caller
        result.0 result.1 (M.memory mem.old) (M.memory mem.new) }
    ensures work { InEach (M.memory mem.old) caller (λ t x.
        steps.new ≤ steps.old + memory_work call t (names_on cpus.now.items) caller (five_of args.now)) }
{
    let [x0, x1, x2, x3, _] = *args;
    match call {
        MemoryCall::CreatePartition => (create_partition(mem, caller, args, steps), 0),
        MemoryCall::DeletePartition => {
            (delete_partition(mem, caller, x0, &names_of(cpus), steps), 0)
        }
        MemoryCall::CountToMap => reply(count_to_map(mem, caller, x0, x1, steps)),
        MemoryCall::Prepare => reply(prepare(mem, caller, x0, x1, x2, steps)),
        MemoryCall::Collect => reply(collect(mem, caller, x0, x1, steps)),
        MemoryCall::AddVAddr => (add_vaddr(mem, caller, x0, x1, x2, x3, steps), 0),
        MemoryCall::RemoveVAddr => (remove_vaddr(mem, caller, x0, x1, steps), 0),
        MemoryCall::MappedInChild => reply(mapped_in_child(mem, caller, x0, steps)),
    }
}

// Whether an accepted call with this value takes pages from a partition.
fn takes_pages(call: MemoryCall, value: u32) -> bool
    ensures { result ≡ model.takes_pages call value }
{
    match call {
        MemoryCall::CreatePartition
        | MemoryCall::DeletePartition
        | MemoryCall::Collect
        | MemoryCall::RemoveVAddr => true,
        MemoryCall::Prepare => value != 0,
        _ => false,
    }
}

// Empties the caches after a call on memory, by its status and value.
fn empty_after(caches: &mut Caches, status: Status, call: MemoryCall, value: u32)
    ensures { caches.new.items ≡ (if is_accepted status && model.takes_pages call value
        then all_emptied caches.old.items else caches.old.items) }
{
    match status {
        Status::Ok => {
            if takes_pages(call, value) {
                empty_all(caches);
            }
        }
        _ => {}
    }
}

/// What runs on a processor makes a call. All caches are emptied if it is accepted and takes pages from a partition.
pub(crate) fn call<M: Frames, L: Ledger>(
    mem: &mut M,
    cpus: &mut Processors,
    caches: &mut Caches,
    cpu: u32,
    number: u32,
    args: &[u32; 5],
    steps: &mut Steps<L>,
) -> Outcome
    requires world { HasWorld (M.memory mem.old) cpus.old.items }
    requires cpu { cpu < length cpus.old.items }
    ensures event { (w : World) → StandsFor (M.memory mem.old) cpus.old.items w → w.caches ≡ caches.old.items →
        CameWith w (E.Call cpu number (five_of args.now)) result (M.memory mem.new) cpus.new.items caches.new.items }
    ensures count { length cpus.new.items ≡ length cpus.old.items }
    ensures each { length caches.new.items ≡ length caches.old.items }
    ensures words { AllByRecursion IsWord (list_of (five_of args.now)) }
    ensures work { TakesAtMost (StandsFor (M.memory mem.old) cpus.old.items) (E.Call cpu number (five_of args.now))
        steps.old steps.new }
{
    let Some(part) = runner(cpus, cpu) else {
        return Outcome::Idle;
    };
    match named(number) {
        CallName::OnMemory(call) => {
            let (status, value) = answer_on_memory(mem, cpus, part, call, args, steps);
            empty_after(caches, status, call, value);
            put_reply(cpus, cpu, status, value)
        }
        CallName::Masks { masked } => {
            set_masked(mem, part, masked);
            put_reply(cpus, cpu, Status::Ok, 0)
        }
        CallName::Yields => yield_to(mem, cpus, cpu, part, args, steps),
        CallName::Unknown => put_reply(cpus, cpu, Status::UnknownCall, 0),
    }
}
