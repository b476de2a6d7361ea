//! Faults and traps.
ghost use Rattle.std.specs.Prelude.{◌≡◌, ◌<◌, ◌||◌};
ghost use Rattle.std.specs.List.{list_any};
ghost use Rattle.pip_model.specs.Lists.{has};
ghost use Rattle.pip_model.specs.Happens.{fault_vector};
ghost use Rattle.pip_model.specs.Partitions.{HasPartition, InEach};
ghost use Rattle.pip_model.specs.Reach.{Reached};
ghost use Rattle.pip_model.specs.Tree.{chain};
ghost use Rattle.pip_mmu.specs.Answers.{place_answer};
ghost use Rattle.pip_mmu.specs.Faults.{model_fault};
ghost use Rattle.pip_guests.specs.Sights as tests;
ghost use Rattle.pip_switch.specs.Occupied.{names_on, runs_name};
ghost use Rattle.pip_switch.specs.Plain.{plain_world};
ghost use Rattle.pip_away.specs.Blind.{sight_of};

use crate::blind::Blind;
use crate::handlers::{handler_misses, save_misses};
use pip_base::{Frame, Size, Steps, never};
use pip_frames::Frames;
use pip_kern::parent_of;
use pip_mmu::AccessFault;
use pip_model::Occupant;
use pip_model::call_number::SAVED;
use std::sync::ledger::Ledger;

// Whether a partition runs there.
fn runs(cpu: &Option<Occupant>, part: Frame) -> bool
    ensures { result ≡ runs_name part cpu.now }
{
    match cpu {
        Some(r) => r.name == part,
        None => false,
    }
}

// Whether a partition runs on one of the processors.
fn is_running(cpus: &[Option<Occupant>], part: Frame) -> bool
    ensures { result ≡ list_any (λ cpu. runs_name part cpu) cpus.now }
{
    cpus.iter().any(|cpu| runs(cpu, part))
}

// Whether a partition runs, or its handler for a vector isn't left out.
fn is_passed<M: Frames, L: Ledger>(
    mem: &M,
    cpus: &[Option<Occupant>],
    blind: &Blind,
    part: Frame,
    vector: u32,
    steps: &mut Steps<L>,
) -> bool
    requires { HasPartition (M.memory mem.now) part }
    ensures { InEach (M.memory mem.now) part (λ t x. result ≡ (has (names_on cpus.now) part
        || tests.handler_passes blind.now.own.items (sight_of blind.now) t part vector)) }
{
    is_running(cpus, part) || handler_misses(mem, blind, part, vector, steps)
}

// So it is for each partition above one.
fn above_miss<M: Frames, L: Ledger>(
    mem: &M,
    cpus: &[Option<Occupant>],
    blind: &Blind,
    part: Frame,
    vector: u32,
    steps: &mut Steps<L>,
) -> bool
    requires { HasPartition (M.memory mem.now) part }
    ensures { InEach (M.memory mem.now) part (λ t x. result ≡ tests.above_pass blind.now.own.items
        (sight_of blind.now) (plain_world t cpus.now) vector (chain t part)) }
{
    let mut at = part;
    for _i in 0..mem.count() {
        let up = parent_of(mem, at, steps);
        if up == at {
            return true;
        }
        if !is_passed(mem, cpus, blind, up, vector, steps) {
            return false;
        }
        at = up;
    }
    never!()
}

/// Whether a vector that a partition raises is delivered without a word that is left out: no handler above it is, nor
/// is its entry for the vector by which it is saved. One of these partitions is saved in words that are left out.
pub(crate) fn delivery_misses<M: Frames, L: Ledger>(
    mem: &M,
    cpus: &[Option<Occupant>],
    blind: &Blind,
    part: Frame,
    vector: u32,
    steps: &mut Steps<L>,
) -> bool
    requires { HasPartition (M.memory mem.now) part }
    ensures { InEach (M.memory mem.now) part (λ t x. result ≡ tests.delivery_passes blind.now.own.items
        (sight_of blind.now) (plain_world t cpus.now) part vector) }
{
    above_miss(mem, cpus, blind, part, vector, steps) && save_misses(mem, blind, part, SAVED, steps)
}

// The vector of a fault.
fn vector_of(fault: AccessFault) -> u32
    ensures { result ≡ fault_vector (model_fault fault) }
{
    match fault {
        AccessFault::Alignment => 17,
        AccessFault::Mmu(_) => 14,
    }
}

/// Whether a load or a fetch that leads there, or faults, reads no word that is left out.
pub(crate) fn read_misses<M: Frames, L: Ledger>(
    mem: &M,
    cpus: &[Option<Occupant>],
    blind: &Blind,
    part: Frame,
    found: Result<(Frame, u32), AccessFault>,
    steps: &mut Steps<L>,
) -> bool
    requires { HasPartition (M.memory mem.now) part }
    ensures { InEach (M.memory mem.now) part (λ t x. (q : Reached) → found ≡ place_answer q → result
        ≡ tests.load_passes blind.now.own.items (sight_of blind.now) (plain_world t cpus.now) part q) }
{
    match found {
        Ok(place) => blind.sees(place.0, place.1),
        Err(fault) => delivery_misses(mem, cpus, blind, part, vector_of(fault), steps),
    }
}

/// Whether a store that leads there, or faults, reads none. A byte leaves the others of an entry.
pub(crate) fn write_misses<M: Frames, L: Ledger>(
    mem: &M,
    cpus: &[Option<Occupant>],
    blind: &Blind,
    part: Frame,
    size: Size,
    found: Result<(Frame, u32), AccessFault>,
    steps: &mut Steps<L>,
) -> bool
    requires { HasPartition (M.memory mem.now) part }
    ensures { InEach (M.memory mem.now) part (λ t x. (q : Reached) → found ≡ place_answer q → result
        ≡ tests.store_passes blind.now.own.items (sight_of blind.now) (plain_world t cpus.now) part size q) }
{
    match found {
        Ok(place) => blind.stores(place.0, place.1, size),
        Err(fault) => delivery_misses(mem, cpus, blind, part, vector_of(fault), steps),
    }
}
