//! Events, each before it is made.
ghost use Rattle.std.specs.Prelude.{◌≡◌, ◌<◌, ℕ, Some, length};
ghost use Rattle.pip_model.specs.Answers.{five_of};
ghost use Rattle.pip_model.specs.Events as E;
ghost use Rattle.pip_model.specs.Worlds.{World, runs_on};
ghost use Rattle.pip_model.specs.declared.processors.Occupant.{Occupant};
ghost use Rattle.pip_model.specs.Handlers.{is_reached};
ghost use Rattle.pip_model.specs.Reach.{reach};
ghost use Rattle.pip_guests.specs.Sights.{event_passes, if_runs};
ghost use Rattle.pip_switch.specs.Standing.{StandsAs};
ghost use Rattle.pip_away.specs.Blind.{sight_of};

use crate::blind::Blind;
use crate::calls::call_misses;
use crate::delivery::{delivery_misses, read_misses, write_misses};
use crate::handlers::save_misses;
use crate::lines::lines_miss;
use crate::places::locate;
use pip_base::{Access, Size, Steps};
use pip_frames::Frames;
use pip_model::Port;
use pip_model::call_number::SAVED;
use pip_switch::Machine;
use std::sync::ledger::Ledger;

/// Whether what runs on a processor loads no word that is left out, also where the load faults.
pub fn load_looks_away<M: Frames, L: Ledger>(
    machine: &Machine<M>,
    blind: &Blind,
    cpu: u32,
    va: u32,
    size: Size,
    steps: &mut Steps<L>,
) -> bool
    requires cpu { cpu < length machine.now.cpus }
    requires stands { (w : World) × StandsAs machine.now w }
    ensures { (w : World) → StandsAs machine.now w → result
        ≡ event_passes blind.now.own.items (sight_of blind.now) w (E.Load cpu va size) }
{
    match machine.runs(cpu) {
        None => true,
        Some(part) => {
            let mem = machine.mem();
            let found = locate(mem, part, va, size, Access::Load, steps);
            read_misses(mem, machine.processors(), blind, part, found, steps)
        }
    }
}

/// Whether a load of what runs on a processor, if anything does, is answered.
pub fn load_answers<M: Frames, L: Ledger>(
    machine: &Machine<M>,
    cpu: u32,
    va: u32,
    size: Size,
    steps: &mut Steps<L>,
) -> bool
    requires cpu { cpu < length machine.now.cpus }
    requires stands { (w : World) × StandsAs machine.now w }
    ensures { (w : World) → StandsAs machine.now w → result
        ≡ if_runs (runs_on w cpu) (λ r. is_reached (reach w.tree r.name va Access.Load size)) }
{
    match machine.runs(cpu) {
        None => true,
        Some(part) => match locate(machine.mem(), part, va, size, Access::Load, steps) {
            Ok(_) => true,
            Err(_) => false,
        },
    }
}

/// Whether a store of it reads none, where it faults, and stores no byte to an entry whose class is seen.
pub fn store_looks_away<M: Frames, L: Ledger>(
    machine: &Machine<M>,
    blind: &Blind,
    cpu: u32,
    va: u32,
    size: Size,
    steps: &mut Steps<L>,
) -> bool
    requires cpu { cpu < length machine.now.cpus }
    requires stands { (w : World) × StandsAs machine.now w }
    ensures { (w : World) (word : ℕ) → StandsAs machine.now w → result
        ≡ event_passes blind.now.own.items (sight_of blind.now) w (E.Store cpu va size word) }
{
    match machine.runs(cpu) {
        None => true,
        Some(part) => {
            let mem = machine.mem();
            let found = locate(mem, part, va, size, Access::Store, steps);
            write_misses(mem, machine.processors(), blind, part, size, found, steps)
        }
    }
}

// The pc of what runs on a processor. 0 where nothing does.
fn pc_on<M: Frames>(machine: &Machine<M>, cpu: u32) -> u32
    requires { cpu < length machine.now.cpus }
    ensures { (w : World) (r : Occupant) → StandsAs machine.now w → runs_on w cpu ≡ Some r → result ≡ r.ctx.pc }
{
    match machine.ctx(cpu) {
        Some(ctx) => ctx.pc,
        None => 0,
    }
}

/// Whether it isn't one of these partitions, and fetches no word that is left out, also where the fetch faults.
pub fn fetch_looks_away<M: Frames, L: Ledger>(
    machine: &Machine<M>,
    blind: &Blind,
    cpu: u32,
    steps: &mut Steps<L>,
) -> bool
    requires cpu { cpu < length machine.now.cpus }
    requires stands { (w : World) × StandsAs machine.now w }
    ensures { (w : World) → StandsAs machine.now w → result
        ≡ event_passes blind.now.own.items (sight_of blind.now) w (E.Fetch cpu) }
{
    let Some(part) = machine.runs(cpu) else {
        return true;
    };
    if blind.is_own(part) {
        return false;
    }
    let pc = pc_on(machine, cpu);
    let mem = machine.mem();
    let found = locate(mem, part, pc, Size::Word, Access::Fetch, steps);
    read_misses(mem, machine.processors(), blind, part, found, steps)
}

/// Whether a trap of it reads none.
pub fn trap_looks_away<M: Frames, L: Ledger>(
    machine: &Machine<M>,
    blind: &Blind,
    cpu: u32,
    vector: u32,
    steps: &mut Steps<L>,
) -> bool
    requires cpu { cpu < length machine.now.cpus }
    requires stands { (w : World) × StandsAs machine.now w }
    ensures { (w : World) (a b : ℕ) → StandsAs machine.now w → result
        ≡ event_passes blind.now.own.items (sight_of blind.now) w (E.Trap cpu vector a b) }
{
    match machine.runs(cpu) {
        None => true,
        Some(part) => delivery_misses(
            machine.mem(),
            machine.processors(),
            blind,
            part,
            vector,
            steps,
        ),
    }
}

/// Whether a call of it reads none.
pub fn call_looks_away<M: Frames, L: Ledger>(
    machine: &Machine<M>,
    blind: &Blind,
    cpu: u32,
    number: u32,
    args: &[u32; 5],
    steps: &mut Steps<L>,
) -> bool
    requires cpu { cpu < length machine.now.cpus }
    requires stands { (w : World) × StandsAs machine.now w }
    ensures { (w : World) → StandsAs machine.now w → result
        ≡ event_passes blind.now.own.items (sight_of blind.now) w (E.Call cpu number (five_of args.now)) }
{
    match machine.runs(cpu) {
        None => true,
        Some(part) => call_misses(machine.mem(), blind, part, number, args, steps),
    }
}

/// Whether a poll reads none, and saves what runs so, too.
pub fn poll_looks_away<M: Frames, L: Ledger>(
    machine: &Machine<M>,
    blind: &Blind,
    cpu: u32,
    steps: &mut Steps<L>,
) -> bool
    requires cpu { cpu < length machine.now.cpus }
    requires stands { (w : World) × StandsAs machine.now w }
    ensures { (w : World) → StandsAs machine.now w → result
        ≡ event_passes blind.now.own.items (sight_of blind.now) w (E.Poll cpu) }
{
    if !lines_miss(machine.mem(), blind, steps) {
        return false;
    }
    match machine.runs(cpu) {
        None => true,
        Some(part) => save_misses(machine.mem(), blind, part, SAVED, steps),
    }
}
