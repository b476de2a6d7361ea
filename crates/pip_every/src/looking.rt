//! The test of a state, on a machine that stands there.
ghost use Rattle.std.specs.Prelude.{◌≡◌, ◌<◌, ◌||◌, ℕ, not, length};
ghost use Rattle.pip_every.specs.Menus.{Menu, deed_event, is_its, name_on};
ghost use Rattle.pip_model.specs.Events as E;
ghost use Rattle.pip_model.specs.Worlds.{World};
ghost use Rattle.pip_guests.specs.Sights.{event_passes};
ghost use Rattle.pip_switch.specs.Standing.{StandsAs};
ghost use Rattle.pip_away.specs.Blind.{sight_of};
ghost use Rattle.pip_every.specs.Away as tests;
ghost use Rattle.pip_every.specs.Away.{deed_answers, deeds_pass};

use crate::menus::{Deed, May, is_hostile, is_its};
use pip_away::{
    Blind, call_looks_away, is_confined, load_answers, load_looks_away, poll_looks_away,
    store_looks_away, trap_looks_away, turn_looks_away,
};
use pip_base::{Outcome, Size, Steps};
use pip_frames::Frames;
use pip_model::Port;
use pip_switch::Machine;
use std::sync::ledger::Ledger;

// Whether a trap of what runs on a processor reads no word that is left out.
fn vector_looks_away<M: Frames, L: Ledger>(
    machine: &Machine<M>,
    blind: &Blind,
    cpu: u32,
    vector: u8,
    steps: &mut Steps<L>,
) -> bool
    requires cpu { cpu < length machine.now.cpus }
    requires stands { (w : World) × StandsAs machine.now w }
    ensures { (w : World) (a b : ℕ) → StandsAs machine.now w → result
        ≡ event_passes blind.now.own.items (sight_of blind.now) w (E.Trap cpu vector a b) }
{
    trap_looks_away(machine, blind, cpu, u32::from(vector), steps)
}

// Whether a deed of what runs on a processor reads no word that is left out, or is a load that is answered.
fn deed_looks_away<M: Frames, L: Ledger>(
    machine: &Machine<M>,
    blind: &Blind,
    cpu: u32,
    deed: &Deed,
    steps: &mut Steps<L>,
) -> bool
    requires cpu { cpu < length machine.now.cpus }
    requires stands { (w : World) × StandsAs machine.now w }
    ensures { (w : World) → StandsAs machine.now w → result ≡ (deed_answers w cpu deed.now
        || event_passes blind.now.own.items (sight_of blind.now) w (deed_event cpu deed.now)) }
{
    match deed {
        Deed::Load { va, size } => {
            load_answers(machine, cpu, *va, *size, steps)
                || load_looks_away(machine, blind, cpu, *va, *size, steps)
        }
        Deed::StoreWord { va, .. } => {
            store_looks_away(machine, blind, cpu, *va, Size::Word, steps)
        }
        Deed::StoreByte { va, .. } => {
            store_looks_away(machine, blind, cpu, *va, Size::Byte, steps)
        }
        Deed::Trap { vector, .. } => { vector_looks_away(machine, blind, cpu, *vector, steps) }
        Deed::Call { number, args } => {
            call_looks_away(machine, blind, cpu, *number, args, steps)
        }
    }
}

// Whether a line of a menu is of another partition than runs on a processor, or its deed looks away.
fn may_looks_away<M: Frames, L: Ledger>(
    machine: &Machine<M>,
    blind: &Blind,
    cpu: u32,
    may: &May,
    steps: &mut Steps<L>,
) -> bool
    requires cpu { cpu < length machine.now.cpus }
    requires stands { (w : World) × StandsAs machine.now w }
    ensures { (w : World) → StandsAs machine.now w → result ≡ (not (is_its w.tree.root.name (name_on w cpu) may.now)
        || (deed_answers w cpu may.now.deed
        || event_passes blind.now.own.items (sight_of blind.now) w (deed_event cpu may.now.deed))) }
{
    !is_its(&machine.runs(cpu), may) || deed_looks_away(machine, blind, cpu, &may.deed, steps)
}

// Whether each deed of what runs on a processor does.
fn deeds_look_away<M: Frames, L: Ledger>(
    machine: &Machine<M>,
    blind: &Blind,
    menu: &[May],
    cpu: u32,
    steps: &mut Steps<L>,
) -> bool
    requires cpu { cpu < length machine.now.cpus }
    requires stands { (w : World) × StandsAs machine.now w }
    ensures { (w : World) → StandsAs machine.now w →
        result ≡ deeds_pass blind.now.own.items (sight_of blind.now) w cpu menu.now }
{
    for k in 0..menu.len() {
        if !may_looks_away(machine, blind, cpu, &menu[k], steps) {
            return false;
        }
    }
    true
}

// The test where a hostile partition runs. The machine may then be elsewhere.
fn hostile_looks_away<M: Frames, L: Ledger>(
    machine: &mut Machine<M>,
    blind: &Blind,
    menu: &[May],
    cpu: u32,
    steps: &mut Steps<L>,
) -> bool
    requires cpu { cpu < length machine.old.cpus }
    requires stands { (w : World) × StandsAs machine.old w }
    ensures away { (w : World) → StandsAs machine.old w →
        result ≡ tests.hostile_looks_away blind.now.own.items (sight_of blind.now) menu.now w cpu }
    ensures count { length machine.new.cpus ≡ length machine.old.cpus }
{
    if !poll_looks_away(machine, blind, cpu, steps) {
        return false;
    }
    if !is_confined(machine, blind, cpu, steps) {
        return false;
    }
    if deeds_look_away(machine, blind, menu, cpu, steps) {
        return true;
    }
    match machine.poll(cpu, steps) {
        Outcome::Done => false,
        _ => true,
    }
}

/// Whether a state passes the test on a processor, with this menu: the turn there reads no word that is left out; where
/// a partition of the menu runs, neither the poll nor its deeds do, and it is confined. The machine may then be
/// elsewhere.
pub fn looks_away<M: Frames, L: Ledger>(
    machine: &mut Machine<M>,
    blind: &Blind,
    menu: &[May],
    cpu: u32,
    steps: &mut Steps<L>,
) -> bool
    requires cpu { cpu < length machine.old.cpus }
    requires stands { (w : World) × StandsAs machine.old w }
    ensures away { (w : World) (g : Menu) → StandsAs machine.old w → g.may ≡ menu.now →
        result ≡ tests.looks_away blind.now.own.items (sight_of blind.now) g w cpu }
    ensures count { length machine.new.cpus ≡ length machine.old.cpus }
{
    if is_hostile(&machine.runs(cpu), menu) {
        return hostile_looks_away(machine, blind, menu, cpu, steps);
    }
    turn_looks_away(machine, blind, cpu, steps)
}
