//! Searches of guests, each alone.
ghost use Rattle.std.specs.Prelude.{◌≡◌, ◌<◌, ℕ, true, IfOk, length, map};
ghost use Rattle.std.specs.List.{AllByRecursion, list_any};
ghost use Rattle.pip_base.specs.Memory.{IsMemory};
ghost use Rattle.pip_model.specs.Worlds.{World};
ghost use Rattle.pip_search.specs.Summary.{IsTold};
ghost use Rattle.pip_search.specs.Ways.{AreTraced, witnesses_of};
ghost use Rattle.pip_switch.specs.Standing.{StandsAs};
ghost use Rattle.pip_search.specs.declared.searching.Extent.TheVariants.{Closed};
ghost use Rattle.pip_apart.specs.Alone.{NoneLeaves, guest_model};
ghost use Rattle.pip_apart.specs.Found as found;
ghost use Rattle.pip_apart.specs.Found.{AreFound, IsFoundAt, IsKnownAt};
ghost use Rattle.pip_apart.specs.Searches.{CanBeShown, IsGuestKey, alone_of, known_of};

use crate::guest::{Guest, MARK};
use crate::guests::{root_on, tops};
use crate::taken::first_taken;
use pip_base::{Frame, Steps};
use pip_every::{First, Journal, ways_of};
use pip_model::ROOT;
use pip_search::{Extent, Run, Search, explore};
use pip_switch::Machine;
use std::alloc::{AllocError, Global};
use std::sync::ledger::Ledger;

/// Searches what a guest does alone, from the worlds for which its machine stands, of which there is one. It ends where
/// nothing new is found, with all worlds to which `most` turns lead, or where there are more worlds than `limit`, which
/// isn't 0. The only error is that memory is out.
pub fn search_guest<F: First, L: Ledger>(
    guest: &mut Guest<F, L>,
    alloc: Global,
    most: u32,
    limit: u32,
) -> Result<(Search, Extent), AllocError>
    requires stands { (w : World) × StandsAs guest.old.machine w }
    requires limit { 0 < limit }
    ensures told { IfOk result (λ r. (w : World) → StandsAs guest.old.machine w
        → IsTold (guest_model F.words (length guest.old.machine.cpus) guest.old.top guest.old.cpus.items) w most limit
        (witnesses_of r.1 r.0.visits.items r.0.found.items) (length r.0.visits.items) r.1) }
    ensures traced { IfOk result (λ r. AreTraced r.0.visits.items r.0.found.items) }
{
    let mut start = Vec::new(alloc);
    guest.add_key(&mut start)?;
    search_key(guest, alloc, start.as_slice(), most, limit)
}

/// What was found of a guest that was searched alone: its top, its processors, how the search ended, and the ways to
/// the labels.
#[derive(Drop)]
pub struct GuestSearch {
    pub top: Frame,
    pub cpus: Vec<u32>,
    pub search: Search,
    pub end: Extent,
    pub ways: Vec<Vec<Run>>,
}

// Searches what the guest of a machine does alone, from the worlds of a key.
fn search_key<F: First, L: Ledger>(
    guest: &mut Guest<F, L>,
    alloc: Global,
    start: &[u32],
    most: u32,
    limit: u32,
) -> Result<(Search, Extent), AllocError>
    requires key { (w : World) × IsGuestKey F.words (length guest.old.machine.cpus) start.now w }
    requires limit { 0 < limit }
    ensures told { IfOk result (λ r. (w : World) → IsGuestKey F.words (length guest.old.machine.cpus) start.now w
        → IsTold (guest_model F.words (length guest.old.machine.cpus) guest.old.top guest.old.cpus.items) w most limit
        (witnesses_of r.1 r.0.visits.items r.0.found.items) (length r.0.visits.items) r.1) }
    ensures traced { IfOk result (λ r. AreTraced r.0.visits.items r.0.found.items) }
    ensures count { length guest.new.machine.cpus ≡ length guest.old.machine.cpus }
{
    explore(guest, alloc, start, most, limit)
}

// Searches what a guest does alone, from the worlds of a key.
fn search_top<F: First, L: Ledger>(
    guest: &mut Guest<F, L>,
    alloc: Global,
    start: &[u32],
    top: Frame,
    most: u32,
    limit: u32,
) -> Result<GuestSearch, AllocError>
    requires key { (w : World) × IsGuestKey F.words (length guest.old.machine.cpus) start.now w }
    requires limit { 0 < limit }
    ensures found { IfOk result (λ r. (w : World) → IsGuestKey F.words (length guest.old.machine.cpus) start.now w
        → IsFoundAt F.words w most limit (alone_of r)) }
    ensures top { IfOk result (λ r. r.top ≡ top) }
    ensures shown { IfOk result CanBeShown }
    ensures count { length guest.new.machine.cpus ≡ length guest.old.machine.cpus }
{
    guest.go_to(start);
    let cpus = guest.find_processors(alloc, top)?;
    let mut own = Vec::new(alloc);
    own.extend_from_slice(cpus.as_slice())?;
    guest.aim(top, own);
    let (search, end) = search_key(guest, alloc, start, most, limit)?;
    let ways = ways_of(alloc, &search)?;
    Ok(GuestSearch {
        top,
        cpus,
        search,
        end,
        ways,
    })
}

// Searches what each of these guests does alone, from the worlds of a key.
fn search_tops<F: First, L: Ledger>(
    guest: &mut Guest<F, L>,
    alloc: Global,
    start: &[u32],
    tops: &[Frame],
    most: u32,
    limit: u32,
) -> Result<Vec<GuestSearch>, AllocError>
    requires key { (w : World) × IsGuestKey F.words (length guest.old.machine.cpus) start.now w }
    requires limit { 0 < limit }
    ensures tops { IfOk result (λ r. map (λ s. s.top) r.items ≡ tops.now) }
    ensures each { IfOk result (λ r. (w : World) → IsGuestKey F.words (length guest.old.machine.cpus) start.now w
        → AllByRecursion (IsFoundAt F.words w most limit) (map alone_of r.items)) }
    ensures shown { IfOk result (λ r. AllByRecursion CanBeShown r.items) }
{
    let mut found = Vec::new(alloc);
    for top in tops {
        found.push(search_top(guest, alloc, start, *top, most, limit)?)?;
    }
    Ok(found)
}

/// Searches each guest of a machine alone, from the worlds for which it stands, of which there is one: the children of
/// the root below which something runs, in the order of the first processor of each. Each search ends as that of
/// `search_guest`. The only error is that memory is out.
pub fn search_guests<F: First, L: Ledger>(
    alloc: Global,
    machine: Machine<Journal<F>>,
    most: u32,
    limit: u32,
    steps: Steps<L>,
) -> Result<Vec<GuestSearch>, AllocError>
    requires shape { IsMemory F.words }
    requires stands { (w : World) × StandsAs machine w }
    requires limit { 0 < limit }
    ensures found { IfOk result (λ r. (w : World) → StandsAs machine w → AreFound w most limit (map alone_of r.items)) }
    ensures shown { IfOk result (λ r. AllByRecursion CanBeShown r.items) }
{
    let mut steps = steps;
    let tops = tops(&machine, &mut steps);
    let root = Frame::new(ROOT);
    let mut guest = Guest::new(alloc, machine, root, Vec::new(alloc), steps);
    let mut start = Vec::new(alloc);
    guest.add_key(&mut start)?;
    let (start, tops) = (start.as_slice(), tops.as_slice());
    search_tops(&mut guest, alloc, start, tops, most, limit)
}

/// Whether a label begins with the mark of a turn in which the guest leaves.
pub fn is_marked(label: &[u8]) -> bool
    ensures { result ≡ found.is_marked label.now }
{
    match label.first() {
        Some(byte) => *byte == MARK,
        None => false,
    }
}

// Whether a label begins with the mark.
fn some_marked(search: &Search) -> bool
    ensures { result ≡ list_any (λ f. found.is_marked f.label.items) search.now.found.items }
{
    for found in &search.found {
        if is_marked(found.label.as_slice()) {
            return true;
        }
    }
    false
}

/// Whether the guest stays inside: its search closed, and found no turn in which it leaves.
pub fn stays(search: &Search, verdict: Extent) -> bool
    ensures leaves { result ≡ true → (depth : ℕ) × ((verdict ≡ Closed depth)
        × NoneLeaves (witnesses_of verdict search.now.visits.items search.now.found.items)) }
    ensures is { result ≡ found.stays verdict
        (witnesses_of verdict search.now.visits.items search.now.found.items) }
{
    match verdict {
        Extent::Closed { .. } => !some_marked(search),
        _ => false,
    }
}

/// What is known of a machine's guests: what each does alone, the first processor on which the root runs, and the first
/// line that the root might take.
#[derive(Drop)]
pub struct Knowledge {
    pub guests: Vec<GuestSearch>,
    pub root: Option<u32>,
    pub line: Option<u32>,
}

/// Finds out what can be known of the guests of a machine, by a search of each from the worlds for which the machine
/// stands. The only error is that memory is out.
pub fn find_out<F: First, L: Ledger>(
    alloc: Global,
    machine: Machine<Journal<F>>,
    most: u32,
    limit: u32,
    steps: Steps<L>,
) -> Result<Knowledge, AllocError>
    requires shape { IsMemory F.words }
    requires stands { (w : World) × StandsAs machine w }
    requires limit { 0 < limit }
    ensures known { IfOk result (λ r. (w : World) → StandsAs machine w → IsKnownAt w most limit (known_of r)) }
    ensures shown { IfOk result (λ r. AllByRecursion CanBeShown r.guests.items) }
{
    let mut steps = steps;
    let root = root_on(&machine);
    let line = first_taken(machine.mem(), &mut steps);
    let guests = search_guests(alloc, machine, most, limit, steps)?;
    Ok(Knowledge { guests, root, line })
}

// Whether each guest stays inside.
fn all_stay(guests: &[GuestSearch]) -> bool
    ensures { result ≡ found.all_stay (map alone_of guests.now) }
{
    for guest in guests {
        if !stays(&guest.search, guest.end) {
            return false;
        }
    }
    true
}

/// Whether what is known says that the guests hold in company: each stays inside, the root runs nowhere, and takes no
/// line.
pub fn hold_apart(known: &Knowledge) -> bool
    ensures { result ≡ found.hold_apart (known_of known.now) }
{
    all_stay(known.guests.as_slice()) && known.root.is_none() && known.line.is_none()
}
