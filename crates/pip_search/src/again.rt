//! Whether a label can come again, wherever a search that closed leads.
ghost use Rattle.std.specs.Prelude.{◌≡◌, ◌≤◌, ◌<◌, ◌+◌, ◌*◌, ◌^◌, false, IfOk, IsTrue, MatchOption, Some, length};
ghost use Rattle.std.specs.Prelude.{slice_get};
ghost use Rattle.pip_search.specs.Again as again;
ghost use Rattle.pip_search.specs.Again.{AreEdges, AreFlags, CanComeAgain, HasClosed, IsEdge, IsLost, IsShownAmong};
ghost use Rattle.pip_search.specs.Again.{ShowsAt, ShowsOther};
ghost use Rattle.pip_search.specs.Filing.{IsFiled};
ghost use Rattle.pip_search.specs.Keys.{IsAtHand, Keyed, key_of, visits_of};
ghost use Rattle.pip_search.specs.Summary.{HasOneKey};
ghost use Rattle.pip_search.specs.Systems.{IsKey};
ghost use Rattle.pip_search.specs.Ways.{way_to};

use crate::graph::spread;
use crate::hashes::hash_bytes;
use crate::index::Index;
use crate::names::{find, is_same};
use crate::packing::pack;
use crate::searching::{Buffers, Search};
use crate::system::System;
use std::alloc::{AllocError, Global};

// Makes a choice of visit `i`, whose key is at hand. The visit to which it leads, and whether it shows the label.
pub(crate) fn look<S: System>(
    search: &Search,
    system: &mut S,
    start: &[u32],
    buffers: &mut Buffers,
    label: &[u8],
    i: usize,
    choice: u32,
) -> Result<(u32, bool), AllocError>
    requires key { IsKey (S.model (S.base system.old)) start.now }
    requires one { HasOneKey (S.model (S.base system.old)) }
    requires closed { HasClosed (S.model (S.base system.old)) start.now search.now }
    requires place { i < length search.now.visits.items }
    requires few { length search.now.visits.items ≤ 2 ^ 32 }
    requires choice { choice < (S.model (S.base system.old)).choices }
    requires hand { IsAtHand (visits_of search.now) i buffers.old.from.items }
    ensures edge { IfOk result (λ r. IsEdge (S.model (S.base system.old)) (visits_of search.now)
        buffers.old.from.items choice r.0) }
    ensures shows { IfOk result (λ r. IsTrue r.1
        → ShowsAt (S.model (S.base system.old)) buffers.old.from.items choice label.now) }
    ensures other { IfOk result (λ r. r.1 ≡ false
        → ShowsOther (S.model (S.base system.old)) buffers.old.from.items choice label.now) }
    ensures hand { buffers.new.from.items ≡ buffers.old.from.items }
    ensures base { S.base system.new ≡ S.base system.old }
{
    buffers.to.clear();
    buffers.shown.clear();
    system.make(
        buffers.from.as_slice(),
        choice,
        &mut buffers.to,
        &mut buffers.shown,
    )?;
    pack(&buffers.to, &mut buffers.bytes)?;
    let hash = hash_bytes(search.keys.seed, &buffers.bytes);
    match find(&search.store, &search.keys, &buffers.bytes, hash) {
        Some(to) => Ok((to as u32, is_same(&buffers.shown, label))),
        None => unreachable!(),
    }
}

// Makes the first choices of visit `i`, and adds where they lead. Whether one of them shows the label.
fn look_around<S: System>(
    search: &Search,
    system: &mut S,
    alloc: Global,
    start: &[u32],
    buffers: &mut Buffers,
    label: &[u8],
    i: usize,
    width: u32,
    edges: &mut Index,
) -> Result<bool, AllocError>
    requires key { IsKey (S.model (S.base system.old)) start.now }
    requires one { HasOneKey (S.model (S.base system.old)) }
    requires closed { HasClosed (S.model (S.base system.old)) start.now search.now }
    requires place { i < length search.now.visits.items }
    requires few { length search.now.visits.items ≤ 2 ^ 32 }
    requires width { width ≤ (S.model (S.base system.old)).choices }
    requires filed { IsFiled edges.old }
    requires edges { AreEdges (S.model (S.base system.old)) (visits_of search.now) width edges.old.hashes.items }
    requires count { length edges.old.hashes.items ≡ i * width }
    ensures flag { IfOk result (λ shows. (u : Keyed) → slice_get (visits_of search.now) i ≡ Some u
        → IsShownAmong (S.model (S.base system.old)) (key_of u) label.now width shows) }
    ensures filed { IfOk result (λ _. IsFiled edges.new) }
    ensures edges { IfOk result (λ _. AreEdges (S.model (S.base system.old)) (visits_of search.now) width
        edges.new.hashes.items) }
    ensures count { IfOk result (λ _. length edges.new.hashes.items ≡ (i + 1) * width) }
    ensures base { S.base system.new ≡ S.base system.old }
{
    search.read_key(i, &mut buffers.bytes, &mut buffers.from)?;
    let mut shows = false;
    for choice in 0..width {
        let (to, shown) = look(search, system, start, buffers, label, i, choice)?;
        edges.add(alloc, to)?;
        if shown {
            shows = true;
        }
    }
    Ok(shows)
}

// Where the first choices of all visits lead, and for each visit whether one of them shows the label.
fn look_everywhere<S: System>(
    search: &Search,
    system: &mut S,
    alloc: Global,
    start: &[u32],
    label: &[u8],
    width: u32,
) -> Result<(Index, Vec<bool>), AllocError>
    requires key { IsKey (S.model (S.base system.old)) start.now }
    requires one { HasOneKey (S.model (S.base system.old)) }
    requires closed { HasClosed (S.model (S.base system.old)) start.now search.now }
    requires few { length search.now.visits.items ≤ 2 ^ 32 }
    requires width { width ≤ (S.model (S.base system.old)).choices }
    ensures filed { IfOk result (λ r. IsFiled r.0) }
    ensures edges { IfOk result (λ r. AreEdges (S.model (S.base system.old)) (visits_of search.now) width
        r.0.hashes.items) }
    ensures flags { IfOk result (λ r. AreFlags (S.model (S.base system.old)) (visits_of search.now) label.now width
        r.1.items) }
    ensures count { IfOk result (λ r. length r.0.hashes.items ≡ length search.now.visits.items * width) }
    ensures places { IfOk result (λ r. length r.1.items ≡ length search.now.visits.items) }
    ensures base { S.base system.new ≡ S.base system.old }
{
    let mut buffers = Buffers::new(alloc);
    let mut edges = Index::new(alloc)?;
    let mut flags = Vec::new(alloc);
    for i in 0..search.visits.len() {
        let shows = look_around(
            search,
            system,
            alloc,
            start,
            &mut buffers,
            label,
            i,
            width,
            &mut edges,
        )?;
        flags.push(shows)?;
    }
    Ok((edges, flags))
}

/// Whether a label that a search looked for can come again wherever its choices lead, by the first `width` choices
/// alone; if not, the visit after which it can't, to which the first way leads of all such. The search has closed, and
/// no state has two keys. The only error is that memory is out.
pub fn come_again<S: System>(
    search: &Search,
    system: &mut S,
    alloc: Global,
    start: &[u32],
    label: &[u8],
    width: u32,
) -> Result<Option<usize>, AllocError>
    requires key { IsKey (S.model (S.base system.old)) start.now }
    requires one { HasOneKey (S.model (S.base system.old)) }
    requires closed { HasClosed (S.model (S.base system.old)) start.now search.now }
    requires few { length search.now.visits.items ≤ 2 ^ 32 }
    requires some { 0 < width }
    requires width { width ≤ (S.model (S.base system.old)).choices }
    ensures again { IfOk result (λ r. (x : (S.model (S.base system.old)).State)
        → (S.model (S.base system.old)).stands start.now x
        → MatchOption r (CanComeAgain (S.model (S.base system.old)) width x label.now)
        (λ j. IsLost (S.model (S.base system.old)) width x label.now (way_to search.now.visits.items j))) }
    ensures place { IfOk result (λ r. MatchOption r (Unit {0}) (λ j. j < length search.now.visits.items)) }
    ensures base { S.base system.new ≡ S.base system.old }
{
    let (edges, mut marks) = look_everywhere(search, system, alloc, start, label, width)?;
    spread(alloc, &edges, width as usize, &mut marks)?;
    for place in 0..marks.len() {
        if !marks[place] {
            return Ok(Some(place));
        }
    }
    Ok(None)
}
