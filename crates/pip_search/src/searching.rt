//! The search.
ghost use Rattle.std.specs.Prelude.{◌≡◌, ◌<◌, ◌≤◌, ◌+◌, ◌^◌, ℕ, false, slice_get, IfOk, IsTrue, length, vec_len};
ghost use Rattle.pip_search.specs.Again.{HasClosed};
ghost use Rattle.pip_search.specs.Began.{HasBegun};
ghost use Rattle.pip_search.specs.Ending.{Ends, IsBeyond};
ghost use Rattle.pip_search.specs.Fresh.{AreFresh};
ghost use Rattle.pip_search.specs.Keys.{AreKept, HaveKeys, IsAtHand, keys, labels, steps_of, visits_of};
ghost use Rattle.pip_search.specs.Naming.{AreDistinct, AreNamed};
ghost use Rattle.pip_search.specs.Reached.{Explains};
ghost use Rattle.pip_search.specs.Searching.{IsSearching};
ghost use Rattle.pip_search.specs.Systems.{IsKey};
ghost use Rattle.pip_search.specs.Summary.{HasOneKey, IsTold};
ghost use Rattle.pip_search.specs.Ways.{AreTraced, is_covered, witnesses_of};
ghost use Rattle.pip_search.specs.declared.searching.Extent.TheVariants.{Closed};

use crate::found::{Found, tell};
use crate::hash_table::HashTable;
use crate::hashes::hash_bytes;
use crate::key_store::KeyStore;
use crate::packing::{pack, unpack};
use crate::system::System;
use crate::visits::{MadeChoice, Visit, reach_next, run_from};
use std::alloc::{AllocError, Global};
use std::mem;

/// How far a search came.
#[derive(Clone, Copy, Debug, PartialEq, Eq)]
pub enum Extent {
    /// Every choice of every visited state leads to a visited one. `depth` choices lead to the deepest.
    Closed { depth: u32 },
    /// Every state that `depth` or fewer choices lead to was visited: the depth that was asked for.
    Within { depth: u32 },
    /// There are more states than there is room for. Every state that `depth` or fewer choices lead to was visited.
    Stopped { depth: u32 },
}

impl Extent {
    /// Whether all ways of `count` choices were searched.
    pub fn covers(self, count: u32) -> bool
        ensures { result ≡ is_covered self count }
    {
        match self {
            Extent::Closed { .. } => true,
            Extent::Within { depth } => count <= depth,
            Extent::Stopped { depth } => count <= depth,
        }
    }
}

/// The states that were visited and the labels that were found, each with the fewest choices that lead there.
#[derive(Drop)]
pub struct Search {
    pub visits: Vec<Visit>,
    pub found: Vec<Found>,
    // Per visit: its key.
    pub(crate) store: KeyStore,
    pub(crate) keys: HashTable,
    pub(crate) labels: HashTable,
}

impl Search {
    /// Makes `key` the words of the key of the visit at a place. `bytes` is room for its bytes. The only error is that
    /// memory is out.
    pub fn read_key(
        &self,
        place: usize,
        bytes: &mut Vec<u8>,
        key: &mut Vec<u32>,
    ) -> Result<(), AllocError>
        requires keyed { HaveKeys self.now.visits.items self.now.store self.now.keys }
        requires place { place < length self.now.visits.items }
        ensures { IfOk result (λ _. IsAtHand (visits_of self.now) place key.new.items) }
    {
        self.store.read(place, bytes)?;
        unpack(bytes, key)?;
        Ok(())
    }
}

/// Buffers that each choice uses again: the words of the key from which it is made, those of the next key, its bytes,
/// and what was shown. Where the next key is that of a new visit, `fresh` is its number; else it is 0.
#[derive(Drop)]
pub(crate) struct Buffers {
    pub(crate) from: Vec<u32>,
    pub(crate) to: Vec<u32>,
    pub(crate) bytes: Vec<u8>,
    pub(crate) shown: Vec<u8>,
    pub(crate) fresh: u32,
}

impl Buffers {
    /// Empty ones.
    pub(crate) fn new(alloc: Global) -> Buffers
        ensures { result.fresh ≡ 0 }
    {
        Buffers {
            from: Vec::new(alloc),
            to: Vec::new(alloc),
            bytes: Vec::new(alloc),
            shown: Vec::new(alloc),
            fresh: 0,
        }
    }
}

// A search that has visited the first state. Its hashes begin with a seed.
fn begin(
    alloc: Global,
    start: &[u32],
    seed: u64,
    buffers: &mut Buffers,
) -> Result<Search, AllocError>
    ensures begun { IfOk result (λ s. HasBegun start.now (visits_of s) s.found.items) }
    ensures keys { IfOk result (λ s. HaveKeys s.visits.items s.store s.keys) }
    ensures labels { IfOk result (λ s. AreNamed (labels s.found.items) s.labels) }
    ensures kept { IfOk result (λ s. AreKept (visits_of s)) }
    ensures fresh { buffers.new.fresh ≡ buffers.old.fresh }
{
    pack(start, &mut buffers.bytes)?;
    let mut store = KeyStore::new(alloc, seed)?;
    store.push(alloc, &buffers.bytes)?;
    let mut keys = HashTable::new(alloc, seed)?;
    keys.add(alloc, hash_bytes(seed, &buffers.bytes))?;
    let mut visits = Vec::new(alloc);
    visits.push(Visit {
        parent: 0,
        choice: 0,
        depth: 0,
        run: 0,
    })?;
    let found = Vec::new(alloc);
    let labels = HashTable::new(alloc, seed)?;
    Ok(Search {
        visits,
        found,
        store,
        keys,
        labels,
    })
}

// The number of the newest visit, if there is one more than before; else 0.
fn newest(before: usize, after: usize) -> u32
    requires { before < 2 ^ 32 }
    ensures more { before < after → result ≡ before }
    ensures none { after ≤ before → result ≡ 0 }
{
    if before < after { before as u32 } else { 0 }
}

// Whether the visit at a place is the fresh one.
fn is_fresh(fresh: u32, place: u32) -> bool
    ensures some { IsTrue result → 0 < fresh }
    ensures same { IsTrue result → fresh ≡ place }
{
    fresh > 0 && fresh == place
}

// Makes `from` the words of the key of visit `i`, which aren't read again where they were made last.
fn bring_key(search: &Search, i: u32, buffers: &mut Buffers) -> Result<(), AllocError>
    requires keyed { HaveKeys search.now.visits.items search.now.store search.now.keys }
    requires place { i < length search.now.visits.items }
    requires fresh { AreFresh (visits_of search.now) buffers.old.fresh buffers.old.to.items }
    ensures hand { IfOk result (λ _. IsAtHand (visits_of search.now) i buffers.new.from.items) }
    ensures fresh { buffers.new.fresh ≡ 0 }
{
    let fresh = buffers.fresh;
    buffers.fresh = 0;
    if is_fresh(fresh, i) {
        mem::swap(&mut buffers.from, &mut buffers.to);
        return Ok(());
    }
    search.read_key(i as usize, &mut buffers.bytes, &mut buffers.from)
}

// Makes a choice of visit `i`, whose key is at hand. False if its next state is new and there is no room for it.
fn make<S: System>(
    search: &mut Search,
    system: &mut S,
    alloc: Global,
    start: &[u32],
    buffers: &mut Buffers,
    i: u32,
    choice: u32,
    limit: u32,
) -> Result<bool, AllocError>
    requires key { IsKey (S.model (S.base system.old)) start.now }
    requires choice { choice < (S.model (S.base system.old)).choices }
    requires place { i < vec_len search.old.visits }
    requires room { vec_len search.old.visits ≤ limit }
    requires searching { IsSearching (S.model (S.base system.old)) start.now search.old i choice }
    requires hand { IsAtHand (visits_of search.old) i buffers.old.from.items }
    requires fresh { AreFresh (visits_of search.old) buffers.old.fresh buffers.old.to.items }
    ensures made { IfOk result (λ room. IsTrue room
        → IsSearching (S.model (S.base system.old)) start.now search.new i (choice + 1)) }
    ensures left { IfOk result (λ room. room ≡ false
        → IsSearching (S.model (S.base system.old)) start.now search.new i choice) }
    ensures beyond { IfOk result (λ room. room ≡ false
        → IsBeyond (S.model (S.base system.old)) (visits_of search.new) limit i) }
    ensures same { IfOk result (λ x. slice_get (visits_of search.new) i ≡ slice_get (visits_of search.old) i) }
    ensures hand { buffers.new.from.items ≡ buffers.old.from.items }
    ensures fresh { IfOk result (λ x. AreFresh (visits_of search.new) buffers.new.fresh buffers.new.to.items) }
    ensures grows { vec_len search.old.visits ≤ vec_len search.new.visits }
    ensures room { IfOk result (λ x. vec_len search.new.visits ≤ limit) }
    ensures base { S.base system.new ≡ S.base system.old }
{
    let key = buffers.from.as_slice();
    if system.stays(key, choice) {
        return Ok(true);
    }
    buffers.fresh = 0;
    buffers.to.clear();
    buffers.shown.clear();
    system.make(key, choice, &mut buffers.to, &mut buffers.shown)?;
    let from = &search.visits[i as usize];
    let step = MadeChoice {
        at: i,
        choice,
        depth: from.depth + 1,
        run: run_from(from, i, choice),
    };
    let before = search.visits.len();
    let room = reach_next(
        &mut search.visits,
        &mut search.store,
        &mut search.keys,
        alloc,
        &mut buffers.bytes,
        &buffers.from,
        &buffers.to,
        step,
        limit,
    )?;
    if !room {
        return Ok(false);
    }
    tell(
        &mut search.found,
        &mut search.labels,
        alloc,
        &buffers.shown,
        step,
    )?;
    buffers.fresh = newest(before, search.visits.len());
    Ok(true)
}

// Makes all choices of visit `i`. False if there was no room for a visit.
fn expand<S: System>(
    search: &mut Search,
    system: &mut S,
    alloc: Global,
    start: &[u32],
    buffers: &mut Buffers,
    i: u32,
    limit: u32,
) -> Result<bool, AllocError>
    requires key { IsKey (S.model (S.base system.old)) start.now }
    requires place { i < vec_len search.old.visits }
    requires room { vec_len search.old.visits ≤ limit }
    requires searching { IsSearching (S.model (S.base system.old)) start.now search.old i 0 }
    requires fresh { AreFresh (visits_of search.old) buffers.old.fresh buffers.old.to.items }
    ensures made { IfOk result (λ room. IsTrue room
        → IsSearching (S.model (S.base system.old)) start.now search.new (i + 1) 0) }
    ensures left { IfOk result (λ room. room ≡ false
        → ((c : ℕ) × IsSearching (S.model (S.base system.old)) start.now search.new i c)) }
    ensures beyond { IfOk result (λ room. room ≡ false
        → IsBeyond (S.model (S.base system.old)) (visits_of search.new) limit i) }
    ensures same { IfOk result (λ x. slice_get (visits_of search.new) i ≡ slice_get (visits_of search.old) i) }
    ensures room { IfOk result (λ x. vec_len search.new.visits ≤ limit) }
    ensures fresh { IfOk result (λ x. AreFresh (visits_of search.new) buffers.new.fresh buffers.new.to.items) }
    ensures base { S.base system.new ≡ S.base system.old }
{
    bring_key(search, i, buffers)?;
    let count = system.count();
    for choice in 0..count {
        let room = make(search, system, alloc, start, buffers, i, choice, limit)?;
        if !room {
            return Ok(false);
        }
    }
    Ok(true)
}

/// Searches breadth first from the state of a key, until nothing new is found, or every state that `most` choices lead
/// to is visited, or there are more states than `limit`. The only error is that memory is out.
pub fn explore<S: System>(
    system: &mut S,
    alloc: Global,
    start: &[u32],
    most: u32,
    limit: u32,
) -> Result<(Search, Extent), AllocError>
    requires key { IsKey (S.model (S.base system.old)) start.now }
    requires limit { 0 < limit }
    ensures told { IfOk result (λ r. HasOneKey (S.model (S.base system.old))
        → (x : (S.model (S.base system.old)).State) → (S.model (S.base system.old)).stands start.now x
        → IsTold (S.model (S.base system.old)) x most limit (witnesses_of r.1 r.0.visits.items r.0.found.items)
        (length r.0.visits.items) r.1) }
    ensures keyed { IfOk result (λ r. steps_of (visits_of r.0) ≡ r.0.visits.items) }
    ensures explains { IfOk result (λ r. Explains (S.model (S.base system.old)) start.now (visits_of r.0)
        r.0.found.items r.1) }
    ensures ends { IfOk result (λ r. Ends (S.model (S.base system.old)) (visits_of r.0) most limit r.1) }
    ensures room { IfOk result (λ r. vec_len r.0.visits ≤ limit) }
    ensures distinct { IfOk result (λ r. AreDistinct (keys (visits_of r.0))) }
    ensures labels { IfOk result (λ r. AreDistinct (labels r.0.found.items)) }
    ensures traced { IfOk result (λ r. AreTraced r.0.visits.items r.0.found.items) }
    ensures closed { IfOk result (λ r. (depth : ℕ) → r.1 ≡ Closed depth
        → HasClosed (S.model (S.base system.old)) start.now r.0) }
    ensures base { S.base system.new ≡ S.base system.old }
{
    let mut buffers = Buffers::new(alloc);
    let mut search = begin(alloc, start, system.seed(), &mut buffers)?;
    let mut i = 0;
    while (i as usize) < search.visits.len() {
        let depth = search.visits[i as usize].depth;
        if depth >= most {
            return Ok((search, Extent::Within { depth }));
        }
        let room = expand(&mut search, system, alloc, start, &mut buffers, i, limit)?;
        if !room {
            return Ok((search, Extent::Stopped { depth }));
        }
        i += 1;
    }
    let depth = search.visits[search.visits.len() - 1].depth;
    Ok((search, Extent::Closed { depth }))
}
