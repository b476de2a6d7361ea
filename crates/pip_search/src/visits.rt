//! The states that were visited, in the order in which they were found.
ghost use Rattle.std.specs.Prelude.{◌≡◌, ◌≤◌, IfOk, IsTrue, false, vec_len};
ghost use Rattle.pip_search.specs.Growing.{Grew, WasVisited, IsFull};
ghost use Rattle.pip_search.specs.Exploring.{StartsRun};
ghost use Rattle.pip_search.specs.Keys.{HaveKeys, keyed_visits};
ghost use Rattle.pip_search.specs.Packing.{packed_key, unpacked_key};
ghost use Rattle.pip_search.specs.Collapsing.{keys_in};

use crate::hash_table::HashTable;
use crate::hashes::hash_bytes;
use crate::key_store::KeyStore;
use crate::names::find;
use crate::packing::pack;
use std::alloc::{AllocError, Global};

/// A state that was visited: the visit from which it was found first and by which choice, and how many choices lead
/// there from the first state, 0 for that one.
#[derive(Drop)]
pub struct Visit {
    pub parent: u32,
    pub choice: u32,
    pub depth: u32,
    /// The visit before the run of equal choices that ends with this one.
    pub run: u32,
}

/// A choice that is made: from which visit, how many choices lead to its end, and the visit before the run of equal
/// choices that ends with it.
#[derive(Clone, Copy)]
pub(crate) struct MadeChoice {
    pub(crate) at: u32,
    pub(crate) choice: u32,
    pub(crate) depth: u32,
    pub(crate) run: u32,
}

/// The visit before the run of equal choices that ends with a choice from visit `from`, which has the number `at`.
pub(crate) fn run_from(from: &Visit, at: u32, choice: u32) -> u32
    ensures { StartsRun at from.now choice result }
{
    if at != 0 && from.choice == choice {
        from.run
    } else {
        at
    }
}

/// Adds a visit, unless its key was visited. False if there would be more than `limit`; then nothing is added.
pub(crate) fn reach(
    visits: &mut Vec<Visit>,
    store: &mut KeyStore,
    table: &mut HashTable,
    alloc: Global,
    key: &[u8],
    step: MadeChoice,
    limit: u32,
) -> Result<bool, AllocError>
    requires keyed { HaveKeys visits.old.items store.old table.old }
    ensures keyed { IfOk result (λ x. HaveKeys visits.new.items store.new table.new) }
    ensures grew { IfOk result (λ room. IsTrue room → Grew (keyed_visits (keys_in store.old) visits.old.items)
        (keyed_visits (keys_in store.new) visits.new.items) key.now step.at step.choice step.depth step.run) }
    ensures stays { IfOk result (λ room. room ≡ false → keyed_visits (keys_in store.new) visits.new.items
        ≡ keyed_visits (keys_in store.old) visits.old.items) }
    ensures full { IfOk result (λ room. room ≡ false → IsFull (keyed_visits (keys_in store.old) visits.old.items)
        key.now limit) }
    ensures grows { vec_len visits.old ≤ vec_len visits.new }
    ensures room { IfOk result (λ x. vec_len visits.old ≤ limit → vec_len visits.new ≤ limit) }
{
    let hash = hash_bytes(table.seed, key);
    if find(store, table, key, hash).is_some() {
        return Ok(true);
    }
    if visits.len() >= limit as usize {
        return Ok(false);
    }
    store.push(alloc, key)?;
    visits.push(Visit {
        parent: step.at,
        choice: step.choice,
        depth: step.depth,
        run: step.run,
    })?;
    table.add(alloc, hash)?;
    Ok(true)
}

/// Adds the visit of a key `to`, unless it was visited. The key `from` was, so there is nothing to look for where both
/// are the same. `bytes` is a buffer.
pub(crate) fn reach_next(
    visits: &mut Vec<Visit>,
    store: &mut KeyStore,
    table: &mut HashTable,
    alloc: Global,
    bytes: &mut Vec<u8>,
    from: &[u32],
    to: &[u32],
    step: MadeChoice,
    limit: u32,
) -> Result<bool, AllocError>
    requires keyed { HaveKeys visits.old.items store.old table.old }
    requires from { WasVisited (keyed_visits (keys_in store.old) visits.old.items) from.now }
    ensures keyed { IfOk result (λ x. HaveKeys visits.new.items store.new table.new) }
    ensures back { IfOk result (λ x. unpacked_key (packed_key to.now) ≡ to.now) }
    ensures grew { IfOk result (λ room. IsTrue room → Grew (keyed_visits (keys_in store.old) visits.old.items)
        (keyed_visits (keys_in store.new) visits.new.items) (packed_key to.now) step.at step.choice step.depth
        step.run) }
    ensures stays { IfOk result (λ room. room ≡ false → keyed_visits (keys_in store.new) visits.new.items
        ≡ keyed_visits (keys_in store.old) visits.old.items) }
    ensures full { IfOk result (λ room. room ≡ false → IsFull (keyed_visits (keys_in store.old) visits.old.items)
        (packed_key to.now) limit) }
    ensures grows { vec_len visits.old ≤ vec_len visits.new }
    ensures room { IfOk result (λ x. vec_len visits.old ≤ limit → vec_len visits.new ≤ limit) }
{
    if to == from {
        return Ok(true);
    }
    pack(to, bytes)?;
    reach(visits, store, table, alloc, bytes, step, limit)
}
