//! Parts of certificates: states whose choices are made by themselves.
ghost use Rattle.std.specs.Prelude.{◌≡◌, ℕ, List, ◌<◌, ◌≤◌, ◌+◌, ◌-◌, ◌^◌, ◌∷◌, ◌++◌, ◌⊎◌, [], false};
ghost use Rattle.std.specs.Prelude.{All, IfOk, IsSome, IsTrue, Some, length, min, slice_get, vec_len};
ghost use Rattle.pip_search.specs.Certificates.{HasStop, IsClosedPart, IsReachedPart, Stop};
ghost use Rattle.pip_search.specs.Naming.{AreNamed};
ghost use Rattle.pip_search.specs.Packing.{packed_key, unpacked_key};
ghost use Rattle.pip_search.specs.Parts.{AddsAtMostOne, ArePacked, AreWordsAt, IsGrowing, IsReachedFrom, IsWalked};
ghost use Rattle.pip_search.specs.Parts.{HasMoved, portion_of, stop_at, stop_of, stops};
ghost use Rattle.pip_search.specs.Portions.{IsPortionOf, SayOnePortion, asked_with, is_next_own, keys_with};
ghost use Rattle.pip_search.specs.Systems.{IsKey, LeadsAlong};
ghost use Rattle.std.specs.Str.{bytes_eq};
ghost use Rattle.pip_search.specs.declared.parts.Part.{Part};

use crate::found::{Found, tell};
use crate::hash_table::HashTable;
use crate::names::{is_same, kept};
use crate::packing::{pack, unpack};
use crate::searching::Buffers;
use crate::stops::Reached;
use crate::system::System;
use crate::visits::MadeChoice;
use std::alloc::{AllocError, Global};

/// A part whose choices were made: its keys, the keys that it asks of other parts, and the labels that it shows, each
/// with the key of the part at which it was shown first.
#[derive(Drop)]
pub struct Part {
    pub keys: Vec<Reached>,
    pub asked: Vec<Reached>,
    pub found: Vec<Found>,
    pub(crate) labels: HashTable,
}

/// The words of a key as bytes, and how many choices lead to a state of it. The only error is that memory is out.
pub fn reached(alloc: Global, key: &[u32], depth: u32) -> Result<Reached, AllocError>
    ensures { IfOk result (λ x. stop_of x ≡ stop_at key.now depth) }
{
    let mut bytes = Vec::new(alloc);
    pack(key, &mut bytes)?;
    Ok(Reached { key: bytes, depth })
}

// Adds a key, by its bytes.
fn add(list: &mut Vec<Reached>, alloc: Global, bytes: &[u8], depth: u32) -> Result<(), AllocError>
    requires packed { packed_key (unpacked_key bytes.now) ≡ bytes.now }
    ensures added { IfOk result (λ _. stops list.new.items
        ≡ stops list.old.items ++ stop_at (unpacked_key bytes.now) depth ∷ []) }
    ensures count { IfOk result (λ _. vec_len list.new ≡ vec_len list.old + 1) }
    ensures kept { IfOk result (λ _. ArePacked list.old.items → ArePacked list.new.items) }
{
    let key = kept(alloc, bytes)?;
    list.push(Reached { key, depth })?;
    Ok(())
}

// Adds the key to which a choice at key `i` leads: to those of the part if it is to be its own, else to those that it
// asks, unless it is that key again.
fn settle(
    part: &mut Part,
    alloc: Global,
    bytes: &[u8],
    i: u32,
    depth: u32,
    own: bool,
) -> Result<(), AllocError>
    requires packed { packed_key (unpacked_key bytes.now) ≡ bytes.now }
    requires place { i < vec_len part.old.keys }
    requires depth { (x : Stop) → slice_get (stops part.old.keys.items) i ≡ Some x → x.depth + 1 ≡ depth }
    requires kept { ArePacked part.old.keys.items }
    ensures kept { IfOk result (λ _. ArePacked part.new.keys.items) }
    ensures own { IfOk result (λ _. stops part.new.keys.items
        ≡ keys_with own (stops part.old.keys.items) (stop_at (unpacked_key bytes.now) depth)) }
    ensures asks { IfOk result (λ _. (x : Stop) → slice_get (stops part.old.keys.items) i ≡ Some x
        → stops part.new.asked.items ≡ asked_with own (bytes_eq x.key (unpacked_key bytes.now))
        (stops part.old.asked.items) (stop_at (unpacked_key bytes.now) depth)) }
    ensures met { IfOk result (λ _. HasStop (stops part.new.keys.items) (unpacked_key bytes.now) depth
        ⊎ HasStop (stops part.new.asked.items) (unpacked_key bytes.now) depth) }
    ensures keys { IfOk result (λ _. AddsAtMostOne (stops part.old.keys.items) (stops part.new.keys.items)
        (stop_at (unpacked_key bytes.now) depth)) }
    ensures asked { IfOk result (λ _. AddsAtMostOne (stops part.old.asked.items) (stops part.new.asked.items)
        (stop_at (unpacked_key bytes.now) depth)) }
    ensures found { IfOk result (λ _. part.new.found ≡ part.old.found) }
    ensures labels { IfOk result (λ _. part.new.labels ≡ part.old.labels) }
    ensures more { IfOk result (λ _. vec_len part.new.keys ≤ vec_len part.old.keys + 1) }
    ensures least { IfOk result (λ _. vec_len part.old.keys ≤ vec_len part.new.keys) }
    ensures other { IfOk result (λ _. own ≡ false → vec_len part.new.keys ≡ vec_len part.old.keys) }
{
    if own {
        add(&mut part.keys, alloc, bytes, depth)?;
        return Ok(());
    }
    if is_same(&part.keys[i as usize].key, bytes) {
        return Ok(());
    }
    add(&mut part.asked, alloc, bytes, depth)?;
    Ok(())
}

// Makes a choice at key `i`, whose words are at hand.
fn meet<S: System>(
    part: &mut Part,
    system: &mut S,
    alloc: Global,
    start: &[u32],
    buffers: &mut Buffers,
    i: u32,
    choice: u32,
    own: bool,
) -> Result<(), AllocError>
    requires key { IsKey (S.model (S.base system.old)) start.now }
    requires choice { choice < (S.model (S.base system.old)).choices }
    requires place { i < vec_len part.old.keys }
    requires growing { IsGrowing (S.model (S.base system.old)) start.now part.old i choice }
    requires hand { AreWordsAt (stops part.old.keys.items) i buffers.old.from.items }
    requires kept { ArePacked part.old.keys.items }
    ensures kept { IfOk result (λ _. ArePacked part.new.keys.items) }
    ensures moved { IfOk result (λ _. (x : Stop) → slice_get (stops part.old.keys.items) i ≡ Some x
        → HasMoved (S.model (S.base system.old)) x choice own (portion_of part.old) (portion_of part.new)) }
    ensures growing { IfOk result (λ _. IsGrowing (S.model (S.base system.old)) start.now part.new i (choice + 1)) }
    ensures hand { IfOk result (λ _. AreWordsAt (stops part.new.keys.items) i buffers.new.from.items) }
    ensures keeps { IfOk result (λ _. (key : List ℕ) (n : ℕ) → HasStop (stops part.old.keys.items) key n
        → HasStop (stops part.new.keys.items) key n) }
    ensures more { IfOk result (λ _. vec_len part.new.keys ≤ vec_len part.old.keys + 1) }
    ensures least { IfOk result (λ _. vec_len part.old.keys ≤ vec_len part.new.keys) }
    ensures other { IfOk result (λ _. own ≡ false → vec_len part.new.keys ≡ vec_len part.old.keys) }
    ensures base { S.base system.new ≡ S.base system.old }
{
    buffers.to.clear();
    buffers.shown.clear();
    system.make(
        buffers.from.as_slice(),
        choice,
        &mut buffers.to,
        &mut buffers.shown,
    )?;
    let Some(depth) = part.keys[i as usize].depth.checked_add(1) else {
        return Err(AllocError);
    };
    let made = MadeChoice {
        at: i,
        choice,
        depth,
        run: 0,
    };
    tell(
        &mut part.found,
        &mut part.labels,
        alloc,
        &buffers.shown,
        made,
    )?;
    pack(&buffers.to, &mut buffers.bytes)?;
    settle(part, alloc, &buffers.bytes, i, depth, own)?;
    Ok(())
}

// Whether the next key is one of the part, by the mark at a place, and the place of the mark after it. Where there are
// no more marks it isn't.
fn next_mark(marks: &[u8], at: usize) -> (bool, usize)
    requires { at ≤ length marks.now }
    ensures within { result.1 ≤ length marks.now }
    ensures least { at ≤ result.1 }
    ensures used { IsTrue result.0 → result.1 ≡ at + 1 }
    ensures is { (n : ℕ) → at ≡ min n (length marks.now) → (result.0 ≡ is_next_own marks.now n)
        × (result.1 ≡ min (n + 1) (length marks.now)) }
{
    match marks.get(at) {
        Some(mark) => (*mark != 0, at + 1),
        None => (false, at),
    }
}

// Makes all choices at key `i`, by the marks from a place on. Answers with the place of those that are left.
fn meet_all<S: System>(
    part: &mut Part,
    system: &mut S,
    alloc: Global,
    start: &[u32],
    buffers: &mut Buffers,
    i: u32,
    marks: &[u8],
    first: usize,
) -> Result<usize, AllocError>
    requires key { IsKey (S.model (S.base system.old)) start.now }
    requires place { i < vec_len part.old.keys }
    requires growing { IsGrowing (S.model (S.base system.old)) start.now part.old i 0 }
    requires marks { first ≤ length marks.now }
    requires kept { ArePacked part.old.keys.items }
    ensures kept { IfOk result (λ _. ArePacked part.new.keys.items) }
    ensures walked { IfOk result (λ n. (from : Stop)
        → IsWalked (S.model (S.base system.old)) marks.now from (portion_of part.old) i first
        → IsWalked (S.model (S.base system.old)) marks.now from (portion_of part.new) (i + 1) n) }
    ensures least { IfOk result (λ _. vec_len part.old.keys ≤ vec_len part.new.keys) }
    ensures growing { IfOk result (λ _. IsGrowing (S.model (S.base system.old)) start.now part.new (i + 1) 0) }
    ensures keeps { IfOk result (λ _. (key : List ℕ) (n : ℕ) → HasStop (stops part.old.keys.items) key n
        → HasStop (stops part.new.keys.items) key n) }
    ensures within { IfOk result (λ n. n ≤ length marks.now) }
    ensures few { IfOk result (λ n. vec_len part.new.keys + first ≤ vec_len part.old.keys + n) }
    ensures base { S.base system.new ≡ S.base system.old }
{
    unpack(&part.keys[i as usize].key, &mut buffers.from)?;
    let count = system.count();
    let mut at = first;
    for choice in 0..count {
        let (own, next) = next_mark(marks, at);
        meet(part, system, alloc, start, buffers, i, choice, own)?;
        at = next;
    }
    Ok(at)
}

// Makes the words at hand those of the key to which a way leads. False where a choice of it can't be made.
fn walk<S: System>(
    system: &mut S,
    alloc: Global,
    start: &[u32],
    way: &[u32],
    buffers: &mut Buffers,
) -> Result<bool, AllocError>
    requires key { IsKey (S.model (S.base system.old)) start.now }
    ensures reached { IfOk result (λ can. IsTrue can → IsReachedFrom (S.model (S.base system.old)) start.now
        (stop_at buffers.new.from.items (length way.now))) }
    ensures stays { IfOk result (λ _. way.now ≡ [] → buffers.new.from.items ≡ start.now) }
    ensures leads { IfOk result (λ can. IsTrue can
        → LeadsAlong (S.model (S.base system.old)) start.now way.now buffers.new.from.items) }
    ensures exact { IfOk result (λ can. IsTrue can → All (λ c. c < (S.model (S.base system.old)).choices) way.now) }
    ensures can { IfOk result (λ can. All (λ c. c < (S.model (S.base system.old)).choices) way.now → IsTrue can) }
    ensures base { S.base system.new ≡ S.base system.old }
{
    if way.is_empty() {
        buffers.from.clear();
        buffers.from.extend_from_slice(start)?;
        return Ok(true);
    }
    let count = system.count();
    if !way.iter().all(|choice| *choice < count) {
        return Ok(false);
    }
    system.follow(alloc, start, way, &mut buffers.from)?;
    Ok(true)
}

// A part with one key, whose words are at hand, and no choice made. The hashes of its labels begin with a seed.
fn first_part(
    alloc: Global,
    seed: u64,
    buffers: &mut Buffers,
    depth: u32,
) -> Result<Part, AllocError>
    ensures keys { IfOk result (λ p. stops p.keys.items ≡ stop_at buffers.old.from.items depth ∷ []) }
    ensures count { IfOk result (λ p. vec_len p.keys ≡ 1) }
    ensures found { IfOk result (λ p. p.found.items ≡ []) }
    ensures labels { IfOk result (λ p. AreNamed [] p.labels) }
    ensures asked { IfOk result (λ p. stops p.asked.items ≡ []) }
    ensures kept { IfOk result (λ p. ArePacked p.keys.items) }
{
    pack(&buffers.from, &mut buffers.bytes)?;
    let mut keys = Vec::new(alloc);
    add(&mut keys, alloc, &buffers.bytes, depth)?;
    Ok(Part {
        keys,
        asked: Vec::new(alloc),
        found: Vec::new(alloc),
        labels: HashTable::new(alloc, seed)?,
    })
}

/// Checks a part. Its first key is the one to which a way leads from the first state. All choices are made at each key
/// of the part, in their order; for each of these there is a mark, which isn't 0 where the next key is to be one of the
/// part, after those that it has, and is 0 where the part asks it of others. Where there are no more marks it asks.
/// `None` where the way has a choice that can't be made. The only error is that memory is out, as for keys to which
/// 2^32 choices lead.
pub fn check_part<S: System>(
    system: &mut S,
    alloc: Global,
    start: &[u32],
    way: &[u32],
    marks: &[u8],
) -> Result<Option<Part>, AllocError>
    requires key { IsKey (S.model (S.base system.old)) start.now }
    requires way { length way.now < 2 ^ 32 }
    requires marks { length marks.now < 2 ^ 32 - 1 }
    ensures can { IfOk result (λ r. All (λ c. c < (S.model (S.base system.old)).choices) way.now → IsSome r) }
    ensures exact { IfOk result (λ r. IsSome r → All (λ c. c < (S.model (S.base system.old)).choices) way.now) }
    ensures says { IfOk result (λ r. (p : Part) → r ≡ Some p
        → IsPortionOf (S.model (S.base system.old)) start.now way.now marks.now (portion_of p)) }
    ensures closed { IfOk result (λ r. (p : Part) → r ≡ Some p
        → IsClosedPart (S.model (S.base system.old)) (portion_of p)) }
    ensures reached { IfOk result (λ r. (p : Part) (s : (S.model (S.base system.old)).State) → r ≡ Some p
        → (S.model (S.base system.old)).stands start.now s
        → IsReachedPart (S.model (S.base system.old)) s (portion_of p)) }
    ensures begins { IfOk result (λ r. (p : Part) → r ≡ Some p → way.now ≡ []
        → HasStop (stops p.keys.items) start.now 0) }
    ensures base { S.base system.new ≡ S.base system.old }
{
    let mut buffers = Buffers::new(alloc);
    if !walk(system, alloc, start, way, &mut buffers)? {
        return Ok(None);
    }
    let mut part = first_part(alloc, system.seed(), &mut buffers, way.len() as u32)?;
    let mut i = 0;
    let mut at = 0;
    while (i as usize) < part.keys.len() {
        at = meet_all(&mut part, system, alloc, start, &mut buffers, i, marks, at)?;
        i += 1;
    }
    Ok(Some(part))
}

/// A start, a way and marks say one part, where no state has two keys.
pub fn law_portions<S: System>(_system: &S)
    ensures { SayOnePortion (S.model (S.base _system.now)) }
{}
