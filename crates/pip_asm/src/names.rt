//! The names of a text with their addresses.
//!
//! They are in a table, and where it has no room for one, in an ordered map. A name has eight places in the table, side
//! by side from one on that its hash gives, and takes one that is free. So to add or to find a name takes a look at
//! eight places and one at the map, whatever the names are: n names take n log n. The hash begins with a number that is
//! drawn from the whole text. So the map stays nearly empty, also for names that were chosen to share their places: the
//! choice would have to foresee that number.
ghost use Rattle.std.specs.Prelude.{◌≡◌, ⊤, ◌+◌, ◌^◌, ◌<◌, ◌≤◌, false, length, None, IfOk, MatchResult, OnOk};
ghost use Rattle.pip_model.specs.Assembly.{with_name};
ghost use Rattle.pip_asm.specs.Names.{IsFreePlace, IsKept, IsTwice, address_of_name, found_in, has_room, home_of};
ghost use Rattle.pip_asm.specs.Names.{in_table, is_name_at, mark_of, hash_on};

use crate::reading::AsmLineError;
use byteorder::{ByteOrder, LittleEndian};
use pip_model::AsmKind;
use std::alloc::{AllocError, Global};
use std::collections::BTreeMap;

// The number of places that a name has.
const WINDOW: usize = 8;

// An odd number whose bits look like drawn ones, by which hashes are multiplied.
const FACTOR: u64 = 0x9e37_79b9_7f4a_7c15;

// All bits of each byte but the highest.
const LOW_BITS: u64 = 0x7f7f_7f7f_7f7f_7f7f;

/// A place of the table: a name with its address and its mark; or none, where the mark is 0.
#[derive(Clone, Copy)]
pub struct NameSlot<'a> {
    mark: u32,
    address: u32,
    name: &'a [u8],
}

impl NameSlot<'_> {
    // Whether this name is here, which has this mark.
    fn is(&self, mark: u32, name: &[u8]) -> bool
        ensures { result ≡ is_name_at mark name.now self.now }
    {
        self.mark == mark && self.name == name
    }
}

/// The names so far with their addresses. The hashes of names begin with `seed`.
#[derive(Drop)]
pub struct Addresses<'a> {
    seed: u64,
    slots: Vec<NameSlot<'a>>,
    others: BTreeMap<&'a [u8], u32>,
}

/// What a text shows at a first look, at eight bytes at once.
#[derive(Clone, Copy)]
pub struct Look {
    /// A number drawn from all of the text but for its last bytes, fewer than eight.
    pub seed: u64,
    /// How many of its lines end with a colon, as those do that define names; but no more than one for each six bytes.
    pub labels: usize,
}

/// What a text shows.
pub fn first_look(text: &[u8]) -> Look
    ensures { result.labels ≤ length text.now }
{
    let mut seed = text.len() as u64;
    let mut labels = 0usize;
    let mut colons = 0;
    for i in 0..text.len() / 8 {
        let word = LittleEndian::read_u64(&text[8 * i..]);
        seed = (seed ^ word).wrapping_mul(FACTOR);
        seed ^= seed / 0x1_0000_0000;
        let before = colons / 0x100_0000_0000_0000;
        colons = bytes_of(word, b':');
        // Most words have no colon, and none before them.
        if colons | before != 0 {
            let ends = (colons.wrapping_mul(256) | before) & bytes_of(word, b'\n');
            labels = labels.wrapping_add(ends.count_ones() as usize);
        }
    }
    Look {
        seed,
        labels: labels.min(text.len() / 6),
    }
}

// In which of the eight bytes of a word a byte is: 0x80 there, and 0 in the others.
fn bytes_of(word: u64, byte: u8) -> u64 {
    let other = word ^ (u64::from(byte) * 0x0101_0101_0101_0101);
    !(((other & LOW_BITS).wrapping_add(LOW_BITS)) | other | LOW_BITS)
}

// The hash of a name, which begins with a number.
fn mixed(seed: u64, name: &[u8]) -> u64
    ensures { result ≡ hash_on seed name.now }
{
    let mut hash = seed;
    for byte in name {
        hash = (hash ^ u64::from(*byte)).wrapping_mul(FACTOR);
    }
    hash
}

// The mark of a hash, which isn't 0.
fn mark_of(hash: u64) -> u32
    ensures { result ≡ mark_of hash }
{
    (hash / 0x2_0000_0000) as u32 + 1
}

// The address of a name where it is in a place of the table.
fn found_in(slots: &[NameSlot<'_>], home: usize, mark: u32, name: &[u8]) -> Option<u32>
    requires { home + WINDOW ≤ length slots.now }
    ensures { result ≡ found_in slots.now mark name.now home WINDOW }
{
    for i in home..home + WINDOW {
        let slot = slots[i];
        if slot.is(mark, name) {
            return Some(slot.address);
        }
    }
    None
}

// A place that is free, of those from one on.
fn free_in(slots: &[NameSlot<'_>], home: usize) -> Option<usize>
    requires { home + WINDOW ≤ length slots.now }
    ensures { IsFreePlace slots.now home result }
{
    for i in home..home + WINDOW {
        if slots[i].mark == 0 {
            return Some(i);
        }
    }
    None
}

// Where the places of a name of this hash begin.
fn home_of(slots: &[NameSlot<'_>], hash: u64) -> usize
    requires { WINDOW < length slots.now }
    ensures home { result ≡ home_of slots.now hash }
    ensures room { result + WINDOW ≤ length slots.now }
{
    (hash % (slots.len() - WINDOW) as u64) as usize
}

impl<'a> Addresses<'a> {
    /// No name, in a table of which `count` names take half.
    pub fn new(alloc: Global, seed: u64, count: usize) -> Result<Self, AllocError>
        requires { count ≤ 2 ^ 24 }
        ensures none { IfOk result (λ n. address_of_name n ≡ (λ _. None)) }
        ensures kept { IfOk result IsKept }
    {
        let free = NameSlot {
            mark: 0,
            address: 0,
            name: b"",
        };
        let mut slots = Vec::new(alloc);
        slots.resize(2 * count + 1 + WINDOW, free)?;
        Ok(Addresses {
            seed,
            slots,
            others: BTreeMap::new(alloc),
        })
    }

    /// The address of a name.
    pub fn find(&self, name: &'a [u8]) -> Option<u32>
        requires { IsKept self.now }
        ensures { result ≡ address_of_name self.now name.now }
    {
        let hash = mixed(self.seed, name);
        let home = home_of(&self.slots, hash);
        match found_in(&self.slots, home, mark_of(hash), name) {
            Some(address) => Some(address),
            None => self.others.get(&name).copied(),
        }
    }

    /// A name more, whose place is this address. `Twice` where it has one already.
    pub fn add(&mut self, name: &'a [u8], address: u32) -> Result<(), AsmLineError>
        requires { IsKept self.old }
        ensures kept { OnOk result (IsKept self.new) }
        ensures fresh { OnOk result (address_of_name self.old name.now ≡ None) }
        ensures added { OnOk result (address_of_name self.new ≡ with_name name.now address (address_of_name self.old)) }
        ensures stopped { MatchResult result (λ _. ⊤) (IsTwice (address_of_name self.old name.now)) }
    {
        let hash = mixed(self.seed, name);
        let home = home_of(&self.slots, hash);
        let mark = mark_of(hash);
        if found_in(&self.slots, home, mark, name).is_some() {
            return Err(AsmLineError::Kind(AsmKind::Twice));
        }
        match free_in(&self.slots, home) {
            Some(i) => {
                self.slots[i] = NameSlot {
                    mark,
                    address,
                    name,
                };
                Ok(())
            }
            None => self.add_other(name, address),
        }
    }

    // A name more, for which the table has no room.
    fn add_other(&mut self, name: &'a [u8], address: u32) -> Result<(), AsmLineError>
        requires kept { IsKept self.old }
        requires fresh { in_table self.old name.now ≡ None }
        requires full { has_room self.old name.now ≡ false }
        ensures kept { OnOk result (IsKept self.new) }
        ensures fresh { OnOk result (address_of_name self.old name.now ≡ None) }
        ensures added { OnOk result (address_of_name self.new ≡ with_name name.now address (address_of_name self.old)) }
        ensures stopped { MatchResult result (λ _. ⊤) (IsTwice (address_of_name self.old name.now)) }
    {
        match self.others.insert(name, address) {
            Ok(None) => Ok(()),
            Ok(Some(_)) => Err(AsmLineError::Kind(AsmKind::Twice)),
            Err(_) => Err(AsmLineError::Memory),
        }
    }
}
