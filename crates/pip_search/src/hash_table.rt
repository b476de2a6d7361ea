//! Hashes by number, in a table.
ghost use Rattle.std.specs.Prelude.{◌≡◌, ◌≢◌, ◌+◌, ◌^◌, ◌<◌, ◌≤◌, ◌++◌, ℕ, [], ◌∷◌, IfOk, length, replicate};
ghost use Rattle.std.specs.Prelude.{slice_index};
ghost use Rattle.pip_search.specs.Cells as cells;
ghost use Rattle.pip_search.specs.Cells.{HaveCells, HasHashes, IsSized, IsOnTheWay, cells_used};

use std::alloc::{AllocError, Global};

/// Hashes, numbered from 0. Each is in a cell of a table: in the first that was empty from the hash's home on, round
/// the end. This is open addressing with linear probing. A cell has bits of the hash itself, so that mostly one cell is
/// read to find a hash, and one to see that it isn't there. All hashes begin with one seed.
#[derive(Drop)]
pub struct HashTable {
    pub(crate) seed: u64,
    pub(crate) hashes: Vec<u32>,
    // 0 if the cell is empty; else the tag of a hash, plus its number, plus 1. Their count is a power of two.
    pub(crate) cells: Vec<u32>,
}

/// Where one looks for a hash first, among that many cells: its upper bits say so.
pub(crate) fn home(hash: u32, count: usize) -> usize
    requires few { count ≤ 2 ^ 32 }
    requires some { 0 < count }
    ensures home { result ≡ cells.home hash count }
    ensures low { result < count }
{
    ((u64::from(hash) * count as u64) >> 32) as usize
}

/// The other bits of a hash, as the upper ones of a word. The lower ones are 0: they have room for a number below the
/// count.
pub(crate) fn tag(hash: u32, count: usize) -> u32
    requires few { count ≤ 2 ^ 32 }
    ensures { result ≡ cells.tag hash count }
{
    (u64::from(hash) * count as u64 % 0x100000000) as u32
}

// The first empty cell from one on, before `end`, or `end`.
fn first_empty(cells: &[u32], from: usize, end: usize) -> usize
    requires from { from ≤ end }
    requires end { end ≤ length cells.now }
    ensures from { from ≤ result }
    ensures end { result ≤ end }
    ensures full { (c : ℕ) → from ≤ c → c < result → slice_index cells.now c ≢ 0 }
    ensures empty { result < end → slice_index cells.now result ≡ 0 }
{
    let mut cell = from;
    while cell < end && cells[cell] != 0 {
        cell += 1;
    }
    cell
}

// The first empty cell from one on, round the end.
fn empty_cell(cells: &[u32], from: usize) -> usize
    requires from { from < length cells.now }
    requires some { cells_used cells.now < length cells.now }
    ensures low { result < length cells.now }
    ensures empty { slice_index cells.now result ≡ 0 }
    ensures full { (c : ℕ) → c < length cells.now → IsOnTheWay from result c → slice_index cells.now c ≢ 0 }
{
    let cell = first_empty(cells, from, cells.len());
    if cell < cells.len() {
        return cell;
    }
    first_empty(cells, 0, from)
}

// Puts hash `at` into a cell.
fn place(hashes: &[u32], cells: &mut [u32], at: usize)
    requires at { at < length hashes.now }
    requires sized { IsSized cells.old }
    requires room { at + 1 < length cells.old }
    requires have { HaveCells hashes.now cells.old at }
    ensures have { HaveCells hashes.now cells.new (at + 1) }
{
    let count = cells.len();
    let cell = empty_cell(cells, home(hashes[at], count));
    cells[cell] = tag(hashes[at], count) + at as u32 + 1;
}

// Puts all hashes into cells, from empty ones.
fn place_all(hashes: &[u32], cells: &mut [u32])
    requires sized { IsSized cells.old }
    requires room { length hashes.now < length cells.old }
    requires none { cells.old ≡ replicate (length cells.old) 0 }
    ensures have { HaveCells hashes.now cells.new (length hashes.now) }
{
    for at in 0..hashes.len() {
        place(hashes, cells, at);
    }
}

impl HashTable {
    /// No hashes. Those to come begin with a seed. The only error is that memory is out.
    pub(crate) fn new(alloc: Global, seed: u64) -> Result<HashTable, AllocError>
        ensures filled { IfOk result HasHashes }
        ensures hashes { IfOk result (λ x. x.hashes.items ≡ []) }
        ensures seed { IfOk result (λ x. x.seed ≡ seed) }
    {
        Ok(HashTable {
            seed,
            hashes: Vec::new(alloc),
            cells: vec![in alloc; 0u32; 16]?,
        })
    }

    /// Adds a hash. The cells are doubled if there would be more than three hashes in four of them. The only error is
    /// that memory is out: a table has room for 2^31 hashes.
    pub(crate) fn add(&mut self, alloc: Global, hash: u32) -> Result<(), AllocError>
        requires filled { HasHashes self.old }
        ensures filled { IfOk result (λ _. HasHashes self.new) }
        ensures hashes { IfOk result (λ _. self.new.hashes.items ≡ self.old.hashes.items ++ hash ∷ []) }
        ensures seed { self.new.seed ≡ self.old.seed }
    {
        let at = self.hashes.len();
        if at >= 0x80000000 {
            return Err(AllocError);
        }
        self.hashes.push(hash)?;
        let count = self.cells.len();
        if at >= count / 4 * 3 {
            self.cells = vec![in alloc; 0u32; 2 * count]?;
            place_all(&self.hashes, &mut self.cells);
        } else {
            place(&self.hashes, &mut self.cells, at);
        }
        Ok(())
    }
}
