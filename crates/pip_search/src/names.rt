//! What is found by name.
ghost use Rattle.std.specs.Prelude.{◌≡◌, ◌≢◌, ◌<◌, ◌≤◌, ℕ, List, IfOk, IsTrue, MatchOption, Some, false, length};
ghost use Rattle.std.specs.Prelude.{slice_get};
ghost use Rattle.pip_search.specs.Naming.{AreNamed, HasProbed, IsAbsent, IsUnlike, hash_of};

use crate::hash_table::{HashTable, home, tag};
use std::alloc::{AllocError, Global};

/// What is found by its names, some bytes each.
pub(crate) trait Names {
    /// The names.
    ghost names_of: { Self → List (List ℕ) };

    /// Whether they can be read.
    ghost can_name: { Self → Type 0 };

    /// Whether a name is at a place.
    fn is_at(&self, place: usize, name: &[u8]) -> bool
        requires can { can_name self.now }
        requires place { place < length (names_of self.now) }
        ensures same { IsTrue result → slice_get (names_of self.now) place ≡ Some name.now }
        ensures other { result ≡ false → slice_get (names_of self.now) place ≢ Some name.now };
}

// What was found in some cells: the place of the name, or an empty one, or neither.
enum Probe {
    Here(usize),
    Empty,
    Further,
}

/// A copy of bytes, with no room for more. The only error is that memory is out.
pub(crate) fn kept(alloc: Global, bytes: &[u8]) -> Result<Vec<u8>, AllocError>
    ensures { IfOk result (λ v. v.items ≡ bytes.now) }
{
    let mut own = Vec::with_capacity(alloc, bytes.len())?;
    own.extend_from_slice(bytes)?;
    Ok(own)
}

/// Whether two names are the same.
pub(crate) fn is_same(a: &[u8], b: &[u8]) -> bool
    ensures same { IsTrue result → a.now ≡ b.now }
    ensures other { result ≡ false → a.now ≢ b.now }
{
    a == b
}

// The place of this name, if the cell with these contents has it.
fn named_in<N: Names>(
    list: &N,
    table: &HashTable,
    contents: u32,
    tag: u32,
    name: &[u8],
) -> Option<usize>
    requires can { N.can_name list.now }
    requires count { length table.now.hashes.items ≡ length (N.names_of list.now) }
    ensures { MatchOption result (IsUnlike (N.names_of list.now) name.now tag contents)
        (λ j. slice_get (N.names_of list.now) j ≡ Some name.now) }
{
    if contents <= tag {
        return None;
    }
    let place = (contents - tag - 1) as usize;
    if place < table.hashes.len() && list.is_at(place, name) {
        return Some(place);
    }
    None
}

// Looks for a name in the cells from one on, before `end`, until one is empty. Its hash has this tag.
fn look_from<N: Names>(
    list: &N,
    table: &HashTable,
    name: &[u8],
    tag: u32,
    from: usize,
    end: usize,
) -> Probe
    requires can { N.can_name list.now }
    requires count { length table.now.hashes.items ≡ length (N.names_of list.now) }
    requires from { from ≤ end }
    requires end { end ≤ length table.now.cells.items }
    ensures { HasProbed (N.names_of list.now) name.now tag table.now.cells.items from end result }
{
    for cell in from..end {
        let contents = table.cells[cell];
        if contents == 0 {
            return Probe::Empty;
        }
        if let Some(place) = named_in(list, table, contents, tag, name) {
            return Probe::Here(place);
        }
    }
    Probe::Further
}

/// The place of this name, whose hash is `hash`.
pub(crate) fn find<N: Names>(list: &N, table: &HashTable, name: &[u8], hash: u32) -> Option<usize>
    requires can { N.can_name list.now }
    requires named { AreNamed (N.names_of list.now) table.now }
    requires hash { hash ≡ hash_of table.now.seed name.now }
    ensures { MatchOption result (IsAbsent (N.names_of list.now) name.now)
        (λ j. slice_get (N.names_of list.now) j ≡ Some name.now) }
{
    let count = table.cells.len();
    let from = home(hash, count);
    let tag = tag(hash, count);
    match look_from(list, table, name, tag, from, count) {
        Probe::Here(place) => Some(place),
        Probe::Empty => None,
        Probe::Further => match look_from(list, table, name, tag, 0, from) {
            Probe::Here(place) => Some(place),
            Probe::Empty | Probe::Further => None,
        },
    }
}
