//! The labels that a search found.
ghost use Rattle.std.specs.Prelude.{IfOk};
ghost use Rattle.pip_search.specs.Growing.{Told};
ghost use Rattle.pip_search.specs.Keys.{labels};
ghost use Rattle.pip_search.specs.Naming.{AreNamed};

use crate::hash_table::HashTable;
use crate::hashes::hash_bytes;
use crate::names::{Names, find, is_same, kept};
use crate::visits::MadeChoice;
use std::alloc::{AllocError, Global};

/// A label, and where it was found first: the visit from which the choice was made, and how many choices that took,
/// this one included.
#[derive(Drop)]
pub struct Found {
    pub label: Vec<u8>,
    pub at: u32,
    pub choice: u32,
    pub depth: u32,
}

impl Names for Vec<Found> {
    ghost names_of = { λ fs. labels fs.items };

    ghost can_name = { λ fs. Unit {0} };

    fn is_at(&self, place: usize, name: &[u8]) -> bool {
        is_same(&self[place].label, name)
    }
}

/// Adds the label that a step showed, unless it is empty or was found before.
pub(crate) fn tell(
    found: &mut Vec<Found>,
    table: &mut HashTable,
    alloc: Global,
    label: &[u8],
    step: MadeChoice,
) -> Result<(), AllocError>
    requires named { AreNamed (labels found.old.items) table.old }
    ensures named { IfOk result (λ x. AreNamed (labels found.new.items) table.new) }
    ensures told { IfOk result (λ x. Told found.old.items found.new.items label.now step.at step.choice step.depth) }
{
    if label.is_empty() {
        return Ok(());
    }
    let hash = hash_bytes(table.seed, label);
    if find(found, table, label, hash).is_some() {
        return Ok(());
    }
    let label = kept(alloc, label)?;
    found.push(Found {
        label,
        at: step.at,
        choice: step.choice,
        depth: step.depth,
    })?;
    table.add(alloc, hash)?;
    Ok(())
}
