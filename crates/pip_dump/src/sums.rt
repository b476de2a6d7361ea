//! Totals of the tree.
ghost use Rattle.std.specs.Prelude.{◌≡◌, length};
ghost use Rattle.pip_model.specs.Partitions.{HasPartition, InEach, IsHeld};
ghost use Rattle.pip_model.specs.Tree.{Tree, config};
ghost use Rattle.pip_dump.specs.Totals.{TotalsOf};

use crate::numbers::Totals;
use crate::part::count_rows;
use crate::place::{first_place, next_place};
use pip_base::{Frame, Steps};
use pip_entry::descriptor::TABLES;
use pip_frames::Frames;
use pip_model::lists;
use std::sync::ledger::Ledger;

// How many pages of configuration a partition has: its descriptor, three directories, three tables for each directory
// index, and the list pages.
fn count_pages<M: Frames, L: Ledger>(mem: &M, part: Frame, steps: &mut Steps<L>) -> u32
    requires { HasPartition (M.memory mem.now) part }
    ensures { InEach (M.memory mem.now) part (λ t x. result ≡ length (config x)) }
{
    let tables = mem.word(part, TABLES, steps);
    4 + 3 * tables + lists(tables)
}

/// The totals of the tree that the frames lay out. Takes no memory.
pub fn totals<M: Frames, L: Ledger>(mem: &M, steps: &mut Steps<L>) -> Totals
    requires { HasPartition (M.memory mem.now) 1 }
    ensures { (t : Tree) → IsHeld t (M.memory mem.now) → TotalsOf result t }
{
    let mut parts: u32 = 0;
    let mut rows: u32 = 0;
    let mut hidden: u32 = 0;
    let mut next = Some(first_place());
    for _i in 0..mem.count() {
        match next {
            None => return Totals {
                parts,
                rows,
                hidden,
            },
            Some(place) => {
                parts += 1;
                rows += count_rows(mem, place.part, steps);
                hidden += count_pages(mem, place.part, steps);
                next = next_place(mem, &place, steps);
            }
        }
    }
    Totals {
        parts,
        rows,
        hidden,
    }
}
