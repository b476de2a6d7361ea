//! The list of a partition's tables, when a table comes or goes.
ghost use Rattle.std.specs.Prelude.{◌≡◌, ℕ, ◌<◌, ◌≤◌, ◌+◌, ◌*◌, ◌/◌, [], ◌++◌, List, Some, length, nat_lt};
ghost use Rattle.std.specs.Prelude.{if◌then◌else◌};
ghost use Rattle.pip_base.specs.declared.types.Pair.{Pair};
ghost use Rattle.pip_config.specs.Lists.{ListIn, ListStays, IsPlaceOfTable};
ghost use Rattle.pip_model.specs.Collect.{front_of, last_pair, swap_out};
ghost use Rattle.pip_model.specs.Tree.{Table, lists as lists_for, table_pairs};
ghost use Rattle.pip_space.specs.Lists.{CanAddPage, CanDropPage, CanTakeSlot, IsOutsideList};
ghost use Rattle.pip_space.specs.Tables.{page_list};

use pip_base::{Frame, Pair, Steps, never};
use pip_config::{Slot, append_page, find, pop_page, slot_at, swap_remove};
use pip_frames::Frames;
use pip_model::lists;
use std::sync::ledger::Ledger;

/// Adds a list page, zeroed, to a list of `m` slots, if there is one to add.
pub(crate) fn add_list_page<M: Frames, L: Ledger>(
    mem: &mut M,
    first: Frame,
    m: u32,
    list: Option<Pair>,
    steps: &mut Steps<L>,
)
    requires { CanAddPage (M.memory mem.old) first m list }
    ensures count { length (M.memory mem.new) ≡ length (M.memory mem.old) }
    ensures list { (more : List Pair) (ts : List Table) → ListIn (M.memory mem.old) first more ts →
        length ts ≡ m → length more + 1 ≡ lists_for m → IsOutsideList first more list →
        ListIn (M.memory mem.new) first (more ++ page_list list) ts
        × ListStays first (more ++ page_list list) (M.memory mem.old) (M.memory mem.new) }
    ensures steps { steps.new ≤ steps.old + lists_for m }
{
    match list {
        None => {}
        Some(page) => {
            mem.zero(page.frame);
            append_page(mem, first, lists(m), page, steps);
        }
    }
}

/// Takes the slot of an MMU table, which is in the frame `table`, out of a list of `m` slots.
pub(crate) fn take_slot<M: Frames, L: Ledger>(
    mem: &mut M,
    first: Frame,
    m: u32,
    table: Frame,
    steps: &mut Steps<L>,
) -> Slot
    requires { CanTakeSlot (M.memory mem.old) first m table }
    ensures count { length (M.memory mem.new) ≡ length (M.memory mem.old) }
    ensures list { (more : List Pair) (ts : List Table) (b : Table) (k : ℕ) →
        ListIn (M.memory mem.old) first more ts → length ts ≡ m → b.mmu.frame ≡ table → IsPlaceOfTable ts b k →
        (result ≡ table_pairs b) × ListIn (M.memory mem.new) first more (swap_out b.index ts)
        × ListStays first more (M.memory mem.old) (M.memory mem.new) }
    ensures steps { steps.new ≤ steps.old + m + 5 * (m / 170) + 12 }
{
    match find(mem, first, m, table, steps) {
        None => never!(),
        Some(k) => {
            let slot = slot_at(mem, first, m, k, steps);
            swap_remove(mem, first, m, k, steps);
            slot
        }
    }
}

/// Takes the last page off a list that has `m` slots left of `m + 1`, where they don't need it.
pub(crate) fn drop_list_page<M: Frames, L: Ledger>(
    mem: &mut M,
    first: Frame,
    m: u32,
    steps: &mut Steps<L>,
) -> Option<Pair>
    requires { CanDropPage (M.memory mem.old) first m }
    ensures count { length (M.memory mem.new) ≡ length (M.memory mem.old) }
    ensures list { (more : List Pair) (ts : List Table) → ListIn (M.memory mem.old) first more ts →
        length ts ≡ m → length more + 1 ≡ lists_for (m + 1) →
        (page_list result ≡ (if nat_lt (lists_for m) (lists_for (m + 1)) then last_pair more else []))
        × ListIn (M.memory mem.new) first
        (if nat_lt (lists_for m) (lists_for (m + 1)) then front_of more else more) ts
        × ListStays first more (M.memory mem.old) (M.memory mem.new) }
    ensures steps { steps.new ≤ steps.old + lists_for (m + 1) }
{
    let pages = lists(m + 1);
    if lists(m) < pages {
        Some(pop_page(mem, first, pages, steps))
    } else {
        None
    }
}
