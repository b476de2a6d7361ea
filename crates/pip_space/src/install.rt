//! Installing and removing tables.
ghost use Rattle.std.specs.Prelude.{◌≡◌, ℕ, ◌<◌, ◌≤◌, ◌+◌, ◌++◌, Option, length};
ghost use Rattle.pip_base.specs.declared.types.Pair.{Pair};
ghost use Rattle.pip_base.specs.Memory.{zero_frame};
ghost use Rattle.pip_model.specs.Collect.{returned_pages};
ghost use Rattle.pip_model.specs.FullRows.{FullRow};
ghost use Rattle.pip_model.specs.NodeIn.{OthersStay, Space};
ghost use Rattle.pip_model.specs.Tree.{Node, Table, table_at, table_pairs};
ghost use Rattle.pip_model.specs.Prepare.{with_table};
ghost use Rattle.pip_model.specs.Collect.{without_table};
ghost use Rattle.pip_space.specs.Nodes.{InEachNode, InEachSpace};
ghost use Rattle.pip_space.specs.Tables.{AreInPages, CanInstall, CanRemove, HasInstall, HasRemove, page_list};
ghost use Rattle.pip_space.specs.Tables.{rows_beside};

use crate::lists::{add_list_page, drop_list_page, take_slot};
use crate::reads::table;
use crate::table_roots::{clear_entries, read_table_roots, set_entries};
use pip_base::{Frame, Pair, Steps, never};
use pip_config::{Slot, push_slot};
use pip_frames::Frames;
use pip_model::Level;
use std::sync::ledger::Ledger;

// Zeroes the three pages of a slot.
#[tactic(auto, using(crate::proofs::ListChanges::slot_in_mmu, crate::proofs::ListChanges::slot_in_shadow1, crate::proofs::ListChanges::slot_in_shadow2))]
fn zero_slot<M: Frames>(mem: &mut M, s: &Slot)
    requires { AreInPages (M.memory mem.old) s.now }
    ensures words { (b : Table) → table_pairs b ≡ s.now →
        M.memory mem.new ≡ zero_frame (zero_frame (zero_frame (M.memory mem.old) b.mmu.frame)
        b.shadow1.frame) b.shadow2.frame }
    ensures count { length (M.memory mem.new) ≡ length (M.memory mem.old) }
{
    let [mmu, shadow1, shadow2] = *s;
    mem.zero(mmu.frame);
    mem.zero(shadow1.frame);
    mem.zero(shadow2.frame);
}

/// Gives `part` the tables of directory index `i`, below 1024, in the pages of `s`, and the further list page `list`.
/// The pages are zeroed first. `part` has no table of this index yet; `list` is Some exactly if no slot is left.
pub fn install_table<M: Frames, L: Ledger>(
    mem: &mut M,
    part: Frame,
    i: u32,
    s: &Slot,
    list: Option<Pair>,
    steps: &mut Steps<L>,
)
    requires index { i < 1024 }
    requires can { HasInstall (M.memory mem.old) part i s.now list }
    ensures count { length (M.memory mem.new) ≡ length (M.memory mem.old) }
    ensures node { (x : Node) (rows : ℕ → Option FullRow) (b : Table) →
        Space (M.memory mem.old) x rows → x.name ≡ part → b.index ≡ i → table_pairs b ≡ s.now →
        CanInstall (M.memory mem.old) x b (page_list list) →
        Space (M.memory mem.new) (with_table b (page_list list) x) rows
        × OthersStay (with_table b (page_list list) x) (M.memory mem.old) (M.memory mem.new) }
    ensures steps { steps.new ≤ steps.old + 18 }
{
    let at = read_table_roots(mem, part, steps);
    zero_slot(mem, s);
    add_list_page(mem, at.list, at.tables, list, steps);
    push_slot(mem, at.list, at.tables, s, steps);
    let [mmu, shadow1, shadow2] = *s;
    set_entries(
        mem,
        &at,
        i,
        mmu.frame,
        shadow1.frame,
        shadow2.frame,
        at.tables + 1,
    );
}

/// Takes the tables of directory index `i`, below 1024, from `part`, with the rows in them. Gives their pages back, and
/// the list page that is no longer used, if there is one. Nothing is said of what these pages then hold.
pub fn remove_table<M: Frames, L: Ledger>(
    mem: &mut M,
    part: Frame,
    i: u32,
    steps: &mut Steps<L>,
) -> (Slot, Option<Pair>)
    requires index { i < 1024 }
    requires can { HasRemove (M.memory mem.old) part i }
    ensures count { length (M.memory mem.new) ≡ length (M.memory mem.old) }
    ensures pages { InEachSpace (M.memory mem.old) part (λ x rows.
        CanRemove x rows i → result.0 ++ page_list result.1 ≡ returned_pages x (table_at x.tables i)) }
    ensures node { InEachSpace (M.memory mem.old) part (λ x rows.
        CanRemove x rows i → Space (M.memory mem.new) (without_table i x) (rows_beside i rows)
        × OthersStay x (M.memory mem.old) (M.memory mem.new)) }
    ensures steps { InEachNode (M.memory mem.old) part (λ x cells.
        steps.new ≤ steps.old + length x.tables + 56) }
{
    let at = read_table_roots(mem, part, steps);
    match table(mem, part, Level::Mmu, i, steps) {
        None => never!(),
        Some(page) => {
            let slot = take_slot(mem, at.list, at.tables, page, steps);
            let list = drop_list_page(mem, at.list, at.tables - 1, steps);
            clear_entries(mem, &at, i, at.tables - 1);
            (slot, list)
        }
    }
}
