//! collect: its tests, and then the tables come back.
ghost use Rattle.std.specs.Prelude.{◌≡◌, ◌+◌, ◌*◌, ◌<◌, ◌≤◌, Some, ⊤, length};
ghost use Rattle.pip_model.specs.Partitions.{HasPartition, InEach, IsHeld};
ghost use Rattle.pip_kern.specs.Tested.{Tested};
ghost use Rattle.pip_model.specs.Collect.{tree_without_table, first_va, returned_pages, without_table, collect};
ghost use Rattle.pip_model.specs.NodeIn.{OthersStay, Space};
ghost use Rattle.pip_model.specs.Tree.{chain, child_at, table_at};
ghost use Rattle.pip_model.specs.Work.{slots_work};
ghost use Rattle.pip_space.specs.Tables.{CanRemove, HasRemove, rows_beside};
ghost use Rattle.pip_grow.specs.Chain.{chain_pages};
ghost use Rattle.pip_grow.specs.Collecting.{CanCollect, HasCollect, table_tests};
ghost use Rattle.pip_kern.specs.Calls.{DoesWithValue};
ghost use Rattle.pip_space.specs.Nodes.{InEachSpace};

use crate::chain::TablePages;
use crate::links::link_pages;
use pip_base::{Frame, Status, Steps, VPage};
use pip_frames::Frames;
use pip_kern::{check_child, take_pages};
use pip_space::{has_table, is_table_empty, remove_table};
use std::sync::ledger::Ledger;

// ---- the tests

// The tests of a partition's tables of directory index `i`, below 1024: there are some, and no row is in them.
fn check_empty<M: Frames, L: Ledger>(
    mem: &M,
    part: Frame,
    i: u32,
    steps: &mut Steps<L>,
) -> Result<(), Status>
    requires stands { HasPartition (M.memory mem.now) part }
    requires index { i < 1024 }
    ensures tested { InEach (M.memory mem.now) part (λ t x. Tested (table_tests x i) (λ u. ⊤) result) }
    ensures steps { steps.new ≤ steps.old + 36 }
{
    if !has_table(mem, part, i, steps) {
        return Err(Status::NoTable);
    }
    if !is_table_empty(mem, part, i, steps) {
        return Err(Status::NotEmpty);
    }
    Ok(())
}

// ---- the writes

// Takes the tables of directory index `i`, below 1024, from a partition, with the rows in them. Answers their pages,
// and the list page that is no longer used. Nothing is said of what these pages then hold.
fn remove_pages<M: Frames, L: Ledger>(
    mem: &mut M,
    part: Frame,
    i: u32,
    steps: &mut Steps<L>,
) -> TablePages
    requires index { i < 1024 }
    requires can { HasRemove (M.memory mem.old) part i }
    ensures count { length (M.memory mem.new) ≡ length (M.memory mem.old) }
    ensures pages { InEachSpace (M.memory mem.old) part (λ x rows.
        CanRemove x rows i → chain_pages result ≡ returned_pages x (table_at x.tables i)) }
    ensures node { InEachSpace (M.memory mem.old) part (λ x rows.
        CanRemove x rows i → Space (M.memory mem.new) (without_table i x) (rows_beside i rows)
        × OthersStay x (M.memory mem.old) (M.memory mem.new)) }
    ensures steps { InEachSpace (M.memory mem.old) part (λ x rows. steps.new ≤ steps.old + length x.tables + 56) }
{
    let (tables, list) = remove_table(mem, part, i, steps);
    let [mmu, shadow1, shadow2] = tables;
    TablePages {
        mmu,
        shadow1,
        shadow2,
        list,
    }
}

// Takes the tables of directory index `i`, below 1024, back from the caller's child, and its last list page if no
// longer needed. Their pages are a chain afterwards. Answers the address of its first page.
fn take_table<M: Frames, L: Ledger>(
    mem: &mut M,
    caller: Frame,
    child: Frame,
    i: u32,
    steps: &mut Steps<L>,
) -> u32
    requires index { i < 1024 }
    requires can { HasCollect (M.memory mem.old) caller child i }
    ensures count { length (M.memory mem.new) ≡ length (M.memory mem.old) }
    ensures tree { InEach (M.memory mem.old) caller (λ t x. (can : CanCollect t caller child i) →
        (result ≡ first_va (returned_pages can.node (Some can.table)))
        × IsHeld (tree_without_table t child i (returned_pages can.node (Some can.table)))
        (M.memory mem.new)) }
    ensures chain { InEach (M.memory mem.old) caller (λ t x. (can : CanCollect t caller child i) →
        steps.new ≤ steps.old + 28 * length (chain t caller) + length can.node.tables + 64) }
{
    let pages = remove_pages(mem, child, i, steps);
    let tables = [pages.mmu, pages.shadow1, pages.shadow2];
    take_pages(mem, caller, &tables, steps);
    take_pages(mem, caller, pages.list.as_slice(), steps);
    link_pages(mem, &pages);
    pages.mmu.va
}

// ---- the call

/// collect for `caller`: docs/MODEL.md, "collect (call 4)". `d` is the address of the child's descriptor, `cv` an
/// address in the child. The answer is the address of the first page that came back; the pages are a chain that prepare
/// takes. Nothing changes after a refusal.
pub fn collect<M: Frames, L: Ledger>(
    mem: &mut M,
    caller: Frame,
    d: u32,
    cv: u32,
    steps: &mut Steps<L>,
) -> Result<u32, Status>
    requires { HasPartition (M.memory mem.old) caller }
    ensures does { DoesWithValue (λ t. collect t caller d cv) caller result (M.memory mem.old) (M.memory mem.new) }
    ensures chain { InEach (M.memory mem.old) caller (λ t x.
        steps.new ≤ steps.old + 28 * length (chain t caller) + 106 + slots_work (child_at t caller d)) }
    ensures steps { steps.new ≤ steps.old + 28 * length (M.memory mem.old) + 1130 }
{
    let child = check_child(mem, caller, &[d, cv], d, steps)?;
    let i = VPage::of_address(cv).number() / 1024;
    check_empty(mem, child, i, steps)?;
    Ok(take_table(mem, caller, child, i, steps))
}
