//! prepare: the chain is followed and tested, and then its pages are given.
ghost use Rattle.std.specs.Prelude.{◌≡◌, ◌+◌, ◌*◌, ◌<◌, ◌≤◌, length};
ghost use Rattle.pip_model.specs.Prepare.{tree_with_table, prepare};
ghost use Rattle.pip_grow.specs.Chain.{chain_pages};
ghost use Rattle.pip_grow.specs.Preparing.{CanPrepare, HasPrepare};
ghost use Rattle.pip_model.specs.Partitions.{HasPartition, InEach, IsHeld};
ghost use Rattle.pip_kern.specs.Calls.{DoesWithValue};
ghost use Rattle.pip_model.specs.Tree.{chain};

use crate::calls::count_to_map::pages_needed;
use crate::chain::{TablePages, check_chain};
use pip_base::{Frame, Status, Steps, VPage};
use pip_frames::Frames;
use pip_kern::{check_child, give_pages};
use pip_space::install_table;
use std::sync::ledger::Ledger;

// ---- the writes

// Gives the caller's pages to `child`, whose descriptor the caller has at the virtual page `born`: they become its
// tables of directory index `i`, below 1024, and its last list page.
fn give_table<M: Frames, L: Ledger>(
    mem: &mut M,
    caller: Frame,
    child: Frame,
    born: VPage,
    i: u32,
    pages: &TablePages,
    steps: &mut Steps<L>,
)
    requires can { HasPrepare (M.memory mem.old) caller child born i pages.now }
    requires index { i < 1024 }
    ensures count { length (M.memory mem.new) ≡ length (M.memory mem.old) }
    ensures tree { InEach (M.memory mem.old) caller (λ t x. CanPrepare t caller child born i pages.now →
        IsHeld (tree_with_table t child i (chain_pages pages.now)) (M.memory mem.new)) }
    ensures steps { steps.new ≤ steps.old + 28 * length (M.memory mem.old) + 26 }
    ensures chain { InEach (M.memory mem.old) caller (λ t x. CanPrepare t caller child born i pages.now →
        steps.new ≤ steps.old + 28 * length (chain t caller) + 26) }
{
    let tables = [pages.mmu, pages.shadow1, pages.shadow2];
    give_pages(mem, caller, born, &tables, steps);
    give_pages(mem, caller, born, pages.list.as_slice(), steps);
    install_table(mem, child, i, &tables, pages.list, steps);
}

// ---- the call

/// prepare for `caller`: docs/MODEL.md, "prepare (call 3)". `d` is the address of the child's descriptor, `cv` an
/// address in the child, and `first` the address of the first page of the chain. The answer is the number of pages that
/// the child was given, 0, 3 or 4. Nothing changes after a refusal.
pub fn prepare<M: Frames, L: Ledger>(
    mem: &mut M,
    caller: Frame,
    d: u32,
    cv: u32,
    first: u32,
    steps: &mut Steps<L>,
) -> Result<u32, Status>
    requires { HasPartition (M.memory mem.old) caller }
    ensures does { DoesWithValue (λ t. prepare t caller d cv first) caller result (M.memory mem.old)
        (M.memory mem.new) }
    ensures steps { steps.new ≤ steps.old + 28 * length (M.memory mem.old) + 74 }
    ensures chain { InEach (M.memory mem.old) caller (λ t x.
        steps.new ≤ steps.old + 28 * length (chain t caller) + 74) }
{
    let child = check_child(mem, caller, &[d, cv], d, steps)?;
    let v = VPage::of_address(cv);
    let count = pages_needed(mem, child, v, steps);
    if count == 0 {
        return Ok(0);
    }
    let pages = check_chain(mem, caller, first, count, steps)?;
    let born = VPage::of_address(d);
    give_table(mem, caller, child, born, v.number() / 1024, &pages, steps);
    Ok(count)
}
