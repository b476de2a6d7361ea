//! removeVAddr: its tests, the two writes, and the call.
ghost use Rattle.std.specs.Prelude.{◌≡◌, ◌≤◌, ◌+◌, length};
ghost use Rattle.pip_kern.specs.Calls.{Does};
ghost use Rattle.pip_kern.specs.Tested.{Tested};
ghost use Rattle.pip_lend.specs.Lending.{CanRecall, HasRecall, IsRecall};
ghost use Rattle.pip_model.specs.Layout.{LaysOut};
ghost use Rattle.pip_model.specs.Partitions.{HasPartition, InEach};
ghost use Rattle.pip_model.specs.RemoveVAddr.{remove_refusals, remove_vaddr, tree_without_row};
ghost use Rattle.pip_model.specs.Tree.{Tree};

use crate::recall::Recall;
use pip_base::{Frame, Status, Steps, VPage};
use pip_entry::{Sh1, Sh2};
use pip_frames::Frames;
use pip_kern::{check_child, is_free, place_above, row_at};
use pip_space::{set_given, unmap};
use std::sync::ledger::Ledger;

// ---- the tests

// The page that the caller may take back, or the status of the first test that fails. Nothing is written.
fn check_remove<M: Frames, L: Ledger>(
    mem: &M,
    caller: Frame,
    d: u32,
    cv: u32,
    steps: &mut Steps<L>,
) -> Result<Recall, Status>
    requires { HasPartition (M.memory mem.now) caller }
    ensures tested { InEach (M.memory mem.now) caller (λ t x.
        Tested (remove_refusals t caller d cv) (λ k. IsRecall t caller d cv k) result) }
    ensures steps { steps.new ≤ steps.old + 15 }
{
    let child = check_child(mem, caller, &[d, cv], d, steps)?;
    let row = row_at(mem, child, cv, steps).ok_or(Status::Absent)?;
    if !is_free(&row) {
        return Err(Status::LentOn);
    }
    Ok(Recall {
        child,
        at: VPage::of_address(cv),
        v: place_above(row.from),
    })
}

// ---- the writes

// Takes the row from the child, and says in the caller's first shadow that the page is free.
fn take_back<M: Frames, L: Ledger>(
    mem: &mut M,
    caller: Frame,
    recall: &Recall,
    steps: &mut Steps<L>,
)
    requires { HasRecall (M.memory mem.old) caller recall.now }
    ensures count { length (M.memory mem.new) ≡ length (M.memory mem.old) }
    ensures tree { (t : Tree) → CanRecall t caller recall.now → LaysOut t (M.memory mem.old) →
        LaysOut (tree_without_row t recall.now.child recall.now.at) (M.memory mem.new) }
    ensures steps { steps.new ≤ steps.old + 8 }
{
    unmap(mem, recall.child, recall.at, steps);
    set_given(mem, caller, recall.v, Sh1::Free, steps);
}

// ---- the call

/// removeVAddr for `caller`: docs/MODEL.md, "removeVAddr (call 6)": takes back the page that the child whose descriptor
/// the caller has at `d` maps at `cv`. Nothing changes after a refusal.
pub fn remove_vaddr<M: Frames, L: Ledger>(
    mem: &mut M,
    caller: Frame,
    d: u32,
    cv: u32,
    steps: &mut Steps<L>,
) -> Status
    requires { HasPartition (M.memory mem.old) caller }
    ensures does { Does (λ t. remove_vaddr t caller d cv) caller result 0 (M.memory mem.old) (M.memory mem.new) }
    ensures steps { steps.new ≤ steps.old + 23 }
{
    let recall = match check_remove(mem, caller, d, cv, steps) {
        Ok(recall) => recall,
        Err(status) => return status,
    };
    take_back(mem, caller, &recall, steps);
    Status::Ok
}
