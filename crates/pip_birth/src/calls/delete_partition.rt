//! deletePartition: its tests, and then the end of the subtree.
ghost use Rattle.std.specs.Prelude.{◌≡◌, ◌+◌, ◌*◌, ◌≤◌, length};
ghost use Rattle.pip_model.specs.DeletePartition.{delete_partition, delete_refusals, some_run};
ghost use Rattle.pip_model.specs.Partitions.{HasPartition, InEach, IsHeld};
ghost use Rattle.pip_model.specs.Tree.{Tree, below, child_at};
ghost use Rattle.pip_model.specs.Work.{climbing_work, deleting_work};
ghost use Rattle.pip_kern.specs.Calls.{Does};
ghost use Rattle.pip_kern.specs.Tested.{IsChildAt, Tested};
ghost use Rattle.pip_birth.specs.Deleting.{HasPartitions};
ghost use Rattle.pip_birth.specs.Ending.{most_ending_work};

use crate::ending::end_child;
use arrayvec::ArrayVec;
use pip_base::{Frame, Status, Steps, VPage};
use pip_frames::Frames;
use pip_kern::{check_child, is_below};
use std::sync::ledger::Ledger;

// ---- the tests

// Whether one of the partitions that run is `top`, or is below it.
fn some_run<M: Frames, L: Ledger>(
    mem: &M,
    running: &[Frame],
    top: Frame,
    steps: &mut Steps<L>,
) -> bool
    requires { HasPartitions (M.memory mem.now) running.now }
    ensures runs { InEach (M.memory mem.now) top (λ t x. result ≡ some_run running.now (below t top)) }
    ensures chains { (t : Tree) → IsHeld t (M.memory mem.now) → steps.new ≤ steps.old + climbing_work t running.now }
{
    for part in running {
        if is_below(mem, *part, top, steps) {
            return true;
        }
    }
    false
}

// The child whose descriptor the caller has at the address `d`, if it can end, else the status of the first test that
// fails. Nothing is written.
fn check_delete<M: Frames, L: Ledger>(
    mem: &M,
    caller: Frame,
    d: u32,
    running: &[Frame],
    steps: &mut Steps<L>,
) -> Result<Frame, Status>
    requires stands { HasPartition (M.memory mem.now) caller }
    requires running { HasPartitions (M.memory mem.now) running.now }
    ensures tested { InEach (M.memory mem.now) caller (λ t x.
        Tested (delete_refusals t running.now caller d) (λ c. IsChildAt t caller d c) result) }
    ensures chains { (t : Tree) → IsHeld t (M.memory mem.now) →
        steps.new ≤ steps.old + 6 + climbing_work t running.now }
{
    let child = check_child(mem, caller, &[d], d, steps)?;
    if some_run(mem, running, child, steps) {
        return Err(Status::Running);
    }
    Ok(child)
}

// ---- the call

/// deletePartition for `caller`: docs/MODEL.md, "deletePartition (call 1)". The child whose descriptor the caller has
/// at the address `d` and all below it end. `running` are the partitions that run. Nothing changes after a refusal.
pub fn delete_partition<M: Frames, L: Ledger>(
    mem: &mut M,
    caller: Frame,
    d: u32,
    running: &ArrayVec<Frame, 4>,
    steps: &mut Steps<L>,
) -> Status
    requires stands { HasPartition (M.memory mem.old) caller }
    requires running { HasPartitions (M.memory mem.old) running.now.items }
    ensures does { Does (λ t. delete_partition t running.now.items caller d) caller result 0
        (M.memory mem.old) (M.memory mem.new) }
    ensures subtree { InEach (M.memory mem.old) caller (λ t x. steps.new ≤ steps.old + 6
        + climbing_work t running.now.items + deleting_work t caller (child_at t caller d)) }
    ensures steps { steps.new ≤ steps.old + 6 + 4 * length (M.memory mem.old)
        + most_ending_work (length (M.memory mem.old)) }
{
    let child = match check_delete(mem, caller, d, running.as_slice(), steps) {
        Ok(child) => child,
        Err(status) => return status,
    };
    end_child(mem, caller, child, VPage::of_address(d), steps);
    Status::Ok
}
