//! The chain of pages that prepare follows, and what it tests on the way. Nothing here writes.
ghost use Rattle.std.specs.Prelude.{◌≡◌, ◌+◌, ◌<◌, ◌≤◌, [], IfOk, Option, Some, length, ⊤};
ghost use Rattle.pip_model.specs.Answers.{pair_at};
ghost use Rattle.pip_model.specs.Partitions.{HasPartition, InEach};
ghost use Rattle.pip_model.specs.Prepare.{page_refusals};
ghost use Rattle.pip_space.specs.Rows.{full_of};
ghost use Rattle.pip_kern.specs.Tested.{Tested};
ghost use Rattle.pip_grow.specs.Chain.{ChainAnswer, address_tests, row_tests};

use pip_base::{Frame, Pair, Status, Steps};
use pip_frames::Frames;
use pip_kern::{is_free, is_writable, row_at};
use pip_space::Row;
use std::sync::ledger::Ledger;

/// The pages of the three tables of a directory index, and a further list page if the child needs one.
#[derive(Clone, Copy, Debug, PartialEq, Eq)]
pub(crate) struct TablePages {
    pub(crate) mmu: Pair,
    pub(crate) shadow1: Pair,
    pub(crate) shadow2: Pair,
    pub(crate) list: Option<Pair>,
}

// The tests of a page's address. `seen` are the addresses before it.
fn check_address(seen: &[u32], va: u32) -> Result<(), Status>
    ensures { Tested (address_tests seen.now va) (λ u. ⊤) result }
{
    if va % 4096 != 0 {
        return Err(Status::NotAligned);
    }
    if va == 0 {
        return Err(Status::NullPage);
    }
    if seen.contains(&va) {
        return Err(Status::Repeated);
    }
    Ok(())
}

// The tests of a page's row.
fn check_row(row: &Row) -> Result<(), Status>
    ensures { Tested (row_tests (full_of row.now)) (λ u. ⊤) result }
{
    if !is_free(row) {
        return Err(Status::NotFree);
    }
    if !is_writable(row) {
        return Err(Status::NoRight);
    }
    Ok(())
}

// The page that the caller has at an address, if it may be the next of a chain, else the status of the first test that
// fails. `seen` are the addresses before it, the last first.
fn check_page<M: Frames, L: Ledger>(
    mem: &M,
    caller: Frame,
    seen: &[u32],
    va: u32,
    steps: &mut Steps<L>,
) -> Result<Pair, Status>
    requires { HasPartition (M.memory mem.now) caller }
    ensures page { InEach (M.memory mem.now) caller (λ t x.
        Tested (page_refusals t caller seen.now va) (λ g. g ≡ pair_at t caller va) result) }
    ensures inside { IfOk result (λ g. g.frame < length (M.memory mem.now)) }
    ensures steps { steps.new ≤ steps.old + 9 }
{
    check_address(seen, va)?;
    let row = row_at(mem, caller, va, steps).ok_or(Status::NotMapped)?;
    check_row(&row)?;
    Ok(Pair {
        va,
        frame: row.frame,
    })
}

/// The pages of the chain from the address `first` on, or the status of the first test that fails. There are `count` of
/// them, 3 or 4. Word 0 of the last isn't read.
pub(crate) fn check_chain<M: Frames, L: Ledger>(
    mem: &M,
    caller: Frame,
    first: u32,
    count: u32,
    steps: &mut Steps<L>,
) -> Result<TablePages, Status>
    requires stands { HasPartition (M.memory mem.now) caller }
    requires least { 3 ≤ count }
    requires most { count ≤ 4 }
    ensures chain { InEach (M.memory mem.now) caller (λ t x. ChainAnswer t caller count first result) }
    ensures steps { steps.new ≤ steps.old + 39 }
{
    let mmu = check_page(mem, caller, &[], first, steps)?;
    let second = mem.word(mmu.frame, 0, steps);
    let shadow1 = check_page(mem, caller, &[first], second, steps)?;
    let third = mem.word(shadow1.frame, 0, steps);
    let shadow2 = check_page(mem, caller, &[second, first], third, steps)?;
    if count == 3 {
        return Ok(TablePages {
            mmu,
            shadow1,
            shadow2,
            list: None,
        });
    }
    let fourth = mem.word(shadow2.frame, 0, steps);
    let list = check_page(mem, caller, &[third, second, first], fourth, steps)?;
    Ok(TablePages {
        mmu,
        shadow1,
        shadow2,
        list: Some(list),
    })
}
