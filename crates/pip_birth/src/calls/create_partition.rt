//! createPartition: its tests, and then what it writes.
ghost use Rattle.std.specs.Prelude.{◌≡◌, ◌+◌, ◌*◌, ◌<◌, ◌≤◌, Option, Some, length, not, ⊤};
ghost use Rattle.std.specs.List.{list_any};
ghost use Rattle.pip_model.specs.CreatePartition.{create_refusals, newborn, create_partition};
ghost use Rattle.pip_model.specs.FullRows.{full_rows};
ghost use Rattle.pip_model.specs.Lists.{repeats};
ghost use Rattle.pip_model.specs.Partitions.{HasPartition, InEach};
ghost use Rattle.pip_model.specs.Answers.{five_of};
ghost use Rattle.pip_model.specs.Tree.{base_pairs, chain};
ghost use Rattle.pip_space.specs.Rows.{full_of};
ghost use Rattle.pip_birth.specs.FivePages.{RowsAnswer, five_address_tests, pairs_of, five_row_tests};
ghost use Rattle.pip_kern.specs.Tested.{Tested, is_ungiven, is_writable};
ghost use Rattle.pip_kern.specs.Calls.{Does};

use crate::newborn::write_newborn;
use pip_base::{Frame, Pair, Status, Steps, VPage};
use pip_entry::Sh1;
use pip_frames::Frames;
use pip_kern::{check_places, give_page, give_pages, is_free, is_writable, row_at};
use pip_space::Row;
use std::sync::ledger::Ledger;

// ---- the tests

// Whether two of the addresses are the same.
fn repeats(pages: &[u32; 5]) -> bool
    ensures { result ≡ repeats pages.now }
{
    for (i, va) in pages.iter().enumerate() {
        if pages[i + 1..].contains(va) {
            return true;
        }
    }
    false
}

// The tests of the addresses alone.
fn check_addresses(pages: &[u32; 5]) -> Result<(), Status>
    ensures { Tested (five_address_tests pages.now) (λ u. ⊤) result }
{
    check_places(pages)?;
    if repeats(pages) {
        return Err(Status::Repeated);
    }
    Ok(())
}

// The rows of a partition at the five addresses. None where one of them isn't mapped.
fn rows_at<M: Frames, L: Ledger>(
    mem: &M,
    part: Frame,
    pages: &[u32; 5],
    steps: &mut Steps<L>,
) -> Option<[Row; 5]>
    requires { HasPartition (M.memory mem.now) part }
    ensures rows { InEach (M.memory mem.now) part (λ t x. RowsAnswer (full_rows t x) pages.now result) }
    ensures steps { steps.new ≤ steps.old + 45 }
{
    let [descriptor, mmu, shadow1, shadow2, list] = *pages;
    Some([
        row_at(mem, part, descriptor, steps)?,
        row_at(mem, part, mmu, steps)?,
        row_at(mem, part, shadow1, steps)?,
        row_at(mem, part, shadow2, steps)?,
        row_at(mem, part, list, steps)?,
    ])
}

// Whether a child has the page of one of the rows.
fn some_given(rows: &[Row; 5]) -> bool
    ensures { result ≡ list_any (λ r. not (is_ungiven (full_of r))) rows.now }
{
    rows.iter().any(|row| !is_free(row))
}

// Whether one of the pages can't be both read and written.
fn some_protected(rows: &[Row; 5]) -> bool
    ensures { result ≡ list_any (λ r. not (is_writable (full_of r))) rows.now }
{
    rows.iter().any(|row| !is_writable(row))
}

// The tests of the five rows.
fn check_rows(rows: &[Row; 5]) -> Result<(), Status>
    ensures { Tested (five_row_tests rows.now) (λ u. ⊤) result }
{
    if some_given(rows) {
        return Err(Status::NotFree);
    }
    if some_protected(rows) {
        return Err(Status::NoRight);
    }
    Ok(())
}

// The five pages, by their addresses and their rows.
fn pairs_of(pages: &[u32; 5], rows: &[Row; 5]) -> [Pair; 5]
    ensures { result ≡ pairs_of pages.now rows.now }
{
    std::array::from_fn(
        |k: usize| -> Pair
            requires { k < 5 }
        {
            Pair {
                va: pages[k],
                frame: rows[k].frame,
            }
        },
    )
}

// The five pages if the caller may give them for a new child, else the status of the first test that fails.
fn check_pages<M: Frames, L: Ledger>(
    mem: &M,
    caller: Frame,
    pages: &[u32; 5],
    steps: &mut Steps<L>,
) -> Result<[Pair; 5], Status>
    requires { HasPartition (M.memory mem.now) caller }
    ensures tested { InEach (M.memory mem.now) caller (λ t x. Tested (create_refusals t caller (five_of pages.now))
        (λ base. base ≡ base_pairs (newborn t caller (five_of pages.now)).base) result) }
    ensures steps { steps.new ≤ steps.old + 45 }
{
    check_addresses(pages)?;
    let rows = rows_at(mem, caller, pages, steps).ok_or(Status::NotMapped)?;
    check_rows(&rows)?;
    Ok(pairs_of(pages, &rows))
}

// ---- the call

/// createPartition for `caller`: docs/MODEL.md, "createPartition (call 0)". The pages are the child's descriptor, MMU
/// directory, first shadow directory, second shadow directory and list page, by their addresses in the caller. Nothing
/// changes after a refusal.
pub fn create_partition<M: Frames, L: Ledger>(
    mem: &mut M,
    caller: Frame,
    pages: &[u32; 5],
    steps: &mut Steps<L>,
) -> Status
    requires { HasPartition (M.memory mem.old) caller }
    ensures does { Does (λ t. create_partition t caller (five_of pages.now)) caller result 0
        (M.memory mem.old) (M.memory mem.new) }
    ensures steps { steps.new ≤ steps.old + 35 * length (M.memory mem.old) + 55 }
    ensures chain { InEach (M.memory mem.old) caller (λ t x.
        steps.new ≤ steps.old + 35 * length (chain t caller) + 55) }
{
    let base = match check_pages(mem, caller, pages, steps) {
        Ok(base) => base,
        Err(status) => return status,
    };
    let born = VPage::of_address(pages[0]);
    give_page(mem, caller, born, Sh1::Descriptor(born), steps);
    give_pages(mem, caller, born, &base.as_slice()[1..], steps);
    write_newborn(mem, &base, caller);
    Status::Ok
}
