//! addVAddr: its tests, the two writes, and the call.
ghost use Rattle.std.specs.Prelude.{◌≡◌, length, ◌<◌, ◌≤◌, ◌+◌, Some, ⊤};
ghost use Rattle.pip_kern.specs.Calls.{Does};
ghost use Rattle.pip_lend.specs.Lending.{CanLend, HasLoan, loan_row, IsGranted, loan_of, page_tests, room_tests};
ghost use Rattle.pip_model.specs.AddVAddr.{add_vaddr, tree_with_row, add_refusals};
ghost use Rattle.pip_model.specs.Layout.{LaysOut};
ghost use Rattle.pip_model.specs.Partitions.{HasPartition, InEach};
ghost use Rattle.pip_model.specs.Tree.{Tree, has_table as tree_has_table, vpage};
ghost use Rattle.pip_base.specs.Rights.{rights_number};
ghost use Rattle.pip_kern.specs.Tested.{Tested};
ghost use Rattle.pip_space.specs.Rows.{full_of};

use crate::loan::Loan;
use bitflags::Flags;
use pip_base::{Frame, Rights, Status, Steps, VPage};
use pip_entry::{Sh1, Sh2};
use pip_frames::Frames;
use pip_kern::{check_child, is_free, row_at};
use pip_space::{Row, has_table, map, set_given};
use std::sync::ledger::Ledger;

// ---- the tests

// The rights of this number, if READ is among them, each is a right and `own` has each.
fn granted(rights: u32, own: Rights) -> Option<Rights>
    ensures { IsGranted rights (rights_number own) result }
{
    let rights = Rights::from_bits(rights)?;
    if rights.contains(Rights::READ) && own.contains(rights) {
        Some(rights)
    } else {
        None
    }
}

// The tests of the caller's row. Answers the rights that the child gets.
fn check_page(row: &Row, rights: u32) -> Result<Rights, Status>
    ensures { Tested (page_tests (full_of row.now) rights) (λ r. rights_number r ≡ rights) result }
{
    if !is_free(row) {
        return Err(Status::NotFree);
    }
    granted(rights, row.rights).ok_or(Status::NoRight)
}

// Whether a partition has a table for an address.
fn has_table_at<M: Frames, L: Ledger>(mem: &M, part: Frame, va: u32, steps: &mut Steps<L>) -> bool
    requires { HasPartition (M.memory mem.now) part }
    ensures table { InEach (M.memory mem.now) part (λ t y. result ≡ tree_has_table y (vpage va)) }
    ensures steps { steps.new ≤ steps.old + 2 }
{
    has_table(mem, part, va / 4096 / 1024, steps)
}

// The tests of the place in the child.
fn check_room<M: Frames, L: Ledger>(
    mem: &M,
    child: Frame,
    cv: u32,
    steps: &mut Steps<L>,
) -> Result<(), Status>
    requires { HasPartition (M.memory mem.now) child }
    ensures tested { InEach (M.memory mem.now) child (λ t y. Tested (room_tests y (vpage cv)) (λ u. ⊤) result) }
    ensures steps { steps.new ≤ steps.old + 11 }
{
    if !has_table_at(mem, child, cv, steps) {
        return Err(Status::NoTable);
    }
    if row_at(mem, child, cv, steps).is_some() {
        return Err(Status::Taken);
    }
    Ok(())
}

// The loan if the caller may make it, else the status of the first test that fails.
fn check_add<M: Frames, L: Ledger>(
    mem: &M,
    caller: Frame,
    v: u32,
    d: u32,
    cv: u32,
    rights: u32,
    steps: &mut Steps<L>,
) -> Result<Loan, Status>
    requires { HasPartition (M.memory mem.now) caller }
    ensures tested { InEach (M.memory mem.now) caller (λ t x.
        Tested (add_refusals t caller v d cv rights) (λ loan. loan ≡ loan_of t caller v d cv rights) result) }
    ensures steps { steps.new ≤ steps.old + 26 }
{
    let child = check_child(mem, caller, &[v, d, cv], d, steps)?;
    let row = row_at(mem, caller, v, steps).ok_or(Status::NotMapped)?;
    let rights = check_page(&row, rights)?;
    check_room(mem, child, cv, steps)?;
    Ok(Loan {
        v: VPage::of_address(v),
        frame: row.frame,
        born: VPage::of_address(d),
        child,
        at: VPage::of_address(cv),
        rights,
    })
}

// ---- the writes

// Gives the child its row, and says in the caller's first shadow that the page is lent.
fn lend<M: Frames, L: Ledger>(mem: &mut M, caller: Frame, loan: &Loan, steps: &mut Steps<L>)
    requires { HasLoan (M.memory mem.old) caller loan.now }
    ensures count { length (M.memory mem.new) ≡ length (M.memory mem.old) }
    ensures tree { (t : Tree) → CanLend t caller loan.now → LaysOut t (M.memory mem.old) →
        LaysOut (tree_with_row t loan.now.child (loan_row loan.now)) (M.memory mem.new) }
    ensures steps { steps.new ≤ steps.old + 8 }
{
    let row = Row {
        frame: loan.frame,
        rights: loan.rights,
        user: true,
        given: Sh1::Free,
        from: Sh2::Of(loan.v),
    };
    map(mem, loan.child, loan.at, &row, steps);
    set_given(mem, caller, loan.v, Sh1::Lent(loan.born), steps);
}

// ---- the call

/// addVAddr for `caller`: docs/MODEL.md, "addVAddr (call 5)": lends the page that the caller maps at `v` to the child
/// whose descriptor it has at `d`. The child maps it at `cv`, with these rights. Nothing changes after a refusal.
pub fn add_vaddr<M: Frames, L: Ledger>(
    mem: &mut M,
    caller: Frame,
    v: u32,
    d: u32,
    cv: u32,
    rights: u32,
    steps: &mut Steps<L>,
) -> Status
    requires { HasPartition (M.memory mem.old) caller }
    ensures does { Does (λ t. add_vaddr t caller v d cv rights) caller result 0
        (M.memory mem.old) (M.memory mem.new) }
    ensures steps { steps.new ≤ steps.old + 34 }
{
    let loan = match check_add(mem, caller, v, d, cv, rights, steps) {
        Ok(loan) => loan,
        Err(status) => return status,
    };
    lend(mem, caller, &loan, steps);
    Status::Ok
}
