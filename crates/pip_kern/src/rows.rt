//! What the tests of calls ask: addresses, the child and the rows at them, and what a row says of its page. Nothing
//! here writes. What reads needs frames that lay out some sound tree with the partition that it is given.
ghost use Rattle.std.specs.Prelude.{IfOk, ◌≡◌, ◌≢◌, ◌≤◌, ◌+◌, ◌==◌, Some, not, option_map, ⊤};
ghost use Rattle.std.specs.List.{list_any};
ghost use Rattle.pip_base.specs.Words.{shadow2_word};
ghost use Rattle.pip_entry.specs.Sh2.{packed_sh2};
ghost use Rattle.pip_kern.specs.Tested.{IsChildAt, Tested, child_tests, is_ungiven, is_writable, place_tests};
ghost use Rattle.pip_model.specs.FullRows.{full_rows};
ghost use Rattle.pip_model.specs.Lists.{In};
ghost use Rattle.pip_model.specs.Partitions.{HasPartition, InEach};
ghost use Rattle.pip_model.specs.Tree.{is_place, vpage};
ghost use Rattle.pip_space.specs.Rows.{full_of};

use crate::nodes::child_at;
use bitflags::Flags;
use pip_base::{Frame, Rights, Status, Steps, VPage, never};
use pip_entry::{Sh1, Sh2};
use pip_frames::Frames;
use pip_space::{Row, look};
use std::sync::ledger::Ledger;

// Whether one of the addresses is no multiple of 4096.
fn some_unaligned(places: &[u32]) -> bool
    ensures { result ≡ list_any (λ a. not (is_place a)) places.now }
{
    places.iter().any(|va| *va % 4096 != 0)
}

/// The tests of addresses alone: each is a multiple of 4096, and none is 0.
pub fn check_places(places: &[u32]) -> Result<(), Status>
    ensures { Tested (place_tests places.now) (λ u. ⊤) result }
{
    if some_unaligned(places) {
        return Err(Status::NotAligned);
    }
    if places.contains(&0) {
        return Err(Status::NullPage);
    }
    Ok(())
}

/// The child whose descriptor the caller has at the address `d`, one of `places`, or the status of the first test that
/// fails: those of the addresses, and that a child's descriptor is there.
pub fn check_child<M: Frames, L: Ledger>(
    mem: &M,
    caller: Frame,
    places: &[u32],
    d: u32,
    steps: &mut Steps<L>,
) -> Result<Frame, Status>
    requires stands { HasPartition (M.memory mem.now) caller }
    requires named { In d places.now }
    ensures child { InEach (M.memory mem.now) caller (λ t x.
        Tested (child_tests t caller places.now d) (λ c. IsChildAt t caller d c) result) }
    ensures stands { IfOk result (λ c. HasPartition (M.memory mem.now) c) }
    ensures steps { steps.new ≤ steps.old + 6 }
{
    check_places(places)?;
    match child_at(mem, caller, d, steps) {
        Some(child) => Ok(child),
        None => Err(Status::NotChild),
    }
}

/// The row of a partition at an address. None where it isn't mapped. Takes at most 9 steps.
pub fn row_at<M: Frames, L: Ledger>(
    mem: &M,
    part: Frame,
    va: u32,
    steps: &mut Steps<L>,
) -> Option<Row>
    requires { HasPartition (M.memory mem.now) part }
    ensures row { InEach (M.memory mem.now) part (λ t x.
        option_map full_of result ≡ full_rows t x (vpage va)) }
    ensures steps { steps.new ≤ steps.old + 9 }
{
    look(mem, part, VPage::of_address(va), steps)
}

/// Whether no child has the row's page.
pub fn is_free(row: &Row) -> bool
    ensures { result ≡ is_ungiven (full_of row.now) }
{
    row.given == Sh1::Free
}

/// Whether the row's page can be read and written.
pub fn is_writable(row: &Row) -> bool
    ensures { result ≡ is_writable (full_of row.now) }
{
    row.rights.contains(Rights::READ.union(Rights::WRITE))
}

/// Where the parent maps the page of which the second shadow says this.
pub fn place_above(from: Sh2) -> VPage
    requires { packed_sh2 from ≢ 0 }
    ensures { packed_sh2 from ≡ shadow2_word result }
{
    match from {
        Sh2::Empty => never!(),
        Sh2::Of(v) => v,
    }
}
