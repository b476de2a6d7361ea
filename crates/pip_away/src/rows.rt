//! The rows of a partition, one after another.
ghost use Rattle.std.specs.Prelude.{◌≡◌, nat_lt, length};
ghost use Rattle.pip_model.specs.Partitions.{HasPartition, InEach};
ghost use Rattle.pip_model.specs.Tree.{children};
ghost use Rattle.pip_guests.specs.Entries.{fits_rows};
ghost use Rattle.pip_space.specs.Rows.{full_of};
ghost use Rattle.pip_away.specs.Blind.{is_row, own_rows};

use crate::blind::OwnRow;
use bitflags::Flags;
use pip_base::{Frame, Steps, VPage};
use pip_frames::Frames;
use pip_kern::is_free;
use pip_space::{Row, next_row};
use std::sync::ledger::Ledger;

// Whether a row is this one, and its page isn't hidden.
fn is_row(at: VPage, row: &Row, own: &OwnRow) -> bool
    ensures { result ≡ is_row at (full_of row.now) own.now }
{
    let same = at.number() == own.at && row.frame.number() == own.page;
    row.user && same && row.rights.bits() == own.rights
}

/// Whether a partition has exactly those of these rows that are of `owner`, and none of their pages is hidden.
pub(crate) fn has_rows<M: Frames, L: Ledger>(
    mem: &M,
    rows: &[OwnRow],
    part: Frame,
    owner: u32,
    steps: &mut Steps<L>,
) -> bool
    requires { HasPartition (M.memory mem.now) part }
    ensures { InEach (M.memory mem.now) part (λ t x. result ≡ fits_rows t part (own_rows rows.now owner)) }
{
    let mut after: Option<VPage> = None;
    for k in 0..rows.len() {
        let own = rows[k];
        if own.name == owner {
            let Some(next) = next_row(mem, part, after, steps) else {
                return false;
            };
            if !is_row(next.0, &next.1, &own) {
                return false;
            }
            after = Some(next.0);
        }
    }
    match next_row(mem, part, after, steps) {
        None => true,
        Some(_) => false,
    }
}

/// Whether a partition has no children.
pub(crate) fn is_childless<M: Frames, L: Ledger>(mem: &M, part: Frame, steps: &mut Steps<L>) -> bool
    requires { HasPartition (M.memory mem.now) part }
    ensures { InEach (M.memory mem.now) part (λ t x. result ≡ nat_lt (length (children t part)) 1) }
{
    let mut after: Option<VPage> = None;
    while let Some(next) = next_row(mem, part, after, steps) {
        if !is_free(&next.1) {
            return false;
        }
        after = Some(next.0);
    }
    true
}
