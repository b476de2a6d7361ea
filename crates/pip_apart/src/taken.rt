//! Which interrupt lines the root might take.
ghost use Rattle.std.specs.Prelude.{◌≡◌, ◌<◌};
ghost use Rattle.pip_model.specs.Partitions.{HasPartition, InEach};
ghost use Rattle.pip_model.specs.Tree.{row_at as tree_row_at, vpage};
ghost use Rattle.pip_apart.specs.Tops as defined;

use pip_base::{Access, Frame, LINES, Size, Steps};
use pip_frames::Frames;
use pip_kern::{is_free, row_at};
use pip_mmu::load;
use pip_model::ROOT;
use std::sync::ledger::Ledger;

/// The address of the root's entry for line 0.
const ENTRIES: u32 = 0xfffff080;

// Whether a child has the page at an address of the root.
fn is_lent<M: Frames, L: Ledger>(mem: &M, va: u32, steps: &mut Steps<L>) -> bool
    requires { HasPartition (M.memory mem.now) 1 }
    ensures { InEach (M.memory mem.now) 1 (λ t x. result ≡ defined.is_lent t (tree_row_at t.root.rows (vpage va))) }
{
    match row_at(mem, Frame::new(ROOT), va, steps) {
        Some(row) => !is_free(&row),
        None => false,
    }
}

/// Whether the root might take a line below 16: a child has the page of its entry, or the entry isn't 0.
pub fn might_take<M: Frames, L: Ledger>(mem: &M, line: u32, steps: &mut Steps<L>) -> bool
    requires stands { HasPartition (M.memory mem.now) 1 }
    requires line { line < 16 }
    ensures { InEach (M.memory mem.now) 1 (λ t x. result ≡ defined.might_take t line) }
{
    let va = ENTRIES + 4 * line;
    if is_lent(mem, va, steps) {
        return true;
    }
    match load(mem, Frame::new(ROOT), va, Size::Word, Access::Load, steps) {
        Ok(word) => word != 0,
        Err(_) => false,
    }
}

/// The first line that the root might take, if there is one.
pub fn first_taken<M: Frames, L: Ledger>(mem: &M, steps: &mut Steps<L>) -> Option<u32>
    requires { HasPartition (M.memory mem.now) 1 }
    ensures { InEach (M.memory mem.now) 1 (λ t x. result ≡ defined.first_taken t) }
{
    for line in 0..LINES {
        if might_take(mem, line, steps) {
            return Some(line);
        }
    }
    None
}
