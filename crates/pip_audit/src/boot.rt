//! Whether the root is the one that a machine begins with.
ghost use Rattle.std.specs.Prelude.{◌≡◌, ℕ, ◌≤◌, ◌<◌, ◌+◌, ◌*◌, ◌^◌, ◌==◌, true, length, unwrap_or};
ghost use Rattle.pip_model.specs.Boot.{boot_root, boot_table, own};
ghost use Rattle.pip_model.specs.Parts.{same_all, same_base, same_pair, same_table};
ghost use Rattle.pip_model.specs.ReadOff.{base_read, pair_read, place_of_table, table_from};
ghost use Rattle.pip_audit.specs.BootRows.{HasBootRow, boot_base};
ghost use Rattle.pip_audit.specs.Judging.{Says};
ghost use Rattle.pip_audit.specs.Tables.{IsOf, tables_in};

use crate::nodes::place_in_directory;
use crate::tables::Tables;
use pip_base::{Frame, Steps, VIDT, VPage, WORDS};
use pip_entry::descriptor::{LIST_VA, MMU_VA, SELF_VA, SHADOW1_VA, SHADOW2_VA, TABLES};
use pip_entry::list_page::{FIRST_SLOT, SLOT_WORDS};
use pip_frames::Frames;
use pip_model::{ROOT, root_frame, root_tables};
use std::sync::ledger::Ledger;

// The frame of its MMU directory at the boot.
const MMU: u32 = 2;

// The frame of its first shadow directory.
const SHADOW1: u32 = 3;

// The frame of its second shadow directory.
const SHADOW2: u32 = 4;

// The frame of its list page.
const LIST: u32 = 5;

// The frame of its first table. The others come after it, three for a directory index.
const FIRST_TABLE: u32 = 6;

// Whether the two words of a page name this frame, and no address in a parent.
fn is_own<M: Frames, L: Ledger>(mem: &M, f: Frame, i: u32, frame: u32, steps: &mut Steps<L>) -> bool
    requires frame { f < length (M.memory mem.now) }
    requires index { i < 1023 }
    ensures { result ≡ same_pair (pair_read (M.memory mem.now) f i) (own frame) }
{
    mem.word(f, i, steps) == 0 && mem.word(f, i + 1, steps) == frame
}

/// Whether the base of the root is the boot's.
pub(crate) fn has_boot_base<M: Frames, L: Ledger>(mem: &M, steps: &mut Steps<L>) -> bool
    ensures { result ≡ same_base (base_read (M.memory mem.now) 1) boot_base }
{
    let root = Frame::new(ROOT);
    is_own(mem, root, SELF_VA, ROOT, steps)
        && is_own(mem, root, MMU_VA, MMU, steps)
        && is_own(mem, root, SHADOW1_VA, SHADOW1, steps)
        && is_own(mem, root, SHADOW2_VA, SHADOW2, steps)
        && is_own(mem, root, LIST_VA, LIST, steps)
}

// Whether a table's least place in a directory is `place`, which isn't 0.
fn stands_at<M: Frames, L: Ledger>(
    mem: &M,
    directory: Frame,
    table: Frame,
    index: u32,
    steps: &mut Steps<L>,
) -> bool
    requires directory { directory < length (M.memory mem.now) }
    requires some { 1 ≤ index }
    ensures { result ≡ (unwrap_or (place_of_table (M.memory mem.now) directory table) 0 == index) }
{
    if let Some(place) = place_in_directory(mem, directory, table, steps) {
        return place == index;
    }
    false
}

// Whether slot `k` of the root has the boot's tables of a directory index. The root's base is the boot's.
fn is_boot_slot<M: Frames, L: Ledger>(mem: &M, k: u32, index: u32, steps: &mut Steps<L>) -> bool
    requires few { k < 5 }
    requires some { 1 ≤ index }
    ensures { result ≡ same_table (table_from (M.memory mem.now) 2 5 (2 + 6 * k)) (boot_table index (6 + 3 * k)) }
{
    let list = Frame::new(LIST);
    let at = FIRST_SLOT + SLOT_WORDS * k;
    let table = FIRST_TABLE + 3 * k;
    is_own(mem, list, at, table, steps)
        && is_own(mem, list, at + 2, table + 1, steps)
        && is_own(mem, list, at + 4, table + 2, steps)
        && stands_at(mem, Frame::new(MMU), Frame::new(table), index, steps)
}

/// Whether the root, whose base is the boot's, has the boot's tables.
pub(crate) fn has_boot_tables<M: Frames, L: Ledger>(mem: &M, steps: &mut Steps<L>) -> bool
    requires base { same_base (base_read (M.memory mem.now) 1) boot_base ≡ true }
    ensures { result ≡ same_all same_table (tables_in (M.memory mem.now) 1)
        (boot_root (length (M.memory mem.now))).tables }
{
    let count = root_tables(mem.count());
    let found = mem.word(Frame::new(ROOT), TABLES, steps);
    if found != count + 1 {
        return false;
    }
    for k in 0..count {
        if !is_boot_slot(mem, k, 1 + k, steps) {
            return false;
        }
    }
    is_boot_slot(mem, count, VIDT / WORDS, steps)
}

// Whether the root has the boot's row at a virtual page, or none if the boot's has none.
fn has_boot_row<M: Frames, L: Ledger>(
    tables: &Tables,
    mem: &M,
    v: u32,
    steps: &mut Steps<L>,
) -> bool
    requires of { IsOf (M.memory mem.now) tables.now }
    requires small { v < 2 ^ 20 }
    ensures { Says result (HasBootRow (M.memory mem.now) (tables_in (M.memory mem.now) tables.now.part) v) }
{
    let wanted = root_frame(mem.count(), VPage::new(v));
    if let Some(row) = tables.row(mem, v, steps) {
        if let Some(frame) = wanted {
            return row.frame == frame.number() && row.rights == 7;
        }
        return false;
    }
    wanted.is_none()
}

// Whether the root has the boot's rows in the tables of a directory index.
fn has_boot_rows_in<M: Frames, L: Ledger>(
    tables: &Tables,
    mem: &M,
    index: u32,
    steps: &mut Steps<L>,
) -> bool
    requires of { IsOf (M.memory mem.now) tables.now }
    requires small { index < 1024 }
    ensures { Says result ((i : ℕ) → i < 1024 → HasBootRow (M.memory mem.now)
        (tables_in (M.memory mem.now) tables.now.part) (1024 * index + i)) }
{
    for i in 0..WORDS {
        if !has_boot_row(tables, mem, WORDS * index + i, steps) {
            return false;
        }
    }
    true
}

/// Whether the root, whose tables are the boot's, has the boot's rows.
pub(crate) fn has_boot_rows<M: Frames, L: Ledger>(
    tables: &Tables,
    mem: &M,
    steps: &mut Steps<L>,
) -> bool
    requires of { IsOf (M.memory mem.now) tables.now }
    requires tables { tables_in (M.memory mem.now) tables.now.part ≡ (boot_root (length (M.memory mem.now))).tables }
    ensures { Says result ((v : ℕ) → v < 2 ^ 20 → HasBootRow (M.memory mem.now)
        (tables_in (M.memory mem.now) tables.now.part) v) }
{
    let count = root_tables(mem.count());
    for k in 0..count {
        if !has_boot_rows_in(tables, mem, 1 + k, steps) {
            return false;
        }
    }
    has_boot_rows_in(tables, mem, VIDT / WORDS, steps)
}
