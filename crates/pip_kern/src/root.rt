//! The boot tree in frames.
ghost use Rattle.std.specs.Prelude.{◌≡◌, ◌<◌, ◌+◌, ◌*◌, [], length, replicate};
ghost use Rattle.pip_base.specs.Memory.{zeros};
ghost use Rattle.pip_kern.specs.Boot.{HoldsRoot, no_rows, with_root};
ghost use Rattle.pip_model.specs.Boot.{boot_root, boot_table, boot_tree, first_user, tables_of_root};
ghost use Rattle.pip_model.specs.Booting.{user_row as user_row_of};
ghost use Rattle.pip_model.specs.Layout.{LaysOut};
ghost use Rattle.pip_model.specs.FullRows.{full_rows};
ghost use Rattle.pip_model.specs.Tree.{table_pairs};
ghost use Rattle.pip_space.specs.Rows.{full_of};

use bitflags::Flags;
use pip_base::{Frame, Pair, Rights, Steps, VIDT, VPage};
use pip_config::Slot;
use pip_entry::descriptor::{
    LIST_FRAME, MMU_FRAME, PARENT, SELF_FRAME, SHADOW1_FRAME, SHADOW2_FRAME,
};
use pip_entry::{Sh1, Sh2};
use pip_frames::Frames;
use pip_model::{ROOT, root_tables};
use pip_space::{Row, install_table, map};
use std::sync::ledger::Ledger;

// Zeroes every frame.
fn zero_all<M: Frames>(mem: &mut M)
    ensures words { M.memory mem.new ≡ replicate (length (M.memory mem.old)) (zeros 1024) }
    ensures count { length (M.memory mem.new) ≡ length (M.memory mem.old) }
{
    for f in 0..mem.count() {
        mem.zero(Frame::new(f));
    }
}

// Writes the words of a root's descriptor that aren't 0 while it has no tables: its base in the frames 1 to 5, and
// itself as parent.
fn write_root<M: Frames>(mem: &mut M)
    requires { 1 < length (M.memory mem.old) }
    ensures words { M.memory mem.new ≡ with_root (M.memory mem.old) }
    ensures count { length (M.memory mem.new) ≡ length (M.memory mem.old) }
{
    let root = Frame::new(ROOT);
    mem.set_word(root, SELF_FRAME, ROOT);
    mem.set_word(root, MMU_FRAME, 2);
    mem.set_word(root, SHADOW1_FRAME, 3);
    mem.set_word(root, SHADOW2_FRAME, 4);
    mem.set_word(root, LIST_FRAME, 5);
    mem.set_word(root, PARENT, ROOT);
}

// A page of the root, which has no address in a parent.
fn own(f: u32) -> Pair
    requires { f < 4096 }
    ensures va { result.va ≡ 0 }
    ensures frame { result.frame ≡ f }
{
    Pair {
        va: 0,
        frame: Frame::new(f),
    }
}

// Three frames of the root from `g` on, for the tables of a directory index.
fn slot_at(g: u32) -> Slot
    requires { g + 2 < 4096 }
    ensures { table_pairs (boot_table 0 g) ≡ result }
{
    [own(g), own(g + 1), own(g + 2)]
}

// Gives the root its tables, in the frames from 6 on: `tables` of them from directory index 1 on, and the handlers'
// one.
fn add_tables<M: Frames, L: Ledger>(mem: &mut M, tables: u32, steps: &mut Steps<L>)
    requires number { tables ≡ tables_of_root (length (M.memory mem.old)) }
    requires root { HoldsRoot (length (M.memory mem.old)) 1 6 [] no_rows (M.memory mem.old) }
    ensures { HoldsRoot (length (M.memory mem.old)) 1024 (first_user (length (M.memory mem.old)))
        (boot_root (length (M.memory mem.old))).tables no_rows (M.memory mem.new) }
{
    let root = Frame::new(ROOT);
    for k in 0..tables {
        install_table(mem, root, k + 1, &slot_at(6 + 3 * k), None, steps);
    }
    install_table(
        mem,
        root,
        VIDT / 1024,
        &slot_at(6 + 3 * tables),
        None,
        steps,
    );
}

// The row of a page of the root, which may do anything with it.
fn user_row(f: u32) -> Row
    requires { f < 4096 }
    ensures { full_of result ≡ user_row_of f }
{
    Row {
        frame: Frame::new(f),
        rights: Rights::all(),
        user: true,
        given: Sh1::Free,
        from: Sh2::Empty,
    }
}

// Gives the root its pages, the frames from `first` to `n - 1`: from virtual page 1024 on, and the last one as the page
// of the handlers.
fn add_pages<M: Frames, L: Ledger>(mem: &mut M, first: u32, n: u32, steps: &mut Steps<L>)
    requires first { first ≡ first_user n }
    requires count { n ≡ length (M.memory mem.old) }
    requires root { HoldsRoot n 1024 (first_user n) (boot_root n).tables no_rows (M.memory mem.old) }
    ensures { HoldsRoot n 1024 (first_user n) (boot_root n).tables
        (full_rows (boot_tree n) (boot_root n)) (M.memory mem.new) }
{
    let root = Frame::new(ROOT);
    for f in first..n - 1 {
        map(
            mem,
            root,
            VPage::new(1024 + (f - first)),
            &user_row(f),
            steps,
        );
    }
    map(mem, root, VPage::new(VIDT), &user_row(n - 1), steps);
}

/// Lays out the boot tree in frames that hold only zeros, as new memory does: docs/FORMATS.md, "Boot with n frames".
pub fn boot_zeros<M: Frames, L: Ledger>(mem: &mut M, steps: &mut Steps<L>)
    requires { M.memory mem.old ≡ replicate (length (M.memory mem.old)) (zeros 1024) }
    ensures layout { LaysOut (boot_tree (length (M.memory mem.old))) (M.memory mem.new) }
    ensures count { length (M.memory mem.new) ≡ length (M.memory mem.old) }
{
    let n = mem.count();
    let tables = root_tables(n);
    write_root(mem);
    add_tables(mem, tables, steps);
    add_pages(mem, 9 + 3 * tables, n, steps);
}

/// Lays out the boot tree in the frames, whatever they held: docs/FORMATS.md, "Boot with n frames".
pub fn boot<M: Frames, L: Ledger>(mem: &mut M, steps: &mut Steps<L>)
    ensures layout { LaysOut (boot_tree (length (M.memory mem.old))) (M.memory mem.new) }
    ensures count { length (M.memory mem.new) ≡ length (M.memory mem.old) }
{
    zero_all(mem);
    boot_zeros(mem, steps);
}
