//! Reading and writing words and directory entries.
ghost use Rattle.std.specs.Prelude.{◌≡◌, ℕ, ◌<◌, ◌≤◌, ◌^◌, ◌+◌, ◌/◌, ◌%◌, ◌==◌, if◌then◌else◌, Some};
ghost use Rattle.pip_base.specs.Memory.{word_at, put_word};
ghost use Rattle.pip_entry.specs.DirWord.{packed_dir};
ghost use Rattle.pip_table.specs.Table.{IsDirectory, HasTable, table_frame, leaf_at, IsFitting, word_under};

use pip_base::{Frame, Steps, VPage, never};
use pip_entry::{DirWord, pack_dir, unpack_dir};
use pip_frames::Frames;
use std::sync::ledger::Ledger;

/// Entry `i` of the directory, `i` below 1024.
pub fn dir<M: Frames, L: Ledger>(mem: &M, top: Frame, i: u32, steps: &mut Steps<L>) -> DirWord
    requires table { IsDirectory (M.memory mem.now) top }
    requires index { i < 1024 }
    ensures entry { packed_dir result ≡ word_at (M.memory mem.now) top i }
    ensures step { steps.new ≡ steps.old + 1 }
{
    let word = mem.word(top, i, steps);
    match unpack_dir(word) {
        Some(entry) => entry,
        None => never!(),
    }
}

/// The word at a virtual page. None exactly where the directory entry of the page is empty.
pub fn leaf<M: Frames, L: Ledger>(
    mem: &M,
    top: Frame,
    v: VPage,
    steps: &mut Steps<L>,
) -> Option<u32>
    requires { IsDirectory (M.memory mem.now) top }
    ensures word { result ≡ leaf_at (M.memory mem.now) top v }
    ensures steps { steps.new ≤ steps.old + 2 }
{
    let number = v.number();
    match dir(mem, top, number / 1024, steps) {
        DirWord::Empty => None,
        DirWord::Table(frame) => Some(mem.word(frame, number % 1024, steps)),
    }
}

/// Writes `w` at a virtual page that has a table, and changes no other word of any frame.
pub fn set_leaf<M: Frames, L: Ledger>(
    mem: &mut M,
    top: Frame,
    v: VPage,
    w: u32,
    steps: &mut Steps<L>,
)
    requires table { IsDirectory (M.memory mem.old) top }
    requires has { HasTable (M.memory mem.old) top (v / 1024) }
    ensures words { M.memory mem.new ≡
        put_word (M.memory mem.old) (table_frame (M.memory mem.old) top (v / 1024)) (v % 1024) w }
    ensures table { IsDirectory (M.memory mem.new) top }
    ensures map { (u : ℕ) → u < 2 ^ 20 →
        leaf_at (M.memory mem.new) top u ≡ (if u == v then Some w else leaf_at (M.memory mem.old) top u) }
    ensures step { steps.new ≡ steps.old + 1 }
{
    let number = v.number();
    match dir(mem, top, number / 1024, steps) {
        DirWord::Empty => never!(),
        DirWord::Table(frame) => mem.set_word(frame, number % 1024, w),
    }
}

/// Writes entry `i` of the directory, `i` below 1024, and changes no other word of any frame. It takes no step. A table
/// that is installed begins with the words that its frame holds. The frame has to be in the memory, and neither the
/// directory nor already one of its tables: otherwise no clause says what the result is.
pub fn set_dir<M: Frames, L: Ledger>(
    mem: &mut M,
    top: Frame,
    i: u32,
    d: DirWord,
    steps: &mut Steps<L>,
)
    requires table { IsDirectory (M.memory mem.old) top }
    requires index { i < 1024 }
    ensures words { M.memory mem.new ≡ put_word (M.memory mem.old) top i (packed_dir d) }
    ensures table { IsFitting (M.memory mem.old) top d → IsDirectory (M.memory mem.new) top }
    ensures map { IsFitting (M.memory mem.old) top d → (v : ℕ) → v < 2 ^ 20 →
        leaf_at (M.memory mem.new) top v
        ≡ (if v / 1024 == i then word_under (M.memory mem.old) d (v % 1024) else leaf_at (M.memory mem.old) top v) }
    ensures steps { steps.new ≡ steps.old }
{
    mem.set_word(top, i, pack_dir(d));
}
