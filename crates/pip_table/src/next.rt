//! Walking over the words that aren't 0.
ghost use Rattle.std.specs.Prelude.{◌<◌, ◌≤◌, ◌↔◌, ◌+◌, ◌*◌, ◌/◌, ◌^◌, ◌==◌, if◌then◌else◌, IsTrue, length};
ghost use Rattle.pip_base.specs.Memory.{word_at};
ghost use Rattle.pip_table.specs.Table.{IsDirectory, HasTable, IsEmptyTable, tables_below};
ghost use Rattle.pip_table.specs.NextLeaf.{IsFirstLeaf, IsNextLeaf};
ghost use Rattle.pip_table.specs.NextWord.{AreZero, IsFirstIndex, IsFirstTable, IsFirstWord};

use crate::dir;
use pip_base::{Frame, Steps, VPage, never};
use pip_entry::DirWord;
use pip_frames::Frames;
use std::sync::ledger::Ledger;

/// Whether the eight words from index `first` on, at most 1016, are 0. There is one test of all eight, and no branch
/// for each.
pub fn are_zero(words: &[u32; 1024], first: u32) -> bool
    requires { first ≤ 1016 }
    ensures { IsTrue result ↔ AreZero words.now first (first + 8) }
{
    let i = first as usize;
    (words[i] == 0)
        & (words[i + 1] == 0)
        & (words[i + 2] == 0)
        & (words[i + 3] == 0)
        & (words[i + 4] == 0)
        & (words[i + 5] == 0)
        & (words[i + 6] == 0)
        & (words[i + 7] == 0)
}

// An index up to which all words from index `k` on, at most 1024, are 0. It skips sixteen words at a time, and stops at
// sixteen of which one isn't 0, or if fewer are left.
fn skip_zeros(words: &[u32; 1024], k: u32) -> u32
    requires { k ≤ 1024 }
    ensures { (k ≤ result) × (result ≤ 1024) × AreZero words.now k result }
{
    let mut j = k;
    while j <= 1008 && are_zero(words, j) & are_zero(words, j + 8) {
        j += 16;
    }
    j
}

/// The index of the first word that isn't 0, from index `k` on, at most 1024. None exactly where there is none.
pub fn first_index(words: &[u32; 1024], k: u32) -> Option<u32>
    requires { k ≤ 1024 }
    ensures { IsFirstIndex words.now k result }
{
    // Where rows are side by side, the first word is the one.
    if k < 1024 && words[k as usize] != 0 {
        return Some(k);
    }
    for j in skip_zeros(words, k)..1024 {
        if words[j as usize] != 0 {
            return Some(j);
        }
    }
    None
}

// The index of the first word of a frame that isn't 0, from index `from` on, and the word. `from` is at most 1024.
#[tactic(auto, unfolding(pip_base::specs::Memory::word_at, pip_base::specs::Memory::frame_at))]
fn first_word<M: Frames, L: Ledger>(
    mem: &M,
    frame: Frame,
    from: u32,
    steps: &mut Steps<L>,
) -> Option<(u32, u32)>
    requires frame { frame < length (M.memory mem.now) }
    requires index { from ≤ 1024 }
    ensures first { IsFirstWord (M.memory mem.now) frame from result }
    ensures steps { steps.new ≤ steps.old + 32 }
{
    let words = mem.frame(frame, steps);
    let j = first_index(words, from)?;
    Some((j, words[j as usize]))
}

// The first virtual page whose word isn't 0, and its word, from `from` to the end of its directory index. `from` is
// below 2^20.
fn first_under<M: Frames, L: Ledger>(
    mem: &M,
    top: Frame,
    from: u32,
    steps: &mut Steps<L>,
) -> Option<(VPage, u32)>
    requires table { IsDirectory (M.memory mem.now) top }
    requires page { from < 2 ^ 20 }
    ensures first { IsFirstLeaf (M.memory mem.now) top from (1024 * (from / 1024 + 1)) result }
    ensures steps { steps.new ≤ steps.old + 1
        + 1024 * (if word_at (M.memory mem.now) top (from / 1024) == 0 then 0 else 1) }
{
    let i = from / 1024;
    match dir(mem, top, i, steps) {
        DirWord::Empty => None,
        DirWord::Table(frame) => {
            let (j, word) = first_word(mem, frame, from % 1024, steps)?;
            Some((VPage::new(1024 * i + j), word))
        }
    }
}

// The first virtual page whose word isn't 0, and its word, from `from` on, which is at most 2^20.
fn first_leaf<M: Frames, L: Ledger>(
    mem: &M,
    top: Frame,
    from: u32,
    steps: &mut Steps<L>,
) -> Option<(VPage, u32)>
    requires table { IsDirectory (M.memory mem.now) top }
    requires page { from ≤ 2 ^ 20 }
    ensures first { IsFirstLeaf (M.memory mem.now) top from (2 ^ 20) result }
    ensures steps { steps.new ≤ steps.old + 1024 + 1024 * tables_below (M.memory mem.now) top 1024 }
{
    for i in from / 1024..1024 {
        if let Some(found) = first_under(mem, top, from.max(1024 * i), steps) {
            return Some(found);
        }
    }
    None
}

/// The least virtual page above `after`, or of all where that is None, whose word isn't 0, and its word. None exactly
/// where there is none. A directory index without a table takes one step.
pub fn next_leaf<M: Frames, L: Ledger>(
    mem: &M,
    top: Frame,
    after: Option<VPage>,
    steps: &mut Steps<L>,
) -> Option<(VPage, u32)>
    requires { IsDirectory (M.memory mem.now) top }
    ensures next { IsNextLeaf (M.memory mem.now) top after result }
    ensures steps { steps.new ≤ steps.old + 1024 + 1024 * tables_below (M.memory mem.now) top 1024 }
{
    match after {
        Some(v) => first_leaf(mem, top, v.number() + 1, steps),
        None => first_leaf(mem, top, 0, steps),
    }
}

/// The first directory index from `from` on, at most 1024, that has a table. None exactly where there is none.
pub fn next_table<M: Frames, L: Ledger>(
    mem: &M,
    top: Frame,
    from: u32,
    steps: &mut Steps<L>,
) -> Option<u32>
    requires table { IsDirectory (M.memory mem.now) top }
    requires index { from ≤ 1024 }
    ensures first { IsFirstTable (M.memory mem.now) top from result }
    ensures steps { steps.new ≤ steps.old + 32 }
{
    let (i, _) = first_word(mem, top, from, steps)?;
    Some(i)
}

/// Whether all 1024 words of the table of directory index `i`, below 1024, are 0.
pub fn table_is_empty<M: Frames, L: Ledger>(
    mem: &M,
    top: Frame,
    i: u32,
    steps: &mut Steps<L>,
) -> bool
    requires table { IsDirectory (M.memory mem.now) top }
    requires index { i < 1024 }
    requires has { HasTable (M.memory mem.now) top i }
    ensures empty { IsTrue result ↔ IsEmptyTable (M.memory mem.now) top i }
    ensures steps { steps.new ≤ steps.old + 33 }
{
    match dir(mem, top, i, steps) {
        DirWord::Empty => never!(),
        DirWord::Table(frame) => first_word(mem, frame, 0, steps).is_none(),
    }
}
