//! The words that the layout wants in a page of configuration, by the page's role in its node.
ghost use Rattle.std.specs.Prelude.{◌≡◌, ℕ, ◌+◌, ◌*◌, ◌<◌, ◌≤◌, ◌^◌, None, Some, length, not, slice_index, true};
ghost use Rattle.pip_base.specs.Memory.{word_at};
ghost use Rattle.pip_base.specs.Words.{leaf_word};
ghost use Rattle.pip_model.specs.NodeWords.{descriptor_word, list_word};
ghost use Rattle.pip_model.specs.FullRows.{row_word};
ghost use Rattle.pip_model.specs.ReadOff.{node_read, node_stop};
ghost use Rattle.pip_model.specs.Tree.{lists};
ghost use Rattle.pip_audit.specs.Comparing.{FitsRole, HoldsNode, IsFirstIn, differs_at, differs_from, entry_held};
ghost use Rattle.pip_audit.specs.Comparing.{page_in, role_of, rows_held, wanted_word};
ghost use Rattle.pip_audit.specs.FrameSets.{contains};
ghost use Rattle.pip_audit.specs.Tables.{held_at};

use crate::auditor::Auditor;
use crate::nodes::list_page;
use crate::tables::{FoundRow, Triple};
use pip_base::{Frame, LINES, Steps, WORDS};
use pip_entry::descriptor::{FLAGS, LIST_FRAME, MASKED, PARENT, PENDING, TABLES};
use pip_entry::list_page::{FIRST_SLOT, SLOT_WORDS, SLOTS};
use pip_entry::{DirWord, pack_dir};
use pip_frames::Frames;
use pip_model::{Difference, Level, lists};
use pip_table::are_zero;
use std::sync::ledger::Ledger;

/// What a page is in its node.
#[derive(Clone, Copy, Debug, PartialEq, Eq)]
pub(crate) enum Role {
    /// No configuration: its words are 0.
    Nothing,
    Descriptor,
    Directory(Level),
    /// A table of a directory index.
    Table { level: Level, index: u32 },
    /// A list page by its number, from 0 on.
    List(u32),
}

/// The table of a level.
pub(crate) fn page_of(level: Level, tables: Triple) -> Frame
    ensures { result ≡ page_in level tables }
{
    match level {
        Level::Mmu => tables.mmu,
        Level::Shadow1 => tables.shadow1,
        Level::Shadow2 => tables.shadow2,
    }
}

// Whether the words of block `b` of a frame are 0.
fn is_zero_block(words: &[u32; 1024], b: u32) -> bool
    requires { b < 32 }
    ensures { result ≡ true → (i : ℕ) → i < 32 → slice_index words.now (32 * b + i) ≡ 0 }
{
    let first = 32 * b;
    are_zero(words, first)
        & are_zero(words, first + 8)
        & are_zero(words, first + 16)
        & are_zero(words, first + 24)
}

// Word `i` of a descriptor. Two of its words have bits that no node uses: the flags and the pending lines.
fn descriptor_word<M: Frames, L: Ledger>(mem: &M, part: Frame, i: u32, steps: &mut Steps<L>) -> u32
    requires part { part < length (M.memory mem.now) }
    requires index { i < 1024 }
    ensures { result ≡ descriptor_word (node_read (M.memory mem.now) part) i }
{
    let found = mem.word(part, i, steps);
    if i <= LIST_FRAME {
        found
    } else if i == PARENT {
        found
    } else if i == TABLES {
        found
    } else if i == FLAGS {
        found & MASKED
    } else if i == PENDING {
        found % (1 << LINES)
    } else {
        0
    }
}

// Word `i` of list page `k`. Words after the last link and the last slot are 0.
fn list_word<M: Frames, L: Ledger>(
    mem: &M,
    part: Frame,
    k: u32,
    i: u32,
    steps: &mut Steps<L>,
) -> u32
    requires part { part < length (M.memory mem.now) }
    requires passes { node_stop (M.memory mem.now) part ≡ None }
    requires page { k < lists (word_at (M.memory mem.now) part 12) }
    requires index { i < 1024 }
    ensures { result ≡ list_word (node_read (M.memory mem.now) part) k i }
{
    let count = mem.word(part, TABLES, steps);
    let page = list_page(mem, part, k, steps);
    let found = mem.word(page, i, steps);
    if i < FIRST_SLOT {
        return if k + 1 < lists(count) { found } else { 0 };
    }
    if i >= FIRST_SLOT + SLOT_WORDS * SLOTS {
        return 0;
    }
    if SLOTS * k + (i - FIRST_SLOT) / SLOT_WORDS < count {
        found
    } else {
        0
    }
}

// Whether block `b` of list page `k` comes after the last slot.
fn lacks_slots<M: Frames, L: Ledger>(
    mem: &M,
    part: Frame,
    k: u32,
    b: u32,
    steps: &mut Steps<L>,
) -> bool
    requires part { part < length (M.memory mem.now) }
    requires few { k < 1024 }
    requires block { b < 32 }
    ensures { result ≡ true → (i : ℕ) → i < 32 → list_word (node_read (M.memory mem.now) part) k (32 * b + i) ≡ 0 }
{
    let count = mem.word(part, TABLES, steps);
    b > 0 && SLOTS * k + (32 * b - FIRST_SLOT) / SLOT_WORDS >= count
}

impl Auditor {
    // Word `i` of the node's directory of a level.
    fn directory_word(&self, level: Level, i: u32) -> u32
        requires room { length self.now.node.of.items ≡ 1024 }
        requires index { i < 1024 }
        requires small { (b : Triple) → held_at self.now.node i ≡ Some b → page_in level b < 4096 }
        ensures { result ≡ entry_held level (held_at self.now.node i) }
    {
        match self.node.at(i) {
            None => 0,
            Some(tables) => pack_dir(DirWord::Table(page_of(level, tables))),
        }
    }

    // The word of a row in an MMU table: open to the user where its page isn't hidden.
    fn leaf_word(&self, row: FoundRow) -> u32
        requires frame { row.frame < length self.now.sets.hidden.has.items }
        requires few { length self.now.sets.hidden.has.items ≤ 4096 }
        requires rights { row.rights < 8 }
        ensures { result ≡ leaf_word row.frame (not (contains self.now.sets.hidden row.frame)) row.rights }
    {
        let is_hidden = self.sets.hidden.contains(row.frame);
        let user = if is_hidden { 0 } else { 2 };
        row.frame * 4096 + 1 + user + 4 * row.rights
    }

    // The word of a virtual page in the node's tables of a level.
    fn cell<M: Frames, L: Ledger>(&self, mem: &M, level: Level, v: u32, steps: &mut Steps<L>) -> u32
        requires holds { HoldsNode (M.memory mem.now) self.now }
        requires small { v < 2 ^ 20 }
        ensures { result ≡ row_word level (rows_held (M.memory mem.now) self.now v) }
    {
        match self.node.row(mem, v, steps) {
            None => 0,
            Some(row) => match level {
                Level::Mmu => self.leaf_word(row),
                Level::Shadow1 => self.words.given.at(row.frame),
                Level::Shadow2 => self.words.above.at(row.frame),
            },
        }
    }

    // Word `i` of a page of the node.
    fn wanted<M: Frames, L: Ledger>(
        &self,
        mem: &M,
        role: &Role,
        i: u32,
        steps: &mut Steps<L>,
    ) -> u32
        requires holds { HoldsNode (M.memory mem.now) self.now }
        requires fits { FitsRole (M.memory mem.now) self.now.node.part (role_of role.now) }
        requires index { i < 1024 }
        ensures { result ≡ wanted_word (M.memory mem.now) self.now (role_of role.now) i }
    {
        match *role {
            Role::Nothing => 0,
            Role::Descriptor => descriptor_word(mem, self.node.part(), i, steps),
            Role::Directory(level) => self.directory_word(level, i),
            Role::Table { level, index } => self.cell(mem, level, WORDS * index + i, steps),
            Role::List(k) => list_word(mem, self.node.part(), k, i, steps),
        }
    }

    // Whether word `i` of a page is the wanted one.
    fn word_difference<M: Frames, L: Ledger>(
        &self,
        mem: &M,
        f: Frame,
        role: &Role,
        i: u32,
        steps: &mut Steps<L>,
    ) -> Option<Difference>
        requires holds { HoldsNode (M.memory mem.now) self.now }
        requires frame { f < length (M.memory mem.now) }
        requires fits { FitsRole (M.memory mem.now) self.now.node.part (role_of role.now) }
        requires index { i < 1024 }
        ensures { result ≡ differs_at (M.memory mem.now) self.now f (role_of role.now) i }
    {
        let found = mem.word(f, i, steps);
        let want = self.wanted(mem, role, i, steps);
        if found == want {
            None
        } else {
            Some(Difference {
                frame: f.number(),
                index: i,
                found,
                want,
            })
        }
    }

    // Whether the node is known to want zeros in block `b` of a page.
    fn wants_zeros<M: Frames, L: Ledger>(
        &self,
        mem: &M,
        role: &Role,
        b: u32,
        steps: &mut Steps<L>,
    ) -> bool
        requires holds { HoldsNode (M.memory mem.now) self.now }
        requires fits { FitsRole (M.memory mem.now) self.now.node.part (role_of role.now) }
        requires block { b < 32 }
        ensures { result ≡ true → (i : ℕ) → i < 32 → wanted_word (M.memory mem.now) self.now (role_of role.now)
            (32 * b + i) ≡ 0 }
    {
        match *role {
            Role::Directory(_) => self.node.has_none_in(b),
            Role::Table { index, .. } => match self.node.at(index) {
                None => true,
                Some(tables) => is_zero_block(mem.frame(tables.mmu, steps), b),
            },
            Role::Descriptor => b > 0,
            Role::List(k) => lacks_slots(mem, self.node.part(), k, b, steps),
            Role::Nothing => true,
        }
    }

    // Whether block `b` of a page has zeros where the node is known to want zeros.
    fn is_blank_block<M: Frames, L: Ledger>(
        &self,
        mem: &M,
        f: Frame,
        role: &Role,
        b: u32,
        steps: &mut Steps<L>,
    ) -> bool
        requires holds { HoldsNode (M.memory mem.now) self.now }
        requires frame { f < length (M.memory mem.now) }
        requires fits { FitsRole (M.memory mem.now) self.now.node.part (role_of role.now) }
        requires block { b < 32 }
        ensures { result ≡ true → (i : ℕ) → i < 32 → differs_at (M.memory mem.now) self.now f (role_of role.now)
            (32 * b + i) ≡ None }
    {
        if !is_zero_block(mem.frame(f, steps), b) {
            return false;
        }
        self.wants_zeros(mem, role, b, steps)
    }

    // The first word of block `b` of a page that isn't the wanted one.
    #[inline(always)]
    fn difference_in_block<M: Frames, L: Ledger>(
        &self,
        mem: &M,
        f: Frame,
        role: &Role,
        b: u32,
        steps: &mut Steps<L>,
    ) -> Option<Difference>
        requires holds { HoldsNode (M.memory mem.now) self.now }
        requires frame { f < length (M.memory mem.now) }
        requires fits { FitsRole (M.memory mem.now) self.now.node.part (role_of role.now) }
        requires block { b < 32 }
        ensures { IsFirstIn (λ i. differs_at (M.memory mem.now) self.now f (role_of role.now) i) (32 * b) result }
    {
        for i in 32 * b..32 * b + 32 {
            if let Some(difference) = self.word_difference(mem, f, role, i, steps) {
                return Some(difference);
            }
        }
        None
    }

    /// The first word of a page that isn't the one that its role in the node wants.
    #[inline(always)]
    pub(crate) fn difference_in<M: Frames, L: Ledger>(
        &self,
        mem: &M,
        f: Frame,
        role: &Role,
        steps: &mut Steps<L>,
    ) -> Option<Difference>
        requires holds { HoldsNode (M.memory mem.now) self.now }
        requires frame { f < length (M.memory mem.now) }
        requires fits { FitsRole (M.memory mem.now) self.now.node.part (role_of role.now) }
        ensures { result ≡ differs_from (M.memory mem.now) self.now f (role_of role.now) }
    {
        for b in 0..32 {
            if !self.is_blank_block(mem, f, role, b, steps) {
                if let Some(difference) = self.difference_in_block(mem, f, role, b, steps) {
                    return Some(difference);
                }
            }
        }
        None
    }
}
