//! The tables of one node, and its rows.
ghost use Rattle.std.specs.Prelude.{◌≡◌, ℕ, ◌≤◌, ◌<◌, ◌+◌, ◌*◌, ◌/◌, ◌^◌, ◌==◌, ◌||◌, false, true, if◌then◌else◌};
ghost use Rattle.std.specs.Prelude.{is_some, IfOk, None, Some, length};
ghost use Rattle.pip_base.specs.Memory.{word_at};
ghost use Rattle.pip_base.specs.Words.{directory_word};
ghost use Rattle.pip_audit.specs.Blocks.{AreKnown};
ghost use Rattle.pip_audit.specs.declared.tables.SoughtRows.TheVariants.{Child};
ghost use Rattle.pip_audit.specs.Tables.{HasPlaces, HasTableRoom, IsFirstRow, IsFirstSought, IsNextLeft, IsOf};
ghost use Rattle.pip_audit.specs.Tables.{IsReady, IsRowAt, IsSoughtAt, TellsRows, directory_in, held_at, place_held};
ghost use Rattle.pip_audit.specs.Tables.{row_seen, row_sought, tables_in, triple_with};
ghost use Rattle.pip_model.specs.Walking.{visit_at};
ghost use Rattle.pip_model.specs.ReadOff.{base_stop, node_read, node_stop, or_first, place_of_table};
ghost use Rattle.pip_model.specs.ReadOff.{slot_stop_at, table_from};

use crate::blocks::{Blocks, marks_descriptor};
use crate::nodes::list_page;
use pip_base::{Frame, Steps, VPAGES, WORDS};
use pip_entry::DirWord;
use pip_entry::descriptor::{MMU_FRAME, TABLES};
use pip_entry::list_page::{FIRST_SLOT, SLOT_WORDS, SLOTS};
use pip_frames::Frames;
use pip_table::first_index;
use std::alloc::{AllocError, Global};
use std::sync::ledger::Ledger;

/// The three tables of a directory index.
#[derive(Clone, Copy, Debug, PartialEq, Eq)]
pub(crate) struct Triple {
    pub mmu: Frame,
    pub shadow1: Frame,
    pub shadow2: Frame,
}

/// A row of a node: a page at a virtual page, with rights.
#[derive(Clone, Copy, Debug, PartialEq, Eq)]
pub(crate) struct FoundRow {
    pub at: u32,
    pub frame: u32,
    pub rights: u32,
}

/// Which rows are sought: all, or those whose page is a child's descriptor.
#[derive(Clone, Copy, Debug, PartialEq, Eq)]
pub(crate) enum SoughtRows {
    Any,
    Child,
}

/// The tables of one node at a time.
#[derive(Drop)]
pub(crate) struct Tables {
    // The node.
    part: Frame,
    // Per frame, the least place in the MMU directory that names it as a table.
    place: Vec<Option<u32>>,
    // Per directory index, the tables of the first slot that has it.
    of: Vec<Option<Triple>>,
    // Whether two slots have one index.
    repeats: bool,
}

impl Tables {
    /// Room for the tables of a node of a memory of `n` frames.
    pub(crate) fn new(alloc: Global, n: usize) -> Result<Tables, AllocError>
        ensures { IfOk result (HasTableRoom n) }
    {
        Ok(Tables {
            part: Frame::new(0),
            place: vec![in alloc; None; n]?,
            of: vec![in alloc; None; WORDS as usize]?,
            repeats: false,
        })
    }

    // No table has a place.
    fn clear_places(&mut self)
        ensures room { length self.new.place.items ≡ length self.old.place.items }
        ensures none { (g : ℕ) → place_held self.new g ≡ None }
        ensures rest { (self.new.of ≡ self.old.of) × (self.new.part ≡ self.old.part)
            × (self.new.repeats ≡ self.old.repeats) }
    {
        self.place.fill(None);
    }

    // Takes word `i` of a directory: its table gets this place, unless it has one.
    fn hold_place(&mut self, word: u32, i: u32)
        ensures room { length self.new.place.items ≡ length self.old.place.items }
        ensures places { (g : ℕ) → g < length self.old.place.items →
            place_held self.new g ≡ or_first (place_held self.old g)
            (if word == directory_word g then Some i else None) }
        ensures rest { (self.new.of ≡ self.old.of) × (self.new.part ≡ self.old.part)
            × (self.new.repeats ≡ self.old.repeats) }
    {
        let g = (word / 4096) as usize;
        if word % 4096 != 1 || g >= self.place.len() {
            return;
        }
        if self.place[g].is_none() {
            self.place[g] = Some(i);
        }
    }

    // Finds the place of each table in a directory.
    fn find_places<M: Frames, L: Ledger>(&mut self, mem: &M, directory: Frame, steps: &mut Steps<L>)
        requires room { length self.old.place.items ≡ length (M.memory mem.now) }
        requires directory { directory < length (M.memory mem.now) }
        ensures room { length self.new.place.items ≡ length self.old.place.items }
        ensures places { (g : ℕ) → g < length (M.memory mem.now) →
            place_held self.new g ≡ place_of_table (M.memory mem.now) directory g }
        ensures rest { (self.new.of ≡ self.old.of) × (self.new.part ≡ self.old.part)
            × (self.new.repeats ≡ self.old.repeats) }
    {
        self.clear_places();
        let words = mem.frame(directory, steps);
        let mut from = 0;
        while let Some(i) = first_index(words, from) {
            self.hold_place(words[i as usize], i);
            from = i + 1;
        }
    }

    /// Takes a node, by its descriptor's frame, and finds the place of each table in its directory.
    pub(crate) fn begin<M: Frames, L: Ledger>(&mut self, mem: &M, part: Frame, steps: &mut Steps<L>)
        requires room { HasTableRoom (length (M.memory mem.now)) self.old }
        requires part { part < length (M.memory mem.now) }
        requires base { base_stop (M.memory mem.now) part ≡ None }
        ensures part { self.new.part ≡ part }
        ensures room { HasTableRoom (length (M.memory mem.now)) self.new }
        ensures places { HasPlaces (M.memory mem.now) self.new }
    {
        self.part = part;
        let directory = Frame::new(mem.word(part, MMU_FRAME, steps));
        self.find_places(mem, directory, steps);
    }

    /// Whether a table has a place in the directory.
    pub(crate) fn has_place(&self, table: Frame) -> bool
        requires { table < length self.now.place.items }
        ensures { result ≡ is_some (place_held self.now table) }
    {
        self.place[table.number() as usize].is_some()
    }

    // No directory index has tables.
    fn clear_tables(&mut self)
        ensures room { length self.new.of.items ≡ length self.old.of.items }
        ensures none { (d : ℕ) → held_at self.new d ≡ None }
        ensures rest { (self.new.place ≡ self.old.place) × (self.new.part ≡ self.old.part)
            × (self.new.repeats ≡ self.old.repeats) }
    {
        self.of.fill(None);
    }

    // A directory index has these tables.
    fn hold_tables(&mut self, index: u32, triple: Triple)
        requires room { length self.old.of.items ≡ 1024 }
        requires index { index < 1024 }
        ensures room { length self.new.of.items ≡ 1024 }
        ensures of { (d : ℕ) → held_at self.new d ≡ (if index == d then Some triple else held_at self.old d) }
        ensures repeats { self.new.repeats ≡ (is_some (held_at self.old index) || self.old.repeats) }
        ensures rest { (self.new.place ≡ self.old.place) × (self.new.part ≡ self.old.part) }
    {
        let had = self.of[index as usize].is_some();
        self.repeats = had || self.repeats;
        self.of[index as usize] = Some(triple);
    }

    // Takes a slot that begins at word `i` of a list page and doesn't stop the reading.
    fn take_slot<M: Frames, L: Ledger>(
        &mut self,
        mem: &M,
        page: Frame,
        i: u32,
        steps: &mut Steps<L>,
    )
        requires room { HasTableRoom (length (M.memory mem.now)) self.old }
        requires places { (g : ℕ) → g < length (M.memory mem.now) →
            place_held self.old g ≡ place_of_table (M.memory mem.now) (directory_in (M.memory mem.now) self.old) g }
        requires page { page < length (M.memory mem.now) }
        requires slot { i ≤ 1018 }
        requires passes { slot_stop_at (M.memory mem.now) (directory_in (M.memory mem.now) self.old) page i ≡ None }
        ensures room { HasTableRoom (length (M.memory mem.now)) self.new }
        ensures of { (d : ℕ) → held_at self.new d ≡ triple_with
            (table_from (M.memory mem.now) (directory_in (M.memory mem.now) self.old) page i) (held_at self.old) d }
        ensures repeats { self.new.repeats ≡ (is_some (held_at self.old
            (table_from (M.memory mem.now) (directory_in (M.memory mem.now) self.old) page i).index)
            || self.old.repeats) }
        ensures rest { (self.new.place ≡ self.old.place) × (self.new.part ≡ self.old.part) }
    {
        let triple = Triple {
            mmu: Frame::new(mem.word(page, i + 1, steps)),
            shadow1: Frame::new(mem.word(page, i + 3, steps)),
            shadow2: Frame::new(mem.word(page, i + 5, steps)),
        };
        if let Some(index) = self.place[triple.mmu.number() as usize] {
            self.hold_tables(index, triple);
        }
    }

    // Takes the slots, from the last to the first.
    fn take_slots<M: Frames, L: Ledger>(&mut self, mem: &M, count: u32, steps: &mut Steps<L>)
        requires ready { IsReady (M.memory mem.now) self.old }
        requires none { (d : ℕ) → held_at self.old d ≡ None }
        requires fresh { self.old.repeats ≡ false }
        requires count { count ≡ word_at (M.memory mem.now) self.old.part 12 }
        ensures part { self.new.part ≡ self.old.part }
        ensures is_of { IsOf (M.memory mem.now) self.new }
    {
        for k in 0..count {
            let j = count - 1 - k;
            let page = list_page(mem, self.part, j / SLOTS, steps);
            self.take_slot(mem, page, FIRST_SLOT + SLOT_WORDS * (j % SLOTS), steps);
        }
    }

    /// Finds the tables of the node whose descriptor is a frame. The reading of the node doesn't stop.
    pub(crate) fn load<M: Frames, L: Ledger>(&mut self, mem: &M, part: Frame, steps: &mut Steps<L>)
        requires room { HasTableRoom (length (M.memory mem.now)) self.old }
        requires part { part < length (M.memory mem.now) }
        requires passes { node_stop (M.memory mem.now) part ≡ None }
        ensures part { self.new.part ≡ part }
        ensures is_of { IsOf (M.memory mem.now) self.new }
    {
        self.begin(mem, part, steps);
        self.clear_tables();
        self.repeats = false;
        let count = mem.word(part, TABLES, steps);
        self.take_slots(mem, count, steps);
    }

    /// The node.
    pub(crate) fn part(&self) -> Frame
        ensures { result ≡ self.now.part }
    {
        self.part
    }

    /// Whether two slots have one index.
    pub(crate) fn repeats(&self) -> bool
        ensures { result ≡ self.now.repeats }
    {
        self.repeats
    }

    /// The tables of a directory index.
    pub(crate) fn at(&self, index: u32) -> Option<Triple>
        requires room { length self.now.of.items ≡ 1024 }
        requires index { index < 1024 }
        ensures { result ≡ held_at self.now index }
    {
        self.of[index as usize]
    }

    /// Whether no directory index of a block of 32 has tables.
    pub(crate) fn has_none_in(&self, b: u32) -> bool
        requires room { length self.now.of.items ≡ 1024 }
        requires block { b < 32 }
        ensures { result ≡ true → (i : ℕ) → i < 32 → held_at self.now (32 * b + i) ≡ None }
    {
        for i in 32 * b..32 * b + 32 {
            if self.of[i as usize].is_some() {
                return false;
            }
        }
        true
    }

    /// The row at a virtual page.
    pub(crate) fn row<M: Frames, L: Ledger>(
        &self,
        mem: &M,
        v: u32,
        steps: &mut Steps<L>,
    ) -> Option<FoundRow>
        requires of { IsOf (M.memory mem.now) self.now }
        requires small { v < 2 ^ 20 }
        ensures { IsRowAt (M.memory mem.now) (tables_in (M.memory mem.now) self.now.part) v result }
    {
        let tables = self.at(v / WORDS)?;
        let word = mem.word(tables.mmu, v % WORDS, steps);
        if word == 0 {
            return None;
        }
        Some(FoundRow {
            at: v,
            frame: word / 4096,
            rights: word / 4 % 8,
        })
    }

    // Whether a row's page is a child's descriptor, as the first shadow says.
    fn is_child<M: Frames, L: Ledger>(&self, mem: &M, row: FoundRow, steps: &mut Steps<L>) -> bool
        requires of { IsOf (M.memory mem.now) self.now }
        requires small { row.at < 2 ^ 20 }
        requires row { IsRowAt (M.memory mem.now) (tables_in (M.memory mem.now) self.now.part) row.at (Some row) }
        ensures { result ≡ is_some (visit_at (M.memory mem.now) (tables_in (M.memory mem.now) self.now.part) row.at) }
    {
        let Some(tables) = self.at(row.at / WORDS) else {
            return false;
        };
        marks_descriptor(mem.word(tables.shadow1, row.at % WORDS, steps))
    }

    // Whether a row is one that is sought.
    #[inline(always)]
    fn is_sought<M: Frames, L: Ledger>(
        &self,
        mem: &M,
        sought: SoughtRows,
        row: FoundRow,
        steps: &mut Steps<L>,
    ) -> bool
        requires of { IsOf (M.memory mem.now) self.now }
        requires small { row.at < 2 ^ 20 }
        requires row { IsRowAt (M.memory mem.now) (tables_in (M.memory mem.now) self.now.part) row.at (Some row) }
        ensures { row_sought sought (M.memory mem.now) (tables_in (M.memory mem.now) self.now.part) row.at
            ≡ (if result then Some (row_seen row) else None) }
    {
        match sought {
            SoughtRows::Any => true,
            SoughtRows::Child => self.is_child(mem, row, steps),
        }
    }

    // The row at a virtual page, if it is one that is sought.
    #[inline(always)]
    fn sought_at<M: Frames, L: Ledger>(
        &self,
        mem: &M,
        sought: SoughtRows,
        v: u32,
        steps: &mut Steps<L>,
    ) -> Option<FoundRow>
        requires of { IsOf (M.memory mem.now) self.now }
        requires small { v < 2 ^ 20 }
        ensures { IsSoughtAt sought (M.memory mem.now) (tables_in (M.memory mem.now) self.now.part) v result }
    {
        let Some(row) = self.row(mem, v, steps) else {
            return None;
        };
        if !self.is_sought(mem, sought, row, steps) {
            return None;
        }
        Some(row)
    }

    // The first row that is sought of a block of 32 words of a table from an index on.
    fn next_in_block<M: Frames, L: Ledger>(
        &self,
        mem: &M,
        sought: SoughtRows,
        from: u32,
        steps: &mut Steps<L>,
    ) -> Option<FoundRow>
        requires of { IsOf (M.memory mem.now) self.now }
        requires small { from < 2 ^ 20 }
        ensures { IsFirstSought sought (M.memory mem.now) (tables_in (M.memory mem.now) self.now.part) from
            (32 * (from / 32) + 32) result }
    {
        for k in from % 32..32 {
            if let Some(row) = self.sought_at(mem, sought, from / 32 * 32 + k, steps) {
                return Some(row);
            }
        }
        None
    }

    // The first row that is sought of a block of a table from an index on. A block that is known to have none isn't
    // read.
    fn next_of_block<M: Frames, L: Ledger>(
        &self,
        mem: &M,
        blocks: &Blocks,
        sought: SoughtRows,
        from: u32,
        steps: &mut Steps<L>,
    ) -> Option<FoundRow>
        requires of { IsOf (M.memory mem.now) self.now }
        requires known { AreKnown (M.memory mem.now) blocks.now }
        requires small { from < 2 ^ 20 }
        ensures { IsFirstSought sought (M.memory mem.now) (tables_in (M.memory mem.now) self.now.part) from
            (32 * (from / 32) + 32) result }
    {
        let tables = self.at(from / WORDS)?;
        if blocks.lacks(sought, tables, from % WORDS / 32) {
            return None;
        }
        self.next_in_block(mem, sought, from, steps)
    }

    /// The first row that is sought of a table from an index on.
    #[inline(always)]
    pub(crate) fn next_in_table<M: Frames, L: Ledger>(
        &self,
        mem: &M,
        blocks: &Blocks,
        sought: SoughtRows,
        from: u32,
        steps: &mut Steps<L>,
    ) -> Option<FoundRow>
        requires of { IsOf (M.memory mem.now) self.now }
        requires known { AreKnown (M.memory mem.now) blocks.now }
        requires small { from < 2 ^ 20 }
        ensures { IsFirstSought sought (M.memory mem.now) (tables_in (M.memory mem.now) self.now.part) from
            (1024 * (from / 1024) + 1024) result }
    {
        let end = from / WORDS * WORDS + WORDS;
        let mut v = from;
        while v < end {
            if let Some(row) = self.next_of_block(mem, blocks, sought, v, steps) {
                return Some(row);
            }
            v = v / 32 * 32 + 32;
        }
        None
    }

    /// The first row of a child of a table from an index on. A table that is known to have none isn't gone through.
    pub(crate) fn next_child_in<M: Frames, L: Ledger>(
        &self,
        mem: &M,
        blocks: &Blocks,
        from: u32,
        steps: &mut Steps<L>,
    ) -> Option<FoundRow>
        requires of { IsOf (M.memory mem.now) self.now }
        requires known { AreKnown (M.memory mem.now) blocks.now }
        requires small { from < 2 ^ 20 }
        ensures { IsFirstSought Child (M.memory mem.now) (tables_in (M.memory mem.now) self.now.part) from
            (1024 * (from / 1024) + 1024) result }
    {
        match self.at(from / WORDS) {
            Some(tables) if blocks.lacks_children(tables) => None,
            _ => self.next_in_table(mem, blocks, SoughtRows::Child, from, steps),
        }
    }

    // The first row of a directory index from an index of its table on. There is none if it has no tables.
    fn next_of_index<M: Frames, L: Ledger>(
        &self,
        mem: &M,
        blocks: &Blocks,
        from: u32,
        steps: &mut Steps<L>,
    ) -> Option<FoundRow>
        requires of { IsOf (M.memory mem.now) self.now }
        requires known { AreKnown (M.memory mem.now) blocks.now }
        requires small { from < 2 ^ 20 }
        ensures { IsFirstRow (M.memory mem.now) (tables_in (M.memory mem.now) self.now.part) from
            (1024 * (from / 1024) + 1024) result }
    {
        let _tables = self.at(from / WORDS)?;
        self.next_in_table(mem, blocks, SoughtRows::Any, from, steps)
    }

    // The first directory index from one on that has tables, or 1024.
    pub(crate) fn next_index(&self, from: u32) -> u32
        requires room { length self.now.of.items ≡ 1024 }
        requires index { from ≤ 1024 }
        ensures from { from ≤ result }
        ensures index { result ≤ 1024 }
        ensures none { (d : ℕ) → from ≤ d → d < result → held_at self.now d ≡ None }
    {
        for d in from..WORDS {
            if self.of[d as usize].is_some() {
                return d;
            }
        }
        WORDS
    }

    // The first row from a virtual page on, which may be 2^20, table by table.
    #[inline(never)]
    fn later_row<M: Frames, L: Ledger>(
        &self,
        mem: &M,
        blocks: &Blocks,
        from: u32,
        steps: &mut Steps<L>,
    ) -> Option<FoundRow>
        requires of { IsOf (M.memory mem.now) self.now }
        requires known { AreKnown (M.memory mem.now) blocks.now }
        requires small { from ≤ 2 ^ 20 }
        ensures { IsFirstRow (M.memory mem.now) (tables_in (M.memory mem.now) self.now.part) from (2 ^ 20) result }
    {
        let mut v = from;
        while v < VPAGES {
            if let Some(row) = self.next_of_index(mem, blocks, v, steps) {
                return Some(row);
            }
            v = WORDS * self.next_index(v / WORDS + 1);
        }
        None
    }

    /// The first row from a virtual page on, which may be 2^20.
    #[inline(always)]
    pub(crate) fn next_row<M: Frames, L: Ledger>(
        &self,
        mem: &M,
        blocks: &Blocks,
        from: u32,
        steps: &mut Steps<L>,
    ) -> Option<FoundRow>
        requires of { IsOf (M.memory mem.now) self.now }
        requires known { AreKnown (M.memory mem.now) blocks.now }
        requires small { from ≤ 2 ^ 20 }
        ensures { IsNextLeft (M.memory mem.now) self.now.part from result }
    {
        if from < VPAGES {
            if let Some(row) = self.row(mem, from, steps) {
                return Some(row);
            }
        }
        self.later_row(mem, blocks, from, steps)
    }

    /// Whether each row passes a test. It ends at the first that fails.
    #[tactic(auto, using(crate::proofs::PartLaws::rows_are))]
    pub(crate) fn all_rows<M: Frames, L: Ledger, F: Fn(FoundRow) -> bool>(
        &self,
        mem: &M,
        blocks: &Blocks,
        steps: &mut Steps<L>,
        passes: F,
    ) -> bool
        requires of { IsOf (M.memory mem.now) self.now }
        requires known { AreKnown (M.memory mem.now) blocks.now }
        requires can { (r : FoundRow) → r.frame < length (M.memory mem.now) → F.pre passes r }
        ensures { TellsRows (F.post passes) (node_read (M.memory mem.now) self.now.part).rows result }
    {
        let mut from = 0;
        while let Some(row) = self.next_row(mem, blocks, from, steps) {
            if !passes(row) {
                return false;
            }
            from = row.at + 1;
        }
        true
    }
}
