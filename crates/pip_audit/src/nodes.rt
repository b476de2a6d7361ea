//! Where the reading of a node stops.
ghost use Rattle.std.specs.Prelude.{◌≡◌, ℕ, ◌-◌, ◌<◌, ◌≤◌, None, length};
ghost use Rattle.pip_audit.specs.Blocks.{AreKnown};
ghost use Rattle.pip_audit.specs.FrameSets.{AreSets};
ghost use Rattle.pip_audit.specs.Seen.{AreTables};
ghost use Rattle.pip_audit.specs.Tables.{HasPlaces, HasTableRoom, directory_in};
ghost use Rattle.pip_base.specs.Memory.{word_at};
ghost use Rattle.pip_model.specs.ReadOff.{base_read, base_stop, first, leaf_stop, more_stop, node_stop, place_of_table};
ghost use Rattle.pip_model.specs.ReadOff.{slot_stop_at, stop_at_frame, table_stop, tables_read};
ghost use Rattle.pip_audit.specs.Links.{list_read, page_after, slot_of};
ghost use Rattle.pip_model.specs.Tree.{lists};

use crate::auditor::Auditor;
use crate::tables::Tables;
use pip_base::{Frame, Steps, WORDS};
use pip_entry::descriptor::{
    LIST_FRAME, MMU_FRAME, SELF_FRAME, SHADOW1_FRAME, SHADOW2_FRAME, TABLES,
};
use pip_entry::list_page::{FIRST_SLOT, NEXT_FRAME, SLOT_WORDS, SLOTS};
use pip_entry::{DirWord, pack_dir};
use pip_frames::Frames;
use pip_model::Stop;
use std::sync::ledger::Ledger;

/// Tests a word that has to name a frame: the reading stops there unless it does.
fn named_frame<M: Frames, L: Ledger>(
    mem: &M,
    f: Frame,
    i: u32,
    steps: &mut Steps<L>,
) -> Option<Stop>
    requires frame { f < length (M.memory mem.now) }
    requires index { i < 1024 }
    ensures { result ≡ stop_at_frame (M.memory mem.now) f i }
{
    if mem.word(f, i, steps) < mem.count() {
        None
    } else {
        Some(Stop {
            frame: f.number(),
            index: i,
        })
    }
}

/// The first page that a descriptor names and that isn't a frame.
pub fn first_bad_base<M: Frames, L: Ledger>(mem: &M, f: Frame, steps: &mut Steps<L>) -> Option<Stop>
    requires { f < length (M.memory mem.now) }
    ensures { result ≡ base_stop (M.memory mem.now) f }
{
    if let Some(stop) = named_frame(mem, f, SELF_FRAME, steps) {
        return Some(stop);
    }
    if let Some(stop) = named_frame(mem, f, MMU_FRAME, steps) {
        return Some(stop);
    }
    if let Some(stop) = named_frame(mem, f, SHADOW1_FRAME, steps) {
        return Some(stop);
    }
    if let Some(stop) = named_frame(mem, f, SHADOW2_FRAME, steps) {
        return Some(stop);
    }
    named_frame(mem, f, LIST_FRAME, steps)
}

#[tactic(auto, unfolding(pip_model::specs::ReadOff::leaf_stop))]
fn bad_leaf<M: Frames, L: Ledger>(mem: &M, f: Frame, i: u32, steps: &mut Steps<L>) -> Option<Stop>
    requires frame { f < length (M.memory mem.now) }
    requires index { i < 1024 }
    ensures { result ≡ leaf_stop (M.memory mem.now) f i }
{
    let word = mem.word(f, i, steps);
    let is_leaf = word % 4096 < 32 && word % 2 == 1 && word / 4 % 2 == 1;
    if word == 0 || is_leaf && word / 4096 < mem.count() {
        None
    } else {
        Some(Stop {
            frame: f.number(),
            index: i,
        })
    }
}

/// The first word of an MMU table that is no row.
pub fn first_bad_leaf<M: Frames, L: Ledger>(mem: &M, f: Frame, steps: &mut Steps<L>) -> Option<Stop>
    requires { f < length (M.memory mem.now) }
    ensures { result ≡ first (leaf_stop (M.memory mem.now) f) 0 1024 }
{
    for i in 0..WORDS {
        if let Some(stop) = bad_leaf(mem, f, i, steps) {
            return Some(stop);
        }
    }
    None
}

/// The least place in a directory that has a table.
pub fn place_in_directory<M: Frames, L: Ledger>(
    mem: &M,
    directory: Frame,
    table: Frame,
    steps: &mut Steps<L>,
) -> Option<u32>
    requires { directory < length (M.memory mem.now) }
    ensures { result ≡ place_of_table (M.memory mem.now) directory table }
{
    let wanted = pack_dir(DirWord::Table(table));
    for i in 0..WORDS {
        if mem.word(directory, i, steps) == wanted {
            return Some(i);
        }
    }
    None
}

/// The first of `count` links of a list that names no frame, from list page `f` on. The last page's link isn't
/// followed.
pub fn first_bad_link<M: Frames, L: Ledger>(
    mem: &M,
    f: Frame,
    count: u32,
    steps: &mut Steps<L>,
) -> Option<Stop>
    requires { f < length (M.memory mem.now) }
    ensures { result ≡ more_stop (M.memory mem.now) f count }
{
    let mut page = f;
    for k in 0..count {
        if let Some(stop) = named_frame(mem, page, NEXT_FRAME, steps) {
            return Some(stop);
        }
        page = Frame::new(mem.word(page, NEXT_FRAME, steps));
    }
    None
}

/// List page `k` of a node: `k` links after its first one.
pub(crate) fn list_page<M: Frames, L: Ledger>(
    mem: &M,
    part: Frame,
    k: u32,
    steps: &mut Steps<L>,
) -> Frame
    requires part { part < length (M.memory mem.now) }
    requires pages { (j : ℕ) → j ≤ k →
        page_after (M.memory mem.now) (word_at (M.memory mem.now) part 9) j < length (M.memory mem.now) }
    ensures page { result ≡ page_after (M.memory mem.now) (word_at (M.memory mem.now) part 9) k }
    ensures inside { result < length (M.memory mem.now) }
{
    let first = mem.word(part, LIST_FRAME, steps);
    let mut page = Frame::new(first);
    for j in 0..k {
        let next = mem.word(page, NEXT_FRAME, steps);
        page = Frame::new(next);
    }
    page
}

/// Where a slot, which begins at word `i` of list page `page`, stops the reading.
#[tactic(auto)]
fn bad_slot<M: Frames, L: Ledger>(
    tables: &Tables,
    mem: &M,
    page: Frame,
    i: u32,
    steps: &mut Steps<L>,
) -> Option<Stop>
    requires room { HasTableRoom (length (M.memory mem.now)) tables.now }
    requires places { HasPlaces (M.memory mem.now) tables.now }
    requires page { page < length (M.memory mem.now) }
    requires slot { i ≤ 1018 }
    ensures { result ≡ slot_stop_at (M.memory mem.now) (directory_in (M.memory mem.now) tables.now) page i }
{
    if let Some(stop) = named_frame(mem, page, i + 1, steps) {
        return Some(stop);
    }
    let table = Frame::new(mem.word(page, i + 1, steps));
    if !tables.has_place(table) {
        return Some(Stop {
            frame: page.number(),
            index: i + 1,
        });
    }
    if let Some(stop) = named_frame(mem, page, i + 3, steps) {
        return Some(stop);
    }
    named_frame(mem, page, i + 5, steps)
}

/// The first of `count` slots of a descriptor that stops the reading. The places are those of its directory.
fn first_bad_slot<M: Frames, L: Ledger>(
    tables: &Tables,
    mem: &M,
    f: Frame,
    count: u32,
    steps: &mut Steps<L>,
) -> Option<Stop>
    requires part { tables.now.part ≡ f }
    requires room { HasTableRoom (length (M.memory mem.now)) tables.now }
    requires places { HasPlaces (M.memory mem.now) tables.now }
    requires frame { f < length (M.memory mem.now) }
    requires base { base_stop (M.memory mem.now) f ≡ None }
    requires links { more_stop (M.memory mem.now) (word_at (M.memory mem.now) f 9) (lists count - 1) ≡ None }
    requires few { count ≤ 1024 }
    ensures { result ≡ first (slot_of (M.memory mem.now) f count) 0 count }
{
    for j in 0..count {
        let page = list_page(mem, f, j / SLOTS, steps);
        if let Some(stop) = bad_slot(
            tables,
            mem,
            page,
            FIRST_SLOT + SLOT_WORDS * (j % SLOTS),
            steps,
        ) {
            return Some(stop);
        }
    }
    None
}

impl Auditor {
    // The first word of an MMU table that is no row. A table that was read has none.
    fn stop_of_table<M: Frames, L: Ledger>(
        &mut self,
        mem: &M,
        table: Frame,
        steps: &mut Steps<L>,
    ) -> Option<Stop>
        requires table { table < length (M.memory mem.now) }
        requires sets { AreSets (length (M.memory mem.now)) self.old.sets }
        requires tables { AreTables (M.memory mem.now) self.old }
        requires known { AreKnown (M.memory mem.now) self.old.blocks }
        ensures stop { result ≡ first (leaf_stop (M.memory mem.now) table) 0 1024 }
        ensures sets { AreSets (length (M.memory mem.now)) self.new.sets }
        ensures tables { AreTables (M.memory mem.now) self.new }
        ensures known { AreKnown (M.memory mem.now) self.new.blocks }
        ensures rest { self.new ≡ record self.old { sets = self.new.sets; blocks = self.new.blocks } }
    {
        if self.sets.read.contains(table.number()) {
            return None;
        }
        if let Some(stop) = first_bad_leaf(mem, table, steps) {
            return Some(stop);
        }
        let _is_new = self.sets.read.insert(table.number());
        self.blocks.learn_rows(mem, table, steps);
        None
    }

    // The first word of a descriptor's tables that is no row, in the order of the slots.
    fn first_bad_row<M: Frames, L: Ledger>(
        &mut self,
        mem: &M,
        f: Frame,
        count: u32,
        steps: &mut Steps<L>,
    ) -> Option<Stop>
        requires frame { f < length (M.memory mem.now) }
        requires base { base_stop (M.memory mem.now) f ≡ None }
        requires links { more_stop (M.memory mem.now) (word_at (M.memory mem.now) f 9) (lists count - 1) ≡ None }
        requires slots { first (slot_of (M.memory mem.now) f count) 0 count ≡ None }
        requires few { count ≤ 1024 }
        requires sets { AreSets (length (M.memory mem.now)) self.old.sets }
        requires tables { AreTables (M.memory mem.now) self.old }
        requires known { AreKnown (M.memory mem.now) self.old.blocks }
        ensures stop { result ≡ first (table_stop (M.memory mem.now)
            (tables_read (M.memory mem.now) (base_read (M.memory mem.now) f)
            (list_read (M.memory mem.now) f count) count)) 0 count }
        ensures sets { AreSets (length (M.memory mem.now)) self.new.sets }
        ensures tables { AreTables (M.memory mem.now) self.new }
        ensures known { AreKnown (M.memory mem.now) self.new.blocks }
        ensures rest { self.new ≡ record self.old { sets = self.new.sets; blocks = self.new.blocks } }
    {
        for j in 0..count {
            let page = list_page(mem, f, j / SLOTS, steps);
            let table = Frame::new(mem.word(
                page,
                FIRST_SLOT + SLOT_WORDS * (j % SLOTS) + 1,
                steps,
            ));
            if let Some(stop) = self.stop_of_table(mem, table, steps) {
                return Some(stop);
            }
        }
        None
    }

    /// Where the reading of the node whose descriptor is a frame stops. None exactly where all of it can be read.
    #[tactic(auto, unfolding(pip_model::specs::ReadOff::node_stop))]
    pub(crate) fn stop_of_node<M: Frames, L: Ledger>(
        &mut self,
        mem: &M,
        f: Frame,
        steps: &mut Steps<L>,
    ) -> Option<Stop>
        requires frame { f < length (M.memory mem.now) }
        requires child { HasTableRoom (length (M.memory mem.now)) self.old.child }
        requires sets { AreSets (length (M.memory mem.now)) self.old.sets }
        requires tables { AreTables (M.memory mem.now) self.old }
        requires known { AreKnown (M.memory mem.now) self.old.blocks }
        ensures stop { result ≡ node_stop (M.memory mem.now) f }
        ensures child { HasTableRoom (length (M.memory mem.now)) self.new.child }
        ensures sets { AreSets (length (M.memory mem.now)) self.new.sets }
        ensures tables { AreTables (M.memory mem.now) self.new }
        ensures known { AreKnown (M.memory mem.now) self.new.blocks }
        ensures rest { self.new ≡ record self.old {
          child = self.new.child;
          sets = self.new.sets;
          blocks = self.new.blocks;
        } }
    {
        if let Some(stop) = first_bad_base(mem, f, steps) {
            return Some(stop);
        }
        let count = mem.word(f, TABLES, steps);
        if count > WORDS {
            return Some(Stop {
                frame: f.number(),
                index: TABLES,
            });
        }
        let first_list = Frame::new(mem.word(f, LIST_FRAME, steps));
        if let Some(stop) = first_bad_link(mem, first_list, pip_model::lists(count) - 1, steps) {
            return Some(stop);
        }
        self.child.begin(mem, f, steps);
        if let Some(stop) = first_bad_slot(&self.child, mem, f, count, steps) {
            return Some(stop);
        }
        self.first_bad_row(mem, f, count, steps)
    }
}
