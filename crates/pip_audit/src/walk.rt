//! The reading of a tree, node by node.
ghost use Rattle.std.specs.Prelude.{◌≡◌, ℕ, ◌+◌, ◌*◌, ◌/◌, ◌≤◌, ◌<◌, ◌^◌, length, false, None, Some, slice_index_or};
ghost use Rattle.pip_audit.specs.Reading.{InWalk, IsEntered, IsFirstVisit, IsFirstVisitTo, IsFor, IsOn, TellsReading};
ghost use Rattle.pip_audit.specs.Reading.{child_told, top_from, top_page};
ghost use Rattle.pip_audit.specs.Blocks.{AreKnown, place_in};
ghost use Rattle.pip_audit.specs.FrameSets.{contains};
ghost use Rattle.pip_audit.specs.FrameWords.{AreFrameWords, word_held};
ghost use Rattle.pip_audit.specs.Seen.{AreQuiet, AreTables};
ghost use Rattle.pip_audit.specs.Tables.{IsOf, held_at, tables_in};
ghost use Rattle.pip_model.specs.declared.reading.Stop.{Stop};
ghost use Rattle.pip_model.specs.ReadOff.{Halts, tree_of};

use crate::auditor::Auditor;
use crate::tables::{FoundRow, Triple};
use pip_base::{Frame, Steps, VPAGES, WORDS};
use pip_frames::Frames;
use pip_model::{ROOT, Stop};
use std::sync::ledger::Ledger;

/// A page to be read as a node: the virtual page of its row, and the place of the first shadow's word that says so.
#[derive(Clone, Copy, Debug, PartialEq, Eq)]
struct Child {
    at: u32,
    page: u32,
    told: Stop,
}

// The page of a row, which this first shadow says is a child's descriptor.
fn child_of(row: FoundRow, shadow: Frame) -> Child
    ensures { result ≡ child_told row shadow }
{
    Child {
        at: row.at,
        page: row.frame,
        told: Stop {
            frame: shadow.number(),
            index: row.at % WORDS,
        },
    }
}

impl Auditor {
    // Nothing was read, so no first shadow is known.
    fn forget(&mut self)
        ensures count { self.new.count ≡ 0 }
        ensures depth { self.new.depth ≡ 0 }
        ensures none { (f : ℕ) → slice_index_or self.new.order.items f None ≡ None }
        ensures tables { (f : ℕ) → contains self.new.sets.read f ≡ false }
        ensures quiet { (g : ℕ) → word_held self.new.words.quiet g ≡ 0 }
        ensures rows { (f : ℕ) → place_in self.new.blocks.rows f ≡ None }
        ensures descriptors { (f : ℕ) → place_in self.new.blocks.descriptors f ≡ None }
        ensures room { (n : ℕ) → IsFor n self.old → IsFor n self.new }
    {
        self.count = 0;
        self.depth = 0;
        self.order.fill(None);
        self.sets.read.clear();
        self.words.quiet.fill(0);
        self.blocks.forget();
    }

    // A node was read. Its children are the next to be read.
    fn enter(&mut self, page: Frame)
        requires count { self.old.count < length self.old.names.items }
        requires page { page < length self.old.order.items }
        requires depth { self.old.depth < length self.old.standing.items }
        requires from { self.old.depth < length self.old.from.items }
        requires few { self.old.count ≤ 4096 }
        ensures { IsEntered page self.old self.new }
    {
        self.names[self.count] = page;
        self.order[page.number() as usize] = Some(self.count as u32);
        self.count += 1;
        self.standing[self.depth] = page;
        self.from[self.depth] = 0;
        self.depth += 1;
    }

    // The rows of the newest node were read up to this one.
    fn pass_row(&mut self, at: u32)
        requires deep { 0 < self.old.depth }
        requires room { self.old.depth ≤ length self.old.from.items }
        requires small { at < 2 ^ 20 }
        ensures { IsOn self.old at self.new }
    {
        self.from[self.depth - 1] = at + 1;
    }

    // Reads the node that a first shadow's word named, the next child of the newest node, or stops.
    fn visit<M: Frames, L: Ledger>(
        &mut self,
        mem: &M,
        visit: Child,
        steps: &mut Steps<L>,
    ) -> Option<Stop>
        requires walks { InWalk (M.memory mem.now) self.old }
        requires tables { AreTables (M.memory mem.now) self.old }
        requires quiet { AreQuiet (M.memory mem.now) self.old }
        requires known { AreKnown (M.memory mem.now) self.old.blocks }
        requires deep { 0 < self.old.depth }
        requires first { IsFirstVisit (M.memory mem.now) (tables_in (M.memory mem.now) (top_page self.old))
            (top_from self.old) (Some visit) }
        ensures room { IsFor (length (M.memory mem.now)) self.new }
        ensures stops { (stop : Stop) → result ≡ Some stop → tree_of (M.memory mem.now) ≡ Halts stop }
        ensures walks { result ≡ None → InWalk (M.memory mem.now) self.new }
        ensures tables { AreTables (M.memory mem.now) self.new }
        ensures quiet { result ≡ None → AreQuiet (M.memory mem.now) self.new }
        ensures known { result ≡ None → AreKnown (M.memory mem.now) self.new.blocks }
        ensures count { result ≡ None → (self.new.count ≡ self.old.count + 1) × (self.new.depth ≡ self.old.depth + 1) }
    {
        if self.count == self.names.len() {
            return Some(visit.told);
        }
        if self.order[visit.page as usize].is_some() {
            return Some(visit.told);
        }
        let page = Frame::new(visit.page);
        if let Some(stop) = self.stop_of_node(mem, page, steps) {
            return Some(stop);
        }
        self.pass_row(visit.at);
        self.enter(page);
        None
    }

    // The first row from a virtual page on, in these tables of its directory index, whose page is a child's descriptor.
    // If they have none from their first row on, that is remembered: tables that many nodes share are read once.
    fn child_in<M: Frames, L: Ledger>(
        &mut self,
        mem: &M,
        tables: Triple,
        from: u32,
        steps: &mut Steps<L>,
    ) -> Option<Child>
        requires of { IsOf (M.memory mem.now) self.old.node }
        requires words { AreFrameWords (length (M.memory mem.now)) self.old.words }
        requires quiet { AreQuiet (M.memory mem.now) self.old }
        requires known { AreKnown (M.memory mem.now) self.old.blocks }
        requires small { from < 2 ^ 20 }
        requires tables { held_at self.old.node (from / 1024) ≡ Some tables }
        ensures first { IsFirstVisitTo (M.memory mem.now) (tables_in (M.memory mem.now) self.old.node.part) from
            (1024 * (from / 1024) + 1024) result }
        ensures words { AreFrameWords (length (M.memory mem.now)) self.new.words }
        ensures quiet { AreQuiet (M.memory mem.now) self.new }
        ensures known { AreKnown (M.memory mem.now) self.new.blocks }
        ensures rest { self.new ≡ record self.old { words = self.new.words; blocks = self.new.blocks } }
    {
        let shadow = tables.shadow1.number() + 1;
        let held = self.words.quiet.at(tables.mmu.number());
        if held == shadow {
            return None;
        }
        self.blocks.learn_descriptors(mem, tables.shadow1, steps);
        if let Some(row) = self.node.next_child_in(mem, &self.blocks, from, steps) {
            return Some(child_of(row, tables.shadow1));
        }
        if from % WORDS == 0 {
            self.words.quiet.hold(tables.mmu.number(), shadow);
        }
        None
    }

    // The first row of a directory index from an index of its table on whose page is a child's descriptor. There is
    // none if it has no tables.
    fn child_of_index<M: Frames, L: Ledger>(
        &mut self,
        mem: &M,
        from: u32,
        steps: &mut Steps<L>,
    ) -> Option<Child>
        requires of { IsOf (M.memory mem.now) self.old.node }
        requires words { AreFrameWords (length (M.memory mem.now)) self.old.words }
        requires quiet { AreQuiet (M.memory mem.now) self.old }
        requires known { AreKnown (M.memory mem.now) self.old.blocks }
        requires small { from < 2 ^ 20 }
        ensures first { IsFirstVisitTo (M.memory mem.now) (tables_in (M.memory mem.now) self.old.node.part) from
            (1024 * (from / 1024) + 1024) result }
        ensures words { AreFrameWords (length (M.memory mem.now)) self.new.words }
        ensures quiet { AreQuiet (M.memory mem.now) self.new }
        ensures known { AreKnown (M.memory mem.now) self.new.blocks }
        ensures rest { self.new ≡ record self.old { words = self.new.words; blocks = self.new.blocks } }
    {
        if let Some(tables) = self.node.at(from / WORDS) {
            return self.child_in(mem, tables, from, steps);
        }
        None
    }

    // The first row of the node from a virtual page on whose page is a child's descriptor.
    fn next_child<M: Frames, L: Ledger>(
        &mut self,
        mem: &M,
        from: u32,
        steps: &mut Steps<L>,
    ) -> Option<Child>
        requires of { IsOf (M.memory mem.now) self.old.node }
        requires words { AreFrameWords (length (M.memory mem.now)) self.old.words }
        requires quiet { AreQuiet (M.memory mem.now) self.old }
        requires known { AreKnown (M.memory mem.now) self.old.blocks }
        requires small { from ≤ 2 ^ 20 }
        ensures first { IsFirstVisit (M.memory mem.now) (tables_in (M.memory mem.now) self.old.node.part) from result }
        ensures words { AreFrameWords (length (M.memory mem.now)) self.new.words }
        ensures quiet { AreQuiet (M.memory mem.now) self.new }
        ensures known { AreKnown (M.memory mem.now) self.new.blocks }
        ensures rest { self.new ≡ record self.old { words = self.new.words; blocks = self.new.blocks } }
    {
        let mut v = from;
        while v < VPAGES {
            if let Some(told) = self.child_of_index(mem, v, steps) {
                return Some(told);
            }
            v = v / WORDS * WORDS + WORDS;
        }
        None
    }

    /// Reads the tree off a memory, or says where the reading stops.
    pub(crate) fn read_tree<M: Frames, L: Ledger>(
        &mut self,
        mem: &M,
        steps: &mut Steps<L>,
    ) -> Option<Stop>
        requires { IsFor (length (M.memory mem.now)) self.old }
        ensures room { IsFor (length (M.memory mem.now)) self.new }
        ensures tells { TellsReading (M.memory mem.now) self.new result }
    {
        self.forget();
        let root = Frame::new(ROOT);
        if let Some(stop) = self.stop_of_node(mem, root, steps) {
            return Some(stop);
        }
        self.enter(root);
        while self.depth > 0 {
            let page = self.standing[self.depth - 1];
            let from = self.from[self.depth - 1];
            self.node.load(mem, page, steps);
            if let Some(visit) = self.next_child(mem, from, steps) {
                if let Some(stop) = self.visit(mem, visit, steps) {
                    return Some(stop);
                }
            } else {
                self.depth -= 1;
            }
        }
        self.find_children(mem, steps);
        None
    }
}
