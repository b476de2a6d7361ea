//! Soundness, part by part.
ghost use Rattle.std.specs.Prelude.{◌≡◌, ℕ, ◌<◌, ◌≤◌, ◌%◌, ◌==◌, ◌&&◌, true, None, length, slice_index};
ghost use Rattle.pip_base.specs.Memory.{word_at};
ghost use Rattle.pip_model.specs.ReadOff.{node_read, node_stop};
ghost use Rattle.pip_model.specs.Tree.{held_pages, page_at, pairs, vpage};
ghost use Rattle.std.specs.List.{list_all};
ghost use Rattle.pip_model.specs.Parts.{broken_part, gives_no_more, has_no_lines, has_tables, is_lent_by};
ghost use Rattle.pip_model.specs.Parts.{is_named_by_base, is_page, keeps_pages_apart, part_boot_root};
ghost use Rattle.pip_audit.specs.Comparing.{tree_in};
ghost use Rattle.pip_audit.specs.Judging.{IsReadLater, KeepsBefore, KeepsNodes, Lends, TellsApart, TellsChildren};
ghost use Rattle.pip_audit.specs.Judging.{is_placed, keeps_to};
ghost use Rattle.pip_audit.specs.FrameSets.{are_fresh, contains, with_all};
ghost use Rattle.pip_audit.specs.Tables.{IsOf};
ghost use Rattle.pip_audit.specs.Reading.{IsRead};

use crate::auditor::Auditor;
use crate::boot::{has_boot_base, has_boot_rows, has_boot_tables};
use crate::each_child::ChildTest;
use crate::each_node::NodeTest;
use crate::pages::{count_pages, page};
use pip_base::{Frame, LINES, Steps};
use pip_entry::descriptor::{PARENT, PENDING, SELF_FRAME};
use pip_frames::Frames;
use pip_model::ROOT;
use std::sync::ledger::Ledger;

// The parts of soundness, by their numbers in the answer `no unsound P`.
const PARENTS_COME_FIRST: u32 = 1;

const BOOT_ROOT: u32 = 2;

const PAGES_APART: u32 = 3;

const LENT: u32 = 4;

const SIBLINGS_APART: u32 = 5;

const RIGHTS: u32 = 6;

const TABLES_OF_ROWS: u32 = 7;

const NO_LINES_BUT_THE_ROOT: u32 = 8;

impl Auditor {
    // The page of node `x`.
    pub(crate) fn name<M: Frames>(&self, mem: &M, x: usize) -> Frame
        requires read { IsRead (M.memory mem.now) self.now }
        requires node { x < self.now.count }
        ensures name { result ≡ slice_index self.now.names.items x }
        ensures inside { result < length (M.memory mem.now) }
        ensures passes { node_stop (M.memory mem.now) result ≡ None }
    {
        // Only the contract speaks of `mem`; the count uses it, and no proof needs it.
        let _count = mem.count();
        self.names[x]
    }

    // The parent that a node names.
    fn up<M: Frames, L: Ledger>(&self, mem: &M, x: usize, steps: &mut Steps<L>) -> u32
        requires read { IsRead (M.memory mem.now) self.now }
        requires node { x < self.now.count }
        ensures { result ≡ word_at (M.memory mem.now) (slice_index self.now.names.items x) 11 }
    {
        mem.word(self.name(mem, x), PARENT, steps)
    }

    // Whether the root is that of the boot.
    fn has_boot_root<M: Frames, L: Ledger>(&mut self, mem: &M, steps: &mut Steps<L>) -> bool
        requires { IsRead (M.memory mem.now) self.old }
        ensures tests { result ≡ part_boot_root (tree_in (M.memory mem.now)) }
        ensures read { IsRead (M.memory mem.now) self.new }
    {
        let root = Frame::new(ROOT);
        let up = mem.word(root, PARENT, steps);
        if up != 1 {
            return false;
        }
        if !has_boot_base(mem, steps) {
            return false;
        }
        if !has_boot_tables(mem, steps) {
            return false;
        }
        self.node.load(mem, root, steps);
        has_boot_rows(&self.node, mem, steps)
    }

    // ---- no node holds a page twice

    // Meets all pages that node `x` holds, and answers whether none was met before and none comes twice. It ends after
    // the pages of configuration if one of these was.
    fn meet_held<M: Frames, L: Ledger>(&mut self, mem: &M, x: usize, steps: &mut Steps<L>) -> bool
        requires read { IsRead (M.memory mem.now) self.old }
        requires node { x < self.old.count }
        ensures fresh { result ≡ are_fresh (contains self.old.sets.met)
            (held_pages (node_read (M.memory mem.now) (slice_index self.old.names.items x))) }
        ensures met { result ≡ true → (f : ℕ) → contains self.new.sets.met f
            ≡ with_all (contains self.old.sets.met) (held_pages (node_read (M.memory mem.now)
            (slice_index self.old.names.items x))) f }
        ensures read { IsRead (M.memory mem.now) self.new }
        ensures rest { self.new ≡ record self.old { child = self.new.child; sets = self.new.sets } }
    {
        let part = self.name(mem, x);
        if !self.sets.met.insert_pages(mem, part, steps) {
            return false;
        }
        self.child.load(mem, part, steps);
        self.sets
            .met
            .insert_rows(&self.child, mem, &self.blocks, steps)
    }

    // ---- all comes from the parent

    // Whether a page of a child's configuration is in a row of the parent, at the address that the child names.
    fn is_lent<M: Frames, L: Ledger>(
        &self,
        mem: &M,
        va: u32,
        frame: u32,
        steps: &mut Steps<L>,
    ) -> bool
        requires of { IsOf (M.memory mem.now) self.now.node }
        ensures { result ≡ (va % 4096 == 0 && is_page (page_at (node_read (M.memory mem.now) self.now.node.part)
            (vpage va)) frame) }
    {
        if va % 4096 != 0 {
            return false;
        }
        if let Some(row) = self.node.row(mem, va / 4096, steps) {
            return row.frame == frame;
        }
        false
    }

    // Whether all pages of a child's configuration are in such rows.
    fn pages_are_lent<M: Frames, L: Ledger>(
        &self,
        mem: &M,
        part: Frame,
        steps: &mut Steps<L>,
    ) -> bool
        requires of { IsOf (M.memory mem.now) self.now.node }
        requires part { part < length (M.memory mem.now) }
        requires passes { node_stop (M.memory mem.now) part ≡ None }
        ensures { result ≡ list_all (is_placed (node_read (M.memory mem.now) self.now.node.part))
            (pairs (node_read (M.memory mem.now) part)) }
    {
        let count = count_pages(mem, part, steps);
        for k in 0..count {
            let given = page(mem, part, k, steps);
            if !self.is_lent(mem, given.va, given.frame, steps) {
                return false;
            }
        }
        true
    }

    /// Loads a node, the set of the pages of its rows, and the rights that these give to each page.
    pub(crate) fn load_parent<M: Frames, L: Ledger>(
        &mut self,
        mem: &M,
        part: Frame,
        steps: &mut Steps<L>,
    )
        requires read { IsRead (M.memory mem.now) self.old }
        requires part { part < length (M.memory mem.now) }
        requires passes { node_stop (M.memory mem.now) part ≡ None }
        ensures lends { Lends (M.memory mem.now) self.new }
        ensures part { self.new.node.part ≡ part }
        ensures read { IsRead (M.memory mem.now) self.new }
        ensures keeps { KeepsNodes self.old self.new }
    {
        self.node.load(mem, part, steps);
        self.sets.lent.clear();
        let _are_new = self
            .sets
            .lent
            .insert_rows(&self.node, mem, &self.blocks, steps);
        self.words
            .rights
            .gather_rights(&self.node, mem, &self.blocks, steps);
    }

    // Whether all that node `x` holds is in rows of the node that is loaded.
    fn is_lent_by<M: Frames, L: Ledger>(&mut self, mem: &M, x: usize, steps: &mut Steps<L>) -> bool
        requires read { IsRead (M.memory mem.now) self.old }
        requires node { x < self.old.count }
        requires lends { Lends (M.memory mem.now) self.old }
        ensures lent { result ≡ is_lent_by (node_read (M.memory mem.now) self.old.node.part)
            (node_read (M.memory mem.now) (slice_index self.old.names.items x)) }
        ensures read { IsRead (M.memory mem.now) self.new }
        ensures rest { self.new ≡ record self.old { child = self.new.child } }
    {
        let part = self.name(mem, x);
        if !self.pages_are_lent(mem, part, steps) {
            return false;
        }
        self.child.load(mem, part, steps);
        let lent = &self.sets.lent;
        self.child
            .all_rows(mem, &self.blocks, steps, |row| lent.contains(row.frame))
    }

    // Whether the tree that was read keeps to a part of soundness, where it keeps to those before.
    fn keeps_to<M: Frames, L: Ledger>(&mut self, mem: &M, part: u32, steps: &mut Steps<L>) -> bool
        requires read { IsRead (M.memory mem.now) self.old }
        requires part { 1 ≤ part }
        requires known { part ≤ 8 }
        requires before { KeepsBefore part (tree_in (M.memory mem.now)) }
        ensures keeps { result ≡ keeps_to part (tree_in (M.memory mem.now)) }
        ensures read { IsRead (M.memory mem.now) self.new }
    {
        match part {
            PARENTS_COME_FIRST => {
                self.each_node::<IsLater, M, L>(mem, 1, steps) && self.up(mem, 0, steps) == 1
            }
            BOOT_ROOT => self.has_boot_root(mem, steps),
            PAGES_APART => self.each_node::<IsApart, M, L>(mem, 0, steps),
            LENT => {
                self.each_node::<LendsToChildren, M, L>(mem, 0, steps)
                    && self.each_node::<IsNamed, M, L>(mem, 1, steps)
            }
            SIBLINGS_APART => self.each_node::<HasChildrenApart, M, L>(mem, 0, steps),
            RIGHTS => self.each_node::<GrantsToChildren, M, L>(mem, 0, steps),
            TABLES_OF_ROWS => self.each_node::<HasTables, M, L>(mem, 0, steps),
            _ => self.each_node::<HasNoLines, M, L>(mem, 1, steps),
        }
    }

    /// The least part of soundness that the tree that was read breaks.
    pub(crate) fn broken_part<M: Frames, L: Ledger>(
        &mut self,
        mem: &M,
        steps: &mut Steps<L>,
    ) -> Option<u32>
        requires { IsRead (M.memory mem.now) self.old }
        ensures part { result ≡ broken_part (tree_in (M.memory mem.now)) }
        ensures read { IsRead (M.memory mem.now) self.new }
    {
        for part in PARENTS_COME_FIRST..NO_LINES_BUT_THE_ROOT + 1 {
            if !self.keeps_to(mem, part, steps) {
                return Some(part);
            }
        }
        None
    }
}

// ---- the tests of a node, part by part

/// Whether it was read later than its parent.
pub(crate) struct IsLater;

impl NodeTest for IsLater {
    ghost says = { λ m names _ x z. IsReadLater m names x z };

    fn at<M: Frames, L: Ledger>(a: &mut Auditor, mem: &M, x: usize, steps: &mut Steps<L>) -> bool {
        let up = a.up(mem, x, steps);
        if up >= mem.count() {
            return false;
        }
        if let Some(place) = a.order[up as usize] {
            return (place as usize) < x;
        }
        false
    }
}

/// Whether it holds no page twice.
pub(crate) struct IsApart;

impl NodeTest for IsApart {
    ghost says = { λ m names _ x z. z ≡ keeps_pages_apart (node_read m (slice_index names x)) };

    fn at<M: Frames, L: Ledger>(a: &mut Auditor, mem: &M, x: usize, steps: &mut Steps<L>) -> bool {
        a.sets.met.clear();
        a.meet_held(mem, x, steps)
    }
}

/// Whether all that each of its children holds is in its rows.
pub(crate) struct LendsToChildren;

impl NodeTest for LendsToChildren {
    ghost says = { λ m names count y z. TellsChildren is_lent_by m names count y z };

    fn at<M: Frames, L: Ledger>(a: &mut Auditor, mem: &M, x: usize, steps: &mut Steps<L>) -> bool {
        a.each_child::<IsLent, M, L>(mem, x, steps)
    }
}

/// Whether it has the name that its descriptor's page has.
pub(crate) struct IsNamed;

impl NodeTest for IsNamed {
    ghost says = { λ m names _ x z. z ≡ is_named_by_base (node_read m (slice_index names x)) };

    fn at<M: Frames, L: Ledger>(a: &mut Auditor, mem: &M, x: usize, steps: &mut Steps<L>) -> bool {
        let part = a.name(mem, x);
        mem.word(part, SELF_FRAME, steps) == part.number()
    }
}

/// Whether its children hold no common page, and none a page twice.
pub(crate) struct HasChildrenApart;

impl NodeTest for HasChildrenApart {
    ghost says = { λ m names count x z. TellsApart m names count x z };

    fn at<M: Frames, L: Ledger>(a: &mut Auditor, mem: &M, x: usize, steps: &mut Steps<L>) -> bool {
        let parent = a.name(mem, x);
        let mut next = a.first_child(mem, parent);
        a.sets.met.clear();
        while let Some(k) = next {
            if !a.meet_held(mem, k, steps) {
                return false;
            }
            next = a.next_child_after(mem, k);
        }
        true
    }
}

/// Whether none of its children has a right to a page that it lacks. A row that can't be read has stopped the reading.
pub(crate) struct GrantsToChildren;

impl NodeTest for GrantsToChildren {
    ghost says = { λ m names count y z. TellsChildren gives_no_more m names count y z };

    fn at<M: Frames, L: Ledger>(a: &mut Auditor, mem: &M, x: usize, steps: &mut Steps<L>) -> bool {
        a.each_child::<IsGranted, M, L>(mem, x, steps)
    }
}

/// Whether it has the tables of its rows, and no row at virtual page 0.
pub(crate) struct HasTables;

impl NodeTest for HasTables {
    ghost says = { λ m names _ x z. z ≡ has_tables (node_read m (slice_index names x)) };

    fn at<M: Frames, L: Ledger>(a: &mut Auditor, mem: &M, x: usize, steps: &mut Steps<L>) -> bool {
        let page = a.name(mem, x);
        a.node.load(mem, page, steps);
        if a.node.repeats() {
            return false;
        }
        a.node.row(mem, 0, steps).is_none()
    }
}

/// Whether it has no pending lines.
pub(crate) struct HasNoLines;

impl NodeTest for HasNoLines {
    ghost says = { λ m names _ x z. z ≡ has_no_lines (node_read m (slice_index names x)) };

    fn at<M: Frames, L: Ledger>(a: &mut Auditor, mem: &M, x: usize, steps: &mut Steps<L>) -> bool {
        mem.word(a.name(mem, x), PENDING, steps) % (1 << LINES) == 0
    }
}

// ---- the tests of a child

/// Whether all that it holds is in rows of its parent.
pub(crate) struct IsLent;

impl ChildTest for IsLent {
    ghost holds = { λ y x. is_lent_by y x };

    fn at<M: Frames, L: Ledger>(a: &mut Auditor, mem: &M, x: usize, steps: &mut Steps<L>) -> bool {
        a.is_lent_by(mem, x, steps)
    }
}

/// Whether it has no right to a page that its parent lacks.
pub(crate) struct IsGranted;

impl ChildTest for IsGranted {
    ghost holds = { λ y x. gives_no_more y x };

    fn at<M: Frames, L: Ledger>(a: &mut Auditor, mem: &M, x: usize, steps: &mut Steps<L>) -> bool {
        let part = a.name(mem, x);
        a.child.load(mem, part, steps);
        let rights = &a.words.rights;
        a.child.all_rows(mem, &a.blocks, steps, |row| {
            rights.gives(row.frame, row.rights)
        })
    }
}
