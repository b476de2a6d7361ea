//! The nodes that were read, judged one after the other.
ghost use Rattle.std.specs.Prelude.{◌≡◌, ℕ, ◌<◌, ◌≤◌, slice_index};
ghost use Rattle.pip_model.specs.Audit.{difference};
ghost use Rattle.pip_model.specs.declared.level.Level.TheVariants.{Mmu, Shadow1, Shadow2};
ghost use Rattle.pip_model.specs.Sound.{IsSound};
ghost use Rattle.pip_audit.specs.Comparing.{Covers, CoversChildren, CoversNode, CoversPlain, CoversTables, GoesOn};
ghost use Rattle.pip_audit.specs.Comparing.{HoldsLevel, IsDifference, LoadsOnly, tree_in};
ghost use Rattle.pip_audit.specs.Families.{up_at};
ghost use Rattle.pip_audit.specs.Given.{PlacesRows};
ghost use Rattle.pip_audit.specs.Reading.{IsRead};

use crate::auditor::Auditor;
use pip_base::{Frame, Steps};
use pip_frames::Frames;
use pip_model::{Difference, Level, ROOT};
use std::sync::ledger::Ledger;

impl Auditor {
    // ---- hidden pages

    // Finds the pages of all configuration.
    fn hide_all<M: Frames, L: Ledger>(&mut self, mem: &M, steps: &mut Steps<L>)
        requires { IsRead (M.memory mem.now) self.old }
        ensures hidden { HoldsLevel (M.memory mem.now) self.new Mmu }
        ensures read { IsRead (M.memory mem.now) self.new }
        ensures rest { self.new ≡ record self.old { sets = self.new.sets } }
    {
        self.sets.hidden.clear();
        for x in 0..self.count {
            let part = self.name(mem, x);
            let _are_new = self.sets.hidden.insert_pages(mem, part, steps);
        }
    }

    // ---- one node

    // Judges all of node `x` but the shadows.
    fn judge_node<M: Frames, L: Ledger>(
        &mut self,
        mem: &M,
        x: usize,
        found: Option<Difference>,
        steps: &mut Steps<L>,
    ) -> Option<Difference>
        requires read { IsRead (M.memory mem.now) self.old }
        requires sound { IsSound (tree_in (M.memory mem.now)) }
        requires node { x < self.old.count }
        requires hidden { HoldsLevel (M.memory mem.now) self.old Mmu }
        requires is { IsDifference (M.memory mem.now) found }
        ensures goes { GoesOn (M.memory mem.now) found result }
        ensures covers { CoversPlain (M.memory mem.now) result (slice_index self.old.names.items x) }
        ensures read { IsRead (M.memory mem.now) self.new }
        ensures rest { LoadsOnly self.old self.new }
    {
        let part = self.name(mem, x);
        self.node.load(mem, part, steps);
        self.judge_plain(mem, found, steps)
    }

    // Judges the first shadows of node `x`.
    fn judge_given<M: Frames, L: Ledger>(
        &mut self,
        mem: &M,
        x: usize,
        found: Option<Difference>,
        steps: &mut Steps<L>,
    ) -> Option<Difference>
        requires read { IsRead (M.memory mem.now) self.old }
        requires sound { IsSound (tree_in (M.memory mem.now)) }
        requires node { x < self.old.count }
        requires is { IsDifference (M.memory mem.now) found }
        ensures goes { GoesOn (M.memory mem.now) found result }
        ensures covers { CoversTables (M.memory mem.now) result (slice_index self.old.names.items x) Shadow1 }
        ensures read { IsRead (M.memory mem.now) self.new }
        ensures rest { LoadsOnly self.old self.new }
    {
        self.give_to_children(mem, x, steps);
        let part = self.name(mem, x);
        self.node.load(mem, part, steps);
        self.judge_tables(mem, Level::Shadow1, found, steps)
    }

    // Judges all of node `x` but its second shadows.
    fn judge_all_of<M: Frames, L: Ledger>(
        &mut self,
        mem: &M,
        x: usize,
        found: Option<Difference>,
        steps: &mut Steps<L>,
    ) -> Option<Difference>
        requires read { IsRead (M.memory mem.now) self.old }
        requires sound { IsSound (tree_in (M.memory mem.now)) }
        requires node { x < self.old.count }
        requires hidden { HoldsLevel (M.memory mem.now) self.old Mmu }
        requires is { IsDifference (M.memory mem.now) found }
        ensures goes { GoesOn (M.memory mem.now) found result }
        ensures covers { CoversNode (M.memory mem.now) result (slice_index self.old.names.items x) }
        ensures read { IsRead (M.memory mem.now) self.new }
        ensures rest { LoadsOnly self.old self.new }
    {
        let first = self.judge_node(mem, x, found, steps);
        self.judge_given(mem, x, first, steps)
    }

    // Judges the second shadows of node `x`, whose parent is placed.
    fn judge_placed<M: Frames, L: Ledger>(
        &mut self,
        mem: &M,
        x: usize,
        found: Option<Difference>,
        steps: &mut Steps<L>,
    ) -> Option<Difference>
        requires read { IsRead (M.memory mem.now) self.old }
        requires sound { IsSound (tree_in (M.memory mem.now)) }
        requires other { 1 ≤ x }
        requires node { x < self.old.count }
        requires places { PlacesRows (M.memory mem.now) (up_at (M.memory mem.now) self.old.names.items x)
            self.old.words.above }
        requires is { IsDifference (M.memory mem.now) found }
        ensures goes { GoesOn (M.memory mem.now) found result }
        ensures covers { CoversTables (M.memory mem.now) result (slice_index self.old.names.items x) Shadow2 }
        ensures read { IsRead (M.memory mem.now) self.new }
        ensures rest { self.new ≡ record self.old { node = self.new.node } }
    {
        let part = self.name(mem, x);
        self.node.load(mem, part, steps);
        self.judge_tables(mem, Level::Shadow2, found, steps)
    }

    // Judges the second shadows of the children of node `y`.
    fn judge_children<M: Frames, L: Ledger>(
        &mut self,
        mem: &M,
        y: usize,
        found: Option<Difference>,
        steps: &mut Steps<L>,
    ) -> Option<Difference>
        requires read { IsRead (M.memory mem.now) self.old }
        requires sound { IsSound (tree_in (M.memory mem.now)) }
        requires node { y < self.old.count }
        requires is { IsDifference (M.memory mem.now) found }
        ensures goes { GoesOn (M.memory mem.now) found result }
        ensures covers { CoversChildren (M.memory mem.now) self.old result (slice_index self.old.names.items y)
            self.old.count }
        ensures read { IsRead (M.memory mem.now) self.new }
        ensures rest { LoadsOnly self.old self.new }
    {
        let parent = self.name(mem, y);
        let mut next = self.first_child(mem, parent);
        let mut first = found;
        if next.is_none() {
            return first;
        }
        self.place(mem, parent, steps);
        while let Some(x) = next {
            first = self.judge_placed(mem, x, first, steps);
            next = self.next_child_after(mem, x);
        }
        first
    }

    // ---- all frames

    // Judges frame 0 and the second shadows of the root, which has no parent.
    fn judge_root<M: Frames, L: Ledger>(
        &mut self,
        mem: &M,
        steps: &mut Steps<L>,
    ) -> Option<Difference>
        requires read { IsRead (M.memory mem.now) self.old }
        requires sound { IsSound (tree_in (M.memory mem.now)) }
        ensures is { IsDifference (M.memory mem.now) result }
        ensures zero { Covers (M.memory mem.now) result 0 }
        ensures covers { CoversTables (M.memory mem.now) result 1 Shadow2 }
        ensures read { IsRead (M.memory mem.now) self.new }
        ensures rest { LoadsOnly self.old self.new }
    {
        self.words.above.fill(0);
        self.node.load(mem, Frame::new(ROOT), steps);
        let first = self.judge_zero(mem, steps);
        self.judge_tables(mem, Level::Shadow2, first, steps)
    }

    // Judges node after node, but for second shadows.
    fn judge_nodes<M: Frames, L: Ledger>(
        &mut self,
        mem: &M,
        found: Option<Difference>,
        steps: &mut Steps<L>,
    ) -> Option<Difference>
        requires read { IsRead (M.memory mem.now) self.old }
        requires sound { IsSound (tree_in (M.memory mem.now)) }
        requires hidden { HoldsLevel (M.memory mem.now) self.old Mmu }
        requires is { IsDifference (M.memory mem.now) found }
        ensures goes { GoesOn (M.memory mem.now) found result }
        ensures covers { (x : ℕ) → x < self.old.count → CoversNode (M.memory mem.now) result
            (slice_index self.old.names.items x) }
        ensures read { IsRead (M.memory mem.now) self.new }
        ensures rest { LoadsOnly self.old self.new }
    {
        let mut first = found;
        for x in 0..self.count {
            first = self.judge_all_of(mem, x, first, steps);
        }
        first
    }

    // Judges the second shadows of all nodes but the root: those of the children of each node.
    fn judge_all_placed<M: Frames, L: Ledger>(
        &mut self,
        mem: &M,
        found: Option<Difference>,
        steps: &mut Steps<L>,
    ) -> Option<Difference>
        requires read { IsRead (M.memory mem.now) self.old }
        requires sound { IsSound (tree_in (M.memory mem.now)) }
        requires is { IsDifference (M.memory mem.now) found }
        ensures goes { GoesOn (M.memory mem.now) found result }
        ensures covers { (y : ℕ) → y < self.old.count → CoversChildren (M.memory mem.now) self.old result
            (slice_index self.old.names.items y) self.old.count }
        ensures read { IsRead (M.memory mem.now) self.new }
    {
        let mut first = found;
        for y in 0..self.count {
            first = self.judge_children(mem, y, first, steps);
        }
        first
    }

    /// The first word that isn't that of the layout of the tree that was read, which is sound.
    // Pages that are nobody's configuration have the words that were read, so only frame 0 is judged of them.
    pub(crate) fn first_difference<M: Frames, L: Ledger>(
        &mut self,
        mem: &M,
        steps: &mut Steps<L>,
    ) -> Option<Difference>
        requires read { IsRead (M.memory mem.now) self.old }
        requires sound { IsSound (tree_in (M.memory mem.now)) }
        ensures difference { result ≡ difference (M.memory mem.now) (tree_in (M.memory mem.now)) }
        ensures read { IsRead (M.memory mem.now) self.new }
    {
        self.hide_all(mem, steps);
        let first = self.judge_root(mem, steps);
        let first = self.judge_nodes(mem, first, steps);
        self.judge_all_placed(mem, first, steps)
    }
}
