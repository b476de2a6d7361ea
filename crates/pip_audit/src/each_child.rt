//! Tests of the children of a node, one after the other.
ghost use Rattle.std.specs.Prelude.{◌≡◌, ◌<◌, Bool, slice_index};
ghost use Rattle.pip_model.specs.ReadOff.{node_read};
ghost use Rattle.pip_model.specs.Tree.{Node};
ghost use Rattle.pip_audit.specs.Judging.{KeepsNodes, Lends, TellsChildren};
ghost use Rattle.pip_audit.specs.Reading.{IsRead};

use crate::auditor::Auditor;
use pip_base::Steps;
use pip_frames::Frames;
use std::sync::ledger::Ledger;

/// A test of a child, by its place among the names, where its parent is loaded.
pub(crate) trait ChildTest {
    /// What it says of the parent and the child.
    ghost holds: { Node → Node → Bool };

    /// Tests the child at a place.
    fn at<M: Frames, L: Ledger>(a: &mut Auditor, mem: &M, x: usize, steps: &mut Steps<L>) -> bool
        requires read { IsRead (M.memory mem.now) a.old }
        requires node { x < a.old.count }
        requires lends { Lends (M.memory mem.now) a.old }
        ensures holds { result ≡ holds (node_read (M.memory mem.now) a.old.node.part)
            (node_read (M.memory mem.now) (slice_index a.old.names.items x)) }
        ensures read { IsRead (M.memory mem.now) a.new }
        ensures rest { a.new ≡ record a.old { child = a.new.child } };
}

impl Auditor {
    /// Whether each child of node `y` passes a test. It ends at the first that fails. The node is loaded once.
    pub(crate) fn each_child<T: ChildTest, M: Frames, L: Ledger>(
        &mut self,
        mem: &M,
        y: usize,
        steps: &mut Steps<L>,
    ) -> bool
        requires read { IsRead (M.memory mem.now) self.old }
        requires node { y < self.old.count }
        ensures tells { TellsChildren T.holds (M.memory mem.now) self.old.names.items self.old.count y result }
        ensures read { IsRead (M.memory mem.now) self.new }
        ensures keeps { KeepsNodes self.old self.new }
    {
        let parent = self.name(mem, y);
        let mut next = self.first_child(mem, parent);
        if next.is_none() {
            return true;
        }
        self.load_parent(mem, parent, steps);
        while let Some(x) = next {
            if !T::at(self, mem, x, steps) {
                return false;
            }
            next = self.next_child_after(mem, x);
        }
        true
    }
}
