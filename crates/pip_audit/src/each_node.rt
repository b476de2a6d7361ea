//! Tests of the nodes that were read, one after the other.
ghost use Rattle.std.specs.Prelude.{ℕ, ◌<◌, Bool, List};
ghost use Rattle.pip_base.specs.Memory.{Memory};
ghost use Rattle.pip_audit.specs.Judging.{KeepsNodes, TellsEach};
ghost use Rattle.pip_audit.specs.Reading.{IsRead};

use crate::auditor::Auditor;
use pip_base::Steps;
use pip_frames::Frames;
use std::sync::ledger::Ledger;

/// A test of a node, by its place among the names.
pub(crate) trait NodeTest {
    /// What it says of a place, by the names and by how many of them are nodes.
    ghost says: { Memory → List ℕ → ℕ → ℕ → Bool → Type 0 };

    /// Tests the node at a place.
    fn at<M: Frames, L: Ledger>(a: &mut Auditor, mem: &M, x: usize, steps: &mut Steps<L>) -> bool
        requires read { IsRead (M.memory mem.now) a.old }
        requires node { x < a.old.count }
        ensures says { says (M.memory mem.now) a.old.names.items a.old.count x result }
        ensures read { IsRead (M.memory mem.now) a.new }
        ensures keeps { KeepsNodes a.old a.new };
}

impl Auditor {
    /// Whether each node from a place on passes a test. It ends at the first that fails.
    pub(crate) fn each_node<T: NodeTest, M: Frames, L: Ledger>(
        &mut self,
        mem: &M,
        from: usize,
        steps: &mut Steps<L>,
    ) -> bool
        requires read { IsRead (M.memory mem.now) self.old }
        ensures each { TellsEach (T.says (M.memory mem.now) self.old.names.items self.old.count)
            from self.old.count result }
        ensures read { IsRead (M.memory mem.now) self.new }
        ensures keeps { KeepsNodes self.old self.new }
    {
        for x in from..self.count {
            if !T::at(self, mem, x, steps) {
                return false;
            }
        }
        true
    }
}
