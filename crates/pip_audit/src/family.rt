//! The children of the nodes that were read, found once for all nodes.
ghost use Rattle.std.specs.Prelude.{◌≡◌, ℕ, ◌<◌, ◌≤◌, ◌+◌, IfOk, None, length};
ghost use Rattle.pip_audit.specs.Blocks.{AreKnown};
ghost use Rattle.pip_audit.specs.Families.{HasFamilyRoom, IsNextOf, TakesChild, first_held, up_at};
ghost use Rattle.pip_audit.specs.Reading.{InWalk, IsRead};

use crate::auditor::Auditor;
use pip_base::{Frame, Steps};
use pip_entry::descriptor::PARENT;
use pip_frames::Frames;
use std::alloc::{AllocError, Global};
use std::sync::ledger::Ledger;

/// The children of each node, by their places among the names.
#[derive(Drop)]
pub(crate) struct Family {
    // Per frame, the first node that names it as its parent.
    first: Vec<Option<usize>>,
    // Per node, the next one that names the same parent.
    next: Vec<Option<usize>>,
}

impl Family {
    /// Room for the nodes of a memory of `n` frames, 4096 at most.
    pub(crate) fn new(alloc: Global, n: usize) -> Result<Family, AllocError>
        requires { n ≤ 4096 }
        ensures { IfOk result (HasFamilyRoom n) }
    {
        Ok(Family {
            first: vec![in alloc; None; n]?,
            next: vec![in alloc; None; n + 1]?,
        })
    }

    // No node has a child.
    fn forget(&mut self)
        ensures none { (f : ℕ) → first_held self.new f ≡ None }
        ensures room { (n : ℕ) → HasFamilyRoom n self.old → HasFamilyRoom n self.new }
    {
        self.first.fill(None);
    }

    // Node `k`, which is before all that were taken, is a child of the frame that it names.
    fn take(&mut self, k: usize, parent: u32)
        requires { k < length self.old.next.items }
        ensures taken { TakesChild k parent self.old self.new }
        ensures room { (n : ℕ) → HasFamilyRoom n self.old → HasFamilyRoom n self.new }
    {
        let f = parent as usize;
        if f < self.first.len() {
            self.next[k] = self.first[f];
            self.first[f] = Some(k);
        }
    }
}

impl Auditor {
    /// Finds the children of each node, where all nodes were read.
    pub(crate) fn find_children<M: Frames, L: Ledger>(&mut self, mem: &M, steps: &mut Steps<L>)
        requires walks { InWalk (M.memory mem.now) self.old }
        requires known { AreKnown (M.memory mem.now) self.old.blocks }
        requires whole { self.old.depth ≡ 0 }
        ensures read { IsRead (M.memory mem.now) self.new }
    {
        self.family.forget();
        for j in 1..self.count {
            let k = self.count - j;
            let parent = mem.word(self.names[k], PARENT, steps);
            self.family.take(k, parent);
        }
    }

    /// The first child of a node.
    pub(crate) fn first_child<M: Frames>(&self, mem: &M, parent: Frame) -> Option<usize>
        requires read { IsRead (M.memory mem.now) self.now }
        requires parent { parent < length (M.memory mem.now) }
        ensures { IsNextOf (M.memory mem.now) self.now.names.items self.now.count parent 1 result }
    {
        // Only the contract speaks of `mem`, as in `name`.
        let _count = mem.count();
        self.family.first[parent.number() as usize]
    }

    /// The next child of the parent of node `k`, a frame of the memory.
    pub(crate) fn next_child_after<M: Frames>(&self, mem: &M, k: usize) -> Option<usize>
        requires read { IsRead (M.memory mem.now) self.now }
        requires node { k < self.now.count }
        requires other { 1 ≤ k }
        requires inside { up_at (M.memory mem.now) self.now.names.items k < length (M.memory mem.now) }
        ensures { IsNextOf (M.memory mem.now) self.now.names.items self.now.count
            (up_at (M.memory mem.now) self.now.names.items k) (k + 1) result }
    {
        let _count = mem.count();
        self.family.next[k]
    }
}
