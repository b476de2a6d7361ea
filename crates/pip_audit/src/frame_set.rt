//! Sets of frames, and the pages of a node put into them.
ghost use Rattle.std.specs.Prelude.{◌≡◌, ℕ, ◌<◌, ◌==◌, ◌||◌, not, false, IfOk, None, length};
ghost use Rattle.pip_model.specs.ReadOff.{node_read, node_stop};
ghost use Rattle.pip_model.specs.Tree.{config, row_pages};
ghost use Rattle.pip_audit.specs.Blocks.{AreKnown};
ghost use Rattle.pip_audit.specs.FrameSets.{AreSets, IsSet, are_fresh, contains, with_all};
ghost use Rattle.pip_audit.specs.Tables.{IsOf};

use crate::blocks::Blocks;
use crate::pages::{count_pages, page};
use crate::tables::Tables;
use pip_base::{Frame, Steps};
use pip_frames::Frames;
use std::alloc::{AllocError, Global};
use std::sync::ledger::Ledger;

/// A set of frames of a memory.
#[derive(Drop)]
pub(crate) struct FrameSet {
    // Per frame, whether it is in.
    has: Vec<bool>,
}

/// The sets that an audit needs.
#[derive(Drop)]
pub(crate) struct Sets {
    /// The MMU tables that were read: no word of them stops the reading.
    pub read: FrameSet,
    /// The pages, met so far, that a node or the children of one hold.
    pub met: FrameSet,
    /// The pages of the rows of a parent.
    pub lent: FrameSet,
    /// The pages of all configuration.
    pub hidden: FrameSet,
}

impl Sets {
    /// Empty sets, for a memory of `n` frames.
    pub(crate) fn new(alloc: Global, n: usize) -> Result<Sets, AllocError>
        ensures { IfOk result (AreSets n) }
    {
        Ok(Sets {
            read: FrameSet::new(alloc, n)?,
            met: FrameSet::new(alloc, n)?,
            lent: FrameSet::new(alloc, n)?,
            hidden: FrameSet::new(alloc, n)?,
        })
    }
}

impl FrameSet {
    // The empty set, for a memory of `n` frames.
    fn new(alloc: Global, n: usize) -> Result<FrameSet, AllocError>
        ensures { IfOk result (IsSet n) }
    {
        Ok(FrameSet {
            has: vec![in alloc; false; n]?,
        })
    }

    /// Takes all frames out.
    pub(crate) fn clear(&mut self)
        ensures none { (g : ℕ) → contains self.new g ≡ false }
        ensures room { length self.new.has.items ≡ length self.old.has.items }
    {
        self.has.fill(false);
    }

    /// Puts a frame in, and says whether it wasn't in before.
    pub(crate) fn insert(&mut self, f: u32) -> bool
        requires { f < length self.old.has.items }
        ensures new { result ≡ not (contains self.old f) }
        ensures set { (g : ℕ) → contains self.new g ≡ (g == f || contains self.old g) }
        ensures room { length self.new.has.items ≡ length self.old.has.items }
    {
        let was = self.has[f as usize];
        self.has[f as usize] = true;
        !was
    }

    /// Whether a frame is in.
    pub(crate) fn contains(&self, f: u32) -> bool
        requires { f < length self.now.has.items }
        ensures { result ≡ contains self.now f }
    {
        self.has[f as usize]
    }

    /// Puts in the pages of a node's configuration, and says whether none was in before and none comes twice.
    pub(crate) fn insert_pages<M: Frames, L: Ledger>(
        &mut self,
        mem: &M,
        part: Frame,
        steps: &mut Steps<L>,
    ) -> bool
        requires room { IsSet (length (M.memory mem.now)) self.old }
        requires part { part < length (M.memory mem.now) }
        requires passes { node_stop (M.memory mem.now) part ≡ None }
        ensures fresh { result ≡ are_fresh (contains self.old) (config (node_read (M.memory mem.now) part)) }
        ensures set { (f : ℕ) → contains self.new f
            ≡ with_all (contains self.old) (config (node_read (M.memory mem.now) part)) f }
        ensures room { length self.new.has.items ≡ length self.old.has.items }
    {
        let mut are_new = true;
        let count = count_pages(mem, part, steps);
        for k in 0..count {
            let given = page(mem, part, k, steps);
            let is_new = self.insert(given.frame);
            are_new = are_new & is_new;
        }
        are_new
    }

    /// Puts in the pages of a node's rows, and says whether none was in before and none comes twice.
    #[tactic(auto, using(crate::proofs::PartLaws::rows_are))]
    pub(crate) fn insert_rows<M: Frames, L: Ledger>(
        &mut self,
        tables: &Tables,
        mem: &M,
        blocks: &Blocks,
        steps: &mut Steps<L>,
    ) -> bool
        requires room { IsSet (length (M.memory mem.now)) self.old }
        requires of { IsOf (M.memory mem.now) tables.now }
        requires known { AreKnown (M.memory mem.now) blocks.now }
        ensures fresh { result ≡ are_fresh (contains self.old)
            (row_pages (node_read (M.memory mem.now) tables.now.part)) }
        ensures set { (f : ℕ) → contains self.new f
            ≡ with_all (contains self.old) (row_pages (node_read (M.memory mem.now) tables.now.part)) f }
        ensures room { length self.new.has.items ≡ length self.old.has.items }
    {
        let mut are_new = true;
        let mut from = 0;
        while let Some(row) = tables.next_row(mem, blocks, from, steps) {
            let is_new = self.insert(row.frame);
            are_new = are_new & is_new;
            from = row.at + 1;
        }
        are_new
    }
}
