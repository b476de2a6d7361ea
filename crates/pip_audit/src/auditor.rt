//! The auditor of raw memories.
ghost use Rattle.std.specs.Prelude.{◌≡◌, ◌≤◌, IfOk, length};
ghost use Rattle.pip_model.specs.Audit.{HasWordsOnly, finding};
ghost use Rattle.pip_audit.specs.Law.{LaysSome};
ghost use Rattle.pip_audit.specs.Verdict.{verdict_of};
ghost use Rattle.pip_audit.specs.Reading.{IsFor};

use crate::blocks::Blocks;
use crate::family::Family;
use crate::frame_set::Sets;
use crate::frame_words::Words;
use crate::shape::see_frames;
use crate::tables::Tables;
use pip_base::{Frame, Steps};
use pip_frames::Frames;
use std::alloc::{AllocError, Global};
use std::sync::ledger::Ledger;

/// The verdict on a memory.
#[derive(Clone, Copy, Debug, PartialEq, Eq)]
pub enum Verdict {
    /// It is the layout of a sound tree.
    Yes,
    /// The reading stops at a word.
    Unread {
        frame: u32,
        index: u32,
    },
    /// The tree that was read breaks this part of soundness, 1 to 8, and none before it.
    Unsound {
        part: u32,
    },
    /// The first word that differs from the tree's layout.
    Differs {
        frame: u32,
        index: u32,
        found: u32,
        want: u32,
    },
}

/// Judges memories of one number of frames, in memory that it took once.
#[derive(Drop)]
pub struct Auditor {
    // How many nodes were read, and their pages in the order of reading.
    pub(crate) count: usize,
    pub(crate) names: Vec<Frame>,
    // Per frame, the place among the names of the node that was read there.
    pub(crate) order: Vec<Option<u32>>,
    // The nodes whose children are being read, and the virtual page from which each one's rows are still to be read.
    pub(crate) depth: usize,
    pub(crate) standing: Vec<Frame>,
    pub(crate) from: Vec<u32>,
    // The tables of a node, and those of a node that is looked at beside it, mostly a child of it.
    pub(crate) node: Tables,
    pub(crate) child: Tables,
    pub(crate) sets: Sets,
    pub(crate) words: Words,
    // What is known of the blocks of MMU tables and of first shadows.
    pub(crate) blocks: Blocks,
    // The children of each node, once all were read.
    pub(crate) family: Family,
}

impl Auditor {
    /// A judge of memories of `n` frames, 16 to 4096. The only error is that memory is out.
    pub fn new(alloc: Global, n: u32) -> Result<Auditor, AllocError>
        requires least { 16 ≤ n }
        requires most { n ≤ 4096 }
        ensures { IfOk result (IsFor n) }
    {
        let count = n as usize;
        Ok(Auditor {
            count: 0,
            names: vec![in alloc; Frame::new(0); count + 1]?,
            order: vec![in alloc; None; count]?,
            depth: 0,
            standing: vec![in alloc; Frame::new(0); count + 1]?,
            from: vec![in alloc; 0; count + 1]?,
            node: Tables::new(alloc, count)?,
            child: Tables::new(alloc, count)?,
            sets: Sets::new(alloc, count)?,
            words: Words::new(alloc, count)?,
            blocks: Blocks::new(alloc, count)?,
            family: Family::new(alloc, count)?,
        })
    }

    /// Judges a memory with as many frames as the auditor is for.
    pub fn audit<M: Frames, L: Ledger>(&mut self, mem: &M, steps: &mut Steps<L>) -> Verdict
        requires count { IsFor (length (M.memory mem.now)) self.old }
        ensures verdict { result ≡ verdict_of (finding (M.memory mem.now)) }
        ensures yes { result ≡ Verdict.Yes → LaysSome (M.memory mem.now) }
        ensures layouts { LaysSome (M.memory mem.now) → result ≡ Verdict.Yes }
        ensures room { IsFor (length (M.memory mem.now)) self.new }
    {
        see_frames(mem, steps);
        self.verdict(mem, steps)
    }

    // The verdict, by three steps: the tree is read, its soundness is judged, and the memory is compared with its
    // layout.
    fn verdict<M: Frames, L: Ledger>(&mut self, mem: &M, steps: &mut Steps<L>) -> Verdict
        requires count { IsFor (length (M.memory mem.now)) self.old }
        requires words { HasWordsOnly (M.memory mem.now) }
        ensures verdict { result ≡ verdict_of (finding (M.memory mem.now)) }
        ensures room { IsFor (length (M.memory mem.now)) self.new }
    {
        if let Some(stop) = self.read_tree(mem, steps) {
            return Verdict::Unread {
                frame: stop.frame,
                index: stop.index,
            };
        }
        if let Some(part) = self.broken_part(mem, steps) {
            return Verdict::Unsound { part };
        }
        match self.first_difference(mem, steps) {
            None => Verdict::Yes,
            Some(difference) => Verdict::Differs {
                frame: difference.frame,
                index: difference.index,
                found: difference.found,
                want: difference.want,
            },
        }
    }
}
