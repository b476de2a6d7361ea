//! The rights that the rows of a node give to pages, held for each page.
ghost use Rattle.std.specs.Prelude.{◌≡◌, ℕ, ◌<◌, ◌==◌, if◌then◌else◌, length};
ghost use Rattle.std.specs.Int.Bits.{bit_and};
ghost use Rattle.pip_model.specs.Parts.{are_among};
ghost use Rattle.pip_model.specs.ReadOff.{node_read};
ghost use Rattle.pip_audit.specs.Blocks.{AreKnown};
ghost use Rattle.pip_audit.specs.FrameWords.{HasWordEach, rights_held};
ghost use Rattle.pip_audit.specs.Judging.{AreRights};
ghost use Rattle.pip_audit.specs.Tables.{IsOf};

use crate::blocks::Blocks;
use crate::frame_words::FrameWords;
use crate::tables::Tables;
use pip_base::Steps;
use pip_frames::Frames;
use std::sync::ledger::Ledger;

// All rights: to read, to write and to execute.
const ALL: u32 = 7;

impl FrameWords {
    // Keeps those of the rights that are held for a page that are among `rights`.
    fn narrow(&mut self, f: u32, rights: u32)
        requires { f < length self.old.words.items }
        ensures rights { (g : ℕ) → rights_held self.new g ≡ (if g == f then bit_and
            (rights_held self.old g) rights else rights_held self.old g) }
        ensures room { length self.new.words.items ≡ length self.old.words.items }
    {
        let held = self.words[f as usize];
        self.words[f as usize] = held & rights;
    }

    /// Holds for each page the rights that all rows of a node with it give.
    pub(crate) fn gather_rights<M: Frames, L: Ledger>(
        &mut self,
        tables: &Tables,
        mem: &M,
        blocks: &Blocks,
        steps: &mut Steps<L>,
    )
        requires room { HasWordEach (length (M.memory mem.now)) self.old }
        requires of { IsOf (M.memory mem.now) tables.now }
        requires known { AreKnown (M.memory mem.now) blocks.now }
        ensures rights { AreRights (rights_held self.new) (node_read (M.memory mem.now) tables.now.part).rows }
        ensures room { length self.new.words.items ≡ length self.old.words.items }
    {
        self.fill(ALL);
        let mut from = 0;
        while let Some(row) = tables.next_row(mem, blocks, from, steps) {
            self.narrow(row.frame, row.rights);
            from = row.at + 1;
        }
    }

    /// Whether these rights are among those that are held for a page.
    pub(crate) fn gives(&self, f: u32, rights: u32) -> bool
        requires { f < length self.now.words.items }
        ensures { result ≡ are_among rights (rights_held self.now f) }
    {
        rights & self.words[f as usize] == rights
    }
}
