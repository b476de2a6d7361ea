//! What the shadows of a node and of its children say of each page: to whom it is given, and where it comes from.
ghost use Rattle.std.specs.Prelude.{◌≡◌, ◌<◌, ◌≤◌, ◌==◌, if◌then◌else◌, None, length};
ghost use Rattle.pip_base.specs.Words.{as_descriptor, shadow1_word};
ghost use Rattle.pip_model.specs.ReadOff.{node_stop};
ghost use Rattle.pip_model.specs.Tree.{vpage};
ghost use Rattle.pip_audit.specs.Families.{up_at};
ghost use Rattle.pip_audit.specs.FrameWords.{HasWordEach};
ghost use Rattle.pip_audit.specs.Given.{GivesAll, GivesChild, GivesConfig, GivesRows, PlacesRows};
ghost use Rattle.pip_audit.specs.Reading.{IsRead};
ghost use Rattle.pip_audit.specs.Blocks.{AreKnown};
ghost use Rattle.pip_audit.specs.Tables.{IsOf};

use crate::auditor::Auditor;
use crate::blocks::Blocks;
use crate::frame_words::FrameWords;
use crate::pages::{count_pages, page};
use crate::tables::Tables;
use pip_base::{Frame, Steps, VPage};
use pip_entry::descriptor::SELF_VA;
use pip_entry::{Sh2, pack_sh2};
use pip_frames::Frames;
use std::sync::ledger::Ledger;

// The word of a page that is given to the child whose descriptor is `part` and was born at an address.
fn word_to(part: Frame, born: u32, frame: u32, kind: u32) -> u32
    requires kind { kind ≤ 3 }
    ensures { result ≡ shadow1_word (if part == frame then as_descriptor else kind) (vpage born) }
{
    let kind = if part.number() == frame { 1 } else { kind };
    born / 4096 * 4096 + kind
}

impl FrameWords {
    // Holds the words of the pages of a child's rows.
    #[tactic(auto, using(crate::proofs::PartLaws::rows_are))]
    fn give_rows<M: Frames, L: Ledger>(
        &mut self,
        tables: &Tables,
        mem: &M,
        blocks: &Blocks,
        steps: &mut Steps<L>,
    )
        requires room { HasWordEach (length (M.memory mem.now)) self.old }
        requires of { IsOf (M.memory mem.now) tables.now }
        requires known { AreKnown (M.memory mem.now) blocks.now }
        ensures words { GivesRows (M.memory mem.now) tables.now.part self.old self.new }
        ensures room { length self.new.words.items ≡ length self.old.words.items }
    {
        let part = tables.part();
        let born = mem.word(part, SELF_VA, steps);
        let mut from = 0;
        while let Some(row) = tables.next_row(mem, blocks, from, steps) {
            let word = word_to(part, born, row.frame, 3);
            self.hold(row.frame, word);
            from = row.at + 1;
        }
    }

    // Holds the words of the pages of a child's configuration.
    fn give_pages<M: Frames, L: Ledger>(&mut self, mem: &M, part: Frame, steps: &mut Steps<L>)
        requires room { HasWordEach (length (M.memory mem.now)) self.old }
        requires part { part < length (M.memory mem.now) }
        requires passes { node_stop (M.memory mem.now) part ≡ None }
        ensures words { GivesConfig (M.memory mem.now) part self.old self.new }
        ensures room { length self.new.words.items ≡ length self.old.words.items }
    {
        let born = mem.word(part, SELF_VA, steps);
        let count = count_pages(mem, part, steps);
        for k in 0..count {
            let given = page(mem, part, k, steps);
            let word = word_to(part, born, given.frame, 2);
            self.hold(given.frame, word);
        }
    }

    // Holds for each page the second shadow's word that names the first row in which a node has it; 0 if no row does.
    #[tactic(auto, using(crate::proofs::PartLaws::rows_are))]
    fn place_rows<M: Frames, L: Ledger>(
        &mut self,
        tables: &Tables,
        mem: &M,
        blocks: &Blocks,
        steps: &mut Steps<L>,
    )
        requires room { HasWordEach (length (M.memory mem.now)) self.old }
        requires of { IsOf (M.memory mem.now) tables.now }
        requires known { AreKnown (M.memory mem.now) blocks.now }
        ensures words { PlacesRows (M.memory mem.now) tables.now.part self.new }
        ensures room { length self.new.words.items ≡ length self.old.words.items }
    {
        self.fill(0);
        let mut from = 0;
        while let Some(row) = tables.next_row(mem, blocks, from, steps) {
            self.hold_if_none(row.frame, pack_sh2(Sh2::Of(VPage::new(row.at))));
            from = row.at + 1;
        }
    }
}

impl Auditor {
    // Holds the words of all that node `x` holds, as a child. A page that is both configuration and in a row counts as
    // configuration.
    fn give_child<M: Frames, L: Ledger>(&mut self, mem: &M, x: usize, steps: &mut Steps<L>)
        requires read { IsRead (M.memory mem.now) self.old }
        requires node { x < self.old.count }
        ensures words { GivesChild (M.memory mem.now) (up_at (M.memory mem.now) self.old.names.items x) x
            self.old self.new }
        ensures read { IsRead (M.memory mem.now) self.new }
        ensures rest { self.new ≡ record self.old { child = self.new.child; words = self.new.words } }
    {
        let part = self.name(mem, x);
        self.child.load(mem, part, steps);
        self.words
            .given
            .give_rows(&self.child, mem, &self.blocks, steps);
        self.words.given.give_pages(mem, part, steps);
    }

    /// Holds for each page the word that the first shadows of node `y` have for it: to which child it is given, and
    /// what for.
    pub(crate) fn give_to_children<M: Frames, L: Ledger>(
        &mut self,
        mem: &M,
        y: usize,
        steps: &mut Steps<L>,
    )
        requires read { IsRead (M.memory mem.now) self.old }
        requires node { y < self.old.count }
        ensures words { GivesAll (M.memory mem.now) y self.old self.new }
        ensures read { IsRead (M.memory mem.now) self.new }
        ensures rest { self.new ≡ record self.old { child = self.new.child; words = self.new.words } }
    {
        let parent = self.name(mem, y);
        self.words.given.fill(0);
        let mut next = self.first_child(mem, parent);
        while let Some(x) = next {
            self.give_child(mem, x, steps);
            next = self.next_child_after(mem, x);
        }
    }

    /// Loads a node beside, and holds for each page the word that the second shadows of its children have for it: where
    /// the node maps it.
    pub(crate) fn place<M: Frames, L: Ledger>(&mut self, mem: &M, part: Frame, steps: &mut Steps<L>)
        requires read { IsRead (M.memory mem.now) self.old }
        requires part { part < length (M.memory mem.now) }
        requires passes { node_stop (M.memory mem.now) part ≡ None }
        ensures places { PlacesRows (M.memory mem.now) part self.new.words.above }
        ensures read { IsRead (M.memory mem.now) self.new }
        ensures rest { self.new ≡ record self.old { child = self.new.child; words = self.new.words } }
    {
        self.child.load(mem, part, steps);
        self.words
            .above
            .place_rows(&self.child, mem, &self.blocks, steps);
    }
}
