//! The pages of one node, compared with the words that the layout wants in them. The difference in the lowest frame so
//! far is kept, so the order in which frames are judged doesn't matter.
ghost use Rattle.std.specs.Prelude.{◌≡◌, ℕ, ◌<◌, None, length};
ghost use Rattle.pip_base.specs.Memory.{word_at};
ghost use Rattle.pip_model.specs.NodeIn.{directory_of};
ghost use Rattle.pip_model.specs.NodeWords.{DescriptorPage, DirectoryPage, ListPage, TablePage};
ghost use Rattle.pip_model.specs.declared.level.Level.TheVariants.{Mmu};
ghost use Rattle.pip_model.specs.ReadOff.{node_read, node_stop};
ghost use Rattle.pip_model.specs.Sound.{IsSound};
ghost use Rattle.pip_model.specs.Tree.{lists};
ghost use Rattle.pip_audit.specs.Comparing.{CanJudge, Covers, CoversPlain, CoversRole, CoversTables, GoesOn};
ghost use Rattle.pip_audit.specs.Comparing.{HoldsLevel, HoldsNode, HoldsRole, IsDifference, Plays, earlier_of};
ghost use Rattle.pip_audit.specs.Comparing.{role_of, tree_in};

use crate::auditor::Auditor;
use crate::nodes::list_page;
use crate::wanted::{Role, page_of};
use pip_base::{Frame, Steps, WORDS};
use pip_entry::descriptor::{MMU_FRAME, SHADOW1_FRAME, SHADOW2_FRAME, TABLES};
use pip_frames::Frames;
use pip_model::{Difference, Level, lists};
use std::sync::ledger::Ledger;

// The one of two differences that is in the lower frame.
fn earlier(found: Option<Difference>, here: Option<Difference>) -> Option<Difference>
    ensures { result ≡ earlier_of found here }
{
    match found {
        None => here,
        Some(a) => match here {
            None => Some(a),
            Some(b) => if b.frame < a.frame { Some(b) } else { Some(a) },
        },
    }
}

// The directory of a level.
fn directory<M: Frames, L: Ledger>(
    mem: &M,
    part: Frame,
    level: Level,
    steps: &mut Steps<L>,
) -> Frame
    requires part { part < length (M.memory mem.now) }
    requires passes { node_stop (M.memory mem.now) part ≡ None }
    ensures { result ≡ (directory_of level (node_read (M.memory mem.now) part).base).frame }
{
    match level {
        Level::Mmu => Frame::new(mem.word(part, MMU_FRAME, steps)),
        Level::Shadow1 => Frame::new(mem.word(part, SHADOW1_FRAME, steps)),
        Level::Shadow2 => Frame::new(mem.word(part, SHADOW2_FRAME, steps)),
    }
}

impl Auditor {
    // Judges a page of the node.
    #[inline(always)]
    fn judge<M: Frames, L: Ledger>(
        &self,
        mem: &M,
        f: Frame,
        role: &Role,
        found: Option<Difference>,
        steps: &mut Steps<L>,
    ) -> Option<Difference>
        requires judges { CanJudge (M.memory mem.now) self.now }
        requires role { Plays (M.memory mem.now) self.now.node.part f (role_of role.now) }
        requires holds { HoldsRole (M.memory mem.now) self.now (role_of role.now) }
        requires is { IsDifference (M.memory mem.now) found }
        ensures goes { GoesOn (M.memory mem.now) found result }
        ensures covers { Covers (M.memory mem.now) result f }
    {
        let here = self.difference_in(mem, f, role, steps);
        earlier(found, here)
    }

    /// Judges frame 0, which belongs to no node.
    pub(crate) fn judge_zero<M: Frames, L: Ledger>(
        &self,
        mem: &M,
        steps: &mut Steps<L>,
    ) -> Option<Difference>
        requires sound { IsSound (tree_in (M.memory mem.now)) }
        requires holds { HoldsNode (M.memory mem.now) self.now }
        ensures is { IsDifference (M.memory mem.now) result }
        ensures covers { Covers (M.memory mem.now) result 0 }
    {
        self.difference_in(mem, Frame::new(0), &Role::Nothing, steps)
    }

    // ---- the node whose tables are held

    // Judges its descriptor.
    fn judge_descriptor<M: Frames, L: Ledger>(
        &self,
        mem: &M,
        found: Option<Difference>,
        steps: &mut Steps<L>,
    ) -> Option<Difference>
        requires judges { CanJudge (M.memory mem.now) self.now }
        requires is { IsDifference (M.memory mem.now) found }
        ensures goes { GoesOn (M.memory mem.now) found result }
        ensures covers { CoversRole (M.memory mem.now) result self.now.node.part DescriptorPage }
    {
        self.judge(mem, self.node.part(), &Role::Descriptor, found, steps)
    }

    // Judges its directory of a level.
    fn judge_directory<M: Frames, L: Ledger>(
        &self,
        mem: &M,
        level: Level,
        found: Option<Difference>,
        steps: &mut Steps<L>,
    ) -> Option<Difference>
        requires judges { CanJudge (M.memory mem.now) self.now }
        requires is { IsDifference (M.memory mem.now) found }
        ensures goes { GoesOn (M.memory mem.now) found result }
        ensures covers { CoversRole (M.memory mem.now) result self.now.node.part (DirectoryPage level) }
    {
        let directory = directory(mem, self.node.part(), level, steps);
        self.judge(mem, directory, &Role::Directory(level), found, steps)
    }

    // Judges its list page `k`.
    fn judge_list_page<M: Frames, L: Ledger>(
        &self,
        mem: &M,
        k: u32,
        found: Option<Difference>,
        steps: &mut Steps<L>,
    ) -> Option<Difference>
        requires judges { CanJudge (M.memory mem.now) self.now }
        requires page { k < lists (word_at (M.memory mem.now) self.now.node.part 12) }
        requires is { IsDifference (M.memory mem.now) found }
        ensures goes { GoesOn (M.memory mem.now) found result }
        ensures covers { CoversRole (M.memory mem.now) result self.now.node.part (ListPage k) }
    {
        let page = list_page(mem, self.node.part(), k, steps);
        self.judge(mem, page, &Role::List(k), found, steps)
    }

    // Judges its list pages.
    fn judge_list<M: Frames, L: Ledger>(
        &self,
        mem: &M,
        found: Option<Difference>,
        steps: &mut Steps<L>,
    ) -> Option<Difference>
        requires judges { CanJudge (M.memory mem.now) self.now }
        requires is { IsDifference (M.memory mem.now) found }
        ensures goes { GoesOn (M.memory mem.now) found result }
        ensures covers { (k : ℕ) → CoversRole (M.memory mem.now) result self.now.node.part (ListPage k) }
    {
        let count = mem.word(self.node.part(), TABLES, steps);
        let mut first = found;
        for k in 0..lists(count) {
            first = self.judge_list_page(mem, k, first, steps);
        }
        first
    }

    // Judges its table of a directory index, if it has one.
    #[inline(always)]
    fn judge_table<M: Frames, L: Ledger>(
        &self,
        mem: &M,
        level: Level,
        d: u32,
        found: Option<Difference>,
        steps: &mut Steps<L>,
    ) -> Option<Difference>
        requires judges { CanJudge (M.memory mem.now) self.now }
        requires index { d < 1024 }
        requires holds { HoldsLevel (M.memory mem.now) self.now level }
        requires is { IsDifference (M.memory mem.now) found }
        ensures goes { GoesOn (M.memory mem.now) found result }
        ensures covers { CoversRole (M.memory mem.now) result self.now.node.part (TablePage level d) }
    {
        match self.node.at(d) {
            None => found,
            Some(tables) => self.judge(
                mem,
                page_of(level, tables),
                &Role::Table { level, index: d },
                found,
                steps,
            ),
        }
    }

    /// Judges its tables of a level.
    #[inline(always)]
    pub(crate) fn judge_tables<M: Frames, L: Ledger>(
        &self,
        mem: &M,
        level: Level,
        found: Option<Difference>,
        steps: &mut Steps<L>,
    ) -> Option<Difference>
        requires judges { CanJudge (M.memory mem.now) self.now }
        requires holds { HoldsLevel (M.memory mem.now) self.now level }
        requires is { IsDifference (M.memory mem.now) found }
        ensures goes { GoesOn (M.memory mem.now) found result }
        ensures covers { CoversTables (M.memory mem.now) result self.now.node.part level }
    {
        let mut first = found;
        for d in 0..WORDS {
            first = self.judge_table(mem, level, d, first, steps);
        }
        first
    }

    /// Judges all of it but the shadows.
    pub(crate) fn judge_plain<M: Frames, L: Ledger>(
        &self,
        mem: &M,
        found: Option<Difference>,
        steps: &mut Steps<L>,
    ) -> Option<Difference>
        requires judges { CanJudge (M.memory mem.now) self.now }
        requires hidden { HoldsLevel (M.memory mem.now) self.now Mmu }
        requires is { IsDifference (M.memory mem.now) found }
        ensures goes { GoesOn (M.memory mem.now) found result }
        ensures covers { CoversPlain (M.memory mem.now) result self.now.node.part }
    {
        let first = self.judge_descriptor(mem, found, steps);
        let first = self.judge_directory(mem, Level::Mmu, first, steps);
        let first = self.judge_directory(mem, Level::Shadow1, first, steps);
        let first = self.judge_directory(mem, Level::Shadow2, first, steps);
        let first = self.judge_list(mem, first, steps);
        self.judge_tables(mem, Level::Mmu, first, steps)
    }
}
