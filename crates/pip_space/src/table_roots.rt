//! Where a partition's tables are listed.
ghost use Rattle.std.specs.Prelude.{◌≡◌, ◌+◌, ◌<◌, ◌≤◌, length};
ghost use Rattle.pip_base.specs.Memory.{put_word};
ghost use Rattle.pip_base.specs.Words.{directory_word};
ghost use Rattle.pip_model.specs.NodeIn.{HasNode};
ghost use Rattle.pip_space.specs.Nodes.{InEachNode};
ghost use Rattle.pip_space.specs.Tables.{AreTableRoots, AreInside};

use crate::reads::directory;
use pip_base::{Frame, Steps};
use pip_entry::descriptor::{LIST_FRAME, TABLES};
use pip_entry::{DirWord, pack_dir};
use pip_frames::Frames;
use pip_model::Level;
use std::sync::ledger::Ledger;

/// Where a descriptor says that the tables are listed: the first list page, the number of tables, and the three
/// directories.
#[derive(Clone, Copy, Debug, PartialEq, Eq)]
pub(crate) struct TableRoots {
    pub(crate) part: Frame,
    pub(crate) list: Frame,
    pub(crate) tables: u32,
    pub(crate) mmu: Frame,
    pub(crate) shadow1: Frame,
    pub(crate) shadow2: Frame,
}

/// Reads the table roots of a partition.
pub(crate) fn read_table_roots<M: Frames, L: Ledger>(
    mem: &M,
    part: Frame,
    steps: &mut Steps<L>,
) -> TableRoots
    requires { HasNode (M.memory mem.now) part }
    ensures roots { InEachNode (M.memory mem.now) part (λ x cells. AreTableRoots x result) }
    ensures inside { AreInside (M.memory mem.now) result }
    ensures few { result.tables ≤ 1024 }
    ensures steps { steps.new ≡ steps.old + 5 }
{
    TableRoots {
        part,
        list: Frame::new(mem.word(part, LIST_FRAME, steps)),
        tables: mem.word(part, TABLES, steps),
        mmu: directory(mem, part, Level::Mmu, steps),
        shadow1: directory(mem, part, Level::Shadow1, steps),
        shadow2: directory(mem, part, Level::Shadow2, steps),
    }
}

/// Writes that a directory index, below 1024, has these tables, and then the number of tables.
pub(crate) fn set_entries<M: Frames>(
    mem: &mut M,
    at: &TableRoots,
    i: u32,
    mmu: Frame,
    shadow1: Frame,
    shadow2: Frame,
    tables: u32,
)
    requires inside { AreInside (M.memory mem.old) at.now }
    requires index { i < 1024 }
    ensures words { M.memory mem.new ≡
        put_word (put_word (put_word (put_word (M.memory mem.old) at.now.mmu i (directory_word mmu))
        at.now.shadow1 i (directory_word shadow1)) at.now.shadow2 i (directory_word shadow2))
        at.now.part 12 tables }
    ensures count { length (M.memory mem.new) ≡ length (M.memory mem.old) }
{
    mem.set_word(at.mmu, i, pack_dir(DirWord::Table(mmu)));
    mem.set_word(at.shadow1, i, pack_dir(DirWord::Table(shadow1)));
    mem.set_word(at.shadow2, i, pack_dir(DirWord::Table(shadow2)));
    mem.set_word(at.part, TABLES, tables);
}

/// Writes that a directory index, below 1024, has no tables, and then the number of tables.
pub(crate) fn clear_entries<M: Frames>(mem: &mut M, at: &TableRoots, i: u32, tables: u32)
    requires inside { AreInside (M.memory mem.old) at.now }
    requires index { i < 1024 }
    ensures words { M.memory mem.new ≡
        put_word (put_word (put_word (put_word (M.memory mem.old) at.now.mmu i 0) at.now.shadow1 i 0)
        at.now.shadow2 i 0) at.now.part 12 tables }
    ensures count { length (M.memory mem.new) ≡ length (M.memory mem.old) }
{
    let none = pack_dir(DirWord::Empty);
    mem.set_word(at.mmu, i, none);
    mem.set_word(at.shadow1, i, none);
    mem.set_word(at.shadow2, i, none);
    mem.set_word(at.part, TABLES, tables);
}
