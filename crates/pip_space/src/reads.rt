//! Reading rows and tables.
ghost use Rattle.std.specs.Prelude.{◌≡◌, ℕ, ◌+◌, ◌*◌, ◌<◌, ◌≤◌, ◌/◌, ◌↔◌, IsTrue, Option, None, IfSome, is_some};
ghost use Rattle.std.specs.Prelude.{length, option_map};
ghost use Rattle.pip_model.specs.FullRows.{row_word};
ghost use Rattle.pip_entry.specs.Sh1.{packed_sh1};
ghost use Rattle.pip_entry.specs.Sh2.{packed_sh2};
ghost use Rattle.pip_model.specs.declared.level.Level.TheVariants.{Mmu, Shadow1, Shadow2};
ghost use Rattle.pip_model.specs.NodeIn.{HasNode, HasTableFor, directory_of};
ghost use Rattle.pip_model.specs.Tree.{table_at};
ghost use Rattle.pip_table.specs.Table.{tables_below};
ghost use Rattle.pip_space.specs.Nodes.{InEachNode, InEachSpace};
ghost use Rattle.pip_space.specs.Levels.{table_frame_at};
ghost use Rattle.pip_space.specs.Rows.{HasRows, IsNextRow, full_of};
ghost use Rattle.pip_space.specs.Tables.{HasTables, IsNextTables};

use crate::level::place;
use crate::row::{Row, row_from};
use pip_base::{Frame, Steps, VPage, never};
use pip_entry::descriptor::TABLES;
use pip_entry::{DirWord, Sh1, Sh2, unpack_sh1, unpack_sh2};
use pip_frames::Frames;
use pip_model::Level;
use pip_table::{dir, next_leaf, next_table, table_is_empty};
use std::sync::ledger::Ledger;

/// The directory of a level.
pub(crate) fn directory<M: Frames, L: Ledger>(
    mem: &M,
    part: Frame,
    level: Level,
    steps: &mut Steps<L>,
) -> Frame
    requires { HasNode (M.memory mem.now) part }
    ensures frame { InEachNode (M.memory mem.now) part (λ x cells.
        result ≡ (directory_of level x.base).frame) }
    ensures step { steps.new ≡ steps.old + 1 }
{
    Frame::new(mem.word(part, place(level), steps))
}

/// The table of directory index `i`, below 1024. None where the partition has none.
pub(crate) fn table<M: Frames, L: Ledger>(
    mem: &M,
    part: Frame,
    level: Level,
    i: u32,
    steps: &mut Steps<L>,
) -> Option<Frame>
    requires node { HasNode (M.memory mem.now) part }
    requires index { i < 1024 }
    ensures page { InEachNode (M.memory mem.now) part (λ x cells. result ≡ table_frame_at level x i) }
    ensures inside { IfSome result (λ f. f < length (M.memory mem.now)) }
    ensures steps { steps.new ≤ steps.old + 2 }
{
    let top = directory(mem, part, level, steps);
    match dir(mem, top, i, steps) {
        DirWord::Empty => None,
        DirWord::Table(frame) => Some(frame),
    }
}

// The number of directory indexes for which `part` has tables. Takes one step.
fn table_count<M: Frames, L: Ledger>(mem: &M, part: Frame, steps: &mut Steps<L>) -> u32
    requires { HasNode (M.memory mem.now) part }
    ensures tables { InEachNode (M.memory mem.now) part (λ x cells. result ≡ length x.tables) }
    ensures step { steps.new ≡ steps.old + 1 }
{
    mem.word(part, TABLES, steps)
}

/// The first directory index from `from` on, at most 1024, for which `part` has tables. None exactly where there is
/// none.
pub fn next_tables<M: Frames, L: Ledger>(
    mem: &M,
    part: Frame,
    from: u32,
    steps: &mut Steps<L>,
) -> Option<u32>
    requires node { HasNode (M.memory mem.now) part }
    requires index { from ≤ 1024 }
    ensures next { InEachNode (M.memory mem.now) part (λ x cells. IsNextTables x from result) }
    ensures steps { steps.new ≤ steps.old + 34 }
{
    if table_count(mem, part, steps) == 0 {
        return None;
    }
    let top = directory(mem, part, Level::Mmu, steps);
    next_table(mem, top, from, steps)
}

/// The table of a level for a virtual page that has one.
pub fn table_for<M: Frames, L: Ledger>(
    mem: &M,
    part: Frame,
    level: Level,
    v: VPage,
    steps: &mut Steps<L>,
) -> Frame
    requires { HasTableFor (M.memory mem.now) part v }
    ensures page { InEachNode (M.memory mem.now) part (λ x cells.
        table_frame_at level x (v / 1024) ≡ Some result) }
    ensures inside { result < length (M.memory mem.now) }
    ensures steps { steps.new ≤ steps.old + 2 }
{
    match table(mem, part, level, v.number() / 1024, steps) {
        Some(frame) => frame,
        None => never!(),
    }
}

// The word of a level at a virtual page, 0 where there is no table.
fn level_word<M: Frames, L: Ledger>(
    mem: &M,
    part: Frame,
    level: Level,
    v: VPage,
    steps: &mut Steps<L>,
) -> u32
    requires { HasNode (M.memory mem.now) part }
    ensures word { InEachSpace (M.memory mem.now) part (λ x rows.
        result ≡ row_word level (rows v)) }
    ensures steps { steps.new ≤ steps.old + 3 }
{
    let number = v.number();
    match table(mem, part, level, number / 1024, steps) {
        Some(frame) => mem.word(frame, number % 1024, steps),
        None => 0,
    }
}

/// The word of the MMU's tables of `part` at a virtual page, 0 where there is no table. The shadows aren't read.
pub fn leaf_word<M: Frames, L: Ledger>(mem: &M, part: Frame, v: VPage, steps: &mut Steps<L>) -> u32
    requires { HasNode (M.memory mem.now) part }
    ensures word { InEachSpace (M.memory mem.now) part (λ x rows. result ≡ row_word Mmu (rows v)) }
    ensures steps { steps.new ≤ steps.old + 3 }
{
    level_word(mem, part, Level::Mmu, v, steps)
}

/// To which child the page at a virtual page of `part` is given. `Free` where `part` doesn't map the page.
pub fn given<M: Frames, L: Ledger>(mem: &M, part: Frame, v: VPage, steps: &mut Steps<L>) -> Sh1
    requires { HasRows (M.memory mem.now) part }
    ensures word { InEachSpace (M.memory mem.now) part (λ x rows.
        packed_sh1 result ≡ row_word Shadow1 (rows v)) }
    ensures steps { steps.new ≤ steps.old + 3 }
{
    match unpack_sh1(level_word(mem, part, Level::Shadow1, v, steps)) {
        Some(given) => given,
        None => never!(),
    }
}

/// Where the parent maps the page that `part` has at a virtual page. `Empty` where `part` doesn't map the page, and in
/// the root.
pub fn place_above<M: Frames, L: Ledger>(
    mem: &M,
    part: Frame,
    v: VPage,
    steps: &mut Steps<L>,
) -> Sh2
    requires { HasRows (M.memory mem.now) part }
    ensures word { InEachSpace (M.memory mem.now) part (λ x rows.
        packed_sh2 result ≡ row_word Shadow2 (rows v)) }
    ensures steps { steps.new ≤ steps.old + 3 }
{
    match unpack_sh2(level_word(mem, part, Level::Shadow2, v, steps)) {
        Some(from) => from,
        None => never!(),
    }
}

/// The row of `part` at a virtual page. None exactly where `part` doesn't map the page.
pub fn look<M: Frames, L: Ledger>(
    mem: &M,
    part: Frame,
    v: VPage,
    steps: &mut Steps<L>,
) -> Option<Row>
    requires { HasNode (M.memory mem.now) part }
    ensures row { InEachSpace (M.memory mem.now) part (λ x rows. option_map full_of result ≡ rows v) }
    ensures steps { steps.new ≤ steps.old + 9 }
{
    let word = leaf_word(mem, part, v, steps);
    let given = level_word(mem, part, Level::Shadow1, v, steps);
    let from = level_word(mem, part, Level::Shadow2, v, steps);
    row_from(word, given, from)
}

/// Whether `part` has tables for directory index `i`, below 1024.
pub fn has_table<M: Frames, L: Ledger>(mem: &M, part: Frame, i: u32, steps: &mut Steps<L>) -> bool
    requires node { HasNode (M.memory mem.now) part }
    requires index { i < 1024 }
    ensures table { InEachNode (M.memory mem.now) part (λ x cells.
        result ≡ is_some (table_at x.tables i)) }
    ensures steps { steps.new ≤ steps.old + 2 }
{
    table(mem, part, Level::Mmu, i, steps).is_some()
}

/// Whether no row of `part` is in its tables of directory index `i`, below 1024. It has these tables. Takes at most two
/// steps and those of the 1024 words of the MMU's table.
pub fn is_table_empty<M: Frames, L: Ledger>(
    mem: &M,
    part: Frame,
    i: u32,
    steps: &mut Steps<L>,
) -> bool
    requires tables { HasTables (M.memory mem.now) part i }
    requires index { i < 1024 }
    ensures empty { InEachSpace (M.memory mem.now) part (λ x rows.
        IsTrue result ↔ ((v : ℕ) → v / 1024 ≡ i → rows v ≡ None)) }
    ensures steps { steps.new ≤ steps.old + 34 }
{
    let top = directory(mem, part, Level::Mmu, steps);
    table_is_empty(mem, top, i, steps)
}

/// The row of `part` at the least virtual page above `after`, or of all where that is None, with this page. None
/// exactly where there is none. It takes at most 1031 steps, and 1024 more for each table of the partition.
pub fn next_row<M: Frames, L: Ledger>(
    mem: &M,
    part: Frame,
    after: Option<VPage>,
    steps: &mut Steps<L>,
) -> Option<(VPage, Row)>
    requires { HasNode (M.memory mem.now) part }
    ensures row { InEachSpace (M.memory mem.now) part (λ x rows. IsNextRow rows after result) }
    ensures steps { InEachSpace (M.memory mem.now) part (λ x rows. steps.new ≤ steps.old + 1031
        + 1024 * tables_below (M.memory mem.now) (directory_of Mmu x.base).frame 1024) }
{
    let top = directory(mem, part, Level::Mmu, steps);
    let (v, leaf) = next_leaf(mem, top, after, steps)?;
    let given = level_word(mem, part, Level::Shadow1, v, steps);
    let from = level_word(mem, part, Level::Shadow2, v, steps);
    match row_from(leaf, given, from) {
        Some(row) => Some((v, row)),
        None => None,
    }
}
