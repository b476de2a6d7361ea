//! Writing rows.
ghost use Rattle.std.specs.Prelude.{◌≡◌, ℕ, ◌+◌, ◌<◌, ◌≤◌, Option, length};
ghost use Rattle.pip_entry.specs.Sh1.{packed_sh1, IsSh1};
ghost use Rattle.pip_model.specs.FullRows.{FullRow, row_word};
ghost use Rattle.pip_model.specs.declared.level.Level.TheVariants.{Mmu, Shadow1, Shadow2};
ghost use Rattle.pip_model.specs.NodeIn.{HasTableFor, IsFullRow, NodeIn, OthersStay, Space, put_cell, put_row};
ghost use Rattle.pip_model.specs.Tree.{Node};
ghost use Rattle.pip_space.specs.Nodes.{InEachNode, InEachRow, InEachSpace};
ghost use Rattle.pip_space.specs.Rows.{HasRow, IsPacked, full_of};

use crate::reads::table_for;
use crate::row::{Row, with_user};
use pip_base::{Frame, Steps, VPage};
use pip_entry::{Leaf, Sh1, pack_leaf, pack_sh1, pack_sh2};
use pip_frames::Frames;
use pip_model::Level;
use std::sync::ledger::Ledger;

// Writes the word of a level at a virtual page that has a table.
fn set_level_word<M: Frames, L: Ledger>(
    mem: &mut M,
    part: Frame,
    level: Level,
    v: VPage,
    w: u32,
    steps: &mut Steps<L>,
)
    requires { HasTableFor (M.memory mem.old) part v }
    ensures count { length (M.memory mem.new) ≡ length (M.memory mem.old) }
    ensures node { InEachNode (M.memory mem.old) part (λ x cells.
        NodeIn (M.memory mem.new) x (put_cell cells level v w)
        × OthersStay x (M.memory mem.old) (M.memory mem.new)) }
    ensures room { HasTableFor (M.memory mem.new) part v }
    ensures steps { steps.new ≤ steps.old + 2 }
{
    let page = table_for(mem, part, level, v, steps);
    mem.set_word(page, v.number() % 1024, w);
}

// Writes the words of the three levels at a virtual page that has a table.
fn set_words<M: Frames, L: Ledger>(
    mem: &mut M,
    part: Frame,
    v: VPage,
    word: u32,
    given: u32,
    from: u32,
    steps: &mut Steps<L>,
)
    requires { HasTableFor (M.memory mem.old) part v }
    ensures count { length (M.memory mem.new) ≡ length (M.memory mem.old) }
    ensures rows { (x : Node) (rows : ℕ → Option FullRow) (r : Option FullRow) →
        Space (M.memory mem.old) x rows → x.name ≡ part → IsPacked r → word ≡ row_word Mmu r →
        given ≡ row_word Shadow1 r → from ≡ row_word Shadow2 r →
        Space (M.memory mem.new) x (put_row rows v r) }
    ensures others { InEachNode (M.memory mem.old) part (λ x cells.
        OthersStay x (M.memory mem.old) (M.memory mem.new)) }
    ensures steps { steps.new ≤ steps.old + 6 }
{
    set_level_word(mem, part, Level::Mmu, v, word, steps);
    set_level_word(mem, part, Level::Shadow1, v, given, steps);
    set_level_word(mem, part, Level::Shadow2, v, from, steps);
}

/// Gives `part` a row at a virtual page that has a table. READ is among the rights of the row, which has no others than
/// READ, WRITE and EXEC, and the vpage of `given`, unless that is `Free`, isn't 0. A row that was there is replaced.
#[inline(always)]
pub fn map<M: Frames, L: Ledger>(
    mem: &mut M,
    part: Frame,
    v: VPage,
    row: &Row,
    steps: &mut Steps<L>,
)
    requires room { HasTableFor (M.memory mem.old) part v }
    requires row { IsFullRow (full_of row.now) }
    ensures count { length (M.memory mem.new) ≡ length (M.memory mem.old) }
    ensures rows { InEachSpace (M.memory mem.old) part (λ x rows.
        Space (M.memory mem.new) x (put_row rows v (Some (full_of row.now)))) }
    ensures others { InEachNode (M.memory mem.old) part (λ x cells.
        OthersStay x (M.memory mem.old) (M.memory mem.new)) }
    ensures steps { steps.new ≤ steps.old + 6 }
{
    let word = pack_leaf(Leaf::Page {
        frame: row.frame,
        user: row.user,
        rights: row.rights,
    });
    let given = pack_sh1(row.given);
    let from = pack_sh2(row.from);
    set_words(mem, part, v, word, given, from, steps);
}

/// Removes the row at a virtual page.
pub fn unmap<M: Frames, L: Ledger>(mem: &mut M, part: Frame, v: VPage, steps: &mut Steps<L>)
    requires { HasRow (M.memory mem.old) part v }
    ensures count { length (M.memory mem.new) ≡ length (M.memory mem.old) }
    ensures rows { InEachSpace (M.memory mem.old) part (λ x rows.
        Space (M.memory mem.new) x (put_row rows v None)) }
    ensures others { InEachNode (M.memory mem.old) part (λ x cells.
        OthersStay x (M.memory mem.old) (M.memory mem.new)) }
    ensures steps { steps.new ≤ steps.old + 6 }
{
    set_words(mem, part, v, 0, 0, 0, steps);
}

/// Opens the page of a row to the user, or hides it.
pub fn set_user<M: Frames, L: Ledger>(
    mem: &mut M,
    part: Frame,
    v: VPage,
    user: bool,
    steps: &mut Steps<L>,
)
    requires { HasRow (M.memory mem.old) part v }
    ensures count { length (M.memory mem.new) ≡ length (M.memory mem.old) }
    ensures rows { InEachRow (M.memory mem.old) part v (λ x rows r.
        Space (M.memory mem.new) x (put_row rows v (Some (record r { user = user })))) }
    ensures others { InEachNode (M.memory mem.old) part (λ x cells.
        OthersStay x (M.memory mem.old) (M.memory mem.new)) }
    ensures steps { steps.new ≤ steps.old + 3 }
{
    let page = table_for(mem, part, Level::Mmu, v, steps);
    let i = v.number() % 1024;
    let word = with_user(mem.word(page, i, steps), user);
    mem.set_word(page, i, word);
}

/// Writes to which child the page of a row is given. The vpage of `given`, unless that is `Free`, isn't 0.
pub fn set_given<M: Frames, L: Ledger>(
    mem: &mut M,
    part: Frame,
    v: VPage,
    given: Sh1,
    steps: &mut Steps<L>,
)
    requires row { HasRow (M.memory mem.old) part v }
    requires given { IsSh1 given }
    ensures count { length (M.memory mem.new) ≡ length (M.memory mem.old) }
    ensures rows { InEachRow (M.memory mem.old) part v (λ x rows r.
        Space (M.memory mem.new) x (put_row rows v (Some (record r { given = packed_sh1 given })))) }
    ensures others { InEachNode (M.memory mem.old) part (λ x cells.
        OthersStay x (M.memory mem.old) (M.memory mem.new)) }
    ensures steps { steps.new ≤ steps.old + 2 }
{
    set_level_word(mem, part, Level::Shadow1, v, pack_sh1(given), steps);
}
