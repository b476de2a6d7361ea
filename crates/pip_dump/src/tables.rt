//! A partition's tables for one directory index, gone through as lent words.
ghost use Rattle.std.specs.Prelude.{◌≡◌, ℕ, ◌+◌, ◌*◌, ◌<◌, ◌≤◌, length};
ghost use Rattle.pip_model.specs.Tree.{Node, Tree};
ghost use Rattle.pip_space.specs.Nodes.{InEachSpace};
ghost use Rattle.pip_space.specs.Tables.{HasTables};
ghost use Rattle.pip_dump.specs.Tables.{AreGiven, AreLeaves, AreRowWords, IsChildIn};
ghost use Rattle.pip_dump.specs.Walk.{rows_above};

use pip_base::{Frame, Steps, VPage};
use pip_frames::Frames;
use pip_model::Level;
use pip_space::table_for;
use pip_table::first_index;
use std::sync::ledger::Ledger;

/// The words of the table that a partition has at a level for directory index `i`.
pub(crate) fn table_words<'a, M: Frames, L: Ledger>(
    mem: &'a M,
    part: Frame,
    level: Level,
    i: u32,
    steps: &mut Steps<L>,
) -> &'a [u32; 1024]
    requires tables { HasTables (M.memory mem.now) part i }
    requires index { i < 1024 }
    ensures { InEachSpace (M.memory mem.now) part (λ x rows. AreRowWords level i result.now rows) }
{
    let table = table_for(mem, part, level, VPage::new(1024 * i), steps);
    mem.frame(table, steps)
}

/// How many words of an MMU table aren't 0: that many rows are in it.
pub(crate) fn count_words(words: &[u32; 1024]) -> u32
    ensures few { result ≤ 1024 }
    ensures rows { (t : Tree) (x : Node) (i : ℕ) → AreLeaves t x i words.now →
        result + length (rows_above (1024 * i + 1024) x.rows) ≡ length (rows_above (1024 * i) x.rows) }
{
    let mut count = 0;
    for j in 0..1024 {
        if words[j] != 0 {
            count += 1;
        }
    }
    count
}

/// The first page from index `from` on that is a child's descriptor, by the words of an MMU table and of its first
/// shadow.
pub(crate) fn child_in(leaves: &[u32; 1024], given: &[u32; 1024], from: u32) -> Option<Frame>
    requires { from ≤ 1024 }
    ensures { (t : Tree) (x : Node) (i : ℕ) → AreLeaves t x i leaves.now → AreGiven t x i given.now →
        IsChildIn t x (1024 * i + from) (1024 * i + 1024) result }
{
    let mut k = from;
    while let Some(j) = first_index(given, k) {
        if given[j as usize] % 4096 == 1 {
            return Some(Frame::new(leaves[j as usize] / 4096));
        }
        k = j + 1;
    }
    None
}
