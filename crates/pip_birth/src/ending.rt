//! A child that ends with all below it. The child has every page that one of them holds, so the caller's first shadow
//! names the child at each; and the page is configuration of one of them exactly if it is hidden in the caller.
ghost use Rattle.std.specs.Prelude.{◌≡◌, ◌≢◌, ◌↔◌, ◌+◌, ◌*◌, ◌<◌, ◌≤◌, true, length};
ghost use Rattle.pip_model.specs.NodeIn.{HasNode, HasTableFor};
ghost use Rattle.pip_model.specs.Tree.{base_pairs};
ghost use Rattle.pip_space.specs.Nodes.{InEachNode};
ghost use Rattle.pip_birth.specs.Ending.{ClearsPages, CountsCleared, CountsWalked, EndsChild, EndsPage, EndsEachChild};
ghost use Rattle.pip_birth.specs.Ending.{HasChild, HasConfiguration};
ghost use Rattle.pip_birth.specs.Ending.{EndsChildIn, EndsPageIn, HasEnding};
ghost use Rattle.pip_birth.specs.Freeing.{AreFreedIn, AreFreedTo, IsHiddenLeaf};
ghost use Rattle.pip_kern.specs.Taking.{CanTakePages, TakesPagesIn};

use crate::newborn::zero_pages;
use pip_base::{Frame, Pair, Steps, VPage};
use pip_config::read_pair;
use pip_entry::descriptor::{LIST_VA, MMU_VA, SELF_VA, SHADOW1_VA, SHADOW2_VA, TABLES};
use pip_frames::Frames;
use pip_kern::{take_page, take_pages};
use pip_model::Level;
use pip_space::{next_tables, table_for};
use pip_table::first_index;
use std::sync::ledger::Ledger;

// ---- a child that has tables

// Whether a word of an MMU table says that the page is hidden.
fn is_hidden(leaf: u32) -> bool
    ensures { (result ≡ true) ↔ IsHiddenLeaf leaf }
{
    leaf / 2 % 2 == 0
}

// From index `k` on, words of a first shadow that name the child born at `born` become 0, up to the first of a hidden
// page, whose index is answered. None if there is none. `leaves` are the words of the MMU's table.
fn free_open(leaves: &[u32; 1024], given: &mut [u32; 1024], born: VPage, k: u32) -> Option<u32>
    requires index { k ≤ 1024 }
    requires place { born ≢ 0 }
    ensures { AreFreedTo leaves.now born k given.old result given.new }
{
    let mut from = k;
    while let Some(j) = first_index(given, from) {
        if given[j as usize] / 4096 == born.number() {
            if is_hidden(leaves[j as usize]) {
                return Some(j);
            }
            given[j as usize] = 0;
        }
        from = j + 1;
    }
    None
}

// Does what `free_open` does in the frames of the memory.
#[tactic(auto, unfolding(pip_base::specs::Memory::frame_at))]
fn free_between<M: Frames, L: Ledger>(
    mem: &mut M,
    leaves: Frame,
    shadow: Frame,
    born: VPage,
    k: u32,
    steps: &mut Steps<L>,
) -> Option<u32>
    requires leaves { leaves < length (M.memory mem.old) }
    requires shadow { shadow < length (M.memory mem.old) }
    requires apart { leaves ≢ shadow }
    requires index { k ≤ 1024 }
    requires place { born ≢ 0 }
    ensures count { length (M.memory mem.new) ≡ length (M.memory mem.old) }
    ensures freed { AreFreedIn (M.memory mem.old) leaves shadow born k result (M.memory mem.new) }
    ensures steps { steps.new ≡ steps.old + 64 }
{
    let (leaves, given) = mem.pair(leaves, shadow, steps);
    free_open(leaves, given, born, k)
}

// Takes a hidden page of the child back, and zeroes it. `leaves` is the MMU's table in which the caller has it.
fn clear_page<M: Frames, L: Ledger>(
    mem: &mut M,
    caller: Frame,
    leaves: Frame,
    v: VPage,
    steps: &mut Steps<L>,
)
    requires { HasConfiguration (M.memory mem.old) caller leaves v }
    ensures count { length (M.memory mem.new) ≡ length (M.memory mem.old) }
    ensures ended { EndsPage caller leaves v (M.memory mem.old) (M.memory mem.new) }
    ensures steps { EndsPageIn caller leaves v (M.memory mem.old) steps.old steps.new }
{
    let page = mem.word(leaves, v.number() % 1024, steps) / 4096;
    take_page(mem, caller, v, steps);
    mem.zero(Frame::new(page));
}

// Takes all pages of a child back that the caller has in its tables of directory index `i`, below 1024. It has such
// tables.
fn take_table<M: Frames, L: Ledger>(
    mem: &mut M,
    caller: Frame,
    born: VPage,
    i: u32,
    steps: &mut Steps<L>,
)
    requires index { i < 1024 }
    requires ending { HasEnding (M.memory mem.old) caller born (1024 * i) }
    requires tables { HasTableFor (M.memory mem.old) caller (1024 * i) }
    ensures count { length (M.memory mem.new) ≡ length (M.memory mem.old) }
    ensures ended { EndsEachChild caller born (1024 * i) (1024 * i + 1024) (M.memory mem.old) (M.memory mem.new) }
    ensures steps { CountsCleared caller born (1024 * i) (1024 * i + 1024) (M.memory mem.old)
        (steps.old + 68) steps.new }
{
    let first = VPage::new(1024 * i);
    let leaves = table_for(mem, caller, Level::Mmu, first, steps);
    let shadow = table_for(mem, caller, Level::Shadow1, first, steps);
    let mut k = 0;
    while let Some(j) = free_between(mem, leaves, shadow, born, k, steps) {
        clear_page(mem, caller, leaves, VPage::new(1024 * i + j), steps);
        k = j + 1;
    }
}

// Takes all pages of a child back.
fn take_tables<M: Frames, L: Ledger>(mem: &mut M, caller: Frame, born: VPage, steps: &mut Steps<L>)
    requires { HasEnding (M.memory mem.old) caller born 0 }
    ensures count { length (M.memory mem.new) ≡ length (M.memory mem.old) }
    ensures ended { EndsEachChild caller born 0 (1024 * 1024) (M.memory mem.old) (M.memory mem.new) }
    ensures steps { CountsWalked caller born 1024 (M.memory mem.old) (steps.old + 34) steps.new }
{
    let mut from = 0;
    while let Some(i) = next_tables(mem, caller, from, steps) {
        take_table(mem, caller, born, i, steps);
        from = i + 1;
    }
}

// ---- a child that has none

// The five pages of a partition's base.
fn base_of<M: Frames, L: Ledger>(mem: &M, part: Frame, steps: &mut Steps<L>) -> [Pair; 5]
    requires { HasNode (M.memory mem.now) part }
    ensures base { InEachNode (M.memory mem.now) part (λ x cells. result ≡ base_pairs x.base) }
    ensures steps { steps.new ≡ steps.old + 10 }
{
    [
        read_pair(mem, part, SELF_VA, steps),
        read_pair(mem, part, MMU_VA, steps),
        read_pair(mem, part, SHADOW1_VA, steps),
        read_pair(mem, part, SHADOW2_VA, steps),
        read_pair(mem, part, LIST_VA, steps),
    ]
}

// Takes pages back from a child, and zeroes them.
fn clear_pages<M: Frames, L: Ledger>(
    mem: &mut M,
    caller: Frame,
    pages: &[Pair],
    steps: &mut Steps<L>,
)
    requires { CanTakePages (M.memory mem.old) caller pages.now }
    ensures count { length (M.memory mem.new) ≡ length (M.memory mem.old) }
    ensures cleared { ClearsPages caller pages.now (M.memory mem.old) (M.memory mem.new) }
    ensures steps { TakesPagesIn caller pages.now (length pages.now) (M.memory mem.old) steps.old steps.new }
{
    take_pages(mem, caller, pages, steps);
    zero_pages(mem, pages);
}

// ---- either

/// Ends a child of the caller with all below it: their pages come back to the caller, and those of configuration are
/// zeroed. The caller has the child's descriptor at the virtual page `born`. A child without tables has five pages and
/// no children.
pub(crate) fn end_child<M: Frames, L: Ledger>(
    mem: &mut M,
    caller: Frame,
    child: Frame,
    born: VPage,
    steps: &mut Steps<L>,
)
    requires { HasChild (M.memory mem.old) caller child born }
    ensures count { length (M.memory mem.new) ≡ length (M.memory mem.old) }
    ensures tree { EndsChild caller child born (M.memory mem.old) (M.memory mem.new) }
    ensures steps { EndsChildIn caller child born (M.memory mem.old) steps.old steps.new }
{
    if mem.word(child, TABLES, steps) == 0 {
        let base = base_of(mem, child, steps);
        clear_pages(mem, caller, &base, steps);
    } else {
        take_tables(mem, caller, born, steps);
    }
}
