//! The pages of a list, as a stack.
ghost use Rattle.std.specs.Prelude.{◌≡◌, ℕ, ◌<◌, ◌≤◌, ◌+◌, [], ◌∷◌, ◌++◌, List, length};
ghost use Rattle.pip_base.specs.declared.types.Pair.{Pair};
ghost use Rattle.pip_base.specs.Memory.{put_words};
ghost use Rattle.pip_model.specs.Tree.{Table, lists};
ghost use Rattle.pip_config.specs.Lists.{ListIn, ListStays, PagesIn, HasPage, HasPages, IsFresh, list_frame};

use pip_base::{Frame, Pair, Steps};
use pip_entry::list_page::{NEXT_FRAME, NEXT_VA};
use pip_frames::Frames;
use std::sync::ledger::Ledger;

/// The frame of list page `k`, counted from 0, by the links of the pages before it.
pub(crate) fn page_at<M: Frames, L: Ledger>(
    mem: &M,
    first: Frame,
    k: u32,
    steps: &mut Steps<L>,
) -> Frame
    requires { HasPage (M.memory mem.now) first k }
    ensures inside { result < length (M.memory mem.now) }
    ensures frame { (more : List Pair) (slot : ℕ → Table) → PagesIn (M.memory mem.now) first more slot →
        k ≤ length more → result ≡ list_frame first more k }
    ensures steps { steps.new ≡ steps.old + k }
{
    let mut page = first;
    for _ in 0..k {
        page = Frame::new(mem.word(page, NEXT_FRAME, steps));
    }
    page
}

// Writes which page comes after this one.
fn set_link<M: Frames>(mem: &mut M, page: Frame, next: Pair)
    requires { page < length (M.memory mem.old) }
    ensures words { M.memory mem.new ≡ put_words (M.memory mem.old) page 0 (next.frame ∷ next.va ∷ []) }
    ensures count { length (M.memory mem.new) ≡ length (M.memory mem.old) }
{
    mem.set_word(page, NEXT_FRAME, next.frame.number());
    mem.set_word(page, NEXT_VA, next.va);
}

/// Adds the page `p` at the end of a list of `pages` pages. Its frame isn't in the list, and its words are 0. No frame
/// changes but the page before it.
pub fn append_page<M: Frames, L: Ledger>(
    mem: &mut M,
    first: Frame,
    pages: u32,
    p: Pair,
    steps: &mut Steps<L>,
)
    requires { HasPages (M.memory mem.old) first pages }
    ensures count { length (M.memory mem.new) ≡ length (M.memory mem.old) }
    ensures list { (more : List Pair) (ts : List Table) → ListIn (M.memory mem.old) first more ts →
        length more + 1 ≡ pages → IsFresh (M.memory mem.old) first more p.frame →
        ListIn (M.memory mem.new) first (more ++ p ∷ []) ts
        × ListStays first more (M.memory mem.old) (M.memory mem.new) }
    ensures steps { steps.new ≤ steps.old + pages }
{
    let last = page_at(mem, first, pages - 1, steps);
    set_link(mem, last, p);
}

/// Takes the last page off a list of `pages` pages, at least 2. No slot is in it. No frame changes but the page before
/// it, so the page that goes keeps its words.
pub fn pop_page<M: Frames, L: Ledger>(
    mem: &mut M,
    first: Frame,
    pages: u32,
    steps: &mut Steps<L>,
) -> Pair
    requires list { HasPages (M.memory mem.old) first pages }
    requires two { 2 ≤ pages }
    ensures count { length (M.memory mem.new) ≡ length (M.memory mem.old) }
    ensures last { (more : List Pair) (p : Pair) (ts : List Table) →
        ListIn (M.memory mem.old) first (more ++ p ∷ []) ts → length more + 2 ≡ pages → result ≡ p }
    ensures list { (more : List Pair) (p : Pair) (ts : List Table) →
        ListIn (M.memory mem.old) first (more ++ p ∷ []) ts → length more + 2 ≡ pages →
        lists (length ts) ≤ length more + 1 → ListIn (M.memory mem.new) first more ts
        × ListStays first more (M.memory mem.old) (M.memory mem.new) }
    ensures steps { steps.new ≤ steps.old + pages }
{
    let page = page_at(mem, first, pages - 2, steps);
    let frame = Frame::new(mem.word(page, NEXT_FRAME, steps));
    let va = mem.word(page, NEXT_VA, steps);
    let none = Pair {
        va: 0,
        frame: Frame::new(0),
    };
    set_link(mem, page, none);
    Pair { va, frame }
}
