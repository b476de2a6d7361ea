//! The slots of a list.
ghost use Rattle.std.specs.Prelude.{◌≡◌, ℕ, ◌<◌, ◌≤◌, ◌+◌, ◌-◌, ◌*◌, ◌/◌, ◌^◌, ◌==◌, [], ◌∷◌, ◌++◌, List, length};
ghost use Rattle.std.specs.Prelude.{position, slice_set};
ghost use Rattle.pip_base.specs.declared.types.Pair.{Pair};
ghost use Rattle.pip_base.specs.Memory.{put_words, word_at};
ghost use Rattle.pip_model.specs.Tree.{Table, lists, table_pairs};
ghost use Rattle.pip_model.specs.NodeWords.{no_table, slots};
ghost use Rattle.pip_config.specs.Lists.{ListIn, ListStays, PagesIn, HasPage, HasList, HasRoomInList, HasSmallFrames};
ghost use Rattle.pip_config.specs.Lists.{pair_words, put_slot};

use crate::pages::page_at;
use crate::pairs::{read_pair, write_pair};
use pip_base::{Frame, Pair, Steps};
use pip_entry::list_page::{FIRST_SLOT, NEXT_FRAME, SLOT_WORDS, SLOTS};
use pip_frames::Frames;
use std::sync::ledger::Ledger;

/// A slot: the page of an MMU table, that of its first shadow and that of its second shadow, each with its address in
/// the parent.
pub type Slot = [Pair; 3];

// Writes the six words of a slot.
fn write_words<M: Frames>(mem: &mut M, page: Frame, at: u32, s: &Slot)
    requires frame { page < length (M.memory mem.old) }
    requires index { at ≤ 1018 }
    ensures words { M.memory mem.new ≡ put_words (M.memory mem.old) page at (pair_words s.now) }
    ensures small { (t : Table) → table_pairs t ≡ s.now → HasSmallFrames t }
    ensures count { length (M.memory mem.new) ≡ length (M.memory mem.old) }
{
    let [table, shadow1, shadow2] = *s;
    write_pair(mem, page, at, table);
    write_pair(mem, page, at + 2, shadow1);
    write_pair(mem, page, at + 4, shadow2);
}

// Writes slot `k` of the list.
fn write_slot<M: Frames, L: Ledger>(
    mem: &mut M,
    first: Frame,
    k: u32,
    s: &Slot,
    steps: &mut Steps<L>,
)
    requires { HasPage (M.memory mem.old) first (k / SLOTS) }
    ensures count { length (M.memory mem.new) ≡ length (M.memory mem.old) }
    ensures small { (t : Table) → table_pairs t ≡ s.now → HasSmallFrames t }
    ensures pages { (more : List Pair) (slot : ℕ → Table) (t : Table) →
        PagesIn (M.memory mem.old) first more slot → k / SLOTS ≤ length more → table_pairs t ≡ s.now →
        PagesIn (M.memory mem.new) first more (put_slot slot k t)
        × ListStays first more (M.memory mem.old) (M.memory mem.new) }
    ensures steps { steps.new ≡ steps.old + k / SLOTS }
{
    let page = page_at(mem, first, k / SLOTS, steps);
    write_words(mem, page, FIRST_SLOT + SLOT_WORDS * (k % SLOTS), s);
}

/// Slot `k` of a list of `m` slots, `k` below `m`.
pub fn slot_at<M: Frames, L: Ledger>(
    mem: &M,
    first: Frame,
    m: u32,
    k: u32,
    steps: &mut Steps<L>,
) -> Slot
    requires list { HasList (M.memory mem.now) first m }
    requires place { k < m }
    ensures slot { (more : List Pair) (ts : List Table) → ListIn (M.memory mem.now) first more ts →
        length ts ≡ m → result ≡ table_pairs (slots ts k) }
    ensures steps { steps.new ≡ steps.old + k / SLOTS + 6 }
{
    let page = page_at(mem, first, k / SLOTS, steps);
    let at = FIRST_SLOT + SLOT_WORDS * (k % SLOTS);
    let table = read_pair(mem, page, at, steps);
    let shadow1 = read_pair(mem, page, at + 2, steps);
    let shadow2 = read_pair(mem, page, at + 4, steps);
    [table, shadow1, shadow2]
}

// The page of slot `k`, from the page of the slot before it, or from the first for slot 0.
fn page_of_slot<M: Frames, L: Ledger>(mem: &M, page: Frame, k: u32, steps: &mut Steps<L>) -> Frame
    requires frame { page < length (M.memory mem.now) }
    requires link { word_at (M.memory mem.now) page NEXT_FRAME < 2 ^ 20 }
    ensures same { (k - 1) / SLOTS ≡ k / SLOTS → result ≡ page }
    ensures next { (k - 1) / SLOTS < k / SLOTS → result ≡ word_at (M.memory mem.now) page NEXT_FRAME }
    ensures steps { steps.new + (k - 1) / SLOTS ≡ steps.old + k / SLOTS }
{
    if k > 0 && k % SLOTS == 0 {
        Frame::new(mem.word(page, NEXT_FRAME, steps))
    } else {
        page
    }
}

/// The least place of a slot whose MMU table is in the frame `table`. None exactly if there is no such slot.
pub fn find<M: Frames, L: Ledger>(
    mem: &M,
    first: Frame,
    m: u32,
    table: Frame,
    steps: &mut Steps<L>,
) -> Option<u32>
    requires { HasList (M.memory mem.now) first m }
    ensures place { (more : List Pair) (ts : List Table) → ListIn (M.memory mem.now) first more ts →
        length ts ≡ m → result ≡ position (λ (t : Table). t.mmu.frame == table) ts }
    ensures steps { steps.new ≤ steps.old + m + m / SLOTS }
{
    let mut page = first;
    for k in 0..m {
        page = page_of_slot(mem, page, k, steps);
        if mem.word(page, FIRST_SLOT + SLOT_WORDS * (k % SLOTS) + 1, steps) == table.number() {
            return Some(k);
        }
    }
    None
}

/// Adds a slot at the end of a list of `m` slots. The pages have room for one more. No frame changes but pages of the
/// list.
pub fn push_slot<M: Frames, L: Ledger>(
    mem: &mut M,
    first: Frame,
    m: u32,
    s: &Slot,
    steps: &mut Steps<L>,
)
    requires { HasRoomInList (M.memory mem.old) first m }
    ensures count { length (M.memory mem.new) ≡ length (M.memory mem.old) }
    ensures list { (more : List Pair) (ts : List Table) (t : Table) →
        ListIn (M.memory mem.old) first more ts → length ts ≡ m → lists (m + 1) ≤ length more + 1 →
        table_pairs t ≡ s.now → ListIn (M.memory mem.new) first more (ts ++ t ∷ [])
        × ListStays first more (M.memory mem.old) (M.memory mem.new) }
    ensures steps { steps.new ≡ steps.old + m / SLOTS }
{
    write_slot(mem, first, m, s, steps);
}

// A slot of zeros.
fn no_slot() -> Slot
    ensures { result ≡ table_pairs no_table }
{
    let none = Pair {
        va: 0,
        frame: Frame::new(0),
    };
    [none; 3]
}

/// Takes slot `k` out of a list of `m` slots, `k` below `m`: the last slot moves to its place, and the last place is
/// zeroed. No frame changes but pages of the list.
pub fn swap_remove<M: Frames, L: Ledger>(
    mem: &mut M,
    first: Frame,
    m: u32,
    k: u32,
    steps: &mut Steps<L>,
)
    requires list { HasList (M.memory mem.old) first m }
    requires place { k < m }
    ensures count { length (M.memory mem.new) ≡ length (M.memory mem.old) }
    ensures list { (more : List Pair) (ts : List Table) (t : Table) →
        ListIn (M.memory mem.old) first more (ts ++ t ∷ []) → length ts + 1 ≡ m →
        ListIn (M.memory mem.new) first more (slice_set ts k t)
        × ListStays first more (M.memory mem.old) (M.memory mem.new) }
    ensures steps { steps.new ≤ steps.old + 3 * (m / SLOTS) + 6 }
{
    let last = slot_at(mem, first, m, m - 1, steps);
    write_slot(mem, first, k, &last, steps);
    write_slot(mem, first, m - 1, &no_slot(), steps);
}
