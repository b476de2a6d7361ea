//! Translations, loads, stores and fetches that ask a cache first: docs/MODEL.md, "Translation caches".
ghost use Rattle.std.specs.Prelude.{◌≡◌, ◌≢◌, ◌+◌, ◌<◌, ◌≤◌, IfOk, IsSome, None, OnErr, length};
ghost use Rattle.pip_model.specs.Cache.{Agrees, cache_after_access, holding, filled_on_miss};
ghost use Rattle.pip_model.specs.Events.{below_of};
ghost use Rattle.pip_model.specs.Partitions.{HasPartition, InEach, IsHeld};
ghost use Rattle.pip_model.specs.Reach.{reach};
ghost use Rattle.pip_model.specs.Tree.{node, row_at, vpage};
ghost use Rattle.pip_mmu.specs.Answers.{load_answer, place_answer, reached_of, store_answer, tree_stored, word_in};
ghost use Rattle.pip_mmu.specs.Cached.{HasCached, after_access};

use crate::around::{by_translation, is_misaligned, read_at, write_at};
use crate::faults::{AccessFault, MmuFault};
use crate::translation::{mmu_leaf, through};
use pip_base::{Access, Frame, Size, Steps, VPage};
use pip_entry::Leaf;
use pip_frames::Frames;
use pip_tlb::Cache;
use std::sync::ledger::Ledger;

// What the tables give if the cache doesn't hold the page. A page that is reached fills its place.
#[inline(always)]
fn after_miss<M: Frames, L: Ledger>(
    mem: &M,
    cache: &mut Cache,
    part: Frame,
    va: u32,
    access: Access,
    steps: &mut Steps<L>,
) -> Result<Frame, MmuFault>
    requires { HasPartition (M.memory mem.now) part }
    ensures reached { InEach (M.memory mem.now) part (λ t x.
        reached_of (word_in va result) ≡ reach t part va access Size.Byte) }
    ensures cache { InEach (M.memory mem.now) part (λ t x.
        cache.new ≡ filled_on_miss cache.old part (vpage va) None (row_at (node t part).rows (vpage va))
        (reach t part va access Size.Byte)) }
    ensures agrees { InEach (M.memory mem.now) part (λ t x. Agrees t cache.old → Agrees t cache.new) }
    ensures steps { steps.new ≤ steps.old + 3 }
{
    let v = VPage::of_address(va);
    match mmu_leaf(mem, part, v, steps) {
        Leaf::Empty => Err(MmuFault::Unmapped),
        Leaf::Page {
            frame,
            user,
            rights,
        } => {
            let entry = Leaf::Page {
                frame,
                user,
                rights,
            };
            match through(entry, access) {
                Ok(page) => {
                    cache.fill(part, v, frame, rights);
                    Ok(page)
                }
                Err(fault) => Err(fault),
            }
        }
    }
}

// The page that an access of `part` reaches at address `va`, or the first fault that applies, from the cache where it
// holds the page. The alignment isn't tested.
#[inline(always)]
fn page_through<M: Frames, L: Ledger>(
    mem: &M,
    cache: &mut Cache,
    part: Frame,
    va: u32,
    access: Access,
    steps: &mut Steps<L>,
) -> Result<Frame, MmuFault>
    requires { HasPartition (M.memory mem.now) part }
    ensures reached { InEach (M.memory mem.now) part (λ t x.
        Agrees t cache.old → reached_of (word_in va result) ≡ reach t part va access Size.Byte) }
    ensures cache { InEach (M.memory mem.now) part (λ t x. cache.new ≡ cache_after_access t cache.old part va access) }
    ensures agrees { InEach (M.memory mem.now) part (λ t x. Agrees t cache.old → Agrees t cache.new) }
    ensures steps { steps.new ≤ steps.old + 3 }
    ensures hit { IsSome (holding cache.old part (vpage va)) → steps.new ≡ steps.old }
{
    match cache.lookup(part, VPage::of_address(va)) {
        Some(held) => {
            let (frame, rights) = held;
            let user = true;
            through(
                Leaf::Page {
                    frame,
                    user,
                    rights,
                },
                access,
            )
        }
        None => after_miss(mem, cache, part, va, access, steps),
    }
}

/// What [`translate`](crate::translate) gives, from the cache where it holds the page. Each entry of the cache has to
/// be the row that its partition has now (`Agrees`), and this stays so. A hit takes no step.
pub fn translate_cached<M: Frames, L: Ledger>(
    mem: &M,
    cache: &mut Cache,
    part: Frame,
    va: u32,
    access: Access,
    steps: &mut Steps<L>,
) -> Result<(Frame, u32), MmuFault>
    requires { HasPartition (M.memory mem.now) part }
    ensures reached { InEach (M.memory mem.now) part (λ t x.
        Agrees t cache.old → reached_of result ≡ reach t part va access Size.Byte) }
    ensures cache { InEach (M.memory mem.now) part (λ t x. cache.new ≡ cache_after_access t cache.old part va access) }
    ensures agrees { InEach (M.memory mem.now) part (λ t x. Agrees t cache.old → Agrees t cache.new) }
    ensures steps { steps.new ≤ steps.old + 3 }
    ensures hit { IsSome (holding cache.old part (vpage va)) → steps.new ≡ steps.old }
{
    match page_through(mem, cache, part, va, access, steps) {
        Ok(frame) => Ok((frame, va % 4096 / 4)),
        Err(fault) => Err(fault),
    }
}

// The page that an access of `part` reaches at address `va`, or the first fault that applies.
#[inline(always)]
fn locate_through<M: Frames, L: Ledger>(
    mem: &M,
    cache: &mut Cache,
    part: Frame,
    va: u32,
    size: Size,
    access: Access,
    steps: &mut Steps<L>,
) -> Result<Frame, AccessFault>
    requires { HasCached (M.memory mem.now) part cache.old }
    ensures place { InEach (M.memory mem.now) part (λ t x.
        Agrees t cache.old → word_in va result ≡ place_answer (reach t part va access size)) }
    ensures inside { IfOk result (λ frame. frame < length (M.memory mem.now)) }
    ensures cache { InEach (M.memory mem.now) part (λ t x. cache.new ≡ after_access t cache.old part va access size) }
    ensures agrees { InEach (M.memory mem.now) part (λ t x. Agrees t cache.old → Agrees t cache.new) }
    ensures steps { steps.new ≤ steps.old + 3 }
    ensures hit { IsSome (holding cache.old part (vpage va)) → steps.new ≡ steps.old }
{
    if is_misaligned(va, size) {
        return Err(AccessFault::Alignment);
    }
    by_translation(page_through(mem, cache, part, va, access, steps))
}

/// What [`load`](crate::load) gives, by what the cache holds where it holds the page. Each entry of the cache is the
/// row that its partition has now, and this stays so. An access that isn't aligned leaves the cache as it is. A hit
/// takes one step at most.
#[inline(always)]
pub fn load_through<M: Frames, L: Ledger>(
    mem: &M,
    cache: &mut Cache,
    part: Frame,
    va: u32,
    size: Size,
    access: Access,
    steps: &mut Steps<L>,
) -> Result<u32, AccessFault>
    requires stands { HasCached (M.memory mem.now) part cache.old }
    requires reads { access ≢ Access.Store }
    ensures answer { InEach (M.memory mem.now) part (λ t x.
        Agrees t cache.old → result ≡ load_answer t va size (reach t part va access size)) }
    ensures cache { InEach (M.memory mem.now) part (λ t x. cache.new ≡ after_access t cache.old part va access size) }
    ensures agrees { InEach (M.memory mem.now) part (λ t x. Agrees t cache.old → Agrees t cache.new) }
    ensures steps { steps.new ≤ steps.old + 4 }
    ensures hit { IsSome (holding cache.old part (vpage va)) → steps.new ≤ steps.old + 1 }
{
    let frame = locate_through(mem, cache, part, va, size, access, steps)?;
    Ok(read_at(mem, frame, va, size, steps))
}

/// What [`load_through`] gives for a fetch of the word at `pc`. It is faster if the last fetch came from the same page.
#[inline(always)]
pub fn fetch_through<M: Frames, L: Ledger>(
    mem: &M,
    cache: &mut Cache,
    part: Frame,
    pc: u32,
    steps: &mut Steps<L>,
) -> Result<u32, AccessFault>
    requires { HasCached (M.memory mem.now) part cache.old }
    ensures answer { InEach (M.memory mem.now) part (λ t x. Agrees t cache.old →
        result ≡ load_answer t pc Size.Word (reach t part pc Access.Fetch Size.Word)) }
    ensures cache { InEach (M.memory mem.now) part (λ t x. cache.new
        ≡ after_access t cache.old part pc Access.Fetch Size.Word) }
    ensures agrees { InEach (M.memory mem.now) part (λ t x. Agrees t cache.old → Agrees t cache.new) }
    ensures steps { steps.new ≤ steps.old + 4 }
    ensures hit { IsSome (holding cache.old part (vpage pc)) → steps.new ≤ steps.old + 1 }
{
    match cache.fetch_again(part, pc) {
        Some(page) => Ok(read_at(mem, page, pc, Size::Word, steps)),
        None => fetch_and_keep(mem, cache, part, pc, steps),
    }
}

// Fetches if the cache keeps no such page; it then keeps this one.
#[inline(always)]
fn fetch_and_keep<M: Frames, L: Ledger>(
    mem: &M,
    cache: &mut Cache,
    part: Frame,
    pc: u32,
    steps: &mut Steps<L>,
) -> Result<u32, AccessFault>
    requires { HasCached (M.memory mem.now) part cache.old }
    ensures answer { InEach (M.memory mem.now) part (λ t x. Agrees t cache.old →
        result ≡ load_answer t pc Size.Word (reach t part pc Access.Fetch Size.Word)) }
    ensures cache { InEach (M.memory mem.now) part (λ t x. cache.new
        ≡ after_access t cache.old part pc Access.Fetch Size.Word) }
    ensures agrees { InEach (M.memory mem.now) part (λ t x. Agrees t cache.old → Agrees t cache.new) }
    ensures steps { steps.new ≤ steps.old + 4 }
    ensures hit { IsSome (holding cache.old part (vpage pc)) → steps.new ≤ steps.old + 1 }
{
    let fetched = load_through(mem, cache, part, pc, Size::Word, Access::Fetch, steps);
    cache.keep(part, VPage::of_address(pc));
    fetched
}

/// Does what [`store`](crate::store) does, by what the cache holds where it holds the page. Each entry of the cache is
/// the row that its partition has now, and this stays so. An access that isn't aligned leaves the cache as it is. A hit
/// takes one step at most.
#[inline(always)]
pub fn store_through<M: Frames, L: Ledger>(
    mem: &mut M,
    cache: &mut Cache,
    part: Frame,
    va: u32,
    size: Size,
    word: u32,
    steps: &mut Steps<L>,
) -> Result<(), AccessFault>
    requires stands { HasCached (M.memory mem.old) part cache.old }
    requires fits { word < below_of size }
    ensures answer { InEach (M.memory mem.old) part (λ t x.
        Agrees t cache.old → result ≡ store_answer (reach t part va Access.Store size)) }
    ensures tree { InEach (M.memory mem.old) part (λ t x.
        Agrees t cache.old → IsHeld (tree_stored t va size word (reach t part va Access.Store size))
        (M.memory mem.new)) }
    ensures cache { InEach (M.memory mem.old) part (λ t x. cache.new
        ≡ after_access t cache.old part va Access.Store size) }
    ensures agrees { InEach (M.memory mem.old) part (λ t x.
        Agrees t cache.old → Agrees (tree_stored t va size word (reach t part va Access.Store size)) cache.new) }
    ensures count { length (M.memory mem.new) ≡ length (M.memory mem.old) }
    ensures fault { OnErr result (M.memory mem.new ≡ M.memory mem.old) }
    ensures steps { steps.new ≤ steps.old + 4 }
    ensures hit { IsSome (holding cache.old part (vpage va)) → steps.new ≤ steps.old + 1 }
{
    let frame = locate_through(mem, cache, part, va, size, Access::Store, steps)?;
    write_at(mem, frame, va, size, word, steps);
    Ok(())
}
