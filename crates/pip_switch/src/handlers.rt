//! Where partitions handle vectors: blocks of 17 words in their own pages.
ghost use Rattle.std.specs.Prelude.{◌≡◌, ◌≢◌, ◌+◌, ◌<◌, ◌≤◌, IfSome, None};
ghost use Rattle.pip_model.specs.Handlers.{handler, save_place};
ghost use Rattle.pip_model.specs.Partitions.{HasPartition, InEach};
ghost use Rattle.pip_model.specs.Reach.{reach};
ghost use Rattle.pip_switch.specs.Blocks.{CanBegin, HasRoom, IsEntry, IsTable, place_of};

use crate::blocks::{HandlerBlock, read_context};
use pip_base::{Access, Ctx, Frame, Size, Steps};
use pip_frames::Frames;
use pip_mmu::translate;
use std::sync::ledger::Ledger;

/// The address of the handler table.
const TABLE: u32 = 0xfffff000;

/// The last offset in a page, in bytes, at which a block of 17 words can begin.
const LAST: u32 = 4028;

// An entry of a handler table: the page in which the table is, and the address of a block.
#[derive(Clone, Copy)]
struct HandlerEntry {
    page: Frame,
    address: u32,
}

// The entry of a partition's handler table for a vector below 256, where an access reaches the table and a block can
// begin at the address.
fn entry<M: Frames, L: Ledger>(
    mem: &M,
    part: Frame,
    vector: u32,
    access: Access,
    steps: &mut Steps<L>,
) -> Option<HandlerEntry>
    requires stands { HasPartition (M.memory mem.now) part }
    requires vector { vector < 256 }
    requires words { access ≢ Access.Fetch }
    ensures entry { InEach (M.memory mem.now) part (λ t x. IsEntry t part vector access result) }
    ensures begins { IfSome result (λ y. CanBegin y.address) }
    ensures steps { steps.new ≤ steps.old + 4 }
{
    match translate(mem, part, TABLE + 4 * vector, access, steps) {
        Err(_) => None,
        Ok(found) => {
            let address = mem.word(found.0, found.1, steps);
            if address % 4 != 0 {
                return None;
            }
            if address % 4096 > LAST {
                return None;
            }
            Some(HandlerEntry {
                page: found.0,
                address,
            })
        }
    }
}

// The place of a block by its address. None if the access faults.
fn place<M: Frames, L: Ledger>(
    mem: &M,
    part: Frame,
    at: u32,
    access: Access,
    steps: &mut Steps<L>,
) -> Option<HandlerBlock>
    requires stands { HasPartition (M.memory mem.now) part }
    requires begins { CanBegin at }
    ensures place { InEach (M.memory mem.now) part (λ t x. result ≡ place_of (reach t part at access Size.Word)) }
    ensures room { IfSome result (HasRoom (M.memory mem.now)) }
    ensures steps { steps.new ≤ steps.old + 3 }
{
    match translate(mem, part, at, access, steps) {
        Err(_) => None,
        Ok(found) => Some(HandlerBlock {
            frame: found.0,
            index: found.1,
        }),
    }
}

// The place of a block by its address, for a partition that reaches its handler table in `page`. A block in that page
// needs no further walk.
fn place_beside<M: Frames, L: Ledger>(
    mem: &M,
    part: Frame,
    page: Frame,
    at: u32,
    access: Access,
    steps: &mut Steps<L>,
) -> Option<HandlerBlock>
    requires stands { HasPartition (M.memory mem.now) part }
    requires table { InEach (M.memory mem.now) part (λ t x. IsTable t part access page) }
    requires begins { CanBegin at }
    ensures place { InEach (M.memory mem.now) part (λ t x. result ≡ place_of (reach t part at access Size.Word)) }
    ensures room { IfSome result (HasRoom (M.memory mem.now)) }
    ensures steps { steps.new ≤ steps.old + 3 }
{
    if at >= TABLE {
        let index = at % 4096 / 4;
        return Some(HandlerBlock { frame: page, index });
    }
    place(mem, part, at, access, steps)
}

/// The context with which a partition handles a vector below 256. None where it doesn't.
#[inline(always)]
pub(crate) fn find_handler<M: Frames, L: Ledger>(
    mem: &M,
    part: Frame,
    vector: u32,
    steps: &mut Steps<L>,
) -> Option<Ctx>
    requires stands { HasPartition (M.memory mem.now) part }
    requires vector { vector < 256 }
    ensures handler { InEach (M.memory mem.now) part (λ t x. result ≡ handler t part vector) }
    ensures steps { steps.new ≤ steps.old + 39 }
    ensures none { result ≡ None → steps.new ≤ steps.old + 7 }
{
    match entry(mem, part, vector, Access::Load, steps) {
        None => None,
        Some(table) => {
            match place_beside(mem, part, table.page, table.address, Access::Load, steps) {
                None => None,
                Some(block) => Some(read_context(mem, block, steps)),
            }
        }
    }
}

/// Where a partition's block for a vector below 256 is saved to. None if it can't be saved.
pub(crate) fn find_place<M: Frames, L: Ledger>(
    mem: &M,
    part: Frame,
    vector: u32,
    steps: &mut Steps<L>,
) -> Option<HandlerBlock>
    requires stands { HasPartition (M.memory mem.now) part }
    requires vector { vector < 256 }
    ensures place { InEach (M.memory mem.now) part (λ t x. result ≡ place_of (save_place t part vector)) }
    ensures room { IfSome result (HasRoom (M.memory mem.now)) }
    ensures steps { steps.new ≤ steps.old + 11 }
{
    match entry(mem, part, vector, Access::Store, steps) {
        Some(table) => { place_beside(mem, part, table.page, table.address, Access::Store, steps) }
        None => find_by_load(mem, part, vector, steps),
    }
}

// Where a block is saved to if the page of the handler table can't be stored to.
#[inline(never)]
fn find_by_load<M: Frames, L: Ledger>(
    mem: &M,
    part: Frame,
    vector: u32,
    steps: &mut Steps<L>,
) -> Option<HandlerBlock>
    requires stands { HasPartition (M.memory mem.now) part }
    requires vector { vector < 256 }
    ensures place { InEach (M.memory mem.now) part (λ t x. result ≡ place_of (save_place t part vector)) }
    ensures room { IfSome result (HasRoom (M.memory mem.now)) }
    ensures steps { steps.new ≤ steps.old + 7 }
{
    match entry(mem, part, vector, Access::Load, steps) {
        None => None,
        Some(found) => place(mem, part, found.address, Access::Store, steps),
    }
}
