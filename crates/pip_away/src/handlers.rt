//! Handlers, and where contexts are saved.
ghost use Rattle.std.specs.Prelude.{◌≡◌, ◌<◌, ◌&&◌, ◌||◌, Some};
ghost use Rattle.pip_guests.specs.Sights as tests;
ghost use Rattle.pip_model.specs.Handlers.{block_at, store_at};
ghost use Rattle.pip_model.specs.Partitions.{HasPartition, InEach};
ghost use Rattle.pip_guests.specs.Outside.{block_place, entry_place};
ghost use Rattle.pip_away.specs.Blind as defined;
ghost use Rattle.pip_away.specs.Blind.{sight_of};

use crate::blind::Blind;
use crate::places::locate;
use crate::rows::has_rows;
use pip_base::{Access, Frame, Size, Steps};
use pip_frames::Frames;
use std::sync::ledger::Ledger;

/// The address of the handler table.
const HANDLER_TABLE: u32 = 0xfffff000;

/// The last offset in a page, in bytes, at which a block of 17 words can begin.
const LAST_BLOCK: u32 = 4028;

// A word of a handler table: its page, its index there, and what it holds.
#[derive(Clone, Copy)]
struct TableWord {
    page: Frame,
    index: u32,
    word: u32,
}

// The word of a partition's handler table for a vector below 1024. None if the partition can't load it.
fn table_word<M: Frames, L: Ledger>(
    mem: &M,
    part: Frame,
    vector: u32,
    steps: &mut Steps<L>,
) -> Option<TableWord>
    requires stands { HasPartition (M.memory mem.now) part }
    requires vector { vector < 1024 }
    ensures { InEach (M.memory mem.now) part (λ t x. result ≡ defined.table_word t (entry_place t part vector)) }
{
    match locate(
        mem,
        part,
        HANDLER_TABLE + 4 * vector,
        Size::Word,
        Access::Load,
        steps,
    ) {
        Err(_) => None,
        Ok(found) => Some(TableWord {
            page: found.0,
            index: found.1,
            word: mem.word(found.0, found.1, steps),
        }),
    }
}

// Whether a block can begin at an address.
fn can_begin(address: u32) -> bool
    ensures { result ≡ defined.can_begin address }
{
    address % 4 == 0 && address % 4096 <= LAST_BLOCK
}

// Whether all of an entry that a partition reads is seen; or its class, if the partition is one of these and has the
// rows by which it is one.
fn entry_fits<M: Frames, L: Ledger>(
    mem: &M,
    blind: &Blind,
    part: Frame,
    entry: &TableWord,
    steps: &mut Steps<L>,
) -> bool
    requires { HasPartition (M.memory mem.now) part }
    ensures { InEach (M.memory mem.now) part (λ t x. result
        ≡ (sight_of blind.now).entry t part entry.now.page entry.now.index) }
{
    match blind.entry_owner(entry.page, entry.index) {
        None => !blind.is_blind(entry.page, entry.index),
        Some(owner) => blind.is_own(part) && has_rows(mem, &blind.rows, part, owner, steps),
    }
}

// Whether all of each word of a partition's block at an address is seen.
fn block_misses<M: Frames, L: Ledger>(
    mem: &M,
    blind: &Blind,
    part: Frame,
    address: u32,
    steps: &mut Steps<L>,
) -> bool
    requires { HasPartition (M.memory mem.now) part }
    ensures { InEach (M.memory mem.now) part (λ t x. result
        ≡ tests.block_passes (sight_of blind.now) (block_place t part (block_at t part (Some address)))) }
{
    if !can_begin(address) {
        return true;
    }
    match locate(mem, part, address, Size::Word, Access::Load, steps) {
        Err(_) => true,
        Ok(found) => blind.sees_block(found.0, found.1),
    }
}

// Whether each word of the place to which a partition's block at an address is saved is left out.
fn save_lands<M: Frames, L: Ledger>(
    mem: &M,
    blind: &Blind,
    part: Frame,
    address: u32,
    steps: &mut Steps<L>,
) -> bool
    requires { HasPartition (M.memory mem.now) part }
    ensures { InEach (M.memory mem.now) part (λ t x. result
        ≡ tests.block_blind (sight_of blind.now) (store_at t part (block_at t part (Some address)))) }
{
    if !can_begin(address) {
        return true;
    }
    match locate(mem, part, address, Size::Word, Access::Store, steps) {
        Err(_) => true,
        Ok(found) => blind.has_block(found.0, found.1),
    }
}

/// Whether a partition's entry for a vector is seen, or its class, and its block, unless the partition is one of these.
pub(crate) fn handler_misses<M: Frames, L: Ledger>(
    mem: &M,
    blind: &Blind,
    part: Frame,
    vector: u32,
    steps: &mut Steps<L>,
) -> bool
    requires { HasPartition (M.memory mem.now) part }
    ensures { InEach (M.memory mem.now) part (λ t x. result
        ≡ tests.handler_passes blind.now.own.items (sight_of blind.now) t part vector) }
{
    if vector >= 1024 {
        return true;
    }
    match table_word(mem, part, vector, steps) {
        None => true,
        Some(entry) => {
            if !entry_fits(mem, blind, part, &entry, steps) {
                return false;
            }
            blind.is_own(part) || block_misses(mem, blind, part, entry.word, steps)
        }
    }
}

/// Whether a partition's entry for a vector is seen, or its class, and whether it is saved in words that are left out,
/// if it is one of these.
pub(crate) fn save_misses<M: Frames, L: Ledger>(
    mem: &M,
    blind: &Blind,
    part: Frame,
    vector: u32,
    steps: &mut Steps<L>,
) -> bool
    requires stands { HasPartition (M.memory mem.now) part }
    requires vector { vector < 1024 }
    ensures { InEach (M.memory mem.now) part (λ t x. result
        ≡ tests.save_passes blind.now.own.items (sight_of blind.now) t part vector) }
{
    match table_word(mem, part, vector, steps) {
        None => true,
        Some(entry) => {
            if !entry_fits(mem, blind, part, &entry, steps) {
                return false;
            }
            !blind.is_own(part) || save_lands(mem, blind, part, entry.word, steps)
        }
    }
}
