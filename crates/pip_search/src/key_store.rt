//! The keys of visits, in blocks that are kept once.
ghost use Rattle.std.specs.Prelude.{◌≡◌, ◌≢◌, ◌<◌, ◌++◌, [], ◌∷◌, false, IfOk, IsTrue, MatchOption, Some, length};
ghost use Rattle.std.specs.Prelude.{slice_get, List, ℕ};
ghost use Rattle.pip_search.specs.Collapsing.{AddsNumber, AreCollapsed, IsByBlocks, IsEntryOf, IsExtended};
ghost use Rattle.pip_search.specs.Collapsing.{IsKeyByBlocks, blocks_of, keys_in, key_of_words};
ghost use Rattle.pip_search.specs.Naming.{AreNamed};
ghost use Rattle.pip_search.specs.Packing.{unpacked_key};

use crate::blocks::{BLOCK_BYTES, BlockStore, filled};
use crate::byte_lists::ByteLists;
use crate::names::{Names, is_same};
use crate::packing::{joined, push_word};
use std::alloc::{AllocError, Global};

/// What a block costs beside its bytes: its hash and its cells.
const COST: usize = 16;

/// How many bytes more than whole keys there may be, beside one for 32.
const SLACK: usize = 4096;

/// Keys as bytes, numbered from 0. A key is cut into blocks, the last one filled up, and each block is kept once. Where
/// blocks would take more memory than whole keys, a key of new blocks is kept whole.
#[derive(Drop)]
pub struct KeyStore {
    // Per key, packed: one more than how many bytes it has, and the numbers of its blocks. Of a whole key, 0 and its
    // bytes.
    entries: ByteLists,
    blocks: BlockStore,
    // How many bytes all keys have.
    whole: usize,
    // The entry that is made.
    entry: Vec<u8>,
}

// The word with which packed bytes begin, and the bytes after it.
#[inline(always)]
fn next_word(bytes: &[u8]) -> Option<(u32, &[u8])>
    ensures word { MatchOption result (unpacked_key bytes.now ≡ []) (λ r. unpacked_key bytes.now
        ≡ r.0 ∷ unpacked_key r.1.now) }
    ensures less { MatchOption result (Unit {0}) (λ r. length r.1.now < length bytes.now) }
{
    let mut word = 0;
    let mut rest = bytes;
    while let Some((byte, more)) = rest.split_first() {
        word = joined(word, *byte);
        rest = more;
        if *byte < 128 {
            return Some((word, rest));
        }
    }
    None
}

// The key of an entry that has it whole.
#[inline(always)]
fn whole_of(entry: &[u8]) -> Option<&[u8]>
    ensures { MatchOption result ((bytes : List ℕ) → entry.now ≢ 0 ∷ bytes) (λ key. entry.now ≡ 0 ∷ key.now) }
{
    if let Some((first, rest)) = entry.split_first() {
        if *first == 0 {
            return Some(rest);
        }
    }
    None
}

// Whether two blocks are the same.
#[inline(always)]
fn is_block(a: &[u8; BLOCK_BYTES], b: &[u8; BLOCK_BYTES]) -> bool
    ensures same { IsTrue result → a.now ≡ b.now }
    ensures other { result ≡ false → a.now ≢ b.now }
{
    a == b
}

impl KeyStore {
    /// No keys. Hashes of their blocks begin with a seed. The only error is that memory is out.
    pub(crate) fn new(alloc: Global, seed: u64) -> Result<KeyStore, AllocError>
        ensures collapsed { IfOk result AreCollapsed }
        ensures none { IfOk result (λ x. keys_in x ≡ []) }
    {
        Ok(KeyStore {
            entries: ByteLists::new(alloc),
            blocks: BlockStore::new(alloc, seed)?,
            whole: 0,
            entry: Vec::new(alloc),
        })
    }

    // Whether there is room for the blocks of a key, even if all are new: with them, the store takes hardly more bytes
    // than whole keys would.
    fn has_room(&self, key: usize) -> bool {
        let blocks = self.blocks.len().wrapping_add(key / BLOCK_BYTES + 1);
        let all = blocks
            .wrapping_mul(BLOCK_BYTES + COST)
            .wrapping_add(self.entries.size());
        all <= self.whole.wrapping_add(self.whole / 32).wrapping_add(SLACK)
    }

    // Adds the number of a block to the entry. False if it has none.
    fn add_number(
        &mut self,
        alloc: Global,
        block: &[u8; BLOCK_BYTES],
        room: bool,
    ) -> Result<bool, AllocError>
        requires named { AreNamed (blocks_of self.old.blocks) self.old.blocks.table }
        ensures named { IfOk result (λ _. AreNamed (blocks_of self.new.blocks) self.new.blocks.table) }
        ensures extended { IfOk result (λ _. IsExtended (blocks_of self.old.blocks) (blocks_of self.new.blocks)) }
        ensures entries { self.new.entries ≡ self.old.entries }
        ensures added { IfOk result (λ r. IsTrue r → AddsNumber (blocks_of self.new.blocks) block.now
            self.old.entry.items self.new.entry.items) }
    {
        match self.blocks.number(alloc, block, room)? {
            Some(number) => {
                push_word(&mut self.entry, number)?;
                Ok(true)
            }
            None => Ok(false),
        }
    }

    // Makes the entry of a key by its blocks. False if one of them has no number.
    fn make_by_blocks(&mut self, alloc: Global, key: &[u8], room: bool) -> Result<bool, AllocError>
        requires named { AreNamed (blocks_of self.old.blocks) self.old.blocks.table }
        ensures named { IfOk result (λ _. AreNamed (blocks_of self.new.blocks) self.new.blocks.table) }
        ensures extended { IfOk result (λ _. IsExtended (blocks_of self.old.blocks) (blocks_of self.new.blocks)) }
        ensures entries { self.new.entries ≡ self.old.entries }
        ensures made { IfOk result (λ r. IsTrue r → IsKeyByBlocks (blocks_of self.new.blocks) key.now
            self.new.entry.items) }
    {
        self.entry.clear();
        if key.len() >= u32::MAX as usize {
            return Ok(false);
        }
        push_word(&mut self.entry, key.len() as u32 + 1)?;
        let mut rest = key;
        while let Some((block, more)) = rest.split_first_chunk::<BLOCK_BYTES>() {
            if !self.add_number(alloc, block, room)? {
                return Ok(false);
            }
            rest = more;
        }
        if rest.is_empty() {
            return Ok(true);
        }
        let added = self.add_number(alloc, &filled(rest), room)?;
        Ok(added)
    }

    // Makes the entry of a key.
    fn make_entry(&mut self, alloc: Global, key: &[u8], room: bool) -> Result<(), AllocError>
        requires named { AreNamed (blocks_of self.old.blocks) self.old.blocks.table }
        ensures named { IfOk result (λ _. AreNamed (blocks_of self.new.blocks) self.new.blocks.table) }
        ensures extended { IfOk result (λ _. IsExtended (blocks_of self.old.blocks) (blocks_of self.new.blocks)) }
        ensures entries { self.new.entries ≡ self.old.entries }
        ensures made { IfOk result (λ _. IsEntryOf (blocks_of self.new.blocks) key.now self.new.entry.items) }
    {
        if self.make_by_blocks(alloc, key, room)? {
            return Ok(());
        }
        self.entry.clear();
        self.entry.push(0)?;
        self.entry.extend_from_slice(key)?;
        Ok(())
    }

    /// Adds a key. The only error is that memory is out: there is room for 2^31 blocks.
    pub(crate) fn push(&mut self, alloc: Global, key: &[u8]) -> Result<(), AllocError>
        requires collapsed { AreCollapsed self.old }
        ensures collapsed { IfOk result (λ _. AreCollapsed self.new) }
        ensures added { IfOk result (λ _. keys_in self.new ≡ keys_in self.old ++ key.now ∷ []) }
    {
        self.whole = self.whole.wrapping_add(key.len());
        let room = self.has_room(key.len());
        self.make_entry(alloc, key, room)?;
        self.entries.push(&self.entry)?;
        Ok(())
    }

    // Makes `key` the bytes of an entry by blocks.
    fn join(&self, entry: &[u8], key: &mut Vec<u8>) -> Result<(), AllocError>
        requires numbers { IsByBlocks (blocks_of self.now.blocks) entry.now }
        requires none { key.old.items ≡ [] }
        ensures { IfOk result (λ _. key.new.items ≡ key_of_words (blocks_of self.now.blocks) (unpacked_key entry.now)) }
    {
        let Some((count, more)) = next_word(entry) else {
            return Ok(());
        };
        let mut rest = more;
        while let Some((number, more)) = next_word(rest) {
            key.extend_from_slice(self.blocks.block(number))?;
            rest = more;
        }
        key.truncate(count.saturating_sub(1) as usize);
        Ok(())
    }

    /// Makes `key` the bytes of the key at a place. The only error is that memory is out.
    pub(crate) fn read(&self, place: usize, key: &mut Vec<u8>) -> Result<(), AllocError>
        requires collapsed { AreCollapsed self.now }
        requires place { place < length (keys_in self.now) }
        ensures { IfOk result (λ _. slice_get (keys_in self.now) place ≡ Some key.new.items) }
    {
        key.clear();
        let entry = self.entries.list_at(place);
        if let Some(whole) = whole_of(entry) {
            key.extend_from_slice(whole)?;
            return Ok(());
        }
        self.join(entry, key)?;
        Ok(())
    }

    // Whether an entry by blocks is of this key.
    #[inline(always)]
    fn is_of(&self, entry: &[u8], key: &[u8]) -> bool
        requires numbers { IsByBlocks (blocks_of self.now.blocks) entry.now }
        ensures same { IsTrue result → key_of_words (blocks_of self.now.blocks) (unpacked_key entry.now) ≡ key.now }
        ensures other { result ≡ false
            → key_of_words (blocks_of self.now.blocks) (unpacked_key entry.now) ≢ key.now }
    {
        let Some((count, more)) = next_word(entry) else {
            return key.is_empty();
        };
        if count.saturating_sub(1) as usize != key.len() {
            return false;
        }
        let mut numbers = more;
        let mut rest = key;
        while let Some((number, more)) = next_word(numbers) {
            let block = self.blocks.block(number);
            match rest.split_first_chunk::<BLOCK_BYTES>() {
                Some((front, after)) => {
                    if !is_block(front, block) {
                        return false;
                    }
                    rest = after;
                }
                None => return is_same(&block[..rest.len()], rest),
            }
            numbers = more;
        }
        rest.is_empty()
    }
}

impl Names for KeyStore {
    ghost names_of = { keys_in };

    ghost can_name = { AreCollapsed };

    fn is_at(&self, place: usize, name: &[u8]) -> bool {
        let entry = self.entries.list_at(place);
        if let Some(whole) = whole_of(entry) {
            return is_same(whole, name);
        }
        self.is_of(entry, name)
    }
}
