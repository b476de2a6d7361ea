//! Blocks of bytes, each of which is kept once.
ghost use Rattle.std.specs.Prelude.{◌≡◌, ◌<◌, [], IfOk, MatchOption, Some, length, slice_get};
ghost use Rattle.pip_search.specs.Collapsing.{IsExtended, blocks_of, filled_up};
ghost use Rattle.pip_search.specs.Naming.{AreNamed};

use crate::hash_table::HashTable;
use crate::hashes::hash_bytes;
use crate::names::{Names, find, is_same};
use std::alloc::{AllocError, Global};

/// How many bytes a block has.
pub(crate) const BLOCK_BYTES: usize = 24;

/// Blocks, numbered from 0.
#[derive(Drop)]
pub struct BlockList {
    items: Vec<[u8; BLOCK_BYTES]>,
}

/// Blocks that are found by their bytes.
#[derive(Drop)]
pub struct BlockStore {
    blocks: BlockList,
    table: HashTable,
}

impl Names for BlockList {
    ghost names_of = { λ x. x.items.items };

    ghost can_name = { λ x. Unit {0} };

    fn is_at(&self, place: usize, name: &[u8]) -> bool {
        is_same(&self.items[place], name)
    }
}

/// The first bytes of a block, fewer than a block has; the others are 0.
pub(crate) fn filled(bytes: &[u8]) -> [u8; BLOCK_BYTES]
    requires { length bytes.now < 24 }
    ensures { result ≡ filled_up bytes.now }
{
    let mut block = [0; BLOCK_BYTES];
    block[..bytes.len()].copy_from_slice(bytes);
    block
}

// A block has its bytes.
#[inline(always)]
fn sized(block: &[u8; BLOCK_BYTES]) -> &[u8; BLOCK_BYTES]
    ensures same { result.now ≡ block.now }
    ensures size { length result.now ≡ 24 }
{
    block
}

impl BlockStore {
    /// No blocks. Their hashes begin with a seed. The only error is that memory is out.
    pub(crate) fn new(alloc: Global, seed: u64) -> Result<BlockStore, AllocError>
        ensures named { IfOk result (λ x. AreNamed (blocks_of x) x.table) }
        ensures none { IfOk result (λ x. blocks_of x ≡ []) }
    {
        Ok(BlockStore {
            blocks: BlockList {
                items: Vec::new(alloc),
            },
            table: HashTable::new(alloc, seed)?,
        })
    }

    /// How many there are.
    pub(crate) fn len(&self) -> usize
        ensures { result ≡ length (blocks_of self.now) }
    {
        self.blocks.items.len()
    }

    /// The block of a number.
    #[inline(always)]
    pub(crate) fn block(&self, number: u32) -> &[u8; BLOCK_BYTES]
        requires { number < length (blocks_of self.now) }
        ensures at { slice_get (blocks_of self.now) number ≡ Some result.now }
        ensures size { length result.now ≡ 24 }
    {
        sized(&self.blocks.items[number as usize])
    }

    /// The number of a block. A new one is added, if there is room for it.
    pub(crate) fn number(
        &mut self,
        alloc: Global,
        block: &[u8; BLOCK_BYTES],
        room: bool,
    ) -> Result<Option<u32>, AllocError>
        requires named { AreNamed (blocks_of self.old) self.old.table }
        ensures named { IfOk result (λ _. AreNamed (blocks_of self.new) self.new.table) }
        ensures extended { IfOk result (λ _. IsExtended (blocks_of self.old) (blocks_of self.new)) }
        ensures number { IfOk result (λ r. MatchOption r (Unit {0})
            (λ n. slice_get (blocks_of self.new) n ≡ Some block.now)) }
    {
        let hash = hash_bytes(self.table.seed, block);
        if let Some(place) = find(&self.blocks, &self.table, block, hash) {
            return Ok(Some(place as u32));
        }
        if !room {
            return Ok(None);
        }
        let place = self.blocks.items.len();
        self.blocks.items.push(*block)?;
        self.table.add(alloc, hash)?;
        Ok(Some(place as u32))
    }
}
