//! Lists of bytes, one after another.
ghost use Rattle.std.specs.Prelude.{◌≡◌, ◌<◌, ◌≤◌, ◌++◌, [], ◌∷◌, IfOk, Some, length, slice_get};
ghost use Rattle.std.specs.Prelude.{slice_index, slice_range, vec_len};
ghost use Rattle.pip_search.specs.Storing.{HasOpenBlock, IsStored, ends_of, listed};

use std::alloc::{AllocError, Global};

/// How many lists a block has.
const BLOCK_LISTS: usize = 64;

/// Lists of bytes, numbered from 0. The bytes of each follow those of the one before it, so that none has a block of
/// memory of its own. Where a list ends is counted from where its block begins, so that 32 bits are enough.
#[derive(Drop)]
pub struct ByteLists {
    bytes: Vec<u8>,
    // Per block: where its first list begins.
    blocks: Vec<usize>,
    // Per list: how far it ends after the beginning of its block.
    ends: Vec<u32>,
}

impl ByteLists {
    /// No lists.
    pub(crate) fn new(alloc: Global) -> ByteLists
        ensures stored { IsStored result }
        ensures none { listed result ≡ [] }
    {
        ByteLists {
            bytes: Vec::new(alloc),
            blocks: Vec::new(alloc),
            ends: Vec::new(alloc),
        }
    }

    // Begins a block, if the others are full.
    fn open_block(&mut self) -> Result<(), AllocError>
        requires stored { IsStored self.old }
        ensures stored { IfOk result (λ _. IsStored self.new) }
        ensures room { IfOk result (λ _. HasOpenBlock self.new) }
        ensures same { IfOk result (λ _. listed self.new ≡ listed self.old) }
    {
        if self.ends.len() / BLOCK_LISTS == self.blocks.len() {
            self.blocks.push(self.bytes.len())?;
        }
        Ok(())
    }

    /// Adds a list. The only error is that memory is out: a block has room for 4 GB.
    pub(crate) fn push(&mut self, list: &[u8]) -> Result<(), AllocError>
        requires stored { IsStored self.old }
        ensures stored { IfOk result (λ _. IsStored self.new) }
        ensures added { IfOk result (λ _. listed self.new ≡ listed self.old ++ list.now ∷ []) }
    {
        self.open_block()?;
        self.bytes.extend_from_slice(list)?;
        let end = self.bytes.len() - self.blocks[self.ends.len() / BLOCK_LISTS];
        if end > u32::MAX as usize {
            return Err(AllocError);
        }
        self.ends.push(end as u32)?;
        Ok(())
    }

    // Where the list at a place ends.
    fn end(&self, place: usize) -> usize
        requires stored { IsStored self.now }
        requires place { place < length self.now.ends.items }
        ensures { result ≡ slice_index (ends_of self.now) place }
    {
        self.blocks[place / BLOCK_LISTS] + self.ends[place] as usize
    }

    // Where it begins.
    fn start(&self, place: usize) -> usize
        requires stored { IsStored self.now }
        requires place { place < length self.now.ends.items }
        ensures { result ≡ slice_index (0 ∷ ends_of self.now) place }
    {
        if place % BLOCK_LISTS == 0 {
            self.blocks[place / BLOCK_LISTS]
        } else {
            self.end(place - 1)
        }
    }

    // Where it begins and ends.
    fn range(&self, place: usize) -> (usize, usize)
        requires stored { IsStored self.now }
        requires place { place < length (listed self.now) }
        ensures rises { result.0 ≤ result.1 }
        ensures within { result.1 ≤ length self.now.bytes.items }
        ensures key { slice_get (listed self.now) place
            ≡ Some (slice_range self.now.bytes.items result.0 result.1) }
    {
        (self.start(place), self.end(place))
    }
}

impl ByteLists {
    /// How many bytes all of them have.
    pub(crate) fn size(&self) -> usize
        ensures { result ≡ vec_len self.now.bytes }
    {
        self.bytes.len()
    }

    /// The list at a place.
    pub(crate) fn list_at(&self, place: usize) -> &[u8]
        requires stored { IsStored self.now }
        requires place { place < length (listed self.now) }
        ensures { slice_get (listed self.now) place ≡ Some result.now }
    {
        let (start, end) = self.range(place);
        &self.bytes[start..end]
    }
}
