//! A raw block of frames. Every function that touches its pointer is here and is proved by hand: the check makes
//! no proof of its own where memory is reached through a raw pointer, or where a value owns more than its fields.
ghost use Rattle.std.specs.Prelude.{◌≡◌, ◌≢◌, ◌<◌, ◌≤◌, ℕ, List, [], IfOk, length, replicate, slice_index_or};
ghost use Rattle.std.specs.Borrow.{sem};
ghost use Rattle.pip_frames.specs.Ownership.{block_lent, block_owns, room_owns};

use std::alloc::{AllocError, Allocator, Global};
use std::marker::Model;

/// `count` frames, 16 to 4096, from `at` on, in one block that the allocator gave.
pub(crate) struct Block {
    at: *mut [u32; 1024],
    count: usize,
    ghost frames: { List (List ℕ) },
    ghost counted: { count ≡ length frames },
    ghost least: { 16 ≤ count },
    ghost most: { count ≤ 4096 },
}

impl Model for Block {
    ghost also_owns = { λ b. block_owns b.at b.count b.frames };

    ghost also_shares = { λ b _ κ. block_lent b.at b.count b.frames κ };
}

/// Room for `count` frames, 16 to 4096, from `at` on, with nothing written yet.
struct Room {
    at: *mut [u32; 1024],
    count: usize,
    ghost least: { 16 ≤ count },
    ghost most: { count ≤ 4096 },
}

impl Model for Room {
    ghost also_owns = { λ r. room_owns r.at r.count };
}

/// Room for `count` frames, from 16 to 4096. The only error is that memory is out.
// It promises that the room is as large as asked and nobody else's, with the right to give it back.
fn take(alloc: &Global, count: usize) -> Result<Room, AllocError>
    requires { (16 ≤ count) × (count ≤ 4096) }
    ensures { IfOk result (λ r. r.count ≡ count) }
{
    match alloc.allocate(count * 4096, 4) {
        Ok(at) => Ok(Room {
            at: at as *mut [u32; 1024],
            count,
        }),
        Err(refused) => Err(refused),
    }
}

/// The block in that room, with these words in each frame.
// It promises that every frame was written, so that none exposes old memory.
fn fill(room: Room, words: [u32; 1024]) -> Block
    ensures { (result.count ≡ room.count) × (result.frames ≡ replicate room.count words) }
{
    let Room { at, count } = room;
    let mut i = 0;
    while i < count {
        unsafe { at.add(i).write(words) };
        i += 1;
    }
    Block { at, count }
}

impl Block {
    ghost use Rattle.pip_frames.specs.Lending.{LendsFrame};

    /// `count` frames, from 16 to 4096, with these words in each. The only error is that memory is out.
    pub(crate) fn new(alloc: &Global, count: usize, words: [u32; 1024]) -> Result<Block, AllocError>
        requires least { 16 ≤ count }
        requires most { count ≤ 4096 }
        ensures { IfOk result (λ b. b.frames ≡ replicate count words) }
    {
        Ok(fill(take(alloc, count)?, words))
    }

    /// Gives the block back to the allocator.
    // It promises that the allocator is handed exactly what it gave. No other function takes a block apart, so it is
    // given back once at most.
    pub(crate) fn free(self, alloc: &Global) {
        let Block { at, count } = self;
        unsafe { alloc.deallocate(at as *mut u8, count * 4096, 4) }
    }

    /// The number of frames.
    // It follows no pointer, and is proved by hand since a `&` to a block shares the frames with it. It promises the
    // number, which is that of the lists in `frames`.
    pub(crate) fn count(&self) -> usize
        ensures { (result ≡ self.now.count) × (result ≡ length self.now.frames) × (result ≤ 4096) }
    {
        self.count
    }

    /// Frame `f`, lent for reading.
    // It promises that the words lent are those of `f`, for as long as the block is.
    pub(crate) fn frame(&self, f: usize) -> &[u32; 1024]
        requires { f < self.now.count }
        ensures { result.now ≡ slice_index_or self.now.frames f [] }
    {
        unsafe { &*self.at.add(f) }
    }

    /// Frame `f`, lent for writing.
    // It promises that the words lent are those of `f`, and that the block ends with what is left in them, and with
    // every other frame as it was.
    pub(crate) fn frame_mut(&mut self, f: usize) -> &mut [u32; 1024]
        requires { f < self.old.count }
        ensures* writes_back { sem 𝓛 (LendsFrame self.entry f result) }
        ensures value { result.now ≡ slice_index_or self.old.frames f [] }
    {
        unsafe { &mut *self.at.add(f) }
    }

    /// Frame `read`, lent for reading, and another frame, `write`, lent for writing.
    // It promises both at once, and that the block ends with what is left in the second. Two calls can't have that: the
    // first loan would end where the whole block is borrowed again.
    pub(crate) fn pair(&mut self, read: usize, write: usize) -> (&[u32; 1024], &mut [u32; 1024])
        requires { (read < self.old.count) × (write < self.old.count) × (read ≢ write) }
        ensures* writes_back { sem 𝓛 (LendsFrame self.entry write result.1) }
        ensures values { (result.0.now ≡ slice_index_or self.old.frames read [])
            × (result.1.now ≡ slice_index_or self.old.frames write []) }
    {
        unsafe { (&*self.at.add(read), &mut *self.at.add(write)) }
    }
}
