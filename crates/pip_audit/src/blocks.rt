//! What is known of the words of frames, by blocks of 32.
ghost use Rattle.std.specs.Prelude.{◌≡◌, ℕ, ◌+◌, ◌*◌, ◌%◌, ◌<◌, ◌≤◌, ◌==◌, bit_and, false, true, None, length};
ghost use Rattle.std.specs.Prelude.{slice_index};
ghost use Rattle.std.specs.Int.{bit_at};
ghost use Rattle.pip_base.specs.Memory.{word_at};
ghost use Rattle.pip_audit.specs.Blocks.{AreKnown, AreMasks, AreMasksOf, IsNone, IsPlaceIn, LacksSought, mask_in};
ghost use Rattle.pip_audit.specs.Blocks.{place_in};
ghost use Rattle.pip_audit.specs.declared.tables.SoughtRows.TheVariants.{Child};

use crate::tables::{SoughtRows, Triple};
use pip_base::{Frame, Steps};
use pip_frames::Frames;
use std::alloc::{AllocError, Global};
use std::sync::ledger::Ledger;

/// Which words are sought: those that aren't 0, or those of a first shadow that mark a child's descriptor.
#[derive(Clone, Copy, Debug, PartialEq, Eq)]
pub(crate) enum Kind {
    Filled,
    Descriptor,
}

/// Per frame and block of 32 words, the words that may be of a kind: bit i for word i of the block.
#[derive(Drop)]
pub(crate) struct Masks {
    // The blocks of the frames that were read, in the order of reading.
    masks: Vec<[u32; 32]>,
    // Per frame, its place among them.
    place: Vec<Option<u32>>,
}

/// What is known of the blocks of MMU tables and of first shadows that were read.
#[derive(Drop)]
pub(crate) struct Blocks {
    rows: Masks,
    descriptors: Masks,
}

/// Whether a word of a first shadow marks its page as a child's descriptor. In a raw memory it may name vpage 0, so it
/// isn't one for `unpack_sh1`.
pub(crate) fn marks_descriptor(word: u32) -> bool
    ensures { result ≡ (word % 4096 == 1) }
{
    word % 4096 == 1
}

// Whether a word is of a kind.
fn is_of(kind: Kind, word: u32) -> bool
    ensures { result ≡ false → IsNone kind word }
{
    match kind {
        Kind::Filled => word != 0,
        Kind::Descriptor => marks_descriptor(word),
    }
}

// The words of block `b` of a frame that are of a kind.
fn mask_of<M: Frames, L: Ledger>(kind: Kind, mem: &M, f: Frame, b: u32, steps: &mut Steps<L>) -> u32
    requires frame { f < length (M.memory mem.now) }
    requires block { b < 32 }
    ensures { (i : ℕ) → i < 32 → bit_at result i ≡ 0 → IsNone kind (word_at (M.memory mem.now) f (32 * b + i)) }
{
    let mut mask = 0u32;
    for i in 0..32u32 {
        if is_of(kind, mem.word(f, 32 * b + i, steps)) {
            mask |= 1u32 << i;
        }
    }
    mask
}

// The words of each block of a frame that are of a kind.
fn masks_of<M: Frames, L: Ledger>(kind: Kind, mem: &M, f: Frame, steps: &mut Steps<L>) -> [u32; 32]
    requires frame { f < length (M.memory mem.now) }
    ensures { AreMasksOf kind (M.memory mem.now) f result }
{
    let mut masks = [0; 32];
    for b in 0..32u32 {
        masks[b as usize] = mask_of(kind, mem, f, b, steps);
    }
    masks
}

// Whether no word is in both.
fn are_apart(xs: &[u32; 32], ys: &[u32; 32]) -> bool
    ensures apart { result ≡ true → (b : ℕ) → b < 32 → bit_and (slice_index xs.now b) (slice_index ys.now b) ≡ 0 }
    ensures long { (length xs.now ≡ 32) × (length ys.now ≡ 32) }
{
    let mut apart = true;
    for b in 0..32 {
        apart = apart & (xs[b] & ys[b] == 0);
    }
    apart
}

impl Masks {
    /// Nothing is known of a memory of `n` frames, 4096 at most.
    fn new(alloc: Global, n: usize) -> Result<Masks, AllocError>
        requires { n ≤ 4096 }
    {
        Ok(Masks {
            masks: Vec::with_capacity(alloc, n)?,
            place: vec![in alloc; None; n]?,
        })
    }

    // Nothing was read.
    fn forget(&mut self)
        ensures { (f : ℕ) → place_in self.new f ≡ None }
    {
        self.masks.clear();
        self.place.fill(None);
    }

    // The words of block `b` of a frame that may be of the kind.
    fn at(&self, f: Frame, b: u32) -> u32
        requires frame { f < 4096 }
        requires block { b < 32 }
        ensures { result ≡ mask_in self.now f b }
    {
        let k = f.number() as usize;
        if k >= self.place.len() {
            return u32::MAX;
        }
        match self.place[k] {
            Some(place) if (place as usize) < self.masks.len() => {
                self.masks[place as usize][b as usize]
            }
            _ => u32::MAX,
        }
    }

    // The place of the blocks of a frame, if it was read.
    fn place_of(&self, f: Frame) -> Option<usize>
        requires { f < 4096 }
        ensures { IsPlaceIn self.now f result }
    {
        let k = f.number() as usize;
        if k >= self.place.len() {
            return None;
        }
        match self.place[k] {
            Some(place) if (place as usize) < self.masks.len() => Some(place as usize),
            _ => None,
        }
    }

    // Reads the blocks of a frame, unless it was read or there is no room for them.
    fn learn<M: Frames, L: Ledger>(&mut self, kind: Kind, mem: &M, f: Frame, steps: &mut Steps<L>)
        requires frame { f < length (M.memory mem.now) }
        requires masks { AreMasks kind (M.memory mem.now) self.old }
        ensures masks { AreMasks kind (M.memory mem.now) self.new }
    {
        let k = f.number() as usize;
        if k >= self.place.len() || self.place[k].is_some() {
            return;
        }
        let Ok(next) = u32::try_from(self.masks.len()) else {
            return;
        };
        let masks = masks_of(kind, mem, f, steps);
        if self.masks.push(masks).is_ok() {
            self.place[k] = Some(next);
        }
    }
}

impl Blocks {
    /// Nothing is known of a memory of `n` frames, 4096 at most.
    pub(crate) fn new(alloc: Global, n: usize) -> Result<Blocks, AllocError>
        requires { n ≤ 4096 }
    {
        Ok(Blocks {
            rows: Masks::new(alloc, n)?,
            descriptors: Masks::new(alloc, n)?,
        })
    }

    /// Nothing was read.
    pub(crate) fn forget(&mut self)
        ensures rows { (f : ℕ) → place_in self.new.rows f ≡ None }
        ensures descriptors { (f : ℕ) → place_in self.new.descriptors f ≡ None }
    {
        self.rows.forget();
        self.descriptors.forget();
    }

    /// Whether block `b` of the tables of a directory index is known to lack the rows that are sought.
    pub(crate) fn lacks(&self, sought: SoughtRows, tables: Triple, b: u32) -> bool
        requires mmu { tables.mmu < 4096 }
        requires shadow { tables.shadow1 < 4096 }
        requires block { b < 32 }
        ensures { result ≡ true → LacksSought sought self.now tables b }
    {
        let rows = self.rows.at(tables.mmu, b);
        match sought {
            SoughtRows::Any => rows == 0,
            SoughtRows::Child => rows & self.descriptors.at(tables.shadow1, b) == 0,
        }
    }

    /// Whether all blocks of the tables of a directory index are known to lack rows of children.
    pub(crate) fn lacks_children(&self, tables: Triple) -> bool
        requires mmu { tables.mmu < 4096 }
        requires shadow { tables.shadow1 < 4096 }
        ensures { result ≡ true → (b : ℕ) → b < 32 → LacksSought Child self.now tables b }
    {
        let Some(i) = self.rows.place_of(tables.mmu) else {
            return false;
        };
        let Some(j) = self.descriptors.place_of(tables.shadow1) else {
            return false;
        };
        are_apart(&self.rows.masks[i], &self.descriptors.masks[j])
    }

    /// Reads an MMU table.
    pub(crate) fn learn_rows<M: Frames, L: Ledger>(
        &mut self,
        mem: &M,
        table: Frame,
        steps: &mut Steps<L>,
    )
        requires frame { table < length (M.memory mem.now) }
        requires known { AreKnown (M.memory mem.now) self.old }
        ensures known { AreKnown (M.memory mem.now) self.new }
    {
        self.rows.learn(Kind::Filled, mem, table, steps);
    }

    /// Reads a first shadow.
    pub(crate) fn learn_descriptors<M: Frames, L: Ledger>(
        &mut self,
        mem: &M,
        shadow: Frame,
        steps: &mut Steps<L>,
    )
        requires frame { shadow < length (M.memory mem.now) }
        requires known { AreKnown (M.memory mem.now) self.old }
        ensures known { AreKnown (M.memory mem.now) self.new }
    {
        self.descriptors.learn(Kind::Descriptor, mem, shadow, steps);
    }
}
