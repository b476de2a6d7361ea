//! Frames that keep their first words.
ghost use Rattle.std.specs.Prelude.{◌≡◌, ◌<◌, length, IfOk, IsTrue, slice_set};
ghost use Rattle.pip_base.specs.Memory.{IsMemory, frame_at};
ghost use Rattle.pip_every.specs.Changes.{HasChanges, IsRewritten};
ghost use Rattle.pip_switch.specs.Rewinding.{ArePlaces, rewritten};
ghost use Rattle.pip_every.specs.Tracks.{StaysFrom, IsRewound, Tracks, TracksParts};

use crate::journals::changes::{add_below, add_frame};
use crate::journals::first::First;
use crate::journals::frames::{are_other, copied_uncounted, restore_frame, take_back, write_both};
use crate::journals::opened::{PART, Parts, all_frames, all_parts, next_opened};
use pip_base::{Frame, Steps};
use pip_frames::{Frames, RawFrames};
use pip_switch::Rewind;
use std::alloc::{AllocError, Global};
use std::marker::{Brand, PhantomData};
use std::sync::ledger::{Blank, Ledger};

/// For how many words there is room from the start. An empty list without room has no address, and to compare such a
/// one takes long.
const FIRST_ROOM: usize = 64;

/// Frames beside their first words, and beside those to which they were taken back last. A frame, or a part of one,
/// that wasn't opened since then has the latter. In a new journal all are opened.
#[derive(Drop)]
pub struct Journal<F: First> {
    frames: RawFrames,
    first: RawFrames,
    // The first words with those of the last rewinding over them, which are none where they weren't changes alone.
    base: RawFrames,
    words: Vec<u32>,
    opened: Vec<bool>,
    parts: Vec<Parts>,
    // Whether nothing was written since the last rewinding, and a frame from which on none was.
    still: bool,
    top: usize,
    of: PhantomData<F>,
    ghost first_is: { first.block.frames ≡ F.words },
    ghost count: { length frames.block.frames ≡ length first.block.frames },
    ghost base_count: { length base.block.frames ≡ length first.block.frames },
    ghost kept: { ∥ IsRewritten first.block.frames base.block.frames words.items ∥₁ },
    ghost each: { length opened.items ≡ length first.block.frames },
    ghost rows: { length parts.items ≡ length first.block.frames },
    ghost tracks: { ∥ Tracks base.block.frames frames.block.frames opened.items ∥₁ },
    ghost tracks_parts: { ∥ TracksParts base.block.frames frames.block.frames parts.items ∥₁ },
    ghost below: { ∥ StaysFrom base.block.frames frames.block.frames top ∥₁ },
    ghost rewound: { ∥ IsRewound base.block.frames frames.block.frames still ∥₁ },
}

impl<F: First> Frames for Journal<F> {
    ghost use Rattle.std.proofs.Common.{refl};
    ghost use Rattle.std.specs.Prelude.{◌+◌, false, max, true};
    ghost use Rattle.std.specs.Vec.{with_item};
    ghost use Rattle.pip_frames.specs.Lending.{block_with_frame};
    ghost use Rattle.pip_frames.specs.RawBounds.{raw_bounds};
    ghost use Rattle.pip_every.specs.Opening.{all_opened, length_set, not_rewound, opens_below, opens_frame};
    ghost use Rattle.pip_every.specs.Opening.{opens_parts};

    ghost memory = { λ m. m.frames.block.frames };

    ghost put = { λ m f ws. record m {
      frames = record m.frames { block = block_with_frame m.frames.block f ws };
      opened = with_item m.opened f true;
      parts = with_item m.parts f all_opened;
      still = false;
      top = max m.top (f + 1);
      count = length_set m.frames.block.frames f ws _ m.count;
      each = length_set m.opened.items f true _ m.each;
      rows = length_set m.parts.items f all_opened _ m.rows;
      tracks = opens_frame m.base.block.frames m.frames.block.frames m.opened.items f ws m.tracks;
      tracks_parts = opens_parts m.base.block.frames m.frames.block.frames m.parts.items f ws m.tracks_parts;
      below = opens_below m.base.block.frames m.frames.block.frames _ f f m.top _ ws refl refl refl m.below;
      rewound = not_rewound m.base.block.frames _;
    } };

    ghost puts = { λ m f ws. refl };

    ghost bounds = { λ m. raw_bounds m.frames };

    fn count(&self) -> u32 {
        self.frames.count()
    }

    fn word<L: Ledger>(&self, f: Frame, i: u32, steps: &mut Steps<L>) -> u32 {
        self.frames.word(f, i, steps)
    }

    fn set_word(&mut self, f: Frame, i: u32, w: u32) {
        self.still = false;
        self.opened[f.number() as usize] = true;
        self.top = self.top.max(f.number() as usize + 1);
        self.parts[f.number() as usize][i as usize / PART] = true;
        self.frames.set_word(f, i, w);
    }

    fn zero(&mut self, f: Frame) {
        self.still = false;
        self.opened[f.number() as usize] = true;
        self.top = self.top.max(f.number() as usize + 1);
        self.parts[f.number() as usize] = all_parts(true);
        self.frames.zero(f);
    }

    fn frame<L: Ledger>(&self, f: Frame, steps: &mut Steps<L>) -> &[u32; 1024] {
        self.frames.frame(f, steps)
    }

    fn frame_mut<L: Ledger>(&mut self, f: Frame, steps: &mut Steps<L>) -> &mut [u32; 1024] {
        self.still = false;
        self.opened[f.number() as usize] = true;
        self.top = self.top.max(f.number() as usize + 1);
        self.parts[f.number() as usize] = all_parts(true);
        self.frames.frame_mut(f, steps)
    }

    fn pair<L: Ledger>(
        &mut self,
        read: Frame,
        write: Frame,
        steps: &mut Steps<L>,
    ) -> (&[u32; 1024], &mut [u32; 1024]) {
        self.still = false;
        self.opened[write.number() as usize] = true;
        self.top = self.top.max(write.number() as usize + 1);
        self.parts[write.number() as usize] = all_parts(true);
        self.frames.pair(read, write, steps)
    }
}

impl<F: First> Journal<F> {
    // Takes a frame back to its words after the last rewinding.
    fn restore<L: Ledger>(&mut self, frame: Frame, steps: &mut Steps<L>)
        requires { frame < length F.words }
        ensures frames { self.new.frames.block.frames
            ≡ slice_set self.old.frames.block.frames frame (frame_at self.old.base.block.frames frame) }
        ensures base { self.new.base.block.frames ≡ self.old.base.block.frames }
        ensures top { self.new.top ≡ self.old.top }
    {
        self.still = false;
        let parts = &self.parts[frame.number() as usize];
        restore_frame(&self.base, &mut self.frames, frame, parts, steps);
        self.parts[frame.number() as usize] = all_parts(false);
        self.opened[frame.number() as usize] = false;
    }

    // Takes all frames back to their words after the last rewinding.
    fn close<L: Ledger>(&mut self, steps: &mut Steps<L>)
        ensures { self.new.frames.block.frames ≡ self.new.base.block.frames }
    {
        let end = self.top.min(self.opened.len());
        let mut f = next_opened(&self.opened[..end], 0);
        while f < end {
            self.restore(Frame::new(f as u32), steps);
            f = next_opened(&self.opened[..end], f + 1);
        }
        self.top = 0;
        self.still = true;
    }

    // Writes words, each of which comes after its place.
    fn write(&mut self, words: &[u32])
        requires { ArePlaces (length F.words) words.now }
        ensures { self.new.frames.block.frames ≡ rewritten self.old.frames.block.frames words.now }
    {
        let mut rest = words;
        while rest.len() >= 2 {
            let place = rest[0];
            let word = rest[1];
            self.set_word(Frame::new(place / 1024), place % 1024, word);
            rest = &rest[2..];
        }
    }

    // Takes the frames to their first words with these over them. It keeps the words where they are changes alone, and
    // there is memory for them.
    fn go_to<L: Ledger>(&mut self, words: &[u32], steps: &mut Steps<L>)
        requires places { ArePlaces (length F.words) words.now }
        requires closed { self.old.frames.block.frames ≡ self.old.base.block.frames }
        ensures { self.new.frames.block.frames ≡ rewritten F.words words.now }
    {
        take_back(
            &self.first,
            &mut self.base,
            &mut self.frames,
            &self.words,
            steps,
        );
        self.words.clear();
        if are_other(&self.first, words, steps) && self.words.extend_from_slice(words).is_ok() {
            write_both(&mut self.base, &mut self.frames, words);
        } else {
            self.write(words);
        }
    }

    /// Whether nothing was written since the frames were taken back with these words over their first ones. It may
    /// answer no where a word is the first one, places don't rise, or memory was out.
    pub fn is_at(&self, words: &[u32]) -> bool
        ensures { IsTrue result → ⟦<Journal<F> as Frames>⟧.memory self.now ≡ rewritten F.words words.now }
    {
        self.still && self.words.as_slice() == words
    }

    /// A journal of `frames`, whose first words are those of `first`, which has as many frames. The only error is that
    /// memory is out.
    pub fn new(alloc: Global, frames: RawFrames, first: RawFrames) -> Result<Journal<F>, AllocError>
        requires first { ⟦<RawFrames as Frames>⟧.memory first ≡ F.words }
        requires count { length (⟦<RawFrames as Frames>⟧.memory frames) ≡ length F.words }
        ensures { IfOk result (λ j. ⟦<Journal<F> as Frames>⟧.memory j ≡ ⟦<RawFrames as Frames>⟧.memory frames) }
    {
        let count = frames.count() as usize;
        let base = copied_uncounted::<Brand>(alloc, &first, Blank::new(1))?;
        let opened = vec![in alloc; true; count]?;
        let parts = all_frames(alloc, count)?;
        Ok(Journal {
            frames,
            first,
            base,
            words: Vec::with_capacity(alloc, FIRST_ROOM)?,
            opened,
            parts,
            still: false,
            top: count,
            of: PhantomData,
        })
    }

    /// Adds the words that differ from the first ones, each after its place, which is 1024 times its frame plus its
    /// index there. The places rise. The only error is that memory is out.
    pub fn add_changes<L: Ledger>(
        &self,
        to: &mut Vec<u32>,
        steps: &mut Steps<L>,
    ) -> Result<(), AllocError>
        ensures { IfOk result (λ _. IsMemory F.words →
            HasChanges F.words (⟦<Journal<F> as Frames>⟧.memory self.now) to.old.items to.new.items) }
    {
        let end = self.top.min(self.opened.len());
        let mut f = next_opened(&self.opened[..end], 0);
        let mut rest = add_below(&self.words, f as u32 * 1024, to)?;
        while f < end {
            let frame = Frame::new(f as u32);
            let now = self.frames.frame(frame, steps);
            let base = self.base.frame(frame, steps);
            let first = self.first.frame(frame, steps);
            rest = add_frame(now, base, first, &self.parts[f], f as u32, rest, to)?;
            f = next_opened(&self.opened[..end], f + 1);
            rest = add_below(rest, f as u32 * 1024, to)?;
        }
        to.extend_from_slice(rest)?;
        Ok(())
    }
}

impl<F: First> Rewind for Journal<F> {
    ghost first = { F.words };

    fn rewind<L: Ledger>(&mut self, words: &[u32], steps: &mut Steps<L>) {
        if self.is_at(words) {
            return;
        }
        self.close(steps);
        if self.words.as_slice() != words {
            self.go_to(words, steps);
        }
    }
}
