//! The check of a part that was read.
ghost use Rattle.std.specs.Prelude.{◌≡◌, ◌+◌, ◌∷◌, ◌<◌, ◌≤◌, ◌-◌, ◌^◌, All, IfOk, IfSome, IsTrue, Some, false};
ghost use Rattle.std.specs.Prelude.{length, map};
ghost use Rattle.pip_base.specs.Memory.{IsMemory, put_word};
ghost use Rattle.pip_image.specs.Coming.{IsHeader};
ghost use Rattle.pip_model.specs.Booted.{HasBooted};
ghost use Rattle.pip_certificates.specs.Sums.{labels_sum};
ghost use Rattle.pip_search.specs.Keys.{labels};
ghost use Rattle.pip_every.specs.Texts.{inner};
ghost use Rattle.pip_certificates.specs.PartAbout.{words_with};
ghost use Rattle.pip_certificates.specs.BaseWords.{AreBaseWords};
ghost use Rattle.pip_certificates.specs.PartExact.{booted_from, runs_in};
ghost use Rattle.pip_certificates.specs.PartReading.{part_seen};
ghost use Rattle.pip_certificates.specs.PartShown.{CountsStops, IsCheckedOf, IsNumbered};

use crate::about::{MAX_ABOUT, about_text, part_sum};
use crate::parts::{PartNumbers, label_sum, sum_and};
use crate::reading::{BaseWord, ReadPart};
use arrayvec::ArrayString;
use pip_base::{Frame, Steps, never};
use pip_command_contracts::planned_lines;
use pip_every::{copied, inner, part};
use pip_frames::{Frames, RawFrames};
use pip_image::Header;
use pip_search::{Found, Part};
use std::alloc::{AllocError, Global};
use std::sync::ledger::Ledger;

/// A part that was checked: what it has and asks, what it is of, and its numbers.
#[derive(Drop)]
pub struct Checked {
    pub part: Part,
    pub about: ArrayString<MAX_ABOUT>,
    pub numbers: PartNumbers,
}

// Frames with these words in place of their own.
fn frames_with<L: Ledger>(
    alloc: Global,
    mem: &RawFrames,
    base: &[BaseWord],
    steps: &mut Steps<L>,
) -> Result<RawFrames, AllocError>
    requires base { AreBaseWords (length (⟦<RawFrames as Frames>⟧.memory mem.now)) base.now }
    requires shape { IsMemory (⟦<RawFrames as Frames>⟧.memory mem.now) }
    ensures words { IfOk result (λ r. ⟦<RawFrames as Frames>⟧.memory r
        ≡ words_with (⟦<RawFrames as Frames>⟧.memory mem.now) base.now) }
    ensures shape { IfOk result (λ r. IsMemory (⟦<RawFrames as Frames>⟧.memory r)) }
    ensures count { IfOk result (λ r. length (⟦<RawFrames as Frames>⟧.memory r)
        ≡ length (⟦<RawFrames as Frames>⟧.memory mem.now)) }
{
    let mut later = copied(alloc, mem, steps)?;
    put_base(&mut later, base);
    Ok(later)
}

// Writes words into frames.
fn put_base(mem: &mut RawFrames, base: &[BaseWord])
    requires base { AreBaseWords (length (⟦<RawFrames as Frames>⟧.memory mem.old)) base.now }
    requires shape { IsMemory (⟦<RawFrames as Frames>⟧.memory mem.old) }
    ensures words { ⟦<RawFrames as Frames>⟧.memory mem.new
        ≡ words_with (⟦<RawFrames as Frames>⟧.memory mem.old) base.now }
    ensures shape { IsMemory (⟦<RawFrames as Frames>⟧.memory mem.new) }
    ensures count { length (⟦<RawFrames as Frames>⟧.memory mem.new)
        ≡ length (⟦<RawFrames as Frames>⟧.memory mem.old) }
{
    for i in 0..base.len() {
        put_one(mem, &base[i]);
    }
}

// Writes a word into its frame.
fn put_one(mem: &mut RawFrames, word: &BaseWord)
    requires frame { word.now.frame < length (⟦<RawFrames as Frames>⟧.memory mem.old) }
    requires index { word.now.index < 1024 }
    ensures words { ⟦<RawFrames as Frames>⟧.memory mem.new
        ≡ put_word (⟦<RawFrames as Frames>⟧.memory mem.old) word.now.frame word.now.index word.now.word }
    ensures count { length (⟦<RawFrames as Frames>⟧.memory mem.new)
        ≡ length (⟦<RawFrames as Frames>⟧.memory mem.old) }
{
    mem.set_word(Frame::new(word.frame), word.index, word.word);
}

/// The place of the first word of a base with which the frames have booted, if there is one.
pub fn booted_word<L: Ledger>(
    mem: &RawFrames,
    base: &[BaseWord],
    steps: &mut Steps<L>,
) -> Option<usize>
    requires base { AreBaseWords (length (⟦<RawFrames as Frames>⟧.memory mem.now)) base.now }
    ensures first { result ≡ booted_from (⟦<RawFrames as Frames>⟧.memory mem.now) 0 base.now }
    ensures place { IfSome result (λ k. k < length base.now) }
{
    let mut rest = base;
    let mut place = 0;
    while let [word, tail @ ..] = rest {
        if mem.word(Frame::new(word.frame), word.index, steps) == word.word {
            return Some(place);
        }
        place += 1;
        rest = tail;
    }
    None
}

// Whether a choice is the last of a run, by what comes after it.
fn ends_run(choice: u32, tail: &[u32]) -> bool
    ensures yes { IsTrue result → runs_in (choice ∷ tail.now) ≡ 1 + runs_in tail.now }
    ensures no { result ≡ false → runs_in (choice ∷ tail.now) ≡ runs_in tail.now }
{
    match tail {
        [next, ..] => choice != *next,
        [] => true,
    }
}

/// How many runs a way has.
pub fn runs_in(way: &[u32]) -> usize
    ensures is { result ≡ runs_in way.now }
    ensures few { result ≤ length way.now }
{
    let mut rest = way;
    let mut count = 0;
    while let [choice, tail @ ..] = rest {
        if ends_run(*choice, tail) {
            count += 1;
        }
        rest = tail;
    }
    count
}

/// Checks a part of an image that has booted. The only error is that memory is out, as for 2^32 keys that are asked.
pub fn check<L: Ledger>(
    alloc: Global,
    head: &Header,
    mem: RawFrames,
    read: &ReadPart,
    from: u32,
    steps: &mut Steps<L>,
) -> Result<Checked, AllocError>
    requires booted { HasBooted (⟦<RawFrames as Frames>⟧.memory mem) }
    requires limits { IsHeader head.now }
    requires base { AreBaseWords (length (⟦<RawFrames as Frames>⟧.memory mem)) read.now.base.items }
    requires way { length read.now.way.items ≤ 10000000 }
    requires can { All (λ k. k < head.now.cpus + length head.now.plans.items) read.now.way.items }
    requires marks { length read.now.marks.items < 2 ^ 32 - 1 }
    ensures counts { IfOk result CountsStops }
    ensures way { IfOk result (λ c. c.numbers.way ≡ length read.now.way.items) }
    ensures found { IfOk result
        (IsCheckedOf head.now (⟦<RawFrames as Frames>⟧.memory mem) from (part_seen read.now)) }
{
    let lines = planned_lines(head.plans.as_slice());
    let later = frames_with(alloc, &mem, read.base.as_slice(), steps)?;
    let sum = part_sum(lines.as_slice(), &mem, &later, steps);
    let about = about_text(
        head.frames,
        head.cpus,
        head.plans.len() as u32,
        head.pages,
        from,
        sum,
    );
    let found = part(
        alloc,
        mem,
        later,
        head.cpus,
        lines.as_slice(),
        from,
        read.way.as_slice(),
        read.marks.as_slice(),
    )?;
    let Some(part) = found else { never!() };
    counted(part, about, read.way.len() as u32)
}

// The sum of labels.
fn found_sum(found: &[Found]) -> u32
    ensures { result ≡ labels_sum (map inner (labels found.now)) }
{
    let mut sum = 0;
    for each in found {
        sum = sum_and(sum, label_sum(inner(&each.label)));
    }
    sum
}

// A count that is below 2^32; more are as if memory were out.
fn count_of(count: usize) -> Result<u32, AllocError>
    ensures { IfOk result (λ n. (n ≡ count) × (n < 2 ^ 32)) }
{
    match u32::try_from(count) {
        Ok(count) => Ok(count),
        Err(_) => Err(AllocError),
    }
}

// A part with its numbers, where these are below 2^32.
fn counted(part: Part, about: ArrayString<MAX_ABOUT>, way: u32) -> Result<Checked, AllocError>
    requires { way < 2 ^ 32 }
    ensures { IfOk result (IsNumbered part about.bytes way) }
{
    let keys = count_of(part.keys.len())?;
    let asked = count_of(part.asked.len())?;
    let labels = count_of(part.found.len())?;
    let sum = found_sum(part.found.as_slice());
    let numbers = PartNumbers {
        way,
        keys,
        asked,
        labels,
        sum,
    };
    Ok(Checked {
        part,
        about,
        numbers,
    })
}
