//! The part after an image, read from a source that is joined with a sink.
ghost use Rattle.std.specs.Prelude.{◌≡◌, ◌+◌, ◌-◌, ◌*◌, ◌<◌, ◌≤◌, ◌^◌, [], ℕ, All, List, Option, Err, IfOk, OnOk};
ghost use Rattle.std.specs.Prelude.{◌++◌, ◌⊎◌, IsTrue, MatchResult, false, length, min, true};
ghost use Rattle.std.specs.Io.KnownBytes.{Consumes};
ghost use Rattle.pip_io.specs.Causes.{HasCause};
ghost use Rattle.pip_io.specs.Moments.{joined};
ghost use Rattle.pip_io.specs.Pacing.{MayRead};
ghost use Rattle.pip_certificates.specs.PartReading.{EndsText, FillsFront, HasNoFault, IsMarksStop, StopsFront};
ghost use Rattle.pip_certificates.specs.PartReading.{StopsText, TakesFewer, TakesText, part_seen};
ghost use Rattle.pip_certificates.specs.BaseWords.{AreBaseWords};
ghost use Rattle.pip_certificates.specs.PartText.{PartSaid, are_spent, base_from, base_said, fits_way, is_base};
ghost use Rattle.pip_certificates.specs.PartText.{marks_from, marks_said, no_part, number_in, part_said};
ghost use Rattle.pip_certificates.specs.PartText.{runs_from};
ghost use Rattle.pip_certificates.specs.PartText.{runs_said, with_marks};

use crate::faults::{PartFault, PartKind, PartStop};
use byteorder::{ByteOrder, LittleEndian};
use pip_io::{Failed, Joint, Sink, Source};
use std::alloc::Global;

/// A word to compare keys with, in place of the one with which the frame has booted.
#[derive(Clone, Copy, Debug, PartialEq, Eq)]
pub struct BaseWord {
    pub frame: u32,
    pub index: u32,
    pub word: u32,
}

/// How many frames the machine has, and how many choices can be made.
#[derive(Clone, Copy, Debug, PartialEq, Eq)]
pub struct Limits {
    pub frames: u32,
    pub choices: u32,
}

/// What a part says: its words, the choices of its way, and its marks, each 0 or 1.
#[derive(Drop)]
pub struct ReadPart {
    pub base: Vec<BaseWord>,
    pub way: Vec<u32>,
    pub marks: Vec<u8>,
}

impl ReadPart {
    // Nothing so far.
    fn new(alloc: Global) -> ReadPart
        ensures { part_seen result ≡ no_part }
    {
        ReadPart {
            base: Vec::new(alloc),
            way: Vec::new(alloc),
            marks: Vec::new(alloc),
        }
    }
}

/// How many bytes with marks are read at a time.
const CHUNK: usize = 4096;

// The most choices of a way.
const MAX_WAY: usize = 10_000_000;

/// Reads a part to the end of the source. The image before it has `at` bytes. Memory is taken for what it says.
pub fn read_part<S: Source, K: Sink>(
    alloc: Global,
    joint: &mut Joint<'_, S, K>,
    limits: Limits,
    at: u64,
) -> Result<ReadPart, PartStop>
    requires frames { limits.frames ≤ 4096 }
    requires place { at ≤ 2 ^ 32 }
    requires is_open { S.is_open joint.old.source.now }
    requires flushed { (K.history joint.old.sink.now).written.buffered ≡ [] }
    requires paced { MayRead S.allows (HasNoFault (part_said limits at)) (joined S.history K.history joint.old) }
    ensures same_source { joint.new.source.ghost_name ≡ joint.old.source.ghost_name }
    ensures sink { joint.new.sink ≡ joint.old.sink }
    ensures reads { MatchResult result
        (λ part. EndsText (part_said limits at) (S.history joint.old.source.now).left
        (S.history joint.new.source.now).left
        (part_seen part) × ((S.history joint.new.source.now).faults ≡ (S.history joint.old.source.now).faults))
        (StopsText (part_said limits at) (S.history joint.old.source.now).left (S.history joint.new.source.now).left
        (S.history joint.old.source.now).faults (S.history joint.new.source.now).faults) }
    ensures base { IfOk result (λ part. AreBaseWords limits.frames part.base.items) }
    ensures way { IfOk result (λ part. length part.way.items ≤ 10000000) }
    ensures can { IfOk result (λ part. All (λ k. k < limits.choices) part.way.items) }
    ensures marks { IfOk result (λ part. length part.marks.items < 2 ^ 32 - 1) }
    ensures few { IfOk result (λ part. length part.base.items < 2 ^ 32) }
{
    let mut part = ReadPart::new(alloc);
    let at = read_base(&mut part, joint, limits, at)?;
    let at = read_way(&mut part, joint, limits, at)?;
    read_marks(&mut part, joint, at)?;
    Ok(part)
}

// Number `k` of these bytes.
fn number(bytes: &[u8], k: usize) -> u32
    requires { 4 * k + 4 ≤ length bytes.now }
    ensures { result ≡ number_in bytes.now k }
{
    LittleEndian::read_u32(&bytes[4 * k..])
}

// Fills a buffer as far as the source goes, and answers how far.
fn fill<S: Source, K: Sink>(joint: &mut Joint<'_, S, K>, buf: &mut [u8]) -> Result<usize, Failed>
    requires is_open { S.is_open joint.old.source.now }
    requires flushed { (K.history joint.old.sink.now).written.buffered ≡ [] }
    requires paced { MayRead S.allows (λ bytes. length bytes < length buf.old) (joined S.history K.history joint.old) }
    ensures same_source { joint.new.source.ghost_name ≡ joint.old.source.ghost_name }
    ensures sink { joint.new.sink ≡ joint.old.sink }
    ensures size { length buf.new ≡ length buf.old }
    ensures filled { MatchResult result
        (λ n. FillsFront n buf.new (S.history joint.old.source.now).left (S.history joint.new.source.now).left)
        (λ _. TakesFewer (length buf.old) (S.history joint.old.source.now).left (S.history joint.new.source.now).left) }
    ensures cause { HasCause (S.history joint.old.source.now).faults (S.history joint.new.source.now).faults result }
    ensures is_open { IfOk result (λ n. n ≡ length buf.new → S.is_open joint.new.source.now) }
{
    let mut taken = 0;
    while taken < buf.len() {
        match joint.read(&mut buf[taken..]) {
            Ok(0) => return Ok(taken),
            Ok(count) => taken += count,
            Err(_) => return Err(Failed),
        }
    }
    Ok(taken)
}

// Fills a buffer with the bytes from an offset on.
fn take_front<S: Source, K: Sink>(
    joint: &mut Joint<'_, S, K>,
    buf: &mut [u8],
    at: u64,
) -> Result<(), PartStop>
    requires place { at + length buf.old < 2 ^ 64 }
    requires is_open { S.is_open joint.old.source.now }
    requires flushed { (K.history joint.old.sink.now).written.buffered ≡ [] }
    requires paced { MayRead S.allows (λ bytes. length bytes < length buf.old) (joined S.history K.history joint.old) }
    ensures same_source { joint.new.source.ghost_name ≡ joint.old.source.ghost_name }
    ensures sink { joint.new.sink ≡ joint.old.sink }
    ensures size { length buf.new ≡ length buf.old }
    ensures front { MatchResult result
        (λ _. Consumes (S.history joint.old.source.now).left (S.history joint.new.source.now).left buf.new
        × ((S.history joint.new.source.now).faults ≡ (S.history joint.old.source.now).faults))
        (StopsFront (length buf.old) at (S.history joint.old.source.now).left (S.history joint.new.source.now).left
        (S.history joint.old.source.now).faults (S.history joint.new.source.now).faults) }
    ensures is_open { OnOk result (S.is_open joint.new.source.now) }
{
    match fill(joint, buf) {
        Ok(count) if count == buf.len() => Ok(()),
        Ok(count) => Err(PartStop::Bad(PartFault {
            kind: PartKind::Short,
            at: at + count as u64,
        })),
        Err(_) => Err(PartStop::Unread),
    }
}

// Reads the words to compare with, and answers the offset after them.
fn read_base<S: Source, K: Sink>(
    part: &mut ReadPart,
    joint: &mut Joint<'_, S, K>,
    limits: Limits,
    at: u64,
) -> Result<u64, PartStop>
    requires frames { limits.frames ≤ 4096 }
    requires base { AreBaseWords limits.frames part.old.base.items }
    requires none { length part.old.base.items ≡ 0 }
    requires place { at ≤ 2 ^ 32 }
    requires is_open { S.is_open joint.old.source.now }
    requires flushed { (K.history joint.old.sink.now).written.buffered ≡ [] }
    requires paced { MayRead S.allows (HasNoFault (base_said limits (part_seen part.old) at))
        (joined S.history K.history joint.old) }
    ensures same_source { joint.new.source.ghost_name ≡ joint.old.source.ghost_name }
    ensures sink { joint.new.sink ≡ joint.old.sink }
    ensures reads { MatchResult result
        (λ next. TakesText (base_said limits (part_seen part.old) at) (runs_said limits (part_seen part.new) next)
        (S.history joint.old.source.now).left (S.history joint.new.source.now).left
        × ((S.history joint.new.source.now).faults ≡ (S.history joint.old.source.now).faults))
        (StopsText (base_said limits (part_seen part.old) at) (S.history joint.old.source.now).left
        (S.history joint.new.source.now).left (S.history joint.old.source.now).faults
        (S.history joint.new.source.now).faults) }
    ensures place { IfOk result (λ next. next ≤ 2 ^ 36) }
    ensures base { IfOk result (λ _. AreBaseWords limits.frames part.new.base.items) }
    ensures few { IfOk result (λ _. length part.new.base.items < 2 ^ 32) }
    ensures way { IfOk result (λ _. part.new.way ≡ part.old.way) }
    ensures marks { IfOk result (λ _. part.new.marks ≡ part.old.marks) }
    ensures is_open { OnOk result (S.is_open joint.new.source.now) }
{
    let mut bytes = [0; 4];
    take_front(joint, &mut bytes, at)?;
    let mut left = number(&bytes, 0);
    let mut least = 0;
    let mut place = at + 4;
    while left > 0 {
        least = next_base(part, joint, limits, least, left, place)?;
        place += 12;
        left -= 1;
    }
    Ok(place)
}

// Reads the next of the words that are left, and answers the least place of the one after it.
fn next_base<S: Source, K: Sink>(
    part: &mut ReadPart,
    joint: &mut Joint<'_, S, K>,
    limits: Limits,
    least: u32,
    left: u32,
    at: u64,
) -> Result<u32, PartStop>
    requires frames { limits.frames ≤ 4096 }
    requires base { AreBaseWords limits.frames part.old.base.items }
    requires left { 0 < left }
    requires place { at ≤ 2 ^ 36 }
    requires is_open { S.is_open joint.old.source.now }
    requires flushed { (K.history joint.old.sink.now).written.buffered ≡ [] }
    requires paced { MayRead S.allows (HasNoFault (base_from limits (part_seen part.old) least left at))
        (joined S.history K.history joint.old) }
    ensures same_source { joint.new.source.ghost_name ≡ joint.old.source.ghost_name }
    ensures sink { joint.new.sink ≡ joint.old.sink }
    ensures reads { MatchResult result
        (λ next. TakesText (base_from limits (part_seen part.old) least left at)
        (base_from limits (part_seen part.new) next (left - 1) (at + 12)) (S.history joint.old.source.now).left
        (S.history joint.new.source.now).left
        × ((S.history joint.new.source.now).faults ≡ (S.history joint.old.source.now).faults))
        (StopsText (base_from limits (part_seen part.old) least left at) (S.history joint.old.source.now).left
        (S.history joint.new.source.now).left (S.history joint.old.source.now).faults
        (S.history joint.new.source.now).faults) }
    ensures base { IfOk result (λ _. AreBaseWords limits.frames part.new.base.items) }
    ensures few { IfOk result (λ _. length part.new.base.items ≤ length part.old.base.items + 1) }
    ensures way { IfOk result (λ _. part.new.way ≡ part.old.way) }
    ensures marks { IfOk result (λ _. part.new.marks ≡ part.old.marks) }
    ensures is_open { OnOk result (S.is_open joint.new.source.now) }
{
    let mut bytes = [0; 12];
    take_front(joint, &mut bytes, at)?;
    let frame = number(&bytes, 0);
    let index = number(&bytes, 1);
    let word = number(&bytes, 2);
    if !is_base(limits, least, frame, index) {
        return Err(PartStop::Bad(PartFault {
            kind: PartKind::Base,
            at,
        }));
    }
    if part.base.push(BaseWord { frame, index, word }).is_err() {
        return Err(PartStop::Memory);
    }
    Ok(1024 * frame + index + 1)
}

// Whether there is such a word, whose place is `least` or more.
fn is_base(limits: Limits, least: u32, frame: u32, index: u32) -> bool
    requires { limits.frames ≤ 4096 }
    ensures value { result ≡ is_base limits least frame index }
    ensures frame { IsTrue result → frame < limits.frames }
    ensures index { IsTrue result → index < 1024 }
{
    frame < limits.frames && index < 1024 && least <= 1024 * frame + index
}

// Reads the way, and answers the offset after it.
fn read_way<S: Source, K: Sink>(
    part: &mut ReadPart,
    joint: &mut Joint<'_, S, K>,
    limits: Limits,
    at: u64,
) -> Result<u64, PartStop>
    requires place { at ≤ 2 ^ 36 }
    requires short { length part.old.way.items ≤ 10000000 }
    requires can { All (λ k. k < limits.choices) part.old.way.items }
    requires is_open { S.is_open joint.old.source.now }
    requires flushed { (K.history joint.old.sink.now).written.buffered ≡ [] }
    requires paced { MayRead S.allows (HasNoFault (runs_said limits (part_seen part.old) at))
        (joined S.history K.history joint.old) }
    ensures same_source { joint.new.source.ghost_name ≡ joint.old.source.ghost_name }
    ensures sink { joint.new.sink ≡ joint.old.sink }
    ensures reads { MatchResult result
        (λ next. TakesText (runs_said limits (part_seen part.old) at) (marks_said (part_seen part.new) next)
        (S.history joint.old.source.now).left (S.history joint.new.source.now).left
        × ((S.history joint.new.source.now).faults ≡ (S.history joint.old.source.now).faults))
        (StopsText (runs_said limits (part_seen part.old) at) (S.history joint.old.source.now).left
        (S.history joint.new.source.now).left (S.history joint.old.source.now).faults
        (S.history joint.new.source.now).faults) }
    ensures place { IfOk result (λ next. next ≤ 2 ^ 41) }
    ensures short { IfOk result (λ _. length part.new.way.items ≤ 10000000) }
    ensures can { IfOk result (λ _. All (λ k. k < limits.choices) part.new.way.items) }
    ensures base { IfOk result (λ _. part.new.base ≡ part.old.base) }
    ensures marks { IfOk result (λ _. part.new.marks ≡ part.old.marks) }
    ensures is_open { OnOk result (S.is_open joint.new.source.now) }
{
    let mut bytes = [0; 4];
    take_front(joint, &mut bytes, at)?;
    let mut left = number(&bytes, 0);
    let mut last = None;
    let mut place = at + 4;
    while left > 0 {
        let choice = next_run(part, joint, limits, last, left, place)?;
        last = Some(choice);
        place += 8;
        left -= 1;
    }
    Ok(place)
}

// Reads the next of the runs that are left, and answers its choice.
fn next_run<S: Source, K: Sink>(
    part: &mut ReadPart,
    joint: &mut Joint<'_, S, K>,
    limits: Limits,
    last: Option<u32>,
    left: u32,
    at: u64,
) -> Result<u32, PartStop>
    requires left { 0 < left }
    requires place { at ≤ 2 ^ 41 }
    requires short { length part.old.way.items ≤ 10000000 }
    requires can { All (λ k. k < limits.choices) part.old.way.items }
    requires is_open { S.is_open joint.old.source.now }
    requires flushed { (K.history joint.old.sink.now).written.buffered ≡ [] }
    requires paced { MayRead S.allows (HasNoFault (runs_from limits (part_seen part.old) last left at))
        (joined S.history K.history joint.old) }
    ensures same_source { joint.new.source.ghost_name ≡ joint.old.source.ghost_name }
    ensures sink { joint.new.sink ≡ joint.old.sink }
    ensures reads { MatchResult result
        (λ choice. TakesText (runs_from limits (part_seen part.old) last left at)
        (runs_from limits (part_seen part.new) (Option.Some choice) (left - 1) (at + 8))
        (S.history joint.old.source.now).left (S.history joint.new.source.now).left
        × ((S.history joint.new.source.now).faults ≡ (S.history joint.old.source.now).faults))
        (StopsText (runs_from limits (part_seen part.old) last left at) (S.history joint.old.source.now).left
        (S.history joint.new.source.now).left (S.history joint.old.source.now).faults
        (S.history joint.new.source.now).faults) }
    ensures short { IfOk result (λ _. length part.new.way.items ≤ 10000000) }
    ensures can { IfOk result (λ _. All (λ k. k < limits.choices) part.new.way.items) }
    ensures base { IfOk result (λ _. part.new.base ≡ part.old.base) }
    ensures marks { IfOk result (λ _. part.new.marks ≡ part.old.marks) }
    ensures is_open { OnOk result (S.is_open joint.new.source.now) }
{
    let mut bytes = [0; 8];
    take_front(joint, &mut bytes, at)?;
    let choice = number(&bytes, 0);
    let count = number(&bytes, 1);
    if !is_run(limits, part.way.len(), last, choice, count) {
        return Err(PartStop::Bad(PartFault {
            kind: PartKind::Way,
            at,
        }));
    }
    part.way.resize(part.way.len() + count as usize, choice)?;
    Ok(choice)
}

// Whether a run may come next in a way of that many choices.
fn is_run(limits: Limits, length: usize, last: Option<u32>, choice: u32, count: u32) -> bool
    requires { length ≤ 10000000 }
    ensures fits { result ≡ fits_way limits length last choice count }
    ensures can { IsTrue result → choice < limits.choices }
{
    choice < limits.choices
        && last != Some(choice)
        && count > 0
        && length + (count as usize) <= MAX_WAY
}

// Reads the marks, to the end of the source.
fn read_marks<S: Source, K: Sink>(
    part: &mut ReadPart,
    joint: &mut Joint<'_, S, K>,
    at: u64,
) -> Result<(), PartStop>
    requires place { at ≤ 2 ^ 41 }
    requires none { part.old.marks.items ≡ [] }
    requires is_open { S.is_open joint.old.source.now }
    requires flushed { (K.history joint.old.sink.now).written.buffered ≡ [] }
    requires paced { MayRead S.allows (HasNoFault (marks_said (part_seen part.old) at))
        (joined S.history K.history joint.old) }
    ensures same_source { joint.new.source.ghost_name ≡ joint.old.source.ghost_name }
    ensures sink { joint.new.sink ≡ joint.old.sink }
    ensures reads { MatchResult result
        (λ _. EndsText (marks_said (part_seen part.old) at) (S.history joint.old.source.now).left
        (S.history joint.new.source.now).left (part_seen part.new)
        × ((S.history joint.new.source.now).faults ≡ (S.history joint.old.source.now).faults))
        (StopsText (marks_said (part_seen part.old) at) (S.history joint.old.source.now).left
        (S.history joint.new.source.now).left (S.history joint.old.source.now).faults
        (S.history joint.new.source.now).faults) }
    ensures base { IfOk result (λ _. part.new.base ≡ part.old.base) }
    ensures way { IfOk result (λ _. part.new.way ≡ part.old.way) }
    ensures few { IfOk result (λ _. length part.new.marks.items < 2 ^ 32 - 1) }
{
    let mut bytes = [0; 4];
    take_front(joint, &mut bytes, at)?;
    let count = number(&bytes, 0);
    if count == u32::MAX {
        return Err(PartStop::Bad(PartFault {
            kind: PartKind::Marks,
            at,
        }));
    }
    let place = read_bits(part, joint, count, at + 4)?;
    end_text(joint, place)
}

// Reads that many marks, and answers the offset after them.
fn read_bits<S: Source, K: Sink>(
    part: &mut ReadPart,
    joint: &mut Joint<'_, S, K>,
    count: u32,
    at: u64,
) -> Result<u64, PartStop>
    requires place { at ≤ 2 ^ 42 }
    requires none { part.old.marks.items ≡ [] }
    requires few { count < 2 ^ 32 - 1 }
    requires is_open { S.is_open joint.old.source.now }
    requires flushed { (K.history joint.old.sink.now).written.buffered ≡ [] }
    requires paced { MayRead S.allows (HasNoFault (marks_from (part_seen part.old) count at))
        (joined S.history K.history joint.old) }
    ensures same_source { joint.new.source.ghost_name ≡ joint.old.source.ghost_name }
    ensures sink { joint.new.sink ≡ joint.old.sink }
    ensures reads { MatchResult result
        (λ next. TakesText (marks_from (part_seen part.old) count at) (marks_from (part_seen part.new) 0 next)
        (S.history joint.old.source.now).left (S.history joint.new.source.now).left
        × ((S.history joint.new.source.now).faults ≡ (S.history joint.old.source.now).faults))
        (StopsText (marks_from (part_seen part.old) count at) (S.history joint.old.source.now).left
        (S.history joint.new.source.now).left (S.history joint.old.source.now).faults
        (S.history joint.new.source.now).faults) }
    ensures base { IfOk result (λ _. part.new.base ≡ part.old.base) }
    ensures way { IfOk result (λ _. part.new.way ≡ part.old.way) }
    ensures few { IfOk result (λ _. length part.new.marks.items ≤ count) }
    ensures is_open { OnOk result (S.is_open joint.new.source.now) }
{
    let mut left = count;
    let mut place = at;
    while left > 0 {
        let size = (left as usize).div_ceil(8).min(CHUNK);
        let mut buffer = [0; CHUNK];
        let chunk = &mut buffer[..size];
        read_chunk(part, joint, left, place, chunk)?;
        place += size as u64;
        left = left.saturating_sub(8 * size as u32);
    }
    Ok(place)
}

// Reads a chunk with the next of the marks that are left.
fn read_chunk<S: Source, K: Sink>(
    part: &mut ReadPart,
    joint: &mut Joint<'_, S, K>,
    left: u32,
    at: u64,
    chunk: &mut [u8],
) -> Result<(), PartStop>
    requires place { at ≤ 2 ^ 43 }
    requires size { length chunk.old ≤ 4096 }
    requires least { 8 * length chunk.old < left + 8 }
    requires is_open { S.is_open joint.old.source.now }
    requires flushed { (K.history joint.old.sink.now).written.buffered ≡ [] }
    requires paced { MayRead S.allows (HasNoFault (marks_from (part_seen part.old) left at))
        (joined S.history K.history joint.old) }
    ensures same_source { joint.new.source.ghost_name ≡ joint.old.source.ghost_name }
    ensures sink { joint.new.sink ≡ joint.old.sink }
    ensures reads { MatchResult result
        (λ _. TakesText (marks_from (part_seen part.old) left at)
        (marks_from (part_seen part.new) (left - 8 * length chunk.old) (at + length chunk.old))
        (S.history joint.old.source.now).left (S.history joint.new.source.now).left
        × ((S.history joint.new.source.now).faults ≡ (S.history joint.old.source.now).faults))
        (StopsText (marks_from (part_seen part.old) left at) (S.history joint.old.source.now).left
        (S.history joint.new.source.now).left (S.history joint.old.source.now).faults
        (S.history joint.new.source.now).faults) }
    ensures base { IfOk result (λ _. part.new.base ≡ part.old.base) }
    ensures way { IfOk result (λ _. part.new.way ≡ part.old.way) }
    ensures few { IfOk result (λ _. length part.new.marks.items + (left - 8 * length chunk.old)
        ≤ length part.old.marks.items + left) }
    ensures is_open { OnOk result (S.is_open joint.new.source.now) }
{
    take_front(joint, chunk, at)?;
    add_chunk(part, left, at, chunk)
}

// Adds the marks of bytes from an offset on, the next of those that are left.
fn add_chunk(part: &mut ReadPart, left: u32, at: u64, bytes: &[u8]) -> Result<(), PartStop>
    requires place { at + length bytes.now < 2 ^ 63 }
    requires least { 8 * length bytes.now < left + 8 }
    ensures adds { MatchResult result
        (λ _. (rest : List ℕ) → marks_from (part_seen part.old) left at (bytes.now ++ rest)
        ≡ marks_from (part_seen part.new) (left - 8 * length bytes.now) (at + length bytes.now) rest)
        (IsMarksStop (part_seen part.old) left at bytes.now) }
    ensures base { IfOk result (λ _. part.new.base ≡ part.old.base) }
    ensures way { IfOk result (λ _. part.new.way ≡ part.old.way) }
    ensures few { IfOk result (λ _. length part.new.marks.items + (left - 8 * length bytes.now)
        ≤ length part.old.marks.items + left) }
{
    let mut bytes = bytes;
    let mut left = left;
    let mut at = at;
    while let [byte, tail @ ..] = bytes {
        add_marks(part, left, at, *byte)?;
        bytes = tail;
        left = left.saturating_sub(8);
        at += 1;
    }
    Ok(())
}

// Adds the marks of a byte at an offset, the next of those that are left.
fn add_marks(part: &mut ReadPart, left: u32, at: u64, byte: u8) -> Result<(), PartStop>
    requires left { 0 < left }
    ensures adds { MatchResult result
        (λ _. (are_spent left byte ≡ true) × (part_seen part.new ≡ with_marks (part_seen part.old) left byte))
        (λ stop. (stop ≡ PartStop.Memory) ⊎ ((are_spent left byte ≡ false)
        × (stop ≡ PartStop.Bad (record { kind = PartKind.Marks; at = at })))) }
    ensures base { IfOk result (λ _. part.new.base ≡ part.old.base) }
    ensures way { IfOk result (λ _. part.new.way ≡ part.old.way) }
    ensures few { IfOk result (λ _. length part.new.marks.items ≡ length part.old.marks.items + min left 8) }
{
    let mut bits = byte;
    for _ in 0..left.min(8) {
        if part.marks.push(bits % 2).is_err() {
            return Err(PartStop::Memory);
        }
        bits /= 2;
    }
    if left < 8 && bits != 0 {
        return Err(PartStop::Bad(PartFault {
            kind: PartKind::Marks,
            at,
        }));
    }
    Ok(())
}

// The end of the source.
fn end_text<S: Source, K: Sink>(joint: &mut Joint<'_, S, K>, at: u64) -> Result<(), PartStop>
    requires is_open { S.is_open joint.old.source.now }
    requires flushed { (K.history joint.old.sink.now).written.buffered ≡ [] }
    requires allowed { S.allows (joined S.history K.history joint.old) }
    ensures same_source { joint.new.source.ghost_name ≡ joint.old.source.ghost_name }
    ensures sink { joint.new.sink ≡ joint.old.sink }
    ensures reads { (p : PartSaid) → MatchResult result
        (λ _. EndsText (marks_from p 0 at) (S.history joint.old.source.now).left (S.history joint.new.source.now).left p
        × ((S.history joint.new.source.now).faults ≡ (S.history joint.old.source.now).faults))
        (StopsText (marks_from p 0 at) (S.history joint.old.source.now).left (S.history joint.new.source.now).left
        (S.history joint.old.source.now).faults (S.history joint.new.source.now).faults) }
{
    let mut byte = [0];
    match joint.read(&mut byte) {
        Ok(0) => Ok(()),
        Ok(_) => Err(PartStop::Bad(PartFault {
            kind: PartKind::Long,
            at,
        })),
        Err(_) => Err(PartStop::Unread),
    }
}
