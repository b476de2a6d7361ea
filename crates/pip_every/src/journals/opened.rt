//! Which parts of a frame were opened.
ghost use Rattle.pip_every.specs.Tracks.{SameWords, TracksWords};
ghost use Rattle.std.specs.Prelude.{◌≡◌, ◌+◌, ◌<◌, ◌≤◌, ℕ, IfOk, IsTrue, false, length, replicate};
ghost use Rattle.std.specs.Prelude.{slice_index_or, true};

use std::alloc::{AllocError, Global};

/// How many words a part has.
pub(crate) const PART: usize = 32;

/// Whether each part of a frame was opened.
pub(crate) type Parts = [bool; 32];

/// Parts that are all opened, or all not.
pub(crate) fn all_parts(opened: bool) -> Parts
    ensures { result ≡ replicate 32 opened }
{
    [opened; 32]
}

/// Whether all parts were opened.
pub(crate) fn are_all(parts: &Parts) -> bool {
    *parts == [true; 32]
}

/// All parts of `count` frames, opened. The only error is that memory is out.
pub(crate) fn all_frames(alloc: Global, count: usize) -> Result<Vec<Parts>, AllocError>
    ensures { IfOk result (λ v. v.items ≡ replicate count (replicate 32 true)) }
{
    let mut frames = Vec::with_capacity(alloc, count)?;
    for _ in 0..count {
        frames.push(all_parts(true))?;
    }
    Ok(frames)
}

/// How many places are tested together.
const TOGETHER: usize = 16;

// Whether none of these places, `TOGETHER` of them, was opened.
fn are_shut(opened: &[bool]) -> bool
    requires { length opened.now ≡ 16 }
    ensures { IsTrue result → opened.now ≡ replicate 16 false }
{
    let shut = [false; TOGETHER];
    opened == shut.as_slice()
}

// A place from `from` on before which none was opened. It passes `TOGETHER` places at a time.
fn pass_shut(opened: &[bool], from: usize) -> usize
    requires { from ≤ length opened.now }
    ensures from { from ≤ result }
    ensures end { result ≤ length opened.now }
    ensures shut { (k : ℕ) → from ≤ k → k < result → slice_index_or opened.now k true ≡ false }
{
    let mut at = from;
    while opened.len() - at >= TOGETHER && are_shut(&opened[at..at + TOGETHER]) {
        at += TOGETHER;
    }
    at
}

/// The first place from `from` on that was opened, or the end where there is none.
pub(crate) fn next_opened(opened: &[bool], from: usize) -> usize
    requires { from ≤ length opened.now }
    ensures from { from ≤ result }
    ensures end { result ≤ length opened.now }
    ensures shut { (k : ℕ) → from ≤ k → k < result → slice_index_or opened.now k true ≡ false }
    ensures opened { result < length opened.now → slice_index_or opened.now result false ≡ true }
{
    let mut at = pass_shut(opened, from);
    while at < opened.len() && !opened[at] {
        at += 1;
    }
    at
}

// Whether the words of some parts from `part` on are the same.
fn are_same(now: &[u32; 1024], base: &[u32; 1024], part: usize, count: usize) -> bool
    requires { part + count ≤ 32 }
    ensures { IsTrue result → SameWords base.now now.now part (part + count) }
{
    let start = part * PART;
    let end = start + count * PART;
    now[start..end] == base[start..end]
}

// How many parts are compared at once, where they may be the same.
const PARTS_AT_ONCE: usize = 8;

// How many parts from `part` on have the same words: 0, 1 or `PARTS_AT_ONCE`. There may be more.
fn count_same(now: &[u32; 1024], base: &[u32; 1024], part: usize) -> usize
    requires { part < 32 }
    ensures end { part + result ≤ 32 }
    ensures same { SameWords base.now now.now part (part + result) }
{
    if part % PARTS_AT_ONCE == 0 && are_same(now, base, part, PARTS_AT_ONCE) {
        return PARTS_AT_ONCE;
    }
    if are_same(now, base, part, 1) { 1 } else { 0 }
}

/// The first part from `from` on that was opened and has other words than `base`, or the end where there is none. The
/// words differ in opened parts only.
pub(crate) fn next_other(now: &[u32; 1024], base: &[u32; 1024], parts: &Parts, from: usize) -> usize
    requires from { from ≤ 32 }
    requires parts { TracksWords base.now now.now parts.now }
    ensures from { from ≤ result }
    ensures end { result ≤ 32 }
    ensures same { SameWords base.now now.now from result }
{
    let mut part = next_opened(parts, from);
    while part < parts.len() {
        let same = count_same(now, base, part);
        if same == 0 {
            break;
        }
        part = next_opened(parts, part + same);
    }
    part
}
