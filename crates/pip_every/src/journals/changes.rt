//! The words of a frame that differ from its first ones.
ghost use Rattle.std.specs.Prelude.{◌≡◌, ℕ, ◌+◌, ◌*◌, ◌<◌, ◌≤◌, ◌++◌, IfOk, length};
ghost use Rattle.pip_base.specs.Memory.{Memory, frame_at};
ghost use Rattle.pip_every.specs.Changes.{changes_from, words_below};
ghost use Rattle.pip_every.specs.Tracks.{TracksWords};

use crate::journals::opened::{PART, Parts, next_other};
use std::alloc::AllocError;

// Adds the words of a part that differ from its first ones, each after its place.
fn add_part(
    now: &[u32; 1024],
    first: &[u32; 1024],
    frame: u32,
    start: usize,
    to: &mut Vec<u32>,
) -> Result<(), AllocError>
    requires frame { frame < 4096 }
    requires start { start + PART ≤ 1024 }
    ensures { IfOk result (λ _. (a m : Memory) → frame_at a frame ≡ first.now → frame_at m frame ≡ now.now →
        to.new.items ≡ to.old.items ++ changes_from a m (1024 * frame + start) PART) }
{
    for i in start..start + PART {
        if now[i] != first[i] {
            to.push(frame * 1024 + i as u32)?;
            to.push(now[i])?;
        }
    }
    Ok(())
}

// How many words come before the first place from `place` on. Each word comes after its place, and the places rise.
fn count_below(words: &[u32], place: u32) -> usize
    ensures count { result ≡ words_below place words.now }
    ensures most { result ≤ length words.now }
{
    let mut at = 0;
    while at + 1 < words.len() && words[at] < place {
        at += 2;
    }
    at
}

// The words from the first place from `place` on.
fn words_from(words: &[u32], place: u32) -> &[u32]
    ensures { (a b : Memory) (k n r : ℕ) → words.now ≡ changes_from a b k (n + r) → place ≡ k + n →
        result.now ≡ changes_from a b (k + n) r }
{
    &words[count_below(words, place)..]
}

/// Adds the words of the places below `place`, and answers the others. Each word comes after its place, and the places
/// rise.
pub(crate) fn add_below<'w>(
    words: &'w [u32],
    place: u32,
    to: &mut Vec<u32>,
) -> Result<&'w [u32], AllocError>
    ensures { IfOk result (λ rest. (a b : Memory) (k n r : ℕ) → words.now ≡ changes_from a b k (n + r) →
        place ≡ k + n →
        (to.new.items ≡ to.old.items ++ changes_from a b k n) × (rest.now ≡ changes_from a b (k + n) r)) }
{
    let count = count_below(words, place);
    to.extend_from_slice(&words[..count])?;
    Ok(&words[count..])
}

/// Adds the words of a frame that differ from its first ones, each after its place, where those of `base` that differ
/// from the first ones are known: `words` has them, and those of the frames after it, which are answered. The words
/// differ from those of `base` in opened parts only.
pub(crate) fn add_frame<'w>(
    now: &[u32; 1024],
    base: &[u32; 1024],
    first: &[u32; 1024],
    parts: &Parts,
    frame: u32,
    words: &'w [u32],
    to: &mut Vec<u32>,
) -> Result<&'w [u32], AllocError>
    requires frame { frame < 4096 }
    requires parts { TracksWords base.now now.now parts.now }
    ensures { IfOk result (λ rest. (a b m : Memory) (r : ℕ) → frame_at a frame ≡ first.now →
        frame_at b frame ≡ base.now → frame_at m frame ≡ now.now →
        words.now ≡ changes_from a b (1024 * frame) (1024 + r) →
        (to.new.items ≡ to.old.items ++ changes_from a m (1024 * frame) 1024) ×
        (rest.now ≡ changes_from a b (1024 * frame + 1024) r)) }
{
    let mut part = next_other(now, base, parts, 0);
    let mut rest = add_below(words, frame * 1024 + (part * PART) as u32, to)?;
    while part < parts.len() {
        rest = words_from(rest, frame * 1024 + (part * PART + PART) as u32);
        add_part(now, first, frame, part * PART, to)?;
        part = next_other(now, base, parts, part + 1);
        rest = add_below(rest, frame * 1024 + (part * PART) as u32, to)?;
    }
    Ok(rest)
}
