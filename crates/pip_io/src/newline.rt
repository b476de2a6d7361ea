//! The search for a newline.
ghost use Rattle.std.specs.Prelude.{◌≡◌, ◌≤◌, ◌<◌, ◌==◌, ℕ, true, length, map, take, slice_index};
ghost use Rattle.std.specs.Simd.Lanes.{mask_l};
ghost use Rattle.pip_io.specs.Newlines.{IsFirstNewline};

use memchr::memchr;
use std::simd::prelude::*;

/// The place of the first newline; None if there is none. Most lines end within 32 bytes, which are searched in one
/// step.
#[inline(always)]
pub fn find_newline(bytes: &[u8]) -> Option<usize>
    ensures { IsFirstNewline bytes.now result }
{
    if bytes.len() < 32 {
        return memchr(b'\n', bytes);
    }
    let marks = newlines(bytes);
    if marks != 0 {
        return Some(marks.trailing_zeros() as usize);
    }
    find_beyond(bytes)
}

// Finds it after the first 32 bytes: 32 bytes a step, and then the bytes that are left.
#[inline(never)]
fn find_beyond(bytes: &[u8]) -> Option<usize>
    requires long { 32 ≤ length bytes.now }
    requires plain { (k : ℕ) → k < 32 → (slice_index bytes.now k == 10) ≡ true → ⊥ }
    ensures { IsFirstNewline bytes.now result }
{
    let mut from = 32;
    while bytes.len() - from >= 32 {
        let marks = newlines(&bytes[from..]);
        if marks != 0 {
            return Some(from + marks.trailing_zeros() as usize);
        }
        from += 32;
    }
    match memchr(b'\n', &bytes[from..]) {
        Some(at) => Some(from + at),
        None => None,
    }
}

// Bit k is set where byte k of the first 32 is a newline.
#[inline(always)]
fn newlines(bytes: &[u8]) -> u64
    requires { 32 ≤ length bytes.now }
    ensures { result ≡ mask_l (map (λ b. b == 10) (take 32 bytes.now)) }
{
    u8x32::from_slice(bytes)
        .simd_eq(u8x32::splat(b'\n'))
        .to_bitmask()
}
