//! A number that is drawn from a machine.
ghost use Rattle.std.specs.Prelude.{◌<◌};

use pip_base::{Frame, Steps};
use pip_frames::Frames;
use sha2::{Digest, Sha256};
use std::sync::ledger::Ledger;

// Adds the words of frame `f` that aren't 0, each after its place.
fn add_words(hasher: &mut Sha256, f: u32, words: &[u32; 1024])
    requires { f < 4096 }
{
    for (i, word) in words.iter().enumerate() {
        if *word != 0 {
            let place = u64::from(1024 * f + i as u32);
            hasher.update((place << 32 | u64::from(*word)).to_le_bytes());
        }
    }
}

/// A number that is drawn from the words of these frames: eight bytes of the SHA-256 of all that aren't 0, with their
/// places. No clause says which it is.
pub fn seed_of<M: Frames, L: Ledger>(frames: &M, steps: &mut Steps<L>) -> u64 {
    let mut hasher = Sha256::new();
    for f in 0..frames.count() {
        add_words(&mut hasher, f, frames.frame(Frame::new(f), steps));
    }
    let sum = hasher.finalize();
    u64::from_le_bytes([
        sum[0], sum[1], sum[2], sum[3], sum[4], sum[5], sum[6], sum[7],
    ])
}
