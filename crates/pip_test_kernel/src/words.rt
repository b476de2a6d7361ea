//! Words of a memory.
use pip_base::{Frame, Steps};
use pip_frames::Frames;
use std::process::Abort;
use std::sync::ledger::Ledger;

// Compares a word of a frame.
fn check_word<M: Frames, L: Ledger>(
    rt: &impl Abort,
    mem: &M,
    place: (u32, u32),
    word: u32,
    steps: &mut Steps<L>,
) {
    let (f, i) = place;
    assert!(rt; f < 4096 && i < 1024);
    assert!(rt; f < mem.count());
    let found = mem.word(Frame::new(f), i, steps);
    assert_eq!(rt; found, word, "frame {f}, word {i}");
}

/// Compares words: frame, index and word of each.
pub(crate) fn check_words<M: Frames, L: Ledger>(
    rt: &impl Abort,
    mem: &M,
    words: &[(u32, u32, u32)],
    steps: &mut Steps<L>,
) {
    for (f, i, w) in words {
        check_word(rt, mem, (*f, *i), *w, steps);
    }
}
