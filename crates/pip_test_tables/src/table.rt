ghost use Rattle.std.specs.Prelude.{◌≡◌, ◌<◌, ◌^◌, replicate};
ghost use Rattle.pip_base.specs.Opening.{CanOpen};
ghost use Rattle.pip_base.specs.Memory.{zeros};
ghost use Rattle.pip_table.specs.Table.{IsDirectory};

use crate::compare::{holds, same};
use pip_base::{Frame, Steps, VPage};
use pip_entry::DirWord;
use pip_frames::{Frames, VecFrames};
use pip_table::{
    are_zero, dir, first_index, leaf, next_leaf, next_table, set_dir, set_leaf, table_is_empty,
};
use std::marker::Brand;
use std::process::Abort;
use std::sync::ledger::{Blank, Ledger};
use std::test::Fail;

// Writes a word where there is a table.
fn put<M: Frames, L: Ledger>(mem: &mut M, top: Frame, number: u32, w: u32, steps: &mut Steps<L>)
    requires table { IsDirectory (M.memory mem.old) top }
    requires page { number < 2 ^ 20 }
    ensures { IsDirectory (M.memory mem.new) top }
{
    if let DirWord::Table(_) = dir(mem, top, number / 1024, steps) {
        set_leaf(mem, top, VPage::new(number), w, steps);
    }
}

// Whether the table of an index is empty; true where there is none.
fn is_empty<M: Frames, L: Ledger>(mem: &M, top: Frame, i: u32, steps: &mut Steps<L>) -> bool
    requires table { IsDirectory (M.memory mem.now) top }
    requires index { i < 1024 }
{
    match dir(mem, top, i, steps) {
        DirWord::Table(_) => table_is_empty(mem, top, i, steps),
        DirWord::Empty => true,
    }
}

// Gives the directory in frame 2 two tables.
fn install<M: Frames, L: Ledger>(mem: &mut M, steps: &mut Steps<L>)
    requires { M.memory mem.old ≡ replicate 16 (zeros 1024) }
    ensures { IsDirectory (M.memory mem.new) 2 }
{
    let top = Frame::new(2);
    set_dir(mem, top, 1, DirWord::Table(Frame::new(3)), steps);
    set_dir(mem, top, 1023, DirWord::Table(Frame::new(15)), steps);
}

// Words in two tables.
fn words<M: Frames, L: Ledger>(rt: &impl Abort, mem: &mut M, blank: Blank)
    requires blank { CanOpen blank.name blank.parts L.name L.parts }
    requires fresh { M.memory mem.old ≡ replicate 16 (zeros 1024) }
{
    let mut steps: Steps<L> = Steps::new(blank);
    install(mem, &mut steps);
    let top = Frame::new(2);
    assert_eq!(rt;
        dir(mem, top, 1023, &mut steps),
        DirWord::Table(Frame::new(15))
    );
    for (from, next) in [(0, Some(1)), (1, Some(1)), (2, Some(1023)), (1024, None)] {
        assert_eq!(rt; next_table(mem, top, from, &mut steps), next);
    }
    assert_eq!(rt; next_leaf(mem, top, None, &mut steps), None);
    for (number, word) in [(1024, 7), (1025, 8), (0xfffff, 9), (0xffc00, 0)] {
        put(mem, top, number, word, &mut steps);
        assert_eq!(rt; leaf(mem, top, VPage::new(number), &mut steps), Some(word));
    }
    assert_eq!(rt; leaf(mem, top, VPage::new(1023), &mut steps), None);
    assert_eq!(rt; leaf(mem, top, VPage::new(2047), &mut steps), Some(0));
    let mut after = None;
    for (number, word) in [(1024, 7), (1025, 8), (0xfffff, 9)] {
        let next = next_leaf(mem, top, after, &mut steps);
        assert_eq!(rt; next, Some((VPage::new(number), word)));
        after = Some(VPage::new(number));
    }
    assert_eq!(rt; next_leaf(mem, top, after, &mut steps), None);
    assert!(rt; !is_empty(mem, top, 1023, &mut steps));
    put(mem, top, 0xfffff, 0, &mut steps);
    assert!(rt; is_empty(mem, top, 1023, &mut steps));
}

#[test]
fn a_table_is_a_map(rt: HostRuntime) -> Result<(), Fail> {
    let mut mem = VecFrames::new(rt.alloc(), 16)?;
    words::<VecFrames, Brand>(&rt, &mut mem, Blank::new(1));
    Ok(())
}

// Asserts that a block has zeros alone from an index on, or not, and compares the index of the first word from another
// on that is not 0, with 1024 for none.
fn check_block(rt: &impl Abort, words: &[u32; 1024], zeros: (u32, bool), first: (u32, u32)) {
    assert!(rt; zeros.0 <= 1016 && first.0 <= 1024);
    holds(rt, are_zero(words, zeros.0) == zeros.1, "zeros");
    let found = first_index(words, first.0).unwrap_or(1024);
    same(rt, found, first.1, "the first word");
}

#[test]
fn a_block_has_a_word_that_isnt_0(rt: HostRuntime) {
    let mut words = [0; 1024];
    check_block(&rt, &words, (1016, true), (0, 1024));
    words[1023] = 1;
    check_block(&rt, &words, (1015, true), (0, 1023));
    check_block(&rt, &words, (1016, false), (0, 1023));
    words[9] = 7;
    check_block(&rt, &words, (1016, false), (0, 9));
    check_block(&rt, &words, (1016, false), (9, 9));
    check_block(&rt, &words, (1016, false), (10, 1023));
}
