ghost use Rattle.std.specs.Prelude.{◌<◌, ◌≤◌, length};
ghost use Rattle.pip_base.specs.Opening.{CanOpen};
ghost use Rattle.pip_model.specs.Partitions.{HasPartition};

use crate::compare::{holds, same};
use crate::words::check_words;
use expected::expected_word;
use pip_base::{Frame, Steps, VPage};
use pip_frames::{Frames, VecFrames};
use pip_kern::{boot, child_at, hide, is_below, parent_of, show};
use std::alloc::{AllocError, Global};
use std::marker::Brand;
use std::process::Abort;
use std::sync::ledger::{Blank, Ledger};
use std::test::Fail;

mod expected;

// Writes words into frames of every kind that boot leaves 0.
fn soil<M: Frames>(mem: &mut M)
    requires { 16 ≤ length (M.memory mem.old) }
{
    mem.set_word(Frame::new(0), 9, 0xffffffff);
    mem.set_word(Frame::new(1), 20, 0xffffffff);
    mem.set_word(Frame::new(4), 7, 0xffffffff);
    mem.set_word(Frame::new(5), 0, 0xffffffff);
    mem.set_word(Frame::new(15), 1023, 0xffffffff);
}

// The root is its own parent, is below itself alone, and has no child.
fn check_root<M: Frames, L: Ledger>(rt: &impl Abort, mem: &M, root: Frame, steps: &mut Steps<L>)
    requires { HasPartition (M.memory mem.now) root }
{
    let parent = parent_of(mem, root, steps);
    same(rt, parent, root, "the root's parent");
    let child = child_at(mem, root, 0x400000, steps);
    holds(rt, child.is_none(), "no child");
    let own = is_below(mem, root, root, steps);
    holds(rt, own, "the root");
    let other = is_below(mem, root, Frame::new(2), steps);
    holds(rt, !other, "another frame");
}

// Boots, and compares words.
fn check<M: Frames, L: Ledger>(
    rt: &impl Abort,
    mem: &mut M,
    words: &[(u32, u32, u32)],
    blank: Blank,
)
    requires blank { CanOpen blank.name blank.parts L.name L.parts }
{
    let mut steps: Steps<L> = Steps::new(blank);
    soil(mem);
    boot(mem, &mut steps);
    check_root(rt, mem, Frame::new(1), &mut steps);
    check_words(rt, mem, words, &mut steps);
}

// Boots a memory of `n` frames that held other words, and checks the root and some words.
fn check_booted(
    rt: &impl Abort,
    alloc: Global,
    n: u32,
    words: &[(u32, u32, u32)],
) -> Result<(), AllocError>
    requires least { 16 ≤ n }
    requires most { n ≤ 4096 }
{
    let mut mem = VecFrames::new(alloc, n)?;
    check::<VecFrames, Brand>(rt, &mut mem, words, Blank::new(1));
    Ok(())
}

// Words that every number of frames has.
const ALWAYS: [(u32, u32, u32); 12] = [
    (0, 9, 0),
    (1, 0, 0),
    (1, 1, 1),
    (1, 3, 2),
    (1, 11, 1),
    (1, 20, 0),
    (2, 1, 0x00006001),
    (4, 1, 0x00008001),
    (4, 7, 0),
    (5, 0, 0),
    (5, 3, 6),
    (15, 1023, 0),
];

const WITH_16: [(u32, u32, u32); 6] = [
    (1, 12, 2),
    (2, 1023, 0x00009001),
    (6, 0, 0x0000c01f),
    (6, 2, 0x0000e01f),
    (6, 3, 0),
    (9, 1023, 0x0000f01f),
];

const WITH_32: [(u32, u32, u32); 5] = [
    (1, 12, 2),
    (2, 1023, 0x00009001),
    (5, 13, 11),
    (6, 0, 0x0000c01f),
    (9, 1023, 0x0001f01f),
];

const WITH_1038: [(u32, u32, u32); 10] = [
    (1, 12, 3),
    (2, 2, 0x00009001),
    (2, 1023, 0x0000c001),
    (5, 19, 14),
    (5, 20, 0),
    (6, 0, 0x0000f01f),
    (6, 1021, 0x0040c01f),
    (6, 1022, 0),
    (9, 0, 0),
    (12, 1023, 0x0040d01f),
];

// Numbers of frames, and words that are there.
static BOOTED: [(u32, &[(u32, u32, u32)]); 5] = [
    (16, &ALWAYS),
    (16, &WITH_16),
    (32, &WITH_32),
    (1038, &WITH_1038),
    (1038, &ALWAYS),
];

#[test]
fn the_root_has_all_frames(rt: HostRuntime) -> Result<(), Fail> {
    for (n, words) in &BOOTED {
        assert!(rt; 16 <= *n && *n <= 4096);
        check_booted(&rt, rt.alloc(), *n, words)?;
    }
    Ok(())
}

// Compares the words of a frame with those of the formats.
fn check_frame<M: Frames, L: Ledger>(rt: &impl Abort, mem: &M, f: u32, steps: &mut Steps<L>)
    requires { f < length (M.memory mem.now) }
{
    let n = mem.count();
    for i in 0..1024 {
        let word = mem.word(Frame::new(f), i, steps);
        assert_eq!(rt; word, expected_word(n, f, i), "frame {f}, word {i}");
    }
}

// Boots, and compares each word of each frame with those of the formats.
fn check_each<M: Frames, L: Ledger>(rt: &impl Abort, mem: &mut M, blank: Blank)
    requires blank { CanOpen blank.name blank.parts L.name L.parts }
{
    let mut steps: Steps<L> = Steps::new(blank);
    soil(mem);
    boot(mem, &mut steps);
    for f in 0..mem.count() {
        check_frame(rt, mem, f, &mut steps);
    }
}

#[test]
fn boot_lays_out_every_word(rt: HostRuntime) -> Result<(), Fail> {
    for n in [16, 1037, 1038, 4096] {
        let mut mem = VecFrames::new(rt.alloc(), n)?;
        check_each::<VecFrames, Brand>(&rt, &mut mem, Blank::new(1));
    }
    Ok(())
}

// Boots, hides the root's second page and opens it again, and compares words.
fn check_hiding<M: Frames, L: Ledger>(
    rt: &impl Abort,
    mem: &mut M,
    hidden: &[(u32, u32, u32)],
    open: &[(u32, u32, u32)],
    blank: Blank,
)
    requires blank { CanOpen blank.name blank.parts L.name L.parts }
{
    let mut steps: Steps<L> = Steps::new(blank);
    let root = Frame::new(1);
    let second = VPage::new(0x401);
    boot(mem, &mut steps);
    check_words(rt, mem, open, &mut steps);
    hide(mem, root, second, &mut steps);
    check_words(rt, mem, hidden, &mut steps);
    show(mem, root, second, &mut steps);
    check_words(rt, mem, open, &mut steps);
}

#[test]
fn a_page_is_hidden_and_opened_again(rt: HostRuntime) -> Result<(), Fail> {
    let hidden = [(6, 0, 0x0000c01f), (6, 1, 0x0000d01d), (6, 2, 0x0000e01f)];
    let open = [(6, 0, 0x0000c01f), (6, 1, 0x0000d01f), (6, 2, 0x0000e01f)];
    let mut mem = VecFrames::new(rt.alloc(), 16)?;
    check_hiding::<VecFrames, Brand>(&rt, &mut mem, &hidden, &open, Blank::new(1));
    Ok(())
}
