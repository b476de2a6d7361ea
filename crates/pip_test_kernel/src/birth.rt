ghost use Rattle.std.specs.Prelude.{◌≡◌, ◌<◌, length};
ghost use Rattle.pip_base.specs.Opening.{CanOpen};
ghost use Rattle.pip_model.specs.Partitions.{HasPartition};

use crate::compare::same;
use crate::words::check_words;
use arrayvec::ArrayVec;
use pip_base::{Frame, Status, Steps};
use pip_birth::{create_partition, delete_partition};
use pip_frames::{Frames, VecFrames};
use pip_kern::boot;
use std::marker::Brand;
use std::process::Abort;
use std::sync::ledger::{Blank, Ledger};
use std::test::Fail;

// The pages of the root's child.
const CHILD: [u32; 5] = [0x401000, 0x402000, 0x403000, 0x404000, 0x405000];

// Makes a call, and compares the status.
fn check_call<M: Frames, L: Ledger>(
    rt: &impl Abort,
    mem: &mut M,
    caller: Frame,
    pages: &[u32; 5],
    status: Status,
    steps: &mut Steps<L>,
)
    requires { HasPartition (M.memory mem.old) caller }
    ensures { HasPartition (M.memory mem.new) caller }
{
    same(
        rt,
        create_partition(mem, caller, pages, steps),
        status,
        pages[0],
    );
}

// Makes the calls one after another.
fn check_calls<M: Frames, L: Ledger>(
    rt: &impl Abort,
    mem: &mut M,
    caller: Frame,
    calls: &[([u32; 5], Status)],
    steps: &mut Steps<L>,
)
    requires { HasPartition (M.memory mem.old) caller }
{
    for (pages, status) in calls {
        check_call(rt, mem, caller, pages, *status, steps);
    }
}

// Boots 32 frames, writes a word into the root's page at 0x402000, makes the calls for the root and compares words.
fn check<M: Frames, L: Ledger>(
    rt: &impl Abort,
    mem: &mut M,
    calls: &[([u32; 5], Status)],
    words: &[(u32, u32, u32)],
    blank: Blank,
)
    requires frames { length (M.memory mem.old) ≡ 32 }
    requires blank { CanOpen blank.name blank.parts L.name L.parts }
{
    let mut steps: Steps<L> = Steps::new(blank);
    boot(mem, &mut steps);
    mem.set_word(Frame::new(14), 7, 0xffffffff);
    check_calls(rt, mem, Frame::new(1), calls, &mut steps);
    check_words(rt, mem, words, &mut steps);
}

static MADE_WORDS: [(u32, u32, u32); 31] = [
    (6, 0, 0x0000c01f),
    (6, 1, 0x0000d01d),
    (6, 2, 0x0000e01d),
    (6, 5, 0x0001101d),
    (6, 7, 0x0001301d),
    (6, 11, 0x0001701f),
    (7, 0, 0),
    (7, 1, 0x00401001),
    (7, 2, 0x00401002),
    (7, 5, 0x00401002),
    (7, 6, 0x00407002),
    (7, 7, 0x00407001),
    (7, 11, 0),
    (8, 1, 0),
    (13, 0, 0x00401000),
    (13, 1, 13),
    (13, 2, 0x00402000),
    (13, 3, 14),
    (13, 4, 0x00403000),
    (13, 5, 15),
    (13, 6, 0x00404000),
    (13, 7, 16),
    (13, 8, 0x00405000),
    (13, 9, 17),
    (13, 10, 0),
    (13, 11, 1),
    (13, 12, 0),
    (14, 7, 0),
    (19, 0, 0x00407000),
    (19, 3, 18),
    (19, 11, 1),
];

static MADE: [([u32; 5], Status); 9] = [
    ([0x401001, 0x402000, 0, 0, 0x10000000], Status::NotAligned),
    ([0x401000, 0x402000, 0, 0, 0x10000000], Status::NullPage),
    (
        [0x401000, 0x402000, 0x10000000, 0x402000, 0x405000],
        Status::Repeated,
    ),
    (
        [0x401000, 0x402000, 0x403000, 0x404000, 0x10000000],
        Status::NotMapped,
    ),
    (CHILD, Status::Ok),
    (CHILD, Status::NotFree),
    (
        [0x407000, 0x406000, 0x408000, 0x10000000, 0x401000],
        Status::NotMapped,
    ),
    (
        [0x407000, 0x406000, 0x408000, 0x409000, 0x405000],
        Status::NotFree,
    ),
    (
        [0x407000, 0x406000, 0x408000, 0x409000, 0x40a000],
        Status::Ok,
    ),
];

#[test]
fn the_root_makes_two_partitions(rt: HostRuntime) -> Result<(), Fail> {
    let mut mem = VecFrames::new(rt.alloc(), 32)?;
    check::<VecFrames, Brand>(&rt, &mut mem, &MADE, &MADE_WORDS, Blank::new(1));
    Ok(())
}

// Deletes for the caller, while it runs itself, and compares the status.
fn check_delete<M: Frames, L: Ledger>(
    rt: &impl Abort,
    mem: &mut M,
    caller: Frame,
    d: u32,
    status: Status,
    steps: &mut Steps<L>,
)
    requires { HasPartition (M.memory mem.old) caller }
    ensures { HasPartition (M.memory mem.new) caller }
{
    let running = ArrayVec::from([caller, caller, caller, caller]);
    same(
        rt,
        delete_partition(mem, caller, d, &running, steps),
        status,
        d,
    );
}

// Boots 32 frames, makes a child of the root, tries two addresses, deletes the child, and compares words.
fn check_end<M: Frames, L: Ledger>(
    rt: &impl Abort,
    mem: &mut M,
    child: &[u32; 5],
    words: &[(u32, u32, u32)],
    blank: Blank,
)
    requires frames { length (M.memory mem.old) ≡ 32 }
    requires blank { CanOpen blank.name blank.parts L.name L.parts }
{
    let mut steps: Steps<L> = Steps::new(blank);
    boot(mem, &mut steps);
    let root = Frame::new(1);
    check_call(rt, mem, root, child, Status::Ok, &mut steps);
    check_delete(rt, mem, root, 0x401001, Status::NotAligned, &mut steps);
    check_delete(rt, mem, root, 0, Status::NullPage, &mut steps);
    check_delete(rt, mem, root, 0x402000, Status::NotChild, &mut steps);
    check_delete(rt, mem, root, 0x401000, Status::Ok, &mut steps);
    check_delete(rt, mem, root, 0x401000, Status::NotChild, &mut steps);
    check_words(rt, mem, words, &mut steps);
}

static ENDED_WORDS: [(u32, u32, u32); 7] = [
    (6, 1, 0x0000d01f),
    (6, 2, 0x0000e01f),
    (6, 5, 0x0001101f),
    (7, 1, 0),
    (7, 5, 0),
    (13, 0, 0),
    (13, 11, 0),
];

#[test]
fn the_root_ends_a_partition(rt: HostRuntime) -> Result<(), Fail> {
    let mut mem = VecFrames::new(rt.alloc(), 32)?;
    check_end::<VecFrames, Brand>(&rt, &mut mem, &CHILD, &ENDED_WORDS, Blank::new(1));
    Ok(())
}
