ghost use Rattle.std.specs.Prelude.{◌<◌, ◌≤◌};
ghost use Rattle.pip_base.specs.Opening.{CanOpen};
ghost use Rattle.pip_model.specs.Partitions.{HasPartition};

use crate::compare::{holds, same};
use crate::words::check_words;
use pip_base::{Frame, Size, Status, Steps};
use pip_birth::create_partition;
use pip_frames::{Frames, VecFrames};
use pip_grow::{collect, count_to_map, prepare};
use pip_kern::boot;
use pip_mmu::store;
use std::marker::Brand;
use std::process::Abort;
use std::sync::ledger::{Blank, Ledger};
use std::test::Fail;

/// What a partition does, and what it is answered.
#[derive(Clone, Copy)]
pub(crate) enum Step {
    // It stores a word at an address.
    Store(u32, u32),
    // It makes a child of these pages.
    Create([u32; 5]),
    // countToMap.
    Count(u32, u32, Result<u32, Status>),
    // prepare.
    Prepare(u32, u32, u32, Result<u32, Status>),
    // collect.
    Collect(u32, u32, Result<u32, Status>),
}

// Does a step, and compares the answer.
fn check_step<M: Frames, L: Ledger>(
    rt: &impl Abort,
    mem: &mut M,
    caller: Frame,
    step: Step,
    steps: &mut Steps<L>,
)
    requires { HasPartition (M.memory mem.old) caller }
    ensures { HasPartition (M.memory mem.new) caller }
{
    match step {
        Step::Store(va, word) => {
            holds(
                rt,
                store(mem, caller, va, Size::Word, word, steps).is_ok(),
                va,
            );
        }
        Step::Create(pages) => {
            same(
                rt,
                create_partition(mem, caller, &pages, steps),
                Status::Ok,
                "a child",
            );
        }
        Step::Count(d, cv, answer) => {
            same(rt, count_to_map(mem, caller, d, cv, steps), answer, cv);
        }
        Step::Prepare(d, cv, first, answer) => {
            same(rt, prepare(mem, caller, d, cv, first, steps), answer, first);
        }
        Step::Collect(d, cv, answer) => {
            same(rt, collect(mem, caller, d, cv, steps), answer, cv);
        }
    }
}

/// Does one step after another.
pub(crate) fn check_steps<M: Frames, L: Ledger>(
    rt: &impl Abort,
    mem: &mut M,
    caller: Frame,
    list: &[Step],
    steps: &mut Steps<L>,
)
    requires { HasPartition (M.memory mem.old) caller }
    ensures { HasPartition (M.memory mem.new) caller }
{
    for step in list {
        check_step(rt, mem, caller, *step, steps);
    }
}

// Gives the child its table number `k`, from 0 on, of directory index `k + 1`, in the root's next three pages.
fn check_table<M: Frames, L: Ledger>(
    rt: &impl Abort,
    mem: &mut M,
    root: Frame,
    k: u32,
    steps: &mut Steps<L>,
)
    requires stands { HasPartition (M.memory mem.old) root }
    requires few { k < 170 }
    ensures { HasPartition (M.memory mem.new) root }
{
    let first = 0x406000 + 0x3000 * k;
    let cv = 0x400000 * (k + 1);
    let list = [
        Step::Store(first, first + 0x1000),
        Step::Store(first + 0x1000, first + 0x2000),
        Step::Prepare(0x401000, cv, first, Ok(3)),
    ];
    check_steps(rt, mem, root, &list, steps);
}

// Boots, makes a child with `tables` tables, does the steps and compares words.
fn check<M: Frames, L: Ledger>(
    rt: &impl Abort,
    mem: &mut M,
    tables: u32,
    list: &[Step],
    words: &[(u32, u32, u32)],
    blank: Blank,
)
    requires blank { CanOpen blank.name blank.parts L.name L.parts }
    requires few { tables ≤ 170 }
{
    let mut steps: Steps<L> = Steps::new(blank);
    let root = Frame::new(1);
    let child = [0x401000, 0x402000, 0x403000, 0x404000, 0x405000];
    boot(mem, &mut steps);
    check_step(rt, mem, root, Step::Create(child), &mut steps);
    for k in 0..tables {
        check_table(rt, mem, root, k, &mut steps);
    }
    check_steps(rt, mem, root, list, &mut steps);
    check_words(rt, mem, words, &mut steps);
}

// Does that with a vector of frames.
fn check_calls(
    rt: &(impl Abort + AllocGlobal),
    frames: u32,
    tables: u32,
    list: &[Step],
    words: &[(u32, u32, u32)],
) -> Result<(), Fail>
    requires least { 16 ≤ frames }
    requires most { frames ≤ 4096 }
    requires few { tables ≤ 170 }
{
    let mut mem = VecFrames::new(rt.alloc(), frames)?;
    check::<VecFrames, Brand>(rt, &mut mem, tables, list, words, Blank::new(1));
    Ok(())
}

static GIVEN: [Step; 12] = [
    Step::Count(0x401000, 0x10000001, Err(Status::NotAligned)),
    Step::Count(0x401000, 0, Err(Status::NullPage)),
    Step::Count(0x402000, 0x10000000, Err(Status::NotChild)),
    Step::Count(0x401000, 0x10000000, Ok(3)),
    // The word of the last page is no address.
    Step::Store(0x406000, 0x407000),
    Step::Store(0x407000, 0x408000),
    Step::Store(0x408000, 0x406001),
    Step::Prepare(0x401000, 0x10000000, 0x406000, Ok(3)),
    Step::Count(0x401000, 0x103ff000, Ok(0)),
    Step::Prepare(0x401000, 0x103ff000, 1, Ok(0)),
    Step::Prepare(0x401000, 0x10400000, 0x406000, Err(Status::NotFree)),
    Step::Count(0x401000, 0x10400000, Ok(3)),
];

static GIVEN_WORDS: [(u32, u32, u32); 25] = [
    (6, 6, 0x0001201d),
    (6, 7, 0x0001301d),
    (6, 8, 0x0001401d),
    (6, 9, 0x0001501f),
    (7, 1, 0x00401001),
    (7, 6, 0x00401002),
    (7, 7, 0x00401002),
    (7, 8, 0x00401002),
    (7, 9, 0),
    (13, 12, 1),
    (14, 64, 0x00012001),
    (14, 65, 0),
    (15, 64, 0x00013001),
    (16, 64, 0x00014001),
    (17, 0, 0),
    (17, 2, 0x00406000),
    (17, 3, 18),
    (17, 4, 0x00407000),
    (17, 5, 19),
    (17, 6, 0x00408000),
    (17, 7, 20),
    (17, 8, 0),
    (18, 0, 0),
    (19, 0, 0),
    (20, 0, 0),
];

#[test]
fn a_child_is_given_a_table(rt: HostRuntime) -> Result<(), Fail> {
    check_calls(&rt, 32, 0, &GIVEN, &GIVEN_WORDS)
}

static REFUSED: [Step; 13] = [
    Step::Store(0x406000, 0x407000),
    Step::Store(0x407000, 0x406000),
    Step::Prepare(0x401000, 0x10000000, 0x406000, Err(Status::Repeated)),
    Step::Store(0x407000, 0x408004),
    Step::Prepare(0x401000, 0x10000000, 0x406000, Err(Status::NotAligned)),
    Step::Store(0x407000, 0),
    Step::Prepare(0x401000, 0x10000000, 0x406000, Err(Status::NullPage)),
    Step::Store(0x407000, 0x403000),
    Step::Prepare(0x401000, 0x10000000, 0x406000, Err(Status::NotFree)),
    Step::Store(0x407000, 0x10000000),
    Step::Prepare(0x401000, 0x10000000, 0x406000, Err(Status::NotMapped)),
    Step::Prepare(0x401000, 0x10000000, 0x401000, Err(Status::NotFree)),
    Step::Prepare(0x401000, 0x10000000, 0x406001, Err(Status::NotAligned)),
];

static REFUSED_WORDS: [(u32, u32, u32); 7] = [
    (6, 6, 0x0001201f),
    (6, 7, 0x0001301f),
    (7, 6, 0),
    (7, 7, 0),
    (13, 12, 0),
    (14, 64, 0),
    (18, 0, 0x00407000),
];

#[test]
fn a_chain_is_refused_at_its_first_bad_page(rt: HostRuntime) -> Result<(), Fail> {
    check_calls(&rt, 32, 0, &REFUSED, &REFUSED_WORDS)
}

static FULL: [Step; 11] = [
    Step::Count(0x401000, 0x2a800000, Ok(0)),
    Step::Count(0x401000, 0x2ac00000, Ok(4)),
    Step::Store(0x604000, 0x605000),
    Step::Store(0x605000, 0x606000),
    Step::Prepare(0x401000, 0x2ac00000, 0x604000, Err(Status::NullPage)),
    Step::Store(0x606000, 0x604000),
    Step::Prepare(0x401000, 0x2ac00000, 0x604000, Err(Status::Repeated)),
    Step::Store(0x606000, 0x607000),
    Step::Store(0x607000, 0x401000),
    Step::Prepare(0x401000, 0x2ac00000, 0x604000, Ok(4)),
    Step::Count(0x401000, 0x2b000000, Ok(3)),
];

static FULL_WORDS: [(u32, u32, u32); 19] = [
    (6, 519, 0x0021301d),
    (6, 520, 0x0021401f),
    (7, 519, 0x00401002),
    (7, 520, 0),
    (13, 12, 171),
    (14, 171, 0x00210001),
    (15, 171, 0x00211001),
    (16, 171, 0x00212001),
    (17, 0, 531),
    (17, 1, 0x00607000),
    (17, 1016, 0x00601000),
    (17, 1017, 525),
    (531, 0, 0),
    (531, 1, 0),
    (531, 2, 0x00604000),
    (531, 3, 528),
    (531, 6, 0x00606000),
    (531, 7, 530),
    (531, 8, 0),
];

#[test]
fn a_full_list_takes_a_fourth_page(rt: HostRuntime) -> Result<(), Fail> {
    check_calls(&rt, 600, 170, &FULL, &FULL_WORDS)
}

static BACK: [Step; 13] = [
    Step::Store(0x406000, 0x407000),
    Step::Store(0x407000, 0x408000),
    Step::Store(0x408000, 0xffffffff),
    Step::Collect(0x401000, 0x10000000, Err(Status::NoTable)),
    Step::Prepare(0x401000, 0x10000000, 0x406000, Ok(3)),
    Step::Collect(0x401001, 0x10000000, Err(Status::NotAligned)),
    Step::Collect(0x401000, 0, Err(Status::NullPage)),
    Step::Collect(0x406000, 0x10000000, Err(Status::NotChild)),
    Step::Collect(0x401000, 0x10400000, Err(Status::NoTable)),
    Step::Collect(0x401000, 0x103ff000, Ok(0x406000)),
    Step::Count(0x401000, 0x10000000, Ok(3)),
    Step::Prepare(0x401000, 0x20000000, 0x406000, Ok(3)),
    Step::Collect(0x401000, 0x20000000, Ok(0x406000)),
];

static BACK_WORDS: [(u32, u32, u32); 20] = [
    (6, 5, 0x0001101d),
    (6, 6, 0x0001201f),
    (6, 7, 0x0001301f),
    (6, 8, 0x0001401f),
    (7, 1, 0x00401001),
    (7, 6, 0),
    (7, 7, 0),
    (7, 8, 0),
    (13, 12, 0),
    (14, 64, 0),
    (14, 128, 0),
    (15, 128, 0),
    (16, 128, 0),
    (17, 2, 0),
    (17, 3, 0),
    (17, 7, 0),
    (18, 0, 0x00407000),
    (18, 1, 0),
    (19, 0, 0x00408000),
    (20, 0, 0),
];

#[test]
fn pages_come_back_as_a_chain(rt: HostRuntime) -> Result<(), Fail> {
    check_calls(&rt, 32, 0, &BACK, &BACK_WORDS)
}

static LAST: [Step; 8] = [
    Step::Store(0x604000, 0x605000),
    Step::Store(0x605000, 0x606000),
    Step::Store(0x606000, 0x607000),
    Step::Prepare(0x401000, 0x2ac00000, 0x604000, Ok(4)),
    // The table in the first slot: the last one takes its place.
    Step::Collect(0x401000, 0x00400000, Ok(0x406000)),
    Step::Count(0x401000, 0x00400000, Ok(4)),
    Step::Collect(0x401000, 0x2a800000, Ok(0x601000)),
    Step::Count(0x401000, 0x00400000, Ok(3)),
];

static LAST_WORDS: [(u32, u32, u32); 18] = [
    (13, 12, 169),
    (14, 1, 0),
    (14, 170, 0),
    (14, 171, 0x00210001),
    (17, 0, 0),
    (17, 1, 0),
    (17, 2, 0x00604000),
    (17, 3, 528),
    (17, 1016, 0),
    (18, 0, 0x00407000),
    (19, 0, 0x00408000),
    (20, 0, 0x00607000),
    (525, 0, 0x00602000),
    (527, 0, 0),
    (531, 0, 0),
    (6, 519, 0x0021301f),
    (7, 519, 0),
    (7, 516, 0x00401002),
];

#[test]
fn a_list_page_comes_back_with_the_last_table(rt: HostRuntime) -> Result<(), Fail> {
    check_calls(&rt, 600, 170, &LAST, &LAST_WORDS)
}
