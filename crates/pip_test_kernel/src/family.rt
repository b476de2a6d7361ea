ghost use Rattle.std.specs.Prelude.{◌<◌};
ghost use Rattle.pip_base.specs.Opening.{CanOpen};
ghost use Rattle.pip_model.specs.Partitions.{HasPartition};

use crate::grow::{Step, check_steps};
use crate::lend::{check_adds, check_remove};
use pip_base::{Frame, Status, Steps};
use pip_frames::{Frames, VecFrames};
use pip_kern::{boot, check_child, is_below, parent_of};
use std::alloc::{AllocError, Global};
use std::marker::Brand;
use std::process::Abort;
use std::sync::ledger::{Blank, Ledger};
use std::test::Fail;

// The root makes a child.
const A_CHILD: [Step; 1] = [Step::Create([0x401000, 0x402000, 0x403000, 0x404000, 0x405000])];

// The root makes a child, and gives it the table of the addresses from 0xffc00000 on.
const A_CHILD_WITH_A_TABLE: [Step; 4] = [
    Step::Create([0x401000, 0x402000, 0x403000, 0x404000, 0x405000]),
    Step::Store(0x406000, 0x407000),
    Step::Store(0x407000, 0x408000),
    Step::Prepare(0x401000, 0xfffff000, 0x406000, Ok(3)),
];

// The root lends it six pages, of which the last is to be read alone.
const LOANS: [([u32; 4], Status); 6] = [
    ([0x40a000, 0x401000, 0xffc0a000, 3], Status::Ok),
    ([0x40b000, 0x401000, 0xffc0b000, 3], Status::Ok),
    ([0x40c000, 0x401000, 0xffc0c000, 3], Status::Ok),
    ([0x40d000, 0x401000, 0xffc0d000, 3], Status::Ok),
    ([0x40e000, 0x401000, 0xffc0e000, 3], Status::Ok),
    ([0x40f000, 0x401000, 0xffc0f000, 1], Status::Ok),
];

// The child makes a child of the first five.
const A_GRANDCHILD: [Step; 1] = [Step::Create([
    0xffc0a000, 0xffc0b000, 0xffc0c000, 0xffc0d000, 0xffc0e000,
])];

// The child whose descriptor the caller has at the address `d`.
fn child_of<M: Frames, L: Ledger>(
    rt: &impl Abort,
    mem: &M,
    caller: Frame,
    d: u32,
    steps: &mut Steps<L>,
) -> Frame
    requires { HasPartition (M.memory mem.now) caller }
    ensures { HasPartition (M.memory mem.now) result }
{
    check_child(mem, caller, &[d], d, steps).expect(rt, "a child")
}

// Boots, makes a child of the root in frame 13, and compares who is below whom.
fn check_child_below<M: Frames, L: Ledger>(rt: &impl Abort, mem: &mut M, blank: Blank)
    requires blank { CanOpen blank.name blank.parts L.name L.parts }
{
    let mut steps: Steps<L> = Steps::new(blank);
    let root = Frame::new(1);
    boot(mem, &mut steps);
    check_steps(rt, mem, root, &A_CHILD, &mut steps);
    let child = child_of(rt, mem, root, 0x401000, &mut steps);
    assert_eq!(rt; child, Frame::new(13));
    assert!(rt; is_below(mem, child, root, &mut steps));
    assert!(rt; !is_below(mem, root, child, &mut steps));
}

#[test]
fn a_child_is_below_the_root(rt: HostRuntime) -> Result<(), Fail> {
    let mut mem = VecFrames::new(rt.alloc(), 32)?;
    check_child_below::<VecFrames, Brand>(&rt, &mut mem, Blank::new(1));
    Ok(())
}

// The root makes a child in frame 13 and lends it pages, of which the child makes a child in frame 22.
fn make_family<M: Frames, L: Ledger>(
    rt: &impl Abort,
    mem: &mut M,
    root: Frame,
    steps: &mut Steps<L>,
)
    requires { HasPartition (M.memory mem.old) root }
    ensures { HasPartition (M.memory mem.new) root }
{
    check_steps(rt, mem, root, &A_CHILD_WITH_A_TABLE, steps);
    check_adds(rt, mem, root, &LOANS, steps);
    let child = child_of(rt, mem, root, 0x401000, steps);
    assert_eq!(rt; child, Frame::new(13));
    check_steps(rt, mem, child, &A_GRANDCHILD, steps);
    let grandchild = child_of(rt, mem, child, 0xffc0a000, steps);
    assert_eq!(rt; grandchild, Frame::new(22));
    let parent = parent_of(mem, child, steps);
    assert!(rt; parent == root);
}

// Each word of each frame.
fn all_words<M: Frames, L: Ledger>(
    alloc: Global,
    mem: &M,
    steps: &mut Steps<L>,
) -> Result<Vec<u32>, AllocError> {
    let mut words = Vec::new(alloc);
    for f in 0..mem.count() {
        words.extend_from_slice(mem.frame(Frame::new(f), steps))?;
    }
    Ok(words)
}

// Boots 64 frames and makes the family. The root asks back the page that its child gave the grandchild, and then the
// one that the child gave nobody.
fn check_asked_back<M: Frames, L: Ledger>(
    rt: &impl Abort,
    alloc: Global,
    mem: &mut M,
    blank: Blank,
) -> Result<(), AllocError>
    requires blank { CanOpen blank.name blank.parts L.name L.parts }
{
    let mut steps: Steps<L> = Steps::new(blank);
    let root = Frame::new(1);
    boot(mem, &mut steps);
    make_family(rt, mem, root, &mut steps);
    let before = all_words(alloc, mem, &mut steps)?;
    assert_eq!(rt; before.len(), 65536);
    check_remove(
        rt,
        mem,
        root,
        &[0x401000, 0xffc0a000],
        Status::LentOn,
        &mut steps,
    );
    let refused = all_words(alloc, mem, &mut steps)?;
    assert!(rt; refused.as_slice() == before.as_slice());
    check_remove(
        rt,
        mem,
        root,
        &[0x401000, 0xffc0f000],
        Status::Ok,
        &mut steps,
    );
    let taken = all_words(alloc, mem, &mut steps)?;
    assert!(rt; taken.as_slice() != before.as_slice());
    Ok(())
}

#[test]
fn a_page_lent_on_is_refused_and_no_word_changes(rt: HostRuntime) -> Result<(), Fail> {
    let mut mem = VecFrames::new(rt.alloc(), 64)?;
    check_asked_back::<VecFrames, Brand>(&rt, rt.alloc(), &mut mem, Blank::new(1))?;
    Ok(())
}
