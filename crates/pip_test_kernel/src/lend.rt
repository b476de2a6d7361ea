ghost use Rattle.std.specs.Prelude.{◌≡◌, ◌<◌, length};
ghost use Rattle.pip_base.specs.Opening.{CanOpen};
ghost use Rattle.pip_model.specs.Partitions.{HasPartition};

use crate::compare::same;
use pip_base::{Frame, Status, Steps};
use pip_birth::create_partition;
use pip_frames::{Frames, VecFrames};
use pip_kern::boot;
use pip_lend::{add_vaddr, mapped_in_child, remove_vaddr};
use std::marker::Brand;
use std::process::Abort;
use std::sync::ledger::{Blank, Ledger};
use std::test::Fail;

// The pages of the root's child.
const CHILD: [u32; 5] = [0x401000, 0x402000, 0x403000, 0x404000, 0x405000];

// Compares the answers of mappedInChild.
fn check_asks<M: Frames, L: Ledger>(
    rt: &impl Abort,
    mem: &M,
    caller: Frame,
    asks: &[(u32, Result<u32, Status>)],
    steps: &mut Steps<L>,
)
    requires { HasPartition (M.memory mem.now) caller }
{
    for (v, answer) in asks {
        same(rt, mapped_in_child(mem, caller, *v, steps), *answer, *v);
    }
}

// Makes a call of addVAddr, and compares the status.
fn check_add<M: Frames, L: Ledger>(
    rt: &impl Abort,
    mem: &mut M,
    caller: Frame,
    call: &[u32; 4],
    status: Status,
    steps: &mut Steps<L>,
)
    requires { HasPartition (M.memory mem.old) caller }
    ensures { HasPartition (M.memory mem.new) caller }
{
    let [v, d, cv, rights] = *call;
    same(
        rt,
        add_vaddr(mem, caller, v, d, cv, rights, steps),
        status,
        v,
    );
}

/// Makes the calls of addVAddr one after another.
pub(crate) fn check_adds<M: Frames, L: Ledger>(
    rt: &impl Abort,
    mem: &mut M,
    caller: Frame,
    calls: &[([u32; 4], Status)],
    steps: &mut Steps<L>,
)
    requires { HasPartition (M.memory mem.old) caller }
    ensures { HasPartition (M.memory mem.new) caller }
{
    for (call, status) in calls {
        check_add(rt, mem, caller, call, *status, steps);
    }
}

/// Makes a call of removeVAddr, and compares the status.
pub(crate) fn check_remove<M: Frames, L: Ledger>(
    rt: &impl Abort,
    mem: &mut M,
    caller: Frame,
    call: &[u32; 2],
    status: Status,
    steps: &mut Steps<L>,
)
    requires { HasPartition (M.memory mem.old) caller }
    ensures { HasPartition (M.memory mem.new) caller }
{
    let [d, cv] = *call;
    same(rt, remove_vaddr(mem, caller, d, cv, steps), status, cv);
}

// Makes the calls one after another.
fn check_removes<M: Frames, L: Ledger>(
    rt: &impl Abort,
    mem: &mut M,
    caller: Frame,
    calls: &[([u32; 2], Status)],
    steps: &mut Steps<L>,
)
    requires { HasPartition (M.memory mem.old) caller }
    ensures { HasPartition (M.memory mem.new) caller }
{
    for (call, status) in calls {
        check_remove(rt, mem, caller, call, *status, steps);
    }
}

// The root's child is made.
fn make_child<M: Frames, L: Ledger>(
    rt: &impl Abort,
    mem: &mut M,
    caller: Frame,
    steps: &mut Steps<L>,
)
    requires { HasPartition (M.memory mem.old) caller }
    ensures { HasPartition (M.memory mem.new) caller }
{
    assert_eq!(rt; create_partition(mem, caller, &CHILD, steps), Status::Ok);
}

// Boots 32 frames, makes a child of the root, and makes the calls for the root.
fn check<M: Frames, L: Ledger>(
    rt: &impl Abort,
    mem: &mut M,
    asks: &[(u32, Result<u32, Status>)],
    adds: &[([u32; 4], Status)],
    removes: &[([u32; 2], Status)],
    blank: Blank,
)
    requires frames { length (M.memory mem.old) ≡ 32 }
    requires blank { CanOpen blank.name blank.parts L.name L.parts }
{
    let mut steps: Steps<L> = Steps::new(blank);
    let root = Frame::new(1);
    boot(mem, &mut steps);
    make_child(rt, mem, root, &mut steps);
    check_asks(rt, mem, root, asks, &mut steps);
    check_adds(rt, mem, root, adds, &mut steps);
    check_removes(rt, mem, root, removes, &mut steps);
    check_asks(rt, mem, root, asks, &mut steps);
}

static ASKS: [(u32, Result<u32, Status>); 8] = [
    (0x402001, Err(Status::NotAligned)),
    (0, Err(Status::NullPage)),
    (0x10000000, Err(Status::NotMapped)),
    (0x400000, Ok(0)),
    (0x401000, Ok(0x401000)),
    (0x405000, Ok(0x401000)),
    (0x406000, Ok(0)),
    (0xfffff000, Ok(0)),
];

static ADDS: [([u32; 4], Status); 8] = [
    ([0, 0x402000, 0x10000001, 8], Status::NotAligned),
    ([0, 0x402000, 0x10000000, 8], Status::NullPage),
    ([0x10000000, 0x402000, 0x10000000, 8], Status::NotChild),
    ([0x10000000, 0x401000, 0x10000000, 8], Status::NotMapped),
    ([0x402000, 0x401000, 0x10000000, 8], Status::NotFree),
    ([0x406000, 0x401000, 0x10000000, 9], Status::NoRight),
    ([0x406000, 0x401000, 0x10000000, 6], Status::NoRight),
    ([0x406000, 0x401000, 0x10000000, 7], Status::NoTable),
];

static REMOVES: [([u32; 2], Status); 4] = [
    ([0x402000, 0x10000001], Status::NotAligned),
    ([0x402000, 0], Status::NullPage),
    ([0x402000, 0x10000000], Status::NotChild),
    ([0x401000, 0x10000000], Status::Absent),
];

#[test]
fn a_child_without_tables_is_lent_nothing(rt: HostRuntime) -> Result<(), Fail> {
    let mut mem = VecFrames::new(rt.alloc(), 32)?;
    check::<VecFrames, Brand>(&rt, &mut mem, &ASKS, &ADDS, &REMOVES, Blank::new(1));
    Ok(())
}
