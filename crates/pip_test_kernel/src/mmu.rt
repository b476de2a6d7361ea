ghost use Rattle.std.specs.Prelude.{◌<◌};
ghost use Rattle.pip_base.specs.Opening.{CanOpen};
ghost use Rattle.pip_model.specs.Partitions.{HasPartition};
ghost use Rattle.pip_mmu.specs.Cached.{HasCached};

use crate::compare::{holds, same};
use pip_base::{Access, Frame, Rights, Size, Steps, VPage};
use pip_frames::{Frames, VecFrames};
use pip_kern::boot;
use pip_mmu::{AccessFault, MmuFault, load_through, store_through, translate_cached};
use pip_tlb::Cache;
use std::marker::Brand;
use std::process::Abort;
use std::sync::ledger::{Blank, Ledger};
use std::test::Fail;

// What the root does, and what it is answered.
#[derive(Clone, Copy)]
enum Step {
    // It loads at an address.
    Load(u32, Size, Result<u32, AccessFault>),
    // It fetches a word.
    Fetch(u32, Result<u32, AccessFault>),
    // It stores a byte at an address.
    Store(u32, u8, Result<(), AccessFault>),
}

// Does a step, and compares the answer, and then the counts of hits and misses.
fn check_step<M: Frames, L: Ledger>(
    rt: &impl Abort,
    mem: &mut M,
    cache: &mut Cache,
    root: Frame,
    step: Step,
    steps: &mut Steps<L>,
)
    requires { HasCached (M.memory mem.old) root cache.old }
    ensures { HasCached (M.memory mem.new) root cache.new }
{
    match step {
        Step::Load(va, size, answer) => {
            same(
                rt,
                load_through(mem, cache, root, va, size, Access::Load, steps),
                answer,
                va,
            );
        }
        Step::Fetch(va, answer) => {
            same(
                rt,
                load_through(mem, cache, root, va, Size::Word, Access::Fetch, steps),
                answer,
                va,
            );
        }
        Step::Store(va, byte, answer) => {
            same(
                rt,
                store_through(mem, cache, root, va, Size::Byte, byte as u32, steps),
                answer,
                va,
            );
        }
    }
}

// Boots, does the steps, and compares the counts of hits and misses after each.
fn check<M: Frames, L: Ledger>(
    rt: &impl Abort,
    mem: &mut M,
    list: &[(Step, (u64, u64))],
    blank: Blank,
)
    requires blank { CanOpen blank.name blank.parts L.name L.parts }
{
    let mut steps: Steps<L> = Steps::new(blank);
    let root = Frame::new(1);
    let mut cache = Cache::new();
    boot(mem, &mut steps);
    for (step, counts) in list {
        check_step(rt, mem, &mut cache, root, *step, &mut steps);
        let (hits, misses) = cache.counts();
        same(rt, hits, counts.0, "hits");
        same(rt, misses, counts.1, "misses");
    }
}

const UNMAPPED: AccessFault = AccessFault::Mmu(MmuFault::Unmapped);

static ACCESSES: [(Step, (u64, u64)); 16] = [
    (Step::Load(0x400000, Size::Word, Ok(0)), (0, 1)),
    (Step::Load(0x400ffc, Size::Word, Ok(0)), (1, 1)),
    (Step::Store(0x400ffd, 0x89, Ok(())), (2, 1)),
    (Step::Load(0x400ffc, Size::Word, Ok(0x8900)), (3, 1)),
    (Step::Load(0x400ffd, Size::Byte, Ok(0x89)), (4, 1)),
    (Step::Fetch(0x400ffc, Ok(0x8900)), (5, 1)),
    // one that isn't aligned looks nothing up
    (
        Step::Load(0x400001, Size::Word, Err(AccessFault::Alignment)),
        (5, 1),
    ),
    (Step::Fetch(0x401002, Err(AccessFault::Alignment)), (5, 1)),
    // a fault fills nothing
    (Step::Load(0x200000, Size::Word, Err(UNMAPPED)), (5, 2)),
    (Step::Store(0x200000, 1, Err(UNMAPPED)), (5, 3)),
    // a page 64 further has the same place, and the next page another
    (Step::Store(0x440000, 7, Ok(())), (5, 4)),
    (Step::Load(0x440000, Size::Byte, Ok(7)), (6, 4)),
    (Step::Load(0x401000, Size::Word, Ok(0)), (6, 5)),
    (Step::Load(0x400ffc, Size::Word, Ok(0x8900)), (6, 6)),
    (Step::Load(0x440000, Size::Word, Ok(7)), (6, 7)),
    (Step::Load(0x401000, Size::Word, Ok(0)), (7, 7)),
];

#[test]
fn a_page_is_held_once_it_is_reached(rt: HostRuntime) -> Result<(), Fail> {
    let mut mem = VecFrames::new(rt.alloc(), 128)?;
    check::<VecFrames, Brand>(&rt, &mut mem, &ACCESSES, Blank::new(1));
    Ok(())
}

// The frame and the index that an access of the root at 0x400004 reaches by a cache that holds its page with these
// rights, in frame 77.
fn judged<M: Frames, L: Ledger>(
    mem: &M,
    root: Frame,
    rights: Rights,
    access: Access,
    steps: &mut Steps<L>,
) -> Result<(u32, u32), MmuFault>
    requires { HasPartition (M.memory mem.now) root }
{
    let mut cache = Cache::new();
    cache.fill(root, VPage::new(0x400), Frame::new(77), rights);
    match translate_cached(mem, &mut cache, root, 0x400004, access, steps) {
        Ok(place) => {
            let (frame, i) = place;
            Ok((frame.number(), i))
        }
        Err(fault) => Err(fault),
    }
}

// Boots, and compares what accesses are answered.
fn check_rights<M: Frames, L: Ledger>(
    rt: &impl Abort,
    mem: &mut M,
    list: &[(Rights, Access, Result<(u32, u32), MmuFault>)],
    blank: Blank,
)
    requires blank { CanOpen blank.name blank.parts L.name L.parts }
{
    let mut steps: Steps<L> = Steps::new(blank);
    let root = Frame::new(1);
    boot(mem, &mut steps);
    for (rights, access, answer) in list {
        holds(
            rt,
            judged(mem, root, *rights, *access, &mut steps) == *answer,
            "an access",
        );
    }
}

#[test]
fn a_hit_is_judged_by_its_rights(rt: HostRuntime) -> Result<(), Fail> {
    let found = Ok((77, 1));
    let lacking = Err(MmuFault::Right);
    let list = [
        (Rights::READ, Access::Load, found),
        (Rights::READ, Access::Store, lacking),
        (Rights::READ, Access::Fetch, lacking),
        (Rights::WRITE, Access::Store, found),
        (Rights::EXEC, Access::Fetch, found),
        (Rights::EXEC, Access::Load, lacking),
    ];
    let mut mem = VecFrames::new(rt.alloc(), 16)?;
    check_rights::<VecFrames, Brand>(&rt, &mut mem, &list, Blank::new(1));
    Ok(())
}
