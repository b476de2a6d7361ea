//! Children that are built on a machine.
ghost use Rattle.std.specs.Prelude.{◌≡◌, ◌≤◌, ◌<◌, IfOk, length};
ghost use Rattle.pip_base.specs.Opening.{CanOpen};

mod counting;

use crate::compare::{holds, same};
use counting::Counting;
use pip_base::{Outcome, Size, Status, Steps};
use pip_frames::RawFrames;
use pip_kern::boot_zeros;
use pip_model::Port;
use pip_parent::{BuildError, Built, Want, build, need};
use pip_switch::Machine;
use std::alloc::{AllocError, Global};
use std::marker::Brand;
use std::process::Abort;
use std::sync::ledger::{Blank, Ledger};
use std::test::Fail;

/// Two pages in two directories, the second the last one that there is.
const TWO: [Want; 2] = [
    Want {
        va: 0x10000000,
        rights: 3,
    },
    Want {
        va: 0xfffff000,
        rights: 3,
    },
];

// A machine of 16 to 4096 frames and one processor, as it boots. The root's pages are at 0x400000 and on.
fn new_machine<L: Ledger>(
    alloc: Global,
    frames: u32,
    steps: &mut Steps<L>,
) -> Result<Machine<RawFrames>, AllocError>
    requires least { 16 ≤ frames }
    requires most { frames ≤ 4096 }
    ensures { IfOk result (λ m. length m.cpus ≡ 1) }
{
    let mut mem = RawFrames::new(alloc, frames)?;
    boot_zeros(&mut mem, steps);
    Ok(Machine::new(mem, 1))
}

// The addresses of N pages, one after another.
fn pages<const N: usize>(first: u32) -> [u32; N] {
    let mut pool = [0; N];
    let mut at = first;
    for k in 0..N {
        pool[k] = at;
        at = at.wrapping_add(4096);
    }
    pool
}

// Wants of one page in each of N directories, from 0x00400000 on.
fn in_directories<const N: usize>() -> [Want; N] {
    let mut wants = [Want { va: 0, rights: 1 }; N];
    let mut va: u32 = 0x00400000;
    for k in 0..N {
        wants[k].va = va;
        va = va.wrapping_add(0x00400000);
    }
    wants
}

// Compares how many pages were used for a child at 0x401000.
fn check_built(rt: &impl Abort, built: Result<Built, BuildError>, used: u32) {
    let child = 0x401000;
    assert_eq!(rt; built, Ok(Built { child, used }));
}

// Compares a word of a frame.
fn check_peek<P: Port, L: Ledger>(
    rt: &impl Abort,
    port: &P,
    place: (u32, u32),
    word: u32,
    steps: &mut Steps<L>,
) {
    let found = port.peek(place.0, place.1, steps);
    assert_eq!(rt; found, Some(word));
}

fn check_two<L: Ledger>(rt: &(impl Abort + AllocGlobal), blank: Blank) -> Result<(), Fail>
    requires blank { CanOpen blank.name blank.parts L.name L.parts }
{
    let mut steps: Steps<L> = Steps::new(blank);
    let mut port = Counting::new(new_machine(rt.alloc(), 64, &mut steps)?);
    assert!(rt; 0 < port.cpus());
    same(rt, need(&TWO), 13, "the need of two pages");
    let built = build(&mut port, 0, &pages::<13>(0x401000), &TWO, &mut steps);
    check_built(rt, built, 13);
    same(rt, port.events(), 9, "the events");
    check_peek(rt, &port, (13, 12), 2, &mut steps);
    check_peek(rt, &port, (18, 0), 0x0001500f, &mut steps);
    Ok(())
}

#[test]
fn a_child_is_built_by_as_many_events_as_told(rt: HostRuntime) -> Result<(), Fail> {
    check_two::<Brand>(&rt, Blank::new(1))
}

// Compares why no child was built.
fn check_refused(rt: &impl Abort, built: Result<Built, BuildError>, error: BuildError) {
    assert_eq!(rt; built, Err(error));
}

fn check_refusals<L: Ledger>(rt: &(impl Abort + AllocGlobal), blank: Blank) -> Result<(), Fail>
    requires blank { CanOpen blank.name blank.parts L.name L.parts }
{
    let mut steps: Steps<L> = Steps::new(blank);
    let mut port = Counting::new(new_machine(rt.alloc(), 64, &mut steps)?);
    assert!(rt; 0 < port.cpus());
    let pool = pages::<13>(0x401000);
    let short = build(&mut port, 0, &pages::<12>(0x401000), &TWO, &mut steps);
    let lacks = BuildError::Short { have: 12, need: 13 };
    check_refused(rt, short, lacks);
    let odd = [Want {
        va: 0x10000001,
        rights: 1,
    }];
    let refused = build(&mut port, 0, &pool, &odd, &mut steps);
    check_refused(rt, refused, BuildError::Want(0));
    let twice = [TWO[0], TWO[0]];
    let refused = build(&mut port, 0, &pool, &twice, &mut steps);
    check_refused(rt, refused, BuildError::Want(1));
    same(rt, port.events(), 0, "the events");
    Ok(())
}

#[test]
fn what_no_pool_can_give_is_refused_without_an_event(rt: HostRuntime) -> Result<(), Fail> {
    check_refusals::<Brand>(&rt, Blank::new(1))
}

fn check_edges<L: Ledger>(rt: &(impl Abort + AllocGlobal), blank: Blank) -> Result<(), Fail>
    requires blank { CanOpen blank.name blank.parts L.name L.parts }
{
    let mut steps: Steps<L> = Steps::new(blank);
    let mut port = Counting::new(new_machine(rt.alloc(), 1024, &mut steps)?);
    assert!(rt; 0 < port.cpus());
    let wants = in_directories::<171>();
    same(rt, need(&wants), 690, "the need of 171 tables");
    let pool = pages::<690>(0x401000);
    let built = build(&mut port, 0, &pool, &wants, &mut steps);
    check_built(rt, built, 690);
    same(rt, port.events(), 686, "the events");
    // The child's tables, and the second list page with the last of them.
    check_peek(rt, &port, (13, 12), 171, &mut steps);
    check_peek(rt, &port, (17, 1), 0x006b1000, &mut steps);
    Ok(())
}

#[test]
fn the_tables_take_a_second_list_page(rt: HostRuntime) -> Result<(), Fail> {
    check_edges::<Brand>(&rt, Blank::new(1))
}

// Each word of the 64 frames.
fn memory<P: Port, L: Ledger>(
    alloc: Global,
    port: &P,
    steps: &mut Steps<L>,
) -> Result<Vec<u32>, AllocError> {
    let mut words = Vec::new(alloc);
    for place in 0..65536u32 {
        words.push(port.peek(place / 1024, place % 1024, steps).unwrap_or(0))?;
    }
    Ok(words)
}

// A child with 13 pages that it can't execute, at 0x10000000 and on, runs. It builds a child of them, which is to have
// more. All of them are zero before, so no word of the memory is another afterwards.
fn check_lack<L: Ledger>(
    rt: &(impl Abort + AllocGlobal),
    wants: &[Want],
    lacking: u32,
    blank: Blank,
) -> Result<(), Fail>
    requires few { length wants.now ≤ 4096 }
    requires blank { CanOpen blank.name blank.parts L.name L.parts }
{
    let mut steps: Steps<L> = Steps::new(blank);
    let mut machine = new_machine(rt.alloc(), 64, &mut steps)?;
    // In the page that becomes its last: its block for vector 64, with the pc.
    machine.store(0, 0x419100, Size::Word, 0xfffff400, &mut steps);
    machine.store(0, 0x419400, Size::Word, 0x10000000, &mut steps);
    let mut theirs = [TWO[1]; 14];
    for (want, va) in theirs.iter_mut().zip(pages::<13>(0x10000000)) {
        want.va = va;
    }
    let parent = build(&mut machine, 0, &pages::<25>(0x401000), &theirs, &mut steps);
    check_built(rt, parent, 25);
    let switched = Outcome::Switched {
        from: 1,
        to: 13,
        vector: 64,
    };
    let outcome = machine.call(0, 8, &[0x401000, 64, 256, 0, 0], &mut steps);
    same(rt, outcome, switched, "the call");
    let before = memory(rt.alloc(), &machine, &mut steps)?;
    let refused = build(&mut machine, 0, &pages::<13>(0x10000000), wants, &mut steps);
    check_refused(rt, refused, BuildError::NoRight(lacking));
    let after = memory(rt.alloc(), &machine, &mut steps)?;
    holds(rt, after.as_slice() == before.as_slice(), "the memory");
    Ok(())
}

#[test]
fn a_child_that_is_to_have_more_than_its_parent_is_deleted(rt: HostRuntime) -> Result<(), Fail> {
    let executes = Want {
        va: 0x10000000,
        rights: 7,
    };
    check_lack::<Brand>(&rt, &[executes], 0, Blank::new(1))?;
    check_lack::<Brand>(&rt, &[TWO[1], executes], 1, Blank::new(1))
}
