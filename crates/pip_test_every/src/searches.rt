ghost use Rattle.std.specs.Prelude.{◌≡◌, ◌≤◌, ◌<◌, length, All, IfOk};
ghost use Rattle.pip_base.specs.Opening.{CanOpen};
ghost use Rattle.pip_model.specs.Booted.{HasBooted};

use crate::compare::{holds, same};
use pip_base::{Frame, Size, Steps};
use pip_every::{Deed, May, search, search_against};
use pip_frames::{Frames, RawFrames};
use pip_kern::boot_zeros;
use pip_search::{Extent, Found, Search};
use std::alloc::{AllocError, Global};
use std::marker::Brand;
use std::process::Abort;
use std::sync::ledger::{Blank, Ledger};
use std::test::Fail;

// Writes a program into the root's first page. Of 16 frames that is frame 12.
fn write_program<M: Frames>(mem: &mut M, program: &[u32])
    requires booted { HasBooted (M.memory mem.old) }
    requires count { length (M.memory mem.old) ≡ 16 }
    requires few { length program.now ≤ 1024 }
    ensures booted { HasBooted (M.memory mem.new) }
    ensures count { length (M.memory mem.new) ≡ 16 }
{
    for i in 0..program.len() {
        mem.set_word(Frame::new(12), i as u32, program[i]);
    }
}

// 16 frames that have booted, with a program of the root.
fn boot_program<L: Ledger>(
    alloc: Global,
    program: &[u32],
    blank: Blank,
) -> Result<RawFrames, AllocError>
    requires blank { CanOpen blank.name blank.parts L.name L.parts }
    requires few { length program.now ≤ 1024 }
    ensures booted { IfOk result (λ mem. HasBooted (⟦<RawFrames as Frames>⟧.memory mem)) }
    ensures count { IfOk result (λ mem. length (⟦<RawFrames as Frames>⟧.memory mem) ≡ 16) }
{
    let mut steps: Steps<L> = Steps::new(blank);
    let mut mem = RawFrames::new(alloc, 16)?;
    boot_zeros(&mut mem, &mut steps);
    write_program(&mut mem, program);
    Ok(mem)
}

/// 16 frames of a root with a program. Its first page is frame 12.
pub(crate) fn root_with(alloc: Global, program: &[u32]) -> Result<RawFrames, AllocError>
    requires few { length program.now ≤ 1024 }
    ensures booted { IfOk result (λ mem. HasBooted (⟦<RawFrames as Frames>⟧.memory mem)) }
    ensures count { IfOk result (λ mem. length (⟦<RawFrames as Frames>⟧.memory mem) ≡ 16) }
{
    boot_program::<Brand>(alloc, program, Blank::new(1))
}

// Compares a label, the visit from which it was shown, the choice and the number of choices up to there.
fn check_found(rt: &impl Abort, found: &Found, label: &str, numbers: (u32, u32, u32)) {
    same(rt, found.label.as_slice(), label.as_bytes(), label);
    same(rt, found.at, numbers.0, label);
    same(rt, found.choice, numbers.1, label);
    same(rt, found.depth, numbers.2, label);
}

// Compares how many states a search found, how it ended, and the labels that processor 0 showed,
// each with the visit from which it did and the number of choices up to there.
fn check(
    rt: &impl Abort,
    ended: &(Search, Extent),
    count: usize,
    verdict: Extent,
    labels: &[(&str, u32, u32)],
) {
    holds(rt, ended.1 == verdict, "the end");
    same(rt, ended.0.visits.len(), count, "the states");
    assert!(rt; ended.0.found.len() == labels.len());
    for k in 0..labels.len() {
        let (label, at, depth) = labels[k];
        check_found(rt, &ended.0.found[k], label, (at, 0, depth));
    }
}

// Searches a root with a program on a number of processors, with these lines, turns, depth and room, and compares that.
fn check_search(
    rt: &(impl Abort + AllocGlobal),
    program: &[u32],
    cpus: u32,
    lines: &[u32],
    words: (u32, u32, u32),
    count: usize,
    verdict: Extent,
    labels: &[(&str, u32, u32)],
) -> Result<(), Fail>
    requires short { length program.now ≤ 1024 }
    requires least { 1 ≤ cpus }
    requires most { cpus ≤ 4 }
    requires below { All (λ line. line < 16) lines.now }
    requires few { length lines.now ≤ 16 }
{
    let (from, depth, room) = words;
    assert!(rt; 0 < room);
    let mem = root_with(rt.alloc(), program)?;
    let ended = search(rt.alloc(), mem, cpus, lines, from, depth, room)?;
    check(rt, &ended, count, verdict, labels);
    Ok(())
}

// The root's first word is 0, which is no instruction, and the root has no handler for that.
const PARKS: [(&str, u32, u32); 1] = [("0 0 park 1 6\n", 0, 1)];

#[test]
fn a_root_without_a_program_parks(rt: HostRuntime) -> Result<(), Fail> {
    let parks = Extent::Closed { depth: 1 };
    check_search(&rt, &[], 1, &[], (0, 100, 100), 2, parks, &PARKS)
}

#[test]
fn a_root_without_a_program_parks_beside_lines(rt: HostRuntime) -> Result<(), Fail> {
    // Both states, each with none, one or both of the lines; then the first state once more, before
    // a turn was made; and then the second once more, too. A turn of the processor that runs nothing
    // stands for all that are left.
    for (from, count, depth) in [(0, 8, 3), (1, 9, 3), (2, 10, 4)] {
        let words = (from, 100, 100);
        let closed = Extent::Closed { depth };
        check_search(&rt, &[], 2, &[3, 5], words, count, closed, &PARKS)?;
    }
    Ok(())
}

// A branch to itself: `beq r0 r0 -1`.
const SPINS: [u32; 1] = [0x1a00ffff];

#[test]
fn a_root_that_spins_shows_nothing(rt: HostRuntime) -> Result<(), Fail> {
    let none = Extent::Closed { depth: 0 };
    check_search(&rt, &SPINS, 1, &[], (0, 100, 100), 1, none, &[])?;
    let closed = Extent::Closed { depth: 1 };
    check_search(&rt, &SPINS, 1, &[3], (0, 100, 100), 2, closed, &[])?;
    let stopped = Extent::Stopped { depth: 0 };
    check_search(&rt, &SPINS, 1, &[3], (0, 100, 1), 1, stopped, &[])?;
    let within = Extent::Within { depth: 1 };
    check_search(&rt, &SPINS, 1, &[3], (2, 1, 100), 2, within, &[])
}

/// `li r1 5`, `out r1`, and back to `out`: `beq r0 r0 -2`.
pub(crate) const SHOWS: [u32; 3] = [0x02100005, 0x22100000, 0x1a00fffe];

// The word that it shows.
const SHOWN: [(&str, u32, u32); 1] = [("0 0 out 0x00000005\n", 1, 2)];

#[test]
fn a_root_shows_a_word_once(rt: HostRuntime) -> Result<(), Fail> {
    let closed = Extent::Closed { depth: 2 };
    check_search(&rt, &SHOWS, 4, &[], (0, 100, 100), 3, closed, &SHOWN)
}

// A deed, how many states there are, and what was shown first, with the choice that showed it, or an empty text.
type Row = (Deed, usize, &'static str, u32);

// Searches a root without a program, while a partition may do one deed, and compares how many states there are and
// what was shown first.
fn check_deed(
    rt: &(impl Abort + AllocGlobal),
    may: May,
    count: usize,
    label: &str,
    choice: u32,
) -> Result<(), Fail> {
    let mem = root_with(rt.alloc(), &[])?;
    let mut menu = Vec::new(rt.alloc());
    menu.push(may)?;
    let (search, verdict) = search_against(rt.alloc(), mem, 1, &[], 0, menu, 100, 100)?;
    let depth = if count == 1 { 0 } else { 1 };
    holds(rt, verdict == Extent::Closed { depth }, label);
    same(rt, search.visits.len(), count, label);
    match search.found.first() {
        Some(found) => check_found(rt, found, label, (0, choice, 1)),
        None => holds(rt, label.is_empty(), label),
    }
    holds(rt, search.found.len() <= 1, label);
    Ok(())
}

// Does that for each row, for the partition of a name, or for each but the root.
fn check_deeds(
    rt: &(impl Abort + AllocGlobal),
    name: Option<u32>,
    rows: &[Row],
) -> Result<(), Fail> {
    for (deed, count, label, choice) in rows {
        let may = May { name, deed: *deed };
        check_deed(rt, may, *count, label, *choice)?;
    }
    Ok(())
}

static DEEDS: [Row; 6] = [
    (
        Deed::Load {
            va: 0x400004,
            size: Size::Word,
        },
        1,
        "",
        0,
    ),
    (
        Deed::StoreWord {
            va: 0x400004,
            word: 7,
        },
        2,
        "",
        0,
    ),
    (
        Deed::StoreByte {
            va: 0x400004,
            byte: 7,
        },
        2,
        "",
        0,
    ),
    (
        Deed::Load {
            va: 0,
            size: Size::Word,
        },
        2,
        "0 0 park 1 14\n",
        1,
    ),
    (
        Deed::Trap {
            vector: 7,
            a: 0,
            b: 0,
        },
        2,
        "0 0 park 1 7\n",
        1,
    ),
    (
        Deed::Call {
            number: 99,
            args: [0, 0, 0, 0, 0],
        },
        2,
        "0 0 call 99 reply 1 0x00000000\n",
        1,
    ),
];

#[test]
fn a_hostile_root_does_its_deeds_alone(rt: HostRuntime) -> Result<(), Fail> {
    check_deeds(&rt, Some(1), &DEEDS)
}

static TRAP: [Row; 1] = [(
    Deed::Trap {
        vector: 7,
        a: 0,
        b: 0,
    },
    2,
    "0 0 park 1 6\n",
    0,
)];

#[test]
fn a_deed_of_another_is_none(rt: HostRuntime) -> Result<(), Fail> {
    check_deeds(&rt, None, &TRAP)?;
    check_deeds(&rt, Some(2), &TRAP)
}
