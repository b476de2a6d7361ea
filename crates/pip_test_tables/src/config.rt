ghost use Rattle.std.specs.Prelude.{◌≡◌, ◌<◌, ◌≤◌, ◌+◌, length, replicate};
ghost use Rattle.pip_base.specs.Opening.{CanOpen};
ghost use Rattle.pip_base.specs.Memory.{zeros};
ghost use Rattle.pip_config.specs.Lists.{HasList};

use pip_base::{Frame, Pair, Steps};
use pip_config::{Slot, append_page, find, pop_page, push_slot, slot_at, swap_remove};
use pip_frames::{Frames, VecFrames};
use std::marker::Brand;
use std::sync::ledger::{Blank, Ledger};
use std::test::Fail;

fn pair(i: u32) -> Pair
    requires { i < 1024 }
{
    Pair {
        va: 4096 * i,
        frame: Frame::new(1000 + i),
    }
}

// Slot i has the frames 1000 + 3 * i and the two after it.
fn slot(i: u32) -> Slot
    requires { i < 341 }
    ensures { length result ≡ 3 }
{
    [pair(3 * i), pair(3 * i + 1), pair(3 * i + 2)]
}

// Pushes n slots onto an empty list of two pages.
fn push_all<M: Frames, L: Ledger>(mem: &mut M, first: Frame, n: u32, steps: &mut Steps<L>)
    requires list { (l : HasList (M.memory mem.old) first 0) × (length l.more ≡ 1) }
    requires most { n ≤ 340 }
    ensures { (l : HasList (M.memory mem.new) first n) × (length l.more ≡ 1) }
{
    for m in 0..n {
        push_slot(mem, first, m, &slot(m), steps);
    }
}

// What the worked case answers: before the removal, after it, and after the page is gone.
#[derive(Drop)]
struct Seen {
    places: [Option<u32>; 3],
    last: Slot,
    places_after: [Option<u32>; 3],
    moved: Slot,
    page: Pair,
    still: Slot,
}

// 171 slots in the pages 5 and 6; slot 0 goes; then the second page.
fn worked<M: Frames, L: Ledger>(mem: &mut M, blank: Blank) -> Seen
    requires blank { CanOpen blank.name blank.parts L.name L.parts }
    requires empty { M.memory mem.old ≡ replicate 16 (zeros 1024) }
{
    let mut steps: Steps<L> = Steps::new(blank);
    let first = Frame::new(5);
    let second = Pair {
        va: 0x7000,
        frame: Frame::new(6),
    };
    append_page(mem, first, 1, second, &mut steps);
    push_all(mem, first, 171, &mut steps);
    let places = three_places(mem, first, 171, &mut steps);
    let last = slot_at(mem, first, 171, 170, &mut steps);
    swap_remove(mem, first, 171, 0, &mut steps);
    let places_after = three_places(mem, first, 170, &mut steps);
    let moved = slot_at(mem, first, 170, 0, &mut steps);
    let page = pop_page(mem, first, 2, &mut steps);
    let still = slot_at(mem, first, 170, 169, &mut steps);
    Seen {
        places,
        last,
        places_after,
        moved,
        page,
        still,
    }
}

// Where the tables of slots 0 and 170 are, and a frame that is a shadow's alone.
fn three_places<M: Frames, L: Ledger>(
    mem: &M,
    first: Frame,
    m: u32,
    steps: &mut Steps<L>,
) -> [Option<u32>; 3]
    requires { HasList (M.memory mem.now) first m }
{
    [
        find(mem, first, m, Frame::new(1000), steps),
        find(mem, first, m, Frame::new(1510), steps),
        find(mem, first, m, Frame::new(1001), steps),
    ]
}

#[test]
fn the_last_slot_moves_to_the_free_place(rt: HostRuntime) -> Result<(), Fail> {
    let mut mem = VecFrames::new(rt.alloc(), 16)?;
    let seen = worked::<VecFrames, Brand>(&mut mem, Blank::new(1));
    assert_eq!(rt; seen.places, [Some(0), Some(170), None]);
    assert_eq!(rt; seen.last, slot(170));
    assert_eq!(rt; seen.places_after, [None, Some(0), None]);
    assert_eq!(rt; seen.moved, slot(170));
    assert_eq!(rt; seen.page.va, 0x7000);
    assert_eq!(rt; seen.page.frame.number(), 6);
    assert_eq!(rt; seen.still, slot(169));
    Ok(())
}
