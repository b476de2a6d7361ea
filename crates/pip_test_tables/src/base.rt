ghost use Rattle.std.specs.Prelude.{◌≡◌, ◌+◌, ◌<◌};
ghost use Rattle.pip_base.specs.Opening.{CanOpen};

use crate::compare::same;
use bitflags::Flags;
use pip_base::{Frame, MAX_FRAMES, Rights, Status, Steps, VIDT, VPAGES, VPage};
use std::marker::Brand;
use std::process::Abort;
use std::sync::ledger::{Blank, Ledger};

static STATUSES: [(Status, u32); 19] = [
    (Status::Ok, 0),
    (Status::UnknownCall, 1),
    (Status::NotAligned, 2),
    (Status::NullPage, 3),
    (Status::Repeated, 4),
    (Status::NotChild, 5),
    (Status::NotMapped, 6),
    (Status::NotFree, 7),
    (Status::NoRight, 8),
    (Status::NoTable, 9),
    (Status::Taken, 10),
    (Status::Absent, 11),
    (Status::LentOn, 12),
    (Status::NotEmpty, 13),
    (Status::BadVector, 15),
    (Status::Running, 14),
    (Status::NoHandler, 16),
    (Status::NoContext, 17),
    (Status::BadSave, 18),
];

#[test]
fn statuses_have_their_numbers(rt: HostRuntime) {
    for (status, number) in &STATUSES {
        same(&rt, status.number(), *number, *number);
    }
}

#[test]
fn rights_have_their_bits(rt: HostRuntime) {
    same(&rt, Rights::READ.bits(), 1, "reading");
    same(&rt, Rights::WRITE.bits(), 2, "writing");
    same(&rt, Rights::EXEC.bits(), 4, "executing");
    let both = Rights::READ | Rights::EXEC;
    same(&rt, Rights::from_bits(5) == Some(both), true, "5");
    same(&rt, Rights::from_bits(8) == None, true, "8");
}

// Addresses, and the numbers of their pages.
static PAGES: [(u32, u32); 5] = [
    (0, 0),
    (4095, 0),
    (4096, 1),
    (0x401fff, 0x401),
    (u32::MAX, 0xfffff),
];

// The numbers of pages, and their indices in the directory and in a table.
static PLACES: [(u32, u32, u32); 4] = [
    (0, 0, 0),
    (1023, 0, 1023),
    (0x402, 1, 2),
    (0xfffff, 1023, 1023),
];

// Compares the place of a page.
fn check_place(rt: &impl Abort, page: u32, directory: u32, index: u32) {
    assert!(rt; page < VPAGES, "at {page}");
    same(rt, VPage::new(page).directory(), directory, page);
    same(rt, VPage::new(page).index(), index, page);
}

#[test]
fn addresses_lie_in_their_pages(rt: HostRuntime) {
    for (va, page) in &PAGES {
        same(&rt, VPage::of_address(*va).number(), *page, *va);
    }
}

#[test]
fn pages_have_their_places(rt: HostRuntime) {
    for (page, directory, index) in &PLACES {
        check_place(&rt, *page, *directory, *index);
    }
}

#[test]
fn the_last_numbers_are_numbers(rt: HostRuntime) {
    same(&rt, VIDT, 0xfffff, "the page of the handlers");
    same(&rt, VPAGES - 1, 0xfffff, "the last page");
    same(&rt, Frame::new(MAX_FRAMES - 1).number(), 4095, "a frame");
}

fn two_steps<L: Ledger>(steps: &mut Steps<L>)
    ensures { steps.new ≡ steps.old + 2 }
{
    steps.tick();
    steps.tick();
}

fn count_two<L: Ledger>(blank: Blank)
    requires blank { CanOpen blank.name blank.parts L.name L.parts }
{
    let mut steps: Steps<L> = Steps::new(blank);
    two_steps(&mut steps);
}

#[test]
fn a_counter_takes_no_bytes(rt: HostRuntime) {
    count_two::<Brand>(Blank::new(1));
    same(&rt, size_of::<Steps<Brand>>(), 0, "a counter");
}
