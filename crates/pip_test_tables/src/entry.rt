ghost use Rattle.std.specs.Prelude.{◌<◌, ◌^◌};

use crate::compare::same;
use bitflags::Flags;
use pip_base::{Frame, Rights, VPage};
use pip_entry::descriptor::{
    FLAGS, LIST_FRAME, LIST_VA, MASKED, MMU_FRAME, MMU_VA, PARENT, PENDING, SELF_FRAME, SELF_VA,
    SHADOW1_FRAME, SHADOW1_VA, SHADOW2_FRAME, SHADOW2_VA, TABLES,
};
use pip_entry::{
    DirWord, Leaf, Sh1, Sh2, list_page, pack_dir, pack_leaf, pack_sh1, pack_sh2, unpack_dir,
    unpack_leaf, unpack_sh1, unpack_sh2,
};
use std::process::Abort;

fn page(frame: u32, user: bool, rights: u32) -> Leaf
    requires { frame < 2 ^ 20 }
{
    Leaf::Page {
        frame: Frame::new(frame),
        user,
        rights: Rights::from_bits_retain(rights),
    }
}

// Compares what a word is read as, and the word that is written of it, if it is one.
fn check_leaf(rt: &impl Abort, word: u32, leaf: Option<Leaf>) {
    assert!(rt; unpack_leaf(word) == leaf, "{word}");
    if let Some(read) = unpack_leaf(word) {
        assert_eq!(rt; pack_leaf(read), word);
    }
}

#[test]
fn leaves_are_words(rt: HostRuntime) {
    for (word, leaf) in [
        (0, Leaf::Empty),
        (0x0000_c01f, page(12, true, 7)),
        (0x0000_d01d, page(13, false, 7)),
        (0x0001_500f, page(21, true, 3)),
        (0x0001_f01f, page(31, true, 7)),
        (0x0000_0005, page(0, false, 1)),
        (0xffff_f017, page(0xfffff, true, 5)),
    ] {
        check_leaf(&rt, word, Some(leaf));
    }
}

// The same of words of directories.
fn check_directory(rt: &impl Abort, word: u32, entry: Option<DirWord>) {
    assert!(rt; unpack_dir(word) == entry, "{word}");
    if let Some(read) = unpack_dir(word) {
        assert_eq!(rt; pack_dir(read), word);
    }
}

#[test]
fn directory_words_are_words(rt: HostRuntime) {
    for (word, entry) in [
        (0, DirWord::Empty),
        (0x0000_0001, DirWord::Table(Frame::new(0))),
        (0x0000_6001, DirWord::Table(Frame::new(6))),
        (0xffff_f001, DirWord::Table(Frame::new(0xfffff))),
    ] {
        check_directory(&rt, word, Some(entry));
    }
}

// The same of words of first shadows.
fn check_first(rt: &impl Abort, word: u32, given: Option<Sh1>) {
    assert!(rt; unpack_sh1(word) == given, "{word}");
    if let Some(read) = unpack_sh1(word) {
        assert_eq!(rt; pack_sh1(read), word);
    }
}

#[test]
fn first_shadows_are_words(rt: HostRuntime) {
    for (word, given) in [
        (0, Sh1::Free),
        (0x0000_1001, Sh1::Descriptor(VPage::new(1))),
        (0x0040_1001, Sh1::Descriptor(VPage::new(0x401))),
        (0x0040_1002, Sh1::Config(VPage::new(0x401))),
        (0x0040_1003, Sh1::Lent(VPage::new(0x401))),
        (0xffff_f003, Sh1::Lent(VPage::new(0xfffff))),
    ] {
        check_first(&rt, word, Some(given));
    }
}

// The same of words of second shadows.
fn check_second(rt: &impl Abort, word: u32, from: Option<Sh2>) {
    assert!(rt; unpack_sh2(word) == from, "{word}");
    if let Some(read) = unpack_sh2(word) {
        assert_eq!(rt; pack_sh2(read), word);
    }
}

#[test]
fn second_shadows_are_words(rt: HostRuntime) {
    for (word, from) in [
        (0, Sh2::Empty),
        (0x0000_0001, Sh2::Of(VPage::new(0))),
        (0x0040_9001, Sh2::Of(VPage::new(0x409))),
        (0xffff_f001, Sh2::Of(VPage::new(0xfffff))),
    ] {
        check_second(&rt, word, Some(from));
    }
}

// bit 5, no READ, not present, another bit that is not used
static NO_LEAVES: [u32; 7] = [
    0x0000_c03f,
    0x0000_c01b,
    0x0000_c01e,
    0x0000_c000,
    0x0000_c81f,
    1,
    4,
];

// of directories and of second shadows
static NO_ADDRESSES: [u32; 5] = [2, 0x0000_6000, 0x0000_6002, 0x0000_6003, 0xffff_ffff];

// a kind without a vpage, a vpage without a kind, kind 4
static NO_FIRST_SHADOWS: [u32; 6] = [1, 2, 3, 0x0040_1000, 0x0040_1004, 0xffff_ffff];

#[test]
fn other_words_are_no_leaves(rt: HostRuntime) {
    for word in &NO_LEAVES {
        check_leaf(&rt, *word, None);
    }
}

#[test]
fn other_words_are_no_directory_words(rt: HostRuntime) {
    for word in &NO_ADDRESSES {
        check_directory(&rt, *word, None);
    }
}

#[test]
fn other_words_are_no_second_shadows(rt: HostRuntime) {
    for word in &NO_ADDRESSES {
        check_second(&rt, *word, None);
    }
}

#[test]
fn other_words_are_no_first_shadows(rt: HostRuntime) {
    for word in &NO_FIRST_SHADOWS {
        check_first(&rt, *word, None);
    }
}

// Fields of a descriptor and of a list page, and their words.
static PLACES: [(u32, u32); 17] = [
    (SELF_VA, 0),
    (MMU_VA, 2),
    (SHADOW1_VA, 4),
    (SHADOW2_VA, 6),
    (LIST_VA, 8),
    (SELF_FRAME, 1),
    (MMU_FRAME, 3),
    (SHADOW1_FRAME, 5),
    (SHADOW2_FRAME, 7),
    (LIST_FRAME, 9),
    (PARENT, 11),
    (TABLES, 12),
    (FLAGS, 14),
    (PENDING, 15),
    (list_page::NEXT_FRAME, 0),
    (list_page::NEXT_VA, 1),
    (list_page::FIRST_SLOT, 2),
];

#[test]
fn places_do_not_overlap(rt: HostRuntime) {
    for (place, index) in &PLACES {
        same(&rt, *place, *index, *index);
    }
    same(&rt, MASKED, 1, "the bit of masked lines");
    let slots = list_page::SLOT_WORDS * list_page::SLOTS;
    same(
        &rt,
        list_page::FIRST_SLOT + slots,
        1022,
        "the end of the slots",
    );
}
