use crate::compare::holds;
use pip_certificates::{MergeError, MergeFault, Merger, Uneven};
use std::alloc::Global;
use std::test::Fail;

// Merges lines up to the first that has a fault.
fn merged(alloc: Global, lines: &[&[u8]]) -> Result<Merger, MergeError> {
    let mut merger = Merger::new(alloc);
    for line in lines {
        merger.take(alloc, line)?;
    }
    Ok(merger)
}

// The fault of the last of some lines.
fn fault_of(alloc: Global, lines: &[&[u8]]) -> Option<MergeFault> {
    match merged(alloc, lines) {
        Err(MergeError::Fault(fault)) => Some(fault),
        _ => None,
    }
}

// Of lines that can be merged: whether the merge begins and is whole, its states, its depth, and how many labels come.
fn counts_of(alloc: Global, lines: &[&[u8]]) -> Option<(bool, u64, u32, usize)> {
    match merged(alloc, lines) {
        Ok(merger) => Some((
            merger.begins() && merger.is_whole(),
            merger.states(),
            merger.deepest(),
            merger.labels().len(),
        )),
        Err(_) => None,
    }
}

// Lines can be merged, and the merge isn't whole.
fn is_cut(alloc: Global, lines: &[&[u8]]) -> bool {
    match merged(alloc, lines) {
        Ok(merger) => !merger.is_whole(),
        Err(_) => false,
    }
}

const LABEL: &[u8] = b"line 0 out 0x0000000a";

const FIRST: &[u8] = b"00 + 00000000";

const ASKED: &[u8] = b"00 ? 00000002";

const SECOND: &[u8] = b"0001 + 00000003";

#[test]
fn parts_that_have_what_they_ask_are_merged(rt: HostRuntime) -> Result<(), Fail> {
    let counts = counts_of(
        rt.alloc(),
        &[
            FIRST,
            ASKED,
            ASKED,
            SECOND,
            LABEL,
            LABEL,
            b"line 0 out 0x0000000b",
            b"part 16 1 0 0 0 0000000000000007 00000000 00000001 00000000 00000001 70082468",
            b"part 16 1 0 0 0 0000000000000007 00000003 00000001 00000002 00000002 e3104d89",
        ],
    );
    holds(&rt, counts == Some((true, 2, 3, 2)), "the counts");
    Ok(())
}

const PART: &[u8] =
    b"part 16 1 0 0 0 0000000000000007 00000001 00000002 00000003 00000004 00000005";

// Lines, of which the last one has a fault.
static FAULTS: [(&[&[u8]], MergeFault); 20] = [
    (&[b"00 + 0"], MergeFault::Form),
    (&[b"line 4 out 0x0000000a"], MergeFault::Form),
    (
        &[
            FIRST,
            b"part 16 1 0 00000000 00000001 00000000 00000000 00000000",
        ],
        MergeFault::Form,
    ),
    (&[SECOND, FIRST], MergeFault::Order),
    (&[b"line 0 out 0x0000000b", LABEL], MergeFault::Order),
    (&[LABEL, FIRST], MergeFault::Order),
    (&[FIRST, LABEL, ASKED], MergeFault::Order),
    (&[PART, FIRST], MergeFault::Order),
    (&[FIRST, PART, ASKED], MergeFault::Order),
    (&[PART, LABEL], MergeFault::Order),
    (&[FIRST, ASKED, b"00 ? 00000001"], MergeFault::Order),
    (&[FIRST, SECOND, ASKED], MergeFault::Order),
    (
        &[
            PART,
            b"part 16 1 0 0 0 0000000000000007 00000001 00000002 00000003 00000004 00000004",
        ],
        MergeFault::Order,
    ),
    (&[ASKED], MergeFault::Open),
    (&[FIRST, b"0001 ? 00000002"], MergeFault::Open),
    (&[SECOND, b"0001 ? 00000002"], MergeFault::Open),
    (&[SECOND, b"0001 ? 00000003", FIRST], MergeFault::Order),
    (&[FIRST, b"00 + 00000001"], MergeFault::Twice),
    (&[FIRST, ASKED, b"00 + 00000003"], MergeFault::Twice),
    (
        &[
            PART,
            b"part 16 1 0 0 0 0000000000000008 00000001 00000002 00000003 00000004 00000005",
        ],
        MergeFault::Apart,
    ),
];

#[test]
fn each_fault_is_found(rt: HostRuntime) -> Result<(), Fail> {
    for (lines, fault) in &FAULTS {
        holds(&rt, fault_of(rt.alloc(), lines) == Some(*fault), "lines");
    }
    Ok(())
}

// Of what there isn't as much as the parts say, of lines that can be merged to what isn't whole.
fn uneven_of(alloc: Global, lines: &[&[u8]]) -> Option<Uneven> {
    match merged(alloc, lines) {
        Ok(merger) if merger.begins() && !merger.is_whole() => Some(merger.uneven()),
        _ => None,
    }
}

// Lines of a part that has too much or too little of this.
static UNEVEN: [(&[&[u8]], Uneven); 7] = [
    (
        &[
            FIRST,
            b"part 16 1 0 0 0 0000000000000007 00000000 00000002 00000000 00000000 00000000",
        ],
        Uneven::Keys,
    ),
    (
        &[
            FIRST,
            SECOND,
            b"part 16 1 0 0 0 0000000000000007 00000000 00000001 00000000 00000000 00000000",
        ],
        Uneven::Keys,
    ),
    (
        &[
            FIRST,
            b"part 16 1 0 0 0 0000000000000007 00000000 00000001 00000001 00000000 00000000",
        ],
        Uneven::Asks,
    ),
    // A label is lost, comes twice, is another, or there is one of which no part says.
    (
        &[
            FIRST,
            b"part 16 1 0 0 0 0000000000000007 00000000 00000001 00000000 00000001 70082468",
        ],
        Uneven::Labels,
    ),
    (
        &[
            FIRST,
            LABEL,
            LABEL,
            b"part 16 1 0 0 0 0000000000000007 00000000 00000001 00000000 00000001 70082468",
        ],
        Uneven::Labels,
    ),
    (
        &[
            FIRST,
            b"line 0 out 0x0000000b",
            b"part 16 1 0 0 0 0000000000000007 00000000 00000001 00000000 00000001 70082468",
        ],
        Uneven::Labels,
    ),
    (
        &[
            FIRST,
            LABEL,
            b"part 16 1 0 0 0 0000000000000007 00000000 00000001 00000000 00000000 00000000",
        ],
        Uneven::Labels,
    ),
];

#[test]
fn what_isnt_whole_is_told(rt: HostRuntime) -> Result<(), Fail> {
    for (lines, what) in &UNEVEN {
        holds(&rt, uneven_of(rt.alloc(), lines) == Some(*what), "lines");
    }
    let after = [
        FIRST,
        b"part 16 1 0 0 0 0000000000000007 00000001 00000001 00000000 00000000 00000000",
    ];
    holds(&rt, is_cut(rt.alloc(), &after), "no first key");
    Ok(())
}

#[test]
fn a_merge_says_what_its_parts_are_of(rt: HostRuntime) -> Result<(), Fail> {
    match merged(rt.alloc(), &[FIRST, PART]) {
        Ok(merger) => holds(
            &rt,
            merger.about() == b"16 1 0 0 0 0000000000000007".as_slice(),
            "what they are of",
        ),
        Err(_) => holds(&rt, false, "lines"),
    }
    Ok(())
}
