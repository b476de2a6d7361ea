use crate::compare::holds;
use pip_certificates::{PartLine, PartNumbers, label_sum, read_line, sum_and};
use std::test::Fail;

// Whether a line is of a key with these digits and this depth.
fn is_own(line: &[u8], digits: &[u8], at: u32) -> bool {
    match read_line(line) {
        Some(PartLine::Own { key, depth }) => key == digits && depth == at,
        _ => false,
    }
}

// Whether it is of one that is asked.
fn is_asked(line: &[u8], digits: &[u8], at: u32) -> bool {
    match read_line(line) {
        Some(PartLine::Asks { key, depth }) => key == digits && depth == at,
        _ => false,
    }
}

// Whether it shows this.
fn is_shown(line: &[u8], what: &[u8]) -> bool {
    match read_line(line) {
        Some(PartLine::Shows { text }) => text == what,
        _ => false,
    }
}

// Whether it is of a part of this, with these numbers.
fn is_told(line: &[u8], what: &[u8], of: PartNumbers) -> bool {
    match read_line(line) {
        Some(PartLine::Tells { about, numbers }) => about == what && numbers == of,
        _ => false,
    }
}

#[test]
fn each_form_of_a_line_is_read(rt: HostRuntime) {
    holds(&rt, is_own(b"018148 + 000003fa", b"018148", 0x3fa), "a key");
    holds(
        &rt,
        is_asked(b"018148 ? 000003fa", b"018148", 0x3fa),
        "a key that is asked",
    );
    holds(
        &rt,
        is_shown(b"line 1 out 0x00000002", b" 1 out 0x00000002"),
        "a label",
    );
    let numbers = PartNumbers {
        way: 0,
        keys: 28,
        asked: 0xabcdef,
        labels: 2,
        sum: 0xffffffff,
    };
    let line = b"part 16 1 0 0 30 00000000deadbeef 00000000 0000001c 00abcdef 00000002 ffffffff";
    let about = b"16 1 0 0 30 00000000deadbeef";
    holds(&rt, is_told(line, about, numbers), "a part");
}

#[test]
fn labels_are_summed(rt: HostRuntime) {
    holds(&rt, label_sum(b"") == 0x811c9dc5, "no byte");
    holds(&rt, label_sum(b"a") == 0xe40c292c, "a");
    holds(&rt, label_sum(b"foobar") == 0xbf9cf968, "foobar");
    holds(&rt, sum_and(0xffffffff, 3) == 2, "a sum that wraps");
}

static OTHERS: [&str; 13] = [
    "",
    "01814 + 00000001",
    "01814A + 00000001",
    "018148 + 0000001",
    "018148 * 00000001",
    "018148 +  0000001",
    "018148 + 0000000A",
    "018148  + 00000001",
    "part 00000000 00000001 00000002 00000003 0000004",
    "part 16 1 0 0 0 0000000000000007 00000000 00000001 00000002 00000003 0000000g",
    "part 16 1 0 0 0 0000000000000007 00000000 00000001 00000002  0000003 00000004",
    "part 16 1 0 0 0 0000000000000007 00000000 00000001 00000002",
    "parts 16 1 0 0 0 0000000000000007 00000000 00000001 00000002 00000003 00000004",
];

// What begins as a key, a label or a part, and doesn't have its form.
static FORMLESS: [&str; 21] = [
    " + 00000001",
    " ? 00000001",
    "line",
    "linex",
    "line 9 x",
    "line 0 a",
    "line 0",
    "line 4 out 0x00000001",
    "line 01 out 0x00000001",
    "line  0 out 0x00000001",
    "line 0 out 0x0000001",
    "line 0 out 0x0000000A",
    "line 0 out 0x00000001 ",
    "line 0 park 02 14",
    "line 0 switch 1 2",
    "line 0 call 1 park 1 2",
    "part x 00000000 00000001 00000002 00000003 00000004",
    "part 16 1 0 0 0000000000000007 00000000 00000001 00000002 00000003 00000004",
    "part 16 1 0 0 00 0000000000000007 00000000 00000001 00000002 00000003 00000004",
    "part 16 1 0 0 0 000000000000007 00000000 00000001 00000002 00000003 00000004",
    "part 16 1 0 0 0 1 0000000000000007 00000000 00000001 00000002 00000003 00000004",
];

static LABELS: [&str; 6] = [
    " 0 switch 1 2 14",
    " 1 park 2 14",
    " 3 call 12 reply 0 0x0000002a",
    " 2 call 11 switch 10 9 0",
    " 0 out 0xdeadbeef",
    " 0 call 0 reply 12 0x00000000",
];

#[test]
fn each_form_of_a_label_is_read(rt: HostRuntime) -> Result<(), Fail> {
    for label in &LABELS {
        let mut line = Vec::new(rt.alloc());
        line.extend_from_slice(b"line")?;
        line.extend_from_slice(label.as_bytes())?;
        holds(&rt, is_shown(&line, label.as_bytes()), *label);
    }
    Ok(())
}

#[test]
fn other_lines_say_nothing(rt: HostRuntime) {
    for line in &OTHERS {
        holds(&rt, read_line(line.as_bytes()).is_none(), *line);
    }
    for line in &FORMLESS {
        holds(&rt, read_line(line.as_bytes()).is_none(), *line);
    }
}
