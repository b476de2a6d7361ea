use crate::ends::check_end;
use crate::run::{FRAMES, TREE};
use pip_commands::audit;
use pip_io::{MemSink, MemSource};
use std::process::Abort;
use std::test::Fail;

// The number of frames, a text, the read and the write that fail, 0 for none, the status and what is written.
type Row = (u32, &'static str, (u32, u32), u8, &'static str);

// Judges a text of that many frames, where a read and a write fail, and compares the status and what is written.
fn check(
    rt: &(impl Abort + AllocGlobal),
    frames: u32,
    text: &str,
    failing: (u32, u32),
    status: u8,
    told: &str,
) -> Result<(), Fail> {
    assert!(rt; 16 <= frames && frames <= 4096);
    let (reads, writes) = ([failing.0], [failing.1]);
    let mut source = MemSource::new(text.as_bytes(), &reads);
    let mut sink = MemSink::new(rt.alloc(), 4096, &writes)?;
    let ended = audit(rt.alloc(), frames, &mut source, &mut sink);
    check_end(
        rt,
        text,
        &ended,
        sink.bytes(),
        status,
        told.as_bytes(),
        false,
    );
    Ok(())
}

// Does that for each row.
fn check_rows(rt: &(impl Abort + AllocGlobal), rows: &[Row]) -> Result<(), Fail> {
    for (frames, text, failing, status, told) in rows {
        check(rt, *frames, text, *failing, *status, told)?;
    }
    Ok(())
}

// Judges the text of the frames of a machine, where a part of it is another.
fn check_changed(
    rt: &(impl Abort + AllocGlobal),
    part: &str,
    other: &str,
    status: u8,
    told: &str,
) -> Result<(), Fail> {
    let (front, back) = FRAMES.split_once(part).ok_or("a part of the text")?;
    let text = format!(in rt.alloc(); "{front}{other}{back}")?;
    check(rt, 16, text.as_str(), (0, 0), status, told)
}

// Does that for each row: a part, the other, the status and what is written.
fn check_changes(
    rt: &(impl Abort + AllocGlobal),
    rows: &[(&str, &str, u8, &str)],
) -> Result<(), Fail> {
    for (part, other, status, told) in rows {
        check_changed(rt, part, other, *status, told)?;
    }
    Ok(())
}

#[test]
fn what_core_writes_is_a_layout(rt: HostRuntime) -> Result<(), Fail> {
    let lines = TREE.strip_suffix("end 0\n").ok_or("the last line")?;
    let told = format!(in rt.alloc(); "{lines}yes\n")?;
    check(&rt, 16, FRAMES, (0, 0), 0, told.as_str())?;
    // A word of a page that the root can reach is any word.
    check_changed(&rt, "22100000", "ffffffff", 0, told.as_str())?;
    check_changed(&rt, "end 0", "end 10000000", 0, told.as_str())
}

static WORDS: [(&str, &str, u8, &str); 4] = [
    (
        "0000c01f",
        "0000c01d",
        9,
        "no differs 6 0 0x0000c01d 0x0000c01f\n",
    ),
    ("00000002", "00000063", 9, "no unread 1 3\n"),
    ("0000c01f", "0000c01b", 9, "no unread 6 0\n"),
    ("0000c01f", "0000c00f", 9, "no unsound 2\n"),
];

static UNSOUND: [Row; 3] = [
    (16, "end 0\n", (0, 0), 9, "no unsound 1\n"),
    (16, "end 10000000\n", (0, 0), 9, "no unsound 1\n"),
    // In more frames these words aren't the layout of a root that has them all.
    (17, FRAMES, (0, 0), 9, "no unsound 2\n"),
];

#[test]
fn one_word_is_another(rt: HostRuntime) -> Result<(), Fail> {
    check_changes(&rt, &WORDS)?;
    check_rows(&rt, &UNSOUND)
}

// The text with the digit at a place changed: 0 to 1, and any other to 0.
fn with_digit_changed(rt: &(impl Abort + AllocGlobal), place: usize) -> Result<Vec<u8>, Fail> {
    let mut text = Vec::new(rt.alloc());
    for (at, byte) in FRAMES.bytes().enumerate() {
        text.push(match byte {
            b'0' if at == place => b'1',
            _ if at == place => b'0',
            byte => byte,
        })?;
    }
    Ok(text)
}

// The status of a text of 16 frames.
fn status_of(rt: &(impl Abort + AllocGlobal), text: &[u8]) -> Result<u8, Fail> {
    let mut sink = MemSink::new(rt.alloc(), 4096, &[])?;
    let ended = audit(rt.alloc(), 16, &mut MemSource::new(text, &[]), &mut sink);
    Ok(ended.status)
}

// Whether a digit of the line of the root's mask and lines says one of these: bit 0 of word 14, and the lower half of
// word 15.
fn is_of_interrupts(line: &str, column: usize) -> bool {
    line.starts_with("0008: 00000000 00000005") && (column == 67 || column >= 73)
}

// Judges the frames with one digit of a line changed: what the configuration says with it is told apart, but not the
// words of the page at 0x00400000.
fn check_digit(
    rt: &(impl Abort + AllocGlobal),
    place: usize,
    line: &str,
    column: usize,
    is_user: bool,
) -> Result<(), Fail> {
    let text = with_digit_changed(rt, place)?;
    let is_told = !is_user && !is_of_interrupts(line, column);
    let status = if is_told { 9 } else { 0 };
    let found = status_of(rt, text.as_slice())?;
    assert_eq!(rt; found, status, "at {column} of {line}");
    Ok(())
}

// Does that with each digit of a line that begins at a place of the text, if it is one of words.
fn check_digits(
    rt: &(impl Abort + AllocGlobal),
    place: usize,
    line: &str,
    is_user: bool,
) -> Result<(), Fail> {
    for (column, byte) in line.bytes().enumerate() {
        if line.as_bytes().get(4) == Some(&b':') && column >= 6 && byte != b' ' {
            check_digit(rt, place.wrapping_add(column), line, column, is_user)?;
        }
    }
    Ok(())
}

#[test]
fn each_digit_of_the_configuration_is_told(rt: HostRuntime) -> Result<(), Fail> {
    let mut place = 0_usize;
    let mut is_user = false;
    for line in FRAMES.lines() {
        is_user = is_user || line == "frame 12";
        check_digits(&rt, place, line, is_user)?;
        place = place.wrapping_add(line.len()).wrapping_add(1);
    }
    Ok(())
}

static BAD_LINES: [Row; 12] = [
    (16, "", (0, 0), 2, "bad line 1\n"),
    (16, "end 0", (0, 0), 2, "bad line 1\n"),
    (16, "end 0\n\n", (0, 0), 2, "bad line 2\n"),
    (16, "end 0\nend 0\n", (0, 0), 2, "bad line 2\n"),
    (16, "end 10000001\n", (0, 0), 2, "bad line 1\n"),
    (16, "end 00\n", (0, 0), 2, "bad line 1\n"),
    (16, "end 0x0\n", (0, 0), 2, "bad line 1\n"),
    (16, "frame 0\nend 0\n", (0, 0), 2, "bad line 2\n"),
    (16, "frame 16\n", (0, 0), 2, "bad line 1\n"),
    (16, "frame 01\n", (0, 0), 2, "bad line 1\n"),
    (16, "frame 1 \n", (0, 0), 2, "bad line 1\n"),
    (16, "\n", (0, 0), 2, "bad line 1\n"),
];

#[test]
fn lines_may_be_bad(rt: HostRuntime) -> Result<(), Fail> {
    check_rows(&rt, &BAD_LINES)
}

// The index and the first word of a group that is bad.
static BAD_GROUPS: [(&str, &str); 5] = [
    ("0000", "00000000"),
    ("0004", "00000001"),
    ("1024", "00000001"),
    ("0000", "0000000A"),
    ("0000", "0000001"),
];

// Frames and groups rise, and a group stands in a frame.
static BAD_ORDERS: [(&str, &str, u8, &str); 3] = [
    ("frame 9\n", "frame 6\n", 2, "bad line 18\n"),
    ("1016:", "0000:", 2, "bad line 6\n"),
    ("frame 1\n", "", 2, "bad line 1\n"),
];

// Judges a frame whose first group has these, and is bad.
fn check_group(rt: &(impl Abort + AllocGlobal), index: &str, word: &str) -> Result<(), Fail> {
    let zeros = " 00000000 00000000 00000000 00000000 00000000 00000000 00000000";
    let text = format!(in rt.alloc(); "frame 1\n{index}: {word}{zeros}\n")?;
    check(rt, 16, text.as_str(), (0, 0), 2, "bad line 2\n")
}

#[test]
fn groups_may_be_bad(rt: HostRuntime) -> Result<(), Fail> {
    for (index, word) in &BAD_GROUPS {
        check_group(&rt, index, word)?;
    }
    check_changes(&rt, &BAD_ORDERS)
}

static FAILS: [Row; 6] = [
    (16, FRAMES, (1, 0), 3, ""),
    (16, FRAMES, (2, 0), 3, ""),
    (16, FRAMES, (0, 1), 4, ""),
    (
        16,
        FRAMES,
        (0, 2),
        4,
        "part 1 depth 0 up 1 born 0x00000000 tables 2 rows 4\n",
    ),
    (16, "end 0\n", (0, 1), 4, ""),
    (16, "x\n", (0, 1), 4, ""),
];

#[test]
fn faults_end_an_audit(rt: HostRuntime) -> Result<(), Fail> {
    check_rows(&rt, &FAILS)
}
