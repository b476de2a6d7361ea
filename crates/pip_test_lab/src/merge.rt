use crate::compare::same;
use pip_certificates::merge;
use pip_io::{MemSink, MemSource};
use std::process::Abort;
use std::test::Fail;

const CLOSED: &str =
    "image 16 1 0 0 0 0000000000000007\nline 0 out 0x00000001\nstates 2 depth 1 closed\n";

// The lines of all parts, the status, and what is written.
static ROWS: [(&str, u8, &str); 23] = [
    (
        "0a + 00000000\n0b + 00000001\n0b ? 00000002\nline 0 out 0x00000001\npart 16 1 0 0 0 0000000000000007 00000000 00000002 00000001 00000001 2007a678\n",
        0,
        CLOSED,
    ),
    // Of two parts, and without the last newline.
    (
        "0a + 00000000\n0a ? 00000000\n0b + 00000001\nline 0 out 0x00000001\nline 0 out 0x00000001\n\
         part 16 1 0 0 0 0000000000000007 00000000 00000001 00000000 00000001 2007a678\npart 16 1 0 0 0 0000000000000007 00000001 00000001 00000001 00000001 2007a678",
        0,
        CLOSED,
    ),
    (
        "0a + 00000000\n0a ? 00000000\npart 16 1 0 0 0 0000000000000007 00000001 00000001 00000001 00000000 00000000\n",
        9,
        "no start\n",
    ),
    (
        "0a + 00000000\npart 16 1 0 0 0 0000000000000007 00000000 00000002 00000000 00000000 00000000\n",
        9,
        "apart keys\n",
    ),
    (
        "0a + 00000000\npart 16 1 0 0 0 0000000000000007 00000000 00000001 00000001 00000000 00000000\n",
        9,
        "apart asks\n",
    ),
    // A label is lost, or another, or comes once too often.
    (
        "0a + 00000000\npart 16 1 0 0 0 0000000000000007 00000000 00000001 00000000 00000001 2007a678\n",
        9,
        "apart labels\n",
    ),
    (
        "0a + 00000000\nline 0 out 0x00000002\npart 16 1 0 0 0 0000000000000007 00000000 00000001 00000000 00000001 2007a678\n",
        9,
        "apart labels\n",
    ),
    (
        "0a + 00000000\nline 0 out 0x00000001\nline 0 out 0x00000001\n\
         part 16 1 0 0 0 0000000000000007 00000000 00000001 00000000 00000001 2007a678\n",
        9,
        "apart labels\n",
    ),
    ("", 9, "no start\n"),
    (
        "line 0 out 0x00000001\n0a + 00000000\n",
        2,
        "bad line 2 order\n",
    ),
    (
        "0a + 00000000\n0a ? 00000002\n0a ? 00000001\n",
        2,
        "bad line 3 order\n",
    ),
    ("\n", 2, "bad line 1 form\n"),
    (" + 00000000\n", 2, "bad line 1 form\n"),
    ("0a + 00000000\nlinex\n", 2, "bad line 2 form\n"),
    ("0a + 00000000\nline 9 x\n", 2, "bad line 2 form\n"),
    (
        "0a + 00000000\npart x 00000000 00000001 00000000 00000000 00000000\n",
        2,
        "bad line 2 form\n",
    ),
    ("0a + 00000000\n0A + 00000000\n", 2, "bad line 2 form\n"),
    ("0b + 00000000\n0a + 00000000\nx", 2, "bad line 2 order\n"),
    (
        "line 0 out 0x0000000b\nline 0 out 0x0000000a\n",
        2,
        "bad line 2 order\n",
    ),
    ("0a + 00000001\n0a ? 00000000\n", 9, "open 0a ? 00000000\n"),
    ("0a ? 00000000", 9, "open 0a ? 00000000\n"),
    (
        "0a + 00000001\n0a + 00000002\nx\n",
        9,
        "twice 0a + 00000002\n",
    ),
    (
        "part 16 1 0 0 0 0000000000000007 00000000 00000000 00000000 00000000 00000000\npart 16 1 0 0 0 0000000000000008 00000000 00000000 00000000 00000000 00000000\n",
        9,
        "apart 2\n",
    ),
];

// Merges the lines of all parts, where a read fails, 0 for none, into a sink of that many bytes, and compares the
// status and what is written.
fn check(
    rt: &(impl Abort + AllocGlobal),
    lines: &[u8],
    failing: u32,
    room: u32,
    status: u8,
    text: &[u8],
) -> Result<(), Fail> {
    let reads = [failing];
    let mut source = MemSource::new(lines, &reads);
    let mut sink = MemSink::new(rt.alloc(), room, &[])?;
    let ended = merge(rt.alloc(), &mut source, &mut sink);
    same(rt, ended.status, status, "the status");
    same(rt, sink.bytes(), text, "the text");
    Ok(())
}

#[test]
fn lines_say_what_they_say_together(rt: HostRuntime) -> Result<(), Fail> {
    for (lines, status, text) in &ROWS {
        check(&rt, lines.as_bytes(), 0, 4096, *status, text.as_bytes())?;
    }
    Ok(())
}

// The line of a key of so many bytes, longer than what is read at once.
fn long_line(rt: &(impl Abort + AllocGlobal), kind: &[u8]) -> Result<Vec<u8>, Fail> {
    let mut line = Vec::new(rt.alloc());
    for _ in 0..40_000 {
        line.push(b'0')?;
    }
    line.extend_from_slice(kind)?;
    line.extend_from_slice(b" 00000000\n")?;
    Ok(line)
}

#[test]
fn a_line_may_be_long(rt: HostRuntime) -> Result<(), Fail> {
    let mut lines = long_line(&rt, b" +")?;
    lines.extend_from_slice(
        b"part 16 1 0 0 0 0000000000000007 00000000 00000001 00000000 00000000 00000000\n",
    )?;
    check(
        &rt,
        &lines,
        0,
        80,
        0,
        b"image 16 1 0 0 0 0000000000000007\nstates 1 depth 0 closed\n",
    )
}

#[test]
fn a_long_line_may_be_open(rt: HostRuntime) -> Result<(), Fail> {
    // Asked by none that has it; then in the way of a read that fails, and of a write.
    let asked = long_line(&rt, b" ?")?;
    let mut open = Vec::new(rt.alloc());
    open.extend_from_slice(b"open ")?;
    open.extend_from_slice(&asked)?;
    check(&rt, &asked, 0, 65536, 9, &open)?;
    check(&rt, &asked, 3, 65536, 3, b"")?;
    check(&rt, &asked, 0, 100, 4, b"open ")
}
