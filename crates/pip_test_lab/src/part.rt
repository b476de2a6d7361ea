use crate::compare::{holds, same};
use pip_certificates::part;
use pip_commands::asm;
use pip_io::{MemSink, MemSource};
use std::process::Abort;
use std::test::Fail;

// A program that shows a word over and over, and a line that it never takes. Its image has 4136 bytes.
const SHOWS: &str =
    ".frames 16\n.cpus 2\n.line 3 0 0\n.page 0x00400000\nli r1 5\nout r1\nbeq r0 r0 -2\n";

// That image and a text after it.
fn with_text(rt: &(impl Abort + AllocGlobal), text: &[u8]) -> Result<Vec<u8>, Fail> {
    let mut image = MemSink::new(rt.alloc(), 65536, &[])?;
    let made = asm(
        rt.alloc(),
        &mut MemSource::new(SHOWS.as_bytes(), &[]),
        &mut image,
    );
    assert_eq!(rt; made.status, 0);
    let mut input = Vec::new(rt.alloc());
    input.extend_from_slice(image.bytes())?;
    input.extend_from_slice(text)?;
    Ok(input)
}

// Checks a part after that image, and compares the status and the text.
fn check(
    rt: &(impl Abort + AllocGlobal),
    text: &[u8],
    from: u32,
    status: u8,
    lines: &str,
) -> Result<(), Fail> {
    let input = with_text(rt, text)?;
    let mut source = MemSource::new(input.as_slice(), &[]);
    let mut sink = MemSink::new(rt.alloc(), 16384, &[])?;
    let ended = part(rt.alloc(), from, &mut source, &mut sink);
    same(rt, sink.bytes(), lines.as_bytes(), lines);
    same(rt, ended.status, status, lines);
    holds(rt, ended.machine.is_none(), lines);
    Ok(())
}

#[test]
fn a_part_from_the_start_says_its_lines(rt: HostRuntime) -> Result<(), Fail> {
    let lines = "\
0001828080000000 + 00000000
0001828080000000880f08 + 00000001
00018280800402000500 ? 00000001
00018280800402000500880f08 ? 00000002
part 16 2 1 1 0 f38c4f1c5b62364e 00000000 00000002 00000002 00000000 00000000
";
    check(&rt, b"\0\0\0\0\0\0\0\0\x06\0\0\0\x04", 0, 0, lines)
}

#[test]
fn a_part_after_a_way_says_its_lines(rt: HostRuntime) -> Result<(), Fail> {
    let lines = "\
00018280800402000500 + 00000001
00018280800802000500 + 00000002
00018280800402000500880f08 + 00000002
00018280800802000500880f08 + 00000003
00018280800402000500 ? 00000003
00018280800802000500880f08 ? 00000003
00018280800402000500880f08 ? 00000004
line 0 out 0x00000005
part 16 2 1 1 0 f38c4f1c5b62364e 00000001 00000004 00000003 00000001 2407acc4
";
    let text = b"\0\0\0\0\x01\0\0\0\0\0\0\0\x01\0\0\0\x0c\0\0\0\x25\0";
    check(&rt, text, 0, 0, lines)
}

#[test]
fn keys_are_compared_with_the_words_of_the_base(rt: HostRuntime) -> Result<(), Fail> {
    let lines = "\
0001828080000000e80500 + 00000000
00018280800402000500e80500 ? 00000001
0001828080000000880f08e80500 ? 00000001
part 16 2 1 1 0 c75080c984eaa32d 00000000 00000001 00000002 00000000 00000000
";
    let text = b"\x01\0\0\0\x0d\0\0\0\x05\0\0\0\x4d\0\0\0\0\0\0\0\x03\0\0\0\0";
    check(&rt, text, 0, 0, lines)
}

static FAULTS: [(&[u8], &str); 16] = [
    (b"\0\0\0", "bad part short 4139\n"),
    (
        b"\x01\0\0\0\0\0\0\0\0\x04\0\0\0\0\0\0",
        "bad part base 4140\n",
    ),
    (
        b"\x01\0\0\0\x10\0\0\0\0\0\0\0\0\0\0\0",
        "bad part base 4140\n",
    ),
    (b"\x01\0\0\0\0\0\0\0\0\0\0\0\0\0", "bad part short 4150\n"),
    (b"\0\0\0\0\x01\0\0\0\0\0\0\0\0\0\0\0", "bad part way 4144\n"),
    (
        b"\0\0\0\0\x01\0\0\0\x03\0\0\0\x01\0\0\0",
        "bad part way 4144\n",
    ),
    (
        b"\0\0\0\0\x02\0\0\0\x01\0\0\0\x01\0\0\0\x01\0\0\0\x01\0\0\0",
        "bad part way 4152\n",
    ),
    (b"\0\0\0\0\0\0\0\0\xff\xff\xff\xff", "bad part marks 4144\n"),
    (b"\0\0\0\0\0\0\0\0\x09\0\0\0\xff", "bad part short 4149\n"),
    (
        b"\0\0\0\0\0\0\0\0\x09\0\0\0\xff\x02",
        "bad part marks 4149\n",
    ),
    (
        b"\0\0\0\0\0\0\0\0\x09\0\0\0\xff\x01\0",
        "bad part long 4150\n",
    ),
    // More marks than choices, or fewer; and a word with which the frame boots.
    (b"\0\0\0\0\0\0\0\0\x02\0\0\0\0", "bad part marks 4144\n"),
    (b"\0\0\0\0\0\0\0\0\x04\0\0\0\0", "bad part marks 4144\n"),
    (
        b"\x01\0\0\0\x0d\0\0\0\x05\0\0\0\0\0\0\0\0\0\0\0\x03\0\0\0\0",
        "bad part base 4140\n",
    ),
    (
        b"\x02\0\0\0\x0d\0\0\0\x05\0\0\0\x4d\0\0\0\x0d\0\0\0\x06\0\0\0\0\0\0\0\0\0\0\0\x02\0\0\0\0",
        "bad part base 4152\n",
    ),
    (
        b"\x01\0\0\0\x0d\0\0\0\x05\0\0\0\x4d\0\0\0\x01\0\0\0\0\0\0\0\x02\0\0\0\x02\0\0\0\0",
        "bad part marks 4164\n",
    ),
];

#[test]
fn the_first_fault_is_named(rt: HostRuntime) -> Result<(), Fail> {
    for (text, line) in &FAULTS {
        check(&rt, text, 0, 2, line)?;
    }
    Ok(())
}
