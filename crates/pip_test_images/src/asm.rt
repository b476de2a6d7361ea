use crate::ends::check_end;
use pip_base::MAX_INPUT;
use pip_commands::asm;
use pip_io::{MemSink, MemSource};
use std::process::Abort;
use std::test::Fail;

const TEXT: &str =
    ".frames 16\n.cpus 1\n.line 0 2 0\n.page 0x00400000\nli r1 7\nout r1\nsys 12\nint 64\n";

/// The image of `TEXT` without the zeros at its end.
const HEAD: [u8; 56] = [
    b'P', b'I', b'P', b'I', b'M', b'G', b'2', b'\n', 16, 0, 0, 0, 1, 0, 0, 0, 1, 0, 0, 0, 1, 0, 0,
    0, 0, 0, 0, 0, 2, 0, 0, 0, 0, 0, 0, 0, 0, 4, 0, 0, 7, 0, 16, 2, 0, 0, 16, 34, 12, 0, 0, 32, 64,
    0, 0, 33,
];

// Assembles a text, where a read and a write fail, 0 for none, and compares the status and what was written.
fn check(
    rt: &(impl Abort + AllocGlobal),
    of: &str,
    text: &[u8],
    failing: (u32, u32),
    status: u8,
    written: &[u8],
) -> Result<(), Fail> {
    let (reads, writes) = ([failing.0], [failing.1]);
    let mut source = MemSource::new(text, &reads);
    let mut sink = MemSink::new(rt.alloc(), 8192, &writes)?;
    let ended = asm(rt.alloc(), &mut source, &mut sink);
    check_end(rt, of, &ended, sink.bytes(), status, written, false);
    Ok(())
}

// Does that for each row: a text, what fails, the status and what is written.
fn check_rows(
    rt: &(impl Abort + AllocGlobal),
    rows: &[(&str, (u32, u32), u8, &str)],
) -> Result<(), Fail> {
    for (text, failing, status, written) in rows {
        check(
            rt,
            text,
            text.as_bytes(),
            *failing,
            *status,
            written.as_bytes(),
        )?;
    }
    Ok(())
}

// The image of `TEXT`.
fn image() -> [u8; 4136] {
    let mut image = [0; 4136];
    for (byte, head) in image.iter_mut().zip(&HEAD) {
        *byte = *head;
    }
    image
}

#[test]
fn a_text_has_its_image(rt: HostRuntime) -> Result<(), Fail> {
    let image = image();
    check(&rt, TEXT, TEXT.as_bytes(), (0, 0), 0, &image)?;
    check(&rt, TEXT, TEXT.as_bytes(), (3, 2), 0, &image)
}

static FAULTS: [(&str, (u32, u32), u8, &str); 8] = [
    ("", (0, 0), 2, "bad line 1 unknown\n"),
    (".frames 16", (0, 0), 2, "bad line 2 unknown\n"),
    (
        ".frames 16\n.cpus 1\n.page 0x400000\njump r1\n",
        (0, 0),
        2,
        "bad line 4 unknown\n",
    ),
    (
        ".frames 16\n.cpus 1\n.page 0x400000\nout\n",
        (0, 0),
        2,
        "bad line 4 operand\n",
    ),
    (".frames 15\n.cpus 1\n", (0, 0), 2, "bad line 1 range\n"),
    (
        ".frames 16\n.cpus 1\n.page 0x400000\nbeq r1 r2 away\n",
        (0, 0),
        2,
        "bad line 4 label\n",
    ),
    (
        ".frames 16\n.cpus 1\n.page 0x400000\nx:\nx:\n",
        (0, 0),
        2,
        "bad line 5 twice\n",
    ),
    (
        ".frames 16\n.cpus 1\n.page 0x400000\n.zero 1025\n",
        (0, 0),
        2,
        "bad line 4 size\n",
    ),
];

#[test]
fn the_first_fault_is_named(rt: HostRuntime) -> Result<(), Fail> {
    check_rows(&rt, &FAULTS)
}

static FAILS: [(&str, (u32, u32), u8, &str); 4] = [
    (TEXT, (1, 0), 3, ""),
    (TEXT, (2, 0), 3, ""),
    (TEXT, (0, 1), 4, ""),
    ("", (0, 1), 4, ""),
];

#[test]
fn each_read_and_each_write_fails_in_turn(rt: HostRuntime) -> Result<(), Fail> {
    check_rows(&rt, &FAILS)
}

#[test]
fn one_byte_more_than_the_limit_is_judged_by_no_line(rt: HostRuntime) -> Result<(), Fail> {
    let text = vec![in rt.alloc(); b'\n'; MAX_INPUT as usize + 1]?;
    check(&rt, "all lines", &text, (0, 0), 6, b"")?;
    let whole = &text[1..];
    let line = b"bad line 16777217 unknown\n";
    check(&rt, "all lines but one", whole, (0, 0), 2, line)
}
