use crate::ends::check_end;
use pip_commands::dis;
use pip_io::{Gatherer, MemSink, MemSource};
use std::process::Abort;
use std::test::Fail;

const TEXT: &str =
    ".frames 16\n.cpus 1\n.line 0 2 0\n.page 0x00400000\nli r1 7\nout r1\nsys 12\nint 64\n";

/// The image of `TEXT` without the zeros at its end.
const HEAD: [u8; 56] = [
    b'P', b'I', b'P', b'I', b'M', b'G', b'2', b'\n', 16, 0, 0, 0, 1, 0, 0, 0, 1, 0, 0, 0, 1, 0, 0,
    0, 0, 0, 0, 0, 2, 0, 0, 0, 0, 0, 0, 0, 0, 4, 0, 0, 7, 0, 16, 2, 0, 0, 16, 34, 12, 0, 0, 32, 64,
    0, 0, 33,
];

// The image of `TEXT`.
fn image() -> [u8; 4136] {
    let mut bytes = [0; 4136];
    for (byte, head) in bytes.iter_mut().zip(&HEAD) {
        *byte = *head;
    }
    bytes
}

// Disassembles bytes, where a read and a write fail, 0 for none, and compares the status and the text.
fn check(
    rt: &(impl Abort + AllocGlobal),
    bytes: &[u8],
    failing: (u32, u32),
    status: u8,
    text: &[u8],
) -> Result<(), Fail> {
    let (reads, writes) = ([failing.0], [failing.1]);
    let mut source = MemSource::new(bytes, &reads);
    let mut sink = MemSink::new(rt.alloc(), 8192, &writes)?;
    let ended = dis(rt.alloc(), &mut source, &mut sink);
    check_end(rt, TEXT, &ended, sink.bytes(), status, text, false);
    Ok(())
}

// Does that with the first bytes of the image for each row: how many, what fails, the status, and how many bytes of
// `TEXT` are written.
fn check_fails(
    rt: &(impl Abort + AllocGlobal),
    rows: &[(usize, (u32, u32), u8, usize)],
) -> Result<(), Fail> {
    let image = image();
    for (count, failing, status, written) in rows {
        let bytes = image.get(..*count).ok_or("bytes of the image")?;
        let text = TEXT.as_bytes().get(..*written).ok_or("bytes of the text")?;
        check(rt, bytes, *failing, *status, text)?;
    }
    Ok(())
}

static WHOLE: [(usize, (u32, u32), u8, usize); 1] = [(4136, (0, 0), 0, 77)];

#[test]
fn an_image_has_its_text(rt: HostRuntime) -> Result<(), Fail> {
    check_fails(&rt, &WHOLE)
}

static FAILS: [(usize, (u32, u32), u8, usize); 9] = [
    (4136, (1, 0), 3, 0),
    (4136, (2, 0), 3, 19),
    (4136, (3, 0), 3, 31),
    (4136, (4, 0), 3, 77),
    (4136, (0, 1), 4, 0),
    (4136, (0, 2), 4, 19),
    (4136, (0, 3), 4, 31),
    (7, (0, 1), 4, 0),
    (4136, (5, 4), 0, 77),
];

#[test]
fn each_read_and_each_write_fails_in_turn(rt: HostRuntime) -> Result<(), Fail> {
    check_fails(&rt, &FAILS)
}

// Does that with the first bytes of the image, of which one is another, for each row: how many, which, the byte and the
// text.
fn check_faults(
    rt: &(impl Abort + AllocGlobal),
    rows: &[(usize, usize, u8, &str)],
) -> Result<(), Fail> {
    for (count, at, byte, text) in rows {
        let mut bytes = image();
        *bytes.get_mut(*at).ok_or("a byte of the image")? = *byte;
        let front = bytes.get(..*count).ok_or("bytes of the image")?;
        check(rt, front, (0, 0), 2, text.as_bytes())?;
    }
    Ok(())
}

static SHORT: [(usize, usize, u8, &str); 5] = [
    (
        4135,
        4135,
        0,
        ".frames 16\n.cpus 1\n.line 0 2 0\nbad image short 4135\n",
    ),
    (
        38,
        4135,
        0,
        ".frames 16\n.cpus 1\n.line 0 2 0\nbad image short 38\n",
    ),
    (24, 4135, 0, ".frames 16\n.cpus 1\nbad image short 24\n"),
    (7, 4135, 0, "bad image short 7\n"),
    (0, 4135, 0, "bad image short 0\n"),
];

#[test]
fn a_short_image_is_named_at_its_end(rt: HostRuntime) -> Result<(), Fail> {
    check_faults(&rt, &SHORT)
}

static FAULTS: [(usize, usize, u8, &str); 10] = [
    (4136, 0, 0x51, "bad image magic 0\n"),
    (4136, 6, 0x31, "bad image oldversion 0\n"),
    (4136, 8, 15, "bad image frames 8\n"),
    (4136, 9, 0x10, "bad image frames 8\n"),
    (4136, 12, 5, "bad image cpus 12\n"),
    (4136, 16, 17, "bad image plan 16\n"),
    (4136, 21, 0x11, "bad image page 20\n"),
    (4136, 24, 16, ".frames 16\n.cpus 1\nbad image plan 24\n"),
    (
        4136,
        36,
        3,
        ".frames 16\n.cpus 1\n.line 0 2 0\nbad image page 36\n",
    ),
    (
        4136,
        20,
        0,
        ".frames 16\n.cpus 1\n.line 0 2 0\nbad image long 36\n",
    ),
];

#[test]
fn a_fault_is_named_after_what_was_accepted(rt: HostRuntime) -> Result<(), Fail> {
    check_faults(&rt, &FAULTS)
}

// Disassembles two parts one after another, and compares the text.
fn check_longer(
    rt: &(impl Abort + AllocGlobal),
    front: &[u8],
    back: &[u8],
    last: &str,
) -> Result<(), Fail> {
    let mut bytes = Vec::new(rt.alloc());
    bytes.extend_from_slice(front)?;
    bytes.extend_from_slice(back)?;
    let text = format!(in rt.alloc(); "{TEXT}{last}")?;
    check(rt, &bytes, (0, 0), 2, text.as_str().as_bytes())
}

#[test]
fn what_comes_after_the_last_page_is_a_fault(rt: HostRuntime) -> Result<(), Fail> {
    let mut image = image();
    check_longer(&rt, &image, &[0], "bad image long 4136\n")?;
    image[20] = 2;
    check_longer(&rt, &image, &image[36..], "bad image twice 4136\n")
}

// Disassembles the image by a gatherer, where a read and a write fail, and compares the status and how many bytes of
// `TEXT` are written.
fn check_gathered(
    rt: &(impl Abort + AllocGlobal),
    failing: (u32, u32),
    status: u8,
    written: usize,
) -> Result<(), Fail> {
    let (reads, writes) = ([failing.0], [failing.1]);
    let bytes = image();
    let mut source = MemSource::new(&bytes, &reads);
    let mut sink = Gatherer::new(MemSink::new(rt.alloc(), 8192, &writes)?);
    let ended = dis(rt.alloc(), &mut source, &mut sink);
    let text = TEXT.as_bytes().get(..written).ok_or("bytes of the text")?;
    check_end(rt, TEXT, &ended, sink.sink().bytes(), status, text, false);
    Ok(())
}

// The text of each part is one write of a gatherer's sink, before more is read.
#[test]
fn a_part_is_gathered(rt: HostRuntime) -> Result<(), Fail> {
    check_gathered(&rt, (3, 9), 3, 31)?;
    check_gathered(&rt, (5, 3), 4, 31)?;
    check_gathered(&rt, (5, 4), 0, 77)
}
