//! Images, disassembled.
use crate::compare::{holds, same};
use pip_asm::{DisError, disassemble};
use pip_image::ImageError;
use pip_io::{Gatherer, MemSink, MemSource};
use std::alloc::AllocError;
use std::process::Abort;

const TEXT: &[u8] =
    b".frames 16\n.cpus 1\n.line 0 2 0\n.page 0x00400000\nli r1 7\nout r1\nsys 12\nint 64\n";

// The image of it without the zeros at its end.
const HEAD: [u8; 56] = [
    b'P', b'I', b'P', b'I', b'M', b'G', b'2', b'\n', 16, 0, 0, 0, 1, 0, 0, 0, 1, 0, 0, 0, 1, 0, 0,
    0, 0, 0, 0, 0, 2, 0, 0, 0, 0, 0, 0, 0, 0, 4, 0, 0, 7, 0, 16, 2, 0, 0, 16, 34, 12, 0, 0, 32, 64,
    0, 0, 33,
];

fn image() -> [u8; 4136] {
    let mut bytes = [0; 4136];
    for (byte, head) in bytes.iter_mut().zip(&HEAD) {
        *byte = *head;
    }
    bytes
}

// Disassembles bytes, where a read fails, 0 for none, and compares the answer, and how many bytes of `TEXT` are
// written.
fn check(
    rt: &(impl Abort + AllocGlobal),
    bytes: &[u8],
    failing: u32,
    fault: Option<ImageError>,
    written: usize,
) -> Result<(), AllocError> {
    let reads = [failing];
    let mut source = MemSource::new(bytes, &reads);
    let mut sink = MemSink::new(rt.alloc(), 4096, &[])?;
    let answer = disassemble(&mut source, &mut sink);
    let wanted = match fault {
        Some(fault) => Err(DisError::Image(fault)),
        None => Ok(()),
    };
    holds(rt, answer == wanted, failing);
    holds(rt, Some(sink.bytes()) == TEXT.get(..written), failing);
    Ok(())
}

#[test]
fn the_text_of_an_image(rt: HostRuntime) -> Result<(), AllocError> {
    check(&rt, &image(), 0, None, 77)
}

#[test]
fn what_was_accepted_is_written_before_the_fault(rt: HostRuntime) -> Result<(), AllocError> {
    let bytes = image();
    let front = &bytes[..4135.min(bytes.len())];
    let short = ImageError::Short { at: 4135 };
    check(&rt, front, 0, Some(short), 31)
}

#[test]
fn a_read_fails(rt: HostRuntime) -> Result<(), AllocError> {
    check(&rt, &image(), 3, Some(ImageError::Read), 31)
}

// Disassembles an image, where one write fails, and compares how many bytes were written.
fn check_written(
    rt: &(impl Abort + AllocGlobal),
    bytes: &[u8; 4136],
    failing: u32,
    is_last: bool,
    written: usize,
) -> Result<(), AllocError> {
    let calls = [failing];
    let mut source = MemSource::new(bytes, &[]);
    let mut sink = Gatherer::new(MemSink::new(rt.alloc(), 20_000, &calls)?);
    let answer = disassemble(&mut source, &mut sink);
    let wanted = if is_last {
        Ok(())
    } else {
        Err(DisError::Write)
    };
    holds(rt, answer == wanted, failing);
    same(rt, sink.sink().bytes().len(), written, failing);
    Ok(())
}

#[test]
fn each_write_fails_in_turn(rt: HostRuntime) -> Result<(), AllocError> {
    for (failing, written) in [(1, 0), (2, 19), (3, 31), (4, 77)] {
        check_written(&rt, &image(), failing, failing == 4, written)?;
    }
    Ok(())
}

#[test]
fn a_page_makes_few_writes(rt: HostRuntime) -> Result<(), AllocError> {
    // A page of 1025 lines of 17 bytes, of which 963 are written at once.
    let mut bytes = image();
    for byte in bytes[40..].iter_mut() {
        *byte = 0xff;
    }
    for (failing, written) in [(3, 31), (4, 16_402), (5, 17_456)] {
        check_written(&rt, &bytes, failing, failing == 5, written)?;
    }
    Ok(())
}
