//! An image by hand, read part by part and loaded, each fault of one, and failed reads.
ghost use Rattle.pip_base.specs.Opening.{CanOpen};

use crate::compare::{holds, same};
use pip_base::{Frame, Plan, Steps};
use pip_frames::{Frames, VecFrames};
use pip_image::{Header, ImageError, ImageReader, JointReader, load_image};
use pip_io::{Discard, Joint, MemSource};
use pip_kern::boot;
use std::alloc::{AllocError, Global};
use std::marker::Brand;
use std::process::Abort;
use std::sync::ledger::{Blank, Ledger};
use std::test::Fail;

// The image of one plan and one page, whose first word is 7, without the zeros at its end.
const HEAD: [u8; 41] = [
    b'P', b'I', b'P', b'I', b'M', b'G', b'2', b'\n', 16, 0, 0, 0, 1, 0, 0, 0, 1, 0, 0, 0, 1, 0, 0,
    0, 0, 0, 0, 0, 2, 0, 0, 0, 0, 0, 0, 0, 0, 4, 0, 0, 7,
];

fn worked() -> [u8; 4136] {
    let mut bytes = [0; 4136];
    for (byte, head) in bytes.iter_mut().zip(&HEAD) {
        *byte = *head;
    }
    bytes
}

// The first fault of an image of one page, whose source fails at the calls whose numbers are listed.
fn fault(bytes: &[u8], failing: &[u32]) -> Option<ImageError> {
    let mut source = MemSource::new(bytes, failing);
    let mut reader = ImageReader::new(&mut source);
    match reader.header() {
        Ok(_) => {}
        Err(error) => return Some(error),
    }
    let mut words = [0; 1024];
    match reader.page(&mut words) {
        Ok(Some(_)) => {}
        Ok(None) => return None,
        Err(error) => return Some(error),
    }
    reader.page(&mut words).err()
}

// The first word of the root's first page, in frame 12, once an image is loaded into frames that have booted.
fn first_word<L: Ledger>(
    alloc: Global,
    bytes: &[u8],
    failing: &[u32],
    blank: Blank,
) -> Result<Result<u32, ImageError>, AllocError>
    requires blank { CanOpen blank.name blank.parts L.name L.parts }
{
    let mut steps: Steps<L> = Steps::new(blank);
    let mut source = MemSource::new(bytes, failing);
    let mut reader = ImageReader::new(&mut source);
    let head = match reader.header() {
        Ok(head) => head,
        Err(error) => return Ok(Err(error)),
    };
    let mut mem = VecFrames::new(alloc, head.frames)?;
    boot(&mut mem, &mut steps);
    match load_image(&mut reader, &head, &mut mem) {
        Ok(()) => Ok(Ok(mem.word(Frame::new(12), 0, &mut steps))),
        Err(error) => Ok(Err(error)),
    }
}

// Compares what a header says.
fn check_header(rt: &impl Abort, header: &Header) {
    same(rt, header.frames, 16, "frames");
    same(rt, header.cpus, 1, "processors");
    same(rt, header.pages, 1, "pages");
    let plan = Plan {
        line: 0,
        first: 2,
        period: 0,
    };
    holds(rt, header.plans.as_slice() == [plan].as_slice(), "plans");
}

#[test]
fn an_image_is_read_to_its_end(rt: HostRuntime) -> Result<(), Fail> {
    let bytes = worked();
    let mut source = MemSource::new(&bytes, &[]);
    let mut sink = Discard::new();
    let mut joint = Joint::new(&mut source, &mut sink);
    let mut reader = JointReader::new();
    let header = reader.header(&mut joint)?;
    check_header(&rt, &header);
    let mut words = [0; 1024];
    let page = reader.page(&mut joint, &mut words)?.ok_or("a page")?;
    same(&rt, page.number(), 1024, "the page");
    same(&rt, words[0], 7, "its first word");
    let none = reader.page(&mut joint, &mut words)?;
    holds(&rt, none.is_none(), "the end");
    Ok(())
}

static FAULTS: [(usize, u8, ImageError); 8] = [
    (0, 0x51, ImageError::Magic { at: 0 }),
    (6, 0x31, ImageError::OldVersion { at: 0 }),
    (9, 0x11, ImageError::Frames { at: 8 }),
    (12, 5, ImageError::Cpus { at: 12 }),
    (16, 17, ImageError::Plan { at: 16 }),
    (21, 0x11, ImageError::Page { at: 20 }),
    (24, 16, ImageError::Plan { at: 24 }),
    (36, 3, ImageError::Page { at: 36 }),
];

// Compares the first fault of an image in which one byte is another.
fn check_byte(rt: &impl Abort, offset: usize, byte: u8, error: ImageError) {
    assert!(rt; offset < 4136);
    let mut bytes = worked();
    bytes[offset] = byte;
    holds(rt, fault(&bytes, &[]) == Some(error), offset);
}

#[test]
fn each_fault_has_its_offset(rt: HostRuntime) {
    for (offset, byte, error) in &FAULTS {
        check_byte(&rt, *offset, *byte, *error);
    }
}

#[test]
fn an_image_that_is_cut_is_short(rt: HostRuntime) {
    let bytes = worked();
    holds(&rt, fault(&bytes, &[]).is_none(), "the image");
    for count in [0, 7, 8, 38, 4135] {
        let short = ImageError::Short { at: count as u64 };
        holds(&rt, fault(&bytes[..count], &[]) == Some(short), count);
    }
}

#[test]
fn a_failed_read_is_no_fault_of_the_image(rt: HostRuntime) {
    let bytes = worked();
    for number in 1..5 {
        let found = fault(&bytes, &[number]);
        holds(&rt, found == Some(ImageError::Read), number);
    }
    holds(&rt, fault(&bytes, &[5]).is_none(), 5);
}

#[test]
fn the_pages_of_an_image_are_loaded(rt: HostRuntime) -> Result<(), Fail> {
    let bytes = worked();
    let whole = first_word::<Brand>(rt.alloc(), &bytes, &[], Blank::new(1))?;
    holds(&rt, whole == Ok(7), "the image");
    for number in 1..5 {
        let cut = first_word::<Brand>(rt.alloc(), &bytes, &[number], Blank::new(1))?;
        holds(&rt, cut == Err(ImageError::Read), number);
    }
    Ok(())
}
