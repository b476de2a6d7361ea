//! Texts of raw memories at the edges of the grammar, failed reads, and a memory that comes back.
ghost use Rattle.std.specs.Prelude.{◌≡◌, ◌<◌, length, replicate};
ghost use Rattle.pip_base.specs.Opening.{CanOpen};
ghost use Rattle.pip_base.specs.Memory.{zeros};

use crate::compare::{holds, same};
use pip_audit::{CoreError, read_core, read_core_from_joint};
use pip_base::{Frame, Steps};
use pip_dump::frame_text;
use pip_frames::{Frames, VecFrames};
use pip_io::{Discard, Joint, MemSink, MemSource, write_all};
use pip_kern::boot;
use std::alloc::{AllocError, Global};
use std::marker::Brand;
use std::process::Abort;
use std::sync::ledger::{Blank, Ledger};
use std::test::Fail;

// Reads a text into 16 frames, through a source that fails at the calls whose numbers are listed.
fn read(alloc: Global, text: &[u8], failing: &[u32]) -> Result<Result<(), CoreError>, AllocError> {
    let mut mem = VecFrames::new(alloc, 16)?;
    let mut source = MemSource::new(text, failing);
    Ok(read_core(&mut source, &mut mem))
}

// A frame's line and a group of it, and then a text.
fn after_a_group(alloc: Global, text: &str) -> Result<Vec<u8>, AllocError> {
    let mut whole = Vec::new(alloc);
    whole.extend_from_slice(b"frame 3\n")?;
    whole.extend_from_slice(
        b"0016: 00000000 00000000 00000000 00000000 00000000 00000000 00000000 ffffffff\n",
    )?;
    whole.extend_from_slice(text.as_bytes())?;
    Ok(whole)
}

static TEXTS: [(&str, u64); 15] = [
    ("", 1),
    ("end 0\n", 0),
    ("end 10000000\n", 0),
    ("end 10000001\n", 1),
    ("end 00\n", 1),
    ("end 0", 1),
    ("end 0\r\n", 1),
    ("end 0\n\n", 2),
    ("end 0\n ", 2),
    ("\nend 0\n", 1),
    ("frame 0\nend 0\n", 2),
    ("frame 3\nframe 4\n", 2),
    ("frame 16\n", 1),
    ("frame 4294967296\n", 1),
    ("0000: 00000001", 1),
];

// Reads a text, and compares the number of its first bad line, 0 for none.
fn check_text(
    rt: &(impl Abort + AllocGlobal),
    text: &[u8],
    of: &str,
    line: u64,
) -> Result<(), Fail> {
    let wanted = if line == 0 {
        Ok(())
    } else {
        Err(CoreError::Line(line))
    };
    same(rt, read(rt.alloc(), text, &[])?, wanted, of);
    Ok(())
}

#[test]
fn a_text_is_read_or_refused_at_its_first_bad_line(rt: HostRuntime) -> Result<(), Fail> {
    for (text, line) in &TEXTS {
        check_text(&rt, text.as_bytes(), text, *line)?;
    }
    Ok(())
}

static GROUPS: [(&str, u64); 13] = [
    ("end 0\n", 0),
    (
        "0024: 00000001 00000000 00000000 00000000 00000000 00000000 00000000 00000000\nend 0\n",
        0,
    ),
    (
        "1016: 00000001 00000000 00000000 00000000 00000000 00000000 00000000 00000000\nend 0\n",
        0,
    ),
    (
        "1024: 00000001 00000000 00000000 00000000 00000000 00000000 00000000 00000000\n",
        3,
    ),
    (
        "0020: 00000001 00000000 00000000 00000000 00000000 00000000 00000000 00000000\n",
        3,
    ),
    (
        "0016: 00000001 00000000 00000000 00000000 00000000 00000000 00000000 00000000\n",
        3,
    ),
    (
        "0024: 00000000 00000000 00000000 00000000 00000000 00000000 00000000 00000000\n",
        3,
    ),
    (
        "0024: 0000000A 00000000 00000000 00000000 00000000 00000000 00000000 00000000\n",
        3,
    ),
    (
        "0024: 00000001 00000000 00000000 00000000 00000000 00000000 00000000\n",
        3,
    ),
    (
        "0024: 00000001 00000000 00000000 00000000 00000000 00000000 00000000 00000000 \n",
        3,
    ),
    ("frame 3\n", 3),
    ("frame 4\n", 4),
    ("", 3),
];

#[test]
fn after_a_group_stands_a_later_one_or_a_later_frame(rt: HostRuntime) -> Result<(), Fail> {
    for (text, line) in &GROUPS {
        let whole = after_a_group(rt.alloc(), text)?;
        check_text(&rt, &whole, text, *line)?;
    }
    Ok(())
}

// A text, and the call that fails.
static FAILS: [(&str, u32); 4] = [("end 0\n", 1), ("end 0\n", 2), ("end 0", 1), ("end 0", 2)];

#[test]
fn a_failed_read_is_no_bad_line(rt: HostRuntime) -> Result<(), Fail> {
    for (text, failing) in &FAILS {
        let calls = [*failing];
        let result = read(rt.alloc(), text.as_bytes(), &calls)?;
        same(&rt, result, Err(CoreError::Read), text);
    }
    Ok(())
}

// The text of all frames, in a sink.
fn core_of<M: Frames, L: Ledger>(
    rt: &impl Abort,
    alloc: Global,
    mem: &M,
    steps: &mut Steps<L>,
) -> Result<MemSink<'static>, AllocError>
    requires frames { length (M.memory mem.now) ≡ 16 }
{
    let mut text = MemSink::new(alloc, 4096, &[])?;
    for f in 0..16 {
        let written = frame_text(mem, Frame::new(f), &mut text, steps);
        holds(rt, written.is_ok(), f);
    }
    let ended = write_all(&mut text, b"end 0\n");
    holds(rt, ended.is_ok(), "the last line");
    Ok(text)
}

// Compares each word of each frame.
fn check_frames<M: Frames, L: Ledger>(rt: &impl Abort, mem: &M, back: &M, steps: &mut Steps<L>)
    requires frames { length (M.memory mem.now) ≡ 16 }
    requires others { length (M.memory back.now) ≡ 16 }
{
    for f in 0..16 {
        let frame = Frame::new(f);
        let read = back.frame(frame, steps);
        let written = mem.frame(frame, steps);
        assert_eq!(rt; read, written, "frame {f}");
    }
}

// Boots 16 frames, and reads what is written of them into others: each word is the same.
fn compare<M: Frames, L: Ledger>(
    rt: &impl Abort,
    alloc: Global,
    mem: &mut M,
    back: &mut M,
    blank: Blank,
) -> Result<(), AllocError>
    requires frames { length (M.memory mem.old) ≡ 16 }
    requires zeros { M.memory back.old ≡ replicate 16 (zeros 1024) }
    requires blank { CanOpen blank.name blank.parts L.name L.parts }
{
    let mut steps: Steps<L> = Steps::new(blank);
    boot(mem, &mut steps);
    let text = core_of(rt, alloc, mem, &mut steps)?;
    let mut source = MemSource::new(text.bytes(), &[]);
    let mut sink = Discard::new();
    let read = read_core_from_joint(&mut Joint::new(&mut source, &mut sink), back);
    holds(rt, read.is_ok(), "all frames");
    check_frames(rt, mem, back, &mut steps);
    Ok(())
}

#[test]
fn what_is_written_of_a_memory_is_read_as_this_memory(rt: HostRuntime) -> Result<(), Fail> {
    let mut mem = VecFrames::new(rt.alloc(), 16)?;
    let mut back = VecFrames::new(rt.alloc(), 16)?;
    compare::<VecFrames, Brand>(&rt, rt.alloc(), &mut mem, &mut back, Blank::new(1))?;
    Ok(())
}
