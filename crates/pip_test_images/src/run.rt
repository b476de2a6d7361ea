ghost use Rattle.std.specs.Prelude.{◌<◌};
ghost use Rattle.pip_base.specs.Opening.{CanOpen};
ghost use Rattle.pip_io.specs.Memory.{source_faults};
ghost use Rattle.pip_io.specs.Histories.{remaining};
ghost use Rattle.pip_lines.specs.Due.{AnswersDue};

use crate::ends::{check_end, holds, image_of};
use pip_base::{Plan, Steps};
use pip_commands::{MONITOR, core_dump, dis, new_machine, run, tree};
use pip_io::{Discard, Failed, Gatherer, MemSink, MemSource, Source};
use pip_lines::{Callback, Line, due, raise_due, run_lines};
use std::cell::Cell;
use std::marker::Brand;
use std::process::Abort;
use std::sync::ledger::{Blank, Ledger};
use std::test::Fail;

// What a command shows of a run.
#[derive(Clone, Copy)]
enum Report {
    Trace,
    Tree,
    Frames,
}

const TEXT: &str =
    ".frames 16\n.cpus 1\n.line 0 2 0\n.page 0x00400000\nli r1 7\nout r1\nsys 12\nint 64\n";

// `tree` and `core` show it, too, where no step was made.
pub(super) const TREE: &str = "part 1 depth 0 up 1 born 0x00000000 tables 2 rows 4
row 0x00400000 12 rwx user free
row 0x00401000 13 rwx user free
row 0x00402000 14 rwx user free
row 0xfffff000 15 rwx user free
end 0
";

pub(super) const FRAMES: &str = "frame 1
0000: 00000000 00000001 00000000 00000002 00000000 00000003 00000000 00000004
0008: 00000000 00000005 00000000 00000001 00000002 00000000 00000000 00000000
frame 2
0000: 00000000 00006001 00000000 00000000 00000000 00000000 00000000 00000000
1016: 00000000 00000000 00000000 00000000 00000000 00000000 00000000 00009001
frame 3
0000: 00000000 00007001 00000000 00000000 00000000 00000000 00000000 00000000
1016: 00000000 00000000 00000000 00000000 00000000 00000000 00000000 0000a001
frame 4
0000: 00000000 00008001 00000000 00000000 00000000 00000000 00000000 00000000
1016: 00000000 00000000 00000000 00000000 00000000 00000000 00000000 0000b001
frame 5
0000: 00000000 00000000 00000000 00000006 00000000 00000007 00000000 00000008
0008: 00000000 00000009 00000000 0000000a 00000000 0000000b 00000000 00000000
frame 6
0000: 0000c01f 0000d01f 0000e01f 00000000 00000000 00000000 00000000 00000000
frame 9
1016: 00000000 00000000 00000000 00000000 00000000 00000000 00000000 0000f01f
frame 12
0000: 02100007 22100000 2000000c 21000040 00000000 00000000 00000000 00000000
end 0
";

const TRACE: &str =
    "image 16 1 1 1\n1 0 out 0x00000007\n2 0 call 12 reply 1 0x00000000\n3 0 park 1 64\nend 6\n";

// Makes that many steps of an image by the schedule of seed 1, where a read and a write fail, 0 for none, and compares
// the status and the text.
fn check_report(
    rt: &(impl Abort + AllocGlobal),
    report: Report,
    image: &[u8],
    count: u32,
    failing: (u32, u32),
    status: u8,
    text: &str,
) -> Result<(), Fail> {
    let (reads, writes) = ([failing.0], [failing.1]);
    let mut source = MemSource::new(image, &reads);
    let mut sink = MemSink::new(rt.alloc(), 16384, &writes)?;
    let ended = match report {
        Report::Trace => run(rt.alloc(), count, 1, &mut source, &mut sink),
        Report::Tree => tree(rt.alloc(), count, 1, &mut source, &mut sink),
        Report::Frames => core_dump(rt.alloc(), count, 1, &mut source, &mut sink),
    };
    let written = sink.bytes();
    check_end(
        rt,
        "an image",
        &ended,
        written,
        status,
        text.as_bytes(),
        status == 0,
    );
    Ok(())
}

// Does that with one image for each row: what is shown, the number of steps, what fails, the status and the text.
fn check_reports(
    rt: &(impl Abort + AllocGlobal),
    image: &[u8],
    rows: &[(Report, u32, (u32, u32), u8, &str)],
) -> Result<(), Fail> {
    for (report, count, failing, status, text) in rows {
        check_report(rt, *report, image, *count, *failing, *status, text)?;
    }
    Ok(())
}

// Compares the trace of an assembly text.
fn check(rt: &(impl Abort + AllocGlobal), text: &str, count: u32, trace: &str) -> Result<(), Fail> {
    let image = image_of(rt, text)?;
    check_report(rt, Report::Trace, image.bytes(), count, (0, 0), 0, trace)
}

// Does that for each row: the text, the number of steps and the trace.
fn check_traces(rt: &(impl Abort + AllocGlobal), rows: &[(&str, u32, &str)]) -> Result<(), Fail> {
    for (text, count, trace) in rows {
        check(rt, text, *count, trace)?;
    }
    Ok(())
}

// The lines of a program, and those of its trace.
static EFFECTS: [(&str, &str); 19] = [
    // A half word replaces all or the upper half.
    (
        "li r1 4660\nlih r1 32768\nmov r2 r1\nout r2\nli r1 1\nout r1\nint 64",
        "3 0 out 0x80001234\n5 0 out 0x00000001\n6 0 park 1 64",
    ),
    // Sums, differences and products are kept to 32 bits.
    (
        "lih r1 65535\nori r1 r1 65535\nli r2 1\nadd r3 r1 r2\nout r3\nsub r4 r3 r2\nout r4\nmul r5 r1 r1\nout r5\nint 64",
        "4 0 out 0x00000000\n6 0 out 0xffffffff\n8 0 out 0x00000001\n9 0 park 1 64",
    ),
    // Quotients and remainders are those of plain numbers.
    (
        "lih r1 65535\nori r1 r1 65535\nli r2 2\ndiv r3 r1 r2\nout r3\nrem r4 r1 r2\nout r4\nint 64",
        "4 0 out 0x7fffffff\n6 0 out 0x00000001\n7 0 park 1 64",
    ),
    // A quotient by zero traps with vector 0.
    ("li r1 7\ndiv r1 r1 r2\nout r1", "1 0 park 1 0"),
    // And so does a remainder.
    ("li r1 7\nrem r1 r1 r2\nout r1", "1 0 park 1 0"),
    // Bit by bit.
    (
        "li r1 12\nli r2 10\nand r3 r1 r2\nout r3\nor r3 r1 r2\nout r3\nxor r3 r1 r2\nout r3\nint 64",
        "3 0 out 0x00000008\n5 0 out 0x0000000e\n7 0 out 0x00000006\n8 0 park 1 64",
    ),
    // A shift is by the remainder of 32.
    (
        "lih r1 32768\nori r1 r1 1\nli r2 31\nshl r3 r1 r2\nout r3\nshr r3 r1 r2\nout r3\nsar r3 r1 r2\nout r3\nli r2 33\nshl r3 r1 r2\nout r3\nshr r3 r1 r2\nout r3\nsar r3 r1 r2\nout r3\nli r2 32\nsar r3 r1 r2\nout r3\nint 64",
        "4 0 out 0x80000000\n6 0 out 0x00000001\n8 0 out 0xffffffff\n11 0 out 0x00000002\n13 0 out 0x40000000\n15 0 out 0xc0000000\n18 0 out 0x80000001\n19 0 park 1 64",
    ),
    // Signed and plain comparisons differ at the top bit.
    (
        "lih r1 65535\nori r1 r1 65535\nli r2 1\nslt r3 r1 r2\nout r3\nsltu r3 r1 r2\nout r3\nslt r3 r2 r1\nout r3\nsltu r3 r2 r1\nout r3\nslt r3 r1 r1\nout r3\nint 64",
        "4 0 out 0x00000001\n6 0 out 0x00000000\n8 0 out 0x00000000\n10 0 out 0x00000001\n12 0 out 0x00000000\n13 0 park 1 64",
    ),
    // Immediates.
    (
        "addi r1 r0 -1\nout r1\nandi r2 r1 65535\nout r2\nori r3 r0 32768\nout r3\nshli r4 r1 31\nout r4\nshri r5 r1 31\nout r5\naddi r6 r1 32767\nout r6\nint 64",
        "1 0 out 0xffffffff\n3 0 out 0x0000ffff\n5 0 out 0x00008000\n7 0 out 0x80000000\n9 0 out 0x00000001\n11 0 out 0x00007ffe\n12 0 park 1 64",
    ),
    // Words and bytes are loaded and stored.
    (
        "lih r1 64\nori r1 r1 256\nlih r2 35243\nori r2 r2 52719\nstw r2 r1 0\nldb r3 r1 0\nout r3\nldb r3 r1 3\nout r3\nstb r2 r1 -4\nldw r4 r1 -4\nout r4\nstb r2 r1 2\nldw r4 r1 0\nout r4\nint 64",
        "6 0 out 0x000000ef\n8 0 out 0x00000089\n11 0 out 0x000000ef\n14 0 out 0x89efcdef\n15 0 park 1 64",
    ),
    // An address that is no multiple of 4.
    ("lih r1 64\nldw r2 r1 2\nout r2", "1 0 park 1 17"),
    // An address without a page.
    ("li r1 1\nstb r1 r0 0\nout r1", "1 0 park 1 14"),
    // Branches are taken or not.
    (
        "lih r1 65535\nori r1 r1 65535\nbeq r1 r0 1\nout r0\nbne r1 r1 1\nout r1\nblt r1 r0 1\nout r0\nbltu r1 r0 1\nout r1\nblt r0 r1 1\nout r1\nbltu r0 r1 1\nout r0\nbeq r0 r0 1\nout r0\nbne r0 r1 1\nout r0\nint 64",
        "3 0 out 0x00000000\n5 0 out 0xffffffff\n8 0 out 0xffffffff\n10 0 out 0xffffffff\n14 0 park 1 64",
    ),
    // A jump keeps the next address, and another goes back to it.
    (
        "jal r1 2\nout r2\nint 64\nli r2 5\njr r1",
        "3 0 out 0x00000005\n4 0 park 1 64",
    ),
    // Register 0 is one as the others.
    (
        "li r0 5\nout r0\nadd r1 r0 r0\nout r1\nint 64",
        "1 0 out 0x00000005\n3 0 out 0x0000000a\n4 0 park 1 64",
    ),
    // A jump to an address that is no multiple of 4.
    ("li r1 2\njr r1", "2 0 park 1 17"),
    // A word that is no instruction.
    ("out r1\n.word 0", "0 0 out 0x00000000\n1 0 park 1 6"),
    // A store into the page that runs.
    (
        "lih r1 64\nldw r2 r1 24\nstw r2 r1 20\nli r3 9\nout r3\nint 64\nout r1",
        "4 0 out 0x00000009\n5 0 out 0x00400000\n6 0 out 0x00400000\n7 0 park 1 6",
    ),
    // Calls take r1 to r5, and answer in r0 and r1.
    (
        "sys 12\nout r0\nout r1\nli r1 2\nsys 11\nout r0\nlih r1 64\nsys 7\nout r0\nout r1\nint 64",
        "0 0 call 12 reply 1 0x00000000\n1 0 out 0x00000001\n2 0 out 0x00000000\n4 0 call 11 reply 0 0x00000000\n5 0 out 0x00000000\n7 0 call 7 reply 0 0x00000000\n8 0 out 0x00000000\n9 0 out 0x00000000\n10 0 park 1 64",
    ),
];

// Compares the trace of 40 steps of a program.
fn check_effect(rt: &(impl Abort + AllocGlobal), lines: &str, trace: &str) -> Result<(), Fail> {
    let text = format!(in rt.alloc(); ".frames 16\n.cpus 1\n.page 0x00400000\n{lines}\n")?;
    let trace = format!(in rt.alloc(); "image 16 1 0 1\n{trace}\nend 40\n")?;
    check(rt, text.as_str(), 40, trace.as_str())
}

#[test]
fn each_instruction_has_its_effect(rt: HostRuntime) -> Result<(), Fail> {
    for (lines, trace) in &EFFECTS {
        check_effect(&rt, lines, trace)?;
    }
    Ok(())
}

static ADDRESSES: [(&str, u32, &str); 2] = [
    // After the last address stands 0, where the root has no page.
    (
        ".frames 16\n.cpus 1\n.page 0x00400000\nlih r1 65535\nori r1 r1 65524\njr r1\n.page 0xfffff000\n.zero 1021\nli r2 3\nout r2\nbeq r0 r0 0\n",
        8,
        "image 16 1 0 2\n4 0 out 0x00000003\n6 0 park 1 14\nend 8\n",
    ),
    // A jump back from there leads to a word of 0, which is no instruction.
    (
        ".frames 16\n.cpus 1\n.page 0x00400000\nlih r1 65535\nori r1 r1 65532\njr r1\n.page 0xfffff000\n.zero 1023\njal r2 -5\n",
        8,
        "image 16 1 0 2\n4 0 park 1 6\nend 8\n",
    ),
];

#[test]
fn addresses_have_two_ends(rt: HostRuntime) -> Result<(), Fail> {
    check_traces(&rt, &ADDRESSES)
}

static TRACES: [(&str, u32, &str); 4] = [
    (TEXT, 6, TRACE),
    (TEXT, 0, "image 16 1 1 1\nend 0\n"),
    (
        ".frames 16\n.cpus 1\n.page 0x00400000\nli r1 7\nout r1\nsys 12\nint 64\n",
        6,
        "image 16 1 0 1\n1 0 out 0x00000007\n2 0 call 12 reply 1 0x00000000\n3 0 park 1 64\nend 6\n",
    ),
    (".frames 4096\n.cpus 4\n", 3, "image 4096 4 0 0\nend 3\n"),
];

#[test]
fn an_image_has_its_trace(rt: HostRuntime) -> Result<(), Fail> {
    check_traces(&rt, &TRACES)
}

static PENDING: [(Report, u32, (u32, u32), u8, &str); 1] = [(
    Report::Trace,
    9,
    (0, 0),
    0,
    "image 16 1 1 1\n1 0 out 0x00000007\n2 0 call 12 reply 1 0x00000000\n3 0 park 1 64\nend 9\n",
)];

// The frames of a machine after that many steps of an image.
fn frames_of(
    rt: &(impl Abort + AllocGlobal),
    image: &[u8],
    count: u32,
) -> Result<MemSink<'static>, Fail> {
    let mut source = MemSource::new(image, &[]);
    let mut sink = MemSink::new(rt.alloc(), 32768, &[])?;
    let ended = core_dump(rt.alloc(), count, 1, &mut source, &mut sink);
    assert_eq!(rt; ended.status, 0);
    Ok(sink)
}

#[test]
fn a_line_is_pending_where_nobody_takes_it(rt: HostRuntime) -> Result<(), Fail> {
    let image = image_of(
        &rt,
        ".frames 16\n.cpus 1\n.line 0 2 3\n.page 0x00400000\nli r1 7\nout r1\nsys 12\nint 64\n",
    )?;
    check_reports(&rt, image.bytes(), &PENDING)?;
    let frames = frames_of(&rt, image.bytes(), 8)?;
    // Word 15 of frame 1 has the lines that are pending.
    assert!(rt;
        frames.bytes().starts_with(
            b"frame 1\n\
         0000: 00000000 00000001 00000000 00000002 00000000 00000003 00000000 00000004\n\
         0008: 00000000 00000005 00000000 00000001 00000002 00000000 00000000 00000001\n"
        )
    );
    Ok(())
}

static SHOWN: [(Report, u32, (u32, u32), u8, &str); 2] = [
    (Report::Tree, 0, (0, 0), 0, TREE),
    (Report::Frames, 0, (0, 0), 0, FRAMES),
];

#[test]
fn a_tree_and_its_frames_are_shown(rt: HostRuntime) -> Result<(), Fail> {
    let image = image_of(&rt, TEXT)?;
    check_reports(&rt, image.bytes(), &SHOWN)
}

// Names the fault of an image of 4136 bytes in which one byte is another.
fn check_byte(
    rt: &(impl Abort + AllocGlobal),
    image: &[u8],
    at: usize,
    byte: u8,
    line: &str,
) -> Result<(), Fail> {
    let mut bytes = Vec::new(rt.alloc());
    bytes.extend_from_slice(image)?;
    *bytes.get_mut(at).ok_or("a byte of the image")? = byte;
    check_report(rt, Report::Trace, bytes.as_slice(), 6, (0, 0), 2, line)
}

// The place of a byte, the byte and the line of the fault.
static FAULTS: [(usize, u8, &str); 9] = [
    (0, 0x51, "bad image magic 0\n"),
    (6, 0x31, "bad image oldversion 0\n"),
    (8, 15, "bad image frames 8\n"),
    (9, 16, "bad image frames 8\n"),
    (12, 5, "bad image cpus 12\n"),
    (16, 17, "bad image plan 16\n"),
    (21, 17, "bad image page 20\n"),
    (24, 16, "bad image plan 24\n"),
    (36, 3, "bad image page 36\n"),
];

#[test]
fn the_first_fault_of_an_image_is_named(rt: HostRuntime) -> Result<(), Fail> {
    let image = image_of(&rt, TEXT)?;
    for (at, byte, line) in &FAULTS {
        check_byte(&rt, image.bytes(), *at, *byte, line)?;
    }
    Ok(())
}

// The number of the first bytes of an image, and the line of the fault, whatever is shown.
static LENGTHS: [(usize, &str); 5] = [
    (0, "bad image short 0\n"),
    (7, "bad image short 7\n"),
    (38, "bad image short 38\n"),
    (4135, "bad image short 4135\n"),
    (4137, "bad image long 4136\n"),
];

// Names the fault of an image, whatever is shown.
fn check_fault(rt: &(impl Abort + AllocGlobal), image: &[u8], line: &str) -> Result<(), Fail> {
    for report in [Report::Trace, Report::Tree, Report::Frames] {
        check_report(rt, report, image, 6, (0, 0), 2, line)?;
    }
    Ok(())
}

// The image, and 64 zeros after it.
fn longer(rt: &(impl Abort + AllocGlobal), image: &[u8]) -> Result<Vec<u8>, Fail> {
    let mut bytes = Vec::new(rt.alloc());
    bytes.extend_from_slice(image)?;
    bytes.extend_from_slice(&[0; 64])?;
    Ok(bytes)
}

#[test]
fn an_image_has_its_length(rt: HostRuntime) -> Result<(), Fail> {
    let image = image_of(&rt, TEXT)?;
    let bytes = longer(&rt, image.bytes())?;
    for (count, line) in &LENGTHS {
        let front = bytes.as_slice().get(..*count).ok_or("bytes of the image")?;
        check_fault(&rt, front, line)?;
    }
    Ok(())
}

#[test]
fn an_image_has_each_page_once(rt: HostRuntime) -> Result<(), Fail> {
    let image = image_of(&rt, TEXT)?;
    let mut bytes = longer(&rt, image.bytes())?;
    // Two pages, both at 0x00400000.
    *bytes.get_mut(20).ok_or("the number of pages")? = 2;
    *bytes.get_mut(4137).ok_or("a page's number")? = 4;
    let line = "bad image twice 4136\n";
    check_report(&rt, Report::Trace, bytes.as_slice(), 6, (0, 0), 2, line)
}

static READS: [(Report, u32, (u32, u32), u8, &str); 13] = [
    (Report::Trace, 6, (1, 0), 3, ""),
    (Report::Tree, 6, (1, 0), 3, ""),
    (Report::Frames, 6, (1, 0), 3, ""),
    (Report::Trace, 6, (2, 0), 3, ""),
    (Report::Tree, 6, (2, 0), 3, ""),
    (Report::Frames, 6, (2, 0), 3, ""),
    (Report::Trace, 6, (3, 0), 3, ""),
    (Report::Tree, 6, (3, 0), 3, ""),
    (Report::Frames, 6, (3, 0), 3, ""),
    (Report::Trace, 6, (4, 0), 3, ""),
    (Report::Tree, 6, (4, 0), 3, ""),
    (Report::Frames, 6, (4, 0), 3, ""),
    (Report::Trace, 6, (5, 0), 0, TRACE),
];

#[test]
fn each_read_fails_in_turn(rt: HostRuntime) -> Result<(), Fail> {
    let image = image_of(&rt, TEXT)?;
    check_reports(&rt, image.bytes(), &READS)
}

static WRITES: [(Report, u32, (u32, u32), u8, &str); 4] = [
    (Report::Trace, 6, (0, 1), 4, ""),
    (Report::Trace, 0, (0, 1), 4, ""),
    (Report::Tree, 0, (0, 1), 4, ""),
    (Report::Frames, 0, (0, 1), 4, ""),
];

// The line of a fault can't be written.
static FAULT_WRITES: [(Report, u32, (u32, u32), u8, &str); 3] = [
    (Report::Trace, 0, (0, 1), 4, ""),
    (Report::Tree, 0, (0, 1), 4, ""),
    (Report::Frames, 0, (0, 1), 4, ""),
];

#[test]
fn the_write_fails(rt: HostRuntime) -> Result<(), Fail> {
    let image = image_of(&rt, TEXT)?;
    check_reports(&rt, image.bytes(), &WRITES)?;
    check_reports(&rt, b"PIP", &FAULT_WRITES)
}

// Shows the tree by a gatherer, where a write fails, and compares the status and the text.
fn check_gathered(
    rt: &(impl Abort + AllocGlobal),
    image: &[u8],
    failing: u32,
    status: u8,
    text: &str,
) -> Result<(), Fail> {
    let writes = [failing];
    let mut source = MemSource::new(image, &[]);
    let mut sink = Gatherer::new(MemSink::new(rt.alloc(), 16384, &writes)?);
    let ended = tree(rt.alloc(), 0, 1, &mut source, &mut sink);
    let written = sink.sink().bytes();
    check_end(
        rt,
        TEXT,
        &ended,
        written,
        status,
        text.as_bytes(),
        status == 0,
    );
    Ok(())
}

#[test]
fn a_text_that_is_gathered_is_one_write(rt: HostRuntime) -> Result<(), Fail> {
    let image = image_of(&rt, TEXT)?;
    check_gathered(&rt, image.bytes(), 1, 4, "")?;
    check_gathered(&rt, image.bytes(), 2, 0, TREE)
}

static MONITORED: [(&str, u32, &str); 1] = [(
    MONITOR,
    760,
    "image 256 1 1 7\n\
         0 0 call 10 reply 0 0x00000000\n\
         11 0 call 0 reply 0 0x00000000\n\
         23 0 call 3 reply 0 0x00000003\n\
         36 0 call 3 reply 0 0x00000003\n\
         45 0 call 5 reply 0 0x00000000\n\
         52 0 call 5 reply 0 0x00000000\n\
         64 0 call 0 reply 0 0x00000000\n\
         76 0 call 3 reply 0 0x00000003\n\
         89 0 call 3 reply 0 0x00000003\n\
         98 0 call 5 reply 0 0x00000000\n\
         105 0 call 5 reply 0 0x00000000\n\
         119 0 call 8 switch 1 28 63\n\
         168 0 out 0x00000010\n\
         218 0 out 0x00000020\n\
         268 0 out 0x00000030\n\
         318 0 out 0x00000040\n\
         368 0 out 0x00000050\n\
         418 0 out 0x00000060\n\
         468 0 out 0x00000070\n\
         500 0 switch 28 1 32\n\
         507 0 call 8 switch 1 44 63\n\
         540 0 switch 44 1 32\n\
         547 0 call 8 switch 1 28 63\n\
         566 0 out 0x00000080\n\
         580 0 switch 28 1 32\n\
         587 0 call 8 switch 1 44 63\n\
         604 0 out 0x20000010\n\
         620 0 switch 44 1 32\n\
         627 0 call 8 switch 1 28 63\n\
         660 0 switch 28 1 32\n\
         667 0 call 8 switch 1 44 63\n\
         700 0 switch 44 1 32\n\
         707 0 call 8 switch 1 28 63\n\
         712 0 out 0x00000090\n\
         740 0 switch 28 1 32\n\
         747 0 call 8 switch 1 44 63\n\
         750 0 out 0x20000020\n\
         end 760\n\
",
)];

#[test]
fn the_monitor_shares_a_processor_out(rt: HostRuntime) -> Result<(), Fail> {
    check_traces(&rt, &MONITORED)
}

// Raises a plan at step 2 and makes three steps, with a callback that counts in `asked` how often it is asked: once,
// and then at each step.
fn count_asked<F: Callback + Drop, L: Ledger>(
    rt: &(impl Abort + AllocGlobal),
    plan: Plan,
    callback: F,
    asked: &Cell<u32>,
    blank: Blank,
) -> Result<(), Fail>
    requires answers { AnswersDue (F.may_ask callback) (F.answers callback) plan }
    requires line { plan.line < 16 }
    requires blank { CanOpen blank.name blank.parts L.name L.parts }
{
    let mut steps: Steps<L> = Steps::new(blank);
    let mut lines = Vec::new(rt.alloc());
    lines.push(Line::new(plan, callback))?;
    let mut machine = new_machine(rt.alloc(), 16, 1, &mut steps)?;
    raise_due(&mut machine, &lines, 2, &mut steps);
    assert!(rt; asked.get() >= 1);
    asked.set(0);
    let ran = run_lines(&mut machine, &lines, 3, 1, &mut Discard::new(), &mut steps);
    assert!(rt; ran.is_ok());
    assert!(rt; asked.get() >= 3);
    Ok(())
}

#[test]
fn kept_callbacks_are_asked(rt: HostRuntime) -> Result<(), Fail> {
    let asked = Cell::new(0_u32);
    let line = 0;
    let once = Plan {
        line,
        first: 2,
        period: 0,
    };
    let callback = |t: u64| {
        asked.set(asked.get().wrapping_add(1));
        due(&once, t)
    };
    count_asked::<_, Brand>(&rt, once, callback, &asked, Blank::new(1))?;
    let often = Plan {
        line,
        first: 1,
        period: 7,
    };
    let callback = |t: u64| {
        asked.set(asked.get().wrapping_add(1));
        due(&often, t)
    };
    count_asked::<_, Brand>(&rt, often, callback, &asked, Blank::new(2))
}

/// A source that counts the reads at its end.
#[derive(Drop)]
struct Ending<'a> {
    source: MemSource<'a>,
    ends: u32,
}

impl Source for Ending<'_> {
    ghost use Rattle.std.specs.Prelude.{None};

    ghost history = { λ s. remaining None (source_faults s.source) };

    fn read(&mut self, buf: &mut [u8]) -> Result<usize, Failed> {
        let count = self.source.read(buf)?;
        if count == 0 {
            self.ends = self.ends.wrapping_add(1);
        }
        Ok(count)
    }
}

// Gives a command an image, and asserts that it asks once for its end.
fn check_asks_once(
    rt: &(impl Abort + AllocGlobal),
    command: &str,
    image: &[u8],
) -> Result<(), Fail> {
    let mut source = Ending {
        source: MemSource::new(image, &[]),
        ends: 0,
    };
    let mut sink = MemSink::new(rt.alloc(), 16384, &[])?;
    let ended = match command {
        "run" => run(rt.alloc(), 6, 1, &mut source, &mut sink),
        "tree" => tree(rt.alloc(), 6, 1, &mut source, &mut sink),
        "core" => core_dump(rt.alloc(), 6, 1, &mut source, &mut sink),
        _ => dis(rt.alloc(), &mut source, &mut sink),
    };
    holds(rt, ended.status == 0, command);
    holds(rt, source.ends == 1, command);
    Ok(())
}

// A terminal has to be told the end of its input as often as it is asked for it.
#[test]
fn the_end_of_an_image_is_asked_for_once(rt: HostRuntime) -> Result<(), Fail> {
    let image = image_of(&rt, TEXT)?;
    for command in ["run", "tree", "core", "dis"] {
        check_asks_once(&rt, command, image.bytes())?;
    }
    Ok(())
}
