use crate::ends::{check_end, image_of};
use pip_io::{MemSink, MemSource};
use pip_lab_commands::apart;
use std::process::Abort;
use std::test::Fail;

// The child's program, the words of the command, and what is written.
type Row = (&'static str, (u32, u32, u32), &'static str);

// A root that makes a child of the pages from 0x00401000 on, and gives its processor to it after 35 steps. The child's
// program, which comes last, is at 0xffffe000 there.
const GIVES: &str = ".frames 32\n.cpus 1\n.page 0x00400000\n\
     li r1 0x1000\nlih r1 0x40\naddi r2 r1 4096\naddi r3 r2 4096\naddi r4 r3 4096\naddi r5 r4 4096\nsys 0\n\
     li r1 0x1000\nlih r1 0x40\nli r2 0xf000\nlih r2 0xffff\nli r3 0x6000\nlih r3 0x40\nsys 3\n\
     li r1 0x9000\nlih r1 0x40\nli r2 0x1000\nlih r2 0x40\nli r3 0xf000\nlih r3 0xffff\nli r4 3\nsys 5\n\
     li r1 0xa000\nlih r1 0x40\nli r2 0x1000\nlih r2 0x40\nli r3 0xe000\nlih r3 0xffff\nli r4 5\nsys 5\n\
     li r1 0x1000\nlih r1 0x40\nli r2 63\nli r3 256\nsys 8\n\
     .page 0x00406000\n.word 0x00407000\n.page 0x00407000\n.word 0x00408000\n\
     .page 0x00409000\n.zero 63\n.word 0xfffff400\n.zero 192\n.word 0xffffe000\n\
     .page 0x0040a000\n";

// A child that shows a word over and over.
const SHOWS: &str = "li r1 5\nout r1\nbeq r0 r0 -2\n";

// Makes that many steps of the image of the root and a child's program, searches its guests with room for that many
// states, and compares the text.
fn check(
    rt: &(impl Abort + AllocGlobal),
    program: &str,
    words: (u32, u32, u32),
    text: &str,
) -> Result<(), Fail> {
    assert!(rt; 1 <= words.0 && 1 <= words.2);
    let image = format!(in rt.alloc(); "{GIVES}{program}")?;
    let image = image_of(rt, image.as_str())?;
    let mut source = MemSource::new(image.bytes(), &[]);
    let mut sink = MemSink::new(rt.alloc(), 16384, &[])?;
    let ended = apart(
        rt.alloc(),
        words.0,
        words.1,
        words.2,
        &mut source,
        &mut sink,
    );
    check_end(rt, program, &ended, sink.bytes(), 0, text.as_bytes(), false);
    Ok(())
}

// Does that for each row.
fn check_rows(rt: &(impl Abort + AllocGlobal), rows: &[Row]) -> Result<(), Fail> {
    for (program, words, text) in rows {
        check(rt, program, *words, text)?;
    }
    Ok(())
}

static STAYS: [Row; 1] = [(
    SHOWS,
    (100, 35, 1),
    "image 32 1 0 5\nguest 13 on 0\n1 0 out 0x00000005: 0x2\nstates 3 depth 2 closed\napart yes\n",
)];

#[test]
fn a_guest_that_stays_inside_holds(rt: HostRuntime) -> Result<(), Fail> {
    check_rows(&rt, &STAYS)
}

static LEAVES: [Row; 1] = [(
    "int 71\n",
    (100, 35, 1),
    "image 32 1 0 5\nguest 13 on 0\nleaves 0 0 park 13 71: 0\nstates 1 depth 0 closed\napart no\n",
)];

#[test]
fn a_guest_that_leaves_does_not(rt: HostRuntime) -> Result<(), Fail> {
    check_rows(&rt, &LEAVES)
}

static STOPPED: [Row; 1] = [(
    SHOWS,
    (2, 35, 1),
    "image 32 1 0 5\nguest 13 on 0\nstates 2 depth 1 stopped\napart no\n",
)];

#[test]
fn a_search_that_stopped_says_nothing(rt: HostRuntime) -> Result<(), Fail> {
    check_rows(&rt, &STOPPED)
}

static ROOTS: [Row; 2] = [
    (SHOWS, (1, 34, 1), "image 32 1 0 5\nroot on 0\napart no\n"),
    (
        "int 71\n.page 0xfffff000\n.zero 35\n.word 0xfffff400\n",
        (1, 0, 1),
        "image 32 1 0 6\nroot on 0\nline 3\napart no\n",
    ),
];

#[test]
fn a_root_that_runs_or_takes_a_line_is_named(rt: HostRuntime) -> Result<(), Fail> {
    check_rows(&rt, &ROOTS)
}
