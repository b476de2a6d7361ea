use crate::ends::{check_end, image_of};
use pip_io::{MemSink, MemSource};
use pip_lab_commands::{Start, every};
use std::process::Abort;
use std::test::Fail;

// The bounds of a search, the steps before it with their seed, and what is written.
type Row = ((u32, u32, Option<u32>), (u32, u32), &'static str);

// A program that shows a word over and over, and a line that it never takes.
const SHOWS: &str =
    ".frames 16\n.cpus 2\n.line 3 0 0\n.page 0x00400000\nli r1 5\nout r1\nbeq r0 r0 -2\n";

// Searches the image after steps, and compares the text.
fn check(
    rt: &(impl Abort + AllocGlobal),
    image: &[u8],
    words: (u32, u32, Option<u32>),
    start: Start,
    text: &str,
) -> Result<(), Fail> {
    assert!(rt; 1 <= words.0 && 1 <= start.seed);
    let mut source = MemSource::new(image, &[]);
    let mut sink = MemSink::new(rt.alloc(), 16384, &[])?;
    let ended = every(
        rt.alloc(),
        words.0,
        words.1,
        words.2,
        start,
        &mut source,
        &mut sink,
    );
    check_end(rt, SHOWS, &ended, sink.bytes(), 0, text.as_bytes(), false);
    Ok(())
}

// Makes a search for each row.
fn check_rows(rt: &(impl Abort + AllocGlobal), rows: &[Row]) -> Result<(), Fail> {
    let image = image_of(rt, SHOWS)?;
    for (words, (count, seed), text) in rows {
        let start = Start {
            count: *count,
            seed: *seed,
        };
        check(rt, image.bytes(), *words, start, text)?;
    }
    Ok(())
}

static CLOSES: [Row; 1] = [(
    (100, 0, None),
    (0, 1),
    "image 16 2 1 1\n1 0 out 0x00000005: 0x2\nstates 6 depth 3 closed\n",
)];

#[test]
fn a_search_closes(rt: HostRuntime) -> Result<(), Fail> {
    check_rows(&rt, &CLOSES)
}

static WITHIN: [Row; 1] = [(
    (100, 0, Some(1)),
    (0, 1),
    "image 16 2 1 1\nstates 3 within 1\n",
)];

#[test]
fn a_search_ends_at_its_depth(rt: HostRuntime) -> Result<(), Fail> {
    check_rows(&rt, &WITHIN)
}

static STOPPED: [Row; 1] = [(
    (3, 1, None),
    (0, 1),
    "image 16 2 1 1\nstates 3 depth 1 stopped\n",
)];

#[test]
fn a_search_stops_where_there_is_no_room(rt: HostRuntime) -> Result<(), Fail> {
    check_rows(&rt, &STOPPED)
}

static AFTER_STEPS: [Row; 3] = [
    (
        (100, 0, None),
        (0, 7),
        "image 16 2 1 1\n1 0 out 0x00000005: 0x2\nstates 6 depth 3 closed\n",
    ),
    // The line is pending, and processor 1 has had the three turns.
    (
        (100, 0, None),
        (3, 1),
        "image 16 2 1 1\n1 0 out 0x00000005: 0x2\nstates 3 depth 2 closed\n",
    ),
    // Choices are counted from there, and so are turns.
    (
        (100, 2, Some(1)),
        (3, 1),
        "image 16 2 1 1\nstates 3 within 1\n",
    ),
];

#[test]
fn a_search_begins_after_steps(rt: HostRuntime) -> Result<(), Fail> {
    check_rows(&rt, &AFTER_STEPS)
}
