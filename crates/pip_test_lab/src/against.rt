use crate::ends::{check_end, image_of};
use pip_io::{MemSink, MemSource};
use pip_lab_commands::{Start, against};
use std::process::Abort;
use std::test::Fail;

// An assembly text, a menu, the steps before the search with their seed, the status and what is written.
type Row = (&'static str, &'static str, (u32, u32), u8, &'static str);

// Searches an input with room for that many states after steps, and compares the status and the text.
fn check_input(
    rt: &(impl Abort + AllocGlobal),
    of: &str,
    input: &[u8],
    states: u32,
    start: Start,
    status: u8,
    text: &str,
) -> Result<(), Fail> {
    assert!(rt; 1 <= states && 1 <= start.seed);
    let mut source = MemSource::new(input, &[]);
    let mut sink = MemSink::new(rt.alloc(), 16384, &[])?;
    let ended = against(rt.alloc(), states, 0, None, start, &mut source, &mut sink);
    check_end(rt, of, &ended, sink.bytes(), status, text.as_bytes(), false);
    Ok(())
}

// Does that with the image of an assembly text and a menu.
fn check(
    rt: &(impl Abort + AllocGlobal),
    lines: &str,
    menu: &str,
    states: u32,
    start: Start,
    status: u8,
    text: &str,
) -> Result<(), Fail> {
    let image = image_of(rt, lines)?;
    let mut input = Vec::new(rt.alloc());
    input.extend_from_slice(image.bytes())?;
    input.extend_from_slice(menu.as_bytes())?;
    check_input(rt, menu, input.as_slice(), states, start, status, text)
}

// Does that for each row, with room for 100 states.
fn check_rows(rt: &(impl Abort + AllocGlobal), rows: &[Row]) -> Result<(), Fail> {
    for (lines, menu, (count, seed), status, text) in rows {
        let start = Start {
            count: *count,
            seed: *seed,
        };
        check(rt, lines, menu, 100, start, *status, text)?;
    }
    Ok(())
}

// Does that from the first moment on, where the menu is a text that many times.
fn check_repeated(
    rt: &(impl Abort + AllocGlobal),
    lines: &str,
    part: &str,
    times: u32,
    status: u8,
    text: &str,
) -> Result<(), Fail> {
    let mut menu = String::new(rt.alloc());
    for _i in 0..times {
        menu.push_str(part)?;
    }
    let start = Start { count: 0, seed: 1 };
    check(rt, lines, menu.as_str(), 100, start, status, text)
}

// A program that shows a word over and over, and a line that it never takes.
const SHOWS: &str =
    ".frames 16\n.cpus 2\n.line 3 0 0\n.page 0x00400000\nli r1 5\nout r1\nbeq r0 r0 -2\n";

// What `every` writes of it.
const SHOWN: &str = "image 16 2 1 1\n1 0 out 0x00000005: 0x2\nstates 6 depth 3 closed\n";

// A root without a program.
const ROOT: &str = ".frames 16\n.cpus 1\n";

// A program that shows a word twice, and parks.
const ENDS: &str =
    ".frames 16\n.cpus 1\n.page 0x00400000\nli r1 1\nout r1\nli r2 9\nout r1\nint 64\n";

static DEEDS: [Row; 1] = [(
    ROOT,
    "# the root\n1 trap 7 0 0\n\n1 call 99",
    (0, 1),
    0,
    "image 16 1 0 0\n0 0 park 1 7: 0:d1\n0 0 call 99 reply 1 0x00000000: 0:d2\nstates 3 depth 1 closed\n",
)];

#[test]
fn a_root_does_its_deeds(rt: HostRuntime) -> Result<(), Fail> {
    check_rows(&rt, &DEEDS)
}

static AFTER_STEPS: [Row; 2] = [
    (
        ROOT,
        "1 trap 7 0 0\n",
        (0, 5),
        0,
        "image 16 1 0 0\n0 0 park 1 7: 0:d1\nstates 2 depth 1 closed\n",
    ),
    // In the step the root's program has its turn, and parks.
    (
        ROOT,
        "1 trap 7 0 0\n",
        (1, 5),
        0,
        "image 16 1 0 0\nstates 1 depth 0 closed\n",
    ),
];

#[test]
fn deeds_come_after_steps(rt: HostRuntime) -> Result<(), Fail> {
    check_rows(&rt, &AFTER_STEPS)
}

static BAD_LINES: [Row; 11] = [
    (ROOT, "all trap 7 0 0\n", (0, 1), 2, "bad line 1 who\n"),
    (ROOT, " each trap 7 0 0\n", (0, 1), 2, "bad line 1 who\n"),
    (
        ROOT,
        "# a remark\n\neach poll\n",
        (0, 1),
        2,
        "bad line 3 what\n",
    ),
    (ROOT, "each", (0, 1), 2, "bad line 1 what\n"),
    (ROOT, "1 trap 256 0 0\n", (0, 1), 2, "bad line 1 what\n"),
    (
        ROOT,
        "1 trap 7 0 0\n1 raise 3",
        (0, 1),
        2,
        "bad line 2 what\n",
    ),
    (ROOT, "again", (0, 1), 2, "bad line 1 what\n"),
    (ROOT, "again x\nagain ", (0, 1), 2, "bad line 2 what\n"),
    (ROOT, "againx", (0, 1), 2, "bad line 1 who\n"),
    (ROOT, "comes", (0, 1), 2, "bad line 1 what\n"),
    (ROOT, "again x\ncomes ", (0, 1), 2, "bad line 2 what\n"),
];

#[test]
fn a_bad_line_is_named(rt: HostRuntime) -> Result<(), Fail> {
    check_rows(&rt, &BAD_LINES)
}

#[test]
fn a_long_line_is_bad(rt: HostRuntime) -> Result<(), Fail> {
    check_repeated(&rt, SHOWS, "#", 120, 0, SHOWN)?;
    check_repeated(&rt, SHOWS, "#", 121, 2, "bad line 1 long\n")
}

#[test]
fn a_deed_too_many_is_bad(rt: HostRuntime) -> Result<(), Fail> {
    let deed = "1 sb 0x400000 0\n";
    check_repeated(&rt, ROOT, deed, 1025, 2, "bad line 1025 many\n")
}

#[test]
fn a_fault_of_the_image_comes_first(rt: HostRuntime) -> Result<(), Fail> {
    let menu = "1 trap 7 0 0\n";
    let start = Start { count: 0, seed: 1 };
    let line = "bad image frames 8\n";
    check_input(&rt, menu, b"PIPIMG2\n1 trap 7 0 0\n", 100, start, 2, line)
}

static NOBODY: [Row; 4] = [
    (SHOWS, "", (0, 1), 0, SHOWN),
    (SHOWS, "# nobody\n", (0, 1), 0, SHOWN),
    (SHOWS, "each trap 32 0 0\n", (0, 1), 0, SHOWN),
    (SHOWS, "28 trap 32 0 0\n", (0, 1), 0, SHOWN),
];

#[test]
fn without_deeds_of_its_partitions_it_is_every(rt: HostRuntime) -> Result<(), Fail> {
    check_rows(&rt, &NOBODY)
}

static LABELS: [Row; 2] = [
    (
        SHOWS,
        "again 0 out 0x00000005\nagain 1 x: y ",
        (0, 1),
        0,
        "image 16 2 1 1\n1 0 out 0x00000005: 0x2\nstates 6 depth 3 closed\nagain 0 out 0x00000005: yes\nagain 1 x: y : no\n",
    ),
    (
        ENDS,
        "again 0 park 1 64\nagain 0 out 0x00000001",
        (0, 1),
        0,
        "image 16 1 0 1\n1 0 out 0x00000001: 0x2\n4 0 park 1 64: 0x5\nstates 6 depth 5 closed\nagain 0 park 1 64: no 0x5\nagain 0 out 0x00000001: no 0x4\n",
    ),
];

#[test]
fn a_label_comes_again_or_is_lost_after_its_first_way(rt: HostRuntime) -> Result<(), Fail> {
    check_rows(&rt, &LABELS)
}

static NOT_BACK: [Row; 1] = [(
    ROOT,
    "again 0 park 1 7\n1 trap 7 0 0",
    (0, 1),
    0,
    "image 16 1 0 0\n0 0 park 1 7: 0:d1\nstates 2 depth 1 closed\nagain 0 park 1 7: no\n",
)];

#[test]
fn no_deed_brings_a_label_back(rt: HostRuntime) -> Result<(), Fail> {
    check_rows(&rt, &NOT_BACK)
}

static COMING: [Row; 3] = [
    (
        SHOWS,
        "comes 0 out 0x00000005\nagain y\ncomes 1 x: y ",
        (0, 1),
        0,
        "image 16 2 1 1\n1 0 out 0x00000005: 0x2\nstates 6 depth 3 closed\nagain y: no\ncomes 0 out 0x00000005: within 2 of 0, 0 of 1, 0 of raise3\ncomes 1 x: y : no 0 raise3 : 0 1 raise3 0\n",
    ),
    (
        ENDS,
        "comes 0 park 1 64",
        (0, 1),
        0,
        "image 16 1 0 1\n1 0 out 0x00000001: 0x2\n4 0 park 1 64: 0x5\nstates 6 depth 5 closed\ncomes 0 park 1 64: no 0x5 : 0\n",
    ),
    (
        ROOT,
        "comes 0 park 1 7\n1 trap 7 0 0",
        (0, 1),
        0,
        "image 16 1 0 0\n0 0 park 1 7: 0:d1\nstates 2 depth 1 closed\ncomes 0 park 1 7: no : 0\n",
    ),
];

#[test]
fn a_label_comes_or_a_loop_avoids_it(rt: HostRuntime) -> Result<(), Fail> {
    check_rows(&rt, &COMING)
}

#[test]
fn nothing_is_said_of_labels_where_a_search_stops(rt: HostRuntime) -> Result<(), Fail> {
    let menu = "again 0 out 0x00000005\ncomes 0 out 0x00000005\n";
    let start = Start { count: 0, seed: 1 };
    let text =
        "image 16 2 1 1\nstates 2 depth 0 stopped\nagain 0 out 0x00000005: unknown\ncomes 0 out 0x00000005: unknown\n";
    check(&rt, SHOWS, menu, 2, start, 0, text)
}

#[test]
fn a_label_too_many_is_bad(rt: HostRuntime) -> Result<(), Fail> {
    check_repeated(&rt, ROOT, "again x\n", 17, 2, "bad line 17 many\n")?;
    check_repeated(&rt, ROOT, "again x\ncomes x\n", 9, 2, "bad line 17 many\n")
}
