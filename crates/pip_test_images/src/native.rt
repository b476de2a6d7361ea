ghost use Rattle.std.specs.Prelude.{◌≡◌, ◌<◌, length};
ghost use Rattle.pip_base.specs.Opening.{CanOpen};
ghost use Rattle.pip_native.specs.Choice.{AnswersNext};

use crate::ends::{check_end, image_of};
use arrayvec::ArrayVec;
use pip_base::{Status, Steps};
use pip_commands::{native, new_machine};
use pip_frames::Frames;
use pip_io::{MemSink, MemSource};
use pip_native::{Chooser, Decision, Monitor, decide, next_child};
use pip_switch::Machine;
use std::cell::Cell;
use std::marker::Brand;
use std::process::Abort;
use std::sync::ledger::{Blank, Ledger};
use std::test::Fail;

// Makes that many steps of the image of a text, with that many children, where a read and a write fail, 0 for none, and
// compares the status and the text.
fn check_image(
    rt: &(impl Abort + AllocGlobal),
    lines: &str,
    image: &[u8],
    words: (u32, u32),
    failing: (u32, u32),
    status: u8,
    text: &str,
) -> Result<(), Fail> {
    assert!(rt; 1 <= words.0 && words.0 <= 8);
    let (reads, writes) = ([failing.0], [failing.1]);
    let mut source = MemSource::new(image, &reads);
    let mut sink = MemSink::new(rt.alloc(), 16384, &writes)?;
    let ended = native(rt.alloc(), words.0, words.1, &mut source, &mut sink);
    let written = sink.bytes();
    check_end(
        rt,
        lines,
        &ended,
        written,
        status,
        text.as_bytes(),
        status == 0,
    );
    Ok(())
}

// Does that for each row, where nothing fails: the assembly text, the words of the command, the status and the text.
fn check_rows(
    rt: &(impl Abort + AllocGlobal),
    rows: &[(&str, (u32, u32), u8, &str)],
) -> Result<(), Fail> {
    for (lines, words, status, text) in rows {
        let image = image_of(rt, lines)?;
        check_image(rt, lines, image.bytes(), *words, (0, 0), *status, text)?;
    }
    Ok(())
}

// The first child shows a word and enters its parent, again and again.
static RUNS: [(&str, (u32, u32), u8, &str); 1] = [(
    ".frames 26\n.cpus 1\n.page 0x00400000\nli r1 5\nout r1\nint 64\nbeq r0 r0 -3\n",
    (1, 9),
    0,
    "image 26 1 0 1\nbuilt 0 0x00401000\n0 0 run 0\n2 0 out 0x00000005\n3 0 switch 13 1 64\n4 0 run 0\n6 0 out 0x00000005\n7 0 switch 13 1 64\n8 0 run 0\nend 9\n",
)];

#[test]
fn a_monitor_runs_its_child(rt: HostRuntime) -> Result<(), Fail> {
    check_rows(&rt, &RUNS)
}

// It takes its handler of vector 63 away, and then loads where it has no page.
static DROPPED: [(&str, (u32, u32), u8, &str); 1] = [(
    ".frames 26\n.cpus 1\n.page 0x00400000\nlih r1 65535\nori r1 r1 61692\nstw r0 r1 0\nldw r2 r0 0\n",
    (1, 9),
    0,
    "image 26 1 0 1\nbuilt 0 0x00401000\n0 0 run 0\n4 0 switch 13 1 14\n5 0 drop 0 16\nend 9\n",
)];

#[test]
fn a_child_that_cannot_be_entered_is_dropped(rt: HostRuntime) -> Result<(), Fail> {
    check_rows(&rt, &DROPPED)
}

// The second one drops out, and the third has a page of zeros for its program.
static TURNS: [(&str, (u32, u32), u8, &str); 1] = [(
    ".frames 52\n.cpus 1\n.line 0 3 0\n.page 0x00400000\nli r1 5\nout r1\nint 64\nbeq r0 r0 -3\n.page 0x00401000\nlih r1 65535\nori r1 r1 61692\nstw r0 r1 0\nint 65\n",
    (3, 16),
    0,
    "image 52 1 1 2\nbuilt 0 0x00403000\nbuilt 1 0x0040f000\nbuilt 2 0x0041b000\n0 0 run 0\n2 0 out 0x00000005\n3 0 switch 15 1 32\n4 0 run 1\n8 0 switch 27 1 65\n9 0 run 2\n10 0 switch 39 1 6\n11 0 run 0\n12 0 switch 15 1 64\n13 0 drop 1 16\n14 0 run 2\n15 0 switch 39 1 6\nend 16\n",
)];

#[test]
fn children_take_turns(rt: HostRuntime) -> Result<(), Fail> {
    check_rows(&rt, &TURNS)
}

static NEEDS: [(&str, (u32, u32), u8, &str); 5] = [
    (
        ".frames 16\n.cpus 1\n.page 0x00400000\nint 64\n",
        (8, 0),
        8,
        "short 3 104\n",
    ),
    (
        ".frames 25\n.cpus 1\n.page 0x00400000\nint 64\n",
        (1, 9),
        8,
        "short 12 13\n",
    ),
    (
        ".frames 26\n.cpus 1\n.page 0x00400000\nint 64\n",
        (1, 0),
        0,
        "image 26 1 0 1\nbuilt 0 0x00401000\nend 0\n",
    ),
    (
        ".frames 116\n.cpus 1\n.page 0x00400000\nint 64\n",
        (8, 0),
        8,
        "short 103 104\n",
    ),
    (
        ".frames 117\n.cpus 1\n.page 0x00400000\nint 64\n",
        (8, 0),
        0,
        "image 117 1 0 1\nbuilt 0 0x00408000\nbuilt 1 0x00414000\nbuilt 2 0x00420000\nbuilt 3 0x0042c000\nbuilt 4 0x00438000\nbuilt 5 0x00444000\nbuilt 6 0x00450000\nbuilt 7 0x0045c000\nend 0\n",
    ),
];

#[test]
fn frames_may_be_too_few(rt: HostRuntime) -> Result<(), Fail> {
    check_rows(&rt, &NEEDS)
}

// An image whose 25 frames are too few for one child, and whose plan is of line 0.
const FEW: &str = ".frames 25\n.cpus 1\n.line 0 2 0\n.page 0x00400000\nint 64\n";

// The number of its first bytes, the line of the plan, the read and the write that fail, the status and the text.
static HEADERS: [(usize, u8, (u32, u32), u8, &str); 6] = [
    // A page that isn't whole comes after the header, or the third read, which would be its, fails.
    (40, 0, (0, 0), 8, "short 12 13\n"),
    (4136, 0, (3, 0), 8, "short 12 13\n"),
    (4136, 0, (0, 1), 4, ""),
    (4136, 0, (2, 0), 3, ""),
    // A plan has no line.
    (40, 16, (0, 0), 2, "bad image plan 24\n"),
    (30, 16, (0, 0), 2, "bad image short 30\n"),
];

// Reads the first bytes of an image, with another line in its plan.
fn check_header(
    rt: &(impl Abort + AllocGlobal),
    image: &[u8],
    line: u8,
    failing: (u32, u32),
    status: u8,
    text: &str,
) -> Result<(), Fail> {
    let mut bytes = Vec::new(rt.alloc());
    bytes.extend_from_slice(image)?;
    *bytes.get_mut(24).ok_or("a byte of the image")? = line;
    check_image(rt, FEW, bytes.as_slice(), (1, 9), failing, status, text)
}

#[test]
fn the_header_is_judged_first(rt: HostRuntime) -> Result<(), Fail> {
    let image = image_of(&rt, FEW)?;
    for (count, line, failing, status, text) in &HEADERS {
        let front = image.bytes().get(..*count).ok_or("bytes of the image")?;
        check_header(&rt, front, *line, *failing, *status, text)?;
    }
    Ok(())
}

// A decision where something runs on processor 0.
fn decided<M: Frames, C: Chooser, L: Ledger>(
    machine: &mut Machine<M>,
    monitor: &mut Monitor<C>,
    steps: &mut Steps<L>,
) -> Option<Decision>
    requires { 0 < length machine.old.cpus }
    ensures { length machine.new.cpus ≡ length machine.old.cpus }
{
    match machine.runs(0) {
        Some(_) => Some(decide(machine, 0, monitor, steps)),
        None => None,
    }
}

// One decision over a child that there isn't, and one where none is alive, by a callback that counts how often it is
// asked.
fn decide_asked<C: Chooser + Drop, L: Ledger>(
    rt: &(impl Abort + AllocGlobal),
    choose: C,
    asked: &Cell<u32>,
    blank: Blank,
) -> Result<(), Fail>
    requires blank { CanOpen blank.name blank.parts L.name L.parts }
    requires next { AnswersNext (C.may_choose choose) (C.chooses choose) 1 }
{
    let mut steps: Steps<L> = Steps::new(blank);
    let mut machine = new_machine(rt.alloc(), 64, 1, &mut steps)?;
    let mut children = ArrayVec::new();
    children.push(0x401000);
    let mut monitor = Monitor::new(children, choose);
    let first = decided(&mut machine, &mut monitor, &mut steps);
    assert_eq!(rt;
        first,
        Some(Decision::Dropped {
            child: 0,
            status: Status::NotChild
        })
    );
    assert_eq!(rt; asked.get(), 1);
    assert_eq!(rt; (monitor.alive(), monitor.last()), (0, 0));
    let second = decided(&mut machine, &mut monitor, &mut steps);
    assert_eq!(rt; second, Some(Decision::Nobody));
    assert_eq!(rt; asked.get(), 2);
    Ok(())
}

#[test]
fn the_kept_callback_chooses(rt: HostRuntime) -> Result<(), Fail> {
    let asked = Cell::new(0_u32);
    let choose = |alive: u32, last: u32| {
        asked.set(asked.get().wrapping_add(1));
        next_child(1, alive, last)
    };
    decide_asked::<_, Brand>(&rt, choose, &asked, Blank::new(1))
}
