ghost use Rattle.std.specs.Prelude.{◌<◌, ◌≤◌};
ghost use Rattle.pip_base.specs.Opening.{CanOpen};
ghost use Rattle.pip_io.specs.Memory.{source_faults};
ghost use Rattle.pip_io.specs.Taken.{plain};
ghost use Rattle.pip_io.specs.Histories.{remaining, writing};

use crate::script_ends::{check_end, holds};
use pip_base::Steps;
use pip_commands::{pip, script};
use pip_frames::RawFrames;
use pip_io::{Failed, Gatherer, MemSink, MemSource, Sink, Source};
use pip_model::Port;
use pip_switch::Machine;
use std::cell::Cell;
use std::marker::Brand;
use std::process::Abort;
use std::sync::ledger::{Blank, Ledger};
use std::test::Fail;

// Runs a script, where a read and a write fail, 0 for none, and compares its status and its text.
fn check(
    rt: &(impl Abort + AllocGlobal),
    input: &str,
    failing: (u32, u32),
    status: u8,
    text: &str,
) -> Result<(), Fail> {
    let (reads, writes) = ([failing.0], [failing.1]);
    let mut source = MemSource::new(input.as_bytes(), &reads);
    let mut sink = MemSink::new(rt.alloc(), 8192, &writes)?;
    let ended = script(rt.alloc(), &mut source, &mut sink);
    let text = text.as_bytes();
    check_end(rt, input, ended.status, sink.bytes(), status, text);
    Ok(())
}

// Does that for each row, where nothing fails: the script, its status and its text.
fn check_rows(rt: &(impl Abort + AllocGlobal), rows: &[(&str, u8, &str)]) -> Result<(), Fail> {
    for (input, status, text) in rows {
        check(rt, input, (0, 0), *status, text)?;
    }
    Ok(())
}

// A word is stored, loaded and looked at.
const WORD: &str = "boot 32 1
st 0 0x400000 7
ld 0 0x400000
peek 12 0
";

const WORD_ANSWERS: &str = "boot 32 1
done
0x00000007
0x00000007
";

// A child is created, and the root parks when it loads from a page that it gave away. Each line has an answer.
const CHILD: &str = "boot 32 1
call 0 0 0x401000 0x402000 0x403000 0x404000 0x405000
peek 13 11
ld 0 0x401000
reg 0 0
";

const CHILD_ANSWERS: &str = "boot 32 1
reply 0 0x00000000
0x00000001
park 1 14
idle
";

// Scripts with their answers.
static SESSIONS: [(&str, u8, &str); 2] = [(WORD, 0, WORD_ANSWERS), (CHILD, 0, CHILD_ANSWERS)];

#[test]
fn sessions_are_answered(rt: HostRuntime) -> Result<(), Fail> {
    check_rows(&rt, &SESSIONS)
}

const REMARK: &str =
    "########################################################################################################################";

// Scripts, their statuses and what is written.
static ENDS: [(&str, u8, &str); 14] = [
    ("", 0, ""),
    ("\n# none\n\n", 0, ""),
    ("boot 0x1000 1\n", 0, "boot 4096 1\n"),
    ("\nboot 16 2\nboot\n", 2, "boot 16 2\nbad line 3\n"),
    ("boot 16 4", 0, "boot 16 4\n"),
    ("boot 15 1\n", 2, "bad line 1\n"),
    ("boot 4097 1", 2, "bad line 1\n"),
    ("boot 16 5", 2, "bad line 1\n"),
    ("boot 16 0", 2, "bad line 1\n"),
    ("boot 16", 2, "bad line 1\n"),
    ("boot 16 1 ", 2, "bad line 1\n"),
    ("#\n boot 16 1", 2, "bad line 2\n"),
    ("ld 0 0x400000\n", 2, "bad line 1\n"),
    ("poll 0\n", 2, "bad line 1\n"),
];

#[test]
fn scripts_have_ends(rt: HostRuntime) -> Result<(), Fail> {
    check_rows(&rt, &ENDS)
}

#[test]
fn a_remark_has_the_limit_of_lines(rt: HostRuntime) -> Result<(), Fail> {
    check(&rt, REMARK, (0, 0), 0, "")?;
    let long = format!(in rt.alloc(); "{REMARK}#\nboot 16 1\n")?;
    check(&rt, long.as_str(), (0, 0), 2, "bad line 1\n")
}

// Lines after `boot 16 1`, the status, and the answers after that of the boot line.
static LINES: [(&str, u8, &str); 30] = [
    (
        "st 0 0xfffffffc 4294967295\nld 0 4294967292",
        0,
        "done\n0xffffffff\n",
    ),
    (
        "st 0 0x400ffc 0x89abcdef\nld 0 0x401000\nld 0 0x400ff8",
        0,
        "done\n0x00000000\n0x00000000\n",
    ),
    ("st 0x0 4194304 0xa\nld 0 0x400000", 0, "done\n0x0000000a\n"),
    (
        "sb 0 0xffffffff 1\nlb 0 0xffffffff",
        0,
        "done\n0x00000001\n",
    ),
    (
        "peek 15 1023\npeek 16 0\npeek 0 1024\npeek 4294967295 0",
        0,
        "0x00000000\nnone\nnone\nnone\n",
    ),
    ("ld 0 0x3ffffc", 0, "park 1 14\n"),
    ("ld 0 0x400002", 0, "park 1 17\n"),
    ("sb 0 0 0", 0, "park 1 14\n"),
    ("fetch 0", 0, "0x00000000\n"),
    ("trap 0 255 0 0", 0, "park 1 255\n"),
    ("call 0 1", 0, "reply 3 0x00000000\n"),
    ("call 0 11 1 2 3 4 5", 0, "reply 0 0x00000000\n"),
    ("raise 15\npoll 0", 0, "done\ndone\n"),
    ("reg 0 16", 0, "0x00400000\n"),
    ("pc 0 0x400000\nfetch 0", 0, "done\n0x00000000\n"),
    ("lb", 2, "bad line 2\n"),
    ("sb 0 0x400000 256", 2, "bad line 2\n"),
    ("fetch 1", 2, "bad line 2\n"),
    ("trap  ", 2, "bad line 2\n"),
    ("raise 16", 2, "bad line 2\n"),
    ("peek x", 2, "bad line 2\n"),
    ("reg 0 17", 2, "bad line 2\n"),
    ("pc", 2, "bad line 2\n"),
    ("boot 16 1", 2, "bad line 2\n"),
    ("ld 1 0x400000", 2, "bad line 2\n"),
    ("ld 0 0x000000000", 2, "bad line 2\n"),
    ("ld  0 0", 2, "bad line 2\n"),
    ("ld 0 0\r", 2, "bad line 2\n"),
    ("st 0 0x400000 4294967296", 2, "bad line 2\n"),
    ("call 0", 2, "bad line 2\n"),
];

// Runs lines after `boot 16 1`, and compares the status and the answers after that of the boot line.
fn check_lines(
    rt: &(impl Abort + AllocGlobal),
    lines: &str,
    status: u8,
    answers: &str,
) -> Result<(), Fail> {
    let input = format!(in rt.alloc(); "boot 16 1\n{lines}")?;
    let text = format!(in rt.alloc(); "boot 16 1\n{answers}")?;
    check(rt, input.as_str(), (0, 0), status, text.as_str())
}

#[test]
fn lines_follow_the_boot_line(rt: HostRuntime) -> Result<(), Fail> {
    for (lines, status, answers) in &LINES {
        check_lines(&rt, lines, *status, answers)?;
    }
    Ok(())
}

// The first word of the root's first page, where there is a machine.
fn first_word<L: Ledger>(machine: &Option<Machine<RawFrames>>, blank: Blank) -> Option<u32>
    requires blank { CanOpen blank.name blank.parts L.name L.parts }
{
    let mut steps: Steps<L> = Steps::new(blank);
    match machine {
        None => None,
        Some(machine) => machine.peek(12, 0, &mut steps),
    }
}

#[test]
fn machine_is_handed_back(rt: HostRuntime) -> Result<(), Fail> {
    let words = vec![in rt.alloc(); String::from_str(rt.alloc(), "script")?]?;
    let mut source = MemSource::new(WORD.as_bytes(), &[]);
    let mut sink = MemSink::new(rt.alloc(), 64, &[])?;
    let ended = pip(rt.alloc(), &words, &mut source, &mut sink);
    // The store misses the cache, and the load after it hits.
    let counts = first_counts(&ended.machine);
    holds(&rt, counts == Some((1, 1)), "counts");
    holds(
        &rt,
        first_word::<Brand>(&ended.machine, Blank::new(1)) == Some(7),
        "a word",
    );
    Ok(())
}

// What the translation cache of processor 0 has counted, where there is a machine.
fn first_counts(machine: &Option<Machine<RawFrames>>) -> Option<(u64, u64)> {
    match machine {
        Some(machine) if machine.cpus() > 0 => Some(machine.counts(0)),
        _ => None,
    }
}

#[test]
fn second_load_hits(rt: HostRuntime) -> Result<(), Fail> {
    let input = b"boot 32 1\nld 0 0x400000\nld 0 0x400000\n";
    let mut source = MemSource::new(input, &[]);
    let mut sink = MemSink::new(rt.alloc(), 64, &[])?;
    let ended = script(rt.alloc(), &mut source, &mut sink);
    let counts = first_counts(&ended.machine);
    holds(&rt, counts == Some((1, 1)), "counts");
    Ok(())
}

// Asserts that a script leaves no machine.
fn check_left(rt: &(impl Abort + AllocGlobal), input: &str) -> Result<(), Fail> {
    let mut source = MemSource::new(input.as_bytes(), &[]);
    let mut sink = MemSink::new(rt.alloc(), 64, &[])?;
    let ended = script(rt.alloc(), &mut source, &mut sink);
    holds(rt, ended.machine.is_none(), input);
    Ok(())
}

#[test]
fn no_machine_is_left(rt: HostRuntime) -> Result<(), Fail> {
    for input in ["", "#\n", "boot 16 2\nboot"] {
        check_left(&rt, input)?;
    }
    Ok(())
}

#[test]
fn the_program_leaves_no_machine(rt: HostRuntime) -> Result<(), Fail> {
    let words = vec![in rt.alloc(); String::from_str(rt.alloc(), "script")?]?;
    let mut sink = MemSink::new(rt.alloc(), 64, &[])?;
    let ended = pip(rt.alloc(), &words, &mut MemSource::new(b"", &[]), &mut sink);
    holds(&rt, ended.machine.is_none(), "an empty script");
    Ok(())
}

/// A source that gives one byte at each call.
#[derive(Drop)]
struct Drip<'a>(MemSource<'a>);

impl Source for Drip<'_> {
    ghost use Rattle.std.specs.Prelude.{None};

    ghost history = { λ s. remaining None (source_faults s.0) };

    fn read(&mut self, buf: &mut [u8]) -> Result<usize, Failed> {
        self.0.read(&mut buf[..1])
    }
}

// A script, the read and the write that fail, 0 for none, the status and what is written.
static FAILS: [(&str, (u32, u32), u8, &str); 9] = [
    // Each line goes out by itself: if the third write fails, two lines are out.
    (WORD, (0, 1), 4, ""),
    (WORD, (0, 2), 4, "boot 32 1\n"),
    (WORD, (0, 3), 4, "boot 32 1\ndone\n"),
    (WORD, (0, 4), 4, "boot 32 1\ndone\n0x00000007\n"),
    (WORD, (0, 5), 0, WORD_ANSWERS),
    ("boot 32 1\nst 0 0x400000 7\n", (0, 1), 4, ""),
    ("boot 32 1\nst 0 0x400000 7\n", (1, 0), 3, ""),
    (
        "boot 32 1\nst 0 0x400000 7\n",
        (2, 0),
        3,
        "boot 32 1\ndone\n",
    ),
    ("x", (0, 1), 4, ""),
];

#[test]
fn faults_end_a_script(rt: HostRuntime) -> Result<(), Fail> {
    for (input, failing, status, text) in &FAILS {
        check(&rt, input, *failing, *status, text)?;
    }
    Ok(())
}

// Runs a script that comes byte by byte, where a write fails, 0 for none, and compares the status and the text.
fn check_dripping(
    rt: &(impl Abort + AllocGlobal),
    input: &str,
    failing: u32,
    status: u8,
    text: &str,
) -> Result<(), Fail> {
    let writes = [failing];
    let mut source = Drip(MemSource::new(input.as_bytes(), &[]));
    let mut sink = MemSink::new(rt.alloc(), 4096, &writes)?;
    let ended = script(rt.alloc(), &mut source, &mut sink);
    let text = text.as_bytes();
    check_end(rt, input, ended.status, sink.bytes(), status, text);
    Ok(())
}

#[test]
fn bytes_may_come_one_by_one(rt: HostRuntime) -> Result<(), Fail> {
    check_dripping(&rt, WORD, 0, 0, WORD_ANSWERS)?;
    let input = "boot 32 1\nst 0 0x400000 7\n";
    check_dripping(&rt, input, 2, 4, "boot 32 1\n")
}

// Runs a script by a gatherer, where a write fails, and compares the status and the text.
fn check_gathered(
    rt: &(impl Abort + AllocGlobal),
    input: &str,
    failing: u32,
    status: u8,
    text: &str,
) -> Result<(), Fail> {
    let writes = [failing];
    let mut source = MemSource::new(input.as_bytes(), &[]);
    let mut sink = Gatherer::new(MemSink::new(rt.alloc(), 4096, &writes)?);
    let ended = script(rt.alloc(), &mut source, &mut sink);
    let written = sink.sink().bytes();
    check_end(rt, input, ended.status, written, status, text.as_bytes());
    Ok(())
}

// All answers to what one read gave are one write of a gatherer's sink.
#[test]
fn answers_are_gathered(rt: HostRuntime) -> Result<(), Fail> {
    check_gathered(&rt, CHILD, 1, 4, "")?;
    check_gathered(&rt, CHILD, 2, 0, CHILD_ANSWERS)
}

// Asserts that as many lines of `CHILD` are answered as came whole before a read that fails.
fn check_answered(rt: &impl Abort, call: u32, written: &[u8])
    requires { 1 ≤ call }
{
    let read = &CHILD.as_bytes()[..CHILD.len().min((call - 1) as usize)];
    let answers = CHILD_ANSWERS.as_bytes();
    holds(rt, answers.starts_with(written), "the answers");
    assert_eq!(rt;
        newlines(written),
        newlines(read),
        "where read {call} fails"
    );
}

// The status of a script by a gatherer, where a read fails, each of which gives a byte.
fn status_gathered(rt: &(impl Abort + AllocGlobal), call: u32) -> Result<u8, Fail>
    requires { 1 ≤ call }
{
    let reads = [call];
    let mut source = Drip(MemSource::new(CHILD.as_bytes(), &reads));
    let mut sink = Gatherer::new(MemSink::new(rt.alloc(), 4096, &[])?);
    let ended = script(rt.alloc(), &mut source, &mut sink);
    check_answered(rt, call, sink.sink().bytes());
    Ok(ended.status)
}

// Whatever read comes last, all that was answered before is out, and nothing else is, also over a gatherer.
#[test]
fn a_gatherer_is_settled_before_each_read(rt: HostRuntime) -> Result<(), Fail> {
    let mut status = 3;
    for call in 1..2000 {
        if status == 3 {
            status = status_gathered(&rt, call)?;
        }
    }
    holds(&rt, status == 0, "the last status");
    Ok(())
}

/// A source that gives these pieces, one at each call. Beside each piece is the number of bytes that have to be written
/// before it is asked for; after the last piece, all have to be.
#[derive(Drop)]
struct Typed<'a> {
    pieces: &'a [(&'a str, usize)],
    next: usize,
    all: usize,
    written: &'a Cell<usize>,
    late: bool,
}

impl Source for Typed<'_> {
    ghost use Rattle.std.specs.Prelude.{None};

    ghost history = { λ _. remaining None 0 };

    fn read(&mut self, buf: &mut [u8]) -> Result<usize, Failed> {
        if self.next >= self.pieces.len() {
            self.late |= self.written.get() != self.all;
            return Ok(0);
        }
        let (piece, due) = self.pieces[self.next];
        self.late |= self.written.get() != due;
        self.next += 1;
        let count = piece.len().min(buf.len());
        buf[..count].copy_from_slice(&piece.as_bytes()[..count]);
        Ok(count)
    }
}

/// A sink that counts its bytes where others see the count.
#[derive(Drop)]
struct Watched<'a> {
    written: &'a Cell<usize>,
}

impl Sink for Watched<'_> {
    ghost use Rattle.std.specs.Prelude.{None};
    ghost use Rattle.pip_io.specs.Taken.{plain};

    ghost history = { λ _. writing (plain None) 0 };

    fn write(&mut self, piece: &[u8]) -> Result<usize, Failed> {
        self.written
            .set(self.written.get().wrapping_add(piece.len()));
        Ok(piece.len())
    }

    fn flush(&mut self) -> Result<(), Failed> {
        Ok(())
    }
}

// Gives a script these pieces, and asserts that each is asked for after what is due was written, and that `all` bytes
// are at the end.
fn check_typed(
    rt: &(impl Abort + AllocGlobal),
    pieces: &[(&str, usize)],
    all: usize,
) -> Result<(), Fail> {
    let written = Cell::new(0_usize);
    let mut source = Typed {
        pieces,
        next: 0,
        all,
        written: &written,
        late: false,
    };
    let mut sink = Gatherer::new(Watched { written: &written });
    let ended = script(rt.alloc(), &mut source, &mut sink);
    holds(rt, ended.status == 0, "pieces");
    holds(rt, !source.late, "pieces");
    holds(rt, written.get() == all, "pieces");
    Ok(())
}

static WHOLE_LINES: [(&str, usize); 3] = [
    ("boot 32 1\n", 0),
    ("ld 0 0x400000\n", 10),
    ("fetch 0\n", 21),
];

static HALF_LINES: [(&str, usize); 4] = [
    ("boot 32 1\nld 0 ", 0),
    ("0x4000", 10),
    ("00\n\nreg 0 0\nfe", 10),
    ("tch 0\n", 32),
];

#[test]
fn answers_come_before_more_is_read(rt: HostRuntime) -> Result<(), Fail> {
    check_typed(&rt, &WHOLE_LINES, 32)?;
    check_typed(&rt, &HALF_LINES, 43)
}

/// A source of that many bytes: remarks of 121 bytes with their newlines, or newlines alone.
#[derive(Drop)]
struct Blanks {
    bytes: u32,
    byte: u8,
}

impl Source for Blanks {
    ghost use Rattle.std.specs.Prelude.{None};

    ghost history = { λ _. remaining None 0 };

    fn read(&mut self, buf: &mut [u8]) -> Result<usize, Failed> {
        let count = buf.len().min(self.bytes as usize).min(121);
        buf[..count].fill(self.byte);
        if count > 0 {
            buf[count - 1] = b'\n';
        }
        self.bytes -= count as u32;
        Ok(count)
    }
}

// Compares the status of a script of that many bytes, all newlines or remarks, of which nothing can be written.
fn check_blanks(
    rt: &(impl Abort + AllocGlobal),
    bytes: u32,
    byte: u8,
    status: u8,
) -> Result<(), Fail> {
    let mut sink = MemSink::new(rt.alloc(), 0, &[])?;
    let ended = script(rt.alloc(), &mut Blanks { bytes, byte }, &mut sink);
    assert_eq!(rt; ended.status, status, "of {bytes} bytes {byte}");
    Ok(())
}

#[test]
fn input_has_a_limit(rt: HostRuntime) -> Result<(), Fail> {
    for byte in [b'#', b'\n'] {
        check_blanks(&rt, 1 << 24, byte, 0)?;
        check_blanks(&rt, (1 << 24) + 1, byte, 6)?;
    }
    Ok(())
}

fn newlines(text: &[u8]) -> usize {
    text.iter().filter(|byte| **byte == b'\n').count()
}

// The status of a script, where a read fails, each of which gives a byte.
fn status_read(rt: &(impl Abort + AllocGlobal), call: u32) -> Result<u8, Fail>
    requires { 1 ≤ call }
{
    let reads = [call];
    let mut source = Drip(MemSource::new(CHILD.as_bytes(), &reads));
    let mut sink = MemSink::new(rt.alloc(), 4096, &[])?;
    let ended = script(rt.alloc(), &mut source, &mut sink);
    check_answered(rt, call, sink.bytes());
    Ok(ended.status)
}

#[test]
fn each_read_fails_in_turn(rt: HostRuntime) -> Result<(), Fail> {
    let mut status = 3;
    for call in 1..2000 {
        if status == 3 {
            status = status_read(&rt, call)?;
        }
    }
    holds(&rt, status == 0, "the last status");
    Ok(())
}

/// A sink that takes one byte at each call.
#[derive(Drop)]
struct Trickle<'a>(MemSink<'a>);

impl Sink for Trickle<'_> {
    ghost use Rattle.std.specs.Prelude.{None};
    ghost use Rattle.pip_io.specs.Memory.{sink_faults};
    ghost use Rattle.pip_io.specs.Taken.{plain};

    ghost history = { λ s. writing (plain None) (sink_faults s.0) };

    fn write(&mut self, piece: &[u8]) -> Result<usize, Failed> {
        self.0.write(&piece[..1])
    }

    fn flush(&mut self) -> Result<(), Failed> {
        Ok(())
    }
}

// The status of a script, where a write fails, each of which takes a byte.
fn status_written(rt: &(impl Abort + AllocGlobal), call: u32) -> Result<u8, Fail>
    requires { 1 ≤ call }
{
    let writes = [call];
    let mut sink = Trickle(MemSink::new(rt.alloc(), 4096, &writes)?);
    let mut source = MemSource::new(CHILD.as_bytes(), &[]);
    let ended = script(rt.alloc(), &mut source, &mut sink);
    let written = sink.0.bytes();
    let answers = CHILD_ANSWERS.as_bytes();
    holds(rt, answers.starts_with(written), "the answers");
    assert_eq!(rt;
        written.len(),
        (call - 1) as usize,
        "where write {call} fails"
    );
    Ok(ended.status)
}

#[test]
fn each_write_fails_in_turn(rt: HostRuntime) -> Result<(), Fail> {
    let mut status = 4;
    for call in 1..2000 {
        if status == 4 {
            status = status_written(&rt, call)?;
        }
    }
    holds(&rt, status == 0, "the last status");
    Ok(())
}
