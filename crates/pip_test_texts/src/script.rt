//! Lines and texts as docs/FORMATS.md gives them.
use crate::compare::{holds, same};
use arrayvec::ArrayString;
use pip_base::{MAX_LINE, Outcome, Size, Status};
use pip_script::{
    Said, ScriptLine, outcome_text, push_said, read_line, read_number, reply_line, word_line,
    word_text,
};
use std::process::Abort;

static LINES: [(u32, &str, ScriptLine); 18] = [
    (0, "", ScriptLine::Blank),
    (1, "# ld 0  00", ScriptLine::Blank),
    (0, "boot 16 4", ScriptLine::Boot { n: 16, c: 4 }),
    (0, "boot 0x1000 0x01", ScriptLine::Boot { n: 4096, c: 1 }),
    (
        1,
        "ld 0 0x400000",
        ScriptLine::Load {
            cpu: 0,
            va: 0x40_0000,
            size: Size::Word,
        },
    ),
    (
        4,
        "lb 3 4294967295",
        ScriptLine::Load {
            cpu: 3,
            va: u32::MAX,
            size: Size::Byte,
        },
    ),
    (
        2,
        "st 1 10 0xffffffff",
        ScriptLine::Store {
            cpu: 1,
            va: 10,
            size: Size::Word,
            word: u32::MAX,
        },
    ),
    (
        2,
        "sb 0 0x00400003 255",
        ScriptLine::Store {
            cpu: 0,
            va: 0x40_0003,
            size: Size::Byte,
            word: 255,
        },
    ),
    (2, "fetch 1", ScriptLine::Fetch { cpu: 1 }),
    (
        1,
        "trap 0 255 4294967295 0x0",
        ScriptLine::Trap {
            cpu: 0,
            vector: 255,
            a: u32::MAX,
            b: 0,
        },
    ),
    (
        1,
        "call 0 4294967295",
        ScriptLine::Call {
            cpu: 0,
            no: u32::MAX,
            args: [0; 5],
        },
    ),
    (
        1,
        "call 0 8 0x401000 64 1",
        ScriptLine::Call {
            cpu: 0,
            no: 8,
            args: [0x40_1000, 64, 1, 0, 0],
        },
    ),
    (
        1,
        "call 0 0 1 2 3 4 5",
        ScriptLine::Call {
            cpu: 0,
            no: 0,
            args: [1, 2, 3, 4, 5],
        },
    ),
    (1, "raise 15", ScriptLine::Raise { line: 15 }),
    (4, "poll 3", ScriptLine::Poll { cpu: 3 }),
    (
        1,
        "peek 4294967295 0xabcdef",
        ScriptLine::Peek {
            frame: u32::MAX,
            index: 0xab_cdef,
        },
    ),
    (1, "reg 0 16", ScriptLine::Reg { cpu: 0, reg: 16 }),
    (
        1,
        "pc 0 0x400002",
        ScriptLine::SetPc {
            cpu: 0,
            va: 0x40_0002,
        },
    ),
];

// Compares what a line is read as, after a boot with that many processors, or 0 before one.
fn check_line(rt: &impl Abort, cpus: u32, line: &str, wanted: Option<ScriptLine>) {
    assert!(rt; read_line(line.as_bytes(), cpus) == wanted, "{line}");
}

#[test]
fn lines_of_the_grammar(rt: HostRuntime) {
    for (cpus, line, wanted) in &LINES {
        check_line(&rt, *cpus, line, Some(*wanted));
    }
}

static NO_FIRST_LINES: [&str; 9] = [
    "boot 15 1",
    "boot 4097 1",
    "boot 16 0",
    "boot 16 5",
    "boot 16",
    "boot 16 1 1",
    "ld 0 0",
    "raise 0",
    "peek 0 0",
];

static NO_LINES: [&str; 24] = [
    "boot 32 1",
    "ld 2 0",
    "fetch 4294967295",
    "ld 0",
    "ld 0 0 0",
    "sb 0 0 256",
    "st 0 0 4294967296",
    "trap 0 256 0 0",
    "call 0",
    "call 0 5 1 2 3 4 5 6",
    "call 0 5 1 2 3 4 5 6 7",
    "raise 16",
    "reg 0 17",
    "ld  0 0",
    " ld 0 0",
    "ld 0 0 ",
    "ld 0 0\r",
    "ld\t0 0",
    " ",
    "ld",
    "LD 0 0",
    "l 0 0",
    "lds 0 0",
    "halt 0",
];

#[test]
fn lines_outside_the_grammar(rt: HostRuntime) {
    for line in &NO_FIRST_LINES {
        check_line(&rt, 0, line, None);
    }
    for line in &NO_LINES {
        check_line(&rt, 2, line, None);
    }
}

#[test]
fn remarks_have_the_limit_of_lines(rt: HostRuntime) {
    let remark = [b'#'; 121];
    for cpus in [0, 1] {
        let whole = read_line(&remark[..MAX_LINE], cpus);
        holds(&rt, whole == Some(ScriptLine::Blank), MAX_LINE);
        holds(&rt, read_line(&remark, cpus) == None, 121);
    }
}

static NUMBERS: [(&str, Option<u32>); 20] = [
    ("0", Some(0)),
    ("9", Some(9)),
    ("4294967295", Some(u32::MAX)),
    ("4294967296", None),
    ("99999999999999999999", None),
    ("0x0", Some(0)),
    ("0x0000000f", Some(15)),
    ("0xffffffff", Some(u32::MAX)),
    ("0x000000000", None),
    ("0x", None),
    ("0X0", None),
    ("0xF", None),
    ("0xg", None),
    ("x0", None),
    ("00", None),
    ("07", None),
    ("-1", None),
    ("+1", None),
    ("1a", None),
    ("", None),
];

#[test]
fn numbers_are_below_two_to_the_32(rt: HostRuntime) {
    for (word, wanted) in &NUMBERS {
        same(&rt, read_number(word.as_bytes()), *wanted, *word);
    }
}

static OUTCOMES: [(Outcome, &str); 9] = [
    (Outcome::Word(0x2a), "0x0000002a"),
    (Outcome::Word(0x89ab_cdef), "0x89abcdef"),
    (Outcome::Done, "done"),
    (
        Outcome::Reply {
            status: Status::Ok,
            value: 0x40_1000,
        },
        "reply 0 0x00401000",
    ),
    (
        Outcome::Reply {
            status: Status::NoContext,
            value: 0,
        },
        "reply 17 0x00000000",
    ),
    (
        Outcome::Switched {
            from: 13,
            to: 1,
            vector: 14,
        },
        "switch 13 1 14",
    ),
    (
        Outcome::Switched {
            from: 0,
            to: u32::MAX,
            vector: 256,
        },
        "switch 0 4294967295 256",
    ),
    (
        Outcome::Parked {
            from: 1,
            vector: 14,
        },
        "park 1 14",
    ),
    (Outcome::Idle, "idle"),
];

#[test]
fn answers_have_their_texts(rt: HostRuntime) {
    for (outcome, text) in &OUTCOMES {
        same(&rt, outcome_text(outcome).as_str(), *text, *text);
    }
    same(&rt, word_text(u32::MAX).as_str(), "0xffffffff", "a word");
}

static ANSWERS: [(Said, &str); 6] = [
    (
        Said::Booted {
            n: 4096,
            c: u32::MAX,
        },
        "> boot 4096 4294967295\n",
    ),
    (Said::Came(Outcome::Done), "> done\n"),
    (Said::Peeked(Some(0x2a)), "> 0x0000002a\n"),
    (Said::Peeked(None), "> none\n"),
    (Said::Shown(Some(u32::MAX)), "> 0xffffffff\n"),
    (Said::Shown(None), "> idle\n"),
];

// Compares the line of an answer, after what was there.
fn check_said(rt: &impl Abort, said: &Said, line: &str) {
    let mut text = ArrayString::new();
    text.push_str("> ");
    push_said(&mut text, said);
    same(rt, text.as_str(), line, line);
}

#[test]
fn answers_to_lines_come_after_what_was_there(rt: HostRuntime) {
    for (said, line) in &ANSWERS {
        check_said(&rt, said, line);
    }
}

#[test]
fn lines_of_one_length_are_bytes(rt: HostRuntime) {
    same(&rt, word_line(0x2a), *b"0x0000002a\n", "a word");
    let reply = reply_line(0, 0);
    same(&rt, reply, *b"reply 0 0x00000000\n", "a reply");
    let other = reply_line(9, 0x89abcdef);
    same(&rt, other, *b"reply 9 0x89abcdef\n", "another reply");
}
