use crate::script_ends::{check_end, holds, words_of};
use pip_commands::pip;
use pip_io::{MemSink, MemSource};
use std::process::Abort;
use std::test::Fail;

const USAGE: &str =
    "usage: pip script | run STEPS SEED | asm | dis | tree STEPS SEED | core STEPS SEED | soak COUNT SEED | native N STEPS | audit FRAMES\n";

// The words of a command line, the status where the first read fails, and what is written.
static ROWS: [(&str, u8, &str); 44] = [
    ("run 6 1", 3, ""),
    ("run 0x6 1", 3, ""),
    ("script", 3, ""),
    ("asm", 3, ""),
    ("dis", 3, ""),
    ("tree 10000000 4294967295", 3, ""),
    ("core 0 1", 3, ""),
    ("native 1 0", 3, ""),
    ("native 8 10000000", 3, ""),
    ("audit 16", 3, ""),
    ("audit 0x1000", 3, ""),
    ("run 5 1 after 5 1", 1, USAGE),
    ("audit 15", 1, USAGE),
    ("audit 4097", 1, USAGE),
    ("audit 016", 1, USAGE),
    ("audit", 1, USAGE),
    ("audit 16 1", 1, USAGE),
    ("native 0 5", 1, USAGE),
    ("native 9 5", 1, USAGE),
    ("native 1 10000001", 1, USAGE),
    ("native 1", 1, USAGE),
    ("native 2 1 0:5", 1, USAGE),
    ("run 06 1", 1, USAGE),
    ("run 5", 1, USAGE),
    ("run 10000001 1", 1, USAGE),
    ("run 6 0", 1, USAGE),
    ("run 6 1 1", 1, USAGE),
    ("soak 1000001 1", 1, USAGE),
    ("asm 1", 1, USAGE),
    ("script 1", 1, USAGE),
    ("--help", 1, USAGE),
    ("", 1, USAGE),
    ("every 100", 1, USAGE),
    ("slots 1 1 1", 1, USAGE),
    ("slots 2 1 0:1", 1, USAGE),
    ("against 1", 1, USAGE),
    ("apart 1 1 1", 1, USAGE),
    ("part", 1, USAGE),
    ("part 0", 1, USAGE),
    ("merge", 1, USAGE),
    ("every 1 after 0 1", 1, USAGE),
    ("-h", 1, USAGE),
    ("--version", 1, USAGE),
    ("core 1 0", 1, USAGE),
];

// Compares what the program answers to the words of a line, where the first read would fail.
fn check_row(
    rt: &(impl Abort + AllocGlobal),
    line: &str,
    status: u8,
    text: &str,
) -> Result<(), Fail> {
    let words = words_of(rt, line)?;
    let mut source = MemSource::new(b"", &[1]);
    let mut sink = MemSink::new(rt.alloc(), 4096, &[])?;
    let ended = pip(rt.alloc(), &words, &mut source, &mut sink);
    let text = text.as_bytes();
    check_end(rt, line, ended.status, sink.bytes(), status, text);
    Ok(())
}

// Does that for each row.
fn check_rows(rt: &(impl Abort + AllocGlobal), rows: &[(&str, u8, &str)]) -> Result<(), Fail> {
    for (line, status, text) in rows {
        check_row(rt, line, *status, text)?;
    }
    Ok(())
}

#[test]
fn words_ask_for_commands(rt: HostRuntime) -> Result<(), Fail> {
    check_rows(&rt, &ROWS)
}

// Compares the status of the program that is given an input.
fn check_status(
    rt: &(impl Abort + AllocGlobal),
    words: &[String],
    input: &[u8],
    status: u8,
) -> Result<(), Fail> {
    let mut source = MemSource::new(input, &[]);
    let mut sink = MemSink::new(rt.alloc(), 4096, &[])?;
    let ended = pip(rt.alloc(), words, &mut source, &mut sink);
    assert_eq!(rt; ended.status, status);
    Ok(())
}

#[test]
fn words_may_be_missing(rt: HostRuntime) -> Result<(), Fail> {
    let none: Vec<String> = Vec::new(rt.alloc());
    check_status(&rt, &none, b"", 1)?;
    let words = words_of(&rt, "script")?;
    check_status(&rt, &words, b"#", 0)
}

#[test]
fn a_load_is_made(rt: HostRuntime) -> Result<(), Fail> {
    let words = words_of(&rt, "soak 0x0 0x1")?;
    let mut source = MemSource::new(b"", &[1]);
    let mut sink = MemSink::new(rt.alloc(), 512, &[])?;
    let ended = pip(rt.alloc(), &words, &mut source, &mut sink);
    holds(&rt, ended.status == 0, "a load");
    holds(&rt, ended.machine.is_some(), "a load");
    let last = b"parts 1\nrows 52\nhidden 11\nend 0\n";
    holds(&rt, sink.bytes().ends_with(last), "its last lines");
    Ok(())
}
