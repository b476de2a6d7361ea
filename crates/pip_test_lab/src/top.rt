use crate::ends::{check_end, words_of};
use pip_io::{MemSink, MemSource};
use pip_lab_commands::lab;
use std::process::Abort;
use std::test::Fail;

const LAB_USAGE: &str =
    "usage: pip-lab slots N TURNS ROUNDS | slots N ROUNDS K:TURNS .. | every STATES [FROM [DEPTH]] [after STEPS SEED] | against STATES [FROM [DEPTH]] [after STEPS SEED] | apart STATES STEPS SEED | part [FROM] | merge\n";

// The words of a command line, the status where the first read fails, and what is written.
static ROWS: [(&str, u8, &str); 70] = [
    ("slots 8 8 125000", 3, ""),
    ("slots 2 1000 0:48 1:10 0:0x5", 3, ""),
    ("slots 8 1 7:9999998", 3, ""),
    ("every 1", 3, ""),
    ("every 100000000 0", 3, ""),
    ("every 1 10000000 10000000", 3, ""),
    ("against 1", 3, ""),
    ("against 100000000 0", 3, ""),
    ("against 1 10000000 10000000", 3, ""),
    ("every 1 after 0 1", 3, ""),
    ("every 100000000 0 after 10000000 4294967295", 3, ""),
    ("every 1 0 10000000 after 0x5 7", 3, ""),
    ("against 1 after 5 1", 3, ""),
    ("against 1 0 after 5 1", 3, ""),
    ("against 1 0 1 after 5 1", 3, ""),
    ("apart 1 0 1", 3, ""),
    ("apart 100000000 10000000 4294967295", 3, ""),
    ("part", 3, ""),
    ("part 10000000", 3, ""),
    ("merge", 3, ""),
    ("part 10000001", 1, LAB_USAGE),
    ("part 1 1", 1, LAB_USAGE),
    ("part 1 after 5 1", 1, LAB_USAGE),
    ("merge 1", 1, LAB_USAGE),
    ("apart 0 0 1", 1, LAB_USAGE),
    ("apart 1 10000001 1", 1, LAB_USAGE),
    ("apart 1 0 0", 1, LAB_USAGE),
    ("apart 1 0", 1, LAB_USAGE),
    ("every 0", 1, LAB_USAGE),
    ("every 100000001", 1, LAB_USAGE),
    ("every 1 10000001", 1, LAB_USAGE),
    ("every 1 0 0", 1, LAB_USAGE),
    ("every", 1, LAB_USAGE),
    ("against 0", 1, LAB_USAGE),
    ("against 1 10000001", 1, LAB_USAGE),
    ("against 1 0 10000001", 1, LAB_USAGE),
    ("against", 1, LAB_USAGE),
    ("every 1 after", 1, LAB_USAGE),
    ("every 1 after 5", 1, LAB_USAGE),
    ("every 1 after 5 0", 1, LAB_USAGE),
    ("every 1 after 10000001 1", 1, LAB_USAGE),
    ("every 0 after 5 1", 1, LAB_USAGE),
    ("every 1 0 0 after 5 1", 1, LAB_USAGE),
    ("every 1 0 1 1 after 5 1", 1, LAB_USAGE),
    ("every 1 after 5 1 1", 1, LAB_USAGE),
    ("every 1 behind 5 1", 1, LAB_USAGE),
    ("against 1 10000001 after 5 1", 1, LAB_USAGE),
    ("apart 1 5 1 after 5 1", 1, LAB_USAGE),
    ("slots 8 8 125001", 1, LAB_USAGE),
    ("slots 9 0 0", 1, LAB_USAGE),
    ("slots 1 1", 1, LAB_USAGE),
    ("slots 8 1 7:9999999", 1, LAB_USAGE),
    ("slots 2 1 2:5", 1, LAB_USAGE),
    ("slots 2 1 0:5 1", 1, LAB_USAGE),
    ("slots 2 1 0:", 1, LAB_USAGE),
    ("slots 2 1 0:5:5", 1, LAB_USAGE),
    ("script", 1, LAB_USAGE),
    ("asm", 1, LAB_USAGE),
    ("dis", 1, LAB_USAGE),
    ("run 6 1", 1, LAB_USAGE),
    ("tree 0 1", 1, LAB_USAGE),
    ("core 0 1", 1, LAB_USAGE),
    ("soak 0 1", 1, LAB_USAGE),
    ("native 1 0", 1, LAB_USAGE),
    ("audit 16", 1, LAB_USAGE),
    ("-h", 1, LAB_USAGE),
    ("--help", 1, LAB_USAGE),
    ("--version", 1, LAB_USAGE),
    ("", 1, LAB_USAGE),
    ("after 1 1", 1, LAB_USAGE),
];

// Compares what the program answers to words, where the first read would fail.
fn check_words(
    rt: &(impl Abort + AllocGlobal),
    of: &str,
    words: &[String],
    status: u8,
    text: &str,
) -> Result<(), Fail> {
    let mut source = MemSource::new(b"", &[1]);
    let mut sink = MemSink::new(rt.alloc(), 4096, &[])?;
    let ended = lab(rt.alloc(), words, &mut source, &mut sink);
    check_end(rt, of, &ended, sink.bytes(), status, text.as_bytes(), false);
    Ok(())
}

#[test]
fn words_ask_for_commands(rt: HostRuntime) -> Result<(), Fail> {
    for (line, status, text) in &ROWS {
        let words = words_of(&rt, line)?;
        check_words(&rt, line, &words, *status, text)?;
    }
    Ok(())
}

#[test]
fn words_may_be_missing(rt: HostRuntime) -> Result<(), Fail> {
    let none: Vec<String> = Vec::new(rt.alloc());
    check_words(&rt, "no words", &none, 1, LAB_USAGE)
}
