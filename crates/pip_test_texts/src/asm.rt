//! What a line puts into the image, each fault of a text, and texts that come back.
use crate::compare::{holds, same};
use byteorder::{ByteOrder, LittleEndian};
use pip_asm::{AsmError, AsmKind, assemble, disassemble};
use pip_io::{MemSink, MemSource};
use std::alloc::{AllocError, Global};
use std::process::Abort;
use std::test::Fail;

// A header and a page at 0x400000, whose first word has a name, and then a line.
fn with_line(alloc: Global, line: &str) -> Result<Vec<u8>, AllocError> {
    let mut text = Vec::new(alloc);
    text.extend_from_slice(b".frames 16\n.cpus 1\n.page 0x400000\nhere:\n")?;
    text.extend_from_slice(line.as_bytes())?;
    text.extend_from_slice(b"\n")?;
    Ok(text)
}

static WORDS: [(&str, u32); 14] = [
    ("mov r1 r2", 0x0112_0000u32),
    ("li r1 <here", 0x0210_0000),
    ("li r1 >here", 0x0210_0040),
    ("lih r1 >here", 0x0310_0040),
    ("ori r1 r2 >here", 0x1312_0040),
    ("beq r1 r2 here", 0x1a12_ffff),
    ("bltu r1 r2 -2", 0x1d12_fffe),
    ("jal r1 here", 0x1e10_ffff),
    (".word here", 0x0040_0000),
    (".zero 1024", 0),
    (".zero 0", 0),
    ("r1:", 0),
    ("# a remark", 0),
    ("", 0),
];

// Compares the word that a line puts into the image.
fn check_word(rt: &(impl Abort + AllocGlobal), line: &str, word: u32) -> Result<(), Fail> {
    let text = with_line(rt.alloc(), line)?;
    assert!(rt; text.len() <= 1000);
    match assemble(rt.alloc(), &text) {
        Ok(image) => {
            assert!(rt; image.len() == 4124, "{line}");
            same(rt, LittleEndian::read_u32(&image[28..]), word, line);
        }
        Err(_) => holds(rt, false, line),
    }
    Ok(())
}

#[test]
fn a_line_has_its_word_in_the_image(rt: HostRuntime) -> Result<(), Fail> {
    for (line, word) in &WORDS {
        check_word(&rt, line, *word)?;
    }
    Ok(())
}

static FAULTS: [(&str, AsmKind); 9] = [
    ("jump r1", AsmKind::Unknown),
    ("out", AsmKind::Operand),
    ("li r1 65536", AsmKind::Range),
    (".page 0x403000", AsmKind::Range),
    ("here:", AsmKind::Twice),
    (".page 0x400000", AsmKind::Twice),
    (".zero 1025", AsmKind::Size),
    ("beq r1 r2 away", AsmKind::Label),
    (".word away", AsmKind::Label),
];

// Compares the fault of a text.
fn check_fault(rt: &(impl Abort + AllocGlobal), of: &str, text: &[u8], line: u64, kind: AsmKind) {
    assert!(rt; text.len() <= 1000);
    match assemble(rt.alloc(), text) {
        Ok(_) => holds(rt, false, of),
        Err(error) => holds(rt, error == AsmError::Line(line, kind), of),
    }
}

#[test]
fn each_fault_has_its_line(rt: HostRuntime) -> Result<(), Fail> {
    for (line, kind) in &FAULTS {
        let text = with_line(rt.alloc(), line)?;
        check_fault(&rt, line, &text, 5, *kind);
    }
    Ok(())
}

static FIRST_FAULTS: [(&str, u64, AsmKind); 8] = [
    ("", 1, AsmKind::Unknown),
    (".frames 16\n", 2, AsmKind::Unknown),
    (".frames 15\n", 1, AsmKind::Range),
    (".frames 16\n.cpus 5\n", 2, AsmKind::Range),
    (
        ".frames 16\n.cpus 1\n.line 1 0 0\n.line 1 0 0\n",
        4,
        AsmKind::Range,
    ),
    (
        ".frames 16\n.cpus 1\n.page 0x400000\n.word away\nout\n",
        5,
        AsmKind::Operand,
    ),
    (
        ".frames 16\n.cpus 1\n.page 0x400000\n.zero 1024\nout r1\n",
        5,
        AsmKind::Size,
    ),
    (
        ".frames 16\n.cpus 1\n.page 0x400000\nbeq r0 r0 far\n.page 0xfffff000\nfar:\n",
        4,
        AsmKind::Range,
    ),
];

#[test]
fn the_first_fault_decides(rt: HostRuntime) {
    for (text, line, kind) in &FIRST_FAULTS {
        check_fault(&rt, text, text.as_bytes(), *line, *kind);
    }
}

// The next of some pseudo-random numbers.
fn next_state(state: u32) -> u32 {
    state.wrapping_mul(1664525).wrapping_add(1013904223)
}

// The word at a place of a page, most of them instructions, with zeros after them.
fn word_of(state: u32, place: u32) -> u32 {
    let fields = if place % 2 == 0 {
        state / 256
    } else {
        state / 0x10_0000 * 0x1000
    };
    if place < 80 {
        state % 36 * 0x100_0000 + fields
    } else {
        0
    }
}

// Adds a word to an image.
fn add_word(bytes: &mut Vec<u8>, word: u32) -> Result<(), AllocError> {
    let mut four = [0; 4];
    LittleEndian::write_u32(&mut four, word);
    bytes.extend_from_slice(&four)
}

// The image of two pages of pseudo-random words.
fn generated(alloc: Global, seed: u32) -> Result<Vec<u8>, AllocError> {
    let mut bytes = Vec::new(alloc);
    bytes.extend_from_slice(b"PIPIMG2\n\x10\0\0\0\x01\0\0\0\0\0\0\0\x02\0\0\0")?;
    let mut state = seed;
    for vpage in [1026, 1024] {
        add_word(&mut bytes, vpage)?;
        for place in 0..1024 {
            state = next_state(state);
            add_word(&mut bytes, word_of(state, place))?;
        }
    }
    Ok(bytes)
}

// Disassembles the image of a seed, and assembles the text.
fn check_generated(rt: &(impl Abort + AllocGlobal), seed: u32) -> Result<(), Fail> {
    let image = generated(rt.alloc(), seed)?;
    let mut source = MemSource::new(&image, &[]);
    let mut sink = MemSink::new(rt.alloc(), 60000, &[])?;
    holds(rt, disassemble(&mut source, &mut sink).is_ok(), seed);
    let text = sink.bytes();
    assert!(rt; text.len() <= 60000);
    match assemble(rt.alloc(), text) {
        Ok(again) => holds(rt, again.as_slice() == image.as_slice(), seed),
        Err(_) => holds(rt, false, seed),
    }
    Ok(())
}

#[test]
fn a_generated_program_comes_back(rt: HostRuntime) -> Result<(), Fail> {
    for seed in [1, 2, 77] {
        check_generated(&rt, seed)?;
    }
    Ok(())
}
