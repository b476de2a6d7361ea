//! Lines by hand: each instruction, each directive, and each fault that a line has by itself.
use crate::compare::{holds, same};
use pip_asm::{Cell, NameUse, Statement, cut_line, statement};
use pip_base::Plan;
use pip_model::{AsmKind, Stage};
use std::process::Abort;

// A word of which nothing is missing.
fn word(number: u32) -> Statement<'static> {
    Statement::Holds(Cell {
        number,
        takes: NameUse::Nothing,
    })
}

// A word that takes something from a name.
fn with(number: u32, takes: NameUse<'_>) -> Statement<'_> {
    Statement::Holds(Cell { number, takes })
}

static WORDS: [(&str, u32); 38] = [
    ("mov r1 r2", 0x0112_0000u32),
    ("li r1 7", 0x0210_0007),
    ("lih r15 0xffff", 0x03f0_ffff),
    ("add r1 r2 r3", 0x0412_3000),
    ("sub r1 r2 r3", 0x0512_3000),
    ("mul r1 r2 r3", 0x0612_3000),
    ("div r1 r2 r3", 0x0712_3000),
    ("rem r1 r2 r3", 0x0812_3000),
    ("and r1 r2 r3", 0x0912_3000),
    ("or r1 r2 r3", 0x0a12_3000),
    ("xor r1 r2 r3", 0x0b12_3000),
    ("shl r1 r2 r3", 0x0c12_3000),
    ("shr r1 r2 r3", 0x0d12_3000),
    ("sar r1 r2 r3", 0x0e12_3000),
    ("slt r1 r2 r3", 0x0f12_3000),
    ("sltu r10 r11 r0", 0x10ab_0000),
    ("addi r1 r2 -1", 0x1112_ffff),
    ("addi r1 r2 -32768", 0x1112_8000),
    ("andi r1 r2 32768", 0x1212_8000),
    ("ori r1 r2 1", 0x1312_0001),
    ("shli r1 r2 31", 0x1412_001f),
    ("shri r1 r2 0", 0x1512_0000),
    ("ldw r1 r2 4", 0x1612_0004),
    ("stw r1 r2 -4", 0x1712_fffc),
    ("ldb r1 r2 32767", 0x1812_7fff),
    ("stb r1 r2 0", 0x1912_0000),
    ("beq r1 r2 -2", 0x1a12_fffe),
    ("bne r1 r2 2", 0x1b12_0002),
    ("blt r1 r2 0x10", 0x1c12_0010),
    ("bltu r1 r2 0", 0x1d12_0000),
    ("jal r1 -3", 0x1e10_fffd),
    ("jr r14", 0x1fe0_0000),
    ("sys 12", 0x2000_000c),
    ("int 64", 0x2100_0040),
    ("int 255", 0x2100_00ff),
    ("out r1", 0x2210_0000),
    (".word 0xdeadbeef", 0xdead_beef),
    (".word 0", 0),
];

// Compares what a line says at a stage.
fn check(rt: &impl Abort, stage: Stage, line: &str, wanted: Result<Statement<'_>, AsmKind>) {
    assert!(rt; statement(stage, line.as_bytes()) == wanted, "{line}");
}

#[test]
fn each_instruction_is_a_word(rt: HostRuntime) {
    for (line, number) in &WORDS {
        check(&rt, Stage::InPage, line, Ok(word(*number)));
    }
}

#[test]
fn a_word_takes_something_from_a_name(rt: HostRuntime) {
    let table = [
        ("li r1 <here", 0x0210_0000u32, NameUse::Low(b"here")),
        ("lih r1 >here", 0x0310_0000, NameUse::High(b"here")),
        ("ori r1 r2 <_9", 0x1312_0000, NameUse::Low(b"_9")),
        ("beq r1 r2 here", 0x1a12_0000, NameUse::Distance(b"here")),
        ("bne r1 r2 here", 0x1b12_0000, NameUse::Distance(b"here")),
        ("blt r1 r2 here", 0x1c12_0000, NameUse::Distance(b"here")),
        ("bltu r1 r2 here", 0x1d12_0000, NameUse::Distance(b"here")),
        ("jal r1 here", 0x1e10_0000, NameUse::Distance(b"here")),
        (".word here", 0, NameUse::Address(b"here")),
    ];
    for (line, number, takes) in table {
        check(&rt, Stage::InPage, line, Ok(with(number, takes)));
    }
}

#[test]
fn each_directive_has_its_stage(rt: HostRuntime) {
    let plan = Plan {
        line: 15,
        first: 0,
        period: 4294967295,
    };
    let table = [
        (Stage::Start, ".frames 16", Statement::Frames(16)),
        (Stage::Start, ".frames 0x1000", Statement::Frames(4096)),
        (Stage::Framed, ".cpus 4", Statement::Cpus(4)),
        (
            Stage::Header,
            ".line 15 0 4294967295",
            Statement::Plans(plan),
        ),
        (Stage::Header, ".page 0x400000", Statement::Begins(0x400)),
        (
            Stage::InPage,
            ".page 0xfffff000",
            Statement::Begins(0xf_ffff),
        ),
        (Stage::InPage, ".zero 0", Statement::Zeros(0)),
        (Stage::InPage, ".zero 1024", Statement::Zeros(1024)),
        (Stage::InPage, "r1:", Statement::Names(b"r1")),
        (Stage::Start, "# a remark", Statement::Blank),
        (Stage::Header, "", Statement::Blank),
    ];
    for (stage, line, said) in table {
        check(&rt, stage, line, Ok(said));
    }
}

static NO_FORMS: [(Stage, &str); 17] = [
    (Stage::Start, ".cpus 1"),
    (Stage::Start, "out r1"),
    (Stage::Framed, ".frames 16"),
    (Stage::Header, "here:"),
    (Stage::Header, ".word 0"),
    (Stage::Header, ".cpus 1"),
    (Stage::InPage, ".frames 16"),
    (Stage::InPage, ".cpus 1"),
    (Stage::InPage, ".line 0 0 0"),
    (Stage::InPage, "jump r1"),
    (Stage::InPage, "Out r1"),
    (Stage::InPage, " out r1"),
    (Stage::InPage, " "),
    (Stage::InPage, ":"),
    (Stage::InPage, "9x:"),
    (Stage::InPage, "a-b:"),
    (Stage::InPage, "a23456789012345678901234567890123:"),
];

// Asserts that each line has this fault.
fn check_faults(rt: &impl Abort, rows: &[(Stage, &str)], kind: AsmKind) {
    for (stage, line) in rows {
        check(rt, *stage, line, Err(kind));
    }
}

#[test]
fn a_line_of_no_form_is_unknown(rt: HostRuntime) {
    check_faults(&rt, &NO_FORMS, AsmKind::Unknown);
}

static BAD_OPERANDS: [(Stage, &str); 30] = [
    (Stage::Start, ".frames"),
    (Stage::Start, ".frames 015"),
    (Stage::Framed, ".cpus 1 1"),
    (Stage::Header, ".line 0 0"),
    (Stage::Header, ".page here"),
    (Stage::InPage, "mov r1"),
    (Stage::InPage, "mov r1 r2 r3"),
    (Stage::InPage, "add r1 r2 r16"),
    (Stage::InPage, "add r1 r2 r3 r4"),
    (Stage::InPage, "out"),
    (Stage::InPage, "out r1 "),
    (Stage::InPage, "out  r1"),
    (Stage::InPage, "out r01"),
    (Stage::InPage, "sys r1"),
    (Stage::InPage, "li r1 4294967296"),
    (Stage::InPage, "li r1 -1"),
    (Stage::InPage, "li r1 here"),
    (Stage::InPage, "li r1 <"),
    (Stage::InPage, "li r1 <9"),
    (Stage::InPage, "andi r1 r1 <here"),
    (Stage::InPage, "sys >here"),
    (Stage::InPage, "addi r1 r1 -0"),
    (Stage::InPage, "addi r1 r1 -0x1"),
    (Stage::InPage, "addi r1 r1 -"),
    (Stage::InPage, "addi r1 r1 here"),
    (Stage::InPage, "jal r1 0x"),
    (Stage::InPage, ".word"),
    (Stage::InPage, ".word -1"),
    (Stage::InPage, ".zero x"),
    (Stage::InPage, "x: 1"),
];

#[test]
fn an_operand_is_wrong(rt: HostRuntime) {
    check_faults(&rt, &BAD_OPERANDS, AsmKind::Operand);
}

static BAD_NUMBERS: [(Stage, &str); 14] = [
    (Stage::Start, ".frames 15"),
    (Stage::Start, ".frames 4097"),
    (Stage::Framed, ".cpus 0"),
    (Stage::Framed, ".cpus 5"),
    (Stage::Header, ".line 16 0 0"),
    (Stage::Header, ".page 0x400001"),
    (Stage::InPage, "li r1 65536"),
    (Stage::InPage, "sys 0x10000"),
    (Stage::InPage, "addi r1 r1 32768"),
    (Stage::InPage, "addi r1 r1 -32769"),
    (Stage::InPage, "beq r1 r1 32768"),
    (Stage::InPage, "shli r1 r1 32"),
    (Stage::InPage, "int 63"),
    (Stage::InPage, "int 256"),
];

static BAD_SIZES: [(Stage, &str); 1] = [(Stage::InPage, ".zero 1025")];

#[test]
fn a_number_is_outside_its_range(rt: HostRuntime) {
    check_faults(&rt, &BAD_NUMBERS, AsmKind::Range);
    check_faults(&rt, &BAD_SIZES, AsmKind::Size);
}

#[test]
fn a_line_has_120_bytes_at_most(rt: HostRuntime) {
    let line = [b'#'; 121];
    let is_blank = matches!(statement(Stage::Start, &line[..120]), Ok(Statement::Blank));
    holds(&rt, is_blank, 120);
    let is_unknown = matches!(statement(Stage::Start, &line), Err(AsmKind::Unknown));
    holds(&rt, is_unknown, 121);
}

static CUTS: [(&str, &str, &str); 4] = [
    ("a\nb\n", "a", "b\n"),
    ("\n\n", "", "\n"),
    ("\nb", "", "b"),
    ("b", "b", ""),
];

#[test]
fn a_line_ends_with_its_newline(rt: HostRuntime) {
    for (text, line, after) in &CUTS {
        let bytes = text.as_bytes();
        assert!(rt; !bytes.is_empty());
        let cut = cut_line(bytes);
        same(&rt, cut.0, line.as_bytes(), *text);
        same(&rt, cut.1, after.as_bytes(), *text);
    }
}
