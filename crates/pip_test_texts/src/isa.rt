//! Words by hand, and words that are none.
use crate::compare::{holds, same};
use pip_isa::{Instr, Register, Shift, Vector, decode, encode, opcode_named, opcode_row};
use std::process::Abort;
use std::test::Fail;

// Compares the word of an instruction, and the word of what it is read as.
fn check_word(rt: &impl Abort, instr: Instr, word: u32) {
    same(rt, encode(&instr), word, word);
    match decode(word) {
        Some(instr) => same(rt, encode(&instr), word, word),
        None => holds(rt, false, word),
    }
}

#[test]
fn each_instruction_has_its_word(rt: HostRuntime) -> Result<(), Fail> {
    let (a, b, c) = (Register::new(1), Register::new(2), Register::new(3));
    let cases = [
        (Instr::Mov { a, b }, 0x01120000u32),
        (Instr::Li { a, value: 7 }, 0x02100007u32),
        (Instr::LiHigh { a, value: 0xffff }, 0x0310ffffu32),
        (Instr::Add { a, b, c }, 0x04123000u32),
        (Instr::Sub { a, b, c }, 0x05123000u32),
        (Instr::Mul { a, b, c }, 0x06123000u32),
        (Instr::Div { a, b, c }, 0x07123000u32),
        (Instr::Rem { a, b, c }, 0x08123000u32),
        (Instr::And { a, b, c }, 0x09123000u32),
        (Instr::Or { a, b, c }, 0x0a123000u32),
        (Instr::Xor { a, b, c }, 0x0b123000u32),
        (Instr::ShiftLeft { a, b, c }, 0x0c123000u32),
        (Instr::ShiftRight { a, b, c }, 0x0d123000u32),
        (Instr::ShiftSigned { a, b, c }, 0x0e123000u32),
        (Instr::LessSigned { a, b, c }, 0x0f123000u32),
        (Instr::Less { a, b, c }, 0x10123000u32),
        (Instr::AddImmediate { a, b, offset: -1 }, 0x1112ffffu32),
        (
            Instr::AndImmediate {
                a,
                b,
                value: 0x8000,
            },
            0x12128000u32,
        ),
        (Instr::OrImmediate { a, b, value: 1 }, 0x13120001u32),
        (
            Instr::ShiftLeftImmediate {
                a,
                b,
                shift: Shift::new(31),
            },
            0x1412001fu32,
        ),
        (
            Instr::ShiftRightImmediate {
                a,
                b,
                shift: Shift::new(1),
            },
            0x15120001u32,
        ),
        (Instr::LoadWord { a, b, offset: 4 }, 0x16120004u32),
        (Instr::StoreWord { a, b, offset: -4 }, 0x1712fffcu32),
        (
            Instr::LoadByte {
                a,
                b,
                offset: 32767,
            },
            0x18127fffu32,
        ),
        (
            Instr::StoreByte {
                a,
                b,
                offset: -32768,
            },
            0x19128000u32,
        ),
        (Instr::BranchEqual { a, b, offset: -2 }, 0x1a12fffeu32),
        (Instr::BranchUnequal { a, b, offset: 2 }, 0x1b120002u32),
        (Instr::BranchLessSigned { a, b, offset: 0 }, 0x1c120000u32),
        (Instr::BranchLess { a, b, offset: 1 }, 0x1d120001u32),
        (Instr::JumpAndLink { a, offset: -3 }, 0x1e10fffdu32),
        (Instr::Jump { a }, 0x1f100000u32),
        (Instr::Sys { value: 12 }, 0x2000000cu32),
        (
            Instr::Interrupt {
                vector: Vector::new(64),
            },
            0x21000040u32,
        ),
        (Instr::Out { a }, 0x22100000u32),
    ];
    for (instr, word) in cases {
        check_word(&rt, instr, word);
    }
    Ok(())
}

static NO_WORDS: [u32; 21] = [
    0x00000000u32,
    0x00000001u32,
    0x23000000u32,
    0xff000000u32,
    0x01120001u32,
    0x01121000u32,
    0x02110007u32,
    0x04123001u32,
    0x1412ffffu32,
    0x14120020u32,
    0x15120020u32,
    0x1e110001u32,
    0x1f100001u32,
    0x1f110000u32,
    0x20100001u32,
    0x2001000cu32,
    0x2100003fu32,
    0x21000100u32,
    0x21010040u32,
    0x22100001u32,
    0x22101000u32,
];

#[test]
fn other_words_are_no_instructions(rt: HostRuntime) {
    for word in &NO_WORDS {
        holds(&rt, decode(*word).is_none(), *word);
    }
}

// Mnemonics, and their opcodes, 0 for none.
static OPCODES: [(&str, u32); 4] = [("mov", 1), ("out", 34), ("jump", 0), ("", 0)];

#[test]
fn a_mnemonic_has_one_opcode(rt: HostRuntime) {
    for (name, opcode) in &OPCODES {
        let found = opcode_named(name.as_bytes()).unwrap_or(0);
        same(&rt, found, *opcode, *name);
    }
}

#[test]
fn an_opcode_has_one_row(rt: HostRuntime) -> Result<(), Fail> {
    holds(&rt, opcode_row(0).is_none(), "0");
    holds(&rt, opcode_row(35).is_none(), "35");
    same(&rt, opcode_row(30).ok_or("jal")?.name, "jal", "30");
    Ok(())
}
