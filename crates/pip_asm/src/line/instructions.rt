//! One instruction of a text: its operands, and the word that they make.
ghost use Rattle.std.specs.Prelude.{◌≡◌, ◌<◌, ◌≤◌, ◌*◌, ◌+◌, Some, IfSome, IfOk, length};
ghost use Rattle.pip_model.specs.AsmWords.{register_of, by_form, made, nil, instruction};
ghost use Rattle.pip_asm.specs.Seen.{IsInRange, cell_seen, statement_seen};
ghost use Rattle.pip_model.specs.AsmLines.{held};
ghost use Rattle.pip_model.specs.InstrWords.{opcodes};
ghost use Rattle.pip_asm.specs.Words.{words_left};
ghost use Rattle.pip_model.specs.declared.form.Form.TheVariants as F;

use crate::line::cell::{Cell, NameUse, Statement};
use crate::line::operands::{signed, unsigned};
use crate::line::words::{one_word, three_words, two_words};
use pip_isa::{Form, opcode_named, opcode_row};
use pip_model::AsmKind;

/// A register by its name.
pub fn register(text: &[u8]) -> Option<u32>
    ensures same { result ≡ register_of text.now }
    ensures below { IfSome result (λ r. r < 16) }
{
    match text {
        [b'r', b'0'] => Some(0),
        [b'r', b'1'] => Some(1),
        [b'r', b'2'] => Some(2),
        [b'r', b'3'] => Some(3),
        [b'r', b'4'] => Some(4),
        [b'r', b'5'] => Some(5),
        [b'r', b'6'] => Some(6),
        [b'r', b'7'] => Some(7),
        [b'r', b'8'] => Some(8),
        [b'r', b'9'] => Some(9),
        [b'r', b'1', b'0'] => Some(10),
        [b'r', b'1', b'1'] => Some(11),
        [b'r', b'1', b'2'] => Some(12),
        [b'r', b'1', b'3'] => Some(13),
        [b'r', b'1', b'4'] => Some(14),
        [b'r', b'1', b'5'] => Some(15),
        _ => None,
    }
}

// No immediate, and no name.
fn nil() -> Result<Cell<'static>, AsmKind>
    ensures small { IfOk result (λ f. f.number ≤ 0) }
    ensures same { cell_seen result ≡ nil }
{
    Ok(Cell {
        number: 0,
        takes: NameUse::Nothing,
    })
}

// A word from its fields.
#[tactic(auto, using(crate::proofs::Rooms::small_room))]
fn made<'a>(
    op: u32,
    a: Option<u32>,
    b: Option<u32>,
    c: Option<u32>,
    field: Result<Cell<'a>, AsmKind>,
) -> Result<Statement<'a>, AsmKind>
    requires op { op ≤ length opcodes }
    requires a { IfSome a (λ r. r < 16) }
    requires b { IfSome b (λ r. r < 16) }
    requires c { IfSome c (λ r. r < 16) }
    requires small { IfOk field (λ f. IfSome c (λ r. r * 4096 + f.number < 65537)) }
    ensures within { IfOk result IsInRange }
    ensures same { statement_seen result ≡ held (made op a b c (cell_seen field.entry)) }
{
    match (a, b, c) {
        (Some(a), Some(b), Some(c)) => match field {
            Ok(field) => Ok(Statement::Holds(Cell {
                number: op * 0x100_0000 + a * 0x10_0000 + b * 0x1_0000 + c * 0x1000 + field.number,
                takes: field.takes,
            })),
            Err(kind) => Err(kind),
        },
        _ => Err(AsmKind::Operand),
    }
}

#[tactic(auto, using(crate::proofs::Counts::none_held))]
fn two<'a>(op: u32, name: &[u8], operands: Option<&'a [u8]>) -> Result<Statement<'a>, AsmKind>
    requires { op ≤ length opcodes }
    ensures within { IfOk result IsInRange }
    ensures same { statement_seen result ≡ held (by_form op name.now F.Two (words_left operands.entry)) }
{
    match two_words(operands) {
        None => Err(AsmKind::Operand),
        Some((a, b)) => made(op, register(a), register(b), Some(0), nil()),
    }
}

#[tactic(auto, using(crate::proofs::Counts::none_held))]
fn three<'a>(op: u32, name: &[u8], operands: Option<&'a [u8]>) -> Result<Statement<'a>, AsmKind>
    requires { op ≤ length opcodes }
    ensures within { IfOk result IsInRange }
    ensures same { statement_seen result ≡ held (by_form op name.now F.Three (words_left operands.entry)) }
{
    match three_words(operands) {
        None => Err(AsmKind::Operand),
        Some((a, b, c)) => made(op, register(a), register(b), register(c), nil()),
    }
}

#[tactic(auto, using(crate::proofs::Counts::none_held))]
fn unsigned_form<'a>(
    op: u32,
    name: &[u8],
    operands: Option<&'a [u8]>,
) -> Result<Statement<'a>, AsmKind>
    requires { op ≤ length opcodes }
    ensures within { IfOk result IsInRange }
    ensures same { statement_seen result ≡ held (by_form op name.now F.TwoAndValue (words_left operands.entry)) }
{
    match three_words(operands) {
        None => Err(AsmKind::Operand),
        Some((a, b, c)) => made(
            op,
            register(a),
            register(b),
            Some(0),
            unsigned(name, 0, 65535, c),
        ),
    }
}

#[tactic(auto, using(crate::proofs::Counts::none_held))]
fn shift_form<'a>(
    op: u32,
    name: &[u8],
    operands: Option<&'a [u8]>,
) -> Result<Statement<'a>, AsmKind>
    requires { op ≤ length opcodes }
    ensures within { IfOk result IsInRange }
    ensures same { statement_seen result ≡ held (by_form op name.now F.TwoAndShift (words_left operands.entry)) }
{
    match three_words(operands) {
        None => Err(AsmKind::Operand),
        Some((a, b, c)) => made(
            op,
            register(a),
            register(b),
            Some(0),
            unsigned(name, 0, 31, c),
        ),
    }
}

#[tactic(auto, using(crate::proofs::Counts::none_held))]
fn signed_form<'a>(
    op: u32,
    name: &[u8],
    operands: Option<&'a [u8]>,
) -> Result<Statement<'a>, AsmKind>
    requires { op ≤ length opcodes }
    ensures within { IfOk result IsInRange }
    ensures same { statement_seen result ≡ held (by_form op name.now F.TwoAndOffset (words_left operands.entry)) }
{
    match three_words(operands) {
        None => Err(AsmKind::Operand),
        Some((a, b, c)) => made(op, register(a), register(b), Some(0), signed(name, c)),
    }
}

#[tactic(auto, using(crate::proofs::Counts::none_held))]
fn load_form<'a>(op: u32, name: &[u8], operands: Option<&'a [u8]>) -> Result<Statement<'a>, AsmKind>
    requires { op ≤ length opcodes }
    ensures within { IfOk result IsInRange }
    ensures same { statement_seen result ≡ held (by_form op name.now F.OneAndValue (words_left operands.entry)) }
{
    match two_words(operands) {
        None => Err(AsmKind::Operand),
        Some((a, b)) => made(
            op,
            register(a),
            Some(0),
            Some(0),
            unsigned(name, 0, 65535, b),
        ),
    }
}

#[tactic(auto, using(crate::proofs::Counts::none_held))]
fn jump_form<'a>(op: u32, name: &[u8], operands: Option<&'a [u8]>) -> Result<Statement<'a>, AsmKind>
    requires { op ≤ length opcodes }
    ensures within { IfOk result IsInRange }
    ensures same { statement_seen result ≡ held (by_form op name.now F.OneAndOffset (words_left operands.entry)) }
{
    match two_words(operands) {
        None => Err(AsmKind::Operand),
        Some((a, b)) => made(op, register(a), Some(0), Some(0), signed(name, b)),
    }
}

#[tactic(auto, using(crate::proofs::Counts::none_held))]
fn one<'a>(op: u32, name: &[u8], operands: Option<&'a [u8]>) -> Result<Statement<'a>, AsmKind>
    requires { op ≤ length opcodes }
    ensures within { IfOk result IsInRange }
    ensures same { statement_seen result ≡ held (by_form op name.now F.One (words_left operands.entry)) }
{
    match one_word(operands) {
        None => Err(AsmKind::Operand),
        Some(a) => made(op, register(a), Some(0), Some(0), nil()),
    }
}

#[tactic(auto, using(crate::proofs::Counts::none_held))]
fn number_form<'a>(
    op: u32,
    name: &[u8],
    operands: Option<&'a [u8]>,
) -> Result<Statement<'a>, AsmKind>
    requires { op ≤ length opcodes }
    ensures within { IfOk result IsInRange }
    ensures same { statement_seen result ≡ held (by_form op name.now F.Value (words_left operands.entry)) }
{
    match one_word(operands) {
        None => Err(AsmKind::Operand),
        Some(a) => made(op, Some(0), Some(0), Some(0), unsigned(name, 0, 65535, a)),
    }
}

#[tactic(auto, using(crate::proofs::Counts::none_held))]
fn vector_form<'a>(
    op: u32,
    name: &[u8],
    operands: Option<&'a [u8]>,
) -> Result<Statement<'a>, AsmKind>
    requires { op ≤ length opcodes }
    ensures within { IfOk result IsInRange }
    ensures same { statement_seen result ≡ held (by_form op name.now F.Vector (words_left operands.entry)) }
{
    match one_word(operands) {
        None => Err(AsmKind::Operand),
        Some(a) => made(op, Some(0), Some(0), Some(0), unsigned(name, 64, 255, a)),
    }
}

// By the form of the opcode.
fn by_word_form<'a>(
    op: u32,
    name: &[u8],
    form: Form,
    operands: Option<&'a [u8]>,
) -> Result<Statement<'a>, AsmKind>
    requires { op ≤ length opcodes }
    ensures within { IfOk result IsInRange }
    ensures same { statement_seen result ≡ held (by_form op name.now form (words_left operands.entry)) }
{
    match form {
        Form::Two => two(op, name, operands),
        Form::Three => three(op, name, operands),
        Form::TwoAndValue => unsigned_form(op, name, operands),
        Form::TwoAndShift => shift_form(op, name, operands),
        Form::TwoAndOffset => signed_form(op, name, operands),
        Form::OneAndValue => load_form(op, name, operands),
        Form::OneAndOffset => jump_form(op, name, operands),
        Form::One => one(op, name, operands),
        Form::Value => number_form(op, name, operands),
        Form::Vector => vector_form(op, name, operands),
    }
}

/// An instruction, by its first word and its operands.
#[tactic(auto, using(crate::proofs::Mnemonics::no_mnemonic, crate::proofs::Mnemonics::no_opcode, crate::proofs::Mnemonics::by_opcode))]
pub fn instruction<'a>(name: &[u8], operands: Option<&'a [u8]>) -> Result<Statement<'a>, AsmKind>
    ensures within { IfOk result IsInRange }
    ensures same { statement_seen result ≡ held (instruction name.now (words_left operands.entry)) }
{
    match opcode_named(name) {
        None => Err(AsmKind::Unknown),
        Some(number) => match opcode_row(number) {
            None => Err(AsmKind::Unknown),
            Some(row) => by_word_form(number, name, row.form, operands),
        },
    }
}
