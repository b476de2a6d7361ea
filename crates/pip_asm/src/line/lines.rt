//! The lines of a text, and what one says.
ghost use Rattle.std.specs.Prelude.{◌≡◌, ◌∷◌, ◌<◌, length, IfOk, option_map};
ghost use Rattle.pip_model.specs.Grammar.{lines_of, number_of, words_of};
ghost use Rattle.pip_model.specs.AsmLines.{word_operand};
ghost use Rattle.pip_model.specs.AsmLines.{statement, assembly_phrase, phrase_of, frames_line, cpus_line, plan_line};
ghost use Rattle.pip_model.specs.AsmLines.{page_line, word_line, zero_line, label_of, name_line, other_line};
ghost use Rattle.pip_model.specs.declared.assembly.Stage.TheVariants.{Start, Framed, Header, InPage};
ghost use Rattle.pip_asm.specs.Seen.{HasRoomFor, IsInRange, cell_seen, statement_seen};
ghost use Rattle.pip_asm.specs.Words.{words_left};

use crate::line::cell::{Cell, NameUse, Statement};
use crate::line::instructions::instruction;
use crate::line::operands::is_a_name;
use crate::line::words::{cut_word, one_word, three_words};
use pip_base::{LINES, MAX_CPUS, MAX_FRAMES, MAX_LINE, MIN_FRAMES, Plan};
use pip_io::find_newline;
use pip_model::{AsmKind, Stage};
use pip_script::read_number;

/// The first line, its newline left off, and what follows it.
pub fn cut_line(text: &[u8]) -> (&[u8], &[u8])
    requires { 0 < length text.now }
    ensures cut { lines_of text.now ≡ result.0.now ∷ lines_of result.1.now }
    ensures shorter { length result.1.now < length text.now }
{
    // An empty line needs no search, nor does one of one byte, as a bare remark.
    if let [b'\n', after @ ..] = text {
        return (&text[..0], after);
    }
    if let [_, b'\n', after @ ..] = text {
        return (&text[..1], after);
    }
    match find_newline(text) {
        Some(at) => (&text[..at], &text[at + 1..]),
        None => (text, &text[text.len()..]),
    }
}

/// What a line says at this stage of a text, or what is wrong with it (docs/FORMATS.md, "Assembly").
#[inline(always)]
pub fn statement<'a>(stage: Stage, line: &'a [u8]) -> Result<Statement<'a>, AsmKind>
    ensures same { statement_seen result ≡ statement stage line.now }
    ensures within { IfOk result IsInRange }
{
    if line.len() > MAX_LINE {
        return Err(AsmKind::Unknown);
    }
    if let [] | [b'#', ..] = line {
        return Ok(Statement::Blank);
    }
    phrase(stage, line)
}

// What a line with words says: kept out of the passes' loops, so that an empty line and a remark cost little there.
#[inline(never)]
fn phrase<'a>(stage: Stage, line: &'a [u8]) -> Result<Statement<'a>, AsmKind>
    ensures same { statement_seen result ≡ assembly_phrase stage (words_of line.now) }
    ensures within { IfOk result IsInRange }
{
    let (name, operands) = cut_word(line);
    match stage {
        Stage::Start => start_line(name, operands),
        Stage::Framed => framed_line(name, operands),
        Stage::Header => header_line(name, operands),
        Stage::InPage => inner_line(name, operands),
    }
}

fn start_line<'a>(name: &'a [u8], operands: Option<&'a [u8]>) -> Result<Statement<'a>, AsmKind>
    ensures same { statement_seen result ≡ phrase_of Start name.now (words_left operands.entry) }
    ensures within { IfOk result IsInRange }
{
    if name == b".frames".as_slice() {
        frames_line(operands)
    } else {
        Err(AsmKind::Unknown)
    }
}

fn framed_line<'a>(name: &'a [u8], operands: Option<&'a [u8]>) -> Result<Statement<'a>, AsmKind>
    ensures same { statement_seen result ≡ phrase_of Framed name.now (words_left operands.entry) }
    ensures within { IfOk result IsInRange }
{
    if name == b".cpus".as_slice() {
        cpus_line(operands)
    } else {
        Err(AsmKind::Unknown)
    }
}

fn header_line<'a>(name: &'a [u8], operands: Option<&'a [u8]>) -> Result<Statement<'a>, AsmKind>
    ensures same { statement_seen result ≡ phrase_of Header name.now (words_left operands.entry) }
    ensures within { IfOk result IsInRange }
{
    match name {
        b".line" => plan_line(operands),
        b".page" => page_line(operands),
        _ => Err(AsmKind::Unknown),
    }
}

fn inner_line<'a>(name: &'a [u8], operands: Option<&'a [u8]>) -> Result<Statement<'a>, AsmKind>
    ensures same { statement_seen result ≡ phrase_of InPage name.now (words_left operands.entry) }
    ensures within { IfOk result IsInRange }
{
    match name {
        b".page" => page_line(operands),
        b".word" => word_line(operands),
        b".zero" => zero_line(operands),
        _ => other_line(name, operands),
    }
}

#[tactic(auto, using(crate::proofs::Counts::miscounted))]
fn frames_line(operands: Option<&[u8]>) -> Result<Statement<'static>, AsmKind>
    ensures same { statement_seen result ≡ frames_line (words_left operands.entry) }
    ensures within { IfOk result IsInRange }
{
    let Some(text) = one_word(operands) else {
        return Err(AsmKind::Operand);
    };
    match read_number(text) {
        None => Err(AsmKind::Operand),
        Some(n) => {
            if MIN_FRAMES <= n && n <= MAX_FRAMES {
                Ok(Statement::Frames(n))
            } else {
                Err(AsmKind::Range)
            }
        }
    }
}

#[tactic(auto, using(crate::proofs::Counts::miscounted))]
fn cpus_line(operands: Option<&[u8]>) -> Result<Statement<'static>, AsmKind>
    ensures same { statement_seen result ≡ cpus_line (words_left operands.entry) }
    ensures within { IfOk result IsInRange }
{
    let Some(text) = one_word(operands) else {
        return Err(AsmKind::Operand);
    };
    match read_number(text) {
        None => Err(AsmKind::Operand),
        Some(n) => {
            if 1 <= n && n <= MAX_CPUS {
                Ok(Statement::Cpus(n))
            } else {
                Err(AsmKind::Range)
            }
        }
    }
}

#[tactic(auto, using(crate::proofs::Counts::miscounted))]
fn page_line(operands: Option<&[u8]>) -> Result<Statement<'static>, AsmKind>
    ensures same { statement_seen result ≡ page_line (words_left operands.entry) }
    ensures within { IfOk result IsInRange }
{
    let Some(text) = one_word(operands) else {
        return Err(AsmKind::Operand);
    };
    match read_number(text) {
        None => Err(AsmKind::Operand),
        Some(va) => {
            if va % 4096 == 0 {
                Ok(Statement::Begins(va / 4096))
            } else {
                Err(AsmKind::Range)
            }
        }
    }
}

#[tactic(auto, using(crate::proofs::Counts::miscounted))]
fn plan_line(operands: Option<&[u8]>) -> Result<Statement<'static>, AsmKind>
    ensures same { statement_seen result ≡ plan_line (words_left operands.entry) }
    ensures within { IfOk result IsInRange }
{
    let Some((line, first, period)) = three_words(operands) else {
        return Err(AsmKind::Operand);
    };
    match (read_number(line), read_number(first), read_number(period)) {
        (Some(line), Some(first), Some(period)) => {
            if line < LINES {
                Ok(Statement::Plans(Plan {
                    line,
                    first,
                    period,
                }))
            } else {
                Err(AsmKind::Range)
            }
        }
        _ => Err(AsmKind::Operand),
    }
}

#[tactic(auto, using(crate::proofs::Counts::miscounted))]
fn zero_line(operands: Option<&[u8]>) -> Result<Statement<'static>, AsmKind>
    ensures same { statement_seen result ≡ zero_line (words_left operands.entry) }
    ensures within { IfOk result IsInRange }
{
    let Some(text) = one_word(operands) else {
        return Err(AsmKind::Operand);
    };
    match read_number(text) {
        None => Err(AsmKind::Operand),
        Some(count) => {
            if count <= 1024 {
                Ok(Statement::Zeros(count))
            } else {
                Err(AsmKind::Size)
            }
        }
    }
}

fn word_operand(text: &[u8]) -> Result<Cell<'_>, AsmKind>
    ensures room { IfOk result (λ c. HasRoomFor c.number c.takes) }
    ensures same { cell_seen result ≡ word_operand text.now (number_of text.now) }
{
    match read_number(text) {
        Some(number) => Ok(Cell {
            number,
            takes: NameUse::Nothing,
        }),
        None => {
            if is_a_name(text) {
                Ok(Cell {
                    number: 0,
                    takes: NameUse::Address(text),
                })
            } else {
                Err(AsmKind::Operand)
            }
        }
    }
}

#[tactic(auto, using(crate::proofs::Counts::miscounted))]
fn word_line<'a>(operands: Option<&'a [u8]>) -> Result<Statement<'a>, AsmKind>
    ensures same { statement_seen result ≡ word_line (words_left operands.entry) }
    ensures within { IfOk result IsInRange }
{
    let Some(text) = one_word(operands) else {
        return Err(AsmKind::Operand);
    };
    match word_operand(text) {
        Ok(cell) => Ok(Statement::Holds(cell)),
        Err(kind) => Err(kind),
    }
}

// A word without the colon at its end.
fn label(name: &[u8]) -> Option<&[u8]>
    ensures { option_map (λ t. t.now) result ≡ label_of name.now }
{
    if !name.is_empty() && name[name.len() - 1] == b':' {
        Some(&name[..name.len() - 1])
    } else {
        None
    }
}

#[tactic(auto, using(crate::proofs::Cutting::has_word))]
fn name_line<'a>(name: &'a [u8], operands: Option<&'a [u8]>) -> Result<Statement<'a>, AsmKind>
    ensures same { statement_seen result ≡ name_line name.now (words_left operands.entry) }
    ensures within { IfOk result IsInRange }
{
    if !is_a_name(name) {
        return Err(AsmKind::Unknown);
    }
    match operands {
        None => Ok(Statement::Names(name)),
        Some(_) => Err(AsmKind::Operand),
    }
}

fn other_line<'a>(name: &'a [u8], operands: Option<&'a [u8]>) -> Result<Statement<'a>, AsmKind>
    ensures same { statement_seen result ≡ other_line name.now (words_left operands.entry) (label_of name.now) }
    ensures within { IfOk result IsInRange }
{
    match label(name) {
        Some(name) => name_line(name, operands),
        None => instruction(name, operands),
    }
}
