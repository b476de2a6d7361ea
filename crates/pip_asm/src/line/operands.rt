//! Names, and the immediates of instructions.
ghost use Rattle.std.specs.Prelude.{◌≡◌, ◌<◌, ◌≤◌, ◌&&◌, ◌||◌, IfOk};
ghost use Rattle.std.specs.Char.{is_ascii_digit};
ghost use Rattle.std.specs.List.{list_all};
ghost use Rattle.pip_model.specs.AsmWords.{by_name, is_letter, is_name, unsigned_field, negative_of, negative_field};
ghost use Rattle.pip_model.specs.AsmWords.{signed_field, may_half, may_distance, unsigned_of, signed_of};
ghost use Rattle.pip_asm.specs.Seen.{cell_seen, use_seen};

use crate::line::cell::{Cell, NameUse};
use pip_model::AsmKind;
use pip_script::read_number;

fn is_name_letter(b: u8) -> bool
    ensures { result ≡ is_letter b }
{
    b >= 65 && b <= 90 || b >= 97 && b <= 122 || b == b'_'
}

fn is_name_byte(b: u8) -> bool
    ensures { result ≡ (is_letter b || is_ascii_digit b) }
{
    is_name_letter(b) || b.is_ascii_digit()
}

fn are_name_bytes(bytes: &[u8]) -> bool
    ensures { result ≡ list_all (λ b. is_letter b || is_ascii_digit b) bytes.now }
{
    bytes.iter().all(|b| is_name_byte(*b))
}

/// Whether a text is a name: 1 to 32 letters, digits or `_`, and no digit first.
pub fn is_a_name(text: &[u8]) -> bool
    ensures { result ≡ is_name text.now }
{
    match text {
        [] => false,
        [first, rest @ ..] => is_name_letter(*first) && are_name_bytes(rest) && rest.len() < 32,
    }
}

fn unsigned_number(least: u32, most: u32, number: Option<u32>) -> Result<Cell<'static>, AsmKind>
    ensures small { IfOk result (λ f. f.number ≤ most) }
    ensures same { cell_seen result ≡ unsigned_field least most number }
{
    match number {
        None => Err(AsmKind::Operand),
        Some(n) => {
            if least <= n && n <= most {
                Ok(Cell {
                    number: n,
                    takes: NameUse::Nothing,
                })
            } else {
                Err(AsmKind::Range)
            }
        }
    }
}

fn takes_half(op: &[u8]) -> bool
    ensures { result ≡ may_half op.now }
{
    matches!(op, b"li" | b"lih" | b"ori")
}

fn takes_distance(op: &[u8]) -> bool
    ensures { result ≡ may_distance op.now }
{
    matches!(op, b"beq" | b"bne" | b"blt" | b"bltu" | b"jal")
}

// A half of the address of a name, where the instruction may have one.
fn half<'a>(op: &[u8], name: &[u8], takes: NameUse<'a>) -> Result<Cell<'a>, AsmKind>
    ensures small { IfOk result (λ f. f.number ≤ 0) }
    ensures same { cell_seen result ≡ by_name (may_half op.now && is_name name.now) (use_seen takes.entry) }
{
    if takes_half(op) && is_a_name(name) {
        Ok(Cell { number: 0, takes })
    } else {
        Err(AsmKind::Operand)
    }
}

/// An unsigned immediate from `least` to `most`, or half of the address of a name.
pub fn unsigned<'a>(op: &[u8], least: u32, most: u32, text: &'a [u8]) -> Result<Cell<'a>, AsmKind>
    ensures small { IfOk result (λ f. f.number ≤ most) }
    ensures same { cell_seen result ≡ unsigned_of op.now least most text.now }
{
    match text {
        [] => Err(AsmKind::Operand),
        [b'<', name @ ..] => half(op, name, NameUse::Low(name)),
        [b'>', name @ ..] => half(op, name, NameUse::High(name)),
        [_, ..] => unsigned_number(least, most, read_number(text)),
    }
}

fn negative(digits: &[u8]) -> Option<u32>
    ensures { result ≡ negative_of digits.now }
{
    match digits {
        [] => None,
        [b'0', ..] => None,
        [_, ..] => read_number(digits),
    }
}

fn negative_number(number: Option<u32>) -> Result<Cell<'static>, AsmKind>
    ensures small { IfOk result (λ f. f.number ≤ 65536) }
    ensures same { cell_seen result ≡ negative_field number }
{
    match number {
        None => Err(AsmKind::Operand),
        Some(n) => {
            if n <= 32768 {
                Ok(Cell {
                    number: 65536 - n,
                    takes: NameUse::Nothing,
                })
            } else {
                Err(AsmKind::Range)
            }
        }
    }
}

fn signed_number(text: &[u8]) -> Result<Cell<'static>, AsmKind>
    ensures small { IfOk result (λ f. f.number ≤ 65536) }
    ensures same { cell_seen result ≡ signed_field text.now }
{
    match text {
        [] => Err(AsmKind::Operand),
        [b'-', digits @ ..] => negative_number(negative(digits)),
        [_, ..] => unsigned_number(0, 32767, read_number(text)),
    }
}

/// A signed immediate of 16 bits, or the distance to a name.
pub fn signed<'a>(op: &[u8], text: &'a [u8]) -> Result<Cell<'a>, AsmKind>
    ensures small { IfOk result (λ f. f.number ≤ 65536) }
    ensures same { cell_seen result ≡ signed_of op.now text.now }
{
    if takes_distance(op) && is_a_name(text) {
        return Ok(Cell {
            number: 0,
            takes: NameUse::Distance(text),
        });
    }
    signed_number(text)
}
