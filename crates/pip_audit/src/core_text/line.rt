//! One line of the text of a raw memory.
ghost use Rattle.std.specs.Prelude.{◌≡◌, ◌<◌, MatchOption, None, Some, drop, length};
ghost use Rattle.std.specs.Str.{all_ascii_digits};
ghost use Rattle.pip_model.specs.Grammar.{decimal_from, hex_from};
ghost use Rattle.pip_audit.specs.Lines.{core_line, decimal_of, digit_value, group_told, line_told, word_ahead};
ghost use Rattle.pip_audit.specs.Lines.{words_ahead};

use pip_script::read_number;

/// What a line says.
#[derive(Clone, Copy, Debug, PartialEq, Eq)]
pub enum CoreLine {
    /// The frame that the lines after it are of.
    Frame { frame: u32 },
    /// Eight words from an index on.
    Group { index: u32, words: [u32; 8] },
    /// The last line, with a number of steps.
    End { steps: u32 },
}

// Whether all bytes are decimal digits.
fn are_digits(text: &[u8]) -> bool
    ensures { result ≡ all_ascii_digits text.now }
{
    let mut rest = text;
    while let [digit, tail @ ..] = rest {
        if !digit.is_ascii_digit() {
            return false;
        }
        rest = tail;
    }
    true
}

// A decimal number with no leading zero.
fn read_decimal(text: &[u8]) -> Option<u32>
    ensures { result ≡ decimal_of text.now }
{
    if !are_digits(text) {
        return None;
    }
    read_number(text)
}

// Decimal digits, with leading zeros or not.
fn read_index(digits: &[u8]) -> Option<u32>
    ensures { result ≡ decimal_from 0 digits.now }
{
    let mut index = 0u32;
    let mut rest = digits;
    while let [digit, tail @ ..] = rest {
        if !digit.is_ascii_digit() {
            return None;
        }
        index = index
            .checked_mul(10)?
            .checked_add(u32::from(*digit - b'0'))?;
        rest = tail;
    }
    Some(index)
}

// What stands for a byte that is no digit: more than any word.
const BAD: u64 = 1 << 32;

// The value of each byte as a hexadecimal digit in lower case.
const DIGITS: [u64; 256] = [
    BAD, BAD, BAD, BAD, BAD, BAD, BAD, BAD, BAD, BAD, BAD, BAD, BAD, BAD, BAD, BAD, BAD, BAD, BAD,
    BAD, BAD, BAD, BAD, BAD, BAD, BAD, BAD, BAD, BAD, BAD, BAD, BAD, BAD, BAD, BAD, BAD, BAD, BAD,
    BAD, BAD, BAD, BAD, BAD, BAD, BAD, BAD, BAD, BAD, 0, 1, 2, 3, 4, 5, 6, 7, 8, 9, BAD, BAD, BAD,
    BAD, BAD, BAD, BAD, BAD, BAD, BAD, BAD, BAD, BAD, BAD, BAD, BAD, BAD, BAD, BAD, BAD, BAD, BAD,
    BAD, BAD, BAD, BAD, BAD, BAD, BAD, BAD, BAD, BAD, BAD, BAD, BAD, BAD, BAD, BAD, BAD, 10, 11,
    12, 13, 14, 15, BAD, BAD, BAD, BAD, BAD, BAD, BAD, BAD, BAD, BAD, BAD, BAD, BAD, BAD, BAD, BAD,
    BAD, BAD, BAD, BAD, BAD, BAD, BAD, BAD, BAD, BAD, BAD, BAD, BAD, BAD, BAD, BAD, BAD, BAD, BAD,
    BAD, BAD, BAD, BAD, BAD, BAD, BAD, BAD, BAD, BAD, BAD, BAD, BAD, BAD, BAD, BAD, BAD, BAD, BAD,
    BAD, BAD, BAD, BAD, BAD, BAD, BAD, BAD, BAD, BAD, BAD, BAD, BAD, BAD, BAD, BAD, BAD, BAD, BAD,
    BAD, BAD, BAD, BAD, BAD, BAD, BAD, BAD, BAD, BAD, BAD, BAD, BAD, BAD, BAD, BAD, BAD, BAD, BAD,
    BAD, BAD, BAD, BAD, BAD, BAD, BAD, BAD, BAD, BAD, BAD, BAD, BAD, BAD, BAD, BAD, BAD, BAD, BAD,
    BAD, BAD, BAD, BAD, BAD, BAD, BAD, BAD, BAD, BAD, BAD, BAD, BAD, BAD, BAD, BAD, BAD, BAD, BAD,
    BAD, BAD, BAD, BAD, BAD, BAD, BAD, BAD, BAD, BAD, BAD, BAD, BAD, BAD, BAD, BAD, BAD, BAD, BAD,
    BAD, BAD, BAD, BAD,
];

// The value of a digit, or more than any word.
#[inline(always)]
fn digit_value(byte: u8) -> u64
    ensures { result ≡ digit_value byte }
{
    DIGITS[byte as usize]
}

// Eight hexadecimal digits.
fn read_word(digits: &[u8]) -> Option<u32>
    requires { length digits.now ≡ 8 }
    ensures { result ≡ hex_from 0 digits.now }
{
    let mut word = 0;
    for k in 0..8 {
        word = 16 * word + digit_value(digits[k]);
    }
    if word < BAD { Some(word as u32) } else { None }
}

/// A space and the eight hexadecimal digits of a word at the head of a text, and the text after them.
pub fn take_word(text: &[u8]) -> Option<(u32, &[u8])>
    ensures { MatchOption result (word_ahead text.now ≡ None)
        (λ x. (word_ahead text.now ≡ Some x.0) × (x.1.now ≡ drop 9 text.now)) }
{
    if text.len() < 9 || text[0] != b' ' {
        return None;
    }
    let word = read_word(&text[1..9])?;
    Some((word, &text[9..]))
}

// Eight words, each after a space, and nothing after them.
fn read_words(text: &[u8]) -> Option<[u32; 8]>
    ensures { result ≡ words_ahead 8 text.now }
{
    let mut words = [0; 8];
    let mut rest = text;
    for k in 0..8 {
        let (word, tail) = take_word(rest)?;
        words[k] = word;
        rest = tail;
    }
    if rest.is_empty() { Some(words) } else { None }
}

// An index of four digits, a colon and eight words.
fn read_group(line: &[u8]) -> Option<CoreLine>
    ensures { result ≡ group_told line.now }
{
    if line.len() < 5 || line[4] != b':' {
        return None;
    }
    let index = read_index(&line[..4])?;
    let words = read_words(&line[5..])?;
    Some(CoreLine::Group { index, words })
}

// What a line of any length says.
fn read_any(line: &[u8]) -> Option<CoreLine>
    ensures { result ≡ line_told line.now }
{
    if let Some(number) = line.strip_prefix(b"frame ".as_slice()) {
        let frame = read_decimal(number)?;
        return Some(CoreLine::Frame { frame });
    }
    if let Some(number) = line.strip_prefix(b"end ".as_slice()) {
        let steps = read_decimal(number)?;
        return Some(CoreLine::End { steps });
    }
    read_group(line)
}

/// What a line says, its newline left off, or None where it says nothing.
pub fn read_core_line(line: &[u8]) -> Option<CoreLine>
    ensures { result ≡ core_line line.now }
{
    if line.len() > 77 {
        return None;
    }
    read_any(line)
}
