//! What a line of the text of a part says.
ghost use Rattle.std.specs.Prelude.{◌≡◌, option_map};
ghost use Rattle.pip_audit.specs.Lines.{words_ahead};
ghost use Rattle.pip_certificates.specs.Entries.{are_digits, entry_of, has_form, key_said, line_of_key};
ghost use Rattle.pip_certificates.specs.Entries.{line_of_part};
ghost use Rattle.pip_certificates.specs.Entries.{begun_entry, part_numbers_of, one_of, three_of};
ghost use Rattle.pip_certificates.specs.Seen.{entry_seen};

use crate::parts::forms::{all_hex, is_about, is_label};
use pip_audit::take_word;

/// The numbers that a part says of itself.
#[derive(Clone, Copy, Debug, PartialEq, Eq)]
pub struct PartNumbers {
    /// How many choices lead to its first key.
    pub way: u32,
    /// How many keys it has.
    pub keys: u32,
    /// How many it asks.
    pub asked: u32,
    /// How many labels it has.
    pub labels: u32,
    /// The sum of its labels.
    pub sum: u32,
}

/// What a line says, its newline left off.
#[derive(Clone, Copy, Debug)]
pub enum PartLine<'a> {
    /// A key of a part, by its digits, and how many choices lead to it.
    Own {
        key: &'a [u8],
        depth: u32,
    },
    /// A key that a part asks, and how deep it may be.
    Asks {
        key: &'a [u8],
        depth: u32,
    },
    /// What a choice shows.
    Shows {
        text: &'a [u8],
    },
    /// The part: what it is of, and its numbers.
    Tells {
        about: &'a [u8],
        numbers: PartNumbers,
    },
}

// Whether all bytes are hexadecimal digits in lower case, two for each byte of a key.
fn are_digits(text: &[u8]) -> bool
    ensures { result ≡ are_digits text.now }
{
    all_hex(text) && text.len() % 2 == 0
}

// One number after a space, and nothing after it.
fn read_one(text: &[u8]) -> Option<u32>
    ensures { result ≡ one_of (words_ahead 1 text.now) }
{
    let (number, rest) = take_word(text)?;
    if rest.is_empty() { Some(number) } else { None }
}

// Three numbers, each after a space, and nothing after them.
fn read_three(text: &[u8]) -> Option<(u32, u32, u32)>
    ensures { result ≡ three_of (words_ahead 3 text.now) }
{
    let (first, rest) = take_word(text)?;
    let (second, rest) = take_word(rest)?;
    let third = read_one(rest)?;
    Some((first, second, third))
}

// The numbers of a part, each after a space, and nothing after them.
fn read_numbers(text: &[u8]) -> Option<PartNumbers>
    ensures { result ≡ part_numbers_of (words_ahead 5 text.now) }
{
    let (way, rest) = take_word(text)?;
    let (keys, rest) = take_word(rest)?;
    let (asked, labels, sum) = read_three(rest)?;
    Some(PartNumbers {
        way,
        keys,
        asked,
        labels,
        sum,
    })
}

// A key before its kind and its depth.
fn read_after_key<'a>(key: &'a [u8], rest: &[u8]) -> Option<PartLine<'a>>
    ensures { option_map entry_seen result ≡ key_said key.now rest.now }
{
    if let Some(number) = rest.strip_prefix(b" +".as_slice()) {
        let depth = read_one(number)?;
        return Some(PartLine::Own { key, depth });
    }
    if let Some(number) = rest.strip_prefix(b" ?".as_slice()) {
        let depth = read_one(number)?;
        return Some(PartLine::Asks { key, depth });
    }
    None
}

// A key of digits, and what comes after it.
fn read_key(line: &[u8]) -> Option<PartLine<'_>>
    ensures { option_map entry_seen result ≡ line_of_key line.now }
{
    if line.len() < 11 {
        return None;
    }
    let (key, rest) = line.split_at(line.len() - 11);
    if !are_digits(key) {
        return None;
    }
    read_after_key(key, rest)
}

// What a part is of, and its numbers.
fn read_part(text: &[u8]) -> Option<PartLine<'_>>
    ensures { option_map entry_seen result ≡ line_of_part text.now }
{
    if text.len() < 45 {
        return None;
    }
    let (about, rest) = text.split_at(text.len() - 45);
    let numbers = read_numbers(rest)?;
    Some(PartLine::Tells { about, numbers })
}

// What a line says by how it begins.
fn read_said(line: &[u8]) -> Option<PartLine<'_>>
    ensures { option_map entry_seen result ≡ begun_entry line.now }
{
    if let Some(text) = line.strip_prefix(b"line".as_slice()) {
        return Some(PartLine::Shows { text });
    }
    if let Some(text) = line.strip_prefix(b"part ".as_slice()) {
        return read_part(text);
    }
    read_key(line)
}

// Whether what is said has its form.
fn has_form(said: &PartLine<'_>) -> bool
    ensures { result ≡ has_form (entry_seen said.now) }
{
    match said {
        PartLine::Own { key, .. } | PartLine::Asks { key, .. } => !key.is_empty(),
        PartLine::Shows { text } => is_label(text),
        PartLine::Tells { about, .. } => is_about(about),
    }
}

/// What a line says, its newline left off, or None where it says nothing (docs/CERTIFICATES.md).
pub fn read_line(line: &[u8]) -> Option<PartLine<'_>>
    ensures { option_map entry_seen result ≡ entry_of line.now }
{
    let said = read_said(line)?;
    if has_form(&said) { Some(said) } else { None }
}
