//! The text of a part.
ghost use Rattle.std.specs.Prelude.{◌≡◌, ◌+◌, ◌<◌, ◌≤◌, ◌++◌, ◌∷◌, [], flat_map, length, MatchResult, OnOk};
ghost use Rattle.arrayvec.specs.ArrayString.{array_string_len};
ghost use Rattle.pip_audit.specs.CoreTexts.{core_words};
ghost use Rattle.pip_io.specs.Causes.{HasCause};
ghost use Rattle.pip_io.specs.Taken.{Appends, SendsPart};
ghost use Rattle.pip_io.specs.Writes.{Writes};
ghost use Rattle.pip_model.specs.Text.{hex_digit, line_text};
ghost use Rattle.pip_certificates.specs.Entries.{Shows, Tells, byte_digits, entry_line, number_list};
ghost use Rattle.pip_search.specs.Keys.{labels};
ghost use Rattle.pip_search.specs.Parts.{stop_of, stops};
ghost use Rattle.pip_every.specs.Texts.{inner};
ghost use Rattle.pip_certificates.specs.PartDues.{lines_text};
ghost use Rattle.pip_certificates.specs.PartShown.{CountsStops, stop_line, told_part};

use crate::checking::Checked;
use crate::parts::PartNumbers;
use arrayvec::{ArrayString, ArrayVec};
use pip_cpu::write_line;
use pip_every::inner;
use pip_io::{Failed, Sink, write_all};
use pip_script::push_digits;
use pip_search::{Found, Reached};

/// How many bytes of a key are written at a time.
const PIECE: usize = 32;

/// Writes the text of a part, and all that the sink holds.
pub fn show<K: Sink>(checked: &Checked, sink: &mut K) -> Result<(), Failed>
    requires { CountsStops checked.now }
    ensures wrote { MatchResult result
        (λ _. Appends (K.history sink.old).written (K.history sink.new).written (lines_text (told_part checked.now)))
        (λ _. SendsPart (K.history sink.old).written (K.history sink.new).written
        (lines_text (told_part checked.now))) }
    ensures none { OnOk result ((K.history sink.new).written.buffered ≡ []) }
    ensures cause { HasCause (K.history sink.old).faults (K.history sink.new).faults result }
{
    give(checked, sink)?;
    sink.flush()
}

// Writes the text.
fn give<K: Sink>(checked: &Checked, sink: &mut K) -> Result<(), Failed>
    requires { CountsStops checked.now }
    ensures { Writes K.history sink.old sink.new result (lines_text (told_part checked.now)) }
{
    write_stops(sink, checked.part.keys.as_slice(), b" +")?;
    write_stops(sink, checked.part.asked.as_slice(), b" ?")?;
    write_labels(sink, checked.part.found.as_slice())?;
    write_last(sink, checked.about.as_str().as_bytes(), &checked.numbers)
}

// Writes the lines of keys.
fn write_stops<K: Sink>(sink: &mut K, keys: &[Reached], kind: &[u8]) -> Result<(), Failed>
    ensures { Writes K.history sink.old sink.new result (flat_map (stop_line kind.now) (stops keys.now)) }
{
    for k in 0..keys.len() {
        write_stop(sink, &keys[k], kind)?;
    }
    Ok(())
}

// Writes the line of a key.
fn write_stop<K: Sink>(sink: &mut K, key: &Reached, kind: &[u8]) -> Result<(), Failed>
    ensures { Writes K.history sink.old sink.new result (stop_line kind.now (stop_of key.now)) }
{
    write_digits(sink, &key.key)?;
    write_all(sink, kind)?;
    write_depth(sink, key.depth)
}

// Writes the digits of the bytes of a key.
fn write_digits<K: Sink>(sink: &mut K, bytes: &[u8]) -> Result<(), Failed>
    ensures { Writes K.history sink.old sink.new result (flat_map byte_digits bytes.now) }
{
    let mut rest = bytes;
    while !rest.is_empty() {
        let (piece, more) = rest.split_at(rest.len().min(PIECE));
        write_piece(sink, piece)?;
        rest = more;
    }
    Ok(())
}

// Writes the digits of 32 bytes at most.
fn write_piece<K: Sink>(sink: &mut K, bytes: &[u8]) -> Result<(), Failed>
    requires { length bytes.now ≤ 32 }
    ensures { Writes K.history sink.old sink.new result (flat_map byte_digits bytes.now) }
{
    let digits = digits_of(bytes);
    write_all(sink, digits.as_slice())
}

// The digits of 32 bytes at most.
fn digits_of(bytes: &[u8]) -> ArrayVec<u8, 64>
    requires { length bytes.now ≤ 32 }
    ensures { result.items ≡ flat_map byte_digits bytes.now }
{
    let mut digits = ArrayVec::new();
    for byte in bytes {
        digits.push(digit(*byte / 16 % 16));
        digits.push(digit(*byte % 16));
    }
    digits
}

// A hexadecimal digit in lower case.
fn digit(value: u8) -> u8
    requires { value < 16 }
    ensures { result ≡ hex_digit value }
{
    if value < 10 {
        b'0' + value
    } else {
        b'a' + (value - 10)
    }
}

// Writes a depth, which ends a line.
fn write_depth<K: Sink>(sink: &mut K, depth: u32) -> Result<(), Failed>
    ensures { Writes K.history sink.old sink.new result (core_words (depth ∷ []) ++ 10 ∷ []) }
{
    let mut text: ArrayString<16> = ArrayString::new();
    text.push_str(" ");
    push_digits(&mut text, depth);
    text.push_str("\n");
    write_line(sink, &text)
}

// Writes the lines of labels.
fn write_labels<K: Sink>(sink: &mut K, found: &[Found]) -> Result<(), Failed>
    ensures { Writes K.history sink.old sink.new result
        (flat_map (λ label. line_text (entry_line (Shows (inner label)))) (labels found.now)) }
{
    for k in 0..found.len() {
        write_label(sink, &found[k].label)?;
    }
    Ok(())
}

// Writes the line of a label.
fn write_label<K: Sink>(sink: &mut K, label: &[u8]) -> Result<(), Failed>
    ensures { Writes K.history sink.old sink.new result (line_text (entry_line (Shows (inner label.now)))) }
{
    write_all(sink, b"line")?;
    write_all(sink, inner(label))?;
    write_all(sink, b"\n")
}

// Writes the last line: what the part is of, and its numbers.
fn write_last<K: Sink>(sink: &mut K, about: &[u8], numbers: &PartNumbers) -> Result<(), Failed>
    ensures { Writes K.history sink.old sink.new result (line_text (entry_line (Tells about.now numbers.now))) }
{
    write_all(sink, b"part ")?;
    write_all(sink, about)?;
    write_numbers(sink, numbers)
}

// Writes the numbers of a part, which end a line.
fn write_numbers<K: Sink>(sink: &mut K, numbers: &PartNumbers) -> Result<(), Failed>
    ensures { Writes K.history sink.old sink.new result (core_words (number_list numbers.now) ++ 10 ∷ []) }
{
    let mut text: ArrayString<64> = ArrayString::new();
    push_word(&mut text, numbers.way);
    push_word(&mut text, numbers.keys);
    push_word(&mut text, numbers.asked);
    push_word(&mut text, numbers.labels);
    push_word(&mut text, numbers.sum);
    text.push_str("\n");
    write_line(sink, &text)
}

// Adds a space and the eight digits of a word.
fn push_word(text: &mut ArrayString<64>, word: u32)
    requires { array_string_len text.old + 9 ≤ 64 }
    ensures bytes { text.new.bytes ≡ text.old.bytes ++ core_words (word ∷ []) }
    ensures length { array_string_len text.new ≡ array_string_len text.old + 9 }
{
    text.push_str(" ");
    push_digits(text, word);
}
