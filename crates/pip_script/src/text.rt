//! The text of answers.
ghost use Rattle.std.specs.Prelude.{◌≡◌, ◌+◌, ◌≤◌, ◌<◌, ◌%◌, [], ◌∷◌, ◌++◌, codes, decimal, length};
ghost use Rattle.arrayvec.specs.ArrayString.{array_string_len};
ghost use Rattle.pip_model.specs.Text.{hex_digit, line_text, outcome_text, said_text, word_digits, word_or, word_text};

use arrayvec::ArrayString;
use itoa::Buffer;
use pip_base::Outcome;
use pip_model::Said;

// Bytes with the eight hexadecimal digits of a word among them. Bytes in their places take 40 instructions less than a
// text of them, or than an array of digits that is copied.
macro_rules! with_digits {
    ([$($before:expr),*], $w:expr, [$($after:expr),*]) => {
        [
            $($before,)*
            digit($w >> 28),
            digit($w >> 24),
            digit($w >> 20),
            digit($w >> 16),
            digit($w >> 12),
            digit($w >> 8),
            digit($w >> 4),
            digit($w),
            $($after),*
        ]
    };
}

/// The text of an event's answer, without a newline: at most 39 bytes (docs/FORMATS.md, "Outcome texts").
pub fn outcome_text(o: &Outcome) -> ArrayString<64>
    ensures bytes { result.bytes ≡ outcome_text o.now }
    ensures short { array_string_len result ≤ 39 }
{
    let mut text = ArrayString::new();
    push_outcome(&mut text, o);
    text
}

/// Writes the answer to a line of a script and its newline, at most 40 bytes, at the end of a text with room for them
/// (docs/FORMATS.md, "Scripts").
pub fn push_said(text: &mut ArrayString<64>, said: &Said)
    requires { array_string_len text.old + 40 ≤ 64 }
    ensures { text.new.bytes ≡ text.old.bytes ++ line_text (said_text said.now) }
{
    match said {
        Said::Booted { n, c } => push_booted(text, *n, *c),
        Said::Came(outcome) => push_outcome(text, outcome),
        Said::Peeked(word) => push_word_or(text, *word, "none"),
        Said::Shown(word) => push_word_or(text, *word, "idle"),
    }
    text.push_str("\n");
}

fn push_outcome(text: &mut ArrayString<64>, o: &Outcome)
    requires { array_string_len text.old + 39 ≤ 64 }
    ensures bytes { text.new.bytes ≡ text.old.bytes ++ outcome_text o.now }
    ensures short { array_string_len text.new ≤ array_string_len text.old + 39 }
{
    match *o {
        Outcome::Word(w) => push_word(text, w),
        Outcome::Done => text.push_str("done"),
        Outcome::Reply { status, value } => {
            text.push_str("reply ");
            push_decimal(text, status.number());
            text.push_str(" ");
            push_word(text, value);
        }
        Outcome::Switched { from, to, vector } => {
            text.push_str("switch ");
            push_decimal(text, from);
            text.push_str(" ");
            push_decimal(text, to);
            text.push_str(" ");
            push_decimal(text, vector);
        }
        Outcome::Parked { from, vector } => {
            text.push_str("park ");
            push_decimal(text, from);
            text.push_str(" ");
            push_decimal(text, vector);
        }
        Outcome::Idle => text.push_str("idle"),
    }
}

// The text of a word, or this one.
fn push_word_or(text: &mut ArrayString<64>, word: Option<u32>, other: &str)
    requires room { array_string_len text.old + 39 ≤ 64 }
    requires short { length other.now ≤ 39 }
    ensures bytes { text.new.bytes ≡ text.old.bytes ++ word_or other.now word }
    ensures short { array_string_len text.new ≤ array_string_len text.old + 39 }
{
    match word {
        Some(word) => push_word(text, word),
        None => text.push_str(other),
    }
}

fn push_booted(text: &mut ArrayString<64>, n: u32, c: u32)
    requires { array_string_len text.old + 39 ≤ 64 }
    ensures bytes { text.new.bytes ≡ text.old.bytes ++ said_text (Said.Booted n c) }
    ensures short { array_string_len text.new ≤ array_string_len text.old + 39 }
{
    text.push_str("boot ");
    push_decimal(text, n);
    text.push_str(" ");
    push_decimal(text, c);
}

/// A word as text: `0x` and eight hexadecimal digits in lower case.
pub fn word_text(w: u32) -> ArrayString<10>
    ensures { result.bytes ≡ word_text w }
{
    let mut text = ArrayString::new();
    push_word(&mut text, w);
    text
}

/// Writes a word as `word_text` has it, ten bytes, at the end of a text with room for it.
pub fn push_word<const N: usize>(text: &mut ArrayString<N>, w: u32)
    requires { array_string_len text.old + 10 ≤ N }
    ensures bytes { text.new.bytes ≡ text.old.bytes ++ word_text w }
    ensures length { array_string_len text.new ≡ array_string_len text.old + 10 }
{
    text.push('0');
    text.push('x');
    push_digits(text, w);
}

/// The line of a word: its text and a newline.
#[inline(always)]
pub fn word_line(w: u32) -> [u8; 11]
    ensures { result ≡ line_text (word_text w) }
{
    with_digits!([b'0', b'x'], w, [b'\n'])
}

/// The line of a reply with a status of one digit, below 10, as bytes in their places.
#[inline(always)]
pub fn reply_line(status: u32, value: u32) -> [u8; 19]
    requires { status < 10 }
    ensures { result ≡ line_text (codes "reply " ++ decimal status ++ codes " " ++ word_text value) }
{
    let digit_of_status = digit(status);
    with_digits!(
        [
            b'r',
            b'e',
            b'p',
            b'l',
            b'y',
            b' ',
            digit_of_status,
            b' ',
            b'0',
            b'x'
        ],
        value,
        [b'\n']
    )
}

// The last hexadecimal digit of a word.
#[inline(always)]
fn digit(w: u32) -> u8
    ensures value { result ≡ hex_digit (w % 16) }
    ensures ascii { result < 128 }
{
    char::from_digit(w % 16, 16).unwrap() as u8
}

/// Writes the eight hexadecimal digits of a word at the end of a text with room for them.
pub fn push_digits<const N: usize>(text: &mut ArrayString<N>, w: u32)
    requires { array_string_len text.old + 8 ≤ N }
    ensures bytes { text.new.bytes ≡ text.old.bytes ++ word_digits w }
    ensures length { array_string_len text.new ≡ array_string_len text.old + 8 }
{
    push_digit(text, w >> 28);
    push_digit(text, w >> 24);
    push_digit(text, w >> 20);
    push_digit(text, w >> 16);
    push_digit(text, w >> 12);
    push_digit(text, w >> 8);
    push_digit(text, w >> 4);
    push_digit(text, w);
}

// The last hexadecimal digit of a word.
fn push_digit<const N: usize>(text: &mut ArrayString<N>, w: u32)
    requires { array_string_len text.old + 1 ≤ N }
    ensures bytes { text.new.bytes ≡ text.old.bytes ++ hex_digit (w % 16) ∷ [] }
    ensures length { array_string_len text.new ≡ array_string_len text.old + 1 }
{
    text.push(digit(w) as char);
}

/// Writes a number in decimal, at most ten bytes, at the end of a text with room for them.
pub fn push_decimal<const N: usize>(text: &mut ArrayString<N>, n: u32)
    requires { array_string_len text.old + 10 ≤ N }
    ensures bytes { text.new.bytes ≡ text.old.bytes ++ decimal n }
    ensures short { array_string_len text.new ≤ array_string_len text.old + 10 }
{
    if n < 100 {
        push_small(text, n);
    } else if n < 10000 {
        push_small(text, n / 100);
        push_digit(text, n / 10 % 10);
        push_digit(text, n % 10);
    } else {
        let mut buffer = Buffer::new();
        text.push_str(buffer.format(n));
    }
}

// Adds a number below 100, at most two bytes.
#[inline(always)]
fn push_small<const N: usize>(text: &mut ArrayString<N>, n: u32)
    requires small { n < 100 }
    requires room { array_string_len text.old + 2 ≤ N }
    ensures bytes { text.new.bytes ≡ text.old.bytes ++ decimal n }
    ensures short { array_string_len text.new ≤ array_string_len text.old + 2 }
{
    if n < 10 {
        push_digit(text, n);
        return;
    }
    push_digit(text, n / 10);
    push_digit(text, n % 10);
}
