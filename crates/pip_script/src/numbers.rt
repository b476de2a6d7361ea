//! Numbers as scripts and the command line write them.
ghost use Rattle.std.specs.Prelude.{◌≡◌, ◌<◌, ◌∷◌, IfSome, MatchOption, None, Some};
ghost use Rattle.pip_model.specs.Grammar.{after_zero, decimal_from, hex_value, number_of};
ghost use Rattle.pip_script.specs.Words.{after_word, first_word, value_before};

/// The number that a word writes, or None where it writes none (docs/FORMATS.md, "Numbers"): `0`, or decimal digits
/// of which the first is not 0, or `0x` and one to eight hexadecimal digits in lower case, below 2^32.
pub fn read_number(word: &[u8]) -> Option<u32>
    ensures { result ≡ number_of word.now }
{
    let number = take_number(word)?;
    if number.rest.is_empty() {
        Some(number.value)
    } else {
        None
    }
}

/// A number, and the text after it.
#[derive(Clone, Copy, Debug)]
pub struct Number<'a> {
    pub value: u32,
    pub rest: &'a [u8],
}

/// The number that the first word of a text writes, and the text after that word; None where it writes none.
#[inline(always)]
pub fn take_number(text: &[u8]) -> Option<Number<'_>>
    ensures { MatchOption result (number_of (first_word text.now) ≡ None)
        (λ n. (number_of (first_word text.now) ≡ Some n.value) × (n.rest.now ≡ after_word text.now)) }
{
    let number = match text {
        [b'0', b'x', digits @ ..] => take_hex(digits)?,
        [b'0', rest @ ..] => Number { value: 0, rest },
        [b'1'..=b'9', ..] => take_decimal(text)?,
        _ => return None,
    };
    match number.rest {
        [] | [b' ', ..] => Some(number),
        _ => None,
    }
}

// The decimal digits at the front of a text.
#[inline(always)]
fn take_decimal(text: &[u8]) -> Option<Number<'_>>
    ensures { MatchOption result (decimal_from 0 (first_word text.now) ≡ None)
        (λ n. (decimal_from 0 (first_word text.now) ≡ value_before n.rest.now n.value)
        × (after_word n.rest.now ≡ after_word text.now)) }
{
    let mut value = 0u32;
    let mut rest = text;
    while let [digit, tail @ ..] = rest
        && digit.is_ascii_digit()
    {
        value = value
            .checked_mul(10)?
            .checked_add(u32::from(*digit - b'0'))?;
        rest = tail;
    }
    Some(Number { value, rest })
}

// The hexadecimal digits at the front of a text, one to eight.
#[inline(always)]
fn take_hex(text: &[u8]) -> Option<Number<'_>>
    ensures { MatchOption result (after_zero (120 ∷ first_word text.now) ≡ None)
        (λ n. (after_zero (120 ∷ first_word text.now) ≡ value_before n.rest.now n.value)
        × (after_word n.rest.now ≡ after_word text.now)) }
{
    let mut value = 0;
    let mut rest = text;
    let mut count = 0u32;
    while let [digit, tail @ ..] = rest
        && let Some(digit) = read_hex_digit(*digit)
    {
        if count == 8 {
            return None;
        }
        count += 1;
        value = value * 16 + digit;
        rest = tail;
    }
    if count == 0 {
        return None;
    }
    Some(Number { value, rest })
}

#[inline(always)]
fn read_hex_digit(byte: u8) -> Option<u32>
    ensures value { result ≡ hex_value byte }
    ensures small { IfSome result (λ x. x < 16) }
{
    let decimal = byte.wrapping_sub(b'0');
    let letter = byte.wrapping_sub(b'a');
    if decimal < 10 {
        Some(u32::from(decimal))
    } else if letter < 6 {
        Some(u32::from(letter) + 10)
    } else {
        None
    }
}
