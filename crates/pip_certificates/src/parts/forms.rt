//! The forms of labels, and of what parts are of. A reader takes a form from the head of a text, and answers with what
//! comes after it.
ghost use Rattle.std.specs.Prelude.{◌≡◌, MatchOption, None, Some, false};
ghost use Rattle.std.specs.List.{list_all};
ghost use Rattle.pip_certificates.specs.Forms.{after_about, after_call, after_cpu, after_digits, after_hex};
ghost use Rattle.pip_certificates.specs.Forms.{after_number};
ghost use Rattle.pip_certificates.specs.Forms.{after_out, after_park, after_reply, after_spaced, after_sum};
ghost use Rattle.pip_certificates.specs.Forms.{after_switch};
ghost use Rattle.pip_certificates.specs.Forms.{after_text, after_two, after_hex_word, is_about, is_answer, is_end};
ghost use Rattle.pip_certificates.specs.Forms.{is_hex};
ghost use Rattle.pip_certificates.specs.Forms.{is_label, is_turn, leaves};

// Whether a byte is a hexadecimal digit in lower case.
fn is_hex(byte: u8) -> bool
    ensures { result ≡ is_hex byte }
{
    byte.is_ascii_digit() || (b'a' <= byte && byte <= b'f')
}

/// Whether all bytes are hexadecimal digits in lower case.
pub(crate) fn all_hex(text: &[u8]) -> bool
    ensures { result ≡ list_all is_hex text.now }
{
    let mut rest = text;
    while let [digit, tail @ ..] = rest {
        if !is_hex(*digit) {
            return false;
        }
        rest = tail;
    }
    true
}

// These bytes.
fn after_text<'a>(start: &[u8], text: &'a [u8]) -> Option<&'a [u8]>
    ensures { MatchOption result (after_text start.now text.now ≡ None)
        (λ rest. after_text start.now text.now ≡ Some rest.now) }
{
    text.strip_prefix(start)
}

// All decimal digits that there are.
fn after_digits(text: &[u8]) -> &[u8]
    ensures { result.now ≡ after_digits text.now }
{
    let mut rest = text;
    while let [digit, tail @ ..] = rest {
        if !digit.is_ascii_digit() {
            return rest;
        }
        rest = tail;
    }
    rest
}

// A number: `0`, or decimal digits of which the first isn't 0.
fn after_number(text: &[u8]) -> Option<&[u8]>
    ensures { MatchOption result (after_number text.now ≡ None) (λ rest. after_number text.now ≡ Some rest.now) }
{
    match text {
        [b'0', rest @ ..] => Some(rest),
        [digit, rest @ ..] if digit.is_ascii_digit() => Some(after_digits(rest)),
        _ => None,
    }
}

// A number after a space.
fn after_spaced(text: &[u8]) -> Option<&[u8]>
    ensures { MatchOption result (after_spaced text.now ≡ None) (λ rest. after_spaced text.now ≡ Some rest.now) }
{
    let rest = after_text(b" ", text)?;
    after_number(rest)
}

// Two of them.
fn after_two(text: &[u8]) -> Option<&[u8]>
    ensures { MatchOption result (after_two text.now ≡ None) (λ rest. after_two text.now ≡ Some rest.now) }
{
    let rest = after_spaced(text)?;
    after_spaced(rest)
}

// `n` hexadecimal digits.
fn after_hex(n: usize, text: &[u8]) -> Option<&[u8]>
    ensures { MatchOption result (after_hex n text.now ≡ None) (λ rest. after_hex n text.now ≡ Some rest.now) }
{
    if text.len() < n {
        return None;
    }
    let (digits, rest) = text.split_at(n);
    if all_hex(digits) { Some(rest) } else { None }
}

// A word after a space.
fn after_hex_word(text: &[u8]) -> Option<&[u8]>
    ensures { MatchOption result (after_hex_word text.now ≡ None) (λ rest. after_hex_word text.now ≡ Some rest.now) }
{
    let rest = after_text(b" 0x", text)?;
    after_hex(8, rest)
}

// A space and the number of a processor.
fn after_cpu(text: &[u8]) -> Option<&[u8]>
    ensures { MatchOption result (after_cpu text.now ≡ None) (λ rest. after_cpu text.now ≡ Some rest.now) }
{
    match text {
        [b' ', b'0'..=b'3', rest @ ..] => Some(rest),
        _ => None,
    }
}

// ` switch FROM TO VECTOR`.
fn after_switch(text: &[u8]) -> Option<&[u8]>
    ensures { MatchOption result (after_switch text.now ≡ None) (λ rest. after_switch text.now ≡ Some rest.now) }
{
    let rest = after_text(b" switch", text)?;
    let rest = after_spaced(rest)?;
    after_two(rest)
}

// ` park FROM VECTOR`.
fn after_park(text: &[u8]) -> Option<&[u8]>
    ensures { MatchOption result (after_park text.now ≡ None) (λ rest. after_park text.now ≡ Some rest.now) }
{
    let rest = after_text(b" park", text)?;
    after_two(rest)
}

// ` out W`.
fn after_out(text: &[u8]) -> Option<&[u8]>
    ensures { MatchOption result (after_out text.now ≡ None) (λ rest. after_out text.now ≡ Some rest.now) }
{
    let rest = after_text(b" out", text)?;
    after_hex_word(rest)
}

// ` reply STATUS V`.
fn after_reply(text: &[u8]) -> Option<&[u8]>
    ensures { MatchOption result (after_reply text.now ≡ None) (λ rest. after_reply text.now ≡ Some rest.now) }
{
    let rest = after_text(b" reply", text)?;
    let rest = after_spaced(rest)?;
    after_hex_word(rest)
}

// ` call NUMBER`.
fn after_call(text: &[u8]) -> Option<&[u8]>
    ensures { MatchOption result (after_call text.now ≡ None) (λ rest. after_call text.now ≡ Some rest.now) }
{
    let rest = after_text(b" call", text)?;
    after_spaced(rest)
}

// Whether a reader came to the end of a text.
fn is_end(rest: Option<&[u8]>) -> bool
    ensures { MatchOption rest.entry (result ≡ false) (λ bytes. result ≡ is_end (Some bytes.now)) }
{
    match rest {
        Some([]) => true,
        _ => false,
    }
}

// Whether a call is answered so.
fn is_answer(text: &[u8]) -> bool
    ensures { result ≡ is_answer text.now }
{
    is_end(after_reply(text)) || is_end(after_switch(text))
}

// Whether a call and its answer are all that there is.
fn is_call(text: &[u8]) -> bool
    ensures { result ≡ leaves is_answer (after_call text.now) }
{
    match after_call(text) {
        Some(rest) => is_answer(rest),
        None => false,
    }
}

// Whether this comes after the processor in a line of a trace.
fn is_turn(text: &[u8]) -> bool
    ensures { result ≡ is_turn text.now }
{
    is_end(after_switch(text))
        || is_end(after_park(text))
        || is_end(after_out(text))
        || is_call(text)
}

/// Whether a text is a label: a line of a trace without its step.
pub(crate) fn is_label(text: &[u8]) -> bool
    ensures { result ≡ is_label text.now }
{
    match after_cpu(text) {
        Some(rest) => is_turn(rest),
        None => false,
    }
}

// Sixteen hexadecimal digits after a space.
fn after_sum(text: &[u8]) -> Option<&[u8]>
    ensures { MatchOption result (after_sum text.now ≡ None) (λ rest. after_sum text.now ≡ Some rest.now) }
{
    let rest = after_text(b" ", text)?;
    after_hex(16, rest)
}

// The numbers of an image and FROM, and the sum.
fn after_about(text: &[u8]) -> Option<&[u8]>
    ensures { MatchOption result (after_about text.now ≡ None) (λ rest. after_about text.now ≡ Some rest.now) }
{
    let rest = after_number(text)?;
    let rest = after_two(rest)?;
    let rest = after_two(rest)?;
    after_sum(rest)
}

/// Whether a text says what a part is of.
pub(crate) fn is_about(text: &[u8]) -> bool
    ensures { result ≡ is_about text.now }
{
    is_end(after_about(text))
}
