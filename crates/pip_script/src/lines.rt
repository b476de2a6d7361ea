//! Lines as words.
ghost use Rattle.std.specs.Prelude.{◌≡◌, ℕ, [], IfSome, IsTrue, MatchOption, Some, false, length};
ghost use Rattle.pip_model.specs.Grammar.{line_meaning};
ghost use Rattle.pip_model.specs.Worlds.{World};
ghost use Rattle.pip_model.specs.declared.script.ScriptLine.TheVariants.{Blank};
ghost use Rattle.pip_script.specs.Phrases.{HasForm, HasNoForm, HasWords};
ghost use Rattle.pip_script.specs.Proper.{IsProper, IsProperEvent};
ghost use Rattle.pip_script.specs.Replies.{RepliesTo};
ghost use Rattle.pip_script.specs.Words.{after_word, first_word};

use crate::forms::{answer_form, read_form};
use crate::numbers::take_number;
use arrayvec::ArrayVec;
use pip_base::{MAX_LINE, Steps};
use pip_model::{Port, Said, ScriptLine};
use std::sync::ledger::Ledger;

/// Whether a line is blank, its newline left off: empty, or a remark.
#[inline(always)]
pub fn is_blank(line: &[u8]) -> bool
    ensures yes { IsTrue result → (cpus : ℕ) → line_meaning cpus line.now ≡ Some Blank }
    ensures no { result ≡ false → HasWords line.now }
{
    match line {
        [] => true,
        [b'#', ..] => line.len() <= MAX_LINE,
        _ => false,
    }
}

/// What a line says, its newline left off, or None where it isn't in the grammar (docs/FORMATS.md, "Scripts").
/// There are `cpus` processors, 0 before the boot line.
pub fn read_line(line: &[u8], cpus: u32) -> Option<ScriptLine>
    ensures meaning { result ≡ line_meaning cpus line.now }
    ensures proper { IfSome result (IsProper cpus) }
{
    if is_blank(line) {
        return Some(ScriptLine::Blank);
    }
    read_phrase(line, cpus)
}

/// Reads a line that isn't blank.
#[inline(always)]
pub fn read_phrase(line: &[u8], cpus: u32) -> Option<ScriptLine>
    requires { HasWords line.now }
    ensures meaning { result ≡ line_meaning cpus line.now }
    ensures proper { IfSome result (IsProperEvent cpus) }
{
    let mut numbers = ArrayVec::new();
    let name = split_phrase(line, &mut numbers)?;
    read_form(name, &numbers, cpus)
}

/// Does what a line says that isn't blank, its newline left off, and answers what is to be said of it. None where it
/// isn't in the grammar; then nothing is done.
#[inline(always)]
pub fn answer_line<P: Port, L: Ledger>(
    port: &mut P,
    line: &[u8],
    steps: &mut Steps<L>,
) -> Option<Said>
    requires { HasWords line.now }
    ensures replies { (w : World) → P.stands port.old w → RepliesTo w (line_meaning (P.count port.old) line.now) result
        (P.stands port.new) }
    ensures count { P.count port.new ≡ P.count port.old }
{
    let mut numbers = ArrayVec::new();
    let name = split_phrase(line, &mut numbers)?;
    answer_form(port, name, &numbers, steps)
}

// The first word of a line, and the numbers after it. No form has more than seven.
#[inline(always)]
fn split_phrase<'a>(line: &'a [u8], numbers: &mut ArrayVec<u32, 7>) -> Option<&'a [u8]>
    requires words { HasWords line.now }
    requires none { numbers.old.items ≡ [] }
    ensures { MatchOption result (HasNoForm line.now) (λ name. HasForm line.now name.now numbers.new.items) }
{
    if line.len() > MAX_LINE {
        return None;
    }
    let (name, mut rest) = split_word(line);
    while let [_, text @ ..] = rest {
        let number = take_number(text)?;
        numbers.try_push(number.value).ok()?;
        rest = number.rest;
    }
    Some(name)
}

/// The first word of a text, and what follows it, from its space on.
#[inline(always)]
pub fn split_word(text: &[u8]) -> (&[u8], &[u8])
    ensures word { result.0.now ≡ first_word text.now }
    ensures rest { result.1.now ≡ after_word text.now }
{
    text.split_at(word_len(text))
}

// How many bytes stand before the first space.
fn word_len(text: &[u8]) -> usize
    ensures { result ≡ length (first_word text.now) }
{
    for (at, byte) in text.iter().enumerate() {
        if *byte == b' ' {
            return at;
        }
    }
    text.len()
}
