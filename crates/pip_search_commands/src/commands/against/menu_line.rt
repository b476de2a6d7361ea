//! A line of a menu.
ghost use Rattle.std.specs.Prelude.{◌≡◌, ◌+◌, ◌≤◌, ◌++◌, Err, MatchOption, Ok, length};
ghost use Rattle.pip_model.specs.Grammar.{words_of};
ghost use Rattle.pip_script.specs.Proper.{IsProper};
ghost use Rattle.pip_search_commands.specs.MenuText as text;
ghost use Rattle.pip_search_commands.specs.MenuText.{deed_of, label_said, line_deed, said_by, said_of, who_of};

use arrayvec::ArrayVec;
use pip_base::{MAX_LINE, Size, never};
use pip_every::{Deed, May};
use pip_script::{ScriptLine, read_line, read_number, split_word};

/// What is wrong with a line of a menu.
#[derive(Clone, Copy, Debug, PartialEq, Eq)]
pub enum MenuKind {
    /// It has more than 120 bytes.
    Long,
    /// Its first word is neither `each`, `again`, `comes`, `any`, `free`, `seen` nor a number.
    Who,
    /// What follows that word is no deed, after `again` and `comes` no label, or after `any`, `free` and `seen` no such
    /// numbers.
    What,
    /// It would be deed 1025, label 17, partition 65, page 257 or seen word 257, or is line 65,537.
    Many,
}

/// What is asked of a label.
#[derive(Clone, Copy)]
pub enum Question {
    /// Whether it can come again: `again`.
    Again,
    /// Whether it comes: `comes`.
    Comes,
}

/// What a word asks of the label after it, if it does.
pub fn question_of(word: &[u8]) -> Option<Question>
    ensures { result ≡ text.question_of word.now }
{
    if word == b"again".as_slice() {
        return Some(Question::Again);
    }
    if word == b"comes".as_slice() {
        return Some(Question::Comes);
    }
    None
}

/// The label of a question, by what follows its word. None where there is none.
pub fn read_label(rest: &[u8]) -> Option<&[u8]>
    ensures { MatchOption result (label_said rest.now ≡ Err MenuKind.What)
        (λ label. label_said rest.now ≡ Ok label.now) }
{
    let [_, label @ ..] = rest else {
        return None;
    };
    if label.is_empty() { None } else { Some(label) }
}

/// What a line of at most 120 bytes says that asks of no label, its newline left off. None where it is empty, or a
/// remark.
pub fn read_said(line: &[u8]) -> Result<Option<May>, MenuKind>
    requires { length line.now ≤ 120 }
    ensures { result ≡ said_of line.now }
{
    if let [] | [b'#', ..] = line {
        return Ok(None);
    }
    match read_may(line) {
        Ok(may) => Ok(Some(may)),
        Err(kind) => Err(kind),
    }
}

// What a line says that is neither empty nor a remark.
fn read_may(line: &[u8]) -> Result<May, MenuKind>
    requires { length line.now ≤ 120 }
    ensures { result ≡ said_by (words_of line.now) }
{
    let (who, what) = split_word(line);
    let Some(name) = read_who(who) else {
        return Err(MenuKind::Who);
    };
    let [_, text @ ..] = what else {
        return Err(MenuKind::What);
    };
    match read_deed(text) {
        Some(deed) => Ok(May { name, deed }),
        None => Err(MenuKind::What),
    }
}

// Whom a word means: each partition but the root, or the one of this name.
fn read_who(word: &[u8]) -> Option<Option<u32>>
    ensures { result ≡ who_of word.now }
{
    if word == b"each".as_slice() {
        return Some(None);
    }
    match read_number(word) {
        Some(name) => Some(Some(name)),
        None => None,
    }
}

// The deed that a text says: a line of a script without its processor.
fn read_deed(text: &[u8]) -> Option<Deed>
    requires { length text.now ≤ 118 }
    ensures { result ≡ deed_of (words_of text.now) }
{
    let (word, operands) = split_word(text);
    let mut line = ArrayVec::new();
    push_all(&mut line, word);
    push_all(&mut line, b" 0");
    push_all(&mut line, operands);
    match read_line(&line, 1) {
        Some(line) => deed_in(line),
        None => None,
    }
}

// The deed that a line of a script is.
fn deed_in(line: ScriptLine) -> Option<Deed>
    requires { IsProper 1 line }
    ensures { result ≡ line_deed line }
{
    match line {
        ScriptLine::Load { va, size, .. } => Some(Deed::Load { va, size }),
        ScriptLine::Store {
            va,
            size: Size::Word,
            word,
            ..
        } => Some(Deed::StoreWord { va, word }),
        ScriptLine::Store {
            va,
            size: Size::Byte,
            word,
            ..
        } => Some(Deed::StoreByte {
            va,
            byte: word as u8,
        }),
        ScriptLine::Trap { vector, a, b, .. } => Some(Deed::Trap {
            vector: vector as u8,
            a,
            b,
        }),
        ScriptLine::Call { no, args, .. } => Some(Deed::Call { number: no, args }),
        _ => None,
    }
}

// Adds bytes to a line that has room for them.
fn push_all(line: &mut ArrayVec<u8, MAX_LINE>, bytes: &[u8])
    requires { length line.old.items + length bytes.now ≤ 120 }
    ensures { line.new.items ≡ line.old.items ++ bytes.now }
{
    if line.try_extend_from_slice(bytes).is_err() {
        never!()
    }
}
