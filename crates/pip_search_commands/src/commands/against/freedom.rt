//! A line of a menu that says which words are left out.
ghost use Rattle.std.specs.Prelude.{◌≡◌, option_map};
ghost use Rattle.pip_search_commands.specs.MenuText.{freedom_of, last_number, number_after, row_said, two_numbers};

use pip_away::{OwnRow, PageWord, TableEntry};
use pip_script::{read_number, split_word};

/// What is left out of what others may read, or isn't.
#[derive(Clone, Copy)]
pub enum Freedom {
    /// The program of this partition may be any: `any`.
    Program { name: u32 },
    /// The words of this page are left out: `free`.
    Page { page: u32 },
    /// But for this word, whose index is below 1024: `seen`.
    Seen { word: PageWord },
    /// And of this entry the class is seen: `entry`.
    Entry { entry: TableEntry },
    /// By this row and those of the same partition: `row`.
    Row { row: OwnRow },
}

/// What a line leaves out, by its first word and by what follows that word. None where the word leaves nothing out;
/// None within where no such numbers follow it.
pub fn read_freedom(word: &[u8], rest: &[u8]) -> Option<Option<Freedom>>
    ensures { result ≡ freedom_of word.now rest.now }
{
    if word == b"any".as_slice() {
        return Some(match read_last(rest) {
            Some(name) => Some(Freedom::Program { name }),
            None => None,
        });
    }
    if word == b"free".as_slice() {
        return Some(match read_last(rest) {
            Some(page) => Some(Freedom::Page { page }),
            None => None,
        });
    }
    if word == b"seen".as_slice() {
        return Some(match read_two(rest) {
            Some((page, index)) if index < 1024 => Some(Freedom::Seen {
                word: PageWord { page, index },
            }),
            _ => None,
        });
    }
    if word == b"entry".as_slice() {
        return Some(match read_two(rest) {
            Some((name, vector)) => Some(Freedom::Entry {
                entry: TableEntry { name, vector },
            }),
            None => None,
        });
    }
    if word == b"row".as_slice() {
        return Some(read_row(rest));
    }
    None
}

// The number that follows a word, up to the end of the line.
fn read_last(rest: &[u8]) -> Option<u32>
    ensures { result ≡ last_number rest.now }
{
    match rest {
        [_, text @ ..] => read_number(text),
        [] => None,
    }
}

// The number that follows a space, and what follows it.
fn read_next(rest: &[u8]) -> Option<(u32, &[u8])>
    ensures { option_map (λ r. (r.0, r.1.now)) result ≡ number_after rest.now }
{
    let [_, text @ ..] = rest else {
        return None;
    };
    let (word, more) = split_word(text);
    let number = read_number(word)?;
    Some((number, more))
}

// The two numbers that follow a word, up to the end of the line.
fn read_two(rest: &[u8]) -> Option<(u32, u32)>
    ensures { result ≡ two_numbers rest.now }
{
    let (first, more) = read_next(rest)?;
    let second = read_last(more)?;
    Some((first, second))
}

// The row that four numbers say.
fn read_row(rest: &[u8]) -> Option<Freedom>
    ensures { result ≡ row_said (number_after rest.now) }
{
    let (name, rest) = read_next(rest)?;
    let (at, rest) = read_next(rest)?;
    let (page, rights) = read_two(rest)?;
    Some(Freedom::Row {
        row: OwnRow {
            name,
            at,
            page,
            rights,
        },
    })
}
