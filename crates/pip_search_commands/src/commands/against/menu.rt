//! The menu after an image, line by line.
ghost use Rattle.std.specs.Prelude.{◌≡◌, ◌≤◌, [], Err, MatchResult, Ok, length};
ghost use Rattle.pip_io.specs.Moments.{joined};
ghost use Rattle.pip_io.specs.Pacing.{MayRead};
ghost use Rattle.pip_search_commands.specs.MenuReading.{BeginsMenu, StopsMenu, TakesMenu, menu_said};
ghost use Rattle.pip_search_commands.specs.MenuText.{Asks, Frees, line_said, no_menu, one_said, said_of, with_line};

use super::freedom::{Freedom, read_freedom};
use super::menu_line::{MenuKind, Question, question_of, read_label, read_said};
use arrayvec::ArrayVec;
use pip_base::never;
use pip_every::{Asked, MAX_DEEDS, MAX_LABELS, May};
use pip_io::{Joint, Sink, Source};
use pip_script::{Input, LineEnd, split_word};

/// What the lines of a menu say: the deeds of partitions, and what it asks.
#[derive(Drop)]
pub struct ReadMenu {
    pub may: ArrayVec<May, MAX_DEEDS>,
    pub asked: Asked,
}

impl ReadMenu {
    /// An empty one.
    pub fn new() -> ReadMenu
        ensures { menu_said result ≡ no_menu }
    {
        ReadMenu {
            may: ArrayVec::new(),
            asked: Asked::new(),
        }
    }
}

/// A bad line, by its number from 1 on, and what is wrong with it.
#[derive(Clone, Copy, Debug, PartialEq, Eq)]
pub struct MenuFault {
    pub line: u32,
    pub kind: MenuKind,
}

/// Why no menu was read.
#[derive(Clone, Copy, Debug, PartialEq, Eq)]
pub enum MenuStop {
    /// The first bad line.
    Bad(MenuFault),
    /// A read failed.
    Unread,
}

/// How many lines a menu has at most.
const MAX_MENU_LINES: u32 = 65_536;

/// More bytes than that many lines and one line too long have together.
const MAX_MENU_BYTES: u32 = 1 << 24;

/// Reads a menu to the end of its source, or to its first bad line.
pub fn read_menu<S: Source, K: Sink>(joint: &mut Joint<'_, S, K>) -> Result<ReadMenu, MenuStop>
    requires is_open { S.is_open joint.old.source.now }
    requires flushed { (K.history joint.old.sink.now).written.buffered ≡ [] }
    requires paced { MayRead S.allows BeginsMenu (joined S.history K.history joint.old) }
    ensures same_source { joint.new.source.ghost_name ≡ joint.old.source.ghost_name }
    ensures sink { joint.new.sink ≡ joint.old.sink }
    ensures reads { MatchResult result
        (λ menu. TakesMenu (S.history joint.old.source.now).left (S.history joint.new.source.now).left (menu_said menu)
        × ((S.history joint.new.source.now).faults ≡ (S.history joint.old.source.now).faults))
        (StopsMenu (S.history joint.old.source.now).left (S.history joint.new.source.now).left
        (S.history joint.old.source.now).faults (S.history joint.new.source.now).faults) }
{
    let mut input = Input::with_room(MAX_MENU_BYTES);
    let mut menu = ReadMenu::new();
    for line in 1..MAX_MENU_LINES + 2 {
        let Ok(end) = input.next_line(joint) else {
            return Err(MenuStop::Unread);
        };
        match end {
            LineEnd::Newline(count) => {
                if let Err(kind) = add_line(&mut menu, line, input.head(count)) {
                    return Err(MenuStop::Bad(MenuFault { line, kind }));
                }
                input.take(count + 1);
            }
            LineEnd::Last(count) => {
                return match add_line(&mut menu, line, input.head(count)) {
                    Ok(()) => Ok(menu),
                    Err(kind) => Err(MenuStop::Bad(MenuFault { line, kind })),
                };
            }
            LineEnd::End => return Ok(menu),
            LineEnd::TooLong => {
                return Err(MenuStop::Bad(MenuFault {
                    line,
                    kind: MenuKind::Long,
                }));
            }
            // No lines before this one have that many bytes.
            LineEnd::Over => never!(),
        }
    }
    // The line after the last that a menu may have is bad.
    never!()
}

// Adds what line `number` says, of at most 120 bytes; or answers what is wrong with it.
fn add_line(menu: &mut ReadMenu, number: u32, line: &[u8]) -> Result<(), MenuKind>
    requires { length line.now ≤ 120 }
    ensures { MatchResult result
        (λ _. with_line number (menu_said menu.old) (line_said line.now) ≡ Ok (menu_said menu.new))
        (λ kind. with_line number (menu_said menu.old) (line_said line.now) ≡ Err kind) }
{
    let (word, rest) = split_word(line);
    if let Some(question) = question_of(word) {
        return match read_label(rest) {
            Some(label) => add_label(menu, number, question, label),
            None => Err(MenuKind::What),
        };
    }
    match read_freedom(word, rest) {
        Some(Some(freedom)) => add_freedom(menu, number, freedom),
        Some(None) => Err(MenuKind::What),
        None => add_deed(menu, number, line),
    }
}

// Adds what line `number` says, which asks of no label.
fn add_deed(menu: &mut ReadMenu, number: u32, line: &[u8]) -> Result<(), MenuKind>
    requires { length line.now ≤ 120 }
    ensures { MatchResult result
        (λ _. with_line number (menu_said menu.old) (one_said (said_of line.now)) ≡ Ok (menu_said menu.new))
        (λ kind. with_line number (menu_said menu.old) (one_said (said_of line.now)) ≡ Err kind) }
{
    let said = read_said(line)?;
    if number > MAX_MENU_LINES {
        return Err(MenuKind::Many);
    }
    let Some(may) = said else {
        return Ok(());
    };
    if menu.may.is_full() {
        return Err(MenuKind::Many);
    }
    menu.may.push(may);
    Ok(())
}

// Adds the label of which line `number` asks.
fn add_label(
    menu: &mut ReadMenu,
    number: u32,
    question: Question,
    label: &[u8],
) -> Result<(), MenuKind>
    requires { length label.now ≤ 114 }
    ensures { MatchResult result
        (λ _. with_line number (menu_said menu.old) (Ok (Asks question label.now)) ≡ Ok (menu_said menu.new))
        (λ kind. with_line number (menu_said menu.old) (Ok (Asks question label.now)) ≡ Err kind) }
{
    let asked = &mut menu.asked;
    if number > MAX_MENU_LINES || asked.again.len() + asked.comes.len() >= MAX_LABELS {
        return Err(MenuKind::Many);
    }
    let mut own = ArrayVec::new();
    if own.try_extend_from_slice(label).is_err() {
        never!()
    }
    match question {
        Question::Again => asked.again.push(own),
        Question::Comes => asked.comes.push(own),
    }
    Ok(())
}

// Adds what line `number` leaves out, or doesn't.
fn add_freedom(menu: &mut ReadMenu, number: u32, freedom: Freedom) -> Result<(), MenuKind>
    ensures { MatchResult result
        (λ _. with_line number (menu_said menu.old) (Ok (Frees freedom)) ≡ Ok (menu_said menu.new))
        (λ kind. with_line number (menu_said menu.old) (Ok (Frees freedom)) ≡ Err kind) }
{
    let blind = &mut menu.asked.blind;
    let is_full = match freedom {
        Freedom::Program { .. } => blind.own.is_full(),
        Freedom::Page { .. } => blind.pages.is_full(),
        Freedom::Seen { .. } => blind.seen.is_full(),
        Freedom::Entry { .. } => blind.entries.is_full(),
        Freedom::Row { .. } => blind.rows.is_full(),
    };
    if number > MAX_MENU_LINES || is_full {
        return Err(MenuKind::Many);
    }
    match freedom {
        Freedom::Program { name } => blind.own.push(name),
        Freedom::Page { page } => blind.pages.push(page),
        Freedom::Seen { word } => blind.seen.push(word),
        Freedom::Entry { entry } => blind.entries.push(entry),
        Freedom::Row { row } => blind.rows.push(row),
    }
    Ok(())
}
