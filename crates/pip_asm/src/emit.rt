//! The image as it is written, line by line: words that take from names are filled in after the text was read, when all
//! names are known.
ghost use Rattle.std.specs.Prelude.{◌≡◌, ◌<◌, ◌≤◌, ◌+◌, ◌^◌, ◌++◌, ◌∷◌, [], ℕ, List, Option, length, take, drop};
ghost use Rattle.std.specs.Prelude.{replicate, MatchResult, OnOk, Ok};
ghost use Rattle.pip_model.specs.Assembly.{and_then, apart, word_of_cell};
ghost use Rattle.pip_asm.specs.Names.{IsKept, address_of_name};
ghost use Rattle.pip_asm.specs.Reading.{Refused};
ghost use Rattle.pip_asm.specs.Emitted.{Adds, AreNotes, IsEmpty, IsInBounds, cell_words, fill_in, first_head, put};
ghost use Rattle.pip_asm.specs.Emitted.{said, words};
ghost use Rattle.pip_asm.specs.Seen.{HasRoomFor, cell_of, use_seen};

use crate::head::push_head;
use crate::line::{Cell, NameUse};
use crate::names::Addresses;
use crate::reading::AsmError;
use crate::words::{push_word, push_zeros, put_word};
use pip_base::Plan;
use pip_model::AsmKind;
use std::alloc::{AllocError, Global};

// Where the head has the number of pages: after the magic and three words.
const PAGES_PLACE: usize = 20;

/// A word that takes from a name: the line that says it, its place in the bytes after the head, where the next
/// instruction stands, and its cell.
#[derive(Clone, Copy, Debug, PartialEq, Eq)]
pub struct Note<'a> {
    pub line: u64,
    pub place: usize,
    pub next: u32,
    pub cell: Cell<'a>,
}

/// The bytes so far, of which `head` are the head, and the words among the others that take from names, in their order.
#[derive(Drop)]
pub struct Written<'a> {
    pub bytes: Vec<u8>,
    pub head: usize,
    pub notes: Vec<Note<'a>>,
}

// The word of a cell after which the next instruction would stand at `next`.
fn word_for<'a>(names: &Addresses<'a>, next: u32, cell: Cell<'a>) -> Result<u32, AsmKind>
    requires kept { IsKept names.now }
    requires room { HasRoomFor cell.number cell.takes }
    ensures { result ≡ word_of_cell (address_of_name names.now) next cell.entry.number (use_seen cell.entry.takes) }
{
    match cell.takes {
        NameUse::Nothing => Ok(cell.number),
        NameUse::Address(text) => match names.find(text) {
            Some(address) => Ok(address),
            None => Err(AsmKind::Label),
        },
        NameUse::Low(text) => match names.find(text) {
            Some(address) => Ok(cell.number + address % 65536),
            None => Err(AsmKind::Label),
        },
        NameUse::High(text) => match names.find(text) {
            Some(address) => Ok(cell.number + address / 65536),
            None => Err(AsmKind::Label),
        },
        NameUse::Distance(text) => match names.find(text) {
            Some(address) => apart(cell.number, next, address),
            None => Err(AsmKind::Label),
        },
    }
}

// A word with the distance from the next instruction to an address, in words, in its low 16 bits.
fn apart(word: u32, next: u32, address: u32) -> Result<u32, AsmKind>
    requires { word < 2 ^ 30 }
    ensures { result ≡ apart word next address }
{
    if next <= address {
        let distance = (address - next) / 4;
        if distance < 32768 {
            Ok(word + distance)
        } else {
            Err(AsmKind::Range)
        }
    } else {
        let distance = (next - address) / 4;
        if distance <= 32768 {
            Ok(word + (65536 - distance))
        } else {
            Err(AsmKind::Range)
        }
    }
}

impl<'a> Written<'a> {
    /// Nothing was written.
    pub fn new(alloc: Global) -> Self
        ensures { IsEmpty result }
    {
        Written {
            bytes: Vec::new(alloc),
            head: 0,
            notes: Vec::new(alloc),
        }
    }

    /// The head, in front of the first page. It says that there are no pages.
    pub fn begin(&mut self, frames: u32, cpus: u32, plans: &[Plan]) -> Result<(), AllocError>
        requires few { length plans.now ≤ 16 }
        requires empty { IsEmpty self.old }
        ensures whole { OnOk result (IsInBounds self.new) }
        ensures front { OnOk result (take self.new.head self.new.bytes.items ≡ first_head frames cpus plans.now) }
        ensures said { OnOk result ((names : List ℕ → Option ℕ) → said names self.new ≡ Ok []) }
    {
        push_head(&mut self.bytes, frames, cpus, plans)?;
        self.head = self.bytes.len();
        Ok(())
    }

    /// Appends a word.
    pub fn word(&mut self, word: u32) -> Result<(), AllocError>
        requires { IsInBounds self.old }
        ensures { OnOk result (Adds self.old (words (word ∷ [])) self.new) }
    {
        push_word(&mut self.bytes, word)
    }

    /// Appends zero words.
    pub fn zeros(&mut self, count: u32) -> Result<(), AllocError>
        requires { IsInBounds self.old }
        ensures { OnOk result (Adds self.old (words (replicate count 0)) self.new) }
    {
        push_zeros(&mut self.bytes, count)
    }

    /// Appends the word of a cell that a line says.
    pub fn cell(&mut self, line: u64, next: u32, cell: Cell<'a>) -> Result<(), AllocError>
        requires whole { IsInBounds self.old }
        requires room { HasRoomFor cell.number cell.takes }
        ensures { OnOk result (Adds self.old (cell_words line next (cell_of cell.entry)) self.new) }
    {
        match cell.takes {
            NameUse::Nothing => self.word(cell.number),
            _ => self.note(line, next, cell),
        }
    }

    // A word more that takes from a name.
    fn note(&mut self, line: u64, next: u32, cell: Cell<'a>) -> Result<(), AllocError>
        requires whole { IsInBounds self.old }
        requires room { HasRoomFor cell.number cell.takes }
        ensures { OnOk result (Adds self.old (cell_words line next (cell_of cell.entry)) self.new) }
    {
        let place = self.bytes.len() - self.head;
        self.notes.push(Note {
            line,
            place,
            next,
            cell,
        })?;
        push_word(&mut self.bytes, cell.number)
    }

    /// The image of that many pages, where all names are known.
    pub fn finish(self, names: &Addresses<'a>, pages: u32) -> Result<Vec<u8>, AsmError>
        requires kept { IsKept names.now }
        requires whole { IsInBounds self }
        requires head { 24 ≤ self.head }
        ensures { MatchResult result
            (λ image. and_then (said (address_of_name names.now) self.entry)
            (λ rest. Ok (put (take self.entry.head self.entry.bytes.items) 20 pages ++ rest)) ≡ Ok image.items)
            (Refused (said (address_of_name names.now) self.entry)) }
    {
        let Written {
            mut bytes,
            head,
            notes,
        } = self;
        complete(names, &notes, head, pages, &mut bytes)?;
        Ok(bytes)
    }
}

// All that was not known: the words that take from names, and the number of pages.
fn complete<'a>(
    names: &Addresses<'a>,
    notes: &[Note<'a>],
    head: usize,
    pages: u32,
    bytes: &mut [u8],
) -> Result<(), AsmError>
    requires kept { IsKept names.now }
    requires notes { AreNotes (length (drop head bytes.old)) notes.now }
    requires head { (24 ≤ head) × (head ≤ length bytes.old) }
    ensures { MatchResult result
        (λ _. and_then (fill_in (address_of_name names.now) notes.now (drop head bytes.old))
        (λ rest. Ok (put (take head bytes.old) 20 pages ++ rest)) ≡ Ok bytes.new)
        (Refused (fill_in (address_of_name names.now) notes.now (drop head bytes.old))) }
{
    fill(names, notes, &mut bytes[head..])?;
    put_word(bytes, PAGES_PLACE, pages);
    Ok(())
}

// The words that take from names, in their places.
fn fill<'a>(names: &Addresses<'a>, notes: &[Note<'a>], pages: &mut [u8]) -> Result<(), AsmError>
    requires kept { IsKept names.now }
    requires notes { AreNotes (length pages.old) notes.now }
    ensures { MatchResult result
        (λ _. fill_in (address_of_name names.now) notes.now pages.old ≡ Ok pages.new)
        (Refused (fill_in (address_of_name names.now) notes.now pages.old)) }
{
    for note in notes {
        match word_for(names, note.next, note.cell) {
            Err(kind) => return Err(AsmError::Line(note.line, kind)),
            Ok(word) => put_word(pages, note.place, word),
        }
    }
    Ok(())
}
