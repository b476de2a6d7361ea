//! The lines of a text, one after another: each is judged alone and by the lines before it, and its words are written.
ghost use Rattle.std.specs.Prelude.{◌≡◌, ◌<◌, ◌≤◌, ◌+◌, ◌*◌, ◌%◌, ◌^◌, ◌++◌, ◌∷◌, [], ℕ, List, Option, length, take};
ghost use Rattle.std.specs.Prelude.{replicate, MatchResult, OnOk, Ok, IfOk};
ghost use Rattle.pip_model.specs.declared.assembly.Stage.TheVariants.{Start, Header, InPage};
ghost use Rattle.pip_model.specs.Grammar.{lines_of};
ghost use Rattle.pip_model.specs.Assembly.{and_then, first_pass, first_state, grown, padding, place_statement};
ghost use Rattle.pip_model.specs.Assembly.{second_pass};
ghost use Rattle.pip_model.specs.AsmLines.{Begins, Plans, Names};
ghost use Rattle.pip_asm.specs.Emitted.{IsEmpty, IsInBounds, SaysMore, cell_words, first_head, line_words, prefix};
ghost use Rattle.pip_asm.specs.Emitted.{words};
ghost use Rattle.pip_asm.specs.Marks.{IsNear};
ghost use Rattle.pip_asm.specs.Names.{address_of_name};
ghost use Rattle.pip_asm.specs.Reading.{IsProperState, KeepsBytes, Refused, StopIs, TakesLine, bytes_ended, head_of};
ghost use Rattle.pip_asm.specs.Reading.{open_page, state_of};
ghost use Rattle.pip_asm.specs.Stages.{StandsAt};
ghost use Rattle.pip_asm.specs.Seen.{HasRoomFor, IsInRange, cell_of, statement_of};

use crate::emit::Written;
use crate::line::{Cell, Statement, cut_line, statement};
use crate::marks::{is_marked, mark, no_marks};
use crate::names::{Addresses, first_look};
use pip_base::{Plan, VPage};
use pip_model::{AsmKind, Stage, root_frame};
use std::alloc::{AllocError, Global};
use thiserror::Error;

/// Why a text isn't assembled: the first line with a fault, counted from 1, and its fault; or want of memory
/// (docs/FORMATS.md, "Assembly").
#[derive(Clone, Copy, Debug, PartialEq, Eq, Error)]
pub enum AsmError {
    #[error("line {0}: {1}")]
    Line(u64, AsmKind),
    #[error("no memory is left")]
    Memory,
}

/// Why a line isn't taken.
#[derive(Clone, Copy, Debug, PartialEq, Eq)]
pub enum AsmLineError {
    Kind(AsmKind),
    Memory,
}

/// What the lines so far said, plans and pages in their order, and the address of each name. The next plan's line must
/// be `least` or more. The present page begins at address `at` and has `size` words so far. `marks` tell the pages.
#[derive(Drop)]
pub struct Passed<'a> {
    pub stage: Stage,
    pub frames: u32,
    pub cpus: u32,
    pub least: u32,
    pub plans: Vec<Plan>,
    pub pages: Vec<u32>,
    pub marks: Vec<bool>,
    pub at: u32,
    pub size: u32,
    pub names: Addresses<'a>,
    pub written: Written<'a>,
}

impl<'a> Passed<'a> {
    // No line of a text was read.
    fn new(alloc: Global, text: &[u8]) -> Result<Self, AllocError>
        requires { length text.now ≤ 2 ^ 24 }
        ensures same { IfOk result (λ p. state_of p ≡ first_state) }
        ensures proper { IfOk result IsProperState }
        ensures none { IfOk result (λ p. length p.pages.items ≡ 0) }
        ensures empty { IfOk result (λ p. IsEmpty p.written) }
    {
        let marks = no_marks(alloc)?;
        let look = first_look(text);
        Ok(Passed {
            stage: Stage::Start,
            frames: 16,
            cpus: 1,
            least: 0,
            plans: Vec::new(alloc),
            pages: Vec::new(alloc),
            marks,
            at: 0,
            size: 0,
            names: Addresses::new(alloc, look.seed, look.labels)?,
            written: Written::new(alloc),
        })
    }

    fn plan(&mut self, plan: Plan) -> Result<(), AsmLineError>
        requires proper { IsProperState self.old }
        requires small { plan.line < 16 }
        requires stage { self.old.stage ≡ Header }
        ensures same { MatchResult result
            (λ _. place_statement (state_of self.old) (Plans plan) ≡ Ok (state_of self.new))
            (StopIs (place_statement (state_of self.old) (Plans plan))) }
        ensures proper { OnOk result (IsProperState self.new) }
        ensures pages { OnOk result (length self.new.pages.items ≤ length self.old.pages.items + 1) }
        ensures written { OnOk result (self.new.written ≡ self.old.written) }
    {
        if plan.line < self.least {
            return Err(AsmLineError::Kind(AsmKind::Range));
        }
        if self.plans.push(plan).is_err() {
            return Err(AsmLineError::Memory);
        }
        self.least = plan.line + 1;
        Ok(())
    }

    // What stands before a page, or the end: the head before the first one, else the zeros after the words of the
    // present.
    fn end_page(&mut self) -> Result<(), AllocError>
        requires proper { IsProperState self.old }
        ensures whole { OnOk result (IsInBounds self.new.written) }
        ensures front { OnOk result
            (take self.new.written.head self.new.written.bytes.items
            ≡ first_head self.old.frames self.old.cpus self.old.plans.items) }
        ensures says { OnOk result
            (SaysMore self.old.written (words (padding self.old.stage self.old.size)) self.new.written) }
        ensures same { self.new ≡ record self.old { written = self.new.written } }
    {
        match self.stage {
            Stage::InPage => self.written.zeros(1024 - self.size),
            _ => self.written.begin(self.frames, self.cpus, &self.plans),
        }
    }

    fn begin(&mut self, page: u32) -> Result<(), AsmLineError>
        requires proper { IsProperState self.old }
        requires small { page < 2 ^ 20 }
        ensures same { MatchResult result
            (λ _. place_statement (state_of self.old) (Begins page) ≡ Ok (state_of self.new))
            (StopIs (place_statement (state_of self.old) (Begins page))) }
        ensures proper { OnOk result (IsProperState self.new) }
        ensures pages { OnOk result (length self.new.pages.items ≤ length self.old.pages.items + 1) }
        ensures says { OnOk result
            (SaysMore self.old.written (words (padding self.old.stage self.old.size ++ page ∷ [])) self.new.written) }
    {
        if root_frame(self.frames, VPage::new(page)).is_none() {
            return Err(AsmLineError::Kind(AsmKind::Range));
        }
        if is_marked(&self.marks, page) {
            return Err(AsmLineError::Kind(AsmKind::Twice));
        }
        match self.open(page) {
            Ok(()) => Ok(()),
            Err(_) => Err(AsmLineError::Memory),
        }
    }

    // The page that begins, after what stands before it.
    fn open(&mut self, page: u32) -> Result<(), AllocError>
        requires proper { IsProperState self.old }
        requires small { page < 2 ^ 20 }
        requires near { IsNear page }
        ensures same { OnOk result (state_of self.new ≡ open_page (state_of self.old) page) }
        ensures proper { OnOk result (IsProperState self.new) }
        ensures pages { OnOk result (length self.new.pages.items ≡ length self.old.pages.items + 1) }
        ensures says { OnOk result
            (SaysMore self.old.written (words (padding self.old.stage self.old.size ++ page ∷ [])) self.new.written) }
    {
        self.end_page()?;
        self.written.word(page)?;
        self.pages.push(page)?;
        mark(&mut self.marks, page);
        self.stage = Stage::InPage;
        self.at = page * 4096;
        self.size = 0;
        Ok(())
    }

    fn hold(&mut self, number: u64, cell: Cell<'a>) -> Result<(), AsmLineError>
        requires proper { IsProperState self.old }
        requires room { HasRoomFor cell.number cell.takes }
        requires stage { self.old.stage ≡ InPage }
        ensures same { MatchResult result
            (λ _. grown (state_of self.old) 1 ≡ Ok (state_of self.new))
            (StopIs (grown (state_of self.old) 1)) }
        ensures proper { OnOk result (IsProperState self.new) }
        ensures pages { OnOk result (length self.new.pages.items ≤ length self.old.pages.items + 1) }
        ensures says { OnOk result
            (SaysMore self.old.written
            (cell_words number ((self.old.at + 4 * self.old.size + 4) % 2 ^ 32) (cell_of cell.entry))
            self.new.written) }
    {
        if self.size >= 1024 {
            return Err(AsmLineError::Kind(AsmKind::Size));
        }
        let next = self.at.wrapping_add(4 * self.size + 4);
        if self.written.cell(number, next, cell).is_err() {
            return Err(AsmLineError::Memory);
        }
        self.size += 1;
        Ok(())
    }

    fn zeros(&mut self, count: u32) -> Result<(), AsmLineError>
        requires proper { IsProperState self.old }
        requires small { count ≤ 1024 }
        requires stage { self.old.stage ≡ InPage }
        ensures same { MatchResult result
            (λ _. grown (state_of self.old) count ≡ Ok (state_of self.new))
            (StopIs (grown (state_of self.old) count)) }
        ensures proper { OnOk result (IsProperState self.new) }
        ensures pages { OnOk result (length self.new.pages.items ≤ length self.old.pages.items + 1) }
        ensures says { OnOk result (SaysMore self.old.written (words (replicate count 0)) self.new.written) }
    {
        if self.size + count > 1024 {
            return Err(AsmLineError::Kind(AsmKind::Size));
        }
        if self.written.zeros(count).is_err() {
            return Err(AsmLineError::Memory);
        }
        self.size += count;
        Ok(())
    }

    fn name(&mut self, text: &'a [u8]) -> Result<(), AsmLineError>
        requires proper { IsProperState self.old }
        ensures same { MatchResult result
            (λ _. place_statement (state_of self.old) (Names text.now) ≡ Ok (state_of self.new))
            (StopIs (place_statement (state_of self.old) (Names text.now))) }
        ensures proper { OnOk result (IsProperState self.new) }
        ensures pages { OnOk result (length self.new.pages.items ≤ length self.old.pages.items + 1) }
        ensures written { OnOk result (self.new.written ≡ self.old.written) }
    {
        let address = self.at.wrapping_add(4 * self.size);
        self.names.add(text, address)
    }

    // Takes what a line says.
    fn place(&mut self, number: u64, said: Statement<'a>) -> Result<(), AsmLineError>
        requires proper { IsProperState self.old }
        requires within { IsInRange said }
        requires stands { StandsAt self.old.stage (statement_of said) }
        ensures same { MatchResult result
            (λ _. place_statement (state_of self.old) (statement_of said.entry) ≡ Ok (state_of self.new))
            (StopIs (place_statement (state_of self.old) (statement_of said.entry))) }
        ensures proper { OnOk result (IsProperState self.new) }
        ensures pages { OnOk result (length self.new.pages.items ≤ length self.old.pages.items + 1) }
        ensures says { OnOk result
            (SaysMore self.old.written
            (line_words number self.old.stage self.old.at self.old.size (statement_of said.entry)) self.new.written) }
    {
        match said {
            Statement::Blank => Ok(()),
            Statement::Frames(n) => {
                self.stage = Stage::Framed;
                self.frames = n;
                Ok(())
            }
            Statement::Cpus(n) => {
                self.stage = Stage::Header;
                self.cpus = n;
                Ok(())
            }
            Statement::Plans(plan) => self.plan(plan),
            Statement::Begins(page) => self.begin(page),
            Statement::Holds(cell) => self.hold(number, cell),
            Statement::Zeros(count) => self.zeros(count),
            Statement::Names(text) => self.name(text),
        }
    }

    // Takes a line.
    fn take_line(&mut self, number: u64, line: &'a [u8]) -> Result<(), AsmError>
        requires proper { IsProperState self.old }
        ensures same { TakesLine (state_of self.old) number line.now result (state_of self.new) }
        ensures proper { OnOk result (IsProperState self.new) }
        ensures pages { OnOk result (length self.new.pages.items ≤ length self.old.pages.items + 1) }
        ensures bytes { OnOk result (KeepsBytes self.old number line.now self.new) }
    {
        match statement(self.stage, line) {
            Err(kind) => Err(AsmError::Line(number, kind)),
            Ok(said) => match self.place(number, said) {
                Ok(()) => Ok(()),
                Err(AsmLineError::Kind(kind)) => Err(AsmError::Line(number, kind)),
                Err(AsmLineError::Memory) => Err(AsmError::Memory),
            },
        }
    }

    /// The image of a text whose lines were all taken.
    pub fn finish(mut self) -> Result<Vec<u8>, AsmError>
        requires proper { IsProperState self }
        requires pages { length self.pages.items ≤ 2 ^ 24 }
        ensures { MatchResult result
            (λ image. and_then (bytes_ended (address_of_name self.entry.names) self.entry)
            (λ bs. Ok (head_of (state_of self.entry) ++ bs)) ≡ Ok image.items)
            (Refused (bytes_ended (address_of_name self.entry.names) self.entry)) }
    {
        match self.end_page() {
            Ok(()) => self.written.finish(&self.names, self.pages.len() as u32),
            Err(_) => Err(AsmError::Memory),
        }
    }
}

/// What all lines said.
pub fn read_lines(alloc: Global, text: &[u8]) -> Result<Passed<'_>, AsmError>
    requires { length text.now ≤ 2 ^ 24 }
    ensures same { MatchResult result
        (λ p. first_pass first_state 1 (lines_of text.now) ≡ Ok (state_of p))
        (Refused (first_pass first_state 1 (lines_of text.now))) }
    ensures proper { IfOk result IsProperState }
    ensures pages { IfOk result (λ p. length p.pages.items ≤ 2 ^ 24) }
    ensures bytes { IfOk result
        (λ p. (names : List ℕ → Option ℕ) → prefix [] (second_pass names Start 0 0 1 (lines_of text.now))
        ≡ bytes_ended names p) }
{
    let mut passed = match Passed::new(alloc, text) {
        Ok(passed) => passed,
        Err(_) => return Err(AsmError::Memory),
    };
    let mut rest = text;
    let mut number = 1u64;
    while !rest.is_empty() {
        let (line, after) = cut_line(rest);
        passed.take_line(number, line)?;
        rest = after;
        number += 1;
    }
    match passed.stage {
        Stage::Start | Stage::Framed => Err(AsmError::Line(number, AsmKind::Unknown)),
        Stage::Header | Stage::InPage => Ok(passed),
    }
}
