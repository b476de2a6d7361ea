//! Words that frames will hold later.
ghost use Rattle.std.specs.Prelude.{◌≡◌, ◌<◌, ◌≤◌, IfOk, length};
ghost use Rattle.pip_base.specs.Memory.{IsMemory};
ghost use Rattle.pip_base.specs.Opening.{CanOpen};
ghost use Rattle.pip_model.specs.Booted.{HasBooted};

use crate::journals::copied;
use crate::label::Label;
use pip_base::{Frame, Steps, WORDS};
use pip_cpu::turn;
use pip_frames::{Frames, RawFrames};
use pip_model::Port;
use pip_switch::Machine;
use std::alloc::{AllocError, Global};
use std::sync::ledger::{Blank, Ledger};

/// How many turns each processor has before words are noted.
const TURNS: u32 = 1000;

/// How many times words are noted.
const TIMES: u32 = 4;

// Has each processor take its turn. The only error is that memory is out.
fn advance<L: Ledger>(
    machine: &mut Machine<RawFrames>,
    label: &mut Label,
    steps: &mut Steps<L>,
) -> Result<(), AllocError> {
    for cpu in 0..machine.cpus() {
        label.clear();
        match turn::<(), Machine<RawFrames>, Label, L>(machine, cpu, 0, label, steps) {
            Ok(_) => {}
            Err(_) => return Err(AllocError),
        }
    }
    Ok(())
}

// Has the processors take many turns. The only error is that memory is out.
fn advance_far<L: Ledger>(
    machine: &mut Machine<RawFrames>,
    label: &mut Label,
    steps: &mut Steps<L>,
) -> Result<(), AllocError> {
    for _ in 0..TURNS {
        advance(machine, label, steps)?;
    }
    Ok(())
}

// Notes the words of a frame that aren't 0.
fn note_frame<L: Ledger>(from: &RawFrames, to: &mut RawFrames, frame: Frame, steps: &mut Steps<L>)
    requires from { frame < length from.now.block.frames }
    requires to { frame < length to.old.block.frames }
    requires shape { IsMemory to.old.block.frames }
    ensures count { length to.new.block.frames ≡ length to.old.block.frames }
    ensures shape { IsMemory to.new.block.frames }
{
    for i in 0..WORDS {
        let word = from.word(frame, i, steps);
        if word != 0 {
            to.set_word(frame, i, word);
        }
    }
}

/// Notes the words of frames that aren't 0.
pub fn note_words<L: Ledger>(from: &RawFrames, to: &mut RawFrames, steps: &mut Steps<L>)
    requires shape { IsMemory to.old.block.frames }
    ensures count { length to.new.block.frames ≡ length to.old.block.frames }
    ensures shape { IsMemory to.new.block.frames }
{
    for f in 0..from.count().min(to.count()) {
        note_frame(from, to, Frame::new(f), steps);
    }
}

/// That many frames, 16 to 4096, with words that a machine over as many will hold later: of each word the last that
/// isn't 0 of those noted. Keys that compare with these are short: a root's tables stay once built, even those that it
/// takes down again. The only error is that memory is out.
pub fn words_later<L: Ledger>(
    alloc: Global,
    count: u32,
    machine: Machine<RawFrames>,
    steps: Steps<L>,
) -> Result<RawFrames, AllocError>
    requires least { 16 ≤ count }
    requires most { count ≤ 4096 }
    ensures count { IfOk result (λ r. length (⟦<RawFrames as Frames>⟧.memory r) ≡ count) }
    ensures shape { IfOk result (λ r. IsMemory (⟦<RawFrames as Frames>⟧.memory r)) }
{
    let (mut machine, mut steps) = (machine, steps);
    let mut later = RawFrames::new(alloc, count)?;
    note_words(machine.mem(), &mut later, &mut steps);
    let mut label = Label::new(alloc);
    for _ in 0..TIMES {
        advance_far(&mut machine, &mut label, &mut steps)?;
        note_words(machine.mem(), &mut later, &mut steps);
    }
    Ok(later)
}

// Those of a machine over these frames, which have booted. The only error is that memory is out.
pub(crate) fn booted_later<L: Ledger>(
    alloc: Global,
    mem: &RawFrames,
    cpus: u32,
    blank: Blank,
) -> Result<RawFrames, AllocError>
    requires ledger { CanOpen blank.name blank.parts L.name L.parts }
    requires booted { HasBooted (⟦<RawFrames as Frames>⟧.memory mem.now) }
    requires least { 1 ≤ cpus }
    requires most { cpus ≤ 4 }
    ensures count { IfOk result (λ r. length (⟦<RawFrames as Frames>⟧.memory r)
        ≡ length (⟦<RawFrames as Frames>⟧.memory mem.now)) }
    ensures shape { IfOk result (λ r. IsMemory (⟦<RawFrames as Frames>⟧.memory r)) }
{
    let mut steps: Steps<L> = Steps::new(blank);
    let machine = Machine::new(copied(alloc, mem, &mut steps)?, cpus);
    words_later(alloc, mem.count(), machine, steps)
}
