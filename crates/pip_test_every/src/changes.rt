ghost use Rattle.std.specs.Prelude.{◌≡◌, length};
ghost use Rattle.pip_base.specs.Opening.{CanOpen};

use crate::compare::same;
use pip_base::{Frame, Steps};
use pip_every::{First, Journal, copied};
use pip_frames::{Frames, RawFrames};
use pip_switch::Rewind;
use std::alloc::{AllocError, Global};
use std::marker::Brand;
use std::process::Abort;
use std::sync::ledger::{Blank, Ledger};
use std::test::Fail;

// The changes of a journal, in a list of their own.
fn changes_of<F: First, L: Ledger>(
    alloc: Global,
    journal: &Journal<F>,
    steps: &mut Steps<L>,
) -> Result<Vec<u32>, AllocError> {
    let mut list = Vec::new(alloc);
    journal.add_changes(&mut list, steps)?;
    Ok(list)
}

// Compares the changes of a journal.
fn check<F: First, L: Ledger>(
    rt: &(impl Abort + AllocGlobal),
    journal: &Journal<F>,
    list: &[u32],
    steps: &mut Steps<L>,
) -> Result<(), Fail> {
    let changes = changes_of(rt.alloc(), journal, steps)?;
    same(rt, changes.as_slice(), list, "the changes");
    Ok(())
}

// Changes frames beside their first words, which are those of 16 frames, and takes them back.
fn check_journal<F: First, L: Ledger>(
    rt: &(impl Abort + AllocGlobal),
    frames: RawFrames,
    first: RawFrames,
    steps: &mut Steps<L>,
) -> Result<(), Fail>
    requires first { ⟦<RawFrames as Frames>⟧.memory first ≡ F.words }
    requires frames { length (⟦<RawFrames as Frames>⟧.memory frames) ≡ 16 }
    requires count { length F.words ≡ 16 }
{
    let mut journal: Journal<F> = Journal::new(rt.alloc(), frames, first)?;
    check(
        rt,
        &journal,
        &[3 * 1024 + 7, 9, 15 * 1024 + 1023, 0xffffffff],
        steps,
    )?;
    // A word that is written back is no change.
    journal.set_word(Frame::new(3), 7, 0);
    journal.set_word(Frame::new(0), 31, 6);
    check(rt, &journal, &[31, 6, 15 * 1024 + 1023, 0xffffffff], steps)?;
    journal.rewind(&[5 * 1024 + 32, 8], steps);
    check(rt, &journal, &[5 * 1024 + 32, 8], steps)?;
    journal.rewind(&[], steps);
    check(rt, &journal, &[], steps)
}

// Changes copies of 16 frames, and compares them with these.
fn check_changes<L: Ledger>(rt: &(impl Abort + AllocGlobal), blank: Blank) -> Result<(), Fail>
    requires blank { CanOpen blank.name blank.parts L.name L.parts }
{
    let mut steps: Steps<L> = Steps::new(blank);
    let first = RawFrames::new(rt.alloc(), 16)?;
    let mut frames = copied(rt.alloc(), &first, &mut steps)?;
    frames.set_word(Frame::new(15), 1023, 0xffffffff);
    frames.set_word(Frame::new(3), 7, 9);
    check_journal::<Brand, L>(rt, frames, first, &mut steps)
}

#[test]
fn a_journal_lists_the_words_that_changed(rt: HostRuntime) -> Result<(), Fail> {
    check_changes::<Brand>(&rt, Blank::new(1))
}
