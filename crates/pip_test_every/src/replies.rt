//! What a search says of whether all outside looks away, of a root whose instructions are the first three words of
//! frame 12.
ghost use Rattle.std.specs.Prelude.{◌≡◌, length};
ghost use Rattle.pip_base.specs.Memory.{IsMemory};
ghost use Rattle.pip_base.specs.Opening.{CanOpen};
ghost use Rattle.pip_model.specs.Booted.{HasBooted};

use crate::compare::{holds, same};
use crate::searches::{SHOWS, root_with};
use pip_away::PageWord;
use pip_base::Steps;
use pip_every::{Asked, Away, First, Journal, search_on};
use pip_frames::{Frames, RawFrames};
use pip_switch::Machine;
use std::alloc::{AllocError, Global};
use std::marker::Brand;
use std::process::Abort;
use std::sync::ledger::{Blank, Ledger};
use std::test::Fail;

// What is said of frames that have booted with one processor, by a search as deep as `most`.
fn ask_on<F: First, L: Ledger>(
    alloc: Global,
    mem: RawFrames,
    later: RawFrames,
    asked: &Asked,
    most: u32,
    blank: Blank,
) -> Result<Option<Away>, AllocError>
    requires first { ⟦<RawFrames as Frames>⟧.memory later ≡ F.words }
    requires shape { IsMemory F.words }
    requires count { length (⟦<RawFrames as Frames>⟧.memory mem) ≡ length F.words }
    requires blank { CanOpen blank.name blank.parts L.name L.parts }
    requires booted { HasBooted (⟦<RawFrames as Frames>⟧.memory mem) }
{
    let steps: Steps<L> = Steps::new(blank);
    let journal: Journal<F> = Journal::new(alloc, mem, later)?;
    let machine = Machine::new(journal, 1);
    let may = Vec::new(alloc);
    let (_search, _extent, replies) = search_on(
        alloc,
        machine,
        &[],
        0,
        may,
        asked,
        most,
        100,
        steps,
    )?;
    Ok(replies.away)
}

// What is said of that root.
fn ask(alloc: Global, asked: &Asked, most: u32) -> Result<Option<Away>, AllocError> {
    let mem = root_with(alloc, &SHOWS)?;
    let later = root_with(alloc, &[])?;
    ask_on::<Brand, Brand>(alloc, mem, later, asked, most, Blank::new(1))
}

// What is said of it where the words of a page are left out, but for the first `seen`.
fn say(rt: &impl AllocGlobal, page: u32, seen: u32, most: u32) -> Result<Option<Away>, Fail> {
    let mut asked = Asked::new();
    asked.blind.pages.try_push(page)?;
    for index in 0..seen {
        asked.blind.seen.try_push(PageWord { page, index })?;
    }
    let said = ask(rt.alloc(), &asked, most)?;
    Ok(said)
}

// Asserts that the moment after this many turns is the first that reads one.
fn check_no(rt: &(impl Abort + AllocGlobal), seen: u32) -> Result<(), Fail> {
    match say(rt, 12, seen, 100)? {
        Some(Away::No { way, cpu }) => {
            same(rt, cpu, 0, "the processor");
            same(rt, way.len(), if seen == 0 { 0 } else { 1 }, "the way");
            for run in way.as_slice() {
                same(rt, run.choice, 0, "the choice");
                same(rt, run.count, seen, "the turns");
            }
        }
        _ => holds(rt, false, "a turn that reads a word"),
    }
    Ok(())
}

#[test]
fn nothing_is_said_where_nothing_is_left_out(rt: HostRuntime) -> Result<(), Fail> {
    let said = ask(rt.alloc(), &Asked::new(), 100)?;
    assert!(rt; said.is_none());
    Ok(())
}

#[test]
fn a_root_looks_away_from_words_that_it_never_reads(rt: HostRuntime) -> Result<(), Fail> {
    assert!(rt; matches!(say(&rt, 13, 0, 100)?, Some(Away::Yes)));
    assert!(rt; matches!(say(&rt, 12, 3, 100)?, Some(Away::Yes)));
    Ok(())
}

#[test]
fn the_first_moment_that_reads_a_word_is_told(rt: HostRuntime) -> Result<(), Fail> {
    for seen in 0..3 {
        check_no(&rt, seen)?;
    }
    Ok(())
}

#[test]
fn a_search_that_did_not_close_says_nothing(rt: HostRuntime) -> Result<(), Fail> {
    assert!(rt; matches!(say(&rt, 13, 0, 1)?, Some(Away::Unknown)));
    Ok(())
}
