//! A root that has no instruction: it fetches the first word of frame 12, and as it takes no trap itself, it is saved
//! where its entry for vector 63 says, in its last page, frame 15.
ghost use Rattle.std.specs.Prelude.{◌≤◌, length};
ghost use Rattle.pip_base.specs.Opening.{CanOpen};

use crate::compare::same;
use crate::searches::root_with;
use pip_away::{Blind, PageWord};
use pip_base::Steps;
use pip_every::looks_away;
use pip_switch::Machine;
use std::alloc::{AllocError, Global};
use std::marker::Brand;
use std::process::Abort;
use std::sync::ledger::{Blank, Ledger};
use std::test::Fail;

// Whether the first turn of a root with a program passes the test where these words are left out.
fn passes<L: Ledger>(
    alloc: Global,
    program: &[u32],
    blind: &Blind,
    blank: Blank,
) -> Result<bool, AllocError>
    requires blank { CanOpen blank.name blank.parts L.name L.parts }
    requires few { length program.now ≤ 1024 }
{
    let mem = root_with(alloc, program)?;
    let mut steps: Steps<L> = Steps::new(blank);
    let mut machine = Machine::new(mem, 1);
    Ok(looks_away(&mut machine, blind, &[], 0, &mut steps))
}

// The same, with steps of its own.
fn passes_once(alloc: Global, program: &[u32], blind: &Blind) -> Result<bool, AllocError>
    requires few { length program.now ≤ 1024 }
{
    passes::<Brand>(alloc, program, blind, Blank::new(1))
}

// Compares that, where the words of a page are left out but for one.
fn check(
    rt: &(impl Abort + AllocGlobal),
    page: u32,
    seen: u32,
    wanted: bool,
    of: &str,
) -> Result<(), Fail> {
    let mut blind = Blind::new();
    blind.pages.try_push(page)?;
    blind.seen.try_push(PageWord { page, index: seen })?;
    let away = passes_once(rt.alloc(), &[0], &blind)?;
    same(rt, away, wanted, of);
    Ok(())
}

#[test]
fn a_turn_reads_its_instruction_and_an_entry(rt: HostRuntime) -> Result<(), Fail> {
    check(&rt, 13, 0, true, "a page that isn't read")?;
    check(&rt, 12, 1, false, "the instruction")?;
    check(
        &rt,
        12,
        0,
        true,
        "a page of which the instruction alone is read",
    )?;
    check(&rt, 15, 0, false, "the entry of vector 63")?;
    check(
        &rt,
        15,
        63,
        true,
        "a page of which this entry alone is read",
    )
}
