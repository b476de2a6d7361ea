ghost use Rattle.std.specs.Prelude.{IfOk};
ghost use Rattle.pip_base.specs.Opening.{CanOpen};
ghost use Rattle.pip_model.specs.Boot.{zero_words};
ghost use Rattle.pip_model.specs.Booted.{IsBooted};

use crate::met::{alone, ancestors, apart, depends, inputs, left, lists, others};
use pip_base::Steps;
use pip_frames::{Frames, RawFrames};
use pip_kern::boot_zeros;
use std::alloc::{AllocError, Global};
use std::marker::Brand;
use std::sync::ledger::{Blank, Ledger};
use std::test::Fail;

// 64 frames that have booted, with zeros in the root's pages.
fn booted<L: Ledger>(alloc: Global, steps: &mut Steps<L>) -> Result<RawFrames, AllocError>
    ensures booted { IfOk result (λ mem. IsBooted 64 (λ g. zero_words) (⟦<RawFrames as Frames>⟧.memory mem)) }
{
    let mut mem = RawFrames::new(alloc, 64)?;
    boot_zeros(&mut mem, steps);
    Ok(mem)
}

fn check_one<L: Ledger>(rt: &impl AllocGlobal, blank: Blank) -> Result<(), Fail>
    requires blank { CanOpen blank.name blank.parts L.name L.parts }
{
    let mut steps: Steps<L> = Steps::new(blank);
    others(booted(rt.alloc(), &mut steps)?, &mut steps);
    apart(booted(rt.alloc(), &mut steps)?, &mut steps);
    ancestors(booted(rt.alloc(), &mut steps)?, &mut steps);
    Ok(())
}

#[test]
fn a_machine_meets_the_premises_on_one_event(rt: HostRuntime) -> Result<(), Fail> {
    check_one::<Brand>(&rt, Blank::new(1))
}

fn check_two<L: Ledger>(rt: &impl AllocGlobal, blank: Blank) -> Result<(), Fail>
    requires blank { CanOpen blank.name blank.parts L.name L.parts }
{
    let mut steps: Steps<L> = Steps::new(blank);
    let one = booted(rt.alloc(), &mut steps)?;
    depends(one, booted(rt.alloc(), &mut steps)?, &mut steps);
    let one = booted(rt.alloc(), &mut steps)?;
    left(one, booted(rt.alloc(), &mut steps)?, &mut steps);
    Ok(())
}

#[test]
fn two_machines_meet_the_premises_on_one_event(rt: HostRuntime) -> Result<(), Fail> {
    check_two::<Brand>(&rt, Blank::new(1))
}

fn check_lists<L: Ledger>(rt: &impl AllocGlobal, blank: Blank) -> Result<(), Fail>
    requires blank { CanOpen blank.name blank.parts L.name L.parts }
{
    let mut steps: Steps<L> = Steps::new(blank);
    let one = booted(rt.alloc(), &mut steps)?;
    lists(one, booted(rt.alloc(), &mut steps)?, &mut steps);
    let one = booted(rt.alloc(), &mut steps)?;
    inputs(one, booted(rt.alloc(), &mut steps)?, &mut steps);
    let one = booted(rt.alloc(), &mut steps)?;
    crate::met::steps(one, booted(rt.alloc(), &mut steps)?, &mut steps);
    let one = booted(rt.alloc(), &mut steps)?;
    let two = booted(rt.alloc(), &mut steps)?;
    alone(one, two, booted(rt.alloc(), &mut steps)?, &mut steps);
    Ok(())
}

#[test]
fn machines_meet_the_premises_on_lists_of_events(rt: HostRuntime) -> Result<(), Fail> {
    check_lists::<Brand>(&rt, Blank::new(1))
}
