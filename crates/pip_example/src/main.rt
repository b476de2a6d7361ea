//! A parent to begin with: it boots a machine, builds two children by calls of the kernel, lets one of them run, and
//! prints what happened. It stands on the libraries alone, and no command of the program pip is in it.
#![tactic(auto)]

ghost use Rattle.std.specs.Prelude.{◌≡◌, ◌<◌, [], ◌∷◌, IfOk, length};
ghost use Rattle.pip_base.specs.Opening.{CanOpen};
ghost use Rattle.pip_model.specs.Answers.{five_of};
ghost use Rattle.pip_model.specs.Events as E;
ghost use Rattle.pip_model.specs.Port.{Follows};
ghost use Rattle.pip_example.specs.Isolated.{StaysIsolated};

use anyhow::Result;
use pip_base::{Outcome, Size, Steps};
use pip_frames::RawFrames;
use pip_kern::boot_zeros;
use pip_model::call_number::{NOT_SAVED, YIELD};
use pip_model::{Port, law_reach};
use pip_parent::{Want, build, need};
use pip_switch::Machine;
use std::alloc::{AllocError, Global};
use std::marker::Brand;
use std::sync::ledger::{Blank, Ledger};

/// What each child is to have: a page of data, and the page in which a partition's contexts are.
const WANTS: [Want; 2] = [
    Want {
        va: 0x10000000,
        rights: 3,
    },
    Want {
        va: 0xfffff000,
        rights: 3,
    },
];

fn main(rt: HostRuntime) -> Result<()> {
    show::<Brand>(&rt, Blank::new(1))
}

fn show<L: Ledger>(rt: &(impl Print + AllocGlobal), blank: Blank) -> Result<()>
    requires blank { CanOpen blank.name blank.parts L.name L.parts }
{
    let mut steps: Steps<L> = Steps::new(blank);
    let mut machine = new_machine(rt.alloc(), &mut steps)?;
    println!(rt; "a child with two pages takes {}", need(&WANTS))?;

    // The first child is built of the root's pages from 0x401000 on. Those at places 8 and 12 become the pages that it
    // wants.
    machine.store(0, 0x00409000, Size::Word, 42, &mut steps);
    // For vector 64 the address of a block, and in that the address at which it begins.
    machine.store(0, 0x0040d100, Size::Word, 0xfffff400, &mut steps);
    machine.store(0, 0x0040d400, Size::Word, 0x10000000, &mut steps);
    let first = build(&mut machine, 0, &pages(0x00401000), &WANTS, &mut steps)?;
    println!(rt;
        "built the child 0x{:x} of {} pages",
        first.child, first.used
    )?;
    let second = build(&mut machine, 0, &pages(0x0040e000), &WANTS, &mut steps)?;
    println!(rt;
        "built the child 0x{:x} of {} pages",
        second.child, second.used
    )?;

    // yield: to that child, by vector 64, and what the root does isn't saved.
    let yielded = let_run(&mut machine, first.child, &mut steps);
    println!(rt; "the root yields: {yielded:?}")?;
    let own = machine.load(0, 0x10000000, Size::Word, &mut steps);
    println!(rt; "the child loads from its page: {own:?}")?;
    let none = machine.load(0, 0x20000000, Size::Word, &mut steps);
    println!(rt; "it loads where it has none: {none:?}")?;
    Ok(())
}

// Lets a child run by its handler of vector 64; the caller isn't saved. What is promised here follows from the
// machine's contract alone, whatever machine it is: the yield does what the model says, and, by a law of the model, no
// access of any partition of the machine that is left reaches what the kernel keeps of a partition.
fn let_run<P: Port, L: Ledger>(port: &mut P, child: u32, steps: &mut Steps<L>) -> Outcome
    requires { 0 < P.count port.old }
    ensures yields { Follows (P.stands port.old) (P.stands port.new)
        (E.Call 0 8 (five_of (child ∷ 64 ∷ 256 ∷ 0 ∷ 0 ∷ []))) result }
    ensures isolated { StaysIsolated (P.stands port.new) }
{
    law_reach();
    port.call(0, YIELD, &[child, 64, NOT_SAVED, 0, 0], steps)
}

// A machine of 64 frames and one processor, which runs the root. The root's pages are at 0x400000 and on.
fn new_machine<L: Ledger>(
    alloc: Global,
    steps: &mut Steps<L>,
) -> std::result::Result<Machine<RawFrames>, AllocError>
    ensures { IfOk result (λ m. length m.cpus ≡ 1) }
{
    let mut mem = RawFrames::new(alloc, 64)?;
    boot_zeros(&mut mem, steps);
    Ok(Machine::new(mem, 1))
}

// The addresses of 13 pages, one after the other.
fn pages(first: u32) -> [u32; 13] {
    let mut pool = [0; 13];
    let mut at = first;
    for place in 0..13 {
        pool[place] = at;
        at = at.wrapping_add(4096);
    }
    pool
}
