//! What runs on processors, as words.
ghost use Rattle.std.specs.Prelude.{◌≡◌, ◌+◌, ◌-◌, ◌<◌, ◌≤◌, ◌^◌, ◌++◌, ℕ, List, Option, IfOk, length};
ghost use Rattle.std.specs.Prelude.{option_map, replicate, slice_index};
ghost use Rattle.pip_model.specs.declared.processors.Occupant.{Occupant};
ghost use Rattle.pip_every.specs.Keys as keys;
ghost use Rattle.pip_every.specs.Keys.{processor_words, running_words};
ghost use Rattle.pip_switch.specs.Occupied.{part_on};
ghost use Rattle.pip_every.specs.Reading as reading;
ghost use Rattle.pip_every.specs.Reading.{HoldRegisters, StartsWithOne, StartsWithAll};

use arrayvec::ArrayVec;
use pip_base::{Ctx, Frame};
use pip_model::Occupant;
use pip_switch::Processors;
use std::alloc::AllocError;

// How many registers there are before those that are 0 at the end.
fn used(regs: &[u32; 16]) -> usize
    ensures used { result ≡ keys.used regs.now }
    ensures most { result ≤ 16 }
{
    let mut count = regs.len();
    while count > 0 && regs[count - 1] == 0 {
        count -= 1;
    }
    count
}

// Adds the words of what runs on a processor. The only error is that memory is out.
fn add_running(runs: &Option<Occupant>, to: &mut Vec<u32>) -> Result<(), AllocError>
    ensures { IfOk result (λ _. to.new.items ≡ to.old.items ++ running_words runs.now) }
{
    match runs {
        Some(r) => {
            to.push(r.name.number())?;
            to.push(r.ctx.pc)?;
            let count = used(&r.ctx.regs);
            to.push(count as u32)?;
            to.extend_from_slice(&r.ctx.regs[..count])
        }
        None => {
            to.push(0)?;
            Ok(())
        }
    }
}

/// Adds the words of what runs on processors. The only error is that memory is out.
pub fn add_processors(cpus: &[Option<Occupant>], to: &mut Vec<u32>) -> Result<(), AllocError>
    ensures { IfOk result (λ _. to.new.items ≡ to.old.items ++ processor_words cpus.now) }
{
    for runs in cpus {
        add_running(runs, to)?;
    }
    Ok(())
}

// Registers, by their words; those after them are 0.
fn read_registers(words: &[u32]) -> [u32; 16]
    requires { length words.now ≤ 16 }
    ensures { result ≡ words.now ++ replicate (16 - length words.now) 0 }
{
    let mut regs = [0; 16];
    regs[..words.len()].copy_from_slice(words);
    regs
}

// A partition that runs, by its words.
fn read_occupant(words: &[u32]) -> Occupant
    requires registers { HoldRegisters words.now }
    requires name { slice_index words.now 0 < 2 ^ 20 }
    ensures { result ≡ reading.read_occupant words.now }
{
    let end = 3 + words[2] as usize;
    Occupant {
        name: Frame::new(words[0]),
        ctx: Ctx {
            pc: words[1],
            regs: read_registers(&words[3..end]),
        },
    }
}

// What runs on a processor, by words that begin with its own, and the words after them.
fn read_running(words: &[u32]) -> (Option<Occupant>, &[u32])
    requires { (o : Option Occupant) × ((rest : List ℕ) × StartsWithOne words.now o rest) }
    ensures { (o : Option Occupant) (rest : List ℕ) → StartsWithOne words.now o rest
        → (result.0 ≡ o) × (result.1.now ≡ rest) }
{
    if words[0] == 0 {
        return (None, &words[1..]);
    }
    let end = 3 + words[2] as usize;
    (Some(read_occupant(words)), &words[end..])
}

/// What runs on `count` processors, by words that begin with theirs, and the words after them.
pub fn read_processors(words: &[u32], count: u32) -> (Processors, &[u32])
    requires begins { (os : List (Option Occupant)) × ((rest : List ℕ) × StartsWithAll words.now count os rest) }
    requires most { count ≤ 4 }
    ensures { (os : List (Option Occupant)) (rest : List ℕ) → StartsWithAll words.now count os rest
        → (result.0.items ≡ os) × (result.1.now ≡ rest) }
{
    let mut cpus = ArrayVec::new();
    let mut rest = words;
    for _i in 0..count {
        let (runs, more) = read_running(rest);
        cpus.push(runs);
        rest = more;
    }
    (cpus, rest)
}

// The words after those of what runs on a processor, by words that begin with these.
fn after_running(words: &[u32]) -> &[u32]
    requires { (o : Option Occupant) × ((rest : List ℕ) × StartsWithOne words.now o rest) }
    ensures { (o : Option Occupant) (rest : List ℕ) → StartsWithOne words.now o rest → result.now ≡ rest }
{
    if words[0] == 0 {
        return &words[1..];
    }
    &words[3 + words[2] as usize..]
}

// The partition that runs on a processor, if one does, by words that begin with its own.
fn first_name(words: &[u32]) -> Option<Frame>
    requires { (o : Option Occupant) × ((rest : List ℕ) × StartsWithOne words.now o rest) }
    ensures { (o : Option Occupant) (rest : List ℕ) → StartsWithOne words.now o rest
        → result ≡ option_map (λ r. r.name) o }
{
    if words[0] == 0 {
        return None;
    }
    Some(Frame::new(words[0]))
}

/// The partition that runs on a processor, if one does, by words that begin with those of `count` processors.
pub(crate) fn name_at(words: &[u32], count: u32, cpu: u32) -> Option<Frame>
    requires begins { (os : List (Option Occupant)) × ((rest : List ℕ) × StartsWithAll words.now count os rest) }
    requires cpu { cpu < count }
    ensures { (os : List (Option Occupant)) (rest : List ℕ) → StartsWithAll words.now count os rest
        → result ≡ part_on os cpu }
{
    let mut rest = words;
    for _i in 0..cpu {
        rest = after_running(rest);
    }
    first_name(rest)
}
