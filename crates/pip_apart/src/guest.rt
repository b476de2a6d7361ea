//! A machine as a system of the turns of one guest alone.
ghost use Rattle.std.specs.Prelude.{◌≡◌, ◌==◌, ◌&&◌, ◌<◌, ◌≤◌, ◌++◌, All, length, IfOk};
ghost use Rattle.pip_base.specs.Memory.{IsMemory};
ghost use Rattle.pip_model.specs.InstrRead.{instr_of};
ghost use Rattle.pip_model.specs.Effects.{word_effect};
ghost use Rattle.pip_model.specs.Worlds.{World};
ghost use Rattle.pip_search.specs.Systems.{IsKey};
ghost use Rattle.pip_switch.specs.Standing.{StandsAs};
ghost use Rattle.pip_every.specs.Choosing.{IsAtWorld};
ghost use Rattle.pip_every.specs.Keys.{IsKeyOf, key_words};
ghost use Rattle.pip_apart.specs.Alone.{guest_model, turns_scope};
ghost use Rattle.pip_apart.specs.Company.{runs_below};
ghost use Rattle.pip_apart.specs.Kept.{asks_next, yields_by};
ghost use Rattle.pip_apart.specs.Machines.{HasTurned};
ghost use Rattle.pip_apart.specs.Tops.{processors_of};

use crate::guests::processors_of;
use pip_base::{Ctx, Frame, Outcome, Steps};
use pip_cpu::{Effect, effect_of, turn};
use pip_every::{First, Journal, Label, add_processors, read_processors, seed_of};
use pip_frames::Frames;
use pip_isa::decode;
use pip_kern::is_below;
use pip_model::Port;
use pip_model::call_number::YIELD;
use pip_search::System;
use pip_switch::Machine;
use std::alloc::{AllocError, Global};
use std::sync::ledger::Ledger;

// Names the caller of a turn.
struct Turning;

/// What stands before the line of a turn in which the guest leaves.
pub(crate) const MARK: u8 = 33;

/// A machine that goes from world to world of a search, by turns of the processors `cpus`, on which the guest `top`
/// runs.
#[derive(Drop)]
pub struct Guest<F: First, L: Ledger> {
    machine: Machine<Journal<F>>,
    top: Frame,
    cpus: Vec<u32>,
    label: Label,
    seed: u64,
    steps: Steps<L>,
    ghost shape: { IsMemory F.words },
    ghost there: { All (λ cpu. cpu < length machine.cpus) cpus.items },
    ghost few: { length cpus.items ≤ 4 },
}

// Whether a word is an instruction that yields.
fn is_yield(ctx: &Ctx, word: u32) -> bool
    ensures { result ≡ yields_by (word_effect ctx.now word (instr_of word)) }
{
    match decode(word) {
        None => false,
        Some(instr) => match effect_of(ctx, &instr) {
            Effect::Calls { number } => number == YIELD,
            _ => false,
        },
    }
}

impl<F: First, L: Ledger> Guest<F, L> {
    /// The guest `top` of a machine, which runs on these processors, 4 at most.
    pub fn new(
        alloc: Global,
        machine: Machine<Journal<F>>,
        top: Frame,
        cpus: Vec<u32>,
        steps: Steps<L>,
    ) -> Guest<F, L>
        requires shape { IsMemory F.words }
        requires there { All (λ cpu. cpu < length machine.cpus) cpus.items }
        requires few { length cpus.items ≤ 4 }
        ensures machine { result.machine ≡ machine }
        ensures top { result.top ≡ top }
        ensures cpus { result.cpus ≡ cpus }
    {
        let mut steps = steps;
        let seed = seed_of(machine.mem(), &mut steps);
        Guest {
            machine,
            top,
            cpus,
            label: Label::new(alloc),
            seed,
            steps,
        }
    }

    /// Adds the key of the worlds at which the machine is now. The only error is that memory is out.
    pub fn add_key(&mut self, to: &mut Vec<u32>) -> Result<(), AllocError>
        ensures key { IfOk result (λ _. to.new.items
            ≡ to.old.items ++ key_words F.words 0 self.old.machine.cpus self.old.machine.memory) }
        ensures count { IfOk result (λ _. length self.old.machine.memory ≡ length F.words) }
        ensures machine { self.new.machine ≡ self.old.machine }
        ensures top { self.new.top ≡ self.old.top }
        ensures cpus { self.new.cpus ≡ self.old.cpus }
    {
        to.push(0)?;
        add_processors(self.machine.processors(), to)?;
        self.machine.mem().add_changes(to, &mut self.steps)
    }

    /// Turns to another guest of its machine: its top and its processors, 4 at most.
    pub fn aim(&mut self, top: Frame, cpus: Vec<u32>)
        requires there { All (λ cpu. cpu < length self.old.machine.cpus) cpus.items }
        requires few { length cpus.items ≤ 4 }
        ensures machine { self.new.machine ≡ self.old.machine }
        ensures top { self.new.top ≡ top }
        ensures cpus { self.new.cpus ≡ cpus }
    {
        self.top = top;
        self.cpus = cpus;
    }

    /// The processors on which a guest runs, at the worlds at which the machine is now. The only error is that memory
    /// is out.
    pub fn find_processors(&mut self, alloc: Global, top: Frame) -> Result<Vec<u32>, AllocError>
        requires stands { (w : World) × StandsAs self.old.machine w }
        ensures are { IfOk result (λ r. (w : World) → StandsAs self.old.machine w → r.items ≡ processors_of w top) }
        ensures there { IfOk result (λ r. All (λ cpu. cpu < length self.old.machine.cpus) r.items) }
        ensures few { IfOk result (λ r. length r.items ≤ length self.old.machine.cpus) }
        ensures machine { self.new.machine ≡ self.old.machine }
        ensures top { self.new.top ≡ self.old.top }
        ensures cpus { self.new.cpus ≡ self.old.cpus }
    {
        processors_of(alloc, &self.machine, top, &mut self.steps)
    }

    // Takes the machine to the worlds that have a key.
    pub(crate) fn go_to(&mut self, key: &[u32])
        requires { IsKey (guest_model F.words (length self.old.machine.cpus) self.old.top self.old.cpus.items) key.now }
        ensures at { (w : World) → IsKeyOf F.words (turns_scope (length self.old.machine.cpus)) key.now
            (record { world = w; turns = 0 }) → IsAtWorld self.new.machine w }
        ensures count { length self.new.machine.cpus ≡ length self.old.machine.cpus }
        ensures top { self.new.top ≡ self.old.top }
        ensures cpus { self.new.cpus ≡ self.old.cpus }
    {
        let (cpus, words) = read_processors(&key[1..], self.machine.cpus());
        self.machine.rewind(words, cpus, &mut self.steps);
    }

    // Whether a partition of the guest runs on a processor.
    fn runs_guest(&mut self, cpu: u32) -> bool
        requires cpu { cpu < length self.old.machine.cpus }
        requires stands { (w : World) × StandsAs self.old.machine w }
        ensures runs { (w : World) → StandsAs self.old.machine w → result ≡ runs_below w self.old.top cpu }
        ensures machine { self.new.machine ≡ self.old.machine }
        ensures top { self.new.top ≡ self.old.top }
        ensures cpus { self.new.cpus ≡ self.old.cpus }
        ensures label { self.new.label ≡ self.old.label }
    {
        match self.machine.runs(cpu) {
            Some(part) => is_below(self.machine.mem(), part, self.top, &mut self.steps),
            None => false,
        }
    }

    // Whether the top of the guest would yield to its parent in the next turn of a processor. The machine may then be
    // elsewhere: it fetches where that can be.
    fn asks(&mut self, cpu: u32) -> bool
        requires cpu { cpu < length self.old.machine.cpus }
        ensures asks { (w : World) → StandsAs self.old.machine w → result ≡ asks_next self.old.top w cpu }
        ensures count { length self.new.machine.cpus ≡ length self.old.machine.cpus }
        ensures top { self.new.top ≡ self.old.top }
        ensures cpus { self.new.cpus ≡ self.old.cpus }
    {
        match self.machine.runs(cpu) {
            Some(part) => {
                if part != self.top {
                    return false;
                }
            }
            None => return false,
        }
        let ctx = match self.machine.ctx(cpu) {
            Some(ctx) => *ctx,
            None => return false,
        };
        if ctx.regs[1] != 0 {
            return false;
        }
        match self.machine.fetch(cpu, &mut self.steps) {
            Outcome::Word(word) => is_yield(&ctx, word),
            _ => false,
        }
    }

    // Has a processor take its turn, and answers whether the guest ran there before it and after it, and asked nobody.
    // What the turn shows is in the label. The only error is that memory is out.
    fn take_turn(&mut self, cpu: u32, asks: bool) -> Result<bool, AllocError>
        requires cpu { cpu < length self.old.machine.cpus }
        requires stands { (w : World) × StandsAs self.old.machine w }
        ensures turned { IfOk result (λ kept. (w : World) → StandsAs self.old.machine w
            → HasTurned w self.old.top cpu asks self.new.machine self.new.label.bytes.items kept) }
        ensures count { length self.new.machine.cpus ≡ length self.old.machine.cpus }
        ensures top { self.new.top ≡ self.old.top }
        ensures cpus { self.new.cpus ≡ self.old.cpus }
    {
        self.label.clear();
        let before = self.runs_guest(cpu);
        let machine = &mut self.machine;
        match turn::<Turning, Machine<Journal<F>>, Label, L>(
            machine,
            cpu,
            0,
            &mut self.label,
            &mut self.steps,
        ) {
            Ok(_) => {
                let after = self.runs_guest(cpu);
                Ok(before && (!asks && after))
            }
            Err(_) => Err(AllocError),
        }
    }
}

impl<F: First, L: Ledger> System for Guest<F, L> {
    ghost use Rattle.std.specs.Prelude.{◌≡◌, ◌<◌, IfOk, length};
    ghost use Rattle.pip_search.specs.Systems.{IsKey};
    ghost use Rattle.pip_apart.specs.Alone.{guest_model};
    ghost use Rattle.pip_apart.specs.Machines.{Alone};

    ghost Base = { Alone };

    ghost base = { λ s. record { machine = length s.machine.cpus; top = s.top; cpus = s.cpus.items } };

    ghost model = { λ b. guest_model F.words b.machine b.top b.cpus };

    fn count(&self) -> u32 {
        self.cpus.len() as u32
    }

    fn seed(&self) -> u64 {
        self.seed
    }

    fn make(
        &mut self,
        from: &[u32],
        choice: u32,
        to: &mut Vec<u32>,
        shown: &mut Vec<u8>,
    ) -> Result<(), AllocError> {
        to.clear();
        shown.clear();
        let cpu = self.cpus[choice as usize];
        self.go_to(from);
        let asks = self.asks(cpu);
        self.go_to(from);
        let kept = self.take_turn(cpu, asks)?;
        if kept {
            shown.extend_from_slice(self.label.bytes())?;
            return self.add_key(to);
        }
        shown.push(MARK)?;
        shown.extend_from_slice(self.label.bytes())?;
        to.extend_from_slice(from)
    }
}
