//! A machine: frames, processors, and their translation caches.
ghost use Rattle.std.specs.Prelude.{◌≡◌, ◌<◌, ◌≤◌, ℕ, length, option_map};
ghost use Rattle.pip_model.specs.Booted.{HasBooted, IsBooted};
ghost use Rattle.pip_model.specs.Cache.{all_emptied, cache_at};
ghost use Rattle.pip_model.specs.Worlds.{World, boot_world_with, runs_on};
ghost use Rattle.pip_switch.specs.Rewinding.{ArePlaces, rewritten};
ghost use Rattle.pip_switch.specs.Standing.{HasCachedWorld, HasWorld, StandsAs};

use crate::caches::{Caches, empty_all, new_caches};
use crate::processors::{Processors, boot_processors, context_on, runner};
use crate::rewinding::Rewind;
use crate::{calls, contexts, events, lines};
use arrayvec::ArrayVec;
use pip_base::{Ctx, Frame, Outcome, Size, Steps, WORDS};
use pip_frames::Frames;
use pip_model::{Occupant, Port, Register};
use std::marker::Model;
use std::sync::ledger::Ledger;

/// Frames, and 1 to 4 processors with a translation cache each: docs/MODEL.md, "Worlds and processors". The frames
/// always lay out a sound tree, what runs is in it, and what the caches hold is what the tree says now.
#[derive(Drop)]
pub struct Machine<M: Frames> {
    mem: M,
    cpus: Processors,
    caches: Caches,
    ghost world: { ∥ HasCachedWorld (M.memory mem) cpus.items caches.items ∥₁ },
}

impl<M: Frames> Model for Machine<M> {
    ghost use Rattle.pip_switch.specs.Standing.{HasCachedWorld, State};

    ghost Value = { State };

    ghost view = { λ m. record {
      memory = M.memory m.mem;
      cpus = m.cpus.items;
      caches = m.caches.items;
      world = m.world;
    } };

    ghost invariant = { λ m. HasCachedWorld (M.memory m.mem) m.cpus.items m.caches.items };
}

impl<M: Frames> Machine<M> {
    /// A machine over frames that lay out the boot tree (docs/MODEL.md, "The boot tree"), whatever the root's pages
    /// hold. Processor 0 of 1 to 4 runs the root at 0x400000 with all registers 0, and the others run nothing.
    pub fn new(mem: M, cpus: u32) -> Machine<M>
        requires booted { HasBooted (M.memory mem) }
        requires least { 1 ≤ cpus }
        requires most { cpus ≤ 4 }
        ensures stands { (n : ℕ) (words : ℕ → ℕ → ℕ) → IsBooted n words (M.memory mem) →
            StandsAs result (boot_world_with words n cpus) }
        ensures count { length result.cpus ≡ cpus }
    {
        let caches = new_caches(cpus);
        let cpus = boot_processors(cpus);
        Machine { mem, cpus, caches }
    }

    /// The frames.
    pub fn mem(&self) -> &M
        ensures { M.memory result.now ≡ self.now.memory }
    {
        &self.mem
    }

    /// What runs on each processor.
    pub fn processors(&self) -> &[Option<Occupant>]
        ensures { result.now ≡ self.now.cpus }
    {
        self.cpus.as_slice()
    }

    /// The partition that runs on a processor. None exactly where it runs nothing.
    pub fn runs(&self, cpu: u32) -> Option<Frame>
        requires { cpu < length self.now.cpus }
        ensures { (w : World) → StandsAs self.now w → result ≡ option_map (λ r. r.name) (runs_on w cpu) }
    {
        runner(&self.cpus, cpu)
    }

    /// How many translations of a processor hit its cache and how many missed, each at most 2^64 - 1: docs/MODEL.md,
    /// "Translation caches".
    pub fn counts(&self, cpu: u32) -> (u64, u64)
        requires { cpu < length self.now.cpus }
        ensures { (w : World) → StandsAs self.now w → let c = cache_at w.caches cpu in result ≡ (c.hits, c.misses) }
    {
        self.caches[cpu as usize].counts()
    }
}

impl<M: Rewind> Machine<M> {
    /// Takes the machine to another world: its frames get their first words with some others written over them
    /// (`Rewind`), and its processors what `cpus` has. All caches are emptied.
    pub fn rewind<L: Ledger>(
        &mut self,
        words: &[u32],
        cpus: ArrayVec<Option<Occupant>, 4>,
        steps: &mut Steps<L>,
    )
        requires places { ArePlaces (length M.first) words.now }
        requires count { length cpus.items ≡ length self.old.cpus }
        requires world { HasWorld (rewritten M.first words.now) cpus.items }
        ensures memory { self.new.memory ≡ rewritten M.first words.now }
        ensures cpus { self.new.cpus ≡ cpus.items }
        ensures caches { self.new.caches ≡ all_emptied self.old.caches }
    {
        self.mem.rewind(words, steps);
        self.cpus = cpus;
        empty_all(&mut self.caches);
    }
}

impl<M: Frames> Port for Machine<M> {
    ghost use Rattle.std.specs.Prelude.{◌≡◌, ◌<◌, length};
    ghost use Rattle.pip_model.specs.Events as E;
    ghost use Rattle.pip_base.specs.declared.outcome.Outcome.TheVariants as Outcome;
    ghost use Rattle.pip_model.specs.Answers.{five_of};
    ghost use Rattle.pip_model.specs.Events.{below_of};
    ghost use Rattle.pip_model.specs.Port.{Follows, TakesAtMost};
    ghost use Rattle.pip_switch.specs.Hits.{HitReadsOne};
    ghost use Rattle.pip_switch.specs.Standing.{StandsAs};
    ghost use Rattle.pip_switch.specs.Machines.{machine_sound, machine_world};

    ghost stands = { λ p w. StandsAs p w };

    ghost count = { λ p. length p.cpus };

    ghost world = { λ p. machine_world p };

    ghost sound = { λ p w s. machine_sound p w s };

    #[inline(always)]
    fn cpus(&self) -> u32 {
        self.cpus.len() as u32
    }

    #[inline(always)]
    fn load<L: Ledger>(&mut self, cpu: u32, va: u32, size: Size, steps: &mut Steps<L>) -> Outcome
        requires { cpu < length self.old.cpus }
        ensures event { Follows (StandsAs self.old) (StandsAs self.new) (E.Load cpu va size) result }
        ensures count { length self.new.cpus ≡ length self.old.cpus }
        ensures hit { HitReadsOne self.old.caches self.old.cpus cpu (λ r. va) result steps.old steps.new }
        ensures work { TakesAtMost (StandsAs self.old) (E.Load cpu va size) steps.old steps.new }
    {
        events::load(
            &mut self.mem,
            &mut self.cpus,
            &mut self.caches,
            cpu,
            va,
            size,
            steps,
        )
    }

    #[inline(always)]
    fn store<L: Ledger>(
        &mut self,
        cpu: u32,
        va: u32,
        size: Size,
        word: u32,
        steps: &mut Steps<L>,
    ) -> Outcome
        requires cpu { cpu < length self.old.cpus }
        requires fits { word < below_of size }
        ensures event { Follows (StandsAs self.old) (StandsAs self.new) (E.Store cpu va size word) result }
        ensures count { length self.new.cpus ≡ length self.old.cpus }
        ensures hit { HitReadsOne self.old.caches self.old.cpus cpu (λ r. va) result steps.old steps.new }
        ensures work { TakesAtMost (StandsAs self.old) (E.Store cpu va size word) steps.old steps.new }
    {
        let written = events::StoredWord { va, size, word };
        events::store(
            &mut self.mem,
            &mut self.cpus,
            &mut self.caches,
            cpu,
            written,
            steps,
        )
    }

    #[inline(always)]
    fn fetch<L: Ledger>(&mut self, cpu: u32, steps: &mut Steps<L>) -> Outcome
        requires { cpu < length self.old.cpus }
        ensures event { Follows (StandsAs self.old) (StandsAs self.new) (E.Fetch cpu) result }
        ensures count { length self.new.cpus ≡ length self.old.cpus }
        ensures hit { HitReadsOne self.old.caches self.old.cpus cpu (λ r. r.ctx.pc) result steps.old steps.new }
        ensures work { TakesAtMost (StandsAs self.old) (E.Fetch cpu) steps.old steps.new }
    {
        events::fetch(&mut self.mem, &mut self.cpus, &mut self.caches, cpu, steps)
    }

    fn trap<L: Ledger>(
        &mut self,
        cpu: u32,
        vector: u32,
        a: u32,
        b: u32,
        steps: &mut Steps<L>,
    ) -> Outcome
        requires cpu { cpu < length self.old.cpus }
        requires vector { vector < 256 }
        ensures event { Follows (StandsAs self.old) (StandsAs self.new) (E.Trap cpu vector a b) result }
        ensures count { length self.new.cpus ≡ length self.old.cpus }
        ensures work { TakesAtMost (StandsAs self.old) (E.Trap cpu vector a b) steps.old steps.new }
    {
        events::trap(&mut self.mem, &mut self.cpus, cpu, vector, a, b, steps)
    }

    fn call<L: Ledger>(
        &mut self,
        cpu: u32,
        no: u32,
        args: &[u32; 5],
        steps: &mut Steps<L>,
    ) -> Outcome
        requires { cpu < length self.old.cpus }
        ensures event { Follows (StandsAs self.old) (StandsAs self.new) (E.Call cpu no (five_of args.now)) result }
        ensures count { length self.new.cpus ≡ length self.old.cpus }
        ensures work { TakesAtMost (StandsAs self.old) (E.Call cpu no (five_of args.now)) steps.old steps.new }
    {
        calls::call(
            &mut self.mem,
            &mut self.cpus,
            &mut self.caches,
            cpu,
            no,
            args,
            steps,
        )
    }

    fn raise<L: Ledger>(&mut self, line: u32, steps: &mut Steps<L>)
        requires { line < 16 }
        ensures event { Follows (StandsAs self.old) (StandsAs self.new) (E.Raise line) Outcome.Done }
        ensures count { length self.new.cpus ≡ length self.old.cpus }
        ensures work { TakesAtMost (StandsAs self.old) (E.Raise line) steps.old steps.new }
    {
        lines::raise(&mut self.mem, &self.cpus, line, steps);
    }

    #[inline(always)]
    fn poll<L: Ledger>(&mut self, cpu: u32, steps: &mut Steps<L>) -> Outcome
        requires { cpu < length self.old.cpus }
        ensures event { Follows (StandsAs self.old) (StandsAs self.new) (E.Poll cpu) result }
        ensures count { length self.new.cpus ≡ length self.old.cpus }
        ensures work { TakesAtMost (StandsAs self.old) (E.Poll cpu) steps.old steps.new }
    {
        lines::poll(&mut self.mem, &mut self.cpus, cpu, steps)
    }

    #[inline(always)]
    fn ctx(&self, cpu: u32) -> Option<&Ctx> {
        context_on(&self.cpus, cpu)
    }

    #[inline(always)]
    fn set_pc(&mut self, cpu: u32, pc: u32) {
        contexts::set_pc(&mut self.cpus, cpu, pc);
    }

    #[inline(always)]
    fn set_register(&mut self, cpu: u32, register: Register, word: u32, pc: u32) {
        contexts::set_register(&mut self.cpus, cpu, register, word, pc);
    }

    fn set_ctx(&mut self, cpu: u32, c: &Ctx) {
        contexts::set_context(&mut self.cpus, cpu, c.pc, &c.regs);
    }

    fn peek<L: Ledger>(&self, frame: u32, index: u32, steps: &mut Steps<L>) -> Option<u32> {
        if frame < self.mem.count() && index < WORDS {
            Some(self.mem.word(Frame::new(frame), index, steps))
        } else {
            None
        }
    }
}
