//! The machine as processors, scripts, lines and monitors use it.
ghost use Rattle.std.specs.Prelude.{◌≡◌, ℕ, ◌<◌, Option, length, option_map, slice_set};
ghost use Rattle.pip_model.specs.Events as E;
ghost use Rattle.pip_model.specs.Events.{below_of};
ghost use Rattle.pip_model.specs.Port.{Changes, Follows, StandsForSome, TakesAtMost};
ghost use Rattle.pip_model.specs.Answers.{five_of};
ghost use Rattle.pip_model.specs.Views.{peek_word};
ghost use Rattle.pip_model.specs.Worlds.{IsSoundWorld, World, runs_on};

use crate::operands::Register;
use pip_base::{Ctx, Outcome, Size, Steps};
use std::sync::ledger::Ledger;

/// A machine, by the events that happen to it. It stands for worlds of the model: for each of them, an event has the
/// model's outcome, and the machine then stands for the model's next world. `steps` rises by no more than the event's
/// work there (docs/GUARANTEES.md, "How long an event can take").
pub trait Port {
    /// The worlds that it stands for: one, up to the order of the partitions.
    ghost stands: { Self → World → Type 0 };

    /// How many processors it has.
    ghost count: { Self → ℕ };

    /// The number of processors, 1 to 4. Each `cpu` below is less than it.
    fn cpus(&self) -> u32
        ensures { result ≡ count self.now };

    /// What runs on a processor reads a word, or a byte as a number below 256.
    fn load<L: Ledger>(&mut self, cpu: u32, va: u32, size: Size, steps: &mut Steps<L>) -> Outcome
        requires { cpu < count self.old }
        ensures event { Follows (stands self.old) (stands self.new) (E.Load cpu va size) result }
        ensures work { TakesAtMost (stands self.old) (E.Load cpu va size) steps.old steps.new }
        ensures count { count self.new ≡ count self.old };

    /// It writes a word, or a byte below 256.
    fn store<L: Ledger>(
        &mut self,
        cpu: u32,
        va: u32,
        size: Size,
        word: u32,
        steps: &mut Steps<L>,
    ) -> Outcome
        requires cpu { cpu < count self.old }
        requires fits { word < below_of size }
        ensures event { Follows (stands self.old) (stands self.new) (E.Store cpu va size word) result }
        ensures work { TakesAtMost (stands self.old) (E.Store cpu va size word) steps.old steps.new }
        ensures count { count self.new ≡ count self.old };

    /// It fetches the word at its program counter.
    fn fetch<L: Ledger>(&mut self, cpu: u32, steps: &mut Steps<L>) -> Outcome
        requires { cpu < count self.old }
        ensures event { Follows (stands self.old) (stands self.new) (E.Fetch cpu) result }
        ensures work { TakesAtMost (stands self.old) (E.Fetch cpu) steps.old steps.new }
        ensures count { count self.new ≡ count self.old };

    /// It raises a vector below 256, with two words for whoever handles it.
    fn trap<L: Ledger>(
        &mut self,
        cpu: u32,
        vector: u32,
        a: u32,
        b: u32,
        steps: &mut Steps<L>,
    ) -> Outcome
        requires cpu { cpu < count self.old }
        requires vector { vector < 256 }
        ensures event { Follows (stands self.old) (stands self.new) (E.Trap cpu vector a b) result }
        ensures work { TakesAtMost (stands self.old) (E.Trap cpu vector a b) steps.old steps.new }
        ensures count { count self.new ≡ count self.old };

    /// It calls the kernel.
    fn call<L: Ledger>(
        &mut self,
        cpu: u32,
        no: u32,
        args: &[u32; 5],
        steps: &mut Steps<L>,
    ) -> Outcome
        requires { cpu < count self.old }
        ensures event { Follows (stands self.old) (stands self.new) (E.Call cpu no (five_of args.now)) result }
        ensures work { TakesAtMost (stands self.old) (E.Call cpu no (five_of args.now)) steps.old steps.new }
        ensures count { count self.new ≡ count self.old };

    /// An interrupt line below 16 becomes pending in the root.
    fn raise<L: Ledger>(&mut self, line: u32, steps: &mut Steps<L>)
        requires { line < 16 }
        ensures event { Follows (stands self.old) (stands self.new) (E.Raise line) Outcome.Done }
        ensures work { TakesAtMost (stands self.old) (E.Raise line) steps.old steps.new }
        ensures count { count self.new ≡ count self.old };

    /// The root takes a pending line on a processor, where it can.
    fn poll<L: Ledger>(&mut self, cpu: u32, steps: &mut Steps<L>) -> Outcome
        requires { cpu < count self.old }
        ensures event { Follows (stands self.old) (stands self.new) (E.Poll cpu) result }
        ensures work { TakesAtMost (stands self.old) (E.Poll cpu) steps.old steps.new }
        ensures count { count self.new ≡ count self.old };

    /// The context of what runs on a processor. None exactly where it runs nothing.
    fn ctx(&self, cpu: u32) -> Option<&Ctx>
        requires { cpu < count self.now }
        ensures { (w : World) → stands self.now w → option_map (λ x. x.now) result
            ≡ option_map (λ r. r.ctx) (runs_on w cpu) };

    /// Gives what runs on a processor another pc. Nothing happens if nothing runs.
    fn set_pc(&mut self, cpu: u32, pc: u32)
        requires { cpu < count self.old }
        ensures event { Changes (stands self.old) (stands self.new) cpu (λ x. record x { pc = pc }) }
        ensures count { count self.new ≡ count self.old };

    /// Gives what runs on a processor another pc, and a register of it a word. Nothing happens if nothing runs.
    fn set_register(&mut self, cpu: u32, register: Register, word: u32, pc: u32)
        requires { cpu < count self.old }
        ensures event { Changes (stands self.old) (stands self.new) cpu
            (λ x. record { pc = pc; regs = slice_set x.regs register word }) }
        ensures count { count self.new ≡ count self.old };

    /// Gives what runs on a processor another context. Nothing happens if nothing runs.
    fn set_ctx(&mut self, cpu: u32, c: &Ctx)
        requires { cpu < count self.old }
        ensures event { Changes (stands self.old) (stands self.new) cpu (λ x. c.now) }
        ensures count { count self.new ≡ count self.old };

    /// Word `index` of a frame. None exactly where there is no such frame or no such word.
    fn peek<L: Ledger>(&self, frame: u32, index: u32, steps: &mut Steps<L>) -> Option<u32>
        ensures { (w : World) → stands self.now w → result ≡ peek_word w frame index };

    /// There is always a world that it stands for.
    ghost world: { (p : Self) → StandsForSome (stands p) };

    /// Each of them is sound, and has that many processors.
    ghost sound: { (p : Self) (w : World) → stands p w → IsSoundWorld w × (length w.cpus ≡ count p) };
}
