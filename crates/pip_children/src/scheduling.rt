//! How the children of an image are run.
ghost use Rattle.std.specs.Prelude.{◌≡◌, ◌≤◌, ◌<◌, ℕ, length};
ghost use Rattle.std.specs.List.{AllByRecursion};
ghost use Rattle.pip_cpu.specs.Made.{Acts};
ghost use Rattle.pip_io.specs.Causes.{HasCause};
ghost use Rattle.pip_switch.specs.Standing.{StandsAs};
ghost use Rattle.pip_children.specs.Children.{Schedule};

use arrayvec::ArrayVec;
use pip_base::Steps;
use pip_frames::Frames;
use pip_io::{Failed, Sink};
use pip_lines::{Callback, Line};
use pip_switch::Machine;
use std::sync::ledger::Ledger;

/// What decides how children are run.
pub trait Scheduling {
    /// What is done, and in how many steps.
    ghost schedule: { Self → Schedule };

    /// It can run that many children.
    ghost fits: { Self → ℕ → Type 0 };

    /// How many steps `n` children have.
    fn step_count(&self, n: u32) -> u32
        requires most { n ≤ 8 }
        requires fits { fits self.now n }
        ensures { result ≡ (schedule self.now).steps n };

    /// Runs children, 1 to 8, by the addresses of their descriptors.
    fn run<M: Frames, F: Callback, K: Sink, L: Ledger>(
        self,
        machine: &mut Machine<M>,
        lines: &[Line<F>],
        children: ArrayVec<u32, 8>,
        sink: &mut K,
        steps: &mut Steps<L>,
    ) -> Result<(), Failed>
        requires below { AllByRecursion (λ p. p.line < 16) lines.now }
        requires some { 0 < length machine.old.cpus }
        requires least { 1 ≤ length children.items }
        requires most { length children.items ≤ 8 }
        requires fits { fits self (length children.items) }
        ensures acts { Acts result (StandsAs machine.old) (StandsAs machine.new) (K.history sink.old)
            (K.history sink.new)
            (λ w. (schedule self).acts lines.now children.items w) }
        ensures cause { HasCause (K.history sink.old).faults (K.history sink.new).faults result };
}
