//! What is asked of a machine.
ghost use Rattle.std.specs.Prelude.{◌≡◌, ◌<◌, true, length};
ghost use Rattle.pip_model.specs.Events as E;
ghost use Rattle.pip_switch.specs.Isolation.{Takes};
ghost use Rattle.pip_test_every.specs.Asked.{asked, can_take};

use pip_base::{Ctx, Outcome, Size, Steps};
use pip_frames::Frames;
use pip_model::Port;
use pip_switch::Machine;
use std::sync::ledger::Ledger;

/// One event of a machine: of a processor that it has, the first number, or a line below 16 that is raised. All
/// accesses are to words.
#[derive(Clone, Copy, Debug)]
pub enum Ask {
    /// A word is read at an address.
    Load(u32, u32),
    /// A word is written at an address.
    Store(u32, u32, u32),
    /// A word is fetched at the program counter.
    Fetch(u32),
    /// A vector is raised, with two words.
    Trap(u32, u8, u32, u32),
    /// A call of the kernel, by its number.
    Call(u32, u32, [u32; 5]),
    /// An interrupt line is raised.
    Raise(u32),
    /// The root may take a pending line.
    Poll(u32),
    /// What runs gets this context.
    SetContext(u32, Ctx),
}

// Gives what runs on a processor a context.
#[tactic(auto, using(crate::proofs::Events::context_set))]
fn set_context<M: Frames>(machine: &mut Machine<M>, cpu: u32, ctx: &Ctx) -> Outcome
    requires { cpu < length machine.old.cpus }
    ensures takes { Takes machine.old (E.SetContext cpu ctx.now) result machine.new }
    ensures count { length machine.new.cpus ≡ length machine.old.cpus }
{
    let runs = machine.ctx(cpu).is_some();
    machine.set_ctx(cpu, ctx);
    if runs { Outcome::Done } else { Outcome::Idle }
}

/// Makes the event, and answers its outcome.
#[tactic(auto, using(crate::proofs::Events::below))]
pub(crate) fn take_one<M: Frames, L: Ledger>(
    machine: &mut Machine<M>,
    ask: &Ask,
    steps: &mut Steps<L>,
) -> Outcome
    requires { can_take (length machine.old.cpus) ask.now ≡ true }
    ensures takes { Takes machine.old (asked ask.now) result machine.new }
    ensures count { length machine.new.cpus ≡ length machine.old.cpus }
{
    match ask {
        Ask::Load(cpu, va) => machine.load(*cpu, *va, Size::Word, steps),
        Ask::Store(cpu, va, word) => machine.store(*cpu, *va, Size::Word, *word, steps),
        Ask::Fetch(cpu) => machine.fetch(*cpu, steps),
        Ask::Trap(cpu, vector, a, b) => machine.trap(*cpu, u32::from(*vector), *a, *b, steps),
        Ask::Call(cpu, number, args) => machine.call(*cpu, *number, args, steps),
        Ask::Raise(line) => {
            machine.raise(*line, steps);
            Outcome::Done
        }
        Ask::Poll(cpu) => machine.poll(*cpu, steps),
        Ask::SetContext(cpu, ctx) => set_context(machine, *cpu, ctx),
    }
}
