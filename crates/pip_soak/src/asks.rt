//! What is asked of a machine.
ghost use Rattle.std.specs.Prelude.{◌≡◌, ◌<◌};
ghost use Rattle.pip_model.specs.Port.{Follows};
ghost use Rattle.pip_soak.specs.Asks.{IsAskOf, event_of};

use pip_base::{Outcome, Size, Steps};
use pip_model::Port;
use std::sync::ledger::Ledger;

/// One event of the load, on a processor of the machine. All accesses are to words.
#[derive(Clone, Copy, Debug)]
pub(crate) enum Ask {
    /// A word is read.
    Load { cpu: u32, va: u32 },
    /// A word is written.
    Store { cpu: u32, va: u32, word: u32 },
    /// The kernel is called.
    Call { cpu: u32, no: u32, args: [u32; 5] },
    /// An interrupt line below 16 is raised.
    Raise { line: u32 },
    /// The root may take a pending line.
    Poll { cpu: u32 },
}

/// What a step of the load asks.
#[derive(Clone, Copy, Debug)]
pub(crate) enum LoadStep {
    One(Ask),
    /// Three pages from `x` on are linked by two stores, and a child is prepared with them.
    Prepare {
        cpu: u32,
        x: u32,
        page: u32,
        place: u32,
    },
}

/// Makes the event, and answers its outcome.
#[inline(always)]
pub(crate) fn make_event<P: Port, L: Ledger>(
    port: &mut P,
    ask: Ask,
    steps: &mut Steps<L>,
) -> Outcome
    requires { IsAskOf (P.count port.old) ask }
    ensures event { Follows (P.stands port.old) (P.stands port.new) (event_of ask) result }
    ensures count { P.count port.new ≡ P.count port.old }
{
    match ask {
        Ask::Load { cpu, va } => port.load(cpu, va, Size::Word, steps),
        Ask::Store { cpu, va, word } => port.store(cpu, va, Size::Word, word, steps),
        Ask::Call { cpu, no, args } => port.call(cpu, no, &args, steps),
        Ask::Raise { line } => {
            port.raise(line, steps);
            Outcome::Done
        }
        Ask::Poll { cpu } => port.poll(cpu, steps),
    }
}
