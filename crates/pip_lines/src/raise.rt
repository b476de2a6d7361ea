//! The lines that are due are raised.
ghost use Rattle.std.specs.Prelude.{◌≡◌, ◌<◌, [], ◌∷◌};
ghost use Rattle.std.specs.List.{AllByRecursion};
ghost use Rattle.pip_model.specs.Acts.{after_acts};
ghost use Rattle.pip_model.specs.Port.{TakesNoMore};
ghost use Rattle.pip_model.specs.Run.{raises};
ghost use Rattle.pip_model.specs.Worlds.{World};

use crate::callback::Callback;
use crate::line::Line;
use pip_base::Steps;
use pip_model::Port;
use std::sync::ledger::Ledger;

/// Asks each line's callback, and raises the lines that are due at step `t`, in their order. Each is below 16.
#[inline(always)]
pub fn raise_due<P: Port, F: Callback, L: Ledger>(
    port: &mut P,
    lines: &[Line<F>],
    t: u64,
    steps: &mut Steps<L>,
)
    requires below { AllByRecursion (λ p. p.line < 16) lines.now }
    ensures acts { (w : World) → P.stands port.old w → P.stands port.new (after_acts w (raises lines.now t)) }
    ensures work { TakesNoMore (P.stands port.old) (λ w. raises lines.now t) steps.old steps.new }
    ensures count { P.count port.new ≡ P.count port.old }
{
    for line in lines {
        raise_one(port, line, t, steps);
    }
}

// Raises a line below 16 where it is due at step `t`.
#[inline(always)]
fn raise_one<P: Port, F: Callback, L: Ledger>(
    port: &mut P,
    line: &Line<F>,
    t: u64,
    steps: &mut Steps<L>,
)
    requires { line.now.line < 16 }
    ensures acts { (w : World) → P.stands port.old w → P.stands port.new (after_acts w (raises (line.now ∷ []) t)) }
    ensures work { TakesNoMore (P.stands port.old) (λ w. raises (line.now ∷ []) t) steps.old steps.new }
    ensures count { P.count port.new ≡ P.count port.old }
{
    if line.is_due(t) {
        port.raise(line.number(), steps);
    }
}
