//! A plan with its callback.
ghost use Rattle.std.specs.Prelude.{◌≡◌};
ghost use Rattle.pip_base.specs.declared.types.Plan.{Plan};
ghost use Rattle.pip_lines.specs.Due.{AnswersDue};
ghost use Rattle.pip_model.specs.Due.{is_due};

use crate::callback::Callback;
use pip_base::Plan;
use std::marker::Model;

/// A plan beside a callback that answers at each step whether the plan is due. In clauses it is its plan.
#[derive(Drop)]
pub struct Line<F: Callback> {
    plan: Plan,
    callback: F,
}

impl<F: Callback> Model for Line<F> {
    ghost Value = { Plan };

    ghost view = { λ l. l.plan };

    ghost invariant = { λ l. AnswersDue (F.may_ask l.callback) (F.answers l.callback) l.plan };
}

impl<F: Callback> Line<F> {
    /// A plan with a callback that may be asked at each step, and answers there whether the plan is due.
    pub fn new(plan: Plan, callback: F) -> Line<F>
        requires { AnswersDue (F.may_ask callback) (F.answers callback) plan }
        ensures { result ≡ plan }
    {
        Line { plan, callback }
    }

    /// The number of the interrupt line.
    pub fn number(&self) -> u32
        ensures { result ≡ self.now.line }
    {
        self.plan.line
    }

    /// Whether the line is due at step `t`: its callback is asked.
    #[inline(always)]
    pub fn is_due(&self, t: u64) -> bool
        ensures { result ≡ is_due self.now t }
    {
        self.callback.ask(t)
    }
}
