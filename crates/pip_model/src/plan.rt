//! Interrupt plans.
ghost use Rattle.std.specs.Prelude.{◌≡◌};
ghost use Rattle.pip_model.specs.Due.{is_due};

use pip_base::Plan;

/// Whether the line of a plan is raised at step `t`: at step `first`, and later every `period` steps where
/// that is not 0.
pub fn due(plan: &Plan, t: u64) -> bool
    ensures { result ≡ is_due plan.now t }
{
    let first = u64::from(plan.first);
    let period = u64::from(plan.period);
    if t < first {
        return false;
    }
    let since = t - first;
    since == 0 || (period != 0 && since % period == 0)
}
