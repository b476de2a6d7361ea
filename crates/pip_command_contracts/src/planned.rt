//! The interrupt lines of plans.
ghost use Rattle.std.specs.Prelude.{◌≡◌, ◌≤◌, length};
ghost use Rattle.pip_command_contracts.specs.Planned.{lines_planned};

use arrayvec::ArrayVec;
use pip_base::Plan;

/// The interrupt lines of at most 16 plans, in their order.
pub fn planned_lines(plans: &[Plan]) -> ArrayVec<u32, 16>
    requires { length plans.now ≤ 16 }
    ensures { result.items ≡ lines_planned plans.now }
{
    let mut lines = ArrayVec::new();
    for plan in plans {
        lines.push(plan.line);
    }
    lines
}
