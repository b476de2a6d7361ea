//! A command on children of the root: an image is read, the children are built, and a scheduling runs them.
ghost use Rattle.std.specs.Prelude.{◌≡◌, ◌≤◌};
ghost use Rattle.pip_base.specs.Opening.{CanOpen};
ghost use Rattle.pip_base.specs.declared.types.Plan.{Plan};
ghost use Rattle.pip_lines.specs.Due.{AnswersDue};
ghost use Rattle.pip_children.specs.Dues.{schedule_due};
ghost use Rattle.pip_command_contracts.specs.Commands.{Fulfils, FulfilsJoined, MayStart, MayStartJoined};

use crate::loading::{ChildrenLoadError, load};
use crate::scheduling::Scheduling;
use crate::showing::show;
use crate::text::short_line;
use pip_base::{Plan, Steps};
use pip_command_contracts::{Ended, end_at_image, end_with};
use pip_io::{Joint, Sink, Source};
use pip_lines::{Callback, due};
use std::alloc::Global;
use std::sync::ledger::{Blank, Ledger};

/// The most children.
pub const MAX_CHILDREN: u32 = 8;

/// Builds `n` children of the root of an image, 1 to 8, and writes the trace of their steps. At status 0 the machine is
/// handed back. Nobody reads the counter of steps. Each plan's callback says when the plan is due.
pub fn children<S: Source, K: Sink, R: Scheduling + Drop, L: Ledger>(
    alloc: Global,
    n: u32,
    scheduling: R,
    source: &mut S,
    sink: &mut K,
    blank: Blank,
) -> Ended
    requires blank { CanOpen blank.name blank.parts L.name L.parts }
    requires least { 1 ≤ n }
    requires most { n ≤ 8 }
    requires fits { R.fits scheduling n }
    requires paced { MayStart (schedule_due (R.schedule scheduling) n) S.is_open S.allows S.history K.history source.old
        sink.old }
    ensures ends { Fulfils (schedule_due (R.schedule scheduling) n) result S.history K.history source.old sink.old
        source.new sink.new }
{
    let mut steps: Steps<L> = Steps::new(blank);
    let mut joint = Joint::new(source, sink);
    children_with(
        alloc,
        n,
        scheduling,
        &mut joint,
        |plan: Plan| move |t: u64| due(&plan, t),
        &mut steps,
    )
}

// Reads the image, and makes and shows its run. `make` makes the callback of a plan.
fn children_with<
    S: Source,
    K: Sink,
    G: Fn(Plan) -> F,
    F: Callback + Drop,
    R: Scheduling + Drop,
    L: Ledger,
>(
    alloc: Global,
    n: u32,
    scheduling: R,
    joint: &mut Joint<'_, S, K>,
    make: G,
    steps: &mut Steps<L>,
) -> Ended
    requires makes { G.IsAlwaysCallable make }
    requires answer { (p : Plan) (f : F) → G.post make p f → AnswersDue (F.may_ask f) (F.answers f) p }
    requires least { 1 ≤ n }
    requires most { n ≤ 8 }
    requires fits { R.fits scheduling n }
    requires paced { MayStartJoined (schedule_due (R.schedule scheduling) n) S.is_open S.allows S.history K.history
        joint.old }
    ensures same_source { joint.new.source.ghost_name ≡ joint.old.source.ghost_name }
    ensures same_sink { joint.new.sink.ghost_name ≡ joint.old.sink.ghost_name }
    ensures ends { FulfilsJoined (schedule_due (R.schedule scheduling) n) result S.history K.history
        joint.old joint.new }
{
    match load(alloc, n, joint, make, steps) {
        Ok(mut loaded) => match show(&mut loaded, n, scheduling, &mut *joint.sink, steps) {
            Ok(()) => Ended {
                status: 0,
                machine: Some(loaded.machine),
            },
            Err(_) => Ended::with_status(4),
        },
        Err(ChildrenLoadError::Image(fault)) => end_at_image(&mut *joint.sink, fault),
        Err(ChildrenLoadError::Memory) => Ended::with_status(5),
        Err(ChildrenLoadError::Short { frames }) => {
            end_with(
                &mut *joint.sink,
                short_line(frames, n).as_str().as_bytes(),
                8,
            )
        }
    }
}
