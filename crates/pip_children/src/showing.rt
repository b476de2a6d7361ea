//! The run of the children, and its text.
ghost use Rattle.std.specs.Prelude.{◌≡◌, ◌<◌, ◌≤◌, [], OnOk};
ghost use Rattle.std.specs.List.{AllByRecursion};
ghost use Rattle.pip_io.specs.Causes.{HasCause};
ghost use Rattle.pip_model.specs.Images.{Image};
ghost use Rattle.pip_command_contracts.specs.Loading.{Begins, HasImage};
ghost use Rattle.pip_children.specs.Dues.{IsRoomy};
ghost use Rattle.pip_children.specs.Loading.{ShowsChildren, ShowsChildrenOut};

use crate::scheduling::Scheduling;
use pip_base::Steps;
use pip_command_contracts::loading::Loaded;
use pip_io::{Failed, Sink};
use pip_lines::{Callback, write_end, write_image};
use pip_model::Port;
use pip_native::{build_children, set_handlers, write_children};
use std::sync::ledger::Ledger;

/// Builds `n` children, makes their steps, and writes the text, and all that the sink holds.
pub fn show<F: Callback, R: Scheduling + Drop, K: Sink, L: Ledger>(
    loaded: &mut Loaded<F>,
    n: u32,
    scheduling: R,
    sink: &mut K,
    steps: &mut Steps<L>,
) -> Result<(), Failed>
    requires begins { HasImage loaded.old.frames loaded.old.pages loaded.old.lines.items loaded.old.machine }
    requires roomy { IsRoomy n loaded.old.frames }
    requires below { AllByRecursion (λ p. p.line < 16) loaded.old.lines.items }
    requires least { 1 ≤ n }
    requires most { n ≤ 8 }
    requires fits { R.fits scheduling n }
    ensures shows { (i : Image) → Begins i loaded.old.frames loaded.old.pages loaded.old.lines.items loaded.old.machine
        → ShowsChildrenOut result (R.schedule scheduling) i n (K.history sink.old).written (K.history sink.new).written
        loaded.new.machine }
    ensures none { OnOk result ((K.history sink.new).written.buffered ≡ []) }
    ensures cause { HasCause (K.history sink.old).faults (K.history sink.new).faults result }
{
    give(loaded, n, scheduling, sink, steps)?;
    sink.flush()
}

// Builds the children, makes the steps, and writes the text.
fn give<F: Callback, R: Scheduling + Drop, K: Sink, L: Ledger>(
    loaded: &mut Loaded<F>,
    n: u32,
    scheduling: R,
    sink: &mut K,
    steps: &mut Steps<L>,
) -> Result<(), Failed>
    requires begins { HasImage loaded.old.frames loaded.old.pages loaded.old.lines.items loaded.old.machine }
    requires roomy { IsRoomy n loaded.old.frames }
    requires below { AllByRecursion (λ p. p.line < 16) loaded.old.lines.items }
    requires least { 1 ≤ n }
    requires most { n ≤ 8 }
    requires fits { R.fits scheduling n }
    ensures shows { (i : Image) → Begins i loaded.old.frames loaded.old.pages loaded.old.lines.items loaded.old.machine
        → ShowsChildren result (R.schedule scheduling) i n (K.history sink.old).written (K.history sink.new).written
        loaded.new.machine }
    ensures cause { HasCause (K.history sink.old).faults (K.history sink.new).faults result }
{
    let machine = &mut loaded.machine;
    let lines = loaded.lines.as_slice();
    write_image(
        loaded.frames,
        machine.cpus(),
        lines.len() as u64,
        loaded.pages,
        sink,
    )?;
    set_handlers(machine, steps);
    let children = build_children(machine, n, steps);
    write_children(children.as_slice(), sink)?;
    let count = scheduling.step_count(n);
    scheduling.run(machine, lines, children, sink, steps)?;
    write_end(sink, count)
}
