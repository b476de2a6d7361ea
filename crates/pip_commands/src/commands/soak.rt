//! The command `soak`.
ghost use Rattle.std.specs.Prelude.{◌≡◌, ◌≤◌, ℕ, [], List, OnOk, OnErr, Option};
ghost use Rattle.pip_base.specs.Opening.{CanOpen};
ghost use Rattle.pip_io.specs.Causes.{HasCause};
ghost use Rattle.pip_io.specs.Taken.{Appends, SendsPart};
ghost use Rattle.pip_soak.specs.LoadText.{load_text};
ghost use Rattle.pip_commands.specs.Dues.{soak_due};
ghost use Rattle.pip_command_contracts.specs.EndsBy.{EndsBy};
ghost use Rattle.pip_command_contracts.specs.Streams.{beside};
ghost use Rattle.pip_command_contracts.specs.Commands.{Fulfils};

use crate::machines::new_machine;
use pip_base::Steps;
use pip_command_contracts::Ended;
use pip_dump::{Totals, totals};
use pip_io::{Failed, Sink, Source};
use pip_soak::{Counts, load_text, soak_load};
use std::alloc::Global;
use std::marker::Brand;
use std::sync::ledger::{Blank, Ledger};

/// The frames of the machine.
const FRAMES: u32 = 64;

/// Its processors.
const PROCESSORS: u32 = 2;

/// Writes the counts of a generated load of `count` steps, at most 1,000,000, that the number `seed`, not 0, draws
/// (docs/FORMATS.md, "Texts of tree, core and soak"). Nothing is read. At status 0 the machine that made the load is
/// handed back.
pub fn soak<S: Source, K: Sink>(
    alloc: Global,
    count: u32,
    seed: u32,
    _source: &mut S,
    sink: &mut K,
) -> Ended
    requires count { count ≤ 1000000 }
    requires seed { 1 ≤ seed }
    requires none { (K.history sink.old).written.buffered ≡ [] }
    ensures ends { Fulfils (soak_due count seed) result S.history K.history _source.old sink.old _source.new sink.new }
{
    make_load::<K, Brand>(alloc, count, seed, sink, Blank::new(1))
}

// Makes the load with a counter of steps that nobody reads, and writes its text.
fn make_load<K: Sink, L: Ledger>(
    alloc: Global,
    count: u32,
    seed: u32,
    sink: &mut K,
    blank: Blank,
) -> Ended
    requires blank { CanOpen blank.name blank.parts L.name L.parts }
    requires count { count ≤ 1000000 }
    requires seed { 1 ≤ seed }
    requires none { (K.history sink.old).written.buffered ≡ [] }
    ensures ends { (left : Option (List ℕ)) (reads : ℕ) → EndsBy (soak_due count seed) result.status result.machine
        (beside left reads (K.history sink.old)) (beside left reads (K.history sink.new)) }
{
    let mut steps: Steps<L> = Steps::new(blank);
    let Ok(mut machine) = new_machine(alloc, FRAMES, PROCESSORS, &mut steps) else {
        return Ended::with_status(5);
    };
    let counts = soak_load(&mut machine, count, seed, &mut steps);
    let totals = totals(machine.mem(), &mut steps);
    match write_load(&counts, &totals, count, sink) {
        Ok(()) => Ended {
            status: 0,
            machine: Some(machine),
        },
        Err(_) => Ended::with_status(4),
    }
}

// Writes the text of a load, and all that the sink holds.
fn write_load<K: Sink>(
    counts: &Counts,
    totals: &Totals,
    count: u32,
    sink: &mut K,
) -> Result<(), Failed>
    ensures whole { OnOk result
        (Appends (K.history sink.old).written (K.history sink.new).written (load_text counts.now totals.now count)) }
    ensures part { OnErr result
        (SendsPart (K.history sink.old).written (K.history sink.new).written (load_text counts.now totals.now count)) }
    ensures none { OnOk result ((K.history sink.new).written.buffered ≡ []) }
    ensures cause { HasCause (K.history sink.old).faults (K.history sink.new).faults result }
{
    load_text(counts, totals, count, sink)?;
    sink.flush()
}
