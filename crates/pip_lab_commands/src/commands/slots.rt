//! The command `slots`: children of the root of an image, each of which has time slots.
ghost use Rattle.std.specs.Prelude.{◌≡◌, ◌≤◌, ◌<◌, ◌*◌, ◌^◌, length};
ghost use Rattle.std.specs.List.{AllByRecursion};
ghost use Rattle.pip_command_contracts.specs.Commands.{Fulfils, MayStart};
ghost use Rattle.pip_slots.specs.Images.{placed, round_steps};
ghost use Rattle.pip_lab_commands.specs.Children.{IsBounded, slotted};
ghost use Rattle.pip_lab_commands.specs.Dues.{slots_due};

use crate::words::steps_of;
use arrayvec::ArrayVec;
use pip_base::Steps;
use pip_children::{Scheduling, children};
use pip_command_contracts::Ended;
use pip_frames::Frames;
use pip_io::{Failed, Sink, Source};
use pip_lines::{Callback, Line};
use pip_slots::{RoundSlot, TimeSlot, run_rounds};
use pip_switch::Machine;
use std::alloc::Global;
use std::marker::Brand;
use std::sync::ledger::{Blank, Ledger};

/// Builds `n` children of the root of an image, 1 to 8, and writes the trace of `rounds` rounds of these slots
/// (docs/FORMATS.md, "slots"). At status 0 the machine is handed back.
pub fn slots<S: Source, K: Sink>(
    alloc: Global,
    n: u32,
    rounds: u32,
    round: ArrayVec<RoundSlot, 64>,
    source: &mut S,
    sink: &mut K,
) -> Ended
    requires least { 1 ≤ n }
    requires most { n ≤ 8 }
    requires steps { rounds * round_steps round.items < 2 ^ 32 }
    requires children { AllByRecursion (λ x. x.child < n) round.items }
    requires paced { MayStart (slots_due n rounds round) S.is_open S.allows S.history K.history source.old sink.old }
    ensures ends { Fulfils (slots_due n rounds round) result S.history K.history source.old sink.old
        source.new sink.new }
{
    let scheduling = Slotted { round, rounds };
    children::<S, K, _, Brand>(alloc, n, scheduling, source, sink, Blank::new(1))
}

// The children have the slots of a round, for that many rounds.
#[derive(Drop)]
struct Slotted {
    round: ArrayVec<RoundSlot, 64>,
    rounds: u32,
}

impl Scheduling for Slotted {
    ghost schedule = { λ s. slotted s.round s.rounds };

    ghost fits = { λ s n. IsBounded s.round s.rounds n };

    fn step_count(&self, _n: u32) -> u32 {
        (self.rounds as u64 * steps_of(self.round.as_slice())) as u32
    }

    fn run<M: Frames, F: Callback, K: Sink, L: Ledger>(
        self,
        machine: &mut Machine<M>,
        _lines: &[Line<F>],
        children: ArrayVec<u32, 8>,
        sink: &mut K,
        steps: &mut Steps<L>,
    ) -> Result<(), Failed> {
        let placed = placed_in(self.round.as_slice(), children.as_slice());
        run_rounds(machine, placed.as_slice(), self.rounds, sink, steps)
    }
}

// The slots of a round, at most 64, of the children at these addresses.
fn placed_in(round: &[RoundSlot], children: &[u32]) -> ArrayVec<TimeSlot, 64>
    requires few { length round.now ≤ 64 }
    requires children { AllByRecursion (λ x. x.child < length children.now) round.now }
    ensures { result.items ≡ placed round.now children.now }
{
    let mut slots = ArrayVec::new();
    for slot in round {
        slots.push(TimeSlot {
            child: children[slot.child as usize],
            turns: slot.turns,
        });
    }
    slots
}
