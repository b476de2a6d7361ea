//! A time slot of a plan, and one of a round.
ghost use Rattle.std.specs.Prelude.{◌≡◌, ◌≤◌, ◌+◌, ◌*◌, ◌<◌};
ghost use Rattle.std.specs.List.{AllByRecursion};
ghost use Rattle.pip_slots.specs.Images as images;

use arrayvec::ArrayVec;

/// The child whose slot it is, by the address of its descriptor in the root, and how many turns it may have.
#[derive(Clone, Copy, Debug, Default, PartialEq, Eq)]
pub struct TimeSlot {
    pub child: u32,
    pub turns: u32,
}

/// A slot of a round, of a child by its number, counted from 0, and how many turns it may have.
#[derive(Clone, Copy, Debug, Default, PartialEq, Eq)]
pub struct RoundSlot {
    pub child: u32,
    pub turns: u32,
}

/// The round in which each of that many children, 64 at most, has a slot of that many turns, in turn.
pub fn in_turn(children: u32, turns: u32) -> ArrayVec<RoundSlot, 64>
    requires { children ≤ 64 }
    ensures is { result.items ≡ images.in_turn children turns }
    ensures steps { images.round_steps result.items ≡ children * (turns + 2) }
    ensures children { AllByRecursion (λ x. x.child < children) result.items }
{
    let mut round = ArrayVec::new();
    for child in 0..children {
        round.push(RoundSlot { child, turns });
    }
    round
}
