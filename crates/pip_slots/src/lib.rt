//! Time slots: which steps each child of the root has is fixed before the run (docs/MODEL.md, "Time slots").
//!
//! specs/Slots says what a plan of slots does (`slot_run`), and what of it happens in the slots of one child
//! (`acts_of_child`). [`law_slots`] says that this is a matter of the child alone, in any two worlds that have it in
//! common (`SlotsSeparate`), and so for images whose children are built as pip_native builds them (specs/Images).
//! [`law_without_slots`] says that it isn't so in a native run. [`run_slots`] and [`run_rounds`] run a plan on a
//! machine, and what they do and write is `slot_run`; [`law_slots_of_machines`] is the law of two machines that run
//! one.
#![tactic(auto)]

mod edges;
mod running;
mod time_slot;

ghost use Rattle.pip_slots.specs.Images.{ImagesBegin, ImagesSeparate, ImagesSeparateRounds};
ghost use Rattle.pip_slots.specs.Images.{ImagesSeparateSlots};
ghost use Rattle.pip_slots.specs.Limits.{NativeIsNotSeparate};
ghost use Rattle.pip_slots.specs.Machines.{MachinesBegin, MachinesSeparate};
ghost use Rattle.pip_slots.specs.Slots.{SlotsSeparate};

pub use running::{run_rounds, run_slots};
pub use time_slot::{RoundSlot, TimeSlot, in_turn};

/// What a child does in its slots, and at which steps, depends on that child alone. The law computes nothing: what it
/// says is its contract.
pub fn law_slots()
    ensures separate { SlotsSeparate }
    ensures images { ImagesSeparate }
    ensures slots { ImagesSeparateSlots }
    ensures rounds { ImagesSeparateRounds }
    ensures begins { ImagesBegin }
{}

/// Two machines that have a child in common and run one plan by [`run_slots`] write the same in the child's slots, and
/// have it in common afterwards. Machines of images that agree on a child begin so.
pub fn law_slots_of_machines()
    ensures separate { MachinesSeparate }
    ensures begins { MachinesBegin }
{}

/// Why slots are needed: what a child learns in a native run isn't a matter of that child alone.
pub fn law_without_slots()
    ensures { NativeIsNotSeparate }
{}
