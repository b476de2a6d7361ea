//! For each form of the laws of guests for machines: machines that meet its premises, and so what it says of them. The
//! worlds are those of specs/Prepared: a root with two children, 13 and 22, which have a page each.
ghost use Rattle.std.specs.Prelude.{[], ◌∷◌};
ghost use Rattle.pip_model.specs.Boot.{zero_words};
ghost use Rattle.pip_model.specs.Booted.{IsBooted};
ghost use Rattle.pip_test_every.specs.Met.{MeetsAlone, MeetsAncestors, MeetsApart, MeetsDepends, MeetsInputs};
ghost use Rattle.pip_test_every.specs.Met.{MeetsLeft, MeetsLists, MeetsOthers, MeetsSteps};
ghost use Rattle.pip_test_every.specs.Prepared.{later_slot, masked_world, other_slot, own_load, own_store};
ghost use Rattle.pip_test_every.specs.Prepared.{own_trap, pair_world, root_removal, root_store, root_world};
ghost use Rattle.pip_test_every.specs.Prepared.{root_yield, their_store};

use crate::asks::Ask;
use crate::taking::boot_and_take;
use pip_base::{Ctx, Steps};
use pip_frames::Frames;
use pip_guests::{law_ancestors, law_guests_of_machines};
use std::sync::ledger::Ledger;

// The root makes its two children.
const CHILDREN: [Ask; 16] = [
    Ask::Call(0, 0, [0x401000, 0x402000, 0x403000, 0x404000, 0x405000]),
    Ask::Store(0, 0x406000, 0x407000),
    Ask::Store(0, 0x407000, 0x408000),
    Ask::Call(0, 3, [0x401000, 0xfffff000, 0x406000, 0, 0]),
    Ask::Store(0, 0x409000, 0x22100000),
    Ask::Store(0, 0x409100, 0xfffff400),
    Ask::Store(0, 0x409400, 0xfffff000),
    Ask::Call(0, 5, [0x409000, 0x401000, 0xfffff000, 7, 0]),
    Ask::Call(0, 0, [0x40a000, 0x40b000, 0x40c000, 0x40d000, 0x40e000]),
    Ask::Store(0, 0x40f000, 0x410000),
    Ask::Store(0, 0x410000, 0x411000),
    Ask::Call(0, 3, [0x40a000, 0xfffff000, 0x40f000, 0, 0]),
    Ask::Store(0, 0x412000, 0x22100000),
    Ask::Store(0, 0x412100, 0xfffff400),
    Ask::Store(0, 0x412400, 0xfffff000),
    Ask::Call(0, 5, [0x412000, 0x40a000, 0xfffff000, 7, 0]),
];

const ROOT_TAKES_LINES: Ask = Ask::Store(0, 0xfffff080, 0xfffff400);

const ROOT_YIELD: Ask = Ask::Call(0, 8, [0x401000, 64, 256, 0, 0]);

const OTHER_YIELD: Ask = Ask::Call(1, 8, [0x40a000, 64, 256, 0, 0]);

const ROOT_STORE: Ask = Ask::Store(0, 0x400000, 7);

const ROOT_REMOVAL: Ask = Ask::Call(0, 6, [0x40a000, 0xfffff000, 0, 0, 0]);

const OWN_LOAD: Ask = Ask::Load(0, 0xfffff100);

const OWN_STORE: Ask = Ask::Store(0, 0xfffff800, 5);

const OWN_TRAP: Ask = Ask::Trap(0, 3, 0, 0);

const THEIR_STORE: Ask = Ask::Store(1, 0xfffff800, 7);

const THEIR_MASK: Ask = Ask::Call(1, 10, [0, 0, 0, 0, 0]);

// The root lets each run on a processor of its own: it yields on processor 0, takes a line on processor 1, and yields
// there.
const BOTH: [Ask; 5] = [
    ROOT_TAKES_LINES,
    ROOT_YIELD,
    Ask::Raise(0),
    Ask::Poll(1),
    OTHER_YIELD,
];

// And the second masks itself.
const BOTH_ONE_MASKED: [Ask; 6] = [
    ROOT_TAKES_LINES,
    ROOT_YIELD,
    Ask::Raise(0),
    Ask::Poll(1),
    OTHER_YIELD,
    THEIR_MASK,
];

// The context after the first instruction of a child.
const NEXT: Ctx = Ctx {
    pc: 0xfffff004,
    regs: [0; 16],
};

/// A guest stores to its page: `others` of `law_guests_of_machines`.
pub fn others<M: Frames + Drop, L: Ledger>(mem: M, steps: &mut Steps<L>)
    requires booted { IsBooted 64 (λ g. zero_words) (M.memory mem) }
    ensures { MeetsOthers pair_world own_store 13 }
{
    law_guests_of_machines();
    boot_and_take(mem, 2, &CHILDREN, &BOTH, &[OWN_STORE], steps);
}

/// A guest loads from its page, on two machines of which the other child is masked on one: `depends` of
/// `law_guests_of_machines`.
pub fn depends<M: Frames + Drop, L: Ledger>(one: M, two: M, steps: &mut Steps<L>)
    requires one { IsBooted 64 (λ g. zero_words) (M.memory one) }
    requires two { IsBooted 64 (λ g. zero_words) (M.memory two) }
    ensures { MeetsDepends pair_world masked_world own_load 13 }
{
    law_guests_of_machines();
    boot_and_take(one, 2, &CHILDREN, &BOTH, &[OWN_LOAD], steps);
    boot_and_take(two, 2, &CHILDREN, &BOTH_ONE_MASKED, &[OWN_LOAD], steps);
}

/// A guest traps on these two, and no partition takes it: `left` of `law_guests_of_machines`.
pub fn left<M: Frames + Drop, L: Ledger>(one: M, two: M, steps: &mut Steps<L>)
    requires one { IsBooted 64 (λ g. zero_words) (M.memory one) }
    requires two { IsBooted 64 (λ g. zero_words) (M.memory two) }
    ensures { MeetsLeft pair_world masked_world own_trap 13 }
{
    law_guests_of_machines();
    boot_and_take(one, 2, &CHILDREN, &BOTH, &[OWN_TRAP], steps);
    boot_and_take(two, 2, &CHILDREN, &BOTH_ONE_MASKED, &[OWN_TRAP], steps);
}

/// The other child stores to its page: `apart` of `law_guests_of_machines`.
pub fn apart<M: Frames + Drop, L: Ledger>(mem: M, steps: &mut Steps<L>)
    requires booted { IsBooted 64 (λ g. zero_words) (M.memory mem) }
    ensures { MeetsApart pair_world their_store 13 }
{
    law_guests_of_machines();
    boot_and_take(mem, 2, &CHILDREN, &BOTH, &[THEIR_STORE], steps);
}

/// One machine takes stores of both children, another that of one: `lists` of `law_guests_of_machines`.
pub fn lists<M: Frames + Drop, L: Ledger>(one: M, two: M, steps: &mut Steps<L>)
    requires one { IsBooted 64 (λ g. zero_words) (M.memory one) }
    requires two { IsBooted 64 (λ g. zero_words) (M.memory two) }
    ensures { MeetsLists pair_world (their_store ∷ own_store ∷ []) 13 }
{
    law_guests_of_machines();
    boot_and_take(one, 2, &CHILDREN, &BOTH, &[THEIR_STORE, OWN_STORE], steps);
    boot_and_take(two, 2, &CHILDREN, &BOTH, &[OWN_STORE], steps);
}

/// One machine takes stores of both children, two others that of one child each: `alone` of `law_guests_of_machines`.
pub fn alone<M: Frames + Drop, L: Ledger>(one: M, two: M, three: M, steps: &mut Steps<L>)
    requires one { IsBooted 64 (λ g. zero_words) (M.memory one) }
    requires two { IsBooted 64 (λ g. zero_words) (M.memory two) }
    requires three { IsBooted 64 (λ g. zero_words) (M.memory three) }
    ensures { MeetsAlone pair_world (own_store ∷ their_store ∷ []) (own_store ∷ []) (their_store ∷ []) 13 22 }
{
    law_guests_of_machines();
    boot_and_take(one, 2, &CHILDREN, &BOTH, &[OWN_STORE, THEIR_STORE], steps);
    boot_and_take(two, 2, &CHILDREN, &BOTH, &[OWN_STORE], steps);
    boot_and_take(three, 2, &CHILDREN, &BOTH, &[THEIR_STORE], steps);
}

/// The root yields to a child, which stores to its page; on the second machine the root stores to a page of its own
/// before: `inputs` of `law_guests_of_machines`.
pub fn inputs<M: Frames + Drop, L: Ledger>(one: M, two: M, steps: &mut Steps<L>)
    requires one { IsBooted 64 (λ g. zero_words) (M.memory one) }
    requires two { IsBooted 64 (λ g. zero_words) (M.memory two) }
    ensures { MeetsInputs root_world root_world (root_yield ∷ own_store ∷ [])
        (root_store ∷ root_yield ∷ own_store ∷ []) 13 }
{
    law_guests_of_machines();
    boot_and_take(one, 2, &CHILDREN, &[], &[ROOT_YIELD, OWN_STORE], steps);
    boot_and_take(
        two,
        2,
        &CHILDREN,
        &[],
        &[ROOT_STORE, ROOT_YIELD, OWN_STORE],
        steps,
    );
}

/// A child has a turn, in which it shows a word; on the second machine the other child has one before: `steps` of
/// `law_guests_of_machines`.
pub fn steps<M: Frames + Drop, L: Ledger>(one: M, two: M, steps: &mut Steps<L>)
    requires one { IsBooted 64 (λ g. zero_words) (M.memory one) }
    requires two { IsBooted 64 (λ g. zero_words) (M.memory two) }
    ensures { MeetsSteps pair_world pair_world [] [] (later_slot ∷ []) (other_slot ∷ later_slot ∷ []) 13 }
{
    law_guests_of_machines();
    let turn = [Ask::Poll(0), Ask::Fetch(0), Ask::SetContext(0, NEXT)];
    boot_and_take(one, 2, &CHILDREN, &BOTH, &turn, steps);
    let turns = [
        Ask::Poll(1),
        Ask::Fetch(1),
        Ask::SetContext(1, NEXT),
        Ask::Poll(0),
        Ask::Fetch(0),
        Ask::SetContext(0, NEXT),
    ];
    boot_and_take(two, 2, &CHILDREN, &BOTH, &turns, steps);
}

/// The root takes the page of one child away, which is no matter of the other: `machines` of `law_ancestors`.
pub fn ancestors<M: Frames + Drop, L: Ledger>(mem: M, steps: &mut Steps<L>)
    requires booted { IsBooted 64 (λ g. zero_words) (M.memory mem) }
    ensures { MeetsAncestors root_world root_removal 13 }
{
    law_ancestors();
    boot_and_take(mem, 2, &CHILDREN, &[], &[ROOT_REMOVAL], steps);
}
