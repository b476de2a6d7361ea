//! Pages that the caller gives to a child as configuration, and takes back. Each function here is called in the middle
//! of a call: each node of the tree has rows that are its own but for user bits and for which child a page is given to.
//! No child of the caller has a page that is given or taken back.
ghost use Rattle.std.specs.Prelude.{◌≡◌, ◌≢◌, ◌+◌, ◌*◌, ◌≤◌, length};
ghost use Rattle.pip_model.specs.Answers.{pair_frames};
ghost use Rattle.pip_entry.specs.Sh1.{IsSh1, packed_sh1};
ghost use Rattle.pip_kern.specs.Taking.{CanTakePage, CanTakePages, TakesPage, TakesPages};
ghost use Rattle.pip_kern.specs.Taking.{TakesPageIn, TakesPagesIn};
ghost use Rattle.pip_kern.specs.Giving.{CanGivePage, CanGivePages, GivesPage, GivesFurtherPages};
ghost use Rattle.pip_kern.specs.Giving.{GivesPageIn, GivesPagesIn};

use crate::hiding::{hide, show};
use pip_base::{Frame, Pair, Steps, VPage};
use pip_entry::Sh1;
use pip_frames::Frames;
use pip_space::set_given;
use std::sync::ledger::Ledger;

/// Gives the page that the caller has at a virtual page to a child: it is hidden in the caller and all its ancestors,
/// and the caller's first shadow says to which child it is given. The vpage of `given`, unless that is `Free`, isn't 0.
pub fn give_page<M: Frames, L: Ledger>(
    mem: &mut M,
    caller: Frame,
    v: VPage,
    given: Sh1,
    steps: &mut Steps<L>,
)
    requires can { CanGivePage (M.memory mem.old) caller v (packed_sh1 given) }
    requires given { IsSh1 given }
    ensures count { length (M.memory mem.new) ≡ length (M.memory mem.old) }
    ensures given { GivesPage caller v (packed_sh1 given) (M.memory mem.old) (M.memory mem.new) }
    ensures steps { steps.new ≤ steps.old + 7 * length (M.memory mem.old) + 2 }
    ensures chain { GivesPageIn caller v (packed_sh1 given) (M.memory mem.old) steps.old steps.new }
{
    hide(mem, caller, v, steps);
    set_given(mem, caller, v, given, steps);
}

/// Gives pages of the caller, one after another, as further configuration of the child whose descriptor it has at the
/// virtual page `born`.
pub fn give_pages<M: Frames, L: Ledger>(
    mem: &mut M,
    caller: Frame,
    born: VPage,
    pages: &[Pair],
    steps: &mut Steps<L>,
)
    requires can { CanGivePages (M.memory mem.old) caller born pages.now }
    requires place { born ≢ 0 }
    ensures count { length (M.memory mem.new) ≡ length (M.memory mem.old) }
    ensures given { GivesFurtherPages caller born pages.now (pair_frames pages.now)
        (M.memory mem.old) (M.memory mem.new) }
    ensures steps { steps.new ≤ steps.old + length pages.now * (7 * length (M.memory mem.old) + 2) }
    ensures chain { GivesPagesIn caller born pages.now (length pages.now) (M.memory mem.old) steps.old steps.new }
{
    for page in pages {
        give_page(
            mem,
            caller,
            VPage::of_address(page.va),
            Sh1::Config(born),
            steps,
        );
    }
}

/// Takes the page that the caller has at a virtual page back from a child: it is opened in the caller and all its
/// ancestors, and the caller's first shadow says that no child has it.
pub fn take_page<M: Frames, L: Ledger>(mem: &mut M, caller: Frame, v: VPage, steps: &mut Steps<L>)
    requires { CanTakePage (M.memory mem.old) caller v }
    ensures count { length (M.memory mem.new) ≡ length (M.memory mem.old) }
    ensures taken { TakesPage caller v (M.memory mem.old) (M.memory mem.new) }
    ensures steps { steps.new ≤ steps.old + 7 * length (M.memory mem.old) + 2 }
    ensures chain { TakesPageIn caller v (M.memory mem.old) steps.old steps.new }
{
    show(mem, caller, v, steps);
    set_given(mem, caller, v, Sh1::Free, steps);
}

/// Takes pages of the caller back from a child, one after another.
pub fn take_pages<M: Frames, L: Ledger>(
    mem: &mut M,
    caller: Frame,
    pages: &[Pair],
    steps: &mut Steps<L>,
)
    requires { CanTakePages (M.memory mem.old) caller pages.now }
    ensures count { length (M.memory mem.new) ≡ length (M.memory mem.old) }
    ensures taken { TakesPages caller pages.now (pair_frames pages.now)
        (M.memory mem.old) (M.memory mem.new) }
    ensures steps { steps.new ≤ steps.old + length pages.now * (7 * length (M.memory mem.old) + 2) }
    ensures chain { TakesPagesIn caller pages.now (length pages.now) (M.memory mem.old) steps.old steps.new }
{
    for page in pages {
        take_page(mem, caller, VPage::of_address(page.va), steps);
    }
}
