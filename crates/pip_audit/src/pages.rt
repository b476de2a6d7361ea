//! The pages of a node's configuration, one after the other.
ghost use Rattle.std.specs.Prelude.{◌≡◌, ◌<◌, None, length};
ghost use Rattle.pip_model.specs.ReadOff.{node_read, node_stop};
ghost use Rattle.pip_model.specs.Tree.{pairs};
ghost use Rattle.pip_audit.specs.Givens.{given_seen, held_pair, pair_by};

use crate::nodes::list_page;
use pip_base::{Frame, Steps};
use pip_entry::descriptor::TABLES;
use pip_entry::list_page::{FIRST_SLOT, NEXT_FRAME, NEXT_VA, SLOT_WORDS, SLOTS};
use pip_frames::Frames;
use pip_model::lists;
use std::sync::ledger::Ledger;

/// A page, and the address at which its node says that the parent maps it.
#[derive(Clone, Copy, Debug, PartialEq, Eq)]
pub(crate) struct Given {
    pub va: u32,
    pub frame: u32,
}

/// How many pages the configuration of a node has.
pub(crate) fn count_pages<M: Frames, L: Ledger>(mem: &M, part: Frame, steps: &mut Steps<L>) -> u32
    requires part { part < length (M.memory mem.now) }
    requires passes { node_stop (M.memory mem.now) part ≡ None }
    ensures { result ≡ length (pairs (node_read (M.memory mem.now) part)) }
{
    let count = mem.word(part, TABLES, steps);
    5 + 3 * count + (lists(count) - 1)
}

// The page that two words name.
fn given_by<M: Frames, L: Ledger>(
    mem: &M,
    f: Frame,
    va: u32,
    frame: u32,
    steps: &mut Steps<L>,
) -> Given
    requires frame { f < length (M.memory mem.now) }
    requires va { va < 1024 }
    requires number { frame < 1024 }
    ensures { given_seen result ≡ pair_by (M.memory mem.now) f va frame }
{
    Given {
        va: mem.word(f, va, steps),
        frame: mem.word(f, frame, steps),
    }
}

/// Page `k` of the configuration: the base, then three pages for each slot, then the list pages but the first.
pub(crate) fn page<M: Frames, L: Ledger>(
    mem: &M,
    part: Frame,
    k: u32,
    steps: &mut Steps<L>,
) -> Given
    requires part { part < length (M.memory mem.now) }
    requires passes { node_stop (M.memory mem.now) part ≡ None }
    requires few { k < length (pairs (node_read (M.memory mem.now) part)) }
    ensures page { given_seen result ≡ held_pair (M.memory mem.now) part k }
    ensures inside { result.frame < length (M.memory mem.now) }
{
    if k < 5 {
        return given_by(mem, part, 2 * k, 2 * k + 1, steps);
    }
    let count = mem.word(part, TABLES, steps);
    if k < 5 + 3 * count {
        let slot = (k - 5) / 3;
        let at = list_page(mem, part, slot / SLOTS, steps);
        let i = FIRST_SLOT + SLOT_WORDS * (slot % SLOTS) + 2 * ((k - 5) % 3);
        return given_by(mem, at, i, i + 1, steps);
    }
    let at = list_page(mem, part, k - 5 - 3 * count, steps);
    given_by(mem, at, NEXT_VA, NEXT_FRAME, steps)
}
