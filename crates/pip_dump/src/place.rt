//! The walk from partition to partition, depth first.
ghost use Rattle.std.specs.Prelude.{◌≡◌, ◌≤◌, ◌^◌, List};
ghost use Rattle.pip_model.specs.Partitions.{HasPartition, InEach, IsHeld};
ghost use Rattle.pip_model.specs.Tree.{Node, Tree, vpage};
ghost use Rattle.pip_dump.specs.Walk.{IsAt, IsNextChild, IsNextPlace};

use crate::tables::{child_in, table_words};
use pip_base::{Frame, Steps, VPage};
use pip_entry::descriptor::SELF_VA;
use pip_frames::Frames;
use pip_kern::parent_of;
use pip_model::{Level, ROOT};
use pip_space::next_tables;
use std::sync::ledger::Ledger;

/// Where the walk stands: at a partition with `depth` ancestors.
#[derive(Clone, Copy, Debug)]
pub(crate) struct WalkPlace {
    pub part: Frame,
    pub depth: u32,
}

/// Where the walk begins.
pub(crate) fn first_place() -> WalkPlace
    ensures part { result.part ≡ 1 }
    ensures depth { result.depth ≡ 0 }
{
    WalkPlace {
        part: Frame::new(ROOT),
        depth: 0,
    }
}

// The child whose descriptor stands first from a virtual page on, which may be 2^20. None where there is none.
fn next_child<M: Frames, L: Ledger>(
    mem: &M,
    part: Frame,
    from: u32,
    steps: &mut Steps<L>,
) -> Option<Frame>
    requires part { HasPartition (M.memory mem.now) part }
    requires page { from ≤ 2 ^ 20 }
    ensures { InEach (M.memory mem.now) part (λ t x. IsNextChild t x from result) }
{
    let mut v = from;
    while let Some(i) = next_tables(mem, part, v / 1024, steps) {
        let low = v.max(1024 * i) % 1024;
        let leaves = table_words(mem, part, Level::Mmu, i, steps);
        let given = table_words(mem, part, Level::Shadow1, i, steps);
        if let Some(child) = child_in(leaves, given, low) {
            return Some(child);
        }
        v = 1024 * i + 1024;
    }
    None
}

// The virtual page at which the parent has a partition's descriptor.
fn birthplace<M: Frames, L: Ledger>(mem: &M, part: Frame, steps: &mut Steps<L>) -> VPage
    requires { HasPartition (M.memory mem.now) part }
    ensures { InEach (M.memory mem.now) part (λ t x. result ≡ vpage x.born) }
{
    VPage::of_address(mem.word(part, SELF_VA, steps))
}

/// The next place of the walk: at the first child, or else at the next child of the nearest ancestor that has one. None
/// after the last. It needs no memory: the way up is the parents that the descriptors name, and the search for the next
/// child begins where the last one stands.
pub(crate) fn next_place<M: Frames, L: Ledger>(
    mem: &M,
    place: &WalkPlace,
    steps: &mut Steps<L>,
) -> Option<WalkPlace>
    requires part { HasPartition (M.memory mem.now) place.now.part }
    requires depth { place.now.depth ≤ 4096 }
    ensures { (t : Tree) (rest : List Node) → IsHeld t (M.memory mem.now) →
        IsAt t place.now.part place.now.depth 0 rest → IsNextPlace t rest result }
{
    let mut part = place.part;
    let mut depth = place.depth;
    let mut after = 0;
    loop {
        if let Some(child) = next_child(mem, part, after, steps) {
            return Some(WalkPlace {
                part: child,
                depth: depth + 1,
            });
        }
        if depth == 0 {
            return None;
        }
        after = birthplace(mem, part, steps).number() + 1;
        part = parent_of(mem, part, steps);
        depth -= 1;
    }
}
