//! countToMap. Nothing here writes.
ghost use Rattle.std.specs.Prelude.{◌≡◌, ◌+◌, ◌≤◌};
ghost use Rattle.pip_model.specs.CountToMap.{count_to_map, pages_needed};
ghost use Rattle.pip_model.specs.Partitions.{HasPartition, InEach};
ghost use Rattle.pip_model.specs.NodeIn.{HasNode};
ghost use Rattle.pip_space.specs.Nodes.{InEachNode};
ghost use Rattle.pip_kern.specs.Calls.{IsAnswer};

use pip_base::{Frame, Status, Steps, VPage};
use pip_entry::descriptor::TABLES;
use pip_frames::Frames;
use pip_kern::check_child;
use pip_model::lists;
use pip_space::has_table;
use std::sync::ledger::Ledger;

/// How many pages a partition needs to have a table for a virtual page: 0, 3 or 4.
pub(crate) fn pages_needed<M: Frames, L: Ledger>(
    mem: &M,
    part: Frame,
    v: VPage,
    steps: &mut Steps<L>,
) -> u32
    requires { HasNode (M.memory mem.now) part }
    ensures pages { InEachNode (M.memory mem.now) part (λ x cells. result ≡ pages_needed x v) }
    ensures steps { steps.new ≤ steps.old + 3 }
{
    if has_table(mem, part, v.number() / 1024, steps) {
        return 0;
    }
    let tables = mem.word(part, TABLES, steps);
    3 + lists(tables + 1) - lists(tables)
}

/// countToMap for `caller`: docs/MODEL.md, "countToMap (call 2)". `d` is the address of the child's descriptor, `cv` an
/// address in the child. The answer is the number of pages, 0, 3 or 4.
pub fn count_to_map<M: Frames, L: Ledger>(
    mem: &M,
    caller: Frame,
    d: u32,
    cv: u32,
    steps: &mut Steps<L>,
) -> Result<u32, Status>
    requires { HasPartition (M.memory mem.now) caller }
    ensures answer { InEach (M.memory mem.now) caller (λ t x. IsAnswer result (count_to_map t caller d cv)) }
    ensures steps { steps.new ≤ steps.old + 9 }
{
    let child = check_child(mem, caller, &[d, cv], d, steps)?;
    Ok(pages_needed(mem, child, VPage::of_address(cv), steps))
}
