//! mappedInChild. Nothing here writes.
ghost use Rattle.std.specs.Prelude.{◌≡◌, ◌≤◌, ◌+◌, ◌*◌, ◌/◌};
ghost use Rattle.pip_entry.specs.Sh1.{packed_sh1};
ghost use Rattle.pip_kern.specs.Calls.{IsAnswer};
ghost use Rattle.pip_model.specs.MappedInChild.{mapped_in_child};
ghost use Rattle.pip_model.specs.Partitions.{HasPartition, InEach};

use pip_base::{Frame, Status, Steps, VPage};
use pip_entry::Sh1;
use pip_frames::Frames;
use pip_kern::check_places;
use pip_space::{given, leaf_word};
use std::sync::ledger::Ledger;

// The address of the descriptor of the child to which a page is given, 0 where it is free.
fn born_of(given: Sh1) -> u32
    ensures { result ≡ packed_sh1 given / 4096 * 4096 }
{
    match given {
        Sh1::Free => 0,
        Sh1::Descriptor(born) => born.number() * 4096,
        Sh1::Config(born) => born.number() * 4096,
        Sh1::Lent(born) => born.number() * 4096,
    }
}

/// mappedInChild for `caller`: docs/MODEL.md, "mappedInChild (call 7)": the address of the descriptor of the caller's
/// child that holds the page which the caller maps at `v`, or 0 where it is free. At most 6 steps.
pub fn mapped_in_child<M: Frames, L: Ledger>(
    mem: &M,
    caller: Frame,
    v: u32,
    steps: &mut Steps<L>,
) -> Result<u32, Status>
    requires { HasPartition (M.memory mem.now) caller }
    ensures answer { InEach (M.memory mem.now) caller (λ t x. IsAnswer result (mapped_in_child t caller v)) }
    ensures steps { steps.new ≤ steps.old + 6 }
{
    check_places(&[v])?;
    let page = VPage::of_address(v);
    if leaf_word(mem, caller, page, steps) == 0 {
        return Err(Status::NotMapped);
    }
    Ok(born_of(given(mem, caller, page, steps)))
}
