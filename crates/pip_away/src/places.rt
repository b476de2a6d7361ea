//! Where accesses lead.
ghost use Rattle.std.specs.Prelude.{◌≡◌, ◌<◌, IfOk, length};
ghost use Rattle.pip_mmu.specs.Answers.{place_answer};
ghost use Rattle.pip_model.specs.Partitions.{HasPartition, InEach};
ghost use Rattle.pip_model.specs.Reach.{is_misaligned, reach};

use pip_base::{Access, Frame, Size, Steps};
use pip_frames::Frames;
use pip_mmu::{AccessFault, translate};
use std::sync::ledger::Ledger;

// Whether an access of this size can't be at an address.
fn is_misaligned(va: u32, size: Size) -> bool
    ensures { result ≡ is_misaligned va size }
{
    match size {
        Size::Word => va % 4 != 0,
        Size::Byte => false,
    }
}

/// The page and the index of the word in it that an access of a partition reaches, or its fault.
pub(crate) fn locate<M: Frames, L: Ledger>(
    mem: &M,
    part: Frame,
    va: u32,
    size: Size,
    access: Access,
    steps: &mut Steps<L>,
) -> Result<(Frame, u32), AccessFault>
    requires { HasPartition (M.memory mem.now) part }
    ensures place { InEach (M.memory mem.now) part (λ t x. result ≡ place_answer (reach t part va access size)) }
    ensures inside { IfOk result (λ y. y.0 < length (M.memory mem.now)) }
    ensures index { IfOk result (λ y. y.1 < 1024) }
{
    if is_misaligned(va, size) {
        return Err(AccessFault::Alignment);
    }
    match translate(mem, part, va, access, steps) {
        Ok(found) => Ok(found),
        Err(fault) => Err(AccessFault::Mmu(fault)),
    }
}
