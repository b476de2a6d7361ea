//! Where a descriptor names the directory of a level.
ghost use Rattle.std.specs.Prelude.{◌≡◌};
ghost use Rattle.pip_space.specs.Levels.{descriptor_index};

use pip_entry::descriptor::{MMU_FRAME, SHADOW1_FRAME, SHADOW2_FRAME};
use pip_model::Level;

/// The index of the descriptor's word that names the directory's frame.
pub(crate) fn place(level: Level) -> u32
    ensures { result ≡ descriptor_index level }
{
    match level {
        Level::Mmu => MMU_FRAME,
        Level::Shadow1 => SHADOW1_FRAME,
        Level::Shadow2 => SHADOW2_FRAME,
    }
}
