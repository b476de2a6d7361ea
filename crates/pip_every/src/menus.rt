//! Menus: what partitions may do, whatever their programs are.
ghost use Rattle.std.specs.Prelude.{◌≡◌};
ghost use Rattle.pip_every.specs.Menus as menus;

use pip_base::{Frame, Size};
use pip_model::ROOT;

/// How many deeds a menu has at most.
pub const MAX_DEEDS: usize = 1024;

/// One thing that a partition may do where it runs: an event without its processor. What it reads is lost, and its pc
/// stays where it is, unless control moves; a call's reply comes to r0 and r1.
#[derive(Clone, Copy)]
pub enum Deed {
    Load { va: u32, size: Size },
    StoreWord { va: u32, word: u32 },
    StoreByte { va: u32, byte: u8 },
    Trap { vector: u8, a: u32, b: u32 },
    /// Missing arguments are 0.
    Call { number: u32, args: [u32; 5] },
}

/// A line of a menu: the partition of this name may do this, or, without a name, each but the root.
#[derive(Clone, Copy)]
pub struct May {
    pub name: Option<u32>,
    pub deed: Deed,
}

// What room for a menu holds at first.
impl Default for May {
    fn default() -> May {
        May {
            name: None,
            deed: Deed::Load {
                va: 0,
                size: Size::Word,
            },
        }
    }
}

// Whether a partition has this name, or, without one, isn't the root.
fn is_meant(partition: Frame, name: Option<u32>) -> bool
    ensures { result ≡ menus.is_meant 1 partition name }
{
    match name {
        Some(name) => partition.number() == name,
        None => partition.number() != ROOT,
    }
}

/// Whether a line of a menu is of the partition that runs, if one does.
pub(crate) fn is_its(runs: &Option<Frame>, may: &May) -> bool
    ensures { result ≡ menus.is_its 1 runs.now may.now }
{
    match runs {
        Some(partition) => is_meant(*partition, may.name),
        None => false,
    }
}

/// Whether some line of a menu is of the partition that runs, if one does.
pub(crate) fn is_hostile(runs: &Option<Frame>, menu: &[May]) -> bool
    ensures { result ≡ menus.is_hostile 1 runs.now menu.now }
{
    menu.iter().any(|may| is_its(runs, may))
}
