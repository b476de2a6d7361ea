//! The rights of a page.
ghost use Rattle.std.specs.Prelude.{⊤, [], ◌∷◌, codes};

use bitflags::{Flag, Flags, bitflag_items};

/// What a partition may do with a page: READ 1, WRITE 2, EXEC 4.
#[derive(Clone, Copy, PartialEq, Eq, Debug)]
pub struct Rights(u32);

bitflag_items! {
    impl Rights: u32 {
        const READ = 1;
        const WRITE = 2;
        const EXEC = 4;
    }
}

impl Flags for Rights {
    type Bits = u32;

    ghost exact = { ⊤ };

    ghost table = { (codes "READ", 1) ∷ (codes "WRITE", 2) ∷ (codes "EXEC", 4) ∷ [] };

    ghost set_of = { λ r. r.0 };

    fn flags<'a>() -> &'a [Flag<Rights>] {
        Rights::FLAGS
    }

    fn bits(&self) -> u32 {
        self.0
    }

    fn from_bits_retain(bits: u32) -> Rights {
        Rights(bits)
    }
}
