//! What a child has taken of its pool.

use crate::directories::Directories;

/// What a child and the wants so far have taken of the pool.
#[derive(Drop)]
pub struct Taken {
    /// How many pages, from the pool's first on.
    pub pages: usize,
    /// How many tables.
    pub tables: u32,
    /// In which directories.
    pub directories: Directories,
}

impl Taken {
    ghost use Rattle.std.specs.Prelude.{List};
    ghost use Rattle.pip_parent.specs.Seen.{CountsTaken};
    ghost use Rattle.pip_parent.specs.declared.wants.Want.{Want};

    /// What a child without wants has: its five pages.
    pub fn first() -> Self
        ensures { (ws : List Want) → CountsTaken result ws 0 }
    {
        Taken {
            pages: 5,
            tables: 0,
            directories: Directories::new(),
        }
    }
}
