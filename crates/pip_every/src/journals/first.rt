//! The first words of frames, as a type.
ghost use Rattle.std.specs.Prelude.{[]};
ghost use Rattle.pip_base.specs.Memory.{Memory};

use std::marker::Brand;

/// The first words of some frames, to which they are taken back, as a type.
pub trait First {
    /// Those words.
    ghost words: { Memory };
}

impl First for Brand {
    ghost words = { [] };
}
