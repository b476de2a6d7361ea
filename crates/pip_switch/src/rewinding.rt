//! Frames that a machine can take back to their first words.
ghost use Rattle.std.specs.Prelude.{◌≡◌, length};
ghost use Rattle.pip_base.specs.Memory.{Memory};
ghost use Rattle.pip_switch.specs.Rewinding.{ArePlaces, rewritten};

use pip_base::Steps;
use pip_frames::Frames;
use std::sync::ledger::Ledger;

/// Frames that can be taken back to the words that they had at first.
pub trait Rewind: Frames {
    /// Those words.
    ghost first: { Memory };

    /// Takes the frames back to their first words, and writes some words over them. Each word comes after its place,
    /// which is 1024 times its frame plus its index there.
    fn rewind<L: Ledger>(&mut self, words: &[u32], steps: &mut Steps<L>)
        requires { ArePlaces (length first) words.now }
        ensures { Self.memory self.new ≡ rewritten first words.now };
}
