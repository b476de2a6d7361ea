//! What a transducer promises.
ghost use Rattle.std.specs.Prelude.{◌≡◌, ◌≤◌, ℕ, Bool, true, [], length};
ghost use Rattle.pip_io.specs.Due.{DueOf, Loose};
ghost use Rattle.pip_io.specs.Steps.{Steps};
ghost use Rattle.pip_io.specs.Texts.{text_bytes};

use crate::Text;

/// What a transducer does with the bytes before it.
pub enum Step<E> {
    /// It wants more, up to that many.
    Read(usize),
    /// It has taken that many of them, and the text is due with more text.
    Say(usize),
    /// It has taken that many of them, and the text is due before anything else is done.
    Write(usize),
    /// It is done, and the text is the last.
    End(E),
}

/// A command without streams.
pub trait Transducer {
    /// What it ends with.
    type End: Drop;

    /// What is due of the bytes that follow.
    ghost due: { Self → DueOf Self.End };

    /// How many bytes may stand before it at most.
    ghost room: { Self → ℕ };

    /// How many parts it takes at most.
    ghost parts: { Self → ℕ };

    /// Whether its text may be out in any pieces.
    ghost is_loose: { Bool };

    /// Makes a step, by the bytes that were read and not yet taken. `ended` says that no more follow.
    fn step(&mut self, front: &[u8], ended: bool, text: &mut Text) -> Step<Self::End>
        requires room { length front.now ≤ room self.old }
        requires none { text_bytes text.old ≡ [] }
        ensures { Steps due room parts is_loose self.old self.new front.now ended (text_bytes text.new) result };

    ghost loose: { (m : Self) → is_loose ≡ true → Loose (due m) };
}
