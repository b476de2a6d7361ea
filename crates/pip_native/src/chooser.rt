//! What chooses the next child.
ghost use Rattle.std.specs.Prelude.{ℕ};

/// A choice of the next child, by the bits of the children that are alive and the place of the one that was chosen
/// last. Each closure that takes these two words and answers a place is one.
pub trait Chooser {
    /// It may be asked of these.
    ghost may_choose: { Self → ℕ → ℕ → Type 0 };

    /// It may choose so of these.
    ghost chooses: { Self → ℕ → ℕ → ℕ → Type 0 };

    fn choose(&self, alive: u32, last: u32) -> u32
        requires { may_choose self.now alive last }
        ensures { chooses self.now alive last result };
}

impl<F: Fn(u32, u32) -> u32> Chooser for F {
    ghost may_choose = { λ f alive last. F.pre f alive last };

    ghost chooses = { λ f alive last r. F.post f alive last r };

    fn choose(&self, alive: u32, last: u32) -> u32 {
        self(alive, last)
    }
}
