//! The generator that draws processors and events (docs/FORMATS.md, "Generator").
ghost use Rattle.std.specs.Prelude.{◌≡◌, ◌≢◌, ◌<◌, ◌%◌, ℕ};
ghost use Rattle.pip_model.specs.Generator.{next_state};

use std::marker::Model;

/// A generator of numbers: its state, which is not 0.
#[derive(Clone, Debug, Drop)]
pub struct Generator {
    state: u32,
}

impl Model for Generator {
    ghost Value = { ℕ };

    ghost view = { λ g. g.state };
}

impl Generator {
    /// A generator that begins at a state other than 0.
    pub fn new(state: u32) -> Generator
        requires { state ≢ 0 }
        ensures { result ≡ state }
    {
        Generator { state }
    }

    /// Goes on to the next state, and answers its remainder by `n`, which is not 0.
    #[tactic(auto, unfolding(pip_model::specs::Generator::next_state))]
    pub fn draw(&mut self, n: u32) -> u32
        requires { n ≢ 0 }
        ensures state { self.new ≡ next_state self.old }
        ensures drawn { result ≡ next_state self.old % n }
        ensures below { result < n }
    {
        let mut state = self.state;
        state ^= state.wrapping_shl(13);
        state ^= state >> 17;
        state ^= state.wrapping_shl(5);
        self.state = state;
        state % n
    }
}
