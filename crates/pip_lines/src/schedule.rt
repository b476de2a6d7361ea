//! Whose turn it is at each step.
ghost use Rattle.std.specs.Prelude.{◌≡◌, ◌≢◌, ℕ, ◌+◌, ◌<◌};
ghost use Rattle.pip_model.specs.Generator.{state_after};
ghost use Rattle.pip_model.specs.Run.{schedule};

use pip_script::Generator;

/// The schedule of a run, on its way.
pub(crate) trait Schedule {
    /// How many processors take turns.
    ghost cpus: { Self → ℕ };

    /// It is the schedule of a seed after that many steps.
    ghost is_at: { Self → ℕ → ℕ → Type 0 };

    /// Whose turn it is at the next step.
    fn next(&mut self) -> u32
        ensures below { result < cpus self.old }
        ensures cpus { cpus self.new ≡ cpus self.old }
        ensures drawn { (seed t : ℕ) → is_at self.old seed t → result ≡ schedule seed (cpus self.old) t }
        ensures on { (seed t : ℕ) → is_at self.old seed t → is_at self.new seed (t + 1) };
}

/// One processor takes each turn, and none is drawn.
#[derive(Drop)]
pub(crate) struct Alone;

impl Schedule for Alone {
    ghost cpus = { λ _. 1 };

    ghost is_at = { λ _ seed t. seed ≡ seed };

    #[inline(always)]
    fn next(&mut self) -> u32 {
        0
    }
}

/// A generator draws one of some processors.
#[derive(Drop)]
pub(crate) struct Drawn {
    generator: Generator,
    cpus: u32,
    ghost some: { cpus ≢ 0 },
}

impl Drawn {
    /// The schedule of a seed that is not 0.
    pub(crate) fn new(seed: u32, cpus: u32) -> Drawn
        requires seed { seed ≢ 0 }
        requires some { cpus ≢ 0 }
        ensures begun { result.generator ≡ seed }
        ensures cpus { result.cpus ≡ cpus }
    {
        Drawn {
            generator: Generator::new(seed),
            cpus,
        }
    }
}

impl Schedule for Drawn {
    ghost cpus = { λ d. d.cpus };

    ghost is_at = { λ d seed t. d.generator ≡ state_after seed t };

    /// A remainder by a number that is known takes no division.
    #[inline(always)]
    fn next(&mut self) -> u32 {
        match self.cpus {
            2 => self.generator.draw(2),
            3 => self.generator.draw(3),
            4 => self.generator.draw(4),
            cpus => self.generator.draw(cpus),
        }
    }
}
