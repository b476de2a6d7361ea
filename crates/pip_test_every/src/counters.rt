//! Counters below a bound, as a system of states.
ghost use Rattle.std.specs.Prelude.{◌≡◌, ℕ, ◌+◌, ◌%◌, ◌<◌};
ghost use Rattle.pip_test_every.specs.Counting.{counters};

use pip_search::System;
use std::alloc::AllocError;

/// Two counters below a bound. Each choice counts one of them up. Hashes begin with the seed.
#[derive(Drop)]
pub struct Counters {
    pub bound: u32,
    pub seed: u64,
}

// Counts one up, and to 0 at the bound.
fn count_up(bound: u32, k: u32) -> u32
    requires { k < bound }
    ensures { result ≡ (k + 1) % bound }
{
    (k + 1) % bound
}

impl System for Counters {
    ghost Base = { ℕ };

    ghost base = { λ s. s.bound };

    ghost model = { counters };

    fn count(&self) -> u32 {
        2
    }

    fn seed(&self) -> u64 {
        self.seed
    }

    fn make(
        &mut self,
        from: &[u32],
        choice: u32,
        to: &mut Vec<u32>,
        shown: &mut Vec<u8>,
    ) -> Result<(), AllocError> {
        to.clear();
        shown.clear();
        let mut first = from[0];
        let mut second = from[1];
        let new = if choice == 0 {
            first = count_up(self.bound, first);
            first
        } else {
            second = count_up(self.bound, second);
            second
        };
        to.push(first)?;
        to.push(second)?;
        if new == 0 {
            shown.push(7)?;
        } else if first + 1 == self.bound && second + 1 == self.bound {
            shown.push(9)?;
        }
        Ok(())
    }
}
