//! What is searched.
ghost use Rattle.std.specs.Prelude.{◌≡◌, ◌<◌, [], All, IfOk, IsTrue};
ghost use Rattle.pip_search.specs.Systems.{IsKey, LeadsAlong, LeadsOn, Model};

use std::alloc::{AllocError, Global};
use std::mem;

/// A system of states, by keys: lists of words, each of which stands for a state. A choice made in a state leads to
/// another state, and shows some bytes.
pub trait System {
    /// What never changes while choices are made.
    ghost Base: { Type 0 };

    ghost base: { Self → Base };

    /// The states, their choices, and the keys.
    ghost model: { Base → Model };

    /// How many choices there are in each state.
    fn count(&self) -> u32
        ensures { result ≡ (model (base self.now)).choices };

    /// A number with which the hashes of a search begin. It should be drawn from all that the states are made of, so
    /// that nobody can choose a system whose keys have equal hashes. What a search says doesn't depend on it.
    fn seed(&self) -> u64;

    /// Whether it is plain from a key that a choice leads back to it and shows nothing. Then nothing is made. It may
    /// always answer no.
    fn stays(&self, from: &[u32], choice: u32) -> bool
        requires key { IsKey (model (base self.now)) from.now }
        requires choice { choice < (model (base self.now)).choices }
        ensures stays { IsTrue result → LeadsOn (model (base self.now)) from.now choice from.now [] }
    {
        let _ = from;
        let _ = choice;
        false
    }

    /// Makes a choice in the state for which a key stands. Afterwards `to` is a key of the next state, and `shown` what
    /// was shown, whatever they had before. The only error is that memory is out.
    fn make(
        &mut self,
        from: &[u32],
        choice: u32,
        to: &mut Vec<u32>,
        shown: &mut Vec<u8>,
    ) -> Result<(), AllocError>
        requires key { IsKey (model (base self.old)) from.now }
        requires choice { choice < (model (base self.old)).choices }
        ensures leads { IfOk result (λ x. LeadsOn (model (base self.old)) from.now choice to.new.items
            shown.new.items) }
        ensures base { base self.new ≡ base self.old };

    /// Makes the choices of a way, one after the other, in the state for which a key stands. Afterwards `to` is a key
    /// of the last state. What the choices show isn't kept. The only error is that memory is out.
    fn follow(
        &mut self,
        alloc: Global,
        from: &[u32],
        way: &[u32],
        to: &mut Vec<u32>,
    ) -> Result<(), AllocError>
        requires key { IsKey (model (base self.old)) from.now }
        requires choices { All (λ c. c < (model (base self.old)).choices) way.now }
        ensures leads { IfOk result (λ x. LeadsAlong (model (base self.old)) from.now way.now to.new.items) }
        ensures base { base self.new ≡ base self.old }
    {
        let mut here = Vec::new(alloc);
        let mut shown = Vec::new(alloc);
        to.clear();
        to.extend_from_slice(from)?;
        for choice in way {
            mem::swap(&mut here, to);
            self.make(&here, *choice, to, &mut shown)?;
        }
        Ok(())
    }
}
