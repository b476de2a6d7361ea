//! The calls of a source or a sink in memory, counted, with those that fail.
ghost use Rattle.std.specs.Prelude.{◌≡◌, ◌≤◌};
ghost use Rattle.pip_io.specs.Causes.{next_count, is_listed};

use crate::Failed;

/// How many calls were made and how many failed; the counts stop at 2^64 - 1. Call k, counted from 1, fails if k is in
/// `failing`.
#[derive(Debug, Drop)]
pub struct Calls<'a> {
    failing: &'a [u32],
    made: u64,
    failed: u64,
}

impl<'a> Calls<'a> {
    /// No call was made yet.
    pub fn new(failing: &'a [u32]) -> Calls<'a>
        ensures failing { result.failing.now ≡ failing.now }
        ensures made { result.made ≡ 0 }
        ensures failed { result.failed ≡ 0 }
    {
        Calls {
            failing,
            made: 0,
            failed: 0,
        }
    }

    /// Counts one more call, and answers whether its number is listed.
    pub fn make(&mut self) -> bool
        ensures made { self.new ≡ record self.old { made = next_count self.old.made } }
        ensures listed { result ≡ is_listed self.old.failing.now self.new.made }
    {
        self.made = self.made.saturating_add(1);
        let number = self.made;
        self.failing.iter().any(|call| u64::from(*call) == number)
    }

    /// Counts one more fault.
    pub fn fail(&mut self) -> Failed
        ensures failed { self.new ≡ record self.old { failed = next_count self.old.failed } }
        ensures later { self.old.failed ≤ self.new.failed }
    {
        self.failed = self.failed.saturating_add(1);
        Failed
    }
}
