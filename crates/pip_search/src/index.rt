//! Hashes by number, in buckets.
ghost use Rattle.std.specs.Prelude.{◌≡◌, ◌+◌, ◌^◌, ◌<◌, ◌++◌, [], ◌∷◌, IfOk, length, replicate};
ghost use Rattle.pip_search.specs.Filing.{AreLinked, IsFiled};

use std::alloc::{AllocError, Global};

/// Hashes, numbered from 0. Those that leave the same rest on division by the number of buckets are on one chain, the
/// newest first.
#[derive(Drop)]
pub struct Index {
    pub(crate) hashes: Vec<u32>,
    // Per hash: 1 + the next older one in its bucket; 0 if there is none.
    pub(crate) chains: Vec<u32>,
    // Per bucket: 1 + its newest hash; 0 if it is empty.
    pub(crate) heads: Vec<u32>,
}

// Puts hash `at` in front of the chain of its bucket.
fn link(hashes: &[u32], chains: &mut [u32], heads: &mut [u32], at: usize)
    requires at { at < length hashes.now }
    requires few { length hashes.now < 2 ^ 32 }
    requires chains { length chains.old ≡ length hashes.now }
    requires heads { 0 < length heads.old }
    requires linked { AreLinked hashes.now chains.old heads.old at }
    ensures linked { AreLinked hashes.now chains.new heads.new (at + 1) }
{
    let rest = hashes[at] as usize % heads.len();
    chains[at] = heads[rest];
    heads[rest] = at as u32 + 1;
}

// Makes all chains, from empty buckets.
fn relink(hashes: &[u32], chains: &mut [u32], heads: &mut [u32])
    requires few { length hashes.now < 2 ^ 32 }
    requires chains { length chains.old ≡ length hashes.now }
    requires heads { 0 < length heads.old }
    requires none { heads.old ≡ replicate (length heads.old) 0 }
    ensures linked { AreLinked hashes.now chains.new heads.new (length hashes.now) }
{
    for at in 0..hashes.len() {
        link(hashes, chains, heads, at);
    }
}

impl Index {
    /// No hashes. The only error is that memory is out.
    pub(crate) fn new(alloc: Global) -> Result<Index, AllocError>
        ensures filed { IfOk result IsFiled }
        ensures hashes { IfOk result (λ x. x.hashes.items ≡ []) }
    {
        Ok(Index {
            hashes: Vec::new(alloc),
            chains: Vec::new(alloc),
            heads: vec![in alloc; 0u32; 16]?,
        })
    }

    /// Adds a hash. The buckets are doubled if there would be more than two hashes a bucket. The only error is that
    /// memory is out: an index has room for 2^32 - 1 hashes.
    pub(crate) fn add(&mut self, alloc: Global, hash: u32) -> Result<(), AllocError>
        requires filed { IsFiled self.old }
        ensures filed { IfOk result (λ x. IsFiled self.new) }
        ensures hashes { IfOk result (λ x. self.new.hashes.items ≡ self.old.hashes.items ++ hash ∷ []) }
    {
        let at = self.hashes.len();
        if at >= u32::MAX as usize {
            return Err(AllocError);
        }
        self.hashes.push(hash)?;
        self.chains.push(0)?;
        if at / 2 < self.heads.len() {
            link(&self.hashes, &mut self.chains, &mut self.heads, at);
        } else {
            self.heads = vec![in alloc; 0u32; at]?;
            relink(&self.hashes, &mut self.chains, &mut self.heads);
        }
        Ok(())
    }
}
