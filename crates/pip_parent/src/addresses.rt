//! The addresses of the wants so far.
ghost use Rattle.std.specs.Prelude.{◌≡◌, ◌≤◌, ◌<◌, ◌+◌, ◌==◌, length, List, replicate};
ghost use Rattle.pip_parent.specs.Seen.{chain_of_want as chain_number};

use crate::wants::Want;

/// The wants so far by their addresses: a hash table of 4096 chains, by the vpage and its directory index. At most 257
/// addresses share one, and next to none of neighbouring pages, or of pages at one place in several directories. So a
/// want looks at few others, and no memory is taken: the table is 16 KiB of the stack, where a bit for each of the 2^20
/// vpages would be 128.
#[derive(Drop)]
pub struct WantsByAddress {
    /// For each chain the place of its latest want, plus 1; 0 where it has none.
    pub latest: [u16; 4096],
    /// For each want the same of the one before it in its chain.
    pub before: [u16; 4096],
}

// The number is a parameter, since a list of 4096 is long to compute with.
fn zeros<const N: usize>() -> [u16; N]
    ensures { result ≡ replicate N 0 }
{
    [0; N]
}

fn chain_of(want: Want) -> usize
    ensures chain { result ≡ chain_number want }
    ensures low { result < 4096 }
{
    let vpage = want.va / 4096;
    ((vpage + vpage / 1024) % 4096) as usize
}

impl WantsByAddress {
    ghost use Rattle.pip_parent.specs.declared.wants.Want.{Want};
    ghost use Rattle.pip_parent.specs.Wants.{earlier, want_at};
    ghost use Rattle.pip_parent.specs.Seen.{KnowsAddresses};

    pub fn new() -> Self
        ensures { (ws : List Want) → KnowsAddresses result ws 0 }
    {
        WantsByAddress {
            latest: zeros(),
            before: zeros(),
        }
    }

    /// Whether a want before i has the address of want i, where the wants so far are those before i.
    pub fn has(&self, wants: &[Want], i: usize) -> bool
        requires few { length wants.now ≤ 4096 }
        requires low { i < length wants.now }
        requires known { KnowsAddresses self.now wants.now i }
        ensures { result ≡ earlier (λ v. v.va == (want_at wants.now i).va) wants.now i }
    {
        let mut at = self.latest[chain_of(wants[i])] as usize;
        while at > 0 {
            if wants[at - 1].va == wants[i].va {
                return true;
            }
            at = self.before[at - 1] as usize;
        }
        false
    }

    /// Want i is one of the wants so far, which were those before i.
    pub fn add(&mut self, wants: &[Want], i: usize)
        requires few { length wants.now ≤ 4096 }
        requires low { i < length wants.now }
        requires known { KnowsAddresses self.old wants.now i }
        ensures { KnowsAddresses self.new wants.now (i + 1) }
    {
        let chain = chain_of(wants[i]);
        self.before[i] = self.latest[chain];
        self.latest[chain] = (i + 1) as u16;
    }
}
