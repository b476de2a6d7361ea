//! The ways to the labels that were found.
ghost use Rattle.std.specs.Prelude.{◌≡◌, IfOk, map};
ghost use Rattle.pip_search.specs.Ways.{AreTraced};
ghost use Rattle.pip_every.specs.Told.{runs_to};

use pip_search::{Run, Search, runs};
use std::alloc::{AllocError, Global};

/// The runs of the way to each label that was found, in the order of `search.found`. The only error is that memory is
/// out.
pub fn ways_of(alloc: Global, search: &Search) -> Result<Vec<Vec<Run>>, AllocError>
    requires { AreTraced search.now.visits.items search.now.found.items }
    ensures { IfOk result (λ ways. map (λ way. way.items) ways.items
        ≡ runs_to search.now.visits.items search.now.found.items) }
{
    let mut ways = Vec::new(alloc);
    for k in 0..search.found.len() {
        ways.push(runs(alloc, search, k)?)?;
    }
    Ok(ways)
}
