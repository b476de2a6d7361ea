//! Whether all outside looks away.
ghost use Rattle.std.specs.Prelude.{◌≡◌, ℕ, IfOk};
ghost use Rattle.pip_search.specs.Again.{HasClosed};
ghost use Rattle.pip_search.specs.Keys.{visits_of};
ghost use Rattle.pip_search.specs.Systems.{IsKey};
ghost use Rattle.pip_search.specs.Ways.{AreTraced};
ghost use Rattle.pip_search.specs.declared.searching.Extent.TheVariants.{Closed};
ghost use Rattle.pip_away.specs.Blind.{left_out};
ghost use Rattle.pip_every.specs.Away.{IsAwayReply, IsAwaySaid};
ghost use Rattle.pip_every.specs.Explored.{explored};
ghost use Rattle.pip_every.specs.Keys.{IsKeyOf};
ghost use Rattle.pip_every.specs.Menus.{menu_model};
ghost use Rattle.pip_every.specs.Moments.{Moment};
ghost use Rattle.pip_every.specs.Passing.{FirstLooks, LooksFirst};

use crate::explorer::Explorer;
use crate::journals::First;
use pip_away::Blind;
use pip_search::{Extent, Run, Search, runs_to};
use std::alloc::{AllocError, Global};
use std::sync::ledger::Ledger;

/// What is said of whether all outside looks away.
#[derive(Drop)]
pub enum Away {
    /// Wherever choices lead, the state passes the test on each processor.
    Yes,
    /// The state after this way fails on this processor, the first on which it does, and none does after a way before
    /// this one: its runs of equal choices, in the order in which they are made.
    No { way: Vec<Run>, cpu: u32 },
    /// Nothing: the search didn't close.
    Unknown,
}

// The first processor on which the moment of a key fails the test.
fn first_cpu<F: First, L: Ledger>(
    explorer: &mut Explorer<F, L>,
    key: &[u32],
    blind: &Blind,
) -> Option<u32>
    requires { IsKey (menu_model F.words (explored explorer.old)) key.now }
    ensures looks { (m : Moment) → IsKeyOf F.words (explored explorer.old).scope key.now m
        → FirstLooks (left_out blind.now) (explored explorer.old) m.world result }
    ensures base { explored explorer.new ≡ explored explorer.old }
{
    for cpu in 0..explorer.cpus() {
        if !explorer.passes(key, blind, cpu) {
            return Some(cpu);
        }
    }
    None
}

// The first visit whose moment fails the test, and the first processor on which it does. The only error is that memory
// is out.
fn first_visit<F: First, L: Ledger>(
    search: &Search,
    explorer: &mut Explorer<F, L>,
    alloc: Global,
    start: &[u32],
    blind: &Blind,
) -> Result<Option<(usize, u32)>, AllocError>
    requires key { IsKey (menu_model F.words (explored explorer.old)) start.now }
    requires closed { HasClosed (menu_model F.words (explored explorer.old)) start.now search.now }
    ensures looks { IfOk result (λ r. LooksFirst F.words (left_out blind.now) (explored explorer.old)
        (visits_of search.now) r) }
    ensures base { explored explorer.new ≡ explored explorer.old }
{
    let mut bytes = Vec::new(alloc);
    let mut key = Vec::new(alloc);
    for place in 0..search.visits.len() {
        search.read_key(place, &mut bytes, &mut key)?;
        if let Some(cpu) = first_cpu(explorer, &key, blind) {
            return Ok(Some((place, cpu)));
        }
    }
    Ok(None)
}

// Says whether each moment of a search that ended passes the test on each processor. The only error is that memory is
// out.
fn say<F: First, L: Ledger>(
    search: &Search,
    extent: Extent,
    explorer: &mut Explorer<F, L>,
    alloc: Global,
    start: &[u32],
    blind: &Blind,
) -> Result<Away, AllocError>
    requires key { IsKey (menu_model F.words (explored explorer.old)) start.now }
    requires closed { (depth : ℕ) → extent ≡ Closed depth
        → HasClosed (menu_model F.words (explored explorer.old)) start.now search.now }
    requires traced { AreTraced search.now.visits.items search.now.found.items }
    ensures said { IfOk result (λ r. (m : Moment) → IsKeyOf F.words (explored explorer.old).scope start.now m
        → IsAwaySaid F.words (left_out blind.now) (explored explorer.old) m extent r) }
    ensures base { explored explorer.new ≡ explored explorer.old }
{
    let Extent::Closed { .. } = extent else {
        return Ok(Away::Unknown);
    };
    match first_visit(search, explorer, alloc, start, blind)? {
        Some((place, cpu)) => {
            let way = runs_to(alloc, search, place)?;
            Ok(Away::No { way, cpu })
        }
        None => Ok(Away::Yes),
    }
}

/// Says that, if words are left out or partitions named. The only error is that memory is out.
pub(crate) fn say_away<F: First, L: Ledger>(
    search: &Search,
    extent: Extent,
    explorer: &mut Explorer<F, L>,
    alloc: Global,
    start: &[u32],
    blind: &Blind,
) -> Result<Option<Away>, AllocError>
    requires key { IsKey (menu_model F.words (explored explorer.old)) start.now }
    requires closed { (depth : ℕ) → extent ≡ Closed depth
        → HasClosed (menu_model F.words (explored explorer.old)) start.now search.now }
    requires traced { AreTraced search.now.visits.items search.now.found.items }
    ensures { IfOk result (λ r. (m : Moment) → IsKeyOf F.words (explored explorer.old).scope start.now m
        → IsAwayReply F.words (left_out blind.now) (explored explorer.old) m extent r) }
{
    if !blind.is_asked() {
        return Ok(None);
    }
    let away = say(search, extent, explorer, alloc, start, blind)?;
    Ok(Some(away))
}
