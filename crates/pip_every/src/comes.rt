//! Whether labels come.
ghost use Rattle.std.specs.Prelude.{◌≡◌, ℕ, ◌<◌, ◌≤◌, ◌^◌, IfOk, length, map};
ghost use Rattle.pip_search.specs.Again.{HasClosed};
ghost use Rattle.pip_search.specs.Summary.{HasOneKey};
ghost use Rattle.pip_search.specs.Systems.{IsKey};
ghost use Rattle.pip_search.specs.Ways.{AreTraced};
ghost use Rattle.pip_search.specs.declared.searching.Extent.TheVariants.{Closed};
ghost use Rattle.pip_every.specs.Again.{shown_line};
ghost use Rattle.pip_every.specs.Comes as comes;
ghost use Rattle.pip_every.specs.Comes.{AreComing, IsComing};

use crate::again::shown;
use crate::asking::MAX_LABEL;
use arrayvec::ArrayVec;
use pip_search::{Coming, Extent, Run, Search, System, must_come, runs_along, runs_to};
use std::alloc::{AllocError, Global};

/// What is said of a label. Each turn of a processor and each line has a class of its own, from 1 on, and deeds have
/// none, which is class 0.
#[derive(Drop)]
pub enum Comes {
    /// Wherever choices lead, it comes within so many windows of each class, from class 0 on.
    Must { counts: Vec<u32> },
    /// After this way it never comes where the choices of this round, which has one of each class, are made over and
    /// over: their runs of equal choices, in the order in which they are made.
    Avoided { way: Vec<Run>, round: Vec<Run> },
    /// Nothing: the search didn't close.
    Unknown,
}

// The classes of the first `count` choices.
fn own_classes(alloc: Global, count: u32) -> Result<Vec<u32>, AllocError>
    ensures { IfOk result (λ r. r.items ≡ comes.own_classes count) }
{
    let mut classes = Vec::new(alloc);
    for choice in 0..count {
        classes.push(choice + 1)?;
    }
    Ok(classes)
}

// Says of the label of a line whether it comes. The only error is that memory is out.
fn say<S: System>(
    search: &Search,
    extent: Extent,
    system: &mut S,
    alloc: Global,
    start: &[u32],
    line: &[u8],
    width: u32,
) -> Result<Comes, AllocError>
    requires key { IsKey (S.model (S.base system.old)) start.now }
    requires one { HasOneKey (S.model (S.base system.old)) }
    requires closed { (depth : ℕ) → extent ≡ Closed depth
        → HasClosed (S.model (S.base system.old)) start.now search.now }
    requires traced { AreTraced search.now.visits.items search.now.found.items }
    requires few { length search.now.visits.items < 2 ^ 32 }
    requires some { 0 < width }
    requires width { width ≤ (S.model (S.base system.old)).choices }
    ensures said { IfOk result (λ r. (x : (S.model (S.base system.old)).State)
        → (S.model (S.base system.old)).stands start.now x
        → IsComing (S.model (S.base system.old)) (comes.own_classes width) x (shown_line line.now) extent r) }
    ensures base { S.base system.new ≡ S.base system.old }
{
    let Extent::Closed { .. } = extent else {
        return Ok(Comes::Unknown);
    };
    let label = shown(alloc, line)?;
    let classes = own_classes(alloc, width)?;
    match must_come(
        search,
        system,
        alloc,
        start,
        label.as_slice(),
        classes.as_slice(),
    )? {
        Coming::Within { counts } => Ok(Comes::Must { counts }),
        Coming::Avoided { place, choices } => {
            let way = runs_to(alloc, search, place)?;
            let round = runs_along(alloc, choices.as_slice())?;
            Ok(Comes::Avoided { way, round })
        }
    }
}

/// Says of the label of each line, which has no step, whether it comes wherever the choices of a search that ended
/// lead, where those that are made next are fair: among as many of them as the window of a class says, one after
/// another, is one of the class. Each of the first `width` choices has a class of its own, and the others have none.
/// The only error is that memory is out.
pub(crate) fn say_coming<S: System>(
    search: &Search,
    extent: Extent,
    system: &mut S,
    alloc: Global,
    start: &[u32],
    lines: &[ArrayVec<u8, MAX_LABEL>],
    width: u32,
) -> Result<Vec<Comes>, AllocError>
    requires key { IsKey (S.model (S.base system.old)) start.now }
    requires one { HasOneKey (S.model (S.base system.old)) }
    requires closed { (depth : ℕ) → extent ≡ Closed depth
        → HasClosed (S.model (S.base system.old)) start.now search.now }
    requires traced { AreTraced search.now.visits.items search.now.found.items }
    requires few { length search.now.visits.items < 2 ^ 32 }
    requires some { 0 < width }
    requires width { width ≤ (S.model (S.base system.old)).choices }
    ensures said { IfOk result (λ r. (x : (S.model (S.base system.old)).State)
        → (S.model (S.base system.old)).stands start.now x
        → AreComing (S.model (S.base system.old)) (comes.own_classes width) x (map (λ l. l.items) lines.now) extent
        r.items) }
    ensures base { S.base system.new ≡ S.base system.old }
{
    let mut all = Vec::new(alloc);
    for line in lines {
        let said = say(search, extent, system, alloc, start, line.as_slice(), width)?;
        all.push(said)?;
    }
    Ok(all)
}
