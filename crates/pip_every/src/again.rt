//! Whether labels can come again.
ghost use Rattle.std.specs.Prelude.{◌≡◌, ℕ, ◌<◌, ◌≤◌, ◌^◌, IfOk, length, map};
ghost use Rattle.pip_search.specs.Again.{HasClosed};
ghost use Rattle.pip_search.specs.Summary.{HasOneKey};
ghost use Rattle.pip_search.specs.Systems.{IsKey};
ghost use Rattle.pip_search.specs.Ways.{AreTraced};
ghost use Rattle.pip_search.specs.declared.searching.Extent.TheVariants.{Closed};
ghost use Rattle.pip_every.specs.Again.{AreSaid, IsSaid, shown_line};

use crate::asking::MAX_LABEL;
use arrayvec::ArrayVec;
use pip_search::{Extent, Run, Search, System, come_again, runs_to};
use std::alloc::{AllocError, Global};

/// What is said of a label.
#[derive(Drop)]
pub enum Again {
    /// Wherever choices lead, turns and lines can show it again.
    Can,
    /// They can't after this way, the first of all such: its runs of equal choices, in the order in which they are
    /// made.
    Lost { way: Vec<Run> },
    /// Nothing: the search didn't close.
    Unknown,
}

// What a choice shows, by the text of its line without the step. The only error is that memory is out.
pub(crate) fn shown(alloc: Global, text: &[u8]) -> Result<Vec<u8>, AllocError>
    ensures { IfOk result (λ r. r.items ≡ shown_line text.now) }
{
    let mut label = Vec::new(alloc);
    label.extend_from_slice(b"0 ")?;
    label.extend_from_slice(text)?;
    label.push(b'\n')?;
    Ok(label)
}

// Says of the label of a line whether it can come again by the first `width` choices. The only error is that memory is
// out.
fn say<S: System>(
    search: &Search,
    extent: Extent,
    system: &mut S,
    alloc: Global,
    start: &[u32],
    line: &[u8],
    width: u32,
) -> Result<Again, AllocError>
    requires key { IsKey (S.model (S.base system.old)) start.now }
    requires one { HasOneKey (S.model (S.base system.old)) }
    requires closed { (depth : ℕ) → extent ≡ Closed depth
        → HasClosed (S.model (S.base system.old)) start.now search.now }
    requires traced { AreTraced search.now.visits.items search.now.found.items }
    requires few { length search.now.visits.items ≤ 2 ^ 32 }
    requires some { 0 < width }
    requires width { width ≤ (S.model (S.base system.old)).choices }
    ensures said { IfOk result (λ r. (x : (S.model (S.base system.old)).State)
        → (S.model (S.base system.old)).stands start.now x
        → IsSaid (S.model (S.base system.old)) width x (shown_line line.now) extent r) }
    ensures base { S.base system.new ≡ S.base system.old }
{
    let Extent::Closed { .. } = extent else {
        return Ok(Again::Unknown);
    };
    let label = shown(alloc, line)?;
    match come_again(search, system, alloc, start, label.as_slice(), width)? {
        Some(place) => {
            let way = runs_to(alloc, search, place)?;
            Ok(Again::Lost { way })
        }
        None => Ok(Again::Can),
    }
}

/// Says of the label of each line, which has no step, whether it can come again by the first `width` choices of a
/// search that ended. The only error is that memory is out.
pub(crate) fn say_all<S: System>(
    search: &Search,
    extent: Extent,
    system: &mut S,
    alloc: Global,
    start: &[u32],
    lines: &[ArrayVec<u8, MAX_LABEL>],
    width: u32,
) -> Result<Vec<Again>, AllocError>
    requires key { IsKey (S.model (S.base system.old)) start.now }
    requires one { HasOneKey (S.model (S.base system.old)) }
    requires closed { (depth : ℕ) → extent ≡ Closed depth
        → HasClosed (S.model (S.base system.old)) start.now search.now }
    requires traced { AreTraced search.now.visits.items search.now.found.items }
    requires few { length search.now.visits.items ≤ 2 ^ 32 }
    requires some { 0 < width }
    requires width { width ≤ (S.model (S.base system.old)).choices }
    ensures said { IfOk result (λ r. (x : (S.model (S.base system.old)).State)
        → (S.model (S.base system.old)).stands start.now x
        → AreSaid (S.model (S.base system.old)) width x (map (λ l. l.items) lines.now) extent r.items) }
    ensures base { S.base system.new ≡ S.base system.old }
{
    let mut all = Vec::new(alloc);
    for line in lines {
        let said = say(search, extent, system, alloc, start, line.as_slice(), width)?;
        all.push(said)?;
    }
    Ok(all)
}
