//! The ways that lead to labels.
ghost use Rattle.std.specs.Prelude.{◌≡◌, ◌<◌, ◌+◌, ◌∷◌, IfOk, OnOk, Some, length, reverse, slice_get};
ghost use Rattle.pip_search.specs.Ways.{AreRuns, AreTraced, choices_of, found_way, run_before, run_of, runs_of, way_to};
ghost use Rattle.pip_search.specs.declared.visits.Visit.{Visit};
ghost use Rattle.pip_search.specs.declared.found.Found.{Found};

use crate::searching::Search;
use std::alloc::{AllocError, Global};

/// A choice, made `count` times one after another.
#[derive(Clone, Copy, Debug, PartialEq, Eq)]
pub struct Run {
    pub choice: u32,
    pub count: u32,
}

// The way to visit `at` and a choice after it, `depth` choices in all, as runs of equal choices, in the order in which
// they are made.
fn runs_with(
    alloc: Global,
    search: &Search,
    at: u32,
    choice: u32,
    depth: u32,
) -> Result<Vec<Run>, AllocError>
    requires place { at < length search.now.visits.items }
    requires traced { AreTraced search.now.visits.items search.now.found.items }
    requires depth { (u : Visit) → slice_get search.now.visits.items at ≡ Some u → depth ≡ u.depth + 1 }
    ensures { IfOk result (λ rs. rs.items ≡ reverse (runs_of (choice ∷ way_to search.now.visits.items at))) }
{
    let mut runs = Vec::new(alloc);
    let mut last = choice;
    let mut end = depth;
    let mut j = at;
    while j != 0 {
        let visit = &search.visits[j as usize];
        if visit.choice != last {
            runs.push(Run {
                choice: last,
                count: end - visit.depth,
            })?;
            last = visit.choice;
            end = visit.depth;
        }
        j = visit.run;
    }
    runs.push(Run {
        choice: last,
        count: end,
    })?;
    runs.reverse();
    Ok(runs)
}

/// The way to label `k` as runs of equal choices, the label's own choice included, in the order in which they are made.
/// The only error is that memory is out.
pub fn runs(alloc: Global, search: &Search, k: usize) -> Result<Vec<Run>, AllocError>
    requires place { k < length search.now.found.items }
    requires traced { AreTraced search.now.visits.items search.now.found.items }
    ensures way { IfOk result (λ rs. (f : Found) → slice_get search.now.found.items k ≡ Some f
        → rs.items ≡ reverse (runs_of (found_way search.now.visits.items f))) }
    ensures unfolds { IfOk result (λ rs. (f : Found) → slice_get search.now.found.items k ≡ Some f
        → choices_of (reverse rs.items) ≡ found_way search.now.visits.items f) }
    ensures differ { IfOk result (λ rs. AreRuns (reverse rs.items)) }
{
    let found = &search.found[k];
    let runs = runs_with(alloc, search, found.at, found.choice, found.depth)?;
    Ok(runs)
}

/// The way to visit `place` as runs of equal choices, in the order in which they are made. The only error is that
/// memory is out.
pub fn runs_to(alloc: Global, search: &Search, place: usize) -> Result<Vec<Run>, AllocError>
    requires place { place < length search.now.visits.items }
    requires traced { AreTraced search.now.visits.items search.now.found.items }
    ensures { IfOk result (λ rs. rs.items ≡ reverse (runs_of (way_to search.now.visits.items place))) }
{
    if place == 0 {
        return Ok(Vec::new(alloc));
    }
    let visit = &search.visits[place];
    let runs = runs_with(alloc, search, visit.parent, visit.choice, visit.depth)?;
    Ok(runs)
}

/// The runs of these choices, in the order in which they are made. The only error is that memory is out.
pub fn runs_along(alloc: Global, choices: &[u32]) -> Result<Vec<Run>, AllocError>
    ensures { IfOk result (λ rs. rs.items ≡ reverse (runs_of (reverse choices.now))) }
{
    let mut runs = Vec::new(alloc);
    for choice in choices {
        add_choice(&mut runs, *choice)?;
    }
    Ok(runs)
}

// Adds a choice to runs: to the last of them, if it is of the same choice.
fn add_choice(runs: &mut Vec<Run>, choice: u32) -> Result<(), AllocError>
    ensures { OnOk result (reverse runs.new.items ≡ run_before (run_of choice 1) (reverse runs.old.items)) }
{
    let mut count = 1;
    if let Some(last) = runs.pop() {
        if last.choice == choice {
            count = one_more(last.count)?;
        } else {
            runs.push(last)?;
        }
    }
    runs.push(Run { choice, count })?;
    Ok(())
}

// No memory holds a list of so many choices that this ends in an error.
fn one_more(count: u32) -> Result<u32, AllocError>
    ensures { IfOk result (λ n. n ≡ count + 1) }
{
    match count.checked_add(1) {
        Some(more) => Ok(more),
        None => Err(AllocError),
    }
}
