//! Whether a label comes, wherever a search that closed leads, where the choices that are made are fair.
ghost use Rattle.std.specs.Prelude.{◌≡◌, ℕ, ◌<◌, ◌≤◌, ◌+◌, ◌*◌, ◌/◌, ◌%◌, ◌^◌, ◌⊎◌, IfOk, IsTrue, false};
ghost use Rattle.std.specs.Prelude.{length, reverse};
ghost use Rattle.std.specs.Prelude.{Some, slice_index};
ghost use Rattle.pip_search.specs.Again.{HasClosed};
ghost use Rattle.pip_search.specs.Comes.{AreCutEdges, GoesDown, HasEach, HasOneOf, NoneRises, IsLevel, PassesRanks};
ghost use Rattle.pip_search.specs.Comes.{HasRank};
ghost use Rattle.pip_search.specs.Comes.{ComingHolds, IsWalk, helpful, rank_at};
ghost use Rattle.pip_search.specs.Keys.{visits_of};
ghost use Rattle.pip_search.specs.Stages.{IsSaidBy};
ghost use Rattle.pip_search.specs.Summary.{HasOneKey};
ghost use Rattle.pip_search.specs.Systems.{IsKey};

use crate::again::look;
use crate::ranks::{Ranks, rank};
use crate::searching::{Buffers, Search};
use crate::stages::{Settled, settle};
use crate::system::System;
use std::alloc::{AllocError, Global};

/// In place of a visit: the choice shows the label.
pub(crate) const SHOWN: u32 = 0xffffffff;

/// What is said of a label.
#[derive(Drop)]
pub enum Coming {
    /// Wherever choices lead, it comes by so many windows of each class, from class 0 on.
    Within { counts: Vec<u32> },
    /// After the way to a visit it never comes, where these choices are made over and over.
    Avoided { place: usize, choices: Vec<u32> },
}

/// The word at a place, or 0.
pub(crate) fn word_at(words: &[u32], place: usize) -> u32
    ensures { result ≡ slice_index words.now place }
{
    if place < words.len() { words[place] } else { 0 }
}

// Where a choice leads that doesn't show the label.
fn cut(to: u32, shown: bool) -> u32
    ensures shown { IsTrue shown → result ≡ 0xffffffff }
    ensures other { shown ≡ false → result ≡ to }
{
    if shown { SHOWN } else { to }
}

// Makes all choices of visit `i`, and adds where they lead.
fn cut_around<S: System>(
    search: &Search,
    system: &mut S,
    start: &[u32],
    buffers: &mut Buffers,
    label: &[u8],
    i: usize,
    targets: &mut Vec<u32>,
) -> Result<(), AllocError>
    requires key { IsKey (S.model (S.base system.old)) start.now }
    requires one { HasOneKey (S.model (S.base system.old)) }
    requires closed { HasClosed (S.model (S.base system.old)) start.now search.now }
    requires place { i < length search.now.visits.items }
    requires few { length search.now.visits.items < 2 ^ 32 }
    requires cut { AreCutEdges (S.model (S.base system.old)) (visits_of search.now) label.now
        (S.model (S.base system.old)).choices targets.old.items }
    requires count { length targets.old.items ≡ i * (S.model (S.base system.old)).choices }
    ensures cut { IfOk result (λ _. AreCutEdges (S.model (S.base system.old)) (visits_of search.now) label.now
        (S.model (S.base system.old)).choices targets.new.items) }
    ensures count { IfOk result (λ _. length targets.new.items ≡ (i + 1) * (S.model (S.base system.old)).choices) }
    ensures base { S.base system.new ≡ S.base system.old }
{
    search.read_key(i, &mut buffers.bytes, &mut buffers.from)?;
    let count = system.count();
    for choice in 0..count {
        let (to, shown) = look(search, system, start, buffers, label, i, choice)?;
        targets.push(cut(to, shown))?;
    }
    Ok(())
}

// Where the choices of all visits lead that don't show the label.
fn cut_everywhere<S: System>(
    search: &Search,
    system: &mut S,
    alloc: Global,
    start: &[u32],
    label: &[u8],
) -> Result<Vec<u32>, AllocError>
    requires key { IsKey (S.model (S.base system.old)) start.now }
    requires one { HasOneKey (S.model (S.base system.old)) }
    requires closed { HasClosed (S.model (S.base system.old)) start.now search.now }
    requires few { length search.now.visits.items < 2 ^ 32 }
    ensures cut { IfOk result (λ r. AreCutEdges (S.model (S.base system.old)) (visits_of search.now) label.now
        (S.model (S.base system.old)).choices r.items) }
    ensures count { IfOk result (λ r. length r.items ≡ length search.now.visits.items
        * (S.model (S.base system.old)).choices) }
    ensures base { S.base system.new ≡ S.base system.old }
{
    let mut buffers = Buffers::new(alloc);
    let mut targets = Vec::new(alloc);
    for i in 0..search.visits.len() {
        cut_around(search, system, start, &mut buffers, label, i, &mut targets)?;
    }
    Ok(targets)
}

// The class that is helpful at a visit.
pub(crate) fn helpful_at(classes: &[u32], helpers: &[u32], place: usize) -> u32
    ensures { result ≡ helpful classes.now helpers.now place }
{
    word_at(classes, word_at(helpers, place) as usize)
}

// Where a row has a column, in rows one after another.
pub(crate) fn cell_at(columns: u32, row: u32, column: u32) -> usize
    ensures { result ≡ row * columns + column }
{
    row as usize * columns as usize + column as usize
}

// The rank of a visit in a column.
fn rank_of(ranks: &[u32], columns: u32, place: u32, column: u32) -> u32
    ensures { result ≡ rank_at ranks.now columns place column }
{
    word_at(ranks, cell_at(columns, place, column))
}

// Whether no rank of a visit is above that of another.
fn is_below(ranks: &[u32], columns: u32, from: u32, to: u32) -> bool
    ensures { IsTrue result → NoneRises ranks.now columns from to }
{
    for column in 0..columns {
        if rank_of(ranks, columns, to, column) > rank_of(ranks, columns, from, column) {
            return false;
        }
    }
    true
}

// Whether the helpful class stays the same, by a choice of another.
fn is_level(classes: &[u32], helpers: &[u32], from: u32, choice: usize, to: u32) -> bool
    ensures { IsTrue result → IsLevel classes.now helpers.now from choice to }
{
    let class = helpful_at(classes, helpers, from as usize);
    let next = helpful_at(classes, helpers, to as usize);
    let own = word_at(classes, choice);
    next == class && class > 0 && own != class
}

// Whether the rank of the helpful class falls, or it is so.
fn falls(
    classes: &[u32],
    ranks: &[u32],
    helpers: &[u32],
    columns: u32,
    from: u32,
    choice: usize,
    to: u32,
) -> bool
    ensures { IsTrue result → (rank_at ranks.now columns to (helpful classes.now helpers.now from)
        < rank_at ranks.now columns from (helpful classes.now helpers.now from))
        ⊎ IsLevel classes.now helpers.now from choice to }
{
    let class = helpful_at(classes, helpers, from as usize);
    let old = rank_of(ranks, columns, from, class);
    let new = rank_of(ranks, columns, to, class);
    if new < old {
        return true;
    }
    is_level(classes, helpers, from, choice, to)
}

// Whether a choice of a visit leads down.
fn goes_down(
    classes: &[u32],
    ranks: &[u32],
    helpers: &[u32],
    columns: u32,
    from: u32,
    choice: usize,
    to: u32,
) -> bool
    ensures { IsTrue result → GoesDown classes.now ranks.now helpers.now columns from choice to }
{
    is_below(ranks, columns, from, to) && falls(classes, ranks, helpers, columns, from, choice, to)
}

// Whether a visit has a rank in the column of its helpful class.
fn is_ready(classes: &[u32], ranks: &[u32], helpers: &[u32], columns: u32, place: u32) -> bool
    ensures { IsTrue result → HasRank classes.now ranks.now helpers.now columns place }
{
    let class = helpful_at(classes, helpers, place as usize);
    let rank = rank_of(ranks, columns, place, class);
    class < columns && rank > 0
}

// Whether a choice shows the label or leads down.
fn passes(
    classes: &[u32],
    ranks: &[u32],
    helpers: &[u32],
    columns: u32,
    width: usize,
    targets: &[u32],
    edge: usize,
) -> bool
    requires width { 0 < width }
    ensures { IsTrue result → PassesRanks classes.now ranks.now helpers.now columns width targets.now edge }
{
    let place = edge / width;
    if place > 0xffffffff {
        return false;
    }
    let to = word_at(targets, edge);
    is_ready(classes, ranks, helpers, columns, place as u32)
        && (to == SHOWN
            || goes_down(
                classes,
                ranks,
                helpers,
                columns,
                place as u32,
                edge % width,
                to,
            ))
}

// Whether all choices do.
fn all_pass(
    classes: &[u32],
    ranks: &[u32],
    helpers: &[u32],
    columns: u32,
    width: usize,
    targets: &[u32],
) -> bool
    requires width { 0 < width }
    ensures { IsTrue result → (e : ℕ) → e < length targets.now
        → PassesRanks classes.now ranks.now helpers.now columns width targets.now e }
{
    for edge in 0..targets.len() {
        if !passes(classes, ranks, helpers, columns, width, targets, edge) {
            return false;
        }
    }
    true
}

// The highest word.
fn highest(words: &[u32]) -> u32
    ensures { (j : ℕ) → slice_index words.now j ≤ result }
{
    let mut most = 0;
    for word in words {
        if *word > most {
            most = *word;
        }
    }
    most
}

// The highest rank in a column.
fn most_of(ranks: &[u32], columns: u32, column: u32) -> u32
    requires column { column < columns }
    ensures { (j : ℕ) → rank_at ranks.now columns j column ≤ result }
{
    let mut most = 0;
    for cell in 0..ranks.len() {
        let rank = ranks[cell];
        if cell % columns as usize == column as usize && rank > most {
            most = rank;
        }
    }
    most
}

// The highest ranks in all columns.
fn counts_of(alloc: Global, ranks: &[u32], columns: u32) -> Result<Vec<u32>, AllocError>
    ensures count { IfOk result (λ v. length v.items ≡ columns) }
    ensures most { IfOk result (λ v. (j d : ℕ) → d < columns
        → rank_at ranks.now columns j d ≤ slice_index v.items d) }
{
    let mut counts = Vec::new(alloc);
    for column in 0..columns {
        counts.push(most_of(ranks, columns, column))?;
    }
    Ok(counts)
}

// Whether some of these choices is of a class.
fn has_one(classes: &[u32], choices: &[u32], class: u32) -> bool
    ensures { IsTrue result → HasOneOf classes.now choices.now class }
{
    for choice in choices {
        if word_at(classes, *choice as usize) == class {
            return true;
        }
    }
    false
}

// Whether each class has one.
fn has_each(classes: &[u32], choices: &[u32]) -> bool
    ensures { IsTrue result → HasEach classes.now choices.now }
{
    for class in classes {
        if *class > 0 && !has_one(classes, choices, *class) {
            return false;
        }
    }
    true
}

// The visit to which choices lead that don't show the label, if they do.
fn walk(targets: &[u32], width: u32, place: u32, choices: &[u32]) -> Option<u32>
    ensures { (j : ℕ) → result ≡ Some j → IsWalk targets.now width place (reverse choices.now) j }
{
    let mut at = place;
    for choice in choices {
        if *choice >= width {
            return None;
        }
        let edge = cell_at(width, at, *choice);
        at = word_at(targets, edge);
        if edge >= targets.len() || at == SHOWN {
            return None;
        }
    }
    Some(at)
}

// Whether choices lead from a visit, one of `count`, back to it, don't show the label, and have each class.
fn is_loop(
    classes: &[u32],
    targets: &[u32],
    width: u32,
    count: usize,
    place: u32,
    choices: &[u32],
) -> bool
    ensures place { IsTrue result → place < count }
    ensures walk { IsTrue result → IsWalk targets.now width place (reverse choices.now) place }
    ensures some { IsTrue result → 0 < length choices.now }
    ensures each { IsTrue result → HasEach classes.now choices.now }
{
    match walk(targets, width, place, choices) {
        Some(end) => {
            (place as usize) < count
                && end == place
                && !choices.is_empty()
                && has_each(classes, choices)
        }
        None => false,
    }
}

// What follows from ranks or a loop that were found by stages.
fn said_by(alloc: Global, columns: u32, settled: Settled) -> Result<Coming, AllocError>
    ensures { IfOk result (λ r. IsSaidBy columns settled r) }
{
    match settled {
        Settled::Ranked { ranks, helpers: _ } => {
            let counts = counts_of(alloc, ranks.as_slice(), columns)?;
            Ok(Coming::Within { counts })
        }
        Settled::Looped { place, choices } => Ok(Coming::Avoided {
            place: place as usize,
            choices,
        }),
    }
}

/// Whether a label that a search looked for comes wherever its choices lead, if those that are made next are fair:
/// among as many that come one after the other as the window of a class says is one of the class. Number c of `classes`
/// is the class of choice c, from 1 on, or 0 if it has none. The search has closed, and no state has two keys. The only
/// error is that memory is out; there is a column for each number up to the highest class. Ranks and a loop are sought
/// quickly, and checked; where neither passes, they are found by stages.
pub fn must_come<S: System>(
    search: &Search,
    system: &mut S,
    alloc: Global,
    start: &[u32],
    label: &[u8],
    classes: &[u32],
) -> Result<Coming, AllocError>
    requires key { IsKey (S.model (S.base system.old)) start.now }
    requires one { HasOneKey (S.model (S.base system.old)) }
    requires closed { HasClosed (S.model (S.base system.old)) start.now search.now }
    requires few { length search.now.visits.items < 2 ^ 32 }
    requires some { 0 < (S.model (S.base system.old)).choices }
    requires classes { length classes.now ≤ (S.model (S.base system.old)).choices }
    ensures said { IfOk result (λ r. (x : (S.model (S.base system.old)).State)
        → (S.model (S.base system.old)).stands start.now x
        → ComingHolds (S.model (S.base system.old)) classes.now x label.now search.now.visits.items r) }
    ensures base { S.base system.new ≡ S.base system.old }
{
    let Some(columns) = highest(classes).checked_add(1) else {
        return Err(AllocError);
    };
    let width = system.count();
    let count = search.visits.len();
    let targets = cut_everywhere(search, system, alloc, start, label)?;
    let ranks = rank(alloc, &targets, width, classes, columns, count)?;
    if all_pass(
        classes,
        &ranks.ranks,
        &ranks.helpers,
        columns,
        width as usize,
        &targets,
    ) {
        let counts = counts_of(alloc, &ranks.ranks, columns)?;
        return Ok(Coming::Within { counts });
    }
    if is_loop(classes, &targets, width, count, ranks.place, &ranks.choices) {
        return Ok(Coming::Avoided {
            place: ranks.place as usize,
            choices: ranks.choices,
        });
    }
    let settled = settle(alloc, targets.as_slice(), classes, columns, width, count)?;
    said_by(alloc, columns, settled)
}
