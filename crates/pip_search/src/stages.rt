//! Ranks of places, by stages (Emerson and Lei), or a fair loop. Slower than what ranks.rt finds, and proved to be
//! found.
ghost use Rattle.std.specs.Prelude.{◌≡◌, ℕ, ◌<◌, ◌≤◌, ◌+◌, ◌*◌, ◌^◌, IfOk, IsTrue, MatchOption, None, Some, Vec};
ghost use Rattle.std.specs.Prelude.{List, drop, false, length, map, slice_get, slice_index};
ghost use Rattle.pip_search.specs.Comes.{rank_at};
ghost use Rattle.pip_search.specs.Stages.{LeadInside, OrdersLead, AreStaged, AreWhole, GoRound, HasStep};
ghost use Rattle.pip_search.specs.Stages.{IsFairLoop, HasNoStage, IsNearer, AllHaveOrders, IsRankedOrLooped, IsStep};
ghost use Rattle.pip_search.specs.Stages.{IsSwept, AreRetired};
ghost use Rattle.pip_search.specs.Stages.{Serve, Serves, stages_with, to_of, zeros_in};

use crate::coming::{cell_at, helpful_at, word_at};
use std::alloc::{AllocError, Global};

/// Ranks of places and their helpful choices, or a place and choices that lead back to it.
#[derive(Drop)]
pub(crate) enum Settled {
    Ranked { ranks: Vec<u32>, helpers: Vec<u32> },
    Looped { place: u32, choices: Vec<u32> },
}

// Where a choice leads.
fn leads_to(targets: &[u32], width: u32, place: u32, choice: u32) -> u32
    ensures { result ≡ to_of targets.now width place choice }
{
    word_at(targets, cell_at(width, place, choice))
}

// The number of a place, or 0.
fn number_at(numbers: &[u64], place: usize) -> u64
    ensures { result ≡ slice_index numbers.now place }
{
    if place < numbers.len() {
        numbers[place]
    } else {
        0
    }
}

// Whether a place has no stage.
fn is_left(stages: &[u64], place: u32) -> bool
    ensures left { IsTrue result → HasNoStage stages.now place }
    ensures gone { HasNoStage stages.now place → IsTrue result }
{
    (place as usize) < stages.len() && stages[place as usize] == 0
}

// Whether a choice serves a goal.
fn serves(classes: &[u32], goal: u32, choice: u32) -> bool
    ensures yes { IsTrue result → Serves classes.now goal choice }
    ensures no { Serves classes.now goal choice → IsTrue result }
{
    let class = word_at(classes, goal as usize);
    class == 0 || word_at(classes, choice as usize) == class
}

// Whether a place has an order below `bound`.
fn is_nearer(orders: &[u64], bound: u64, place: u32) -> bool
    ensures yes { IsTrue result → IsNearer orders.now bound place }
    ensures no { IsNearer orders.now bound place → IsTrue result }
{
    let order = number_at(orders, place as usize);
    order > 0 && order < bound
}

// Whether a choice leads nearer to a goal, among the places that are left.
fn is_step(
    targets: &[u32],
    classes: &[u32],
    width: u32,
    stages: &[u64],
    goal: u32,
    orders: &[u64],
    bound: u64,
    place: u32,
    choice: u32,
) -> bool
    requires { choice < width }
    ensures yes { IsTrue result → IsStep targets.now classes.now stages.now width goal orders.now bound place choice }
    ensures no { IsStep targets.now classes.now stages.now width goal orders.now bound place choice → IsTrue result }
{
    let to = leads_to(targets, width, place, choice);
    is_left(stages, to) && (serves(classes, goal, choice) || is_nearer(orders, bound, to))
}

// The first choice of a place that leads nearer to a goal.
fn find_step(
    targets: &[u32],
    classes: &[u32],
    width: u32,
    stages: &[u64],
    goal: u32,
    orders: &[u64],
    bound: u64,
    place: u32,
) -> Option<u32>
    ensures { MatchOption result
        ((c : ℕ) → IsStep targets.now classes.now stages.now width goal orders.now bound place c → ⊥)
        (λ c. IsStep targets.now classes.now stages.now width goal orders.now bound place c) }
{
    for choice in 0..width {
        if is_step(
            targets, classes, width, stages, goal, orders, bound, place, choice,
        ) {
            return Some(choice);
        }
    }
    None
}

// Whether a place is left that has no order, and has a choice that leads nearer to a goal.
fn gains(
    targets: &[u32],
    classes: &[u32],
    width: u32,
    stages: &[u64],
    goal: u32,
    orders: &[u64],
    bound: u64,
    place: u32,
) -> bool
    ensures left { IsTrue result → HasNoStage stages.now place }
    ensures none { IsTrue result → slice_index orders.now place ≡ 0 }
    ensures step { IsTrue result → HasStep targets.now classes.now stages.now width goal orders.now bound place }
    ensures no { result ≡ false → HasNoStage stages.now place → slice_index orders.now place ≡ 0 → (c : ℕ)
        → IsStep targets.now classes.now stages.now width goal orders.now bound place c → ⊥ }
{
    is_left(stages, place)
        && number_at(orders, place as usize) == 0
        && find_step(targets, classes, width, stages, goal, orders, bound, place).is_some()
}

// Gives such a place this order. False if it isn't one.
fn gain(
    targets: &[u32],
    classes: &[u32],
    width: u32,
    stages: &[u64],
    goal: u32,
    orders: &mut [u64],
    order: u64,
    place: u32,
) -> bool
    requires some { 0 < order }
    requires count { length orders.old ≡ length stages.now }
    requires below { (j : ℕ) → slice_index orders.old j < order + 1 }
    requires ordered { OrdersLead targets.now classes.now stages.now width goal orders.old }
    ensures { IsSwept targets.now classes.now stages.now width goal order place (place + 1) orders.old orders.new
        result }
{
    if !gains(targets, classes, width, stages, goal, orders, order, place) {
        return false;
    }
    orders[place as usize] = order;
    true
}

// Gives each such place this order. False where there is none.
fn sweep(
    targets: &[u32],
    classes: &[u32],
    width: u32,
    stages: &[u64],
    goal: u32,
    orders: &mut [u64],
    order: u64,
) -> bool
    requires some { 0 < order }
    requires few { length stages.now < 2 ^ 32 }
    requires count { length orders.old ≡ length stages.now }
    requires below { (j : ℕ) → slice_index orders.old j < order }
    requires ordered { OrdersLead targets.now classes.now stages.now width goal orders.old }
    ensures { IsSwept targets.now classes.now stages.now width goal order 0 (length stages.now) orders.old orders.new
        result }
{
    let mut some = false;
    for place in 0..stages.len() {
        if gain(
            targets,
            classes,
            width,
            stages,
            goal,
            orders,
            order,
            place as u32,
        ) {
            some = true;
        }
    }
    some
}

// The orders of all places from which choices lead to a goal among the places that are left.
fn reach(
    alloc: Global,
    targets: &[u32],
    classes: &[u32],
    width: u32,
    stages: &[u64],
    goal: u32,
) -> Result<Vec<u64>, AllocError>
    requires few { length stages.now < 2 ^ 32 }
    ensures count { IfOk result (λ r. length r.items ≡ length stages.now) }
    ensures ordered { IfOk result (λ r. OrdersLead targets.now classes.now stages.now width goal r.items) }
    ensures whole { IfOk result (λ r. AreWhole targets.now classes.now stages.now width goal r.items) }
{
    let mut orders = vec![in alloc; 0u64; stages.len()]?;
    for order in 1..stages.len() as u64 + 2 {
        if !sweep(
            targets,
            classes,
            width,
            stages,
            goal,
            orders.as_mut_slice(),
            order,
        ) {
            return Ok(orders);
        }
    }
    // Each time some place got its order.
    unreachable!()
}

// Gives a stage to a place that is left and has no order. False if it isn't one.
fn retire_at(stages: &mut [u64], orders: &[u64], stage: u64, place: usize) -> bool
    requires some { 0 < stage }
    requires low { place < length stages.old }
    ensures { AreRetired orders.now stage place (place + 1) stages.old stages.new result }
{
    if stages[place] != 0 || number_at(orders, place) != 0 {
        return false;
    }
    stages[place] = stage;
    true
}

// Gives a stage to the places that are left and have no order. False where there are none.
fn retire(stages: &mut [u64], orders: &[u64], stage: u64) -> bool
    requires some { 0 < stage }
    ensures { AreRetired orders.now stage 0 (length stages.old) stages.old stages.new result }
{
    let mut some = false;
    for place in 0..stages.len() {
        if retire_at(stages, orders, stage, place) {
            some = true;
        }
    }
    some
}

// Gives the next stage to the places from which some goal can't be reached. Where there are none, it answers the
// orders to all goals.
fn advance(
    alloc: Global,
    targets: &[u32],
    classes: &[u32],
    width: u32,
    stages: &mut [u64],
    goals: &mut Vec<u32>,
) -> Result<Option<Vec<Vec<u64>>>, AllocError>
    requires few { length stages.old < 2 ^ 32 }
    requires places { length targets.now ≡ length stages.old * width }
    requires inside { LeadInside targets.now (length stages.old) }
    requires staged { AreStaged targets.now classes.now stages.old goals.old.items width
        (length stages.old) }
    ensures count { IfOk result (λ _. length stages.new ≡ length stages.old) }
    ensures staged { IfOk result (λ _. AreStaged targets.now classes.now stages.new goals.new.items width
        (length stages.old)) }
    ensures less { IfOk result (λ r. r ≡ None → zeros_in stages.new < zeros_in stages.old) }
    ensures reached { IfOk result (λ r. (all : Vec (Vec ℕ Global) Global) → r ≡ Some all → (length all.items ≡ width)
        × ((goal : ℕ) (orders : List ℕ) → slice_get (map (λ v. v.items) all.items) goal ≡ Some orders
        → AllHaveOrders targets.now classes.now stages.new width goal orders)) }
{
    let mut all = Vec::new(alloc);
    for goal in 0..width {
        let orders = reach(alloc, targets, classes, width, stages, goal)?;
        if retire(stages, orders.as_slice(), goals.len() as u64 + 1) {
            goals.push(goal)?;
            return Ok(None);
        }
        all.push(orders)?;
    }
    Ok(Some(all))
}

// Goes on from a place that is left, nearer to a goal by each choice, to the first that serves it. Where it comes to.
fn go_on(
    targets: &[u32],
    classes: &[u32],
    width: u32,
    stages: &[u64],
    goal: u32,
    orders: &[u64],
    place: u32,
    choices: &mut Vec<u32>,
) -> Result<u32, AllocError>
    requires places { length targets.now ≡ length stages.now * width }
    requires few { length stages.now < 2 ^ 32 }
    requires left { HasNoStage stages.now place }
    requires reached { AllHaveOrders targets.now classes.now stages.now width goal orders.now }
    ensures left { IfOk result (λ r. HasNoStage stages.now r) }
    ensures serve { IfOk result (λ r. Serve targets.now classes.now width goal place r choices.old.items
        choices.new.items) }
{
    let mut at = place;
    for _turn in 0..u64::MAX {
        let order = number_at(orders, at as usize);
        let Some(choice) = find_step(targets, classes, width, stages, goal, orders, order, at)
        else {
            // A place that is left has a choice that leads nearer.
            unreachable!()
        };
        choices.push(choice)?;
        at = leads_to(targets, width, at, choice);
        if serves(classes, goal, choice) {
            return Ok(at);
        }
    }
    // An order is lower each time.
    unreachable!()
}

// Goes on from a place that is left, to all goals in turn. Where it comes to.
fn go_round(
    targets: &[u32],
    classes: &[u32],
    width: u32,
    stages: &[u64],
    all: &[Vec<u64>],
    place: u32,
    choices: &mut Vec<u32>,
) -> Result<u32, AllocError>
    requires places { length targets.now ≡ length stages.now * width }
    requires few { length stages.now < 2 ^ 32 }
    requires left { HasNoStage stages.now place }
    requires count { length all.now ≡ width }
    requires reached { (goal : ℕ) (orders : List ℕ) → slice_get (map (λ v. v.items) all.now) goal ≡ Some orders
        → AllHaveOrders targets.now classes.now stages.now width goal orders }
    ensures left { IfOk result (λ r. HasNoStage stages.now r) }
    ensures round { IfOk result (λ r. GoRound targets.now classes.now width width place r choices.old.items
        choices.new.items) }
{
    let mut at = place;
    for goal in 0..width {
        let orders = all[goal as usize].as_slice();
        at = go_on(targets, classes, width, stages, goal, orders, at, choices)?;
    }
    Ok(at)
}

// The choices from one of them on.
fn from_on(alloc: Global, choices: &[u32], begin: usize) -> Result<Vec<u32>, AllocError>
    requires { begin ≤ length choices.now }
    ensures { IfOk result (λ r. r.items ≡ drop begin choices.now) }
{
    let mut rest = Vec::new(alloc);
    rest.extend_from_slice(&choices[begin..])?;
    Ok(rest)
}

// Goes round and round from a place that is left, until a round begins where one did before: a place, and choices that
// lead back to it.
fn find_loop(
    alloc: Global,
    targets: &[u32],
    classes: &[u32],
    width: u32,
    stages: &[u64],
    all: &[Vec<u64>],
    place: u32,
) -> Result<(u32, Vec<u32>), AllocError>
    requires places { length targets.now ≡ length stages.now * width }
    requires few { length stages.now < 2 ^ 32 }
    requires some { 0 < width }
    requires classes { length classes.now ≤ width }
    requires left { HasNoStage stages.now place }
    requires count { length all.now ≡ width }
    requires reached { (goal : ℕ) (orders : List ℕ) → slice_get (map (λ v. v.items) all.now) goal ≡ Some orders
        → AllHaveOrders targets.now classes.now stages.now width goal orders }
    ensures { IfOk result (λ r. IsFairLoop targets.now classes.now width (length stages.now) r.0 r.1.items) }
{
    let mut begun = vec![in alloc; 0u64; stages.len()]?;
    let mut choices = Vec::new(alloc);
    let mut at = place;
    for _turn in 0..stages.len() + 1 {
        let mark = begun[at as usize];
        if mark > 0 {
            let round = from_on(alloc, choices.as_slice(), mark as usize - 1)?;
            return Ok((at, round));
        }
        begun[at as usize] = choices.len() as u64 + 1;
        at = go_round(targets, classes, width, stages, all, at, &mut choices)?;
    }
    // There are no more places than that.
    unreachable!()
}

// How many of the first stages have a goal of a class.
fn rank_in(classes: &[u32], goals: &[u32], column: u32, stage: u64) -> u32
    requires { stage < 2 ^ 32 }
    ensures { result ≡ stages_with classes.now goals.now column stage }
{
    let mut rank = 0;
    for number in 0..stage {
        if helpful_at(classes, goals, number as usize) == column {
            rank += 1;
        }
    }
    rank
}

// The ranks of all places, in each column.
fn ranks_of(
    alloc: Global,
    classes: &[u32],
    columns: u32,
    stages: &[u64],
    goals: &[u32],
) -> Result<Vec<u32>, AllocError>
    requires some { 0 < columns }
    requires few { length stages.now < 2 ^ 32 }
    requires within { (j : ℕ) → slice_index stages.now j < 2 ^ 32 }
    ensures { IfOk result (λ r. (j d : ℕ) → j < length stages.now → d < columns
        → rank_at r.items columns j d ≡ stages_with classes.now goals.now d (slice_index stages.now j)) }
{
    let mut ranks = Vec::new(alloc);
    for cell in 0..stages.len() * columns as usize {
        let stage = number_at(stages, cell / columns as usize);
        let column = (cell % columns as usize) as u32;
        ranks.push(rank_in(classes, goals, column, stage))?;
    }
    Ok(ranks)
}

// The goal of a stage, from 1 on.
fn goal_of(goals: &[u32], stage: u64) -> u32
    requires { stage ≤ length goals.now }
    ensures { (s : ℕ) → stage ≡ s + 1 → result ≡ slice_index goals.now s }
{
    if stage > 0 {
        word_at(goals, stage as usize - 1)
    } else {
        0
    }
}

// The goal of the stage of each place.
fn helpers_of(alloc: Global, stages: &[u64], goals: &[u32]) -> Result<Vec<u32>, AllocError>
    requires within { (j : ℕ) → slice_index stages.now j ≤ length goals.now }
    ensures { IfOk result (λ r. (j s : ℕ) → j < length stages.now → slice_index stages.now j ≡ s + 1
        → slice_index r.items j ≡ slice_index goals.now s) }
{
    let mut helpers = Vec::new(alloc);
    for place in 0..stages.len() {
        helpers.push(goal_of(goals, number_at(stages, place)))?;
    }
    Ok(helpers)
}

// The first place that is left.
fn first_left(stages: &[u64]) -> Option<u32>
    requires few { length stages.now < 2 ^ 32 }
    ensures { MatchOption result ((j : ℕ) → j < length stages.now → 0 < slice_index stages.now j)
        (λ j. HasNoStage stages.now j) }
{
    for place in 0..stages.len() {
        if stages[place] == 0 {
            return Some(place as u32);
        }
    }
    None
}

// What follows where all goals are reached from the places that are left.
fn conclude(
    alloc: Global,
    targets: &[u32],
    classes: &[u32],
    columns: u32,
    width: u32,
    stages: &[u64],
    goals: &[u32],
    all: &[Vec<u64>],
) -> Result<Settled, AllocError>
    requires places { length targets.now ≡ length stages.now * width }
    requires few { length stages.now < 2 ^ 32 }
    requires some { 0 < width }
    requires inside { LeadInside targets.now (length stages.now) }
    requires classes { length classes.now ≤ width }
    requires columns { (c : ℕ) → slice_index classes.now c < columns }
    requires staged { AreStaged targets.now classes.now stages.now goals.now width (length stages.now) }
    requires count { length all.now ≡ width }
    requires reached { (goal : ℕ) (orders : List ℕ) → slice_get (map (λ v. v.items) all.now) goal ≡ Some orders
        → AllHaveOrders targets.now classes.now stages.now width goal orders }
    ensures { IfOk result (λ r. IsRankedOrLooped targets.now classes.now columns width (length stages.now) r) }
{
    match first_left(stages) {
        Some(left) => {
            let (place, choices) = find_loop(alloc, targets, classes, width, stages, all, left)?;
            Ok(Settled::Looped { place, choices })
        }
        None => {
            let ranks = ranks_of(alloc, classes, columns, stages, goals)?;
            let helpers = helpers_of(alloc, stages, goals)?;
            Ok(Settled::Ranked { ranks, helpers })
        }
    }
}

// Gives stages to places until each goal is reached from those that are left.
fn settle_from(
    alloc: Global,
    targets: &[u32],
    classes: &[u32],
    columns: u32,
    width: u32,
    stages: &mut [u64],
    goals: &mut Vec<u32>,
) -> Result<Settled, AllocError>
    requires places { length targets.now ≡ length stages.old * width }
    requires few { length stages.old < 2 ^ 32 }
    requires some { 0 < width }
    requires inside { LeadInside targets.now (length stages.old) }
    requires classes { length classes.now ≤ width }
    requires columns { (c : ℕ) → slice_index classes.now c < columns }
    requires staged { AreStaged targets.now classes.now stages.old goals.old.items width (length stages.old) }
    ensures { IfOk result (λ r. IsRankedOrLooped targets.now classes.now columns width (length stages.old) r) }
{
    for _turn in 0..stages.len() + 1 {
        if let Some(all) = advance(alloc, targets, classes, width, stages, goals)? {
            return conclude(
                alloc,
                targets,
                classes,
                columns,
                width,
                stages,
                goals.as_slice(),
                all.as_slice(),
            );
        }
    }
    // Each time some place got its stage.
    unreachable!()
}

/// Ranks of places, or a loop: one of these there is. From each place lead `width` choices, with these classes, each
/// below `columns`. The only error is that memory is out. It takes steps as many as choices of all places, times the
/// square of how many places there are, times classes, at most.
pub(crate) fn settle(
    alloc: Global,
    targets: &[u32],
    classes: &[u32],
    columns: u32,
    width: u32,
    count: usize,
) -> Result<Settled, AllocError>
    requires places { length targets.now ≡ count * width }
    requires few { count < 2 ^ 32 }
    requires some { 0 < width }
    requires inside { LeadInside targets.now count }
    requires classes { length classes.now ≤ width }
    requires columns { (c : ℕ) → slice_index classes.now c < columns }
    ensures { IfOk result (λ r. IsRankedOrLooped targets.now classes.now columns width count r) }
{
    let mut stages = vec![in alloc; 0u64; count]?;
    let mut goals = Vec::new(alloc);
    settle_from(
        alloc,
        targets,
        classes,
        columns,
        width,
        stages.as_mut_slice(),
        &mut goals,
    )
}
