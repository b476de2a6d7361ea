//! Places with edges, and the marks of those from which edges lead to some.
ghost use Rattle.std.specs.Prelude.{◌≡◌, ℕ, ◌+◌, ◌*◌, ◌^◌, ◌<◌, ◌≤◌, Bool, List, Some, IfOk, length, slice_get};
ghost use Rattle.pip_search.specs.Filing.{IsFiled};
ghost use Rattle.pip_search.specs.Graphs.{AreFollowed, IsListed, IsMarked, IsSpreading, LeadsToMarked, marks_left};

use crate::index::Index;
use std::alloc::{AllocError, Global};

// Marks a place from which edges lead to a marked one, and adds it to the queue, unless it is marked.
fn mark(place: usize, marks: &mut Vec<bool>, queue: &mut Vec<u32>) -> Result<(), AllocError>
    requires place { place < length marks.old.items }
    requires word { place < 2 ^ 32 }
    ensures now { IfOk result (λ _. IsMarked marks.new.items place) }
    ensures keeps { IfOk result (λ _. (j : ℕ) → IsMarked marks.old.items j → IsMarked marks.new.items j) }
    ensures count { IfOk result (λ _. length marks.new.items ≡ length marks.old.items) }
    ensures sum { IfOk result (λ _. length queue.new.items + marks_left marks.new.items
        ≡ length queue.old.items + marks_left marks.old.items) }
    ensures stays { IfOk result (λ _. (p k : ℕ) → slice_get queue.old.items p ≡ Some k
        → slice_get queue.new.items p ≡ Some k) }
    ensures spreading { IfOk result (λ _. (targets : List ℕ) (width : ℕ) (first : List Bool) (i : ℕ)
        → IsSpreading targets width first marks.old.items queue.old.items i
        → LeadsToMarked targets width first place
        → IsSpreading targets width first marks.new.items queue.new.items i) }
{
    if !marks[place] {
        marks[place] = true;
        queue.push(place as u32)?;
    }
    Ok(())
}

// Marks all places with an edge to `k`. An edge is filed by the place to which it leads.
fn pull(
    edges: &Index,
    width: usize,
    k: u32,
    marks: &mut Vec<bool>,
    queue: &mut Vec<u32>,
) -> Result<(), AllocError>
    requires filed { IsFiled edges.now }
    requires some { 0 < width }
    requires places { length edges.now.hashes.items ≤ length marks.old.items * width }
    requires few { length marks.old.items ≤ 2 ^ 32 }
    requires marked { IsMarked marks.old.items k }
    ensures followed { IfOk result (λ _. AreFollowed edges.now.hashes.items width marks.new.items k) }
    ensures keeps { IfOk result (λ _. (j : ℕ) → IsMarked marks.old.items j → IsMarked marks.new.items j) }
    ensures count { IfOk result (λ _. length marks.new.items ≡ length marks.old.items) }
    ensures sum { IfOk result (λ _. length queue.new.items + marks_left marks.new.items
        ≡ length queue.old.items + marks_left marks.old.items) }
    ensures stays { IfOk result (λ _. (p j : ℕ) → slice_get queue.old.items p ≡ Some j
        → slice_get queue.new.items p ≡ Some j) }
    ensures spreading { IfOk result (λ _. (first : List Bool) (i : ℕ)
        → IsSpreading edges.now.hashes.items width first marks.old.items queue.old.items i
        → IsSpreading edges.now.hashes.items width first marks.new.items queue.new.items i) }
{
    let mut at = edges.heads[k as usize % edges.heads.len()];
    while at != 0 {
        let edge = at as usize - 1;
        if edges.hashes[edge] == k {
            mark(edge / width, marks, queue)?;
        }
        at = edges.chains[edge];
    }
    Ok(())
}

// The marked places.
fn marked(alloc: Global, marks: &[bool]) -> Result<Vec<u32>, AllocError>
    requires few { length marks.now ≤ 2 ^ 32 }
    ensures queued { IfOk result (λ q. (j : ℕ) → IsMarked marks.now j → IsListed q.items j) }
    ensures marked { IfOk result (λ q. (p j : ℕ) → slice_get q.items p ≡ Some j → IsMarked marks.now j) }
{
    let mut queue = Vec::new(alloc);
    for place in 0..marks.len() {
        if marks[place] {
            queue.push(place as u32)?;
        }
    }
    Ok(queue)
}

/// Marks all places from which edges lead to a marked one. There are `width` edges from each place, and each is filed
/// by the place to which it leads. The only error is that memory is out.
pub(crate) fn spread(
    alloc: Global,
    edges: &Index,
    width: usize,
    marks: &mut Vec<bool>,
) -> Result<(), AllocError>
    requires filed { IsFiled edges.now }
    requires some { 0 < width }
    requires places { length edges.now.hashes.items ≡ length marks.old.items * width }
    requires few { length marks.old.items ≤ 2 ^ 32 }
    ensures sound { IfOk result (λ _. (j : ℕ) → IsMarked marks.new.items j
        → LeadsToMarked edges.now.hashes.items width marks.old.items j) }
    ensures keeps { IfOk result (λ _. (j : ℕ) → IsMarked marks.old.items j → IsMarked marks.new.items j) }
    ensures closed { IfOk result (λ _. (k : ℕ) → IsMarked marks.new.items k
        → AreFollowed edges.now.hashes.items width marks.new.items k) }
    ensures count { IfOk result (λ _. length marks.new.items ≡ length marks.old.items) }
{
    let mut queue = marked(alloc, marks)?;
    let mut i = 0;
    while i < queue.len() {
        let k = queue[i];
        pull(edges, width, k, marks, &mut queue)?;
        i += 1;
    }
    Ok(())
}
