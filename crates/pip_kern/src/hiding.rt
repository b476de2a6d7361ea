//! Pages hidden from the user, and opened again. Each function here is called in the middle of a call: the memory holds
//! the caller and its ancestors, with rows that are the tree's but for user bits and for which child a page is given
//! to.
ghost use Rattle.std.specs.Prelude.{◌≡◌, ◌+◌, ◌*◌, ◌<◌, ◌≤◌, ◌^◌, true, false, Option, Some, length};
ghost use Rattle.pip_base.specs.Memory.{word_at};
ghost use Rattle.pip_entry.specs.Sh2.{packed_sh2};
ghost use Rattle.pip_kern.specs.Hiding.{CanSetUser, IsAbove, OnEachChain, SetsUser, UserSetIn};
ghost use Rattle.pip_model.specs.Tree.{chain};
ghost use Rattle.pip_space.specs.Nodes.{InEachRow};
ghost use Rattle.pip_space.specs.Rows.{HasRow};

use pip_base::{Frame, Steps, VPage, never};
use pip_entry::Sh2;
use pip_entry::descriptor::PARENT;
use pip_frames::Frames;
use pip_space::{place_above, set_user};
use std::sync::ledger::Ledger;

// Where the page is one level up.
#[derive(Clone, Copy, Debug, PartialEq, Eq)]
struct Above {
    // The parent.
    part: Frame,
    // Where the parent maps the page.
    v: VPage,
}

// Where the parent of `part` maps the page of which the second shadow says this.
fn one_up<M: Frames, L: Ledger>(
    mem: &M,
    part: Frame,
    from: Sh2,
    steps: &mut Steps<L>,
) -> Option<Above>
    requires frame { part < length (M.memory mem.now) }
    requires parent { word_at (M.memory mem.now) part PARENT < 2 ^ 20 }
    ensures above { IsAbove (word_at (M.memory mem.now) part PARENT) (packed_sh2 from) result }
    ensures steps { steps.new ≤ steps.old + 1 }
{
    match from {
        Sh2::Empty => None,
        Sh2::Of(v) => Some(Above {
            part: Frame::new(mem.word(part, PARENT, steps)),
            v,
        }),
    }
}

// Opens a page to the user in one partition, or hides it. Answers where the parent maps the page; None in the root.
fn set_user_in<M: Frames, L: Ledger>(
    mem: &mut M,
    part: Frame,
    v: VPage,
    user: bool,
    steps: &mut Steps<L>,
) -> Option<Above>
    requires row { HasRow (M.memory mem.old) part v }
    requires parent { word_at (M.memory mem.old) part PARENT < 2 ^ 20 }
    ensures count { length (M.memory mem.new) ≡ length (M.memory mem.old) }
    ensures user { InEachRow (M.memory mem.old) part v (λ x rows r.
        UserSetIn x rows v r user (M.memory mem.old) (M.memory mem.new) result) }
    ensures steps { steps.new ≤ steps.old + 7 }
{
    let above = place_above(mem, part, v, steps);
    let up = one_up(mem, part, above, steps);
    set_user(mem, part, v, user, steps);
    up
}

// Opens a page to the user, or hides it, from the caller up to the root. No chain of partitions is as long as the
// memory has frames, so the climb ends at the root.
fn set_user_above<M: Frames, L: Ledger>(
    mem: &mut M,
    caller: Frame,
    v: VPage,
    user: bool,
    steps: &mut Steps<L>,
)
    requires { CanSetUser (M.memory mem.old) caller v }
    ensures count { length (M.memory mem.new) ≡ length (M.memory mem.old) }
    ensures user { SetsUser caller v user (M.memory mem.old) (M.memory mem.new) }
    ensures steps { steps.new ≤ steps.old + 7 * length (M.memory mem.old) }
    ensures chain { OnEachChain (M.memory mem.old) caller v (λ t rows r.
        steps.new ≤ steps.old + 7 * length (chain t caller)) }
{
    let mut at = caller;
    let mut place = v;
    for _i in 0..mem.count() {
        match set_user_in(mem, at, place, user, steps) {
            None => return,
            Some(above) => {
                at = above.part;
                place = above.v;
            }
        }
    }
    never!()
}

/// Hides from the user the page that the caller maps at a virtual page: there, and wherever an ancestor maps it. Every
/// other word stays. The caller maps a page there.
pub fn hide<M: Frames, L: Ledger>(mem: &mut M, caller: Frame, v: VPage, steps: &mut Steps<L>)
    requires { CanSetUser (M.memory mem.old) caller v }
    ensures count { length (M.memory mem.new) ≡ length (M.memory mem.old) }
    ensures user { SetsUser caller v false (M.memory mem.old) (M.memory mem.new) }
    ensures steps { steps.new ≤ steps.old + 7 * length (M.memory mem.old) }
    ensures chain { OnEachChain (M.memory mem.old) caller v (λ t rows r.
        steps.new ≤ steps.old + 7 * length (chain t caller)) }
{
    set_user_above(mem, caller, v, false, steps);
}

/// Opens to the user the page that the caller maps at a virtual page: there, and wherever an ancestor maps it. Every
/// other word stays. The caller maps a page there.
pub fn show<M: Frames, L: Ledger>(mem: &mut M, caller: Frame, v: VPage, steps: &mut Steps<L>)
    requires { CanSetUser (M.memory mem.old) caller v }
    ensures count { length (M.memory mem.new) ≡ length (M.memory mem.old) }
    ensures user { SetsUser caller v true (M.memory mem.old) (M.memory mem.new) }
    ensures steps { steps.new ≤ steps.old + 7 * length (M.memory mem.old) }
    ensures chain { OnEachChain (M.memory mem.old) caller v (λ t rows r.
        steps.new ≤ steps.old + 7 * length (chain t caller)) }
{
    set_user_above(mem, caller, v, true, steps);
}
