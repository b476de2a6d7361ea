//! The guests of a machine: the children of the root below which something runs.
ghost use Rattle.std.specs.Prelude.{◌≡◌, ◌<◌, ◌≤◌, ◌+◌, All, IfOk, length};
ghost use Rattle.pip_model.specs.Partitions.{HasPartition, InEach};
ghost use Rattle.pip_model.specs.Worlds.{World, runs_on};
ghost use Rattle.pip_switch.specs.Standing.{StandsAs};
ghost use Rattle.pip_apart.specs.Company as company;
ghost use Rattle.pip_apart.specs.Tops as defined;

use arrayvec::ArrayVec;
use pip_base::{Frame, Steps, never};
use pip_frames::Frames;
use pip_kern::{is_below, parent_of};
use pip_model::{Port, ROOT};
use pip_switch::Machine;
use std::alloc::{AllocError, Global};
use std::sync::ledger::Ledger;

/// The child of the root that a partition is, or is below. None for the root.
pub fn top_of<M: Frames, L: Ledger>(mem: &M, part: Frame, steps: &mut Steps<L>) -> Option<Frame>
    requires { HasPartition (M.memory mem.now) part }
    ensures { InEach (M.memory mem.now) part (λ t x. result ≡ defined.top_of t part) }
{
    if part.number() == ROOT {
        return None;
    }
    let mut at = part;
    for _i in 0..mem.count() {
        let up = parent_of(mem, at, steps);
        if up.number() == ROOT {
            return Some(at);
        }
        at = up;
    }
    never!()
}

/// The guest on a processor: the child of the root that is what runs there, or is above it. None where the root runs,
/// or nothing.
pub fn top_at<M: Frames, L: Ledger>(
    machine: &Machine<M>,
    cpu: u32,
    steps: &mut Steps<L>,
) -> Option<Frame>
    requires cpu { cpu < length machine.now.cpus }
    requires stands { (w : World) × StandsAs machine.now w }
    ensures { (w : World) → StandsAs machine.now w → result ≡ defined.top_at w cpu }
{
    match machine.runs(cpu) {
        Some(part) => top_of(machine.mem(), part, steps),
        None => None,
    }
}

// Adds a guest that is none of those before.
fn add_top(tops: &mut ArrayVec<Frame, 4>, top: Option<Frame>)
    requires { length tops.old.items < 4 }
    ensures tops { tops.new.items ≡ defined.with_top tops.old.items top }
    ensures few { length tops.new.items ≤ length tops.old.items + 1 }
{
    let Some(top) = top else {
        return;
    };
    if !tops.contains(&top) {
        tops.push(top);
    }
}

/// The guests of a machine, in the order of the first processor of each.
pub fn tops<M: Frames, L: Ledger>(machine: &Machine<M>, steps: &mut Steps<L>) -> ArrayVec<Frame, 4>
    requires { (w : World) × StandsAs machine.now w }
    ensures { (w : World) → StandsAs machine.now w → result.items ≡ defined.tops w }
{
    let mut tops = ArrayVec::new();
    for cpu in 0..machine.cpus() {
        let top = top_at(machine, cpu, steps);
        add_top(&mut tops, top);
    }
    tops
}

// Whether a partition of the guest `top` runs on a processor.
pub(crate) fn runs_below<M: Frames, L: Ledger>(
    machine: &Machine<M>,
    top: Frame,
    cpu: u32,
    steps: &mut Steps<L>,
) -> bool
    requires cpu { cpu < length machine.now.cpus }
    requires stands { (w : World) × StandsAs machine.now w }
    ensures { (w : World) → StandsAs machine.now w → result ≡ company.runs_below w top cpu }
{
    match machine.runs(cpu) {
        Some(part) => is_below(machine.mem(), part, top, steps),
        None => false,
    }
}

/// The processors on which a guest runs. The only error is that memory is out.
pub fn processors_of<M: Frames, L: Ledger>(
    alloc: Global,
    machine: &Machine<M>,
    top: Frame,
    steps: &mut Steps<L>,
) -> Result<Vec<u32>, AllocError>
    requires { (w : World) × StandsAs machine.now w }
    ensures are { IfOk result (λ r. (w : World) → StandsAs machine.now w → r.items ≡ defined.processors_of w top) }
    ensures there { IfOk result (λ r. All (λ cpu. cpu < length machine.now.cpus) r.items) }
    ensures few { IfOk result (λ r. length r.items ≤ length machine.now.cpus) }
{
    let mut cpus = Vec::new(alloc);
    for cpu in 0..machine.cpus() {
        if runs_below(machine, top, cpu, steps) {
            cpus.push(cpu)?;
        }
    }
    Ok(cpus)
}

// Whether the root runs on a processor.
fn runs_root<M: Frames>(machine: &Machine<M>, cpu: u32) -> bool
    requires cpu { cpu < length machine.now.cpus }
    ensures { (w : World) → StandsAs machine.now w → result ≡ defined.names_root w.tree (runs_on w cpu) }
{
    match machine.runs(cpu) {
        Some(part) => part.number() == ROOT,
        None => false,
    }
}

/// The first processor on which the root runs. None where it runs on none.
pub fn root_on<M: Frames>(machine: &Machine<M>) -> Option<u32>
    requires { (w : World) × StandsAs machine.now w }
    ensures { (w : World) → StandsAs machine.now w → result ≡ defined.root_on w }
{
    for cpu in 0..machine.cpus() {
        if runs_root(machine, cpu) {
            return Some(cpu);
        }
    }
    None
}
