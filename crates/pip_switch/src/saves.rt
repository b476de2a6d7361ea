//! Saves: the context of what runs on a processor goes into a block of its partition.
ghost use Rattle.std.specs.Prelude.{◌≡◌, ◌+◌, ◌<◌, ◌≤◌, IfSome, Option, Some, length};
ghost use Rattle.pip_model.specs.Handlers.{save};
ghost use Rattle.pip_model.specs.Layout.{LaysOut};
ghost use Rattle.pip_model.specs.Partitions.{HasPartition, InEach, IsHeld};
ghost use Rattle.pip_model.specs.Sound.{IsContext, IsSound};
ghost use Rattle.pip_model.specs.Tree.{Tree};
ghost use Rattle.pip_model.specs.Worlds.{save_running};
ghost use Rattle.pip_model.specs.declared.processors.Occupant.{Occupant};
ghost use Rattle.pip_switch.specs.Blocks.{HasRoom, SavesAt};
ghost use Rattle.pip_switch.specs.Occupied.{CanSave, IsNamed, on_cpu};

use crate::blocks::{HandlerBlock, write_context};
use crate::handlers::find_place;
use crate::processors::Processors;
use pip_base::{Ctx, Frame, Steps};
use pip_frames::Frames;
use pip_model::call_number::SAVED;
use std::sync::ledger::Ledger;

/// Writes a context into a block, if there is one.
fn save_at<M: Frames, L: Ledger>(
    mem: &mut M,
    place: Option<HandlerBlock>,
    ctx: &Ctx,
    steps: &mut Steps<L>,
)
    requires { IfSome place (HasRoom (M.memory mem.old)) }
    ensures tree { SavesAt (M.memory mem.old) place ctx.now (M.memory mem.new) }
    ensures count { length (M.memory mem.new) ≡ length (M.memory mem.old) }
    ensures steps { steps.new ≤ steps.old + 32 }
{
    match place {
        None => {}
        Some(block) => write_context(mem, block, ctx, steps),
    }
}

// Writes a context into a partition's block for a vector below 256, if it can be saved to.
fn save_in<M: Frames, L: Ledger>(
    mem: &mut M,
    part: Frame,
    vector: u32,
    ctx: &Ctx,
    steps: &mut Steps<L>,
)
    requires stands { HasPartition (M.memory mem.old) part }
    requires vector { vector < 256 }
    requires context { IsContext ctx.now }
    ensures tree { InEach (M.memory mem.old) part (λ t x. IsHeld (save t part vector ctx.now) (M.memory mem.new)) }
    ensures count { length (M.memory mem.new) ≡ length (M.memory mem.old) }
    ensures steps { steps.new ≤ steps.old + 43 }
{
    let place = find_place(mem, part, vector, steps);
    save_at(mem, place, ctx, steps);
}

/// What runs on a processor, if anything does, is saved in its block for vector 63.
pub(crate) fn save<M: Frames, L: Ledger>(
    mem: &mut M,
    cpus: &Processors,
    cpu: u32,
    steps: &mut Steps<L>,
)
    requires cpu { cpu < length cpus.now.items }
    requires saves { CanSave (M.memory mem.old) (on_cpu cpus.now.items cpu) }
    ensures tree { (t : Tree) → IsSound t → LaysOut t (M.memory mem.old) → IsNamed t (on_cpu cpus.now.items cpu) →
        IsHeld (save_running t (on_cpu cpus.now.items cpu)) (M.memory mem.new) }
    ensures steps { steps.new ≤ steps.old + 43 }
{
    match &cpus.as_slice()[cpu as usize] {
        Some(r) => save_in(mem, r.name, SAVED, &r.ctx, steps),
        None => {}
    }
}

/// What runs on a processor, if anything does, is saved in a block, if there is one.
pub(crate) fn save_to<M: Frames, L: Ledger>(
    mem: &mut M,
    cpus: &Processors,
    cpu: u32,
    place: Option<HandlerBlock>,
    steps: &mut Steps<L>,
)
    requires cpu { cpu < length cpus.now.items }
    requires room { IfSome place (HasRoom (M.memory mem.old)) }
    ensures tree { (r : Occupant) → on_cpu cpus.now.items cpu ≡ Some r →
        SavesAt (M.memory mem.old) place r.ctx (M.memory mem.new) }
    ensures steps { steps.new ≤ steps.old + 32 }
{
    match &cpus.as_slice()[cpu as usize] {
        Some(r) => save_at(mem, place, &r.ctx, steps),
        None => {}
    }
}
