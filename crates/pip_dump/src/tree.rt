//! The text of the tree.
ghost use Rattle.pip_io.specs.Causes.{HasCause};
ghost use Rattle.pip_model.specs.Dump.{tree_text};
ghost use Rattle.pip_model.specs.Partitions.{HasPartition, IsHeld};
ghost use Rattle.pip_model.specs.Tree.{Tree};
ghost use Rattle.pip_io.specs.Taken.{Wrote};

use crate::part::part_text;
use crate::place::{first_place, next_place};
use pip_base::Steps;
use pip_frames::Frames;
use pip_io::{Failed, Sink};
use std::sync::ledger::Ledger;

/// Writes the text of the tree that the frames lay out, without a last line (docs/FORMATS.md, "tree"). Fails only if a
/// write failed; a prefix of the text was written then. Takes no memory.
pub fn tree_text<M: Frames, K: Sink, L: Ledger>(
    mem: &M,
    sink: &mut K,
    steps: &mut Steps<L>,
) -> Result<(), Failed>
    requires { HasPartition (M.memory mem.now) 1 }
    ensures text { (t : Tree) → IsHeld t (M.memory mem.now) → Wrote result (K.history sink.old).written
        (K.history sink.new).written (tree_text t) }
    ensures cause { HasCause (K.history sink.old).faults (K.history sink.new).faults result }
{
    let mut next = Some(first_place());
    for _i in 0..mem.count() {
        match next {
            None => return Ok(()),
            Some(place) => {
                part_text(mem, &place, sink, steps)?;
                next = next_place(mem, &place, steps);
            }
        }
    }
    Ok(())
}
