//! What is shown of a run.
ghost use Rattle.std.specs.Prelude.{◌≡◌, ◌≤◌, ◌<◌, ◌++◌, [], OnOk};
ghost use Rattle.std.specs.List.{AllByRecursion};
ghost use Rattle.pip_io.specs.Taken.{Wrote};
ghost use Rattle.pip_io.specs.Causes.{HasCause};
ghost use Rattle.pip_model.specs.Dump.{frames_text, tree_text};
ghost use Rattle.pip_model.specs.Images.{Image};
ghost use Rattle.pip_model.specs.Partitions.{HasPartition, IsHeld};
ghost use Rattle.pip_model.specs.Run.{end_line};
ghost use Rattle.pip_model.specs.Tree.{Tree};
ghost use Rattle.pip_commands.specs.Shown.{ShowsOut, ShowsReport};
ghost use Rattle.pip_command_contracts.specs.Loading.{Begins, HasImage};

use pip_base::Steps;
use pip_command_contracts::loading::Loaded;
use pip_command_contracts::pass;
use pip_dump::{frames_text, tree_text};
use pip_frames::Frames;
use pip_io::{Failed, Sink};
use pip_lines::{Callback, ImageSize, trace, write_end};
use std::sync::ledger::Ledger;

/// What one of the three commands shows.
#[derive(Clone, Copy, Debug, PartialEq, Eq)]
pub enum Report {
    /// What the steps do.
    Trace,
    /// The tree of partitions after them.
    Tree,
    /// The words of all frames after them.
    Frames,
}

impl Report {
    /// Makes the steps and writes the text, and all that the sink holds. The seed is not 0.
    pub fn show<F: Callback, K: Sink, L: Ledger>(
        self,
        loaded: &mut Loaded<F>,
        count: u32,
        seed: u32,
        sink: &mut K,
        steps: &mut Steps<L>,
    ) -> Result<(), Failed>
        requires begins { HasImage loaded.old.frames loaded.old.pages loaded.old.lines.items loaded.old.machine }
        requires below { AllByRecursion (λ p. p.line < 16) loaded.old.lines.items }
        requires seed { 1 ≤ seed }
        ensures shows { (i : Image) → Begins i loaded.old.frames loaded.old.pages loaded.old.lines.items
            loaded.old.machine → ShowsOut result self i count seed (K.history sink.old).written
            (K.history sink.new).written
            loaded.new.machine }
        ensures none { OnOk result ((K.history sink.new).written.buffered ≡ []) }
        ensures cause { HasCause (K.history sink.old).faults (K.history sink.new).faults result }
    {
        self.give(loaded, count, seed, sink, steps)?;
        sink.flush()
    }

    // Makes the steps and writes the text.
    fn give<F: Callback, K: Sink, L: Ledger>(
        self,
        loaded: &mut Loaded<F>,
        count: u32,
        seed: u32,
        sink: &mut K,
        steps: &mut Steps<L>,
    ) -> Result<(), Failed>
        requires begins { HasImage loaded.old.frames loaded.old.pages loaded.old.lines.items loaded.old.machine }
        requires below { AllByRecursion (λ p. p.line < 16) loaded.old.lines.items }
        requires seed { 1 ≤ seed }
        ensures shows { (i : Image) → Begins i loaded.old.frames loaded.old.pages loaded.old.lines.items
            loaded.old.machine → ShowsReport result self i count seed (K.history sink.old).written
            (K.history sink.new).written loaded.new.machine }
        ensures cause { HasCause (K.history sink.old).faults (K.history sink.new).faults result }
    {
        let machine = &mut loaded.machine;
        let lines = loaded.lines.as_slice();
        match self {
            Report::Trace => {
                let size = ImageSize {
                    frames: loaded.frames,
                    pages: loaded.pages,
                };
                trace(machine, lines, size, count, seed, sink, steps)
            }
            Report::Tree => {
                pass(machine, lines, count, seed, steps);
                write_tree(machine.mem(), count, sink, steps)
            }
            Report::Frames => {
                pass(machine, lines, count, seed, steps);
                write_frames(machine.mem(), count, sink, steps)
            }
        }
    }
}

// Writes the text of the tree that the frames lay out, and the last line.
fn write_tree<M: Frames, K: Sink, L: Ledger>(
    mem: &M,
    count: u32,
    sink: &mut K,
    steps: &mut Steps<L>,
) -> Result<(), Failed>
    requires { HasPartition (M.memory mem.now) 1 }
    ensures wrote { (t : Tree) → IsHeld t (M.memory mem.now) → Wrote result (K.history sink.old).written
        (K.history sink.new).written (tree_text t ++ end_line count) }
    ensures cause { HasCause (K.history sink.old).faults (K.history sink.new).faults result }
{
    tree_text(mem, sink, steps)?;
    write_end(sink, count)
}

// Writes the words of all frames, and the last line.
fn write_frames<M: Frames, K: Sink, L: Ledger>(
    mem: &M,
    count: u32,
    sink: &mut K,
    steps: &mut Steps<L>,
) -> Result<(), Failed>
    ensures wrote { (t : Tree) → IsHeld t (M.memory mem.now) → Wrote result (K.history sink.old).written
        (K.history sink.new).written (frames_text t ++ end_line count) }
    ensures cause { HasCause (K.history sink.old).faults (K.history sink.new).faults result }
{
    frames_text(mem, sink, steps)?;
    write_end(sink, count)
}
