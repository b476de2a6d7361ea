//! The lines that are pending.
ghost use Rattle.std.specs.Prelude.{◌≡◌, ◌+◌, ◌<◌, ◌||◌, ℕ, List, not};
ghost use Rattle.pip_model.specs.Layout.{LaysOut};
ghost use Rattle.pip_model.specs.Lists.{has};
ghost use Rattle.pip_model.specs.Partitions.{HasPartition};
ghost use Rattle.pip_model.specs.Sound.{AreLines, IsSound};
ghost use Rattle.pip_model.specs.Tree.{Tree};
ghost use Rattle.pip_guests.specs.Sights as tests;
ghost use Rattle.pip_switch.specs.Pending.{line_bits};
ghost use Rattle.pip_away.specs.Blind.{sight_of};

use crate::blind::Blind;
use crate::handlers::handler_misses;
use pip_base::{Frame, LINES, Steps};
use pip_frames::Frames;
use pip_model::ROOT;
use pip_space::pending;
use std::sync::ledger::Ledger;

// Whether a line is one of these.
fn is_pending(bits: u32, line: u32) -> bool
    requires { line < 16 }
    ensures { (js : List ℕ) → AreLines 0 js → bits ≡ line_bits js → result ≡ has js line }
{
    (bits >> line) % 2 == 1
}

// Whether the root's handler for a line isn't left out, if the line is pending.
fn line_misses<M: Frames, L: Ledger>(
    mem: &M,
    blind: &Blind,
    bits: u32,
    line: u32,
    steps: &mut Steps<L>,
) -> bool
    requires root { HasPartition (M.memory mem.now) 1 }
    requires line { line < 16 }
    ensures { (t : Tree) (js : List ℕ) → IsSound t → LaysOut t (M.memory mem.now) → AreLines 0 js →
        bits ≡ line_bits js → result ≡ (not (has js line)
        || tests.handler_passes blind.now.own.items (sight_of blind.now) t t.root.name (32 + line)) }
{
    !is_pending(bits, line) || handler_misses(mem, blind, Frame::new(ROOT), 32 + line, steps)
}

/// Whether no handler of the root for a line that is pending is left out.
pub(crate) fn lines_miss<M: Frames, L: Ledger>(mem: &M, blind: &Blind, steps: &mut Steps<L>) -> bool
    requires { HasPartition (M.memory mem.now) 1 }
    ensures { (t : Tree) → IsSound t → LaysOut t (M.memory mem.now) →
        result ≡ tests.lines_pass blind.now.own.items (sight_of blind.now) t t.root.pending }
{
    let bits = pending(mem, steps);
    for line in 0..LINES {
        if !line_misses(mem, blind, bits, line, steps) {
            return false;
        }
    }
    true
}
