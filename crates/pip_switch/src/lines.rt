//! Interrupt lines: one becomes pending, and the root takes one.
ghost use Rattle.std.specs.Prelude.{◌≡◌, ◌+◌, ◌<◌, ◌≤◌, ℕ, List, true, Some, None, IfSome, length, if◌then◌else◌};
ghost use Rattle.pip_base.specs.declared.outcome.Outcome.TheVariants as Outcome;
ghost use Rattle.pip_model.specs.Events as E;
ghost use Rattle.pip_model.specs.Handlers.{handler};
ghost use Rattle.pip_model.specs.Happens.{what_happens};
ghost use Rattle.pip_model.specs.Layout.{LaysOut};
ghost use Rattle.pip_model.specs.Lists.{has};
ghost use Rattle.pip_model.specs.Partitions.{HasPartition};
ghost use Rattle.pip_model.specs.Poll.{may_take, take_line};
ghost use Rattle.pip_model.specs.Sound.{AreLines, IsSound};
ghost use Rattle.pip_model.specs.Tree.{Tree};
ghost use Rattle.pip_model.specs.Worlds.{World, runs_on};
ghost use Rattle.pip_switch.specs.Occupied.{on_cpu};
ghost use Rattle.pip_switch.specs.Pending.{ArePending, Chosen, line_bits, polled_outcome};
ghost use Rattle.pip_switch.specs.Standing.{HasWorld, Leads, StandsFor};

use crate::bits::{has_line, with_line, without_line};
use crate::events::by_parts;
use crate::handlers::find_handler;
use crate::processors::{Processors, entering, is_running, number_on, runner, runs, set_running};
use crate::saves::save;
use pip_base::{Ctx, Frame, Outcome, Steps};
use pip_frames::Frames;
use pip_model::ROOT;
use pip_space::{is_masked, pending, set_masked, set_pending};
use std::sync::ledger::Ledger;

/// A line below 16 becomes pending in the root.
pub(crate) fn raise<M: Frames, L: Ledger>(
    mem: &mut M,
    cpus: &Processors,
    line: u32,
    steps: &mut Steps<L>,
)
    requires world { HasWorld (M.memory mem.old) cpus.now.items }
    requires line { line < 16 }
    ensures event { Leads (M.memory mem.old) cpus.now.items (λ w. what_happens w (E.Raise line)) Outcome.Done
        (M.memory mem.new) cpus.now.items }
    ensures steps { steps.new ≡ steps.old + 1 }
{
    let lines = with_line(pending(mem, steps), line);
    set_pending(mem, lines);
}

// Whether the root can take a line on a processor: it runs there and isn't masked, or it runs nowhere.
#[inline(never)]
fn can_take<M: Frames, L: Ledger>(
    mem: &M,
    cpus: &Processors,
    cpu: u32,
    steps: &mut Steps<L>,
) -> bool
    requires world { HasWorld (M.memory mem.now) cpus.now.items }
    requires cpu { cpu < length cpus.now.items }
    ensures can { (w : World) → StandsFor (M.memory mem.now) cpus.now.items w →
        result ≡ may_take w cpu (runs_on w cpu) }
    ensures root { HasPartition (M.memory mem.now) 1 }
    ensures steps { steps.new ≤ steps.old + 1 }
{
    let root = Frame::new(ROOT);
    if runs(&cpus.as_slice()[cpu as usize], root) {
        return !is_masked(mem, root, steps);
    }
    !is_running(cpus.as_slice(), root)
}

// The context with which the root handles a line, if it is pending.
fn line_handler<M: Frames, L: Ledger>(
    mem: &M,
    bits: u32,
    line: u32,
    steps: &mut Steps<L>,
) -> Option<Ctx>
    requires stands { HasPartition (M.memory mem.now) 1 }
    requires line { line < 16 }
    ensures handler { (t : Tree) (js : List ℕ) → IsSound t → LaysOut t (M.memory mem.now) → AreLines 0 js →
        bits ≡ line_bits js → result ≡ (if has js line then handler t t.root.name (32 + line) else None) }
    ensures steps { steps.new ≤ steps.old + 39 }
    ensures none { result ≡ None → steps.new ≤ steps.old + 7 }
{
    if !has_line(bits, line) {
        return None;
    }
    find_handler(mem, Frame::new(ROOT), 32 + line, steps)
}

// The lowest pending line that the root handles, and the context with which it does.
fn find_line<M: Frames, L: Ledger>(mem: &M, bits: u32, steps: &mut Steps<L>) -> Option<(u32, Ctx)>
    requires { HasPartition (M.memory mem.now) 1 }
    ensures chosen { (t : Tree) (js : List ℕ) → IsSound t → LaysOut t (M.memory mem.now) → AreLines 0 js →
        bits ≡ line_bits js → Chosen t js result }
    ensures line { IfSome result (λ y. y.0 < 16) }
    ensures steps { steps.new ≤ steps.old + 144 }
{
    for line in 0..16 {
        if let Some(handler) = line_handler(mem, bits, line, steps) {
            return Some((line, handler));
        }
    }
    None
}

// The root takes a pending line. Answers the number of the partition that ran, 0 if none did.
fn take<M: Frames, L: Ledger>(
    mem: &mut M,
    cpus: &mut Processors,
    cpu: u32,
    line: u32,
    handler: &Ctx,
    steps: &mut Steps<L>,
) -> u32
    requires world { HasWorld (M.memory mem.old) cpus.old.items }
    requires cpu { cpu < length cpus.old.items }
    requires line { line < 16 }
    ensures event { Leads (M.memory mem.old) cpus.old.items
        (λ w. take_line w cpu (runs_on w cpu) line (Some handler.now)) (Outcome.Switched result 1 (32 + line))
        (M.memory mem.new) cpus.new.items }
    ensures count { length cpus.new.items ≡ length cpus.old.items }
    ensures steps { steps.new ≤ steps.old + 44 }
{
    let root = Frame::new(ROOT);
    let bits = without_line(pending(mem, steps), line);
    let from = number_on(cpus, cpu);
    save(mem, cpus, cpu, steps);
    set_masked(mem, root, true);
    set_pending(mem, bits);
    set_running(cpus, cpu, Some(entering(root, handler, 32 + line, 0, 0, 0)));
    from
}

// The outcome of a poll that takes no line.
#[inline(always)]
fn untaken(cpus: &Processors, cpu: u32) -> Outcome
    requires { cpu < length cpus.now.items }
    ensures { result ≡ polled_outcome (on_cpu cpus.now.items cpu) }
{
    match runner(cpus, cpu) {
        Some(_) => Outcome::Done,
        None => Outcome::Idle,
    }
}

// The root, which can take a line, takes the first of these that it handles.
#[inline(never)]
fn take_first<M: Frames, L: Ledger>(
    mem: &mut M,
    cpus: &mut Processors,
    cpu: u32,
    bits: u32,
    steps: &mut Steps<L>,
) -> Outcome
    requires world { HasWorld (M.memory mem.old) cpus.old.items }
    requires cpu { cpu < length cpus.old.items }
    requires root { HasPartition (M.memory mem.old) 1 }
    requires can { (w : World) → StandsFor (M.memory mem.old) cpus.old.items w →
        may_take w cpu (runs_on w cpu) ≡ true }
    requires lines { ArePending (M.memory mem.old) bits }
    ensures event { Leads (M.memory mem.old) cpus.old.items (λ w. what_happens w (E.Poll cpu)) result
        (M.memory mem.new) cpus.new.items }
    ensures count { length cpus.new.items ≡ length cpus.old.items }
    ensures steps { steps.new ≤ steps.old + 188 }
{
    match find_line(mem, bits, steps) {
        None => untaken(cpus, cpu),
        Some((line, handler)) => {
            let from = take(mem, cpus, cpu, line, &handler, steps);
            Outcome::Switched {
                from,
                to: ROOT,
                vector: 32 + line,
            }
        }
    }
}

// A poll where these lines, one at least, are pending.
#[inline(always)]
fn poll_pending<M: Frames, L: Ledger>(
    mem: &mut M,
    cpus: &mut Processors,
    cpu: u32,
    bits: u32,
    steps: &mut Steps<L>,
) -> Outcome
    requires world { HasWorld (M.memory mem.old) cpus.old.items }
    requires cpu { cpu < length cpus.old.items }
    requires lines { ArePending (M.memory mem.old) bits }
    ensures event { Leads (M.memory mem.old) cpus.old.items (λ w. what_happens w (E.Poll cpu)) result
        (M.memory mem.new) cpus.new.items }
    ensures count { length cpus.new.items ≡ length cpus.old.items }
    ensures steps { steps.new ≤ steps.old + 189 }
{
    if !can_take(mem, cpus, cpu, steps) {
        return untaken(cpus, cpu);
    }
    by_parts(take_first(mem, cpus, cpu, bits, steps))
}

/// The root takes a pending line on a processor, where it can.
#[inline(always)]
pub(crate) fn poll<M: Frames, L: Ledger>(
    mem: &mut M,
    cpus: &mut Processors,
    cpu: u32,
    steps: &mut Steps<L>,
) -> Outcome
    requires world { HasWorld (M.memory mem.old) cpus.old.items }
    requires cpu { cpu < length cpus.old.items }
    ensures event { Leads (M.memory mem.old) cpus.old.items (λ w. what_happens w (E.Poll cpu)) result
        (M.memory mem.new) cpus.new.items }
    ensures count { length cpus.new.items ≡ length cpus.old.items }
    ensures steps { steps.new ≤ steps.old + 190 }
{
    let bits = pending(mem, steps);
    if bits == 0 {
        return untaken(cpus, cpu);
    }
    poll_pending(mem, cpus, cpu, bits, steps)
}
