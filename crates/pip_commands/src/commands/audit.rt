//! The command `audit`: a raw memory is read and judged.
ghost use Rattle.std.specs.Prelude.{◌≡◌, ◌≢◌, ◌≤◌, [], IfOk, None, length, replicate};
ghost use Rattle.pip_base.specs.Opening.{CanOpen};
ghost use Rattle.pip_audit.specs.Reading.{IsFor};
ghost use Rattle.pip_audit.specs.Verdict.{verdict_of};
ghost use Rattle.pip_base.specs.Memory.{IsMemory, zeros};
ghost use Rattle.pip_model.specs.Audit.{HasWordsOnly, finding};
ghost use Rattle.pip_commands.specs.Dues.{audit_due, found_answer};
ghost use Rattle.pip_command_contracts.specs.EndsBy.{EndsWithResponse};
ghost use Rattle.pip_command_contracts.specs.Commands.{Fulfils, FulfilsJoined, MayStart, MayStartJoined};

use crate::text::{bad_line, no_line};
use pip_audit::{Auditor, CoreError, Verdict, read_core_from_joint};
use pip_base::Steps;
use pip_command_contracts::{Ended, end_with};
use pip_dump::tree_text;
use pip_frames::{Frames, RawFrames};
use pip_io::{Joint, Sink, Source};
use std::alloc::{AllocError, Global};
use std::marker::Brand;
use std::sync::ledger::{Blank, Ledger};

/// Judges a memory of `frames` frames, 16 to 4096, whose text is read (docs/FORMATS.md, "audit"). Memory is taken
/// before the first read alone. No machine is handed back.
pub fn audit<S: Source, K: Sink>(alloc: Global, frames: u32, source: &mut S, sink: &mut K) -> Ended
    requires least { 16 ≤ frames }
    requires most { frames ≤ 4096 }
    requires paced { MayStart (audit_due frames) S.is_open S.allows S.history K.history source.old sink.old }
    ensures ends { Fulfils (audit_due frames) result S.history K.history source.old sink.old source.new sink.new }
{
    let mut joint = Joint::new(source, sink);
    audit_input(alloc, frames, &mut joint)
}

// Judges what a joint reads.
fn audit_input<S: Source, K: Sink>(alloc: Global, frames: u32, joint: &mut Joint<'_, S, K>) -> Ended
    requires least { 16 ≤ frames }
    requires most { frames ≤ 4096 }
    requires paced { MayStartJoined (audit_due frames) S.is_open S.allows S.history K.history joint.old }
    ensures same_source { joint.new.source.ghost_name ≡ joint.old.source.ghost_name }
    ensures same_sink { joint.new.sink.ghost_name ≡ joint.old.sink.ghost_name }
    ensures ends { FulfilsJoined (audit_due frames) result S.history K.history joint.old joint.new }
{
    let Ok(mut room) = take_room(alloc, frames) else {
        return Ended::with_status(5);
    };
    match read_core_from_joint(joint, &mut room.mem) {
        Ok(()) => judge::<K, Brand>(&mut room, &mut *joint.sink, Blank::new(1)),
        Err(CoreError::Line(number)) => {
            end_with(&mut *joint.sink, bad_line(number).as_str().as_bytes(), 2)
        }
        Err(CoreError::Read) => Ended::with_status(3),
    }
}

/// All memory that the command takes.
#[derive(Drop)]
struct AuditRoom {
    mem: RawFrames,
    auditor: Auditor,
}

// Frames of zeros, and a judge of that many.
fn take_room(alloc: Global, frames: u32) -> Result<AuditRoom, AllocError>
    requires least { 16 ≤ frames }
    requires most { frames ≤ 4096 }
    ensures zeros { IfOk result (λ r. ⟦<RawFrames as Frames>⟧.memory r.mem ≡ replicate frames (zeros 1024)) }
    ensures room { IfOk result (λ r. IsFor frames r.auditor) }
{
    Ok(AuditRoom {
        mem: RawFrames::new(alloc, frames)?,
        auditor: Auditor::new(alloc, frames)?,
    })
}

// Judges what was read, with a counter of steps that nobody reads, and writes the answer.
fn judge<K: Sink, L: Ledger>(room: &mut AuditRoom, sink: &mut K, blank: Blank) -> Ended
    requires blank { CanOpen blank.name blank.parts L.name L.parts }
    requires none { (K.history sink.old).written.buffered ≡ [] }
    requires room { IsFor (length (⟦<RawFrames as Frames>⟧.memory room.old.mem)) room.old.auditor }
    requires shape { IsMemory (⟦<RawFrames as Frames>⟧.memory room.old.mem) }
    requires words { HasWordsOnly (⟦<RawFrames as Frames>⟧.memory room.old.mem) }
    ensures wrote { EndsWithResponse (found_answer (finding (⟦<RawFrames as Frames>⟧.memory room.old.mem)))
        result.status (K.history sink.old) (K.history sink.new) }
    ensures no_faults { result.status ≢ 4 → (K.history sink.new).faults ≡ (K.history sink.old).faults }
    ensures machine { result.machine ≡ None }
    ensures none { result.status ≢ 4 → (K.history sink.new).written.buffered ≡ [] }
{
    let mut steps: Steps<L> = Steps::new(blank);
    let verdict = room.auditor.audit(&room.mem, &mut steps);
    tell(&room.mem, verdict, sink, &mut steps)
}

// Writes the line of a verdict; where it is yes, after the text of the tree.
fn tell<M: Frames, K: Sink, L: Ledger>(
    mem: &M,
    verdict: Verdict,
    sink: &mut K,
    steps: &mut Steps<L>,
) -> Ended
    requires shape { IsMemory (M.memory mem.now) }
    requires words { HasWordsOnly (M.memory mem.now) }
    requires verdict { verdict ≡ verdict_of (finding (M.memory mem.now)) }
    ensures wrote { EndsWithResponse (found_answer (finding (M.memory mem.now))) result.status (K.history sink.old)
        (K.history sink.new) }
    ensures no_faults { result.status ≢ 4 → (K.history sink.new).faults ≡ (K.history sink.old).faults }
    ensures machine { result.machine ≡ None }
    ensures none { result.status ≢ 4 → (K.history sink.new).written.buffered ≡ [] }
{
    if let Some(line) = no_line(verdict) {
        return end_with(sink, line.as_str().as_bytes(), 9);
    }
    match tree_text(mem, sink, steps) {
        Ok(()) => end_with(sink, b"yes\n", 0),
        Err(_) => Ended::with_status(4),
    }
}
