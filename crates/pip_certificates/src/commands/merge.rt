//! The command `merge`: the sorted lines of all parts are read, and merged one after another.
ghost use Rattle.std.specs.Prelude.{◌≡◌, [], MatchResult};
ghost use Rattle.pip_io.specs.Moments.{joined};
ghost use Rattle.pip_io.specs.Pacing.{MayRead};
ghost use Rattle.pip_certificates.specs.Merges.{no_merging};
ghost use Rattle.pip_certificates.specs.Seen.{merging_of};
ghost use Rattle.pip_certificates.specs.MergeDues.{BeginsMerge, merge_due, merge_numbered};
ghost use Rattle.pip_certificates.specs.MergeReading.{GivesNumbered, StopsMerge, TakesMerge};
ghost use Rattle.pip_command_contracts.specs.Commands.{Fulfils, FulfilsJoined, MayStart, MayStartJoined};

pub(crate) mod answers;
pub(crate) mod line_reader;

use crate::parts::{MergeError, MergeFault, Merger};
use answers::{end_broken, end_merged};
use line_reader::{LineKind, LineReader, LineStop};
use pip_base::never;
use pip_command_contracts::Ended;
use pip_io::{Joint, Sink, Source};
use std::alloc::Global;

// The most lines that are merged.
const MOST_LINES: u64 = 0xffff_ffff;

/// Why not all lines were merged.
#[derive(Clone, Copy, Debug, PartialEq, Eq)]
pub enum MergeStop {
    /// The line with this number, from 1 on, is the first that can't be.
    Bad { number: u64, fault: MergeFault },
    /// A read failed.
    Unread,
    /// There is no memory.
    Memory,
}

impl From<LineStop> for MergeStop {
    ghost use Rattle.std.specs.Prelude.{◌≡◌};
    ghost use Rattle.pip_certificates.specs.MergeReading.{stop_of_line};

    ghost from_gives = { λ stop e. e ≡ stop_of_line stop };

    fn from(stop: LineStop) -> MergeStop {
        match stop {
            LineStop::Unread => MergeStop::Unread,
            LineStop::Memory => MergeStop::Memory,
        }
    }
}

/// Merges the lines of all parts of a certificate, which are sorted, and writes what they say together
/// (docs/CERTIFICATES.md). No machine is handed back.
pub fn merge<S: Source, K: Sink>(alloc: Global, source: &mut S, sink: &mut K) -> Ended
    requires paced { MayStart merge_due S.is_open S.allows S.history K.history source.old sink.old }
    ensures ends { Fulfils merge_due result S.history K.history source.old sink.old source.new sink.new }
{
    let mut joint = Joint::new(source, sink);
    merge_input(alloc, &mut joint)
}

// Merges what a joint reads.
fn merge_input<S: Source, K: Sink>(alloc: Global, joint: &mut Joint<'_, S, K>) -> Ended
    requires paced { MayStartJoined merge_due S.is_open S.allows S.history K.history joint.old }
    ensures same_source { joint.new.source.ghost_name ≡ joint.old.source.ghost_name }
    ensures same_sink { joint.new.sink.ghost_name ≡ joint.old.sink.ghost_name }
    ensures ends { FulfilsJoined merge_due result S.history K.history joint.old joint.new }
{
    let mut line = Vec::new(alloc);
    let mut merger = Merger::new(alloc);
    match merge_lines(alloc, &mut line, &mut merger, joint) {
        Ok(()) => end_merged(&merger, &mut *joint.sink),
        Err(MergeStop::Bad { number, fault }) => {
            end_broken(number, line.as_slice(), fault, &mut *joint.sink)
        }
        Err(MergeStop::Unread) => Ended::with_status(3),
        Err(MergeStop::Memory) => Ended::with_status(5),
    }
}

// Merges all lines, up to the first that can't be. `line` is the one that was taken last.
fn merge_lines<S: Source, K: Sink>(
    alloc: Global,
    line: &mut Vec<u8>,
    merger: &mut Merger,
    joint: &mut Joint<'_, S, K>,
) -> Result<(), MergeStop>
    requires first { merging_of merger.old ≡ no_merging }
    requires is_open { S.is_open joint.old.source.now }
    requires flushed { (K.history joint.old.sink.now).written.buffered ≡ [] }
    requires paced { MayRead S.allows BeginsMerge (joined S.history K.history joint.old) }
    ensures same_source { joint.new.source.ghost_name ≡ joint.old.source.ghost_name }
    ensures sink { joint.new.sink ≡ joint.old.sink }
    ensures merges { MatchResult result
        (λ _. TakesMerge (S.history joint.old.source.now).left (S.history joint.new.source.now).left
        (merging_of merger.new)
        × ((S.history joint.new.source.now).faults ≡ (S.history joint.old.source.now).faults))
        (StopsMerge (S.history joint.old.source.now).left (S.history joint.new.source.now).left
        (S.history joint.old.source.now).faults (S.history joint.new.source.now).faults line.new.items) }
{
    let mut reader = LineReader::new();
    for before in 0..MOST_LINES + 1 {
        match reader.read_line(joint, line)? {
            LineKind::Whole => take_line(alloc, merger, before + 1, line)?,
            LineKind::Last => return take_line(alloc, merger, before + 1, line),
            LineKind::End => return Ok(()),
        }
    }
    // One line too many is never merged.
    never!()
}

// Takes the line with this number.
fn take_line(alloc: Global, merger: &mut Merger, number: u64, line: &[u8]) -> Result<(), MergeStop>
    ensures { GivesNumbered number result (merging_of merger.new)
        (merge_numbered number (merging_of merger.old) line.now) }
{
    if number > MOST_LINES {
        let fault = MergeFault::Many;
        return Err(MergeStop::Bad { number, fault });
    }
    match merger.take(alloc, line) {
        Ok(()) => Ok(()),
        Err(MergeError::Fault(fault)) => Err(MergeStop::Bad { number, fault }),
        Err(MergeError::Memory) => Err(MergeStop::Memory),
    }
}
