//! The command `part`: an image is read and a part of a certificate after it, and the part is checked.
ghost use Rattle.std.specs.Prelude.{◌≡◌, ◌≢◌, ◌+◌, ◌*◌, ◌<◌, ◌≤◌, ◌-◌, ◌^◌, ℕ, [], All, List, None, Ok, Option, length};
ghost use Rattle.pip_base.specs.Opening.{CanOpen};
ghost use Rattle.pip_command_contracts.specs.EndsBy.{EndsBy, EndsWithResponse};
ghost use Rattle.pip_command_contracts.specs.Loading.{BeginsFrames, LoadsFront};
ghost use Rattle.pip_command_contracts.specs.Streams.{EndsLine, beside};
ghost use Rattle.pip_command_contracts.specs.Commands.{Fulfils, FulfilsJoined, MayStart, MayStartJoined};
ghost use Rattle.pip_image.specs.Coming.{IsHeader};
ghost use Rattle.pip_io.specs.Moments.{joined};
ghost use Rattle.pip_io.specs.Pacing.{MayRead};
ghost use Rattle.pip_model.specs.Booted.{HasBooted};
ghost use Rattle.pip_model.specs.Images.{Image};
ghost use Rattle.pip_certificates.specs.BaseWords.{AreBaseWords};
ghost use Rattle.pip_certificates.specs.PartDues.{IsPartAnswer, part_due};
ghost use Rattle.pip_certificates.specs.PartExact.{runs_in};
ghost use Rattle.pip_certificates.specs.PartReading.{HasNoFault, part_seen};
ghost use Rattle.pip_certificates.specs.PartShown.{CountsStops, EndsWithPart, header_limits, header_said};
ghost use Rattle.pip_certificates.specs.PartShown.{header_size};
ghost use Rattle.pip_certificates.specs.PartShown.{told_part, told_response};
ghost use Rattle.pip_certificates.specs.PartText.{bad_part_line};

use crate::checking::{Checked, booted_word, check, runs_in};
use crate::faults::{PartFault, PartKind, PartStop, bad_part};
use crate::reading::{Limits, ReadPart, read_part};
use crate::writing::show;
use pip_base::Steps;
use pip_command_contracts::begun::{Begun, load_front};
use pip_command_contracts::loading::LoadError;
use pip_command_contracts::{Ended, end_at_image, end_with};
use pip_frames::{Frames, RawFrames};
use pip_image::Header;
use pip_io::{Joint, Sink, Source};
use std::alloc::Global;
use std::marker::Brand;
use std::sync::ledger::{Blank, Ledger};

/// Checks the part that comes after an image, and writes its lines in the order in which it found them: its keys, those
/// that it asks, its labels, and the part itself (docs/CERTIFICATES.md). No line comes before `from` turns were made.
pub fn part<S: Source, K: Sink>(alloc: Global, from: u32, source: &mut S, sink: &mut K) -> Ended
    requires paced { MayStart (part_due from) S.is_open S.allows S.history K.history source.old sink.old }
    ensures ends { Fulfils (part_due from) result S.history K.history source.old sink.old source.new sink.new }
{
    part_counted::<S, K, Brand>(alloc, from, source, sink, Blank::new(1))
}

// With a counter of steps that nobody reads.
fn part_counted<S: Source, K: Sink, L: Ledger>(
    alloc: Global,
    from: u32,
    source: &mut S,
    sink: &mut K,
    blank: Blank,
) -> Ended
    requires blank { CanOpen blank.name blank.parts L.name L.parts }
    requires paced { MayStart (part_due from) S.is_open S.allows S.history K.history source.old sink.old }
    ensures ends { Fulfils (part_due from) result S.history K.history source.old sink.old source.new sink.new }
{
    let mut steps: Steps<L> = Steps::new(blank);
    let mut joint = Joint::new(source, sink);
    part_joined(alloc, from, &mut joint, &mut steps)
}

// Reads the image, then the part.
fn part_joined<S: Source, K: Sink, L: Ledger>(
    alloc: Global,
    from: u32,
    joint: &mut Joint<'_, S, K>,
    steps: &mut Steps<L>,
) -> Ended
    requires paced { MayStartJoined (part_due from) S.is_open S.allows S.history K.history joint.old }
    ensures same_source { joint.new.source.ghost_name ≡ joint.old.source.ghost_name }
    ensures same_sink { joint.new.sink.ghost_name ≡ joint.old.sink.ghost_name }
    ensures ends { FulfilsJoined (part_due from) result S.history K.history joint.old joint.new }
{
    match load_front(alloc, joint, steps) {
        Ok(begun) => after_image(alloc, begun, from, joint, steps),
        Err(LoadError::Image(fault)) => end_at_image(&mut *joint.sink, fault),
        Err(LoadError::Memory) => Ended::with_status(5),
    }
}

// How many choices can be made, and how many frames there are.
fn limits_of(head: &Header) -> Limits
    requires { IsHeader head.now }
    ensures { result ≡ header_limits head.now }
{
    Limits {
        frames: head.frames,
        choices: head.cpus + head.plans.len() as u32,
    }
}

// How many bytes an image has.
fn size_of(head: &Header) -> u64
    requires { IsHeader head.now }
    ensures size { result ≡ header_size head.now }
    ensures small { result ≤ 2 ^ 32 }
{
    24 + 12 * head.plans.len() as u64 + 4100 * u64::from(head.pages)
}

// Reads the part after an image, checks it, and writes what it says.
fn after_image<S: Source, K: Sink, L: Ledger>(
    alloc: Global,
    begun: Begun,
    from: u32,
    joint: &mut Joint<'_, S, K>,
    steps: &mut Steps<L>,
) -> Ended
    requires booted { HasBooted (⟦<RawFrames as Frames>⟧.memory begun.mem) }
    requires limits { IsHeader begun.head }
    requires count { length (⟦<RawFrames as Frames>⟧.memory begun.mem) ≡ begun.head.frames }
    requires is_open { S.is_open joint.old.source.now }
    requires none { (K.history joint.old.sink.now).written.buffered ≡ [] }
    requires paced { MayRead S.allows (HasNoFault (header_said begun.head)) (joined S.history K.history joint.old) }
    ensures same_source { joint.new.source.ghost_name ≡ joint.old.source.ghost_name }
    ensures same_sink { joint.new.sink.ghost_name ≡ joint.old.sink.ghost_name }
    ensures ends { (left : Option (List ℕ)) → LoadsFront left (S.history joint.old.source.now).left begun.head
        (⟦<RawFrames as Frames>⟧.memory begun.mem) → EndsBy (part_due from) result.status result.machine
        (beside left (S.history joint.old.source.now).faults (K.history joint.old.sink.now))
        (joined S.history K.history joint.new) }
    ensures none { result.status ≢ 4 → (K.history joint.new.sink.now).written.buffered ≡ [] }
{
    let limits = limits_of(&begun.head);
    let size = size_of(&begun.head);
    match read_part(alloc, joint, limits, size) {
        Ok(read) => end_checked(alloc, begun, read, from, &mut *joint.sink, steps),
        Err(PartStop::Bad(fault)) => {
            end_with(&mut *joint.sink, bad_part(fault).as_str().as_bytes(), 2)
        }
        Err(PartStop::Unread) => Ended::with_status(3),
        Err(PartStop::Memory) => Ended::with_status(5),
    }
}

// Checks a part that was read, and writes what it says.
fn end_checked<K: Sink, L: Ledger>(
    alloc: Global,
    begun: Begun,
    read: ReadPart,
    from: u32,
    sink: &mut K,
    steps: &mut Steps<L>,
) -> Ended
    requires booted { HasBooted (⟦<RawFrames as Frames>⟧.memory begun.mem) }
    requires limits { IsHeader begun.head }
    requires base { AreBaseWords (length (⟦<RawFrames as Frames>⟧.memory begun.mem)) read.base.items }
    requires way { length read.way.items ≤ 10000000 }
    requires can { All (λ k. k < begun.head.cpus + length begun.head.plans.items) read.way.items }
    requires marks { length read.marks.items < 2 ^ 32 - 1 }
    requires few { length read.base.items < 2 ^ 32 }
    requires none { (K.history sink.old).written.buffered ≡ [] }
    ensures ends { (i : Image) → BeginsFrames i begun.head (⟦<RawFrames as Frames>⟧.memory begun.mem) → EndsWithPart
        (IsPartAnswer from i (Ok (part_seen read))) result.status (K.history sink.old) (K.history sink.new) }
    ensures no_faults { result.status ≢ 4 → (K.history sink.new).faults ≡ (K.history sink.old).faults }
    ensures none { result.machine ≡ None }
    ensures flushed { result.status ≢ 4 → (K.history sink.new).written.buffered ≡ [] }
{
    let Begun { head, mem } = begun;
    if let Some(place) = booted_word(&mem, read.base.as_slice(), steps) {
        let at = size_of(&head) + 4 + 12 * place as u64;
        return end_bad(
            PartFault {
                kind: PartKind::Base,
                at,
            },
            sink,
        );
    }
    match check(alloc, &head, mem, &read, from, steps) {
        Ok(checked) => end_told(&head, &read, &checked, sink),
        Err(_) => Ended::with_status(5),
    }
}

// Ends with the line that names a fault.
fn end_bad<K: Sink>(fault: PartFault, sink: &mut K) -> Ended
    ensures wrote { EndsLine 2 (bad_part_line fault) result.status (K.history sink.old) (K.history sink.new) }
    ensures no_faults { result.status ≢ 4 → (K.history sink.new).faults ≡ (K.history sink.old).faults }
    ensures none { result.machine ≡ None }
    ensures flushed { result.status ≢ 4 → (K.history sink.new).written.buffered ≡ [] }
{
    end_with(sink, bad_part(fault).as_str().as_bytes(), 2)
}

// Writes what a part says that was checked, if it has a mark for each of its choices.
fn end_told<K: Sink>(head: &Header, read: &ReadPart, checked: &Checked, sink: &mut K) -> Ended
    requires limits { IsHeader head.now }
    requires counts { CountsStops checked.now }
    requires way { length read.now.way.items ≤ 10000000 }
    requires few { length read.now.base.items < 2 ^ 32 }
    requires none { (K.history sink.old).written.buffered ≡ [] }
    ensures wrote { EndsWithResponse (told_response head.now (part_seen read.now) (told_part checked.now)) result.status
        (K.history sink.old) (K.history sink.new) }
    ensures no_faults { result.status ≢ 4 → (K.history sink.new).faults ≡ (K.history sink.old).faults }
    ensures none { result.machine ≡ None }
    ensures flushed { result.status ≢ 4 → (K.history sink.new).written.buffered ≡ [] }
{
    let choices = u64::from(limits_of(head).choices);
    if read.marks.len() as u64 != u64::from(checked.numbers.keys) * choices {
        return end_bad(
            PartFault {
                kind: PartKind::Marks,
                at: marks_at(head, read),
            },
            sink,
        );
    }
    match show(checked, sink) {
        Ok(()) => Ended::with_status(0),
        Err(_) => Ended::with_status(4),
    }
}

// The offset of the number of marks.
fn marks_at(head: &Header, read: &ReadPart) -> u64
    requires limits { IsHeader head.now }
    requires way { length read.now.way.items ≤ 10000000 }
    requires few { length read.now.base.items < 2 ^ 32 }
    ensures { result ≡ header_size head.now + 8 + 12 * length read.now.base.items + 8 * runs_in read.now.way.items }
{
    let runs = runs_in(read.way.as_slice()) as u64;
    size_of(head) + 8 + 12 * read.base.len() as u64 + 8 * runs
}
