//! An image that is read into frames, before a machine is made of them.
ghost use Rattle.std.specs.Prelude.{◌≡◌, [], IfErr, IfOk, OnOk, MatchResult};
ghost use Rattle.pip_image.specs.Coming.{IsHeader};
ghost use Rattle.pip_image.specs.Pacing.{IsFaultless};
ghost use Rattle.pip_io.specs.Moments.{joined};
ghost use Rattle.pip_io.specs.Pacing.{MayRead};
ghost use Rattle.pip_model.specs.Booted.{HasBooted};
ghost use Rattle.pip_model.specs.Images.{image_parts};
ghost use Rattle.pip_command_contracts.specs.Loading.{IsStopInside, LoadsFrames, LoadsFront, StoppedLoading};

use crate::loading::{LoadError, load_frames};
use pip_base::Steps;
use pip_frames::{Frames, RawFrames};
use pip_image::{Header, JointReader, load_pages};
use pip_io::{Joint, Sink, Source};
use pip_kern::boot_zeros;
use std::alloc::Global;
use std::sync::ledger::Ledger;

/// What a search begins with: what stands in the image before its pages, and the frames.
#[derive(Drop)]
pub struct Begun {
    pub head: Header,
    pub mem: RawFrames,
}

/// Reads an image to its end. Memory is taken after the header alone.
pub fn load<S: Source, K: Sink, L: Ledger>(
    alloc: Global,
    joint: &mut Joint<'_, S, K>,
    steps: &mut Steps<L>,
) -> Result<Begun, LoadError>
    requires is_open { S.is_open joint.old.source.now }
    requires flushed { (K.history joint.old.sink.now).written.buffered ≡ [] }
    requires paced { MayRead S.allows (IsFaultless image_parts) (joined S.history K.history joint.old) }
    ensures same_source { joint.new.source.ghost_name ≡ joint.old.source.ghost_name }
    ensures sink { joint.new.sink ≡ joint.old.sink }
    ensures loads { MatchResult result
        (λ b. LoadsFrames (S.history joint.old.source.now).left (S.history joint.new.source.now).left b.head
        (⟦<RawFrames as Frames>⟧.memory b.mem))
        (λ stop. StoppedLoading stop (S.history joint.old.source.now).left (S.history joint.new.source.now).left
        (S.history joint.old.source.now).faults (S.history joint.new.source.now).faults) }
    ensures limits { IfOk result (λ b. IsHeader b.head) }
    ensures booted { IfOk result (λ b. HasBooted (⟦<RawFrames as Frames>⟧.memory b.mem)) }
    ensures no_faults { OnOk result ((S.history joint.new.source.now).faults ≡
        (S.history joint.old.source.now).faults) }
{
    let mut reader = JointReader::new();
    let head = reader.header(joint)?;
    let mem = load_frames(alloc, &mut reader, joint, &head, steps)?;
    Ok(Begun { head, mem })
}

/// Reads an image and nothing after it. Memory is taken after the header alone.
pub fn load_front<S: Source, K: Sink, L: Ledger>(
    alloc: Global,
    joint: &mut Joint<'_, S, K>,
    steps: &mut Steps<L>,
) -> Result<Begun, LoadError>
    requires is_open { S.is_open joint.old.source.now }
    requires flushed { (K.history joint.old.sink.now).written.buffered ≡ [] }
    requires paced { MayRead S.allows (IsFaultless image_parts) (joined S.history K.history joint.old) }
    ensures same_source { joint.new.source.ghost_name ≡ joint.old.source.ghost_name }
    ensures sink { joint.new.sink ≡ joint.old.sink }
    ensures loads { MatchResult result
        (λ b. LoadsFront (S.history joint.old.source.now).left (S.history joint.new.source.now).left b.head
        (⟦<RawFrames as Frames>⟧.memory b.mem))
        (λ stop. StoppedLoading stop (S.history joint.old.source.now).left (S.history joint.new.source.now).left
        (S.history joint.old.source.now).faults (S.history joint.new.source.now).faults) }
    ensures inside { IfErr result IsStopInside }
    ensures limits { IfOk result (λ b. IsHeader b.head) }
    ensures booted { IfOk result (λ b. HasBooted (⟦<RawFrames as Frames>⟧.memory b.mem)) }
    ensures is_open { OnOk result (S.is_open joint.new.source.now) }
    ensures no_faults { OnOk result ((S.history joint.new.source.now).faults ≡
        (S.history joint.old.source.now).faults) }
{
    let mut reader = JointReader::new();
    let head = reader.header(joint)?;
    let mut mem = RawFrames::new(alloc, head.frames)?;
    boot_zeros(&mut mem, steps);
    load_pages(&mut reader, joint, &head, &mut mem)?;
    Ok(Begun { head, mem })
}
