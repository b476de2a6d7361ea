//! An image that is read into a new machine.
ghost use Rattle.std.specs.Prelude.{◌≡◌, ◌<◌, ℕ, [], List, Option, IfOk, OnOk, MatchResult};
ghost use Rattle.std.specs.List.{AllByRecursion};
ghost use Rattle.pip_base.specs.declared.types.Plan.{Plan};
ghost use Rattle.pip_image.specs.Coming.{IsAfter, IsHeader, coming, header_parts};
ghost use Rattle.pip_image.specs.Pacing.{IsFaultless};
ghost use Rattle.pip_image.specs.Reading.{TakesParts};
ghost use Rattle.pip_io.specs.Moments.{joined};
ghost use Rattle.pip_io.specs.Pacing.{MayRead};
ghost use Rattle.pip_lines.specs.Due.{AnswersDue};
ghost use Rattle.pip_model.specs.Booted.{HasBooted};
ghost use Rattle.pip_model.specs.Images.{image_parts};
ghost use Rattle.pip_command_contracts.specs.Loading.{LoadsFrames, LoadsImage, StoppedAfter, StoppedLoading};

use pip_base::{Plan, Steps};
use pip_frames::{Frames, RawFrames};
use pip_image::{Header, JointReader, load_from_joint};
use pip_io::{Joint, Sink, Source};
use pip_kern::boot_zeros;
use pip_lines::{Callback, Line};
use pip_model::ImageError;
use pip_switch::Machine;
use std::alloc::{AllocError, Global};
use std::sync::ledger::Ledger;

/// What a run begins with: how many frames and pages the image has, the lines of its plans, and the machine.
#[derive(Drop)]
pub struct Loaded<F: Callback> {
    pub frames: u32,
    pub pages: u32,
    pub lines: Vec<Line<F>>,
    pub machine: Machine<RawFrames>,
}

/// Why loading failed.
#[derive(Clone, Copy, Debug, PartialEq, Eq)]
pub enum LoadError {
    Image(ImageError),
    /// There was no memory for the lines or the frames.
    Memory,
}

impl From<ImageError> for LoadError {
    ghost use Rattle.pip_command_contracts.specs.declared.loading.LoadError.TheVariants.{Image};

    ghost from_gives = { λ fault e. e ≡ Image fault };

    fn from(fault: ImageError) -> LoadError {
        LoadError::Image(fault)
    }
}

impl From<AllocError> for LoadError {
    ghost use Rattle.pip_command_contracts.specs.declared.loading.LoadError.TheVariants.{Memory};

    ghost from_gives = { λ _ e. e ≡ Memory };

    fn from(_: AllocError) -> LoadError {
        LoadError::Memory
    }
}

/// Reads an image to its end. Memory is taken after the header alone. `make` makes the callback of a plan.
pub fn load<S: Source, K: Sink, G: Fn(Plan) -> F, F: Callback + Drop, L: Ledger>(
    alloc: Global,
    joint: &mut Joint<'_, S, K>,
    make: G,
    steps: &mut Steps<L>,
) -> Result<Loaded<F>, LoadError>
    requires makes { G.IsAlwaysCallable make }
    requires answer { (p : Plan) (f : F) → G.post make p f → AnswersDue (F.may_ask f) (F.answers f) p }
    requires is_open { S.is_open joint.old.source.now }
    requires flushed { (K.history joint.old.sink.now).written.buffered ≡ [] }
    requires paced { MayRead S.allows (IsFaultless image_parts) (joined S.history K.history joint.old) }
    ensures same_source { joint.new.source.ghost_name ≡ joint.old.source.ghost_name }
    ensures sink { joint.new.sink ≡ joint.old.sink }
    ensures loads { MatchResult result
        (λ l. LoadsImage (S.history joint.old.source.now).left (S.history joint.new.source.now).left l.frames l.pages
        l.lines.items l.machine)
        (λ stop. StoppedLoading stop (S.history joint.old.source.now).left (S.history joint.new.source.now).left
        (S.history joint.old.source.now).faults (S.history joint.new.source.now).faults) }
    ensures no_faults { OnOk result ((S.history joint.new.source.now).faults ≡
        (S.history joint.old.source.now).faults) }
    ensures below { IfOk result (λ l. AllByRecursion (λ p. p.line < 16) l.lines.items) }
{
    let mut reader = JointReader::new();
    let head = reader.header(joint)?;
    load_after(alloc, &mut reader, joint, &head, make, steps)
}

/// Reads an image to its end by a reader whose `header` answered `head`, and which has read no page.
pub fn load_after<S: Source, K: Sink, G: Fn(Plan) -> F, F: Callback + Drop, L: Ledger>(
    alloc: Global,
    reader: &mut JointReader,
    joint: &mut Joint<'_, S, K>,
    head: &Header,
    make: G,
    steps: &mut Steps<L>,
) -> Result<Loaded<F>, LoadError>
    requires place { IsAfter head.now reader.old.place }
    requires plans { reader.old.place.plans ≡ 0 }
    requires limits { IsHeader head.now }
    requires makes { G.IsAlwaysCallable make }
    requires answer { (p : Plan) (f : F) → G.post make p f → AnswersDue (F.may_ask f) (F.answers f) p }
    requires is_open { S.is_open joint.old.source.now }
    requires flushed { (K.history joint.old.sink.now).written.buffered ≡ [] }
    requires paced { MayRead S.allows (IsFaultless (coming reader.old.place)) (joined S.history K.history joint.old) }
    ensures same_source { joint.new.source.ghost_name ≡ joint.old.source.ghost_name }
    ensures sink { joint.new.sink ≡ joint.old.sink }
    ensures loads { (first : Option (List ℕ)) → TakesParts image_parts (coming reader.old.place) (header_parts head.now)
        first (S.history joint.old.source.now).left → MatchResult result
        (λ l. LoadsImage first (S.history joint.new.source.now).left l.frames l.pages l.lines.items l.machine)
        (λ stop. StoppedAfter head.now stop first (S.history joint.new.source.now).left
        (S.history joint.old.source.now).faults (S.history joint.new.source.now).faults) }
    ensures frames { IfOk result (λ l. l.frames ≡ head.now.frames) }
    ensures no_faults { OnOk result ((S.history joint.new.source.now).faults ≡
        (S.history joint.old.source.now).faults) }
    ensures below { IfOk result (λ l. AllByRecursion (λ p. p.line < 16) l.lines.items) }
{
    let lines = lines_of(alloc, head.plans.as_slice(), make)?;
    let mem = load_frames(alloc, reader, joint, head, steps)?;
    Ok(Loaded {
        frames: head.frames,
        pages: head.pages,
        lines,
        machine: Machine::new(mem, head.cpus),
    })
}

/// The frames alone, by such a reader.
pub fn load_frames<S: Source, K: Sink, L: Ledger>(
    alloc: Global,
    reader: &mut JointReader,
    joint: &mut Joint<'_, S, K>,
    head: &Header,
    steps: &mut Steps<L>,
) -> Result<RawFrames, LoadError>
    requires place { IsAfter head.now reader.old.place }
    requires plans { reader.old.place.plans ≡ 0 }
    requires limits { IsHeader head.now }
    requires is_open { S.is_open joint.old.source.now }
    requires flushed { (K.history joint.old.sink.now).written.buffered ≡ [] }
    requires paced { MayRead S.allows (IsFaultless (coming reader.old.place)) (joined S.history K.history joint.old) }
    ensures same_source { joint.new.source.ghost_name ≡ joint.old.source.ghost_name }
    ensures sink { joint.new.sink ≡ joint.old.sink }
    ensures loads { (first : Option (List ℕ)) → TakesParts image_parts (coming reader.old.place) (header_parts head.now)
        first (S.history joint.old.source.now).left → MatchResult result
        (λ mem. LoadsFrames first (S.history joint.new.source.now).left head.now (⟦<RawFrames as Frames>⟧.memory mem))
        (λ stop. StoppedAfter head.now stop first (S.history joint.new.source.now).left
        (S.history joint.old.source.now).faults (S.history joint.new.source.now).faults) }
    ensures booted { IfOk result (λ mem. HasBooted (⟦<RawFrames as Frames>⟧.memory mem)) }
    ensures no_faults { OnOk result ((S.history joint.new.source.now).faults ≡
        (S.history joint.old.source.now).faults) }
{
    let mut mem = RawFrames::new(alloc, head.frames)?;
    boot_zeros(&mut mem, steps);
    load_from_joint(reader, joint, head, &mut mem)?;
    Ok(mem)
}

/// The lines of plans. The only error is that there is no memory.
pub fn lines_of<G: Fn(Plan) -> F, F: Callback + Drop>(
    alloc: Global,
    plans: &[Plan],
    make: G,
) -> Result<Vec<Line<F>>, AllocError>
    requires makes { G.IsAlwaysCallable make }
    requires answer { (p : Plan) (f : F) → G.post make p f → AnswersDue (F.may_ask f) (F.answers f) p }
    ensures { IfOk result (λ lines. lines.items ≡ plans.now) }
{
    let mut lines = Vec::new(alloc);
    for plan in plans {
        lines.push(Line::new(*plan, make(*plan)))?;
    }
    Ok(lines)
}
