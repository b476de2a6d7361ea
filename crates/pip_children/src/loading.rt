//! An image with room for the children is read into a new machine.
ghost use Rattle.std.specs.Prelude.{◌≡◌, ◌<◌, ◌≤◌, [], IfOk, OnOk, MatchResult};
ghost use Rattle.std.specs.List.{AllByRecursion};
ghost use Rattle.pip_base.specs.declared.types.Plan.{Plan};
ghost use Rattle.pip_io.specs.Moments.{joined};
ghost use Rattle.pip_io.specs.Pacing.{MayRead};
ghost use Rattle.pip_lines.specs.Due.{AnswersDue};
ghost use Rattle.pip_children.specs.Loading.{LoadsNative, StoppedNative};
ghost use Rattle.pip_children.specs.Pacing.{IsFaultlessUnshort};

use pip_base::{Plan, Steps};
use pip_command_contracts::loading::{self, Loaded, load_after};
use pip_image::JointReader;
use pip_io::{Joint, Sink, Source};
use pip_lines::Callback;
use pip_model::ImageError;
use std::alloc::Global;
use std::sync::ledger::Ledger;

/// Why loading failed.
#[derive(Clone, Copy, Debug, PartialEq, Eq)]
pub enum ChildrenLoadError {
    Image(ImageError),
    /// There was no memory for the lines or the frames.
    Memory,
    /// The header was read, and has too few frames for the children.
    Short { frames: u32 },
}

/// Reads an image to its end. Where its header has too few frames for `n` children no page is read, and no memory is
/// taken.
pub fn load<S: Source, K: Sink, G: Fn(Plan) -> F, F: Callback + Drop, L: Ledger>(
    alloc: Global,
    n: u32,
    joint: &mut Joint<'_, S, K>,
    make: G,
    steps: &mut Steps<L>,
) -> Result<Loaded<F>, ChildrenLoadError>
    requires makes { G.IsAlwaysCallable make }
    requires answer { (p : Plan) (f : F) → G.post make p f → AnswersDue (F.may_ask f) (F.answers f) p }
    requires most { n ≤ 8 }
    requires is_open { S.is_open joint.old.source.now }
    requires flushed { (K.history joint.old.sink.now).written.buffered ≡ [] }
    requires paced { MayRead S.allows (IsFaultlessUnshort n) (joined S.history K.history joint.old) }
    ensures same_source { joint.new.source.ghost_name ≡ joint.old.source.ghost_name }
    ensures sink { joint.new.sink ≡ joint.old.sink }
    ensures loads { MatchResult result
        (λ l. LoadsNative n (S.history joint.old.source.now).left (S.history joint.new.source.now).left l.frames l.pages
        l.lines.items l.machine)
        (λ stop. StoppedNative n stop (S.history joint.old.source.now).left (S.history joint.new.source.now).left
        (S.history joint.old.source.now).faults (S.history joint.new.source.now).faults) }
    ensures no_faults { OnOk result ((S.history joint.new.source.now).faults ≡
        (S.history joint.old.source.now).faults) }
    ensures below { IfOk result (λ l. AllByRecursion (λ p. p.line < 16) l.lines.items) }
{
    let mut reader = JointReader::new();
    let head = match reader.header(joint) {
        Ok(head) => head,
        Err(fault) => return Err(ChildrenLoadError::Image(fault)),
    };
    if head.frames < 13 * n + 13 {
        return Err(ChildrenLoadError::Short {
            frames: head.frames,
        });
    }
    match load_after(alloc, &mut reader, joint, &head, make, steps) {
        Ok(loaded) => Ok(loaded),
        Err(loading::LoadError::Image(fault)) => Err(ChildrenLoadError::Image(fault)),
        Err(loading::LoadError::Memory) => Err(ChildrenLoadError::Memory),
    }
}
