//! Parts of certificates for images.
ghost use Rattle.std.specs.Prelude.{◌≡◌, ℕ, List, ◌+◌, ◌^◌, ◌-◌, ◌<◌, ◌≤◌, [], All, IfOk, IsSome, Some, length};
ghost use Rattle.pip_base.specs.Memory.{IsMemory};
ghost use Rattle.pip_base.specs.Opening.{CanOpen};
ghost use Rattle.pip_model.specs.Booted.{HasBooted, IsBooted};
ghost use Rattle.pip_search.specs.Certificates.{HasStop, IsClosedPart, IsReachedPart};
ghost use Rattle.pip_search.specs.Parts.{portion_of, stops};
ghost use Rattle.pip_search.specs.Portions.{IsPortionOf};
ghost use Rattle.pip_search.specs.declared.parts.Part.{Part};
ghost use Rattle.pip_every.specs.Keys.{IsKeyOf, model_of};
ghost use Rattle.pip_every.specs.Moments.{first_moment};

use crate::explorer::Explorer;
use crate::journals::{First, Journal};
use pip_base::Steps;
use pip_frames::{Frames, RawFrames};
use pip_search::{Part, check_part};
use pip_switch::Machine;
use std::alloc::{AllocError, Global};
use std::marker::Brand;
use std::sync::ledger::{Blank, Ledger};

// `part` over a journal that compares with the words of the frames `later`. The type `F` stands for these words, and
// `L` for the ledger that counts the steps.
fn part_from<F: First, L: Ledger>(
    alloc: Global,
    mem: RawFrames,
    later: RawFrames,
    cpus: u32,
    lines: &[u32],
    from: u32,
    way: &[u32],
    marks: &[u8],
    blank: Blank,
) -> Result<Option<Part>, AllocError>
    requires first { ⟦<RawFrames as Frames>⟧.memory later ≡ F.words }
    requires shape { IsMemory F.words }
    requires count { length (⟦<RawFrames as Frames>⟧.memory mem) ≡ length F.words }
    requires ledger { CanOpen blank.name blank.parts L.name L.parts }
    requires booted { HasBooted (⟦<RawFrames as Frames>⟧.memory mem) }
    requires least { 1 ≤ cpus }
    requires most { cpus ≤ 4 }
    requires below { All (λ line. line < 16) lines.now }
    requires few { length lines.now ≤ 16 }
    requires way { length way.now < 2 ^ 32 }
    requires marks { length marks.now < 2 ^ 32 - 1 }
    ensures can { IfOk result (λ r. All (λ k. k < cpus + length lines.now) way.now → IsSome r) }
    ensures exact { IfOk result (λ r. IsSome r → All (λ k. k < cpus + length lines.now) way.now) }
    ensures says { IfOk result (λ r. (p : Part) (n : ℕ) (words : ℕ → ℕ → ℕ) → r ≡ Some p
        → IsBooted n words (⟦<RawFrames as Frames>⟧.memory mem) → (key : List ℕ)
        × (IsKeyOf F.words (record { cpus = cpus; lines = lines.now; from = from }) key (first_moment words n cpus)
        × IsPortionOf (model_of F.words (record { cpus = cpus; lines = lines.now; from = from })) key way.now
        marks.now (portion_of p))) }
    ensures closed { IfOk result (λ r. (p : Part) → r ≡ Some p → IsClosedPart (model_of F.words
        (record { cpus = cpus; lines = lines.now; from = from })) (portion_of p)) }
    ensures reached { IfOk result (λ r. (p : Part) (n : ℕ) (words : ℕ → ℕ → ℕ) → r ≡ Some p
        → IsBooted n words (⟦<RawFrames as Frames>⟧.memory mem) → IsReachedPart (model_of F.words
        (record { cpus = cpus; lines = lines.now; from = from })) (first_moment words n cpus) (portion_of p)) }
    ensures begins { IfOk result (λ r. (p : Part) (n : ℕ) (words : ℕ → ℕ → ℕ) → r ≡ Some p
        → IsBooted n words (⟦<RawFrames as Frames>⟧.memory mem) → way.now ≡ [] → (key : List ℕ)
        × (IsKeyOf F.words (record { cpus = cpus; lines = lines.now; from = from }) key (first_moment words n cpus)
        × HasStop (stops p.keys.items) key 0)) }
{
    let steps: Steps<L> = Steps::new(blank);
    let journal: Journal<F> = Journal::new(alloc, mem, later)?;
    let machine = Machine::new(journal, cpus);
    let mut raised = Vec::new(alloc);
    raised.extend_from_slice(lines)?;
    let mut explorer = Explorer::new(alloc, machine, raised, from, Vec::new(alloc), steps);
    let mut start = Vec::new(alloc);
    explorer.add_key(0, &mut start)?;
    check_part(&mut explorer, alloc, start.as_slice(), way, marks)
}

/// Checks a part of all that can happen to a machine over these frames, as `search` goes through it. Keys compare with
/// the words of the frames `later`, as many as those of the machine. The part begins at the moment to which a way
/// leads, and marks say which moments after it are its own. `None` where the way has a choice that can't be made.
/// The only error is that memory is out.
pub fn part(
    alloc: Global,
    mem: RawFrames,
    later: RawFrames,
    cpus: u32,
    lines: &[u32],
    from: u32,
    way: &[u32],
    marks: &[u8],
) -> Result<Option<Part>, AllocError>
    requires shape { IsMemory (⟦<RawFrames as Frames>⟧.memory later) }
    requires count { length (⟦<RawFrames as Frames>⟧.memory mem) ≡ length (⟦<RawFrames as Frames>⟧.memory later) }
    requires booted { HasBooted (⟦<RawFrames as Frames>⟧.memory mem) }
    requires least { 1 ≤ cpus }
    requires most { cpus ≤ 4 }
    requires below { All (λ line. line < 16) lines.now }
    requires few { length lines.now ≤ 16 }
    requires way { length way.now < 2 ^ 32 }
    requires marks { length marks.now < 2 ^ 32 - 1 }
    ensures can { IfOk result (λ r. All (λ k. k < cpus + length lines.now) way.now → IsSome r) }
    ensures exact { IfOk result (λ r. IsSome r → All (λ k. k < cpus + length lines.now) way.now) }
    ensures says { IfOk result (λ r. (p : Part) (n : ℕ) (words : ℕ → ℕ → ℕ) → r ≡ Some p
        → IsBooted n words (⟦<RawFrames as Frames>⟧.memory mem) → (key : List ℕ)
        × (IsKeyOf (⟦<RawFrames as Frames>⟧.memory later) (record { cpus = cpus; lines = lines.now; from = from }) key
        (first_moment words n cpus)
        × IsPortionOf (model_of (⟦<RawFrames as Frames>⟧.memory later)
        (record { cpus = cpus; lines = lines.now; from = from })) key way.now marks.now (portion_of p))) }
    ensures closed { IfOk result (λ r. (p : Part) → r ≡ Some p
        → IsClosedPart (model_of (⟦<RawFrames as Frames>⟧.memory later)
        (record { cpus = cpus; lines = lines.now; from = from })) (portion_of p)) }
    ensures reached { IfOk result (λ r. (p : Part) (n : ℕ) (words : ℕ → ℕ → ℕ) → r ≡ Some p
        → IsBooted n words (⟦<RawFrames as Frames>⟧.memory mem)
        → IsReachedPart (model_of (⟦<RawFrames as Frames>⟧.memory later)
        (record { cpus = cpus; lines = lines.now; from = from })) (first_moment words n cpus) (portion_of p)) }
    ensures begins { IfOk result (λ r. (p : Part) (n : ℕ) (words : ℕ → ℕ → ℕ) → r ≡ Some p
        → IsBooted n words (⟦<RawFrames as Frames>⟧.memory mem) → way.now ≡ [] → (key : List ℕ)
        × (IsKeyOf (⟦<RawFrames as Frames>⟧.memory later) (record { cpus = cpus; lines = lines.now; from = from }) key
        (first_moment words n cpus)
        × HasStop (stops p.keys.items) key 0)) }
{
    part_from::<Brand, Brand>(
        alloc,
        mem,
        later,
        cpus,
        lines,
        from,
        way,
        marks,
        Blank::new(1),
    )
}
