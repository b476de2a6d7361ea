//! The search.
ghost use Rattle.std.specs.Prelude.{◌≡◌, ℕ, ◌<◌, ◌≤◌, [], All, IfOk, length, map};
ghost use Rattle.pip_base.specs.Memory.{IsMemory, Memory};
ghost use Rattle.pip_base.specs.Opening.{CanOpen};
ghost use Rattle.pip_model.specs.Booted.{HasBooted, IsBooted};
ghost use Rattle.pip_model.specs.Worlds.{World};
ghost use Rattle.pip_search.specs.Keys.{visits_of};
ghost use Rattle.pip_search.specs.Reached.{Tells};
ghost use Rattle.pip_search.specs.Summary.{IsTold};
ghost use Rattle.pip_search.specs.Ways.{AreTraced, witnesses_of};
ghost use Rattle.pip_switch.specs.Standing.{StandsAs};
ghost use Rattle.pip_away.specs.Blind.{left_out};
ghost use Rattle.pip_every.specs.Again.{AreSaid};
ghost use Rattle.pip_every.specs.Away.{IsAwayReply};
ghost use Rattle.pip_every.specs.Choosing.{machine_menu};
ghost use Rattle.pip_every.specs.Comes.{AreComing, own_classes};
ghost use Rattle.pip_every.specs.Explained.{IsExplained};
ghost use Rattle.pip_every.specs.Keys.{model_of};
ghost use Rattle.pip_every.specs.Menus.{menu_model, usual_choices};
ghost use Rattle.pip_every.specs.Moments.{first_moment, moment_at};

use crate::again::say_all;
use crate::asking::{Asked, Replies};
use crate::away::say_away;
use crate::comes::say_coming;
use crate::explorer::Explorer;
use crate::journals::{First, Journal};
use crate::later::booted_later;
use crate::menus::May;
use pip_base::Steps;
use pip_frames::{Frames, RawFrames};
use pip_search::{Extent, Search, explore};
use pip_switch::Machine;
use std::alloc::{AllocError, Global};
use std::marker::Brand;
use std::sync::ledger::{Blank, Ledger};

/// Searches what can happen to a machine from the worlds on for which it stands, of which there is one, as
/// `search_against` does from the first, and says of the labels of lines, which have no step, whether they can come
/// again, wherever any choices lead, by turns and lines without deeds; and of others whether they come, where choices
/// are fair to each processor and to each line. `lines` come once `from` turns were made after that. It doesn't matter
/// with which frames keys compare. The only error is that memory is out.
pub fn search_on<F: First, L: Ledger>(
    alloc: Global,
    machine: Machine<Journal<F>>,
    lines: &[u32],
    from: u32,
    may: Vec<May>,
    asked: &Asked,
    most: u32,
    limit: u32,
    steps: Steps<L>,
) -> Result<(Search, Extent, Replies), AllocError>
    requires shape { IsMemory F.words }
    requires stands { (w : World) × StandsAs machine w }
    requires below { All (λ line. line < 16) lines.now }
    requires few { length lines.now ≤ 16 }
    requires short { length may.items ≤ 1024 }
    requires limit { 0 < limit }
    ensures told { IfOk result (λ r. (w : World) (first : Memory) → StandsAs machine w → IsMemory first
        → length first ≡ length F.words → IsTold (menu_model first
        (machine_menu machine lines.now from may.items)) (moment_at w) most limit
        (witnesses_of r.1 r.0.visits.items r.0.found.items) (length r.0.visits.items) r.1) }
    ensures said { IfOk result (λ r. (w : World) (first : Memory) → StandsAs machine w → AreSaid (menu_model first
        (machine_menu machine lines.now from may.items)) (usual_choices (machine_menu machine lines.now from may.items))
        (moment_at w) (map (λ l. l.items) asked.now.again.items) r.1 r.2.again.items) }
    ensures coming { IfOk result (λ r. (w : World) (first : Memory) → StandsAs machine w → AreComing (menu_model first
        (machine_menu machine lines.now from may.items))
        (own_classes (usual_choices (machine_menu machine lines.now from may.items)))
        (moment_at w) (map (λ l. l.items) asked.now.comes.items) r.1 r.2.comes.items) }
    ensures away { IfOk result (λ r. (w : World) (first : Memory) → StandsAs machine w → IsMemory first
        → length first ≡ length F.words → IsAwayReply first (left_out asked.now.blind)
        (machine_menu machine lines.now from may.items) (moment_at w) r.1 r.2.away) }
    ensures explains { IfOk result (λ r. (w : World) → StandsAs machine w → Tells (menu_model F.words
        (machine_menu machine lines.now from may.items)) (moment_at w) (visits_of r.0) r.0.found.items r.1) }
    ensures traced { IfOk result (λ r. AreTraced r.0.visits.items r.0.found.items) }
    ensures room { IfOk result (λ r. length r.0.visits.items ≤ limit) }
{
    let mut raised = Vec::new(alloc);
    raised.extend_from_slice(lines)?;
    let mut explorer = Explorer::new(alloc, machine, raised, from, may, steps);
    let mut key = Vec::new(alloc);
    explorer.add_key(0, &mut key)?;
    let start = key.as_slice();
    let (search, extent) = explore(&mut explorer, alloc, start, most, limit)?;
    let width = explorer.usual_choices();
    let again = say_all(
        &search,
        extent,
        &mut explorer,
        alloc,
        start,
        asked.again.as_slice(),
        width,
    )?;
    let comes = say_coming(
        &search,
        extent,
        &mut explorer,
        alloc,
        start,
        asked.comes.as_slice(),
        width,
    )?;
    let away = say_away(&search, extent, &mut explorer, alloc, start, &asked.blind)?;
    Ok((search, extent, Replies { again, comes, away }))
}

// `search_against` over a journal whose first words are those of the frames `later`, as many as the machine's. The
// type `F` stands for these words, and `L` for the ledger that counts the steps.
fn search_from<F: First, L: Ledger>(
    alloc: Global,
    mem: RawFrames,
    later: RawFrames,
    cpus: u32,
    lines: &[u32],
    from: u32,
    may: Vec<May>,
    most: u32,
    limit: u32,
    blank: Blank,
) -> Result<(Search, Extent), AllocError>
    requires first { ⟦<RawFrames as Frames>⟧.memory later ≡ F.words }
    requires shape { IsMemory F.words }
    requires count { length (⟦<RawFrames as Frames>⟧.memory mem) ≡ length F.words }
    requires ledger { CanOpen blank.name blank.parts L.name L.parts }
    requires booted { HasBooted (⟦<RawFrames as Frames>⟧.memory mem) }
    requires least { 1 ≤ cpus }
    requires most { cpus ≤ 4 }
    requires below { All (λ line. line < 16) lines.now }
    requires few { length lines.now ≤ 16 }
    requires short { length may.items ≤ 1024 }
    requires limit { 0 < limit }
    ensures told { IfOk result (λ r. (n : ℕ) (words : ℕ → ℕ → ℕ) → IsBooted n words (⟦<RawFrames as Frames>⟧.memory mem)
        → IsTold (menu_model (⟦<RawFrames as Frames>⟧.memory mem)
        (record { scope = record { cpus = cpus; lines = lines.now; from = from }; may = may.items }))
        (first_moment words n cpus) most limit
        (witnesses_of r.1 r.0.visits.items r.0.found.items) (length r.0.visits.items) r.1) }
    ensures explains { IfOk result (λ r. (n : ℕ) (words : ℕ → ℕ → ℕ)
        → IsBooted n words (⟦<RawFrames as Frames>⟧.memory mem) → IsExplained
        (record { scope = record { cpus = cpus; lines = lines.now; from = from }; may = may.items })
        (length (⟦<RawFrames as Frames>⟧.memory mem)) (first_moment words n cpus) r.0 r.1) }
    ensures traced { IfOk result (λ r. AreTraced r.0.visits.items r.0.found.items) }
    ensures room { IfOk result (λ r. length r.0.visits.items ≤ limit) }
{
    let steps: Steps<L> = Steps::new(blank);
    let journal: Journal<F> = Journal::new(alloc, mem, later)?;
    let machine = Machine::new(journal, cpus);
    let (search, extent, _replies) = search_on(
        alloc,
        machine,
        lines,
        from,
        may,
        &Asked::new(),
        most,
        limit,
        steps,
    )?;
    Ok((search, extent))
}

/// Searches what can happen to a machine over these frames as `search` does, whatever the partitions that have deeds on
/// a menu do of it: in the place of the turns of their programs they wait for a line, or do one of these deeds. A menu
/// has 1024 deeds at most. A choice after those of `search` is a deed: each on all processors, before the next. The
/// only error is that memory is out.
pub fn search_against(
    alloc: Global,
    mem: RawFrames,
    cpus: u32,
    lines: &[u32],
    from: u32,
    may: Vec<May>,
    most: u32,
    limit: u32,
) -> Result<(Search, Extent), AllocError>
    requires booted { HasBooted (⟦<RawFrames as Frames>⟧.memory mem) }
    requires least { 1 ≤ cpus }
    requires most { cpus ≤ 4 }
    requires below { All (λ line. line < 16) lines.now }
    requires few { length lines.now ≤ 16 }
    requires short { length may.items ≤ 1024 }
    requires limit { 0 < limit }
    ensures told { IfOk result (λ r. (n : ℕ) (words : ℕ → ℕ → ℕ) → IsBooted n words (⟦<RawFrames as Frames>⟧.memory mem)
        → IsTold (menu_model (⟦<RawFrames as Frames>⟧.memory mem)
        (record { scope = record { cpus = cpus; lines = lines.now; from = from }; may = may.items }))
        (first_moment words n cpus) most limit
        (witnesses_of r.1 r.0.visits.items r.0.found.items) (length r.0.visits.items) r.1) }
    ensures explains { IfOk result (λ r. (n : ℕ) (words : ℕ → ℕ → ℕ)
        → IsBooted n words (⟦<RawFrames as Frames>⟧.memory mem) → IsExplained
        (record { scope = record { cpus = cpus; lines = lines.now; from = from }; may = may.items })
        (length (⟦<RawFrames as Frames>⟧.memory mem)) (first_moment words n cpus) r.0 r.1) }
    ensures traced { IfOk result (λ r. AreTraced r.0.visits.items r.0.found.items) }
    ensures room { IfOk result (λ r. length r.0.visits.items ≤ limit) }
{
    let later = booted_later::<Brand>(alloc, &mem, cpus, Blank::new(1))?;
    search_from::<Brand, Brand>(
        alloc,
        mem,
        later,
        cpus,
        lines,
        from,
        may,
        most,
        limit,
        Blank::new(1),
    )
}

/// Searches what can happen to a machine over these frames, which have booted, with 1 to 4 processors. At each moment
/// each processor may have its turn, and once `from` turns were made each of the lines may be raised, of which there
/// are 16 at most, each below 16. The search ends if nothing new is found, after all moments that `most` choices lead
/// to, or if there are more moments than `limit`, which isn't 0. The only error is that memory is out.
pub fn search(
    alloc: Global,
    mem: RawFrames,
    cpus: u32,
    lines: &[u32],
    from: u32,
    most: u32,
    limit: u32,
) -> Result<(Search, Extent), AllocError>
    requires booted { HasBooted (⟦<RawFrames as Frames>⟧.memory mem) }
    requires least { 1 ≤ cpus }
    requires most { cpus ≤ 4 }
    requires below { All (λ line. line < 16) lines.now }
    requires few { length lines.now ≤ 16 }
    requires limit { 0 < limit }
    ensures told { IfOk result (λ r. (n : ℕ) (words : ℕ → ℕ → ℕ) → IsBooted n words (⟦<RawFrames as Frames>⟧.memory mem)
        → IsTold (model_of (⟦<RawFrames as Frames>⟧.memory mem)
        (record { cpus = cpus; lines = lines.now; from = from })) (first_moment words n cpus) most limit
        (witnesses_of r.1 r.0.visits.items r.0.found.items) (length r.0.visits.items) r.1) }
    ensures explains { IfOk result (λ r. (n : ℕ) (words : ℕ → ℕ → ℕ)
        → IsBooted n words (⟦<RawFrames as Frames>⟧.memory mem) → IsExplained
        (record { scope = record { cpus = cpus; lines = lines.now; from = from }; may = [] })
        (length (⟦<RawFrames as Frames>⟧.memory mem)) (first_moment words n cpus) r.0 r.1) }
    ensures traced { IfOk result (λ r. AreTraced r.0.visits.items r.0.found.items) }
    ensures room { IfOk result (λ r. length r.0.visits.items ≤ limit) }
{
    let may = Vec::new(alloc);
    search_against(alloc, mem, cpus, lines, from, may, most, limit)
}
