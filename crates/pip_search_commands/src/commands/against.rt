//! The command `against`: an image is read and a menu after it, and all that can happen is searched, whatever
//! partitions do of the menu.
ghost use Rattle.std.specs.Prelude.{◌≡◌, ◌≢◌, ◌≤◌, ℕ, [], List, Option};
ghost use Rattle.pip_base.specs.Opening.{CanOpen};
ghost use Rattle.pip_image.specs.Coming.{IsHeader};
ghost use Rattle.pip_io.specs.Moments.{joined};
ghost use Rattle.pip_io.specs.Pacing.{MayRead};
ghost use Rattle.pip_model.specs.Booted.{HasBooted};
ghost use Rattle.pip_search_commands.specs.SearchDues.{against_due};
ghost use Rattle.pip_command_contracts.specs.EndsBy.{EndsBy};
ghost use Rattle.pip_command_contracts.specs.Loading.{LoadsFront};
ghost use Rattle.pip_search_commands.specs.MenuReading.{BeginsMenu};
ghost use Rattle.pip_command_contracts.specs.Streams.{beside};
ghost use Rattle.pip_command_contracts.specs.Commands.{Fulfils, FulfilsJoined, MayStart, MayStartJoined};

pub(crate) mod again;
pub(crate) mod away;
pub(crate) mod comes;
pub(crate) mod freedom;
pub(crate) mod menu;
pub(crate) mod menu_line;

use crate::Start;
use crate::commands::every::searching::end_search;
use crate::text::bad_menu_line;
use menu::{MenuStop, read_menu};
use pip_base::Steps;
use pip_command_contracts::begun::{Begun, load_front};
use pip_command_contracts::loading::LoadError;
use pip_command_contracts::{Ended, end_at_image, end_with};
use pip_frames::{Frames, RawFrames};
use pip_io::{Joint, Sink, Source};
use std::alloc::Global;
use std::marker::Brand;
use std::sync::ledger::{Blank, Ledger};

/// Writes what can happen to an image as `every` does, whatever the partitions that have deeds on the menu after it do
/// of it (docs/FORMATS.md, "against").
pub fn against<S: Source, K: Sink>(
    alloc: Global,
    states: u32,
    from: u32,
    depth: Option<u32>,
    start: Start,
    source: &mut S,
    sink: &mut K,
) -> Ended
    requires some { 1 ≤ states }
    requires seed { 1 ≤ start.seed }
    requires paced { MayStart (against_due states from depth start) S.is_open S.allows S.history K.history source.old
        sink.old }
    ensures ends { Fulfils (against_due states from depth start) result S.history K.history source.old
        sink.old source.new
        sink.new }
{
    against_counted::<S, K, Brand>(
        alloc,
        states,
        from,
        depth,
        start,
        source,
        sink,
        Blank::new(1),
    )
}

// With a counter of steps that nobody reads.
fn against_counted<S: Source, K: Sink, L: Ledger>(
    alloc: Global,
    states: u32,
    from: u32,
    depth: Option<u32>,
    start: Start,
    source: &mut S,
    sink: &mut K,
    blank: Blank,
) -> Ended
    requires blank { CanOpen blank.name blank.parts L.name L.parts }
    requires some { 1 ≤ states }
    requires seed { 1 ≤ start.seed }
    requires paced { MayStart (against_due states from depth start) S.is_open S.allows S.history K.history source.old
        sink.old }
    ensures ends { Fulfils (against_due states from depth start) result S.history K.history source.old
        sink.old source.new
        sink.new }
{
    let mut steps: Steps<L> = Steps::new(blank);
    let mut joint = Joint::new(source, sink);
    against_joined(alloc, states, from, depth, start, &mut joint, &mut steps)
}

// Reads the image, then the menu.
fn against_joined<S: Source, K: Sink, L: Ledger>(
    alloc: Global,
    states: u32,
    from: u32,
    depth: Option<u32>,
    start: Start,
    joint: &mut Joint<'_, S, K>,
    steps: &mut Steps<L>,
) -> Ended
    requires some { 1 ≤ states }
    requires seed { 1 ≤ start.seed }
    requires paced { MayStartJoined (against_due states from depth start) S.is_open S.allows S.history
        K.history joint.old }
    ensures same_source { joint.new.source.ghost_name ≡ joint.old.source.ghost_name }
    ensures same_sink { joint.new.sink.ghost_name ≡ joint.old.sink.ghost_name }
    ensures ends { FulfilsJoined (against_due states from depth start) result S.history K.history joint.old joint.new }
{
    match load_front(alloc, joint, steps) {
        Ok(begun) => after_image(alloc, begun, states, from, depth, start, joint),
        Err(LoadError::Image(fault)) => end_at_image(&mut *joint.sink, fault),
        Err(LoadError::Memory) => Ended::with_status(5),
    }
}

// Reads the menu after an image, searches, and writes what was found.
fn after_image<S: Source, K: Sink>(
    alloc: Global,
    begun: Begun,
    states: u32,
    from: u32,
    depth: Option<u32>,
    start: Start,
    joint: &mut Joint<'_, S, K>,
) -> Ended
    requires booted { HasBooted (⟦<RawFrames as Frames>⟧.memory begun.mem) }
    requires limits { IsHeader begun.head }
    requires some { 1 ≤ states }
    requires seed { 1 ≤ start.seed }
    requires is_open { S.is_open joint.old.source.now }
    requires none { (K.history joint.old.sink.now).written.buffered ≡ [] }
    requires paced { MayRead S.allows BeginsMenu (joined S.history K.history joint.old) }
    ensures same_source { joint.new.source.ghost_name ≡ joint.old.source.ghost_name }
    ensures same_sink { joint.new.sink.ghost_name ≡ joint.old.sink.ghost_name }
    ensures ends { (left : Option (List ℕ)) → LoadsFront left (S.history joint.old.source.now).left begun.head
        (⟦<RawFrames as Frames>⟧.memory begun.mem) → EndsBy (against_due states from depth start) result.status
        result.machine (beside left (S.history joint.old.source.now).faults (K.history joint.old.sink.now))
        (joined S.history K.history joint.new) }
    ensures none { result.status ≢ 4 → (K.history joint.new.sink.now).written.buffered ≡ [] }
{
    match read_menu(joint) {
        Ok(menu) => end_search(
            alloc,
            begun,
            &menu,
            states,
            from,
            depth,
            start,
            &mut *joint.sink,
        ),
        Err(MenuStop::Bad(fault)) => {
            end_with(
                &mut *joint.sink,
                bad_menu_line(fault).as_str().as_bytes(),
                2,
            )
        }
        Err(MenuStop::Unread) => Ended::with_status(3),
    }
}
