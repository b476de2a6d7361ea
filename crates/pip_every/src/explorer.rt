//! A machine as a system of states.
ghost use Rattle.std.specs.Prelude.{◌≡◌, ℕ, ◌+◌, ◌*◌, ◌<◌, ◌≤◌, ◌++◌, ◌&&◌, [], ◌∷◌, All, length, nat_lt, IfOk};
ghost use Rattle.std.specs.Prelude.{IsTrue, false, slice_index};
ghost use Rattle.pip_base.specs.Memory.{IsMemory};
ghost use Rattle.pip_model.specs.Worlds.{World};
ghost use Rattle.pip_model.specs.declared.turn_end.TurnEnd.{TurnEnd};
ghost use Rattle.pip_search.specs.Systems.{IsKey};
ghost use Rattle.pip_away.specs.Blind.{sight_of};
ghost use Rattle.pip_every.specs.Away as away;
ghost use Rattle.pip_every.specs.Choosing.{ChangesNothing, HasChosen, HasPicked, IsAtWorld};
ghost use Rattle.pip_every.specs.Choosing.{machine_scope};
ghost use Rattle.pip_every.specs.Keys.{AreChanged, IsKeyOf, key_words, processor_words};
ghost use Rattle.pip_every.specs.Menus.{Hostile, Nothing, deed_at, deed_cpu, is_hostile, menu_after, menu_model};
ghost use Rattle.pip_every.specs.Menus.{name_on, picked, usual_choices};
ghost use Rattle.pip_every.specs.Moments as moments;
ghost use Rattle.pip_every.specs.Moments.{Moment};

use crate::deeds::act_from_menu;
use crate::journals::{First, Journal};
use crate::label::Label;
use crate::looking::looks_away;
use crate::menus::{Deed, May, is_hostile, is_its};
use crate::processors::{add_processors, name_at, read_processors};
use crate::seed::seed_of;
use pip_away::Blind;
use pip_base::{Outcome, Steps};
use pip_cpu::{TurnEnd, turn};
use pip_model::Port;
use pip_search::System;
use pip_switch::Machine;
use std::alloc::{AllocError, Global};
use std::sync::ledger::Ledger;

/// A machine that goes from moment to moment of a search. Its lines may be raised once `from` turns were made, and the
/// partitions of a menu do what is on it.
#[derive(Drop)]
pub(crate) struct Explorer<F: First, L: Ledger> {
    machine: Machine<Journal<F>>,
    lines: Vec<u32>,
    from: u32,
    may: Vec<May>,
    label: Label,
    seed: u64,
    steps: Steps<L>,
    ghost shape: { IsMemory F.words },
    ghost below: { All (λ line. line < 16) lines.items },
    ghost few: { length lines.items ≤ 16 },
    ghost short: { length may.items ≤ 1024 },
}

// How many turns were made, up to `from`, after one more that ended like this. A processor that is idle can have its
// turn again and again, so its turn stands for all that are left.
fn turns_after(from: u32, turns: u32, end: TurnEnd) -> u32
    ensures { result ≡ moments.turns_after from turns end }
{
    match end {
        TurnEnd::Polled(Outcome::Idle) => from,
        _ => { if turns < from { turns + 1 } else { turns } }
    }
}

impl<F: First, L: Ledger> Explorer<F, L> {
    ghost use Rattle.pip_every.specs.Explored.{explored};

    /// An explorer of a machine, the lines that may be raised, 16 at most, each below 16, and a menu of 1024 deeds at
    /// most.
    pub(crate) fn new(
        alloc: Global,
        machine: Machine<Journal<F>>,
        lines: Vec<u32>,
        from: u32,
        may: Vec<May>,
        steps: Steps<L>,
    ) -> Explorer<F, L>
        requires shape { IsMemory F.words }
        requires below { All (λ line. line < 16) lines.items }
        requires few { length lines.items ≤ 16 }
        requires short { length may.items ≤ 1024 }
        ensures machine { result.machine ≡ machine }
        ensures lines { result.lines ≡ lines }
        ensures from { result.from ≡ from }
        ensures may { result.may ≡ may }
    {
        let mut steps = steps;
        let seed = seed_of(machine.mem(), &mut steps);
        Explorer {
            machine,
            lines,
            from,
            may,
            label: Label::new(alloc),
            seed,
            steps,
        }
    }

    // Adds the words of the key that come before those of the memory.
    fn add_front(&self, turns: u32, to: &mut Vec<u32>) -> Result<(), AllocError>
        ensures { IfOk result (λ _. to.new.items ≡ to.old.items ++ turns ∷ processor_words self.now.machine.cpus) }
    {
        to.push(turns)?;
        add_processors(self.machine.processors(), to)
    }

    /// Adds the key of the moment that the machine is at, after `turns` turns. The only error is that memory is out.
    pub(crate) fn add_key(&mut self, turns: u32, to: &mut Vec<u32>) -> Result<(), AllocError>
        ensures key { IfOk result (λ _. to.new.items
            ≡ to.old.items ++ key_words F.words turns self.old.machine.cpus self.old.machine.memory) }
        ensures count { IfOk result (λ _. length self.old.machine.memory ≡ length F.words) }
        ensures machine { self.new.machine ≡ self.old.machine }
        ensures lines { self.new.lines ≡ self.old.lines }
        ensures from { self.new.from ≡ self.old.from }
        ensures may { self.new.may ≡ self.old.may }
    {
        self.add_front(turns, to)?;
        self.machine.mem().add_changes(to, &mut self.steps)
    }

    // Adds the key of the moment that the machine is at, after `turns` turns. `words` are the changed words of the
    // moment that it was taken to; they aren't looked for again where nothing was written since.
    fn add_next(&mut self, words: &[u32], turns: u32, to: &mut Vec<u32>) -> Result<(), AllocError>
        requires { AreChanged F.words words.now }
        ensures key { IfOk result (λ _. to.new.items
            ≡ to.old.items ++ key_words F.words turns self.old.machine.cpus self.old.machine.memory) }
        ensures count { IfOk result (λ _. length self.old.machine.memory ≡ length F.words) }
        ensures machine { self.new.machine ≡ self.old.machine }
        ensures lines { self.new.lines ≡ self.old.lines }
        ensures from { self.new.from ≡ self.old.from }
        ensures may { self.new.may ≡ self.old.may }
    {
        if !self.machine.mem().is_at(words) {
            return self.add_key(turns, to);
        }
        self.add_front(turns, to)?;
        to.extend_from_slice(words)
    }

    // Takes the machine to the moment of a key, and answers how many turns were made, and the changed words.
    fn go_to<'k>(&mut self, key: &'k [u32]) -> (u32, &'k [u32])
        requires { IsKey (menu_model F.words (explored self.old)) key.now }
        ensures at { (m : Moment) →
            IsKeyOf F.words (machine_scope self.old.machine self.old.lines.items self.old.from) key.now m →
            IsAtWorld self.new.machine m.world × (result.0 ≡ m.turns) }
        ensures changed { AreChanged F.words result.1.now }
        ensures count { length self.new.machine.cpus ≡ length self.old.machine.cpus }
        ensures lines { self.new.lines ≡ self.old.lines }
        ensures from { self.new.from ≡ self.old.from }
        ensures may { self.new.may ≡ self.old.may }
        ensures label { self.new.label ≡ self.old.label }
    {
        let (cpus, words) = read_processors(&key[1..], self.machine.cpus());
        self.machine.rewind(words, cpus, &mut self.steps);
        (key[0], words)
    }

    /// How many processors there are.
    pub(crate) fn cpus(&self) -> u32
        ensures { result ≡ (explored self.now).scope.cpus }
    {
        self.machine.cpus()
    }

    /// Whether the moment of a key passes the test on a processor.
    pub(crate) fn passes(&mut self, key: &[u32], blind: &Blind, cpu: u32) -> bool
        requires key { IsKey (menu_model F.words (explored self.old)) key.now }
        requires cpu { cpu < (explored self.old).scope.cpus }
        ensures passes { (m : Moment) → IsKeyOf F.words (explored self.old).scope key.now m → result
            ≡ away.looks_away blind.now.own.items (sight_of blind.now) (explored self.old) m.world cpu }
        ensures base { explored self.new ≡ explored self.old }
    {
        let _ = self.go_to(key);
        looks_away(&mut self.machine, blind, &self.may, cpu, &mut self.steps)
    }

    /// How many choices there are without the deeds.
    pub(crate) fn usual_choices(&self) -> u32
        ensures { result ≡ usual_choices (explored self.now) }
    {
        self.machine.cpus() + self.lines.len() as u32
    }

    // The line of the menu of a choice that is a deed.
    fn deed(&self, choice: u32) -> May
        requires least { usual_choices (explored self.now) ≤ choice }
        requires most { choice < usual_choices (explored self.now)
            + length self.now.machine.cpus * length self.now.may.items }
        ensures { deed_at (explored self.now) choice ≡ Some result }
    {
        self.may[((choice - self.usual_choices()) / self.machine.cpus()) as usize]
    }

    // The processor of a choice that is a deed.
    fn deed_cpu(&self, choice: u32) -> u32
        requires least { usual_choices (explored self.now) ≤ choice }
        requires most { choice < usual_choices (explored self.now)
            + length self.now.machine.cpus * length self.now.may.items }
        ensures cpu { result ≡ deed_cpu (explored self.now) choice }
        ensures there { result < length self.now.machine.cpus }
    {
        (choice - self.usual_choices()) % self.machine.cpus()
    }

    // Whether a choice at the moment of a key changes nothing: a line before its time, or a deed of another partition
    // than runs there.
    fn changes_nothing(&self, key: &[u32], choice: u32) -> bool
        requires key { IsKey (menu_model F.words (explored self.now)) key.now }
        requires choice { choice < usual_choices (explored self.now)
            + length self.now.machine.cpus * length self.now.may.items }
        ensures nothing { IsTrue result → (m : Moment)
            → IsKeyOf F.words (machine_scope self.now.machine self.now.lines.items self.now.from) key.now m
            → ChangesNothing (explored self.now) m choice }
        ensures opened { result ≡ false → length self.now.machine.cpus ≤ choice
            → choice < usual_choices (explored self.now) → self.now.from ≤ slice_index key.now 0 }
    {
        if choice >= self.usual_choices() {
            return !self.is_own(key, choice);
        }
        if choice >= self.machine.cpus() {
            return key[0] < self.from;
        }
        false
    }

    // Whether a choice is a deed of the partition that runs there at the moment of a key.
    fn is_own(&self, key: &[u32], choice: u32) -> bool
        requires key { IsKey (menu_model F.words (explored self.now)) key.now }
        requires least { usual_choices (explored self.now) ≤ choice }
        requires most { choice < usual_choices (explored self.now)
            + length self.now.machine.cpus * length self.now.may.items }
        ensures { result ≡ false → (m : Moment)
            → IsKeyOf F.words (machine_scope self.now.machine self.now.lines.items self.now.from) key.now m
            → picked (explored self.now) m.world choice ≡ Nothing }
    {
        let name = name_at(&key[1..], self.machine.cpus(), self.deed_cpu(choice));
        is_its(&name, &self.deed(choice))
    }

    // Makes a choice after `turns` turns, unless it is a line before its time, and answers how many were made then. The
    // only error is that memory is out.
    fn go_on(&mut self, choice: u32, turns: u32) -> Result<u32, AllocError>
        requires choice { choice < usual_choices (explored self.old)
            + length self.old.machine.cpus * length self.old.may.items }
        ensures at { IfOk result (λ n. (m : Moment) → IsAtWorld self.old.machine m.world → turns ≡ m.turns
            → IsAtWorld self.new.machine (menu_after (explored self.old) m choice).world
            × (n ≡ (menu_after (explored self.old) m choice).turns)) }
        ensures count { length self.new.machine.cpus ≡ length self.old.machine.cpus }
        ensures lines { self.new.lines ≡ self.old.lines }
        ensures from { self.new.from ≡ self.old.from }
        ensures may { self.new.may ≡ self.old.may }
    {
        if turns < self.from && choice >= self.machine.cpus() && choice < self.usual_choices() {
            Ok(turns)
        } else {
            self.choose(choice, turns)
        }
    }

    // Makes a choice after `turns` turns, and answers how many were made then. What it shows is in the label. The only
    // error is that memory is out.
    fn choose(&mut self, choice: u32, turns: u32) -> Result<u32, AllocError>
        requires choice { choice < usual_choices (explored self.old)
            + length self.old.machine.cpus * length self.old.may.items }
        requires opened { length self.old.machine.cpus ≤ choice → choice < usual_choices (explored self.old)
            → self.old.from ≤ turns }
        ensures made { IfOk result (λ n. (m : Moment) → IsAtWorld self.old.machine m.world → turns ≡ m.turns
            → HasPicked (explored self.old) m choice (picked (explored self.old) m.world choice) self.new.machine n
            self.new.label.bytes.items) }
        ensures count { length self.new.machine.cpus ≡ length self.old.machine.cpus }
        ensures lines { self.new.lines ≡ self.old.lines }
        ensures from { self.new.from ≡ self.old.from }
        ensures may { self.new.may ≡ self.old.may }
    {
        self.label.clear();
        if choice >= self.usual_choices() {
            return self.choose_deed(choice, turns);
        }
        if self.waits(choice) {
            return self.act(choice, &None, turns);
        }
        self.choose_usual(choice, turns)
    }

    // Whether a choice is the turn of a processor on which a partition runs that has deeds.
    fn waits(&self, choice: u32) -> bool
        ensures waits { (w : World) → IsAtWorld self.now.machine w → result
            ≡ (nat_lt choice (length self.now.machine.cpus)
            && is_hostile w.tree.root.name (name_on w choice) self.now.may.items) }
        ensures there { IsTrue result → choice < length self.now.machine.cpus }
    {
        if choice >= self.machine.cpus() {
            return false;
        }
        is_hostile(&self.machine.runs(choice), &self.may)
    }

    // Makes a choice that is a deed.
    fn choose_deed(&mut self, choice: u32, turns: u32) -> Result<u32, AllocError>
        requires least { usual_choices (explored self.old) ≤ choice }
        requires most { choice < usual_choices (explored self.old)
            + length self.old.machine.cpus * length self.old.may.items }
        requires empty { self.old.label.bytes.items ≡ [] }
        ensures made { IfOk result (λ n. (m : Moment) → IsAtWorld self.old.machine m.world → turns ≡ m.turns
            → HasPicked (explored self.old) m choice (picked (explored self.old) m.world choice) self.new.machine n
            self.new.label.bytes.items) }
        ensures count { length self.new.machine.cpus ≡ length self.old.machine.cpus }
        ensures lines { self.new.lines ≡ self.old.lines }
        ensures from { self.new.from ≡ self.old.from }
        ensures may { self.new.may ≡ self.old.may }
    {
        let cpu = self.deed_cpu(choice);
        let may = self.deed(choice);
        if is_its(&self.machine.runs(cpu), &may) {
            return self.act(cpu, &Some(may.deed), turns);
        }
        Ok(turns)
    }

    // What runs on a processor waits for a line, or does a deed.
    fn act(&mut self, cpu: u32, deed: &Option<Deed>, turns: u32) -> Result<u32, AllocError>
        requires cpu { cpu < length self.old.machine.cpus }
        requires empty { self.old.label.bytes.items ≡ [] }
        ensures made { IfOk result (λ n. (m : Moment) (k : ℕ) → IsAtWorld self.old.machine m.world → turns ≡ m.turns →
            HasPicked (explored self.old) m k (Hostile cpu deed.now) self.new.machine n self.new.label.bytes.items) }
        ensures count { length self.new.machine.cpus ≡ length self.old.machine.cpus }
        ensures lines { self.new.lines ≡ self.old.lines }
        ensures from { self.new.from ≡ self.old.from }
        ensures may { self.new.may ≡ self.old.may }
    {
        match act_from_menu(
            &mut self.machine,
            cpu,
            deed,
            &mut self.label,
            &mut self.steps,
        ) {
            Ok(()) => Ok(turns_after(self.from, turns, TurnEnd::Ran)),
            Err(_) => Err(AllocError),
        }
    }

    // Makes a choice of the search without a menu.
    fn choose_usual(&mut self, choice: u32, turns: u32) -> Result<u32, AllocError>
        requires choice { choice < length self.old.machine.cpus + length self.old.lines.items }
        requires opened { length self.old.machine.cpus ≤ choice → self.old.from ≤ turns }
        requires empty { self.old.label.bytes.items ≡ [] }
        ensures made { IfOk result (λ n. (m : Moment) → IsAtWorld self.old.machine m.world → turns ≡ m.turns
            → HasChosen (machine_scope self.old.machine self.old.lines.items self.old.from)
            m choice self.new.machine n self.new.label.bytes.items) }
        ensures count { length self.new.machine.cpus ≡ length self.old.machine.cpus }
        ensures lines { self.new.lines ≡ self.old.lines }
        ensures from { self.new.from ≡ self.old.from }
        ensures may { self.new.may ≡ self.old.may }
    {
        let cpus = self.machine.cpus();
        if choice >= cpus {
            let line = self.lines[(choice - cpus) as usize];
            self.machine.raise(line, &mut self.steps);
            return Ok(turns);
        }
        let machine = &mut self.machine;
        match turn::<(), Machine<Journal<F>>, Label, L>(
            machine,
            choice,
            0,
            &mut self.label,
            &mut self.steps,
        ) {
            Ok(end) => Ok(turns_after(self.from, turns, end)),
            Err(_) => Err(AllocError),
        }
    }
}

impl<F: First, L: Ledger> System for Explorer<F, L> {
    ghost use Rattle.std.specs.Prelude.{◌≡◌, ◌<◌, IfOk};
    ghost use Rattle.pip_search.specs.Systems.{IsKey};
    ghost use Rattle.pip_every.specs.Explored.{explored};
    ghost use Rattle.pip_every.specs.Menus.{Menu, menu_model};

    ghost Base = { Menu };

    ghost base = { λ s. explored s };

    ghost model = { λ b. menu_model F.words b };

    fn count(&self) -> u32 {
        self.usual_choices() + self.machine.cpus() * self.may.len() as u32
    }

    fn seed(&self) -> u64 {
        self.seed
    }

    fn stays(&self, from: &[u32], choice: u32) -> bool {
        self.changes_nothing(from, choice)
    }

    fn make(
        &mut self,
        from: &[u32],
        choice: u32,
        to: &mut Vec<u32>,
        shown: &mut Vec<u8>,
    ) -> Result<(), AllocError> {
        to.clear();
        shown.clear();
        if self.changes_nothing(from, choice) {
            return to.extend_from_slice(from);
        }
        let (turns, words) = self.go_to(from);
        let turns = self.choose(choice, turns)?;
        shown.extend_from_slice(self.label.bytes())?;
        self.add_next(words, turns, to)
    }

    fn follow(
        &mut self,
        _alloc: Global,
        from: &[u32],
        way: &[u32],
        to: &mut Vec<u32>,
    ) -> Result<(), AllocError> {
        let (first, _) = self.go_to(from);
        let mut turns = first;
        for choice in way {
            turns = self.go_on(*choice, turns)?;
        }
        to.clear();
        self.add_key(turns, to)
    }
}
