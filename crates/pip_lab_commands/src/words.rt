//! The words of the command line.
ghost use Rattle.std.specs.Prelude.{◌≡◌, ◌≤◌, ◌+◌, ◌*◌, ◌^◌, ◌&&◌, length, map, nat_le, option_map, string_bytes};
ghost use Rattle.std.specs.Prelude.{Some};
ghost use Rattle.pip_lab_commands.specs.Words.{after_command, apart_words, as_round, lab_command_of, first_command};
ghost use Rattle.pip_lab_commands.specs.Words.{fixed_command, four_words, from_first, given_command, later_command};
ghost use Rattle.pip_lab_commands.specs.Words.{part_words, rounds_command, search_words, lab_single_word, slot_in};
ghost use Rattle.pip_lab_commands.specs.Words.{slots_in};
ghost use Rattle.pip_lab_commands.specs.Words.{slots_words, starts_at, lab_three_words, turn_words, lab_two_words};
ghost use Rattle.pip_slots.specs.Images.{round_steps};

use arrayvec::ArrayVec;
use pip_base::MAX_STEPS;
use pip_children::MAX_CHILDREN;
use pip_script::read_number;
use pip_search_commands::Start;
use pip_slots::{RoundSlot, in_turn};

/// What the words ask for (README, "Commands").
#[derive(Drop)]
pub enum LabCommand {
    Slots {
        children: u32,
        rounds: u32,
        round: ArrayVec<RoundSlot, 64>,
    },
    Every {
        states: u32,
        from: u32,
        depth: Option<u32>,
        start: Start,
    },
    Against {
        states: u32,
        from: u32,
        depth: Option<u32>,
        start: Start,
    },
    Apart {
        states: u32,
        count: u32,
        seed: u32,
    },
    Part {
        from: u32,
    },
    Merge,
}

/// The most slots of a round.
const MAX_SLOTS: usize = 64;

/// The most states of `every` and `against`, and of each guest of `apart`.
const MAX_STATES: u32 = 100_000_000;

/// The most turns of these two and of `part` before their first line, and the most choices.
const MAX_CHOICES: u32 = 10_000_000;

/// The command, or `None` where the words are none of the forms.
pub fn read_words(words: &[String]) -> Option<LabCommand>
    ensures { result ≡ lab_command_of (map string_bytes words.now) }
{
    match read_fixed(words) {
        Some(command) => Some(command),
        None => read_longer(words),
    }
}

// The command of a form of more words: a search after steps, or slots.
fn read_longer(words: &[String]) -> Option<LabCommand>
    ensures { result ≡ first_command (later_command (map string_bytes words.now))
        (given_command (map string_bytes words.now)) }
{
    match read_later(words) {
        Some(command) => Some(command),
        None => read_given(words),
    }
}

// The command of a form of one word to four.
fn read_fixed(words: &[String]) -> Option<LabCommand>
    ensures { result ≡ fixed_command (map string_bytes words.now) }
{
    if let [word] = words {
        return read_single(word.as_str().as_bytes());
    }
    if let [word, number] = words {
        return read_two(
            word.as_str().as_bytes(),
            read_number(number.as_str().as_bytes()),
        );
    }
    if let [word, first, second] = words {
        return read_three(
            word.as_str().as_bytes(),
            read_number(first.as_str().as_bytes()),
            read_number(second.as_str().as_bytes()),
        );
    }
    if let [word, first, second, third] = words {
        return read_four(
            word.as_str().as_bytes(),
            read_number(first.as_str().as_bytes()),
            read_number(second.as_str().as_bytes()),
            read_number(third.as_str().as_bytes()),
        );
    }
    None
}

fn read_single(word: &[u8]) -> Option<LabCommand>
    ensures { result ≡ lab_single_word word.now }
{
    if word == b"part".as_slice() {
        return Some(LabCommand::Part { from: 0 });
    }
    if word == b"merge".as_slice() {
        return Some(LabCommand::Merge);
    }
    None
}

fn read_two(word: &[u8], number: Option<u32>) -> Option<LabCommand>
    ensures { result ≡ lab_two_words word.now number }
{
    let count = number?;
    if word == b"part".as_slice() {
        return read_part(count);
    }
    if word == b"every".as_slice() {
        return read_every(count, 0, None);
    }
    if word == b"against".as_slice() {
        return read_against(count, 0, None);
    }
    None
}

// The turns before the first line.
fn read_part(from: u32) -> Option<LabCommand>
    ensures { result ≡ part_words (Some from) }
{
    (from <= MAX_CHOICES).then_some(LabCommand::Part { from })
}

fn read_three(word: &[u8], first: Option<u32>, second: Option<u32>) -> Option<LabCommand>
    ensures { result ≡ lab_three_words word.now first second }
{
    let (Some(states), Some(from)) = (first, second) else {
        return None;
    };
    if word == b"every".as_slice() {
        return read_every(states, from, None);
    }
    if word == b"against".as_slice() {
        return read_against(states, from, None);
    }
    None
}

fn read_four(
    word: &[u8],
    first: Option<u32>,
    second: Option<u32>,
    third: Option<u32>,
) -> Option<LabCommand>
    ensures { result ≡ four_words word.now first second third }
{
    let (Some(first), Some(second), Some(third)) = (first, second, third) else {
        return None;
    };
    if word == b"slots".as_slice() {
        return read_in_turn(first, second, third);
    }
    if word == b"apart".as_slice() {
        return read_apart(first, second, third);
    }
    if third < 1 || third > MAX_CHOICES {
        return None;
    }
    if word == b"every".as_slice() {
        return read_every(first, second, Some(third));
    }
    if word == b"against".as_slice() {
        return read_against(first, second, Some(third));
    }
    None
}

// Children that have a slot in turn, the turns of a slot, and the rounds.
fn read_in_turn(children: u32, turns: u32, rounds: u32) -> Option<LabCommand>
    ensures { result ≡ turn_words (Some children) (Some turns) (Some rounds) }
{
    if children > MAX_CHILDREN || turns > MAX_STEPS {
        return None;
    }
    read_slots(children, rounds, in_turn(children, turns))
}

// Where a search begins that has no `after`.
fn first_start() -> Start
    ensures { result ≡ from_first }
{
    Start { count: 0, seed: 1 }
}

// A search that begins after steps.
fn read_later(words: &[String]) -> Option<LabCommand>
    ensures { result ≡ later_command (map string_bytes words.now) }
{
    if let [word, states, after, count, seed] = words {
        return read_after(
            read_two(
                word.as_str().as_bytes(),
                read_number(states.as_str().as_bytes()),
            ),
            after.as_str().as_bytes(),
            read_number(count.as_str().as_bytes()),
            read_number(seed.as_str().as_bytes()),
        );
    }
    if let [word, states, from, after, count, seed] = words {
        return read_after(
            read_three(
                word.as_str().as_bytes(),
                read_number(states.as_str().as_bytes()),
                read_number(from.as_str().as_bytes()),
            ),
            after.as_str().as_bytes(),
            read_number(count.as_str().as_bytes()),
            read_number(seed.as_str().as_bytes()),
        );
    }
    if let [word, states, from, depth, after, count, seed] = words {
        return read_after(
            read_four(
                word.as_str().as_bytes(),
                read_number(states.as_str().as_bytes()),
                read_number(from.as_str().as_bytes()),
                read_number(depth.as_str().as_bytes()),
            ),
            after.as_str().as_bytes(),
            read_number(count.as_str().as_bytes()),
            read_number(seed.as_str().as_bytes()),
        );
    }
    None
}

// A search, and after it the word `after`, a number of steps and a seed.
fn read_after(
    search: Option<LabCommand>,
    word: &[u8],
    count: Option<u32>,
    seed: Option<u32>,
) -> Option<LabCommand>
    ensures { result ≡ after_command search word.now count seed }
{
    if word != b"after".as_slice() {
        return None;
    }
    let (Some(count), Some(seed)) = (count, seed) else {
        return None;
    };
    if count > MAX_STEPS || seed < 1 {
        return None;
    }
    match search {
        Some(command) => start_at(command, Start { count, seed }),
        None => None,
    }
}

// The same search from there on, if it is one.
fn start_at(command: LabCommand, start: Start) -> Option<LabCommand>
    ensures { result ≡ starts_at command start }
{
    match command {
        LabCommand::Every {
            states,
            from,
            depth,
            ..
        } => Some(LabCommand::Every {
            states,
            from,
            depth,
            start,
        }),
        LabCommand::Against {
            states,
            from,
            depth,
            ..
        } => Some(LabCommand::Against {
            states,
            from,
            depth,
            start,
        }),
        _ => None,
    }
}

// Children with the slots of a round.
fn read_given(words: &[String]) -> Option<LabCommand>
    ensures { result ≡ given_command (map string_bytes words.now) }
{
    match words {
        [word, children, rounds, slots @ ..] => read_rounds(
            word.as_str().as_bytes(),
            read_number(children.as_str().as_bytes()),
            read_number(rounds.as_str().as_bytes()),
            slots,
        ),
        _ => None,
    }
}

// Children, the rounds, and 1 to 64 slots of a round.
fn read_rounds(
    word: &[u8],
    children: Option<u32>,
    rounds: Option<u32>,
    slots: &[String],
) -> Option<LabCommand>
    ensures { result ≡ rounds_command word.now children rounds (map string_bytes slots.now) }
{
    if word != b"slots".as_slice() || slots.is_empty() || slots.len() > MAX_SLOTS {
        return None;
    }
    let (Some(children), Some(rounds)) = (children, rounds) else {
        return None;
    };
    match read_slots_of(children, slots) {
        Some(round) => read_slots(children, rounds, round),
        None => None,
    }
}

// 1 to 8 children, the rounds, and the slots of a round.
fn read_slots(children: u32, rounds: u32, round: ArrayVec<RoundSlot, 64>) -> Option<LabCommand>
    ensures { result ≡ slots_words children rounds round }
{
    if children < 1 || children > MAX_CHILDREN || rounds > MAX_STEPS {
        return None;
    }
    if rounds as u64 * steps_of(round.as_slice()) > MAX_STEPS as u64 {
        return None;
    }
    Some(LabCommand::Slots {
        children,
        rounds,
        round,
    })
}

/// How many steps a round has, of 64 slots at most.
pub(crate) fn steps_of(round: &[RoundSlot]) -> u64
    requires { length round.now ≤ 64 }
    ensures value { result ≡ round_steps round.now }
    ensures most { result ≤ 64 * (2 ^ 32 + 1) }
{
    let mut steps = 0u64;
    for slot in round {
        steps += slot.turns as u64 + 2;
    }
    steps
}

// The slots that these words write, if each writes one.
fn read_slots_of(children: u32, words: &[String]) -> Option<ArrayVec<RoundSlot, 64>>
    requires { length words.now ≤ 64 }
    ensures { result ≡ option_map as_round (slots_in children (map string_bytes words.now)) }
{
    let mut round = ArrayVec::new();
    for word in words {
        round.push(read_slot(children, word.as_str())?);
    }
    Some(round)
}

// A child below that many by its number, a colon, and its turns.
fn read_slot(children: u32, word: &str) -> Option<RoundSlot>
    ensures { result ≡ slot_in children word.now }
{
    let (child, turns) = word.split_once(':')?;
    let child = read_number(child.as_bytes())?;
    let turns = read_number(turns.as_bytes())?;
    (child < children && turns <= MAX_STEPS).then_some(RoundSlot { child, turns })
}

fn read_every(states: u32, from: u32, depth: Option<u32>) -> Option<LabCommand>
    ensures { result ≡ search_words LabCommand.Every (Some states) (Some from) depth }
{
    are_bounds(states, from).then_some(LabCommand::Every {
        states,
        from,
        depth,
        start: first_start(),
    })
}

fn read_against(states: u32, from: u32, depth: Option<u32>) -> Option<LabCommand>
    ensures { result ≡ search_words LabCommand.Against (Some states) (Some from) depth }
{
    are_bounds(states, from).then_some(LabCommand::Against {
        states,
        from,
        depth,
        start: first_start(),
    })
}

// Room for 1 to 100,000,000 states, and the turns before the first line.
fn are_bounds(states: u32, from: u32) -> bool
    ensures { result ≡ ((nat_le 1 states && nat_le states 100000000) && nat_le from 10000000) }
{
    states >= 1 && states <= MAX_STATES && from <= MAX_CHOICES
}

// Room for 1 to 100,000,000 states, the steps, and a seed.
fn read_apart(states: u32, count: u32, seed: u32) -> Option<LabCommand>
    ensures { result ≡ apart_words (Some states) (Some count) (Some seed) }
{
    (states >= 1 && states <= MAX_STATES && (count <= MAX_STEPS && seed >= 1)).then_some(
        LabCommand::Apart {
            states,
            count,
            seed,
        },
    )
}
