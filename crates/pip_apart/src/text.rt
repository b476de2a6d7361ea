//! The text of what is known of guests.
ghost use Rattle.std.specs.Prelude.{◌≡◌, ◌+◌, ◌-◌, ◌<◌, ◌≤◌, ◌++◌, length, flat_map, codes, decimal};
ghost use Rattle.std.specs.List.{AllByRecursion};
ghost use Rattle.arrayvec.specs.ArrayString.{array_string_len};
ghost use Rattle.pip_io.specs.Writes.{Writes};
ghost use Rattle.pip_apart.specs.Searches.{CanBeShown, alone_of, known_of};
ghost use Rattle.pip_apart.specs.Texts as texts;
ghost use Rattle.pip_apart.specs.Texts.{apart_line, guest_line, guest_text, known_text, leaving_text, root_line};
ghost use Rattle.pip_apart.specs.Texts.{shown_text, spaced, taken_line, turn_line, turns_text};

use crate::searching::{GuestSearch, Knowledge, hold_apart, is_marked};
use arrayvec::ArrayString;
use pip_base::Frame;
use pip_cpu::write_line;
use pip_every::{write_shown, write_times, write_verdict};
use pip_io::{Failed, Sink, write_all};
use pip_script::push_decimal;
use pip_search::Run;

/// Writes what each guest does alone, each line with its way, then what the root might do, and whether the guests hold
/// in company (docs/FORMATS.md, "apart").
pub fn write_known<K: Sink>(sink: &mut K, known: &Knowledge) -> Result<(), Failed>
    requires { AllByRecursion CanBeShown known.now.guests.items }
    ensures { Writes K.history sink.old sink.new result (known_text (known_of known.now)) }
{
    write_guests(sink, known.guests.as_slice())?;
    write_end(sink, known.root, known.line, hold_apart(known))
}

// Writes guest by guest.
fn write_guests<K: Sink>(sink: &mut K, guests: &[GuestSearch]) -> Result<(), Failed>
    requires { AllByRecursion CanBeShown guests.now }
    ensures { Writes K.history sink.old sink.new result (flat_map (λ g. guest_text (alone_of g)) guests.now) }
{
    for k in 0..guests.len() {
        write_guest(sink, &guests[k])?;
    }
    Ok(())
}

// Writes all that was found of a guest.
fn write_guest<K: Sink>(sink: &mut K, guest: &GuestSearch) -> Result<(), Failed>
    requires { CanBeShown guest.now }
    ensures { Writes K.history sink.old sink.new result (guest_text (alone_of guest.now)) }
{
    write_head(sink, guest.top, guest.cpus.as_slice())?;
    write_lines(sink, guest)?;
    write_verdict(sink, guest.search.visits.len() as u64, guest.end)
}

// ---- the first line

fn write_head<K: Sink>(sink: &mut K, top: Frame, cpus: &[u32]) -> Result<(), Failed>
    ensures { Writes K.history sink.old sink.new result (guest_line top cpus.now) }
{
    write_top(sink, top)?;
    write_processors(sink, cpus)?;
    write_all(sink, b"\n")
}

fn write_top<K: Sink>(sink: &mut K, top: Frame) -> Result<(), Failed>
    ensures { Writes K.history sink.old sink.new result (codes "guest " ++ decimal top ++ codes " on") }
{
    let mut text: ArrayString<32> = ArrayString::new();
    text.push_str("guest ");
    push_decimal(&mut text, top.number());
    text.push_str(" on");
    write_line(sink, &text)
}

fn write_processors<K: Sink>(sink: &mut K, cpus: &[u32]) -> Result<(), Failed>
    ensures { Writes K.history sink.old sink.new result (flat_map spaced cpus.now) }
{
    for k in 0..cpus.len() {
        write_processor(sink, cpus[k])?;
    }
    Ok(())
}

fn write_processor<K: Sink>(sink: &mut K, cpu: u32) -> Result<(), Failed>
    ensures { Writes K.history sink.old sink.new result (spaced cpu) }
{
    let mut text: ArrayString<16> = ArrayString::new();
    text.push_str(" ");
    push_decimal(&mut text, cpu);
    write_line(sink, &text)
}

// ---- the lines of labels

// Writes the lines of the labels that were covered.
fn write_lines<K: Sink>(sink: &mut K, guest: &GuestSearch) -> Result<(), Failed>
    requires { CanBeShown guest.now }
    ensures { Writes K.history sink.old sink.new result
        (flat_map (turn_line guest.now.cpus.items) (alone_of guest.now).lines) }
{
    for k in 0..guest.search.found.len() {
        let found = &guest.search.found[k];
        if !guest.end.covers(found.depth) {
            continue;
        }
        write_turn(sink, &guest.cpus, &found.label, found.depth, &guest.ways[k])?;
    }
    Ok(())
}

// Writes the line of a label that was found by that many turns, and whose way has these runs.
fn write_turn<K: Sink>(
    sink: &mut K,
    cpus: &[u32],
    label: &[u8],
    depth: u32,
    way: &[Run],
) -> Result<(), Failed>
    requires some { 0 < depth }
    requires known { AllByRecursion (λ r. r.choice < length cpus.now) way.now }
    ensures { Writes K.history sink.old sink.new result
        (leaving_text label.now ++ shown_text (depth - 1) (texts.unmarked label.now)
        (flat_map (turns_text cpus.now) way.now)) }
{
    write_leaving(sink, label)?;
    write_plain(sink, cpus, unmarked(label), depth - 1, way)
}

// Writes that the guest leaves, where the label says so.
fn write_leaving<K: Sink>(sink: &mut K, label: &[u8]) -> Result<(), Failed>
    ensures { Writes K.history sink.old sink.new result (leaving_text label.now) }
{
    let text: &[u8] = if is_marked(label) { b"leaves " } else { b"" };
    write_all(sink, text)
}

// A label without the mark.
fn unmarked(label: &[u8]) -> &[u8]
    ensures { result.now ≡ texts.unmarked label.now }
{
    if is_marked(label) { &label[1..] } else { label }
}

// Writes what is shown at a step, and the way.
fn write_plain<K: Sink>(
    sink: &mut K,
    cpus: &[u32],
    label: &[u8],
    step: u32,
    way: &[Run],
) -> Result<(), Failed>
    requires { AllByRecursion (λ r. r.choice < length cpus.now) way.now }
    ensures { Writes K.history sink.old sink.new result
        (shown_text step label.now (flat_map (turns_text cpus.now) way.now)) }
{
    write_shown(sink, label, step)?;
    write_way(sink, cpus, way)?;
    write_all(sink, b"\n")
}

// Writes the runs of a way, each after a space.
fn write_way<K: Sink>(sink: &mut K, cpus: &[u32], way: &[Run]) -> Result<(), Failed>
    requires { AllByRecursion (λ r. r.choice < length cpus.now) way.now }
    ensures { Writes K.history sink.old sink.new result (flat_map (turns_text cpus.now) way.now) }
{
    for k in 0..way.len() {
        write_turns(sink, cpus, way[k])?;
    }
    Ok(())
}

// Writes a run of turns of one processor.
fn write_turns<K: Sink>(sink: &mut K, cpus: &[u32], run: Run) -> Result<(), Failed>
    requires { run.choice < length cpus.now }
    ensures { Writes K.history sink.old sink.new result (turns_text cpus.now run) }
{
    write_processor(sink, cpus[run.choice as usize])?;
    write_times(sink, run.count)
}

// ---- the last lines

fn write_end<K: Sink>(
    sink: &mut K,
    root: Option<u32>,
    line: Option<u32>,
    holds: bool,
) -> Result<(), Failed>
    ensures { Writes K.history sink.old sink.new result (root_line root ++ taken_line line ++ apart_line holds) }
{
    let mut text: ArrayString<64> = ArrayString::new();
    push_root(&mut text, root);
    push_taken(&mut text, line);
    text.push_str(if holds { "apart yes\n" } else { "apart no\n" });
    write_line(sink, &text)
}

// Pushes that the root runs on a processor, if it does.
fn push_root(text: &mut ArrayString<64>, root: Option<u32>)
    requires { array_string_len text.old + 19 ≤ 64 }
    ensures bytes { text.new.bytes ≡ text.old.bytes ++ root_line root }
    ensures short { array_string_len text.new ≤ array_string_len text.old + 19 }
{
    if let Some(cpu) = root {
        text.push_str("root on ");
        push_decimal(text, cpu);
        text.push_str("\n");
    }
}

// Pushes that the root might take a line, if it might.
fn push_taken(text: &mut ArrayString<64>, line: Option<u32>)
    requires { array_string_len text.old + 16 ≤ 64 }
    ensures bytes { text.new.bytes ≡ text.old.bytes ++ taken_line line }
    ensures short { array_string_len text.new ≤ array_string_len text.old + 16 }
{
    if let Some(line) = line {
        text.push_str("line ");
        push_decimal(text, line);
        text.push_str("\n");
    }
}
