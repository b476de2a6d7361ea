//! The lines of a search.
ghost use Rattle.std.specs.Prelude.{◌≡◌, ◌-◌, ◌<◌, ◌≤◌, ◌++◌, length, map, flat_map, codes, decimal};
ghost use Rattle.pip_io.specs.Writes.{Writes};
ghost use Rattle.pip_search.specs.Ways.{AreTraced, witnesses_of};
ghost use Rattle.pip_every.specs.Texts.{inner, search_text, spaced_run, verdict_line, witness_line};
ghost use Rattle.pip_every.specs.Told.{runs_to};

use crate::texts::words::write_way;
use arrayvec::ArrayString;
use itoa::Buffer;
use pip_cpu::write_line;
use pip_io::{Failed, Sink, write_all};
use pip_script::push_decimal;
use pip_search::{Extent, Run, Search};

/// Writes a line for each label that was covered, in the order in which they were found, and the last line
/// (docs/FORMATS.md, "every"). `ways` are those of `ways_of`. Choices below `cpus` are turns, the next raise these
/// lines, and those after them are deeds of a menu.
pub fn write_search<K: Sink>(
    sink: &mut K,
    cpus: u32,
    lines: &[u32],
    search: &Search,
    ways: &[Vec<Run>],
    verdict: Extent,
) -> Result<(), Failed>
    requires ways { map (λ way. way.items) ways.now ≡ runs_to search.now.visits.items search.now.found.items }
    requires traced { AreTraced search.now.visits.items search.now.found.items }
    requires some { 1 ≤ cpus }
    ensures { Writes K.history sink.old sink.new result
        (search_text cpus lines.now (witnesses_of verdict search.now.visits.items search.now.found.items)
        (length search.now.visits.items) verdict) }
{
    write_labels(sink, cpus, lines, search, ways, verdict)?;
    write_verdict(sink, search.visits.len() as u64, verdict)
}

// Writes the lines of the labels that were covered.
fn write_labels<K: Sink>(
    sink: &mut K,
    cpus: u32,
    lines: &[u32],
    search: &Search,
    ways: &[Vec<Run>],
    verdict: Extent,
) -> Result<(), Failed>
    requires ways { map (λ way. way.items) ways.now ≡ runs_to search.now.visits.items search.now.found.items }
    requires traced { AreTraced search.now.visits.items search.now.found.items }
    requires some { 1 ≤ cpus }
    ensures { Writes K.history sink.old sink.new result
        (flat_map (witness_line cpus lines.now) (witnesses_of verdict search.now.visits.items search.now.found.items)) }
{
    for k in 0..search.found.len() {
        let found = &search.found[k];
        if !verdict.covers(found.depth) {
            continue;
        }
        write_label(sink, cpus, lines, &found.label, found.depth, &ways[k])?;
    }
    Ok(())
}

// Writes the line of a label that was found by that many choices, and whose way has these runs.
fn write_label<K: Sink>(
    sink: &mut K,
    cpus: u32,
    lines: &[u32],
    label: &[u8],
    depth: u32,
    way: &[Run],
) -> Result<(), Failed>
    requires some { 0 < depth }
    requires cpus { 1 ≤ cpus }
    ensures { Writes K.history sink.old sink.new result
        (decimal (depth - 1) ++ inner label.now ++ codes ":" ++ flat_map (spaced_run cpus lines.now) way.now ++ codes
        "\n") }
{
    write_shown(sink, label, depth - 1)?;
    write_way(sink, cpus, lines, way)?;
    write_all(sink, b"\n")
}

/// Writes what a label shows, at a step, and a colon.
pub fn write_shown<K: Sink>(sink: &mut K, label: &[u8], step: u32) -> Result<(), Failed>
    ensures { Writes K.history sink.old sink.new result (decimal step ++ inner label.now ++ codes ":") }
{
    write_number(sink, step)?;
    write_all(sink, inner(label))?;
    write_all(sink, b":")
}

fn write_number<K: Sink>(sink: &mut K, n: u32) -> Result<(), Failed>
    ensures { Writes K.history sink.old sink.new result (decimal n) }
{
    let mut number: ArrayString<10> = ArrayString::new();
    push_decimal(&mut number, n);
    write_line(sink, &number)
}

/// A label without its first byte and its last: a line of a trace without its step and its newline.
pub fn inner(label: &[u8]) -> &[u8]
    ensures { result.now ≡ inner label.now }
{
    match label {
        [_, inner @ .., _] => inner,
        _ => &[],
    }
}

/// Writes the last line: how many states there are, and how the search ended.
pub fn write_verdict<K: Sink>(sink: &mut K, count: u64, verdict: Extent) -> Result<(), Failed>
    ensures { Writes K.history sink.old sink.new result (verdict_line count verdict) }
{
    let mut buffer = Buffer::new();
    let mut line: ArrayString<64> = ArrayString::new();
    line.push_str("states ");
    line.push_str(buffer.format(count));
    match verdict {
        Extent::Closed { depth } => {
            line.push_str(" depth ");
            push_decimal(&mut line, depth);
            line.push_str(" closed\n");
        }
        Extent::Within { depth } => {
            line.push_str(" within ");
            push_decimal(&mut line, depth);
            line.push_str("\n");
        }
        Extent::Stopped { depth } => {
            line.push_str(" depth ");
            push_decimal(&mut line, depth);
            line.push_str(" stopped\n");
        }
    }
    write_line(sink, &line)
}
