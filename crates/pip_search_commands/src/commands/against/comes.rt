//! What is said of labels that may come.
ghost use Rattle.std.specs.Prelude.{◌≡◌, ◌==◌, ◌+◌, ◌≤◌, ◌++◌, if◌then◌else◌, codes, flat_map, length, slice_index};
ghost use Rattle.arrayvec.specs.ArrayString.{array_string_len};
ghost use Rattle.pip_io.specs.Writes.{Writes};
ghost use Rattle.pip_search_commands.specs.EveryText.{label_bytes, avoided_words, classed_text, coming_line};
ghost use Rattle.pip_search_commands.specs.EveryText.{comes_text};
ghost use Rattle.pip_search_commands.specs.EveryText.{coming_words, counts_words, must_words, windows_words};
ghost use Rattle.pip_every.specs.Texts.{spaced_run};

use arrayvec::{ArrayString, ArrayVec};
use pip_every::{Comes, MAX_LABEL, write_way};
use pip_io::{Failed, Sink, write_all};
use pip_script::push_decimal;
use pip_search::Run;

/// Writes a line for each of these labels: what is said of it.
pub fn write_coming<K: Sink>(
    sink: &mut K,
    cpus: u32,
    lines: &[u32],
    labels: &[ArrayVec<u8, MAX_LABEL>],
    said: &[Comes],
) -> Result<(), Failed>
    requires count { length said.now ≡ length labels.now }
    requires some { 1 ≤ cpus }
    ensures { Writes K.history sink.old sink.new result (comes_text cpus lines.now (label_bytes labels.now) said.now) }
{
    for k in 0..said.len() {
        write_one(sink, cpus, lines, labels[k].as_slice(), &said[k])?;
    }
    Ok(())
}

// Writes the line of a label.
fn write_one<K: Sink>(
    sink: &mut K,
    cpus: u32,
    lines: &[u32],
    label: &[u8],
    said: &Comes,
) -> Result<(), Failed>
    requires { 1 ≤ cpus }
    ensures { Writes K.history sink.old sink.new result (coming_line cpus lines.now label.now said.now) }
{
    write_all(sink, b"comes ")?;
    write_all(sink, label)?;
    write_words(sink, cpus, lines, said)
}

// Writes what is said of a label, after a colon.
fn write_words<K: Sink>(sink: &mut K, cpus: u32, lines: &[u32], said: &Comes) -> Result<(), Failed>
    requires { 1 ≤ cpus }
    ensures { Writes K.history sink.old sink.new result (coming_words cpus lines.now said.now) }
{
    match said {
        Comes::Must { counts } => write_must(sink, cpus, lines, counts.as_slice()),
        Comes::Avoided { way, round } => {
            write_avoided(sink, cpus, lines, way.as_slice(), round.as_slice())
        }
        Comes::Unknown => write_all(sink, b": unknown\n"),
    }
}

// Writes within how many windows of each class a label comes.
fn write_must<K: Sink>(sink: &mut K, cpus: u32, lines: &[u32], counts: &[u32]) -> Result<(), Failed>
    ensures { Writes K.history sink.old sink.new result (must_words cpus lines.now counts.now) }
{
    write_all(sink, b": within")?;
    write_counts(sink, cpus, lines, counts)?;
    write_all(sink, b"\n")
}

// Writes by which way and round a label is avoided.
fn write_avoided<K: Sink>(
    sink: &mut K,
    cpus: u32,
    lines: &[u32],
    way: &[Run],
    round: &[Run],
) -> Result<(), Failed>
    requires { 1 ≤ cpus }
    ensures { Writes K.history sink.old sink.new result (avoided_words cpus lines.now way.now round.now) }
{
    write_runs(sink, cpus, lines, b": no", way)?;
    write_runs(sink, cpus, lines, b" :", round)?;
    write_all(sink, b"\n")
}

/// Writes these bytes, and then runs, each after a space.
pub(super) fn write_runs<K: Sink>(
    sink: &mut K,
    cpus: u32,
    lines: &[u32],
    head: &[u8],
    runs: &[Run],
) -> Result<(), Failed>
    requires { 1 ≤ cpus }
    ensures { Writes K.history sink.old sink.new result (head.now ++ flat_map (spaced_run cpus lines.now) runs.now) }
{
    write_all(sink, head)?;
    write_way(sink, cpus, lines, runs)
}

// Writes how many windows of each class there are.
fn write_counts<K: Sink>(
    sink: &mut K,
    cpus: u32,
    lines: &[u32],
    counts: &[u32],
) -> Result<(), Failed>
    ensures { Writes K.history sink.old sink.new result (counts_words cpus lines.now 0 counts.now) }
{
    for class in 0..counts.len() {
        write_windows(sink, cpus, lines, class, counts[class])?;
    }
    Ok(())
}

// Room for the windows of a class: the longest have 31 bytes.
const WINDOWS_ROOM: usize = 40;

// Writes how many windows of a class there are.
fn write_windows<K: Sink>(
    sink: &mut K,
    cpus: u32,
    lines: &[u32],
    class: usize,
    count: u32,
) -> Result<(), Failed>
    ensures { Writes K.history sink.old sink.new result (windows_words cpus lines.now class count) }
{
    let mut words: ArrayString<WINDOWS_ROOM> = ArrayString::new();
    if class > 0 {
        words.push_str(separator(class));
        push_decimal(&mut words, count);
        words.push_str(" of ");
        push_classed(&mut words, cpus, lines, class - 1);
    } else if count > 0 {
        words.push_str(" ");
        push_decimal(&mut words, count);
        words.push_str(" of any");
    }
    write_all(sink, words.as_str().as_bytes())
}

// What comes before the windows of a class.
fn separator(class: usize) -> &'static str
    ensures text { result.now ≡ (if class == 1 then codes " " else codes ", ") }
    ensures short { length result.now ≤ 2 }
{
    if class == 1 { " " } else { ", " }
}

// A choice that has a class.
fn push_classed(words: &mut ArrayString<WINDOWS_ROOM>, cpus: u32, lines: &[u32], choice: usize)
    requires room { array_string_len words.old + 15 ≤ WINDOWS_ROOM }
    ensures { words.new.bytes ≡ words.old.bytes ++ classed_text cpus lines.now choice }
{
    if choice < cpus as usize {
        push_decimal(words, choice as u32);
    } else {
        words.push_str("raise");
        push_decimal(words, line_at(lines, choice - cpus as usize));
    }
}

// The line at a place, or 0.
fn line_at(lines: &[u32], place: usize) -> u32
    ensures { result ≡ slice_index lines.now place }
{
    if place < lines.len() { lines[place] } else { 0 }
}
