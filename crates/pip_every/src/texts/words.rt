//! The words of a way.
ghost use Rattle.std.specs.Prelude.{◌≡◌, ◌+◌, ◌-◌, ◌<◌, ◌≤◌, ◌^◌, ◌++◌, flat_map};
ghost use Rattle.arrayvec.specs.ArrayString.{array_string_len};
ghost use Rattle.pip_io.specs.Writes.{Writes};
ghost use Rattle.pip_every.specs.Texts.{choice_text, deed_text, spaced_run, times_text};

use arrayvec::ArrayString;
use pip_cpu::write_line;
use pip_io::{Failed, Sink};
use pip_script::push_decimal;
use pip_search::Run;

// Room for a run: the longest has 34 bytes.
const RUN_ROOM: usize = 40;

/// Writes the runs of a way, each after a space. Choices below `cpus` are turns, the next raise these lines, and those
/// after them are deeds.
pub fn write_way<K: Sink>(sink: &mut K, cpus: u32, lines: &[u32], way: &[Run]) -> Result<(), Failed>
    requires { 1 ≤ cpus }
    ensures { Writes K.history sink.old sink.new result (flat_map (spaced_run cpus lines.now) way.now) }
{
    for k in 0..way.len() {
        write_run(sink, cpus, lines, way[k])?;
    }
    Ok(())
}

// Writes a run after a space.
fn write_run<K: Sink>(sink: &mut K, cpus: u32, lines: &[u32], run: Run) -> Result<(), Failed>
    requires { 1 ≤ cpus }
    ensures { Writes K.history sink.old sink.new result (spaced_run cpus lines.now run) }
{
    let mut word: ArrayString<RUN_ROOM> = ArrayString::new();
    word.push_str(" ");
    push_choice(&mut word, cpus, lines, run.choice);
    push_times(&mut word, run.count);
    write_line(sink, &word)
}

fn push_choice(word: &mut ArrayString<RUN_ROOM>, cpus: u32, lines: &[u32], choice: u32)
    requires room { array_string_len word.old + 22 ≤ RUN_ROOM }
    requires some { 1 ≤ cpus }
    ensures bytes { word.new.bytes ≡ word.old.bytes ++ choice_text cpus lines.now choice }
    ensures short { array_string_len word.new ≤ array_string_len word.old + 22 }
{
    if choice < cpus {
        push_decimal(word, choice);
        return;
    }
    let after = choice - cpus;
    if (after as usize) < lines.len() {
        word.push_str("raise");
        push_decimal(word, lines[after as usize]);
    } else {
        push_deed(word, cpus, after - lines.len() as u32);
    }
}

// The processor of a deed, and the number of its line in the menu.
fn push_deed(word: &mut ArrayString<RUN_ROOM>, cpus: u32, deed: u32)
    requires room { array_string_len word.old + 22 ≤ RUN_ROOM }
    requires some { 1 ≤ cpus }
    requires most { deed < 2 ^ 32 - 1 }
    ensures bytes { word.new.bytes ≡ word.old.bytes ++ deed_text cpus deed }
    ensures short { array_string_len word.new ≤ array_string_len word.old + 22 }
{
    push_decimal(word, deed % cpus);
    word.push_str(":d");
    push_decimal(word, deed / cpus + 1);
}

fn push_times(word: &mut ArrayString<RUN_ROOM>, count: u32)
    requires { array_string_len word.old + 11 ≤ RUN_ROOM }
    ensures bytes { word.new.bytes ≡ word.old.bytes ++ times_text count }
    ensures short { array_string_len word.new ≤ array_string_len word.old + 11 }
{
    if count != 1 {
        word.push_str("x");
        push_decimal(word, count);
    }
}

/// Writes how often a choice is made, if more than once.
pub fn write_times<K: Sink>(sink: &mut K, count: u32) -> Result<(), Failed>
    ensures { Writes K.history sink.old sink.new result (times_text count) }
{
    let mut word: ArrayString<RUN_ROOM> = ArrayString::new();
    push_times(&mut word, count);
    write_line(sink, &word)
}
