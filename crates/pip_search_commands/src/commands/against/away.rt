//! What is said of whether all that is outside looks away.
ghost use Rattle.std.specs.Prelude.{◌≤◌};
ghost use Rattle.pip_io.specs.Writes.{Writes};
ghost use Rattle.pip_search_commands.specs.EveryText.{away_text, away_words, on_processor, seen_words};

use super::comes::write_runs;
use arrayvec::ArrayString;
use pip_every::Away;
use pip_io::{Failed, Sink, write_all};
use pip_script::push_decimal;
use pip_search::Run;

/// Writes the line that says it, if it was asked.
pub fn write_away<K: Sink>(
    sink: &mut K,
    cpus: u32,
    lines: &[u32],
    said: &Option<Away>,
) -> Result<(), Failed>
    requires { 1 ≤ cpus }
    ensures { Writes K.history sink.old sink.new result (away_text cpus lines.now said.now) }
{
    match said {
        Some(said) => write_words(sink, cpus, lines, said),
        None => Ok(()),
    }
}

// Writes the line.
fn write_words<K: Sink>(sink: &mut K, cpus: u32, lines: &[u32], said: &Away) -> Result<(), Failed>
    requires { 1 ≤ cpus }
    ensures { Writes K.history sink.old sink.new result (away_words cpus lines.now said.now) }
{
    match said {
        Away::Yes => write_all(sink, b"away yes\n"),
        Away::No { way, cpu } => write_seen(sink, cpus, lines, way.as_slice(), *cpu),
        Away::Unknown => write_all(sink, b"away unknown\n"),
    }
}

// Writes after which way what a processor does sees a word that is left out.
fn write_seen<K: Sink>(
    sink: &mut K,
    cpus: u32,
    lines: &[u32],
    way: &[Run],
    cpu: u32,
) -> Result<(), Failed>
    requires { 1 ≤ cpus }
    ensures { Writes K.history sink.old sink.new result (seen_words cpus lines.now way.now cpu) }
{
    write_runs(sink, cpus, lines, b"away no", way)?;
    write_processor(sink, cpu)
}

// Writes the processor, which ends the line.
fn write_processor<K: Sink>(sink: &mut K, cpu: u32) -> Result<(), Failed>
    ensures { Writes K.history sink.old sink.new result (on_processor cpu) }
{
    let mut words: ArrayString<16> = ArrayString::new();
    words.push_str(" : ");
    push_decimal(&mut words, cpu);
    words.push_str("\n");
    write_all(sink, words.as_str().as_bytes())
}
