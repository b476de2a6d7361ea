//! What is said of labels that may come again.
ghost use Rattle.std.specs.Prelude.{◌≡◌, ◌≤◌, length};
ghost use Rattle.pip_io.specs.Writes.{Writes};
ghost use Rattle.pip_search_commands.specs.EveryText.{label_bytes, said_line, again_text, said_words};

use arrayvec::ArrayVec;
use pip_every::{Again, MAX_LABEL, write_way};
use pip_io::{Failed, Sink, write_all};

/// Writes a line for each of these labels: what is said of it.
pub fn write_said<K: Sink>(
    sink: &mut K,
    cpus: u32,
    lines: &[u32],
    labels: &[ArrayVec<u8, MAX_LABEL>],
    said: &[Again],
) -> Result<(), Failed>
    requires count { length said.now ≡ length labels.now }
    requires some { 1 ≤ cpus }
    ensures { Writes K.history sink.old sink.new result (again_text cpus lines.now (label_bytes labels.now) said.now) }
{
    for k in 0..said.len() {
        write_one(sink, cpus, lines, labels[k].as_slice(), &said[k])?;
    }
    Ok(())
}

// Writes the line of a label.
fn write_one<K: Sink>(
    sink: &mut K,
    cpus: u32,
    lines: &[u32],
    label: &[u8],
    said: &Again,
) -> Result<(), Failed>
    requires { 1 ≤ cpus }
    ensures { Writes K.history sink.old sink.new result (said_line cpus lines.now label.now said.now) }
{
    write_all(sink, b"again ")?;
    write_all(sink, label)?;
    write_words(sink, cpus, lines, said)
}

// Writes what is said of a label, after a colon.
fn write_words<K: Sink>(sink: &mut K, cpus: u32, lines: &[u32], said: &Again) -> Result<(), Failed>
    requires { 1 ≤ cpus }
    ensures { Writes K.history sink.old sink.new result (said_words cpus lines.now said.now) }
{
    match said {
        Again::Can => write_all(sink, b": yes\n"),
        Again::Lost { way } => {
            write_all(sink, b": no")?;
            write_way(sink, cpus, lines, way.as_slice())?;
            write_all(sink, b"\n")
        }
        Again::Unknown => write_all(sink, b": unknown\n"),
    }
}
