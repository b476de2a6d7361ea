//! The text of a load: a count a line.
ghost use Rattle.std.specs.Prelude.{◌≤◌, ◌++◌, codes, decimal, length};
ghost use Rattle.pip_io.specs.Taken.{Wrote};
ghost use Rattle.pip_io.specs.Causes.{HasCause};
ghost use Rattle.pip_model.specs.Soak.{counted_text};
ghost use Rattle.pip_soak.specs.LoadText.{kinds_text, load_text, replies_text, sums_text};

use crate::counts::Counts;
use arrayvec::ArrayString;
use pip_dump::Totals;
use pip_io::{Failed, Sink, write_all};
use pip_script::push_decimal;

/// A name of at most 16 bytes and a count.
#[derive(Clone, Copy)]
struct CountLine<'a> {
    name: &'a str,
    count: u32,
}

// Writes a line.
fn write_line<K: Sink>(line: &CountLine<'_>, sink: &mut K) -> Result<(), Failed>
    requires { length line.now.name.now ≤ 16 }
    ensures text { Wrote result (K.history sink.old).written (K.history sink.new).written
        (counted_text line.now.name.now line.now.count) }
    ensures cause { HasCause (K.history sink.old).faults (K.history sink.new).faults result }
{
    let mut text: ArrayString<28> = ArrayString::new();
    text.push_str(line.name);
    text.push_str(" ");
    push_decimal(&mut text, line.count);
    text.push_str("\n");
    write_all(sink, text.as_bytes())
}

// Writes three lines.
fn write_three<K: Sink>(
    first: &CountLine<'_>,
    second: &CountLine<'_>,
    third: &CountLine<'_>,
    sink: &mut K,
) -> Result<(), Failed>
    requires first { length first.now.name.now ≤ 16 }
    requires second { length second.now.name.now ≤ 16 }
    requires third { length third.now.name.now ≤ 16 }
    ensures text { Wrote result (K.history sink.old).written (K.history sink.new).written
        (counted_text first.now.name.now first.now.count ++ counted_text second.now.name.now second.now.count ++
        counted_text third.now.name.now third.now.count) }
    ensures cause { HasCause (K.history sink.old).faults (K.history sink.new).faults result }
{
    write_line(first, sink)?;
    write_line(second, sink)?;
    write_line(third, sink)
}

// Writes the lines of all events and of the outcomes but replies.
fn write_outcomes<K: Sink>(counts: &Counts, sink: &mut K) -> Result<(), Failed>
    ensures text { Wrote result (K.history sink.old).written (K.history sink.new).written (kinds_text counts.now) }
    ensures cause { HasCause (K.history sink.old).faults (K.history sink.new).faults result }
{
    write_three(
        &CountLine {
            name: "events",
            count: counts.events,
        },
        &CountLine {
            name: "word",
            count: counts.words,
        },
        &CountLine {
            name: "done",
            count: counts.done,
        },
        sink,
    )?;
    write_three(
        &CountLine {
            name: "switch",
            count: counts.switched,
        },
        &CountLine {
            name: "park",
            count: counts.parked,
        },
        &CountLine {
            name: "idle",
            count: counts.idle,
        },
        sink,
    )
}

// Writes the line of the replies with a status, below 19, by its number.
fn write_reply<K: Sink>(status: u32, count: u32, sink: &mut K) -> Result<(), Failed>
    ensures text { Wrote result (K.history sink.old).written (K.history sink.new).written
        (counted_text (codes "reply " ++ decimal status) count) }
    ensures cause { HasCause (K.history sink.old).faults (K.history sink.new).faults result }
{
    let mut name: ArrayString<16> = ArrayString::new();
    name.push_str("reply ");
    push_decimal(&mut name, status);
    write_line(
        &CountLine {
            name: name.as_str(),
            count,
        },
        sink,
    )
}

// Writes the lines of all replies by their statuses.
fn write_replies<K: Sink>(replies: &[u32; 19], sink: &mut K) -> Result<(), Failed>
    ensures text { Wrote result (K.history sink.old).written (K.history sink.new).written (replies_text replies.now) }
    ensures cause { HasCause (K.history sink.old).faults (K.history sink.new).faults result }
{
    for s in 0..19 {
        write_reply(s, replies[s as usize], sink)?;
    }
    Ok(())
}

// Writes the lines of the totals.
fn write_totals<K: Sink>(totals: &Totals, sink: &mut K) -> Result<(), Failed>
    ensures text { Wrote result (K.history sink.old).written (K.history sink.new).written (sums_text totals.now) }
    ensures cause { HasCause (K.history sink.old).faults (K.history sink.new).faults result }
{
    write_three(
        &CountLine {
            name: "parts",
            count: totals.parts,
        },
        &CountLine {
            name: "rows",
            count: totals.rows,
        },
        &CountLine {
            name: "hidden",
            count: totals.hidden,
        },
        sink,
    )
}

/// Writes the text of a load: the counts, the totals of the machine's tree, and a last line with the number of steps
/// (docs/FORMATS.md, "soak"). Fails only if a write failed; a prefix of the text was written then.
pub fn load_text<K: Sink>(
    counts: &Counts,
    totals: &Totals,
    count: u32,
    sink: &mut K,
) -> Result<(), Failed>
    ensures text { Wrote result (K.history sink.old).written (K.history sink.new).written
        (load_text counts.now totals.now count) }
    ensures cause { HasCause (K.history sink.old).faults (K.history sink.new).faults result }
{
    write_outcomes(counts, sink)?;
    write_replies(&counts.replies, sink)?;
    write_totals(totals, sink)?;
    write_line(&CountLine { name: "end", count }, sink)
}
