//! Writes the lines of a trace.
ghost use Rattle.std.specs.Prelude.{◌≡◌, ◌+◌, ◌≤◌, ◌++◌, []};
ghost use Rattle.arrayvec.specs.ArrayString.{array_string_len};
ghost use Rattle.pip_base.specs.declared.outcome.Outcome.TheVariants as O;
ghost use Rattle.pip_io.specs.Writes.{Writes};
ghost use Rattle.pip_model.specs.Turn.{call_line, head, moved_line, out_line, switch_text};

use arrayvec::ArrayString;
use itoa::Buffer;
use pip_base::Outcome;
use pip_io::{Failed, Sink, write_all};
use pip_script::{push_decimal, push_word};

/// Room for a line of a trace: the longest has 88 bytes.
const ROOM: usize = 96;

/// Writes a line by one `write_all`. Fails only if a write failed; the sink then has a part of the line.
pub fn write_line<K: Sink, const N: usize>(
    sink: &mut K,
    line: &ArrayString<N>,
) -> Result<(), Failed>
    ensures { Writes K.history sink.old sink.new result line.now.bytes }
{
    write_all(sink, line.as_bytes())
}

/// Writes the line of what moved control, if something did. For a sink that discards it no line is made.
#[inline(always)]
pub fn write_moved<K: Sink>(sink: &mut K, t: u64, cpu: u32, outcome: Outcome) -> Result<(), Failed>
    ensures { Writes K.history sink.old sink.new result (moved_line t cpu outcome) }
{
    if sink.discards() {
        return Ok(());
    }
    match outcome {
        Outcome::Switched { from, to, vector } => write_switch(sink, t, cpu, from, to, vector),
        Outcome::Parked { from, vector } => write_park(sink, t, cpu, from, vector),
        _ => Ok(()),
    }
}

// Writes the line of a switch.
#[inline(never)]
fn write_switch<K: Sink>(
    sink: &mut K,
    t: u64,
    cpu: u32,
    from: u32,
    to: u32,
    vector: u32,
) -> Result<(), Failed>
    ensures { Writes K.history sink.old sink.new result (moved_line t cpu (O.Switched from to vector)) }
{
    let mut line: ArrayString<ROOM> = ArrayString::new();
    push_head(&mut line, t, cpu);
    push_switch(&mut line, from, to, vector);
    write_line(sink, &line)
}

// Writes the line of a processor that parked.
#[inline(never)]
fn write_park<K: Sink>(sink: &mut K, t: u64, cpu: u32, from: u32, vector: u32) -> Result<(), Failed>
    ensures { Writes K.history sink.old sink.new result (moved_line t cpu (O.Parked from vector)) }
{
    let mut line: ArrayString<ROOM> = ArrayString::new();
    push_head(&mut line, t, cpu);
    line.push_str(" park ");
    push_decimal(&mut line, from);
    line.push_str(" ");
    push_decimal(&mut line, vector);
    line.push_str("\n");
    write_line(sink, &line)
}

/// Writes the line of a call. For a sink that discards it no line is made.
#[inline(always)]
pub fn write_call<K: Sink>(
    sink: &mut K,
    t: u64,
    cpu: u32,
    number: u32,
    outcome: Outcome,
) -> Result<(), Failed>
    ensures { Writes K.history sink.old sink.new result (call_line t cpu number outcome) }
{
    if sink.discards() {
        return Ok(());
    }
    write_told(sink, t, cpu, number, &outcome)
}

// Writes the line of a call and what it answered.
#[inline(never)]
fn write_told<K: Sink>(
    sink: &mut K,
    t: u64,
    cpu: u32,
    number: u32,
    outcome: &Outcome,
) -> Result<(), Failed>
    ensures { Writes K.history sink.old sink.new result (call_line t cpu number outcome.now) }
{
    let mut line = ArrayString::new();
    push_call(&mut line, t, cpu, number, outcome);
    write_line(sink, &line)
}

/// Writes the line of a word that is shown. For a sink that discards it no line is made.
#[inline(always)]
pub fn write_out<K: Sink>(sink: &mut K, t: u64, cpu: u32, word: u32) -> Result<(), Failed>
    ensures { Writes K.history sink.old sink.new result (out_line t cpu word) }
{
    if sink.discards() {
        return Ok(());
    }
    write_shown(sink, t, cpu, word)
}

// Writes the line of a word.
#[inline(never)]
fn write_shown<K: Sink>(sink: &mut K, t: u64, cpu: u32, word: u32) -> Result<(), Failed>
    ensures { Writes K.history sink.old sink.new result (out_line t cpu word) }
{
    let mut line = ArrayString::new();
    push_head(&mut line, t, cpu);
    line.push_str(" out ");
    push_word(&mut line, word);
    line.push_str("\n");
    write_line(sink, &line)
}

fn push_call(line: &mut ArrayString<ROOM>, t: u64, cpu: u32, number: u32, outcome: &Outcome)
    requires { line.old.bytes ≡ [] }
    ensures { line.new.bytes ≡ call_line t cpu number outcome.now }
{
    match *outcome {
        Outcome::Reply { status, value } => {
            push_head(line, t, cpu);
            line.push_str(" call ");
            push_decimal(line, number);
            line.push_str(" reply ");
            push_decimal(line, status.number());
            line.push_str(" ");
            push_word(line, value);
            line.push_str("\n");
        }
        Outcome::Switched { from, to, vector } => {
            push_head(line, t, cpu);
            line.push_str(" call ");
            push_decimal(line, number);
            push_switch(line, from, to, vector);
        }
        _ => {}
    }
}

// Begins a line with the step and the processor.
fn push_head(line: &mut ArrayString<ROOM>, t: u64, cpu: u32)
    requires { line.old.bytes ≡ [] }
    ensures bytes { line.new.bytes ≡ head t cpu }
    ensures short { array_string_len line.new ≤ 31 }
{
    let mut buffer = Buffer::new();
    line.push_str(buffer.format(t));
    line.push_str(" ");
    push_decimal(line, cpu);
}

fn push_switch(line: &mut ArrayString<ROOM>, from: u32, to: u32, vector: u32)
    requires { array_string_len line.old + 41 ≤ 96 }
    ensures { line.new.bytes ≡ line.old.bytes ++ switch_text from to vector }
{
    line.push_str(" switch ");
    push_decimal(line, from);
    line.push_str(" ");
    push_decimal(line, to);
    line.push_str(" ");
    push_decimal(line, vector);
    line.push_str("\n");
}
