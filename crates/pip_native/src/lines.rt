//! The lines of a native run.
ghost use Rattle.std.specs.Prelude.{◌≤◌, length};
ghost use Rattle.pip_io.specs.Writes.{Writes};
ghost use Rattle.pip_native.specs.Watching.{built_from, built_line, decision_line};

use crate::Decision;
use arrayvec::ArrayString;
use itoa::Buffer;
use pip_cpu::write_line;
use pip_io::{Failed, Sink};
use pip_script::{push_decimal, push_word};

/// Writes a line for each child, at most 8, with the address of its descriptor.
pub fn write_children<K: Sink>(children: &[u32], sink: &mut K) -> Result<(), Failed>
    requires { length children.now ≤ 8 }
    ensures { Writes K.history sink.old sink.new result (built_from 0 children.now) }
{
    for i in 0..children.len() {
        write_child(i as u32, children[i], sink)?;
    }
    Ok(())
}

// Writes the line of child `i`.
fn write_child<K: Sink>(i: u32, address: u32, sink: &mut K) -> Result<(), Failed>
    ensures { Writes K.history sink.old sink.new result (built_line i address) }
{
    let mut line: ArrayString<64> = ArrayString::new();
    line.push_str("built ");
    push_decimal(&mut line, i);
    line.push_str(" ");
    push_word(&mut line, address);
    line.push_str("\n");
    write_line(sink, &line)
}

/// Writes the line of a decision, if it has one.
pub fn write_decision<K: Sink>(sink: &mut K, t: u64, decision: Decision) -> Result<(), Failed>
    ensures { Writes K.history sink.old sink.new result (decision_line t decision) }
{
    let mut buffer = Buffer::new();
    let mut line: ArrayString<64> = ArrayString::new();
    match decision {
        Decision::Nobody => return Ok(()),
        Decision::Ran { child } => {
            line.push_str(buffer.format(t));
            line.push_str(" 0 run ");
            push_decimal(&mut line, child);
        }
        Decision::Dropped { child, status } => {
            line.push_str(buffer.format(t));
            line.push_str(" 0 drop ");
            push_decimal(&mut line, child);
            line.push_str(" ");
            push_decimal(&mut line, status.number());
        }
    }
    line.push_str("\n");
    write_line(sink, &line)
}
