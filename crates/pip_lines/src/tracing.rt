//! The trace of a run: the line of the image, the lines of the steps, the last line.
ghost use Rattle.std.specs.Prelude.{◌≡◌, ◌≢◌, ◌<◌, length};
ghost use Rattle.std.specs.List.{AllByRecursion};
ghost use Rattle.pip_cpu.specs.Made.{Acts};
ghost use Rattle.pip_io.specs.Causes.{HasCause};
ghost use Rattle.pip_io.specs.Writes.{Writes};
ghost use Rattle.pip_model.specs.Run.{end_line, trace_image_line, trace as trace_acts};

use crate::callback::Callback;
use crate::line::Line;
use crate::run::run_lines;
use arrayvec::ArrayString;
use itoa::Buffer;
use pip_base::Steps;
use pip_cpu::write_line;
use pip_io::{Failed, Sink};
use pip_model::Port;
use pip_script::push_decimal;
use std::sync::ledger::Ledger;

/// How large an image is: its frames and its pages.
#[derive(Clone, Copy)]
pub struct ImageSize {
    pub frames: u32,
    pub pages: u32,
}

/// The whole trace of an image of that size whose plans are those of `lines`: its first line, the steps as `run_lines`
/// makes them, the last line (docs/FORMATS.md, "Trace lines"). Fails only if a write failed; all was done then up to the
/// line that was not written whole.
pub fn trace<P: Port, K: Sink, F: Callback, L: Ledger>(
    port: &mut P,
    lines: &[Line<F>],
    image: ImageSize,
    count: u32,
    seed: u32,
    sink: &mut K,
    steps: &mut Steps<L>,
) -> Result<(), Failed>
    requires below { AllByRecursion (λ p. p.line < 16) lines.now }
    requires seed { seed ≢ 0 }
    ensures acts { Acts result (P.stands port.old) (P.stands port.new) (K.history sink.old) (K.history sink.new)
        (λ w. trace_acts w (trace_image_line image.frames (P.count port.old) (length lines.now) image.pages) lines.now
        seed
        (P.count port.old) count) }
    ensures cause { HasCause (K.history sink.old).faults (K.history sink.new).faults result }
    ensures count { P.count port.new ≡ P.count port.old }
{
    write_image(
        image.frames,
        port.cpus(),
        lines.len() as u64,
        image.pages,
        sink,
    )?;
    run_lines(port, lines, count, seed, sink, steps)?;
    write_end(sink, count)
}

/// Writes the first line: frames, processors, plans, pages.
pub fn write_image<K: Sink>(
    frames: u32,
    cpus: u32,
    plans: u64,
    pages: u32,
    sink: &mut K,
) -> Result<(), Failed>
    ensures { Writes K.history sink.old sink.new result (trace_image_line frames cpus plans pages) }
{
    let mut buffer = Buffer::new();
    let mut line: ArrayString<64> = ArrayString::new();
    line.push_str("image ");
    push_decimal(&mut line, frames);
    line.push_str(" ");
    push_decimal(&mut line, cpus);
    line.push_str(" ");
    line.push_str(buffer.format(plans));
    line.push_str(" ");
    push_decimal(&mut line, pages);
    line.push_str("\n");
    write_line(sink, &line)
}

/// Writes the last line of a run of that many steps.
pub fn write_end<K: Sink>(sink: &mut K, count: u32) -> Result<(), Failed>
    ensures { Writes K.history sink.old sink.new result (end_line count) }
{
    let mut line: ArrayString<16> = ArrayString::new();
    line.push_str("end ");
    push_decimal(&mut line, count);
    line.push_str("\n");
    write_line(sink, &line)
}
