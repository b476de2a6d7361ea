//! The driver.
ghost use Rattle.std.specs.Prelude.{◌≡◌, ◌≢◌, ◌⊎◌, [], false, true, OnErr, OnOk};
ghost use Rattle.pip_io.specs.Causes.{HasCause};
ghost use Rattle.pip_io.specs.Moments.{streams};
ghost use Rattle.pip_io.specs.Taken.{Appends, AppendsPart, Keeps, SendsPart};
ghost use Rattle.pip_io.specs.Ends.{Ends, MayWait};
ghost use Rattle.pip_io.specs.Texts.{text_bytes};

use crate::window::Window;
use crate::{Failed, Sink, Source, Step, Text, Transducer, write_all};

/// What failed.
#[derive(Clone, Copy, Debug, PartialEq, Eq)]
pub enum FailedStream {
    Read,
    Write,
}

/// Drives a transducer to its end, or until a read or a write fails. The source is read only where the text that is due
/// for all that was read is out, and there is no answer yet.
pub fn drive<M: Transducer, S: Source, K: Sink>(
    transducer: &mut M,
    source: &mut S,
    sink: &mut K,
) -> Result<M::End, FailedStream>
    requires is_open { S.is_open source.old }
    requires none { (K.history sink.old).written.buffered ≡ [] }
    requires paced { MayWait (M.due transducer.old) S.allows (streams S.history K.history source.old sink.old) }
    ensures { Ends (M.due transducer.old) M.is_loose result (streams S.history K.history source.old sink.old)
        (streams S.history K.history source.new sink.new) }
{
    let mut window = Window::new();
    let mut text = Text::new();
    let mut ended = false;
    let mut buffered = false;
    loop {
        match transducer.step(window.as_slice(), ended, &mut text) {
            Step::Read(room) => {
                match flush_buffered(sink, buffered) {
                    Ok(()) => buffered = false,
                    Err(_) => return Err(FailedStream::Write),
                }
                match window.read_on(source, sink, room) {
                    Ok(0) => ended = true,
                    Ok(_) => {}
                    Err(_) => return Err(FailedStream::Read),
                }
            }
            Step::Say(count) => match write_pieces(sink, &text) {
                Ok(()) => {
                    text.clear();
                    buffered = true;
                    window.take(count);
                }
                Err(_) => return Err(FailedStream::Write),
            },
            Step::Write(count) => match write_text(sink, &text, buffered) {
                Ok(()) => {
                    text.clear();
                    buffered = false;
                    window.take(count);
                }
                Err(_) => return Err(FailedStream::Write),
            },
            Step::End(last) => return match write_text(sink, &text, buffered) {
                Ok(()) => Ok(last),
                Err(_) => Err(FailedStream::Write),
            },
        }
    }
}

// Writes what the sink holds, where it may hold something.
fn flush_buffered<K: Sink>(sink: &mut K, buffered: bool) -> Result<(), Failed>
    requires { buffered ≡ false → (K.history sink.old).written.buffered ≡ [] }
    ensures kept { Keeps (K.history sink.old).written (K.history sink.new).written }
    ensures none { OnOk result ((K.history sink.new).written.buffered ≡ []) }
    ensures some { OnErr result ((buffered ≡ true) × ((K.history sink.new).written.buffered ≢ [])) }
    ensures cause { HasCause (K.history sink.old).faults (K.history sink.new).faults result }
{
    if buffered { sink.flush() } else { Ok(()) }
}

// Writes a text, no piece of it by more than one `write_all`.
fn write_pieces<K: Sink>(sink: &mut K, text: &Text) -> Result<(), Failed>
    ensures whole { OnOk result (Appends (K.history sink.old).written (K.history sink.new).written
        (text_bytes text.now)) }
    ensures prefix { OnErr result (AppendsPart (K.history sink.old).written (K.history sink.new).written
        (text_bytes text.now)) }
    ensures cause { HasCause (K.history sink.old).faults (K.history sink.new).faults result }
{
    let (front, rest) = text.parts();
    write_all(sink, front)?;
    write_all(sink, rest)
}

// Writes a text and all that the sink holds, where there is something.
fn write_text<K: Sink>(sink: &mut K, text: &Text, buffered: bool) -> Result<(), Failed>
    requires { buffered ≡ false → (K.history sink.old).written.buffered ≡ [] }
    ensures whole { OnOk result (Appends (K.history sink.old).written (K.history sink.new).written
        (text_bytes text.now)) }
    ensures part { OnErr result (SendsPart (K.history sink.old).written (K.history sink.new).written
        (text_bytes text.now)) }
    ensures none { OnOk result ((K.history sink.new).written.buffered ≡ []) }
    ensures some { OnErr result ((text_bytes text.now ≢ []) ⊎ (buffered ≡ true)) }
    ensures cause { HasCause (K.history sink.old).faults (K.history sink.new).faults result }
{
    if !buffered && text.as_slice().is_empty() {
        return Ok(());
    }
    write_pieces(sink, text)?;
    sink.flush()
}
