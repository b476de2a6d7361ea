//! How the program ends.
ghost use Rattle.std.specs.Prelude.{◌≡◌, ◌≢◌, [], None, Some, MatchOption};
ghost use Rattle.pip_io.specs.Taken.{Keeps};
ghost use Rattle.pip_command_contracts.specs.Faults.{image_line};
ghost use Rattle.pip_command_contracts.specs.Streams.{EndsLine};

use crate::text::bad_image;
use pip_frames::RawFrames;
use pip_io::{Sink, write_out};
use pip_model::ImageError;
use pip_switch::Machine;

/// The status of the program, and the machine of the command, where it did its work on one.
#[derive(Drop)]
pub struct Ended {
    pub status: u8,
    pub machine: Option<Machine<RawFrames>>,
}

impl Ended {
    /// The end of a command that has no machine to hand back.
    pub fn with_status(status: u8) -> Ended
        ensures { result ≡ record { status = status; machine = None } }
    {
        Ended {
            status,
            machine: None,
        }
    }
}

/// Writes one line and all that the sink holds, and ends with this status, or with 4 where that can't be written.
pub fn end_with<K: Sink>(sink: &mut K, line: &[u8], status: u8) -> Ended
    ensures wrote { EndsLine status line.now result.status (K.history sink.old) (K.history sink.new) }
    ensures no_faults { result.status ≢ 4 → (K.history sink.new).faults ≡ (K.history sink.old).faults }
    ensures none { result.machine ≡ None }
    ensures flushed { result.status ≢ 4 → (K.history sink.new).written.buffered ≡ [] }
{
    match write_out(sink, line) {
        Ok(()) => Ended::with_status(status),
        Err(_) => Ended::with_status(4),
    }
}

/// Ends at a fault of an image: with the line that names it, or without one where the source failed. The sink holds
/// nothing.
pub fn end_at_image<K: Sink>(sink: &mut K, fault: ImageError) -> Ended
    requires { (K.history sink.old).written.buffered ≡ [] }
    ensures wrote { MatchOption (image_line fault)
        ((result.status ≡ 3) × Keeps (K.history sink.old).written (K.history sink.new).written)
        (λ line. EndsLine 2 line result.status (K.history sink.old) (K.history sink.new)) }
    ensures no_faults { result.status ≢ 4 → (K.history sink.new).faults ≡ (K.history sink.old).faults }
    ensures none { result.machine ≡ None }
    ensures flushed { result.status ≢ 4 → (K.history sink.new).written.buffered ≡ [] }
{
    match bad_image(fault) {
        None => Ended::with_status(3),
        Some(line) => end_with(sink, line.as_str().as_bytes(), 2),
    }
}
