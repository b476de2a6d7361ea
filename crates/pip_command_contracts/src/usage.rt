//! What a program does with words of no form.
ghost use Rattle.std.specs.Prelude.{◌≡◌, []};
ghost use Rattle.pip_command_contracts.specs.Commands.{Fulfils};
ghost use Rattle.pip_command_contracts.specs.Usage.{unknown_due};

use crate::{Ended, end_with};
use pip_io::{Sink, Source};

/// Shows which words there are, by a line with its newline. Nothing is read.
pub fn show_usage<S: Source, K: Sink>(usage: &[u8], _source: &mut S, sink: &mut K) -> Ended
    requires { (K.history sink.old).written.buffered ≡ [] }
    ensures ends { Fulfils (unknown_due usage.now) result S.history K.history _source.old sink.old
        _source.new sink.new }
{
    end_with(sink, usage, 1)
}
