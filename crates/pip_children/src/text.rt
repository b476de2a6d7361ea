//! The line of a header of too few frames.
ghost use Rattle.std.specs.Prelude.{◌≡◌, ◌≤◌};
ghost use Rattle.pip_native.specs.Watching.{short_line as short_text};

use arrayvec::ArrayString;
use pip_command_contracts::push_decimal;

/// `short`, how many pages can be had of that many frames, how many `n` children need, and a newline.
pub fn short_line(frames: u32, n: u32) -> ArrayString<64>
    requires { n ≤ 8 }
    ensures { result.bytes ≡ short_text frames n }
{
    let mut text = ArrayString::new();
    text.push_str("short ");
    push_decimal(&mut text, u64::from(frames.saturating_sub(13)));
    text.push_str(" ");
    push_decimal(&mut text, u64::from(13 * n));
    text.push_str("\n");
    text
}
