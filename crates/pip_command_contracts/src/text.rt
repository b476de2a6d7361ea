//! The line that names a fault of an image.
ghost use Rattle.std.specs.Prelude.{◌≡◌, ◌+◌, ◌≤◌, ◌++◌, None, Some, MatchOption, decimal, length};
ghost use Rattle.arrayvec.specs.ArrayString.{array_string_len};
ghost use Rattle.pip_command_contracts.specs.Faults.{bad_image, image_line};

use arrayvec::ArrayString;
use itoa::Buffer;
use pip_model::ImageError;

/// `bad image`, the kind of a fault with its offset, and a newline; none where the source failed.
pub fn bad_image(fault: ImageError) -> Option<ArrayString<64>>
    ensures { MatchOption result (image_line fault ≡ None) (λ text. image_line fault ≡ Some text.bytes) }
{
    match fault {
        ImageError::Magic { at } => Some(kind_line("magic", at)),
        ImageError::OldVersion { at } => Some(kind_line("oldversion", at)),
        ImageError::Frames { at } => Some(kind_line("frames", at)),
        ImageError::Cpus { at } => Some(kind_line("cpus", at)),
        ImageError::Plan { at } => Some(kind_line("plan", at)),
        ImageError::Page { at } => Some(kind_line("page", at)),
        ImageError::Twice { at } => Some(kind_line("twice", at)),
        ImageError::Short { at } => Some(kind_line("short", at)),
        ImageError::Long { at } => Some(kind_line("long", at)),
        ImageError::Read => None,
    }
}

// The line of a fault of an image.
fn kind_line(kind: &str, at: u64) -> ArrayString<64>
    requires { length kind.now ≤ 10 }
    ensures { result.bytes ≡ bad_image kind.now at }
{
    let mut text = ArrayString::new();
    text.push_str("bad image ");
    text.push_str(kind);
    text.push_str(" ");
    push_decimal(&mut text, at);
    text.push_str("\n");
    text
}

/// Appends a number in decimal.
pub fn push_decimal(text: &mut ArrayString<64>, n: u64)
    requires { array_string_len text.old + 20 ≤ 64 }
    ensures bytes { text.new.bytes ≡ text.old.bytes ++ decimal n }
    ensures short { array_string_len text.new ≤ array_string_len text.old + 20 }
{
    let mut buffer = Buffer::new();
    text.push_str(buffer.format(n));
}
