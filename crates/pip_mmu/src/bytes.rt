//! The bytes of a word. Byte k has its bits 8k to 8k + 7, and is at the addresses that leave k on division by 4.
ghost use Rattle.std.specs.Prelude.{◌≡◌, ◌<◌, ◌^◌};
ghost use Rattle.pip_model.specs.Events.{below_of};
ghost use Rattle.pip_model.specs.Happens.{read_of, written_over};

use pip_base::Size;

// What the lowest bit of byte `k` is worth, `k` below 4.
fn unit_of(k: u32) -> u32
    requires { k < 4 }
    ensures { result ≡ 256 ^ k }
{
    match k {
        0 => 1,
        1 => 256,
        2 => 65536,
        _ => 16777216,
    }
}

/// What an access at address `va` reads of a word: all of it, or its byte there.
pub(crate) fn read_of(va: u32, size: Size, word: u32) -> u32
    ensures { result ≡ read_of va size word }
{
    match size {
        Size::Byte => word / unit_of(va % 4) % 256,
        Size::Word => word,
    }
}

/// The word with `x` written over what an access at address `va` reaches of it.
pub(crate) fn written_over(va: u32, size: Size, x: u32, word: u32) -> u32
    requires { x < below_of size }
    ensures { result ≡ written_over va size x word }
{
    match size {
        Size::Byte => {
            let unit = unit_of(va % 4);
            word - word / unit % 256 * unit + x * unit
        }
        Size::Word => x,
    }
}
