//! Lines below 16 as the bits of a word.
ghost use Rattle.std.specs.Prelude.{◌≡◌, ◌^◌, ◌<◌, ◌==◌, ℕ, List, not, filter};
ghost use Rattle.pip_model.specs.Lists.{has};
ghost use Rattle.pip_model.specs.Poll.{lines_with};
ghost use Rattle.pip_model.specs.Sound.{AreLines};
ghost use Rattle.pip_switch.specs.Pending.{LineBits, line_bits};

// The bit of a line.
fn bit(line: u32) -> u32
    requires { line < 16 }
    ensures bit { result ≡ 2 ^ line }
    ensures small { result < 65536 }
{
    1 << line
}

/// Whether a line is one of them.
pub(crate) fn has_line(bits: u32, line: u32) -> bool
    requires { line < 16 }
    ensures { (js : List ℕ) → AreLines 0 js → bits ≡ line_bits js → result ≡ has js line }
{
    (bits >> line) % 2 == 1
}

/// With a line added. The same if it is one of them already.
pub(crate) fn with_line(bits: u32, line: u32) -> u32
    requires line { line < 16 }
    requires lines { LineBits bits }
    ensures { (js : List ℕ) → AreLines 0 js → bits ≡ line_bits js → result ≡ line_bits (lines_with line js) }
{
    if has_line(bits, line) {
        return bits;
    }
    bits + bit(line)
}

/// Without a line.
pub(crate) fn without_line(bits: u32, line: u32) -> u32
    requires line { line < 16 }
    requires lines { LineBits bits }
    ensures { (js : List ℕ) → AreLines 0 js → bits ≡ line_bits js →
        result ≡ line_bits (filter (λ j. not (j == line)) js) }
{
    if has_line(bits, line) {
        return bits - bit(line);
    }
    bits
}
