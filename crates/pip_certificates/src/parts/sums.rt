//! The sum of the labels of a part, by which a changed one is found.
ghost use Rattle.std.specs.Prelude.{◌≡◌, ◌∷◌, []};
ghost use Rattle.pip_certificates.specs.Sums.{label_sum, sum_and, sum_bytes};

/// The number of a label in such a sum.
pub fn label_sum(text: &[u8]) -> u32
    ensures { result ≡ label_sum text.now }
{
    let mut sum = 0x811c9dc5;
    for byte in text {
        sum = sum_with(sum, *byte);
    }
    sum
}

// A number and one byte more.
fn sum_with(sum: u32, byte: u8) -> u32
    ensures { result ≡ sum_bytes sum (byte ∷ []) }
{
    (sum ^ u32::from(byte)).wrapping_mul(0x01000193)
}

/// A sum and one number more.
pub fn sum_and(sum: u32, more: u32) -> u32
    ensures { result ≡ sum_and sum more }
{
    sum.wrapping_add(more)
}
