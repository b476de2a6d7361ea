//! Hashes of bytes. What the search promises doesn't depend on the hash function.
ghost use Rattle.std.specs.Prelude.{◌≡◌};
ghost use Rattle.pip_search.specs.Naming.{hash_after, hash_by_eights, hash_of, hash_step};

// A hash with one more number stirred in. The product's upper half depends on all bits of both, so it is mixed into the
// lower half.
fn stir(sum: u64, number: u64) -> u64
    ensures { result ≡ hash_step sum number }
{
    let product = (sum ^ number).wrapping_mul(0x9e3779b97f4a7c15);
    product ^ (product >> 32)
}

// A hash with more bytes stirred in, one by one.
fn stir_bytes(start: u64, bytes: &[u8]) -> u64
    ensures { result ≡ hash_after start bytes.now }
{
    let mut sum = start;
    for byte in bytes {
        sum = stir(sum, u64::from(*byte));
    }
    sum
}

// A hash with more bytes stirred in, eight at a time while there are eight.
fn stir_eights(start: u64, bytes: &[u8]) -> u64
    ensures { result ≡ hash_by_eights start bytes.now }
{
    let mut sum = start;
    let mut rest = bytes;
    while let Some((eight, more)) = rest.split_first_chunk::<8>() {
        sum = stir(sum, u64::from_le_bytes(*eight));
        rest = more;
    }
    stir_bytes(sum, rest)
}

/// The hash of bytes, which begins with a seed.
pub(crate) fn hash_bytes(seed: u64, bytes: &[u8]) -> u32
    ensures { result ≡ hash_of seed bytes.now }
{
    (stir_eights(seed, bytes) % 0x100000000) as u32
}
