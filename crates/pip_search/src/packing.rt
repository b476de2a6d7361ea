//! Keys as bytes, as visits keep them.
ghost use Rattle.std.specs.Prelude.{◌≡◌, ◌<◌, ◌++◌, IfOk};
ghost use Rattle.pip_search.specs.Packing.{packed_key, packed_word, seven_bits, unpacked_key, word_with};

use std::alloc::AllocError;

// Adds the seven bits of a word that count `unit`s, plus 128, if the word is at least one unit.
fn push_bits(bytes: &mut Vec<u8>, word: u32, unit: u32) -> Result<(), AllocError>
    requires { 0 < unit }
    ensures { IfOk result (λ x. bytes.new.items ≡ bytes.old.items ++ seven_bits unit word) }
{
    if word >= unit {
        bytes.push((word / unit % 128) as u8 + 128)?;
    }
    Ok(())
}

/// Adds a word. The only error is that memory is out.
#[inline(always)]
pub(crate) fn push_word(bytes: &mut Vec<u8>, word: u32) -> Result<(), AllocError>
    ensures { IfOk result (λ x. bytes.new.items ≡ bytes.old.items ++ packed_word word) }
{
    if word < 128 {
        bytes.push(word as u8)?;
        return Ok(());
    }
    push_bits(bytes, word, 0x10000000)?;
    push_bits(bytes, word, 0x200000)?;
    push_bits(bytes, word, 0x4000)?;
    push_bits(bytes, word, 0x80)?;
    bytes.push((word % 128) as u8)?;
    Ok(())
}

/// Makes `bytes` those of a key: one to five for each word, fewer for a smaller one. The only error is that memory is
/// out.
pub(crate) fn pack(key: &[u32], bytes: &mut Vec<u8>) -> Result<(), AllocError>
    ensures packed { IfOk result (λ x. bytes.new.items ≡ packed_key key.now) }
    ensures words { IfOk result (λ x. unpacked_key bytes.new.items ≡ key.now) }
{
    bytes.clear();
    for word in key {
        push_word(bytes, *word)?;
    }
    Ok(())
}

/// A word with seven more bits, those of a byte, below the bits so far.
pub(crate) fn joined(word: u32, byte: u8) -> u32
    ensures { result ≡ word_with word byte }
{
    word.wrapping_mul(128).wrapping_add(u32::from(byte % 128))
}

/// Makes `key` the words that were packed as `bytes`. The only error is that memory is out.
pub(crate) fn unpack(bytes: &[u8], key: &mut Vec<u32>) -> Result<(), AllocError>
    ensures { IfOk result (λ x. key.new.items ≡ unpacked_key bytes.now) }
{
    key.clear();
    let mut word = 0;
    for byte in bytes {
        word = joined(word, *byte);
        if *byte < 128 {
            key.push(word)?;
            word = 0;
        }
    }
    Ok(())
}
