//! Keys that were reached.
ghost use Rattle.std.specs.Prelude.{◌≡◌, ◌<◌, ◌^◌};
ghost use Rattle.pip_search.specs.Packing.{packed_key, unpacked_key};

/// A key as bytes, and how many choices lead to a state of it. The bytes are those of some words, packed.
#[derive(Drop)]
pub struct Reached {
    pub key: Vec<u8>,
    pub depth: u32,
    ghost packed: { packed_key (unpacked_key key.items) ≡ key.items },
    ghost low: { depth < 2 ^ 32 },
}
