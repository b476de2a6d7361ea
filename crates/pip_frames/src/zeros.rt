//! The words of a frame in which nothing is written yet.
ghost use Rattle.std.specs.Prelude.{◌≡◌};
ghost use Rattle.pip_base.specs.Memory.{zeros};

/// Words of 0. Their number is a parameter, so that the check doesn't compute a list of 1024 zeros.
#[tactic(auto, unfolding(pip_base::specs::Memory::zeros))]
pub(crate) fn zero_words<const N: usize>() -> [u32; N]
    ensures { result ≡ zeros N }
{
    [0; N]
}
