//! List pages.
ghost use Rattle.std.specs.Prelude.{◌≡◌};
ghost use Rattle.pip_model.specs.Tree.{lists as pages_for};

/// How many list pages the slots of `m` tables take: each has 170 slots, and there is always one page.
pub fn lists(m: u32) -> u32
    ensures { result ≡ pages_for m }
{
    m.div_ceil(170).max(1)
}
