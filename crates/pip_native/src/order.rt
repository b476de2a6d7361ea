//! The order of the children.
ghost use Rattle.std.specs.Prelude.{◌≡◌, ◌<◌, ◌≤◌};
ghost use Rattle.pip_native.specs.Choice.{next_of};

/// The first child whose bit is set in the order `last` + 1, .., `last` + `n`, each modulo `n`; `n` where none is.
pub fn next_child(n: u32, alive: u32, last: u32) -> u32
    requires few { n ≤ 8 }
    requires last { last < n }
    ensures { result ≡ next_of n alive last }
{
    for before in 0..n {
        let i = (last + before + 1) % n;
        if (alive >> i) % 2 == 1 {
            return i;
        }
    }
    n
}
