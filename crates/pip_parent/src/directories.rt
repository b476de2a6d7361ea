//! The directory indexes of the wants so far.
ghost use Rattle.std.specs.Prelude.{◌≡◌, ◌<◌, ◌+◌, false, length, List, replicate};

use crate::wants::Want;

/// Which of the 1024 directory indexes the wants so far have.
#[derive(Drop)]
pub struct Directories {
    pub known: [bool; 1024],
}

// The number is a parameter, since a list of 1024 is long to compute with.
fn none_known<const N: usize>() -> [bool; N]
    ensures { result ≡ replicate N false }
{
    [false; N]
}

impl Directories {
    ghost use Rattle.pip_parent.specs.declared.wants.Want.{Want};
    ghost use Rattle.pip_parent.specs.Wants.{opens as opening};
    ghost use Rattle.pip_parent.specs.Seen.{KnowsDirectories};

    pub fn new() -> Self
        ensures { (ws : List Want) → KnowsDirectories result ws 0 }
    {
        Directories {
            known: none_known(),
        }
    }

    /// Whether want i is the first in its directory, where the wants so far are those before i. It is one of them from
    /// now on.
    pub fn opens(&mut self, wants: &[Want], i: usize) -> bool
        requires low { i < length wants.now }
        requires known { KnowsDirectories self.old wants.now i }
        ensures opens { result ≡ opening wants.now i }
        ensures known { KnowsDirectories self.new wants.now (i + 1) }
    {
        let known = &mut self.known[(wants[i].va / 4096 / 1024) as usize];
        let opens = !*known;
        *known = true;
        opens
    }
}
