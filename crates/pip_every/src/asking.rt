//! What a search is asked, and what it says.
ghost use Rattle.std.specs.Prelude.{◌≡◌, [], false};
ghost use Rattle.pip_away.specs.Blind.{leaves_out, left_out};

use crate::again::Again;
use crate::away::Away;
use crate::comes::Comes;
use arrayvec::ArrayVec;
use pip_away::Blind;

/// Of how many labels a menu asks at most.
pub const MAX_LABELS: usize = 16;

/// How many bytes such a label has at most, without its step.
pub const MAX_LABEL: usize = 114;

/// The lines, without their step, of which it is asked whether they can come again, and of which it is asked whether
/// they come; and the words of which it is asked whether all outside looks away from them.
#[derive(Drop)]
pub struct Asked {
    pub again: ArrayVec<ArrayVec<u8, MAX_LABEL>, MAX_LABELS>,
    pub comes: ArrayVec<ArrayVec<u8, MAX_LABEL>, MAX_LABELS>,
    pub blind: Blind,
}

impl Asked {
    /// Nothing is asked.
    pub fn new() -> Asked
        ensures again { result.again.items ≡ [] }
        ensures comes { result.comes.items ≡ [] }
        ensures blind { leaves_out (left_out result.blind) ≡ false }
    {
        Asked {
            again: ArrayVec::new(),
            comes: ArrayVec::new(),
            blind: Blind::new(),
        }
    }
}

/// What is said of each of these lines, and of these words, if there are any.
#[derive(Drop)]
pub struct Replies {
    pub again: Vec<Again>,
    pub comes: Vec<Comes>,
    pub away: Option<Away>,
}
