//! The pages of a text that were begun, by marks: one for each page that a root has a row for.
ghost use Rattle.std.specs.Prelude.{◌≡◌, ℕ, ◌∷◌, [], ◌++◌, List, length, IfOk};
ghost use Rattle.pip_model.specs.Images.{is_seen};
ghost use Rattle.pip_asm.specs.Marks.{AreMarks, IsNear};

use std::alloc::{AllocError, Global};

// The rows of a root begin at page 1024 and are fewer than 4096, but for the one of the last page, which has the last
// mark.
const MARKS: usize = 8192;

/// No page was begun.
#[tactic(auto, using(crate::proofs::Marking::none_marked))]
pub fn no_marks(alloc: Global) -> Result<Vec<bool>, AllocError>
    ensures { IfOk result (λ m. AreMarks m.items []) }
{
    let mut marks = Vec::new(alloc);
    marks.resize(MARKS, false)?;
    Ok(marks)
}

/// Whether a page was begun.
pub fn is_marked(marks: &[bool], page: u32) -> bool
    requires count { length marks.now ≡ MARKS }
    requires near { IsNear page }
    ensures { (seen : List ℕ) → AreMarks marks.now seen → result ≡ is_seen page seen }
{
    marks[page as usize % MARKS]
}

/// A page more was begun.
#[tactic(auto, using(crate::proofs::Marking::marked))]
pub fn mark(marks: &mut [bool], page: u32)
    requires count { length marks.old ≡ MARKS }
    requires near { IsNear page }
    ensures { (seen : List ℕ) → AreMarks marks.old seen → AreMarks marks.new (seen ++ page ∷ []) }
{
    marks[page as usize % MARKS] = true;
}
