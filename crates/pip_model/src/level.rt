//! The levels of tables.

/// Which of the three tables of a directory index.
#[derive(Clone, Copy, Debug, PartialEq, Eq)]
pub enum Level {
    /// What the page is, and what may be done with it.
    Mmu,
    /// To which child the page is given.
    Shadow1,
    /// Where the parent maps the page.
    Shadow2,
}
