//! What building a child answers.
use thiserror::Error;

/// A child that was built: the address of its descriptor, and how many pages it took, the first of the pool.
#[derive(Clone, Copy, Debug, PartialEq, Eq)]
pub struct Built {
    pub child: u32,
    pub used: u32,
}

/// Why no child was built.
#[derive(Clone, Copy, Debug, PartialEq, Eq, Error)]
pub enum BuildError {
    /// The place of the first want that no child can have: its address is 0 or no page's, its rights lack READ or are
    /// above 7, or an earlier want has its address. No event was made.
    #[error("no child can have want {0}")]
    Want(u32),
    /// The pool has fewer pages than the wants need. No event was made.
    #[error("the pool has {have} pages, and {need} are needed")]
    Short { have: u32, need: u32 },
    /// The place of the first want whose rights exceed those that the caller has to the page that it would lend. The
    /// child that was begun is deleted: the partitions are those of before, and its pages are zero.
    #[error("a right to the page for want {0} is lacking")]
    NoRight(u32),
}
