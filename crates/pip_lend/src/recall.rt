//! A page that the caller takes back from a child.

use pip_base::{Frame, VPage};

/// The child, and where it and the caller map the page.
#[derive(Clone, Copy, Debug, PartialEq, Eq)]
pub(crate) struct Recall {
    /// The child.
    pub(crate) child: Frame,
    /// Where the child maps the page.
    pub(crate) at: VPage,
    /// Where the caller maps it.
    pub(crate) v: VPage,
}
