//! A page on loan to a child.

use pip_base::{Frame, Rights, VPage};

/// A page of the caller, and where a child is to map it.
#[derive(Clone, Copy, Debug, PartialEq, Eq)]
pub(crate) struct Loan {
    /// Where the caller maps the page.
    pub(crate) v: VPage,
    /// The page.
    pub(crate) frame: Frame,
    /// Where the caller has the child's descriptor.
    pub(crate) born: VPage,
    /// The child.
    pub(crate) child: Frame,
    /// Where the child maps the page.
    pub(crate) at: VPage,
    /// What the child may do with it.
    pub(crate) rights: Rights,
}
