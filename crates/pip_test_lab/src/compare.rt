//! Comparisons as calls: a proof grows with all that is written out before it in a function.
use std::fmt::{Debug, Display};
use std::process::Abort;

/// Compares an answer with the one that is wanted, of what `of` says.
pub(crate) fn same<T: PartialEq + Debug + Drop, D: Display + Drop>(
    rt: &impl Abort,
    answer: T,
    wanted: T,
    of: D,
) {
    assert_eq!(rt; answer, wanted, "of {of}");
}

/// Asserts what has to hold of what `of` says.
pub(crate) fn holds<D: Display + Drop>(rt: &impl Abort, it: bool, of: D) {
    assert!(rt; it, "of {of}");
}
