//! What the tests of all commands share.
use std::process::Abort;
use std::test::Fail;

/// Compares the status and the text of a command that was given `of`.
pub(crate) fn check_end(
    rt: &impl Abort,
    of: &str,
    ended: u8,
    written: &[u8],
    status: u8,
    text: &[u8],
) {
    assert_eq!(rt; ended, status, "of {of}");
    assert_eq!(rt; written, text, "of {of}");
}

/// Asserts what holds of a command that was given `of`.
pub(crate) fn holds(rt: &impl Abort, it: bool, of: &str) {
    assert!(rt; it, "of {of}");
}

/// The words of a line, at the spaces between them.
pub(crate) fn words_of(rt: &(impl Abort + AllocGlobal), line: &str) -> Result<Vec<String>, Fail> {
    let mut words = Vec::new(rt.alloc());
    for word in line.split(' ') {
        words.push(String::from_str(rt.alloc(), word)?)?;
    }
    Ok(words)
}
