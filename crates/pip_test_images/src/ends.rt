//! What the tests of all commands share: comparisons as calls, since a proof grows with all that is written out before
//! it in a function.
use pip_commands::{Ended, asm};
use pip_io::{MemSink, MemSource};
use std::process::Abort;
use std::test::Fail;

/// The image of an assembly text, in a sink.
pub(crate) fn image_of(
    rt: &(impl Abort + AllocGlobal),
    text: &str,
) -> Result<MemSink<'static>, Fail> {
    let mut image = MemSink::new(rt.alloc(), 65536, &[])?;
    let ended = asm(
        rt.alloc(),
        &mut MemSource::new(text.as_bytes(), &[]),
        &mut image,
    );
    assert_eq!(rt; ended.status, 0, "of {text}");
    Ok(image)
}

/// Compares the text and the status of a command that was given `of`, and whether it handed a machine back.
pub(crate) fn check_end(
    rt: &impl Abort,
    of: &str,
    ended: &Ended,
    written: &[u8],
    status: u8,
    text: &[u8],
    has_machine: bool,
) {
    assert_eq!(rt; written, text, "of {of}");
    assert_eq!(rt; ended.status, status, "of {of}");
    assert_eq!(rt; ended.machine.is_some(), has_machine, "of {of}");
}

/// Asserts what holds of a command that was given `of`.
pub(crate) fn holds(rt: &impl Abort, it: bool, of: &str) {
    assert!(rt; it, "of {of}");
}
