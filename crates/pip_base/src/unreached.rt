//! Hints to the compiler, each of which a proof has to show.
ghost use Rattle.std.specs.Prelude.{IsTrue};

/// Code that a proof has to show to be unreachable. Unlike `unreachable!()` alone it costs no instruction, and neither
/// does a test that leads to it.
#[macro_export]
macro_rules! never {
    () => {{
        $crate::assert_unchecked(false);
        unreachable!()
    }};
}

/// A hint to the compiler that a condition holds, as a proof has to show. The hint is an index past the end of an array
/// that is never made: LLVM assumes that this read never happens, and so that the condition holds. (std's function of
/// this name gives no hint.) Without its proof the read would be undefined behaviour, not a panic. So would every index
/// in this repository: a proof takes the place of its test.
#[inline(always)]
pub fn assert_unchecked(holds: bool)
    requires { IsTrue holds }
    ensures { IsTrue holds }
{
    if !holds {
        let one: [u8; 1] = [0];
        let past = one[1];
        // LLVM would drop a test that does nothing.
        while past == 0 {}
    }
}
