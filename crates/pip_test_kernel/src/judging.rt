ghost use Rattle.std.specs.Prelude.{◌<◌};
ghost use Rattle.pip_base.specs.Opening.{CanOpen};

use pip_audit::{Auditor, CoreError, Verdict, read_core};
use pip_base::{Frame, Steps};
use pip_frames::{Frames, VecFrames};
use pip_io::MemSource;
use pip_kern::boot;
use std::alloc::{AllocError, Global};
use std::marker::Brand;
use std::sync::ledger::{Blank, Ledger};
use std::test::Fail;

// Judges a memory of 16 frames as it boots, where a word of it is another one.
fn judge<L: Ledger>(
    alloc: Global,
    frame: u32,
    index: u32,
    word: u32,
    blank: Blank,
) -> Result<Verdict, AllocError>
    requires blank { CanOpen blank.name blank.parts L.name L.parts }
    requires frame { frame < 16 }
    requires index { index < 1024 }
{
    let mut steps: Steps<L> = Steps::new(blank);
    let mut mem = VecFrames::new(alloc, 16)?;
    boot(&mut mem, &mut steps);
    mem.set_word(Frame::new(frame), index, word);
    let mut auditor = Auditor::new(alloc, 16)?;
    Ok(auditor.audit(&mem, &mut steps))
}

fn differs(frame: u32, index: u32, found: u32, want: u32) -> Verdict {
    Verdict::Differs {
        frame,
        index,
        found,
        want,
    }
}

#[test]
fn what_is_said_of_a_memory(rt: HostRuntime) -> Result<(), Fail> {
    let rows = [
        // A word as the boot left it, and a word of the root's first page.
        ((1, 1, 1), Verdict::Yes),
        ((12, 5, 7), Verdict::Yes),
        // The directory's frame is none, and the root's parent is another.
        ((1, 3, 0x63), Verdict::Unread { frame: 1, index: 3 }),
        ((1, 11, 2), Verdict::Unsound { part: 1 }),
        // A row of the root has another page.
        ((6, 0, 0xd01f), Verdict::Unsound { part: 2 }),
        // A row's page is no longer open to the user, and words that are to be 0 aren't.
        ((6, 0, 0xc01d), differs(6, 0, 0xc01d, 0xc01f)),
        ((0, 1023, 5), differs(0, 1023, 5, 0)),
        ((1, 10, 1), differs(1, 10, 1, 0)),
    ];
    for ((frame, index, word), verdict) in rows {
        assert!(rt; frame < 16 && index < 1024);
        let said = judge::<Brand>(rt.alloc(), frame, index, word, Blank::new(1))?;
        assert_eq!(rt; said, verdict, "word {index} of frame {frame}");
    }
    Ok(())
}

// Judges the memory of 16 frames that a text says, whose source fails at the calls whose numbers are listed.
fn judge_text<L: Ledger>(
    alloc: Global,
    text: &[u8],
    failing: &[u32],
    blank: Blank,
) -> Result<Result<Verdict, CoreError>, AllocError>
    requires blank { CanOpen blank.name blank.parts L.name L.parts }
{
    let mut steps: Steps<L> = Steps::new(blank);
    let mut mem = VecFrames::new(alloc, 16)?;
    let mut source = MemSource::new(text, failing);
    if let Err(error) = read_core(&mut source, &mut mem) {
        return Ok(Err(error));
    }
    let mut auditor = Auditor::new(alloc, 16)?;
    Ok(Ok(auditor.audit(&mem, &mut steps)))
}

#[test]
fn a_text_is_read_and_judged(rt: HostRuntime) -> Result<(), Fail> {
    let zeros = judge_text::<Brand>(rt.alloc(), b"end 0\n", &[], Blank::new(1))?;
    assert_eq!(rt; zeros, Ok(Verdict::Unsound { part: 1 }));
    let bad = judge_text::<Brand>(rt.alloc(), b"", &[], Blank::new(1))?;
    assert_eq!(rt; bad, Err(CoreError::Line(1)));
    let cut = judge_text::<Brand>(rt.alloc(), b"end 0\n", &[1], Blank::new(1))?;
    assert_eq!(rt; cut, Err(CoreError::Read));
    Ok(())
}
