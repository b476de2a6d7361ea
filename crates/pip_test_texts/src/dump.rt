ghost use Rattle.std.specs.Prelude.{◌≡◌, ◌<◌, length};
ghost use Rattle.pip_base.specs.Opening.{CanOpen};

use crate::compare::{holds, same};
use pip_base::{Frame, Steps};
use pip_dump::{Totals, frame_text, totals, tree_text};
use pip_frames::{Frames, VecFrames};
use pip_io::MemSink;
use pip_kern::boot;
use std::alloc::{AllocError, Global};
use std::marker::Brand;
use std::process::Abort;
use std::sync::ledger::{Blank, Ledger};
use std::test::Fail;

const TREE: &[u8] = b"part 1 depth 0 up 1 born 0x00000000 tables 2 rows 4
row 0x00400000 12 rwx user free
row 0x00401000 13 rwx user free
row 0x00402000 14 rwx user free
row 0xfffff000 15 rwx user free
";

const FRAMES: &[u8] = b"frame 1
0000: 00000000 00000001 00000000 00000002 00000000 00000003 00000000 00000004
0008: 00000000 00000005 00000000 00000001 00000002 00000000 00000000 00000000
";

// Boots 16 frames, and compares the text of the tree, whole and after a fault, the lines of two frames, and the totals.
fn check<M: Frames, L: Ledger>(
    rt: &impl Abort,
    alloc: Global,
    mem: &mut M,
    blank: Blank,
) -> Result<(), AllocError>
    requires frames { length (M.memory mem.old) ≡ 16 }
    requires blank { CanOpen blank.name blank.parts L.name L.parts }
{
    let mut steps: Steps<L> = Steps::new(blank);
    boot(mem, &mut steps);
    let mut sink = MemSink::new(alloc, 512, &[])?;
    holds(rt, tree_text(mem, &mut sink, &mut steps).is_ok(), "a tree");
    same(rt, sink.bytes(), TREE, "the tree");
    let mut faulty = MemSink::new(alloc, 512, &[2])?;
    holds(
        rt,
        tree_text(mem, &mut faulty, &mut steps).is_err(),
        "a fault",
    );
    same(rt, faulty.bytes(), &TREE[..52], "the tree before a fault");
    let mut lines = MemSink::new(alloc, 512, &[])?;
    for f in [0, 1, 15] {
        let written = frame_text(mem, Frame::new(f), &mut lines, &mut steps);
        holds(rt, written.is_ok(), f);
    }
    same(rt, lines.bytes(), FRAMES, "the frames");
    let wanted = Totals {
        parts: 1,
        rows: 4,
        hidden: 11,
    };
    same(rt, totals(mem, &mut steps), wanted, "the totals");
    Ok(())
}

#[test]
fn the_boot_tree_and_a_frame_as_text(rt: HostRuntime) -> Result<(), Fail> {
    let mut mem = VecFrames::new(rt.alloc(), 16)?;
    check::<VecFrames, Brand>(&rt, rt.alloc(), &mut mem, Blank::new(1))?;
    Ok(())
}
