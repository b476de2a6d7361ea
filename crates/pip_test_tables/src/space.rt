ghost use Rattle.pip_base.specs.Opening.{CanOpen};
ghost use Rattle.pip_model.specs.Partitions.{HasPartition};

use pip_base::{Frame, Steps, VPage};
use pip_frames::{Frames, VecFrames};
use pip_kern::boot;
use pip_space::{Row, next_row};
use std::marker::Brand;
use std::process::Abort;
use std::sync::ledger::{Blank, Ledger};
use std::test::Fail;

// The page and the frame of a row.
fn frame_of(row: Option<(VPage, Row)>) -> Option<(VPage, Frame)> {
    match row {
        Some((v, row)) => Some((v, row.frame)),
        None => None,
    }
}

// The rows of the root of a machine with 16 frames, one after another, and that there are no more.
fn check_rows<M: Frames, L: Ledger>(rt: &impl Abort, mem: &M, root: Frame, steps: &mut Steps<L>)
    requires { HasPartition (M.memory mem.now) root }
{
    let mut after = None;
    for (number, frame) in [(0x400, 12), (0x401, 13), (0x402, 14), (0xfffff, 15)] {
        let next = frame_of(next_row(mem, root, after, steps));
        assert_eq!(rt; next, Some((VPage::new(number), Frame::new(frame))));
        after = Some(VPage::new(number));
    }
    assert!(rt; next_row(mem, root, after, steps).is_none());
}

// Boots, and goes through the root's rows.
fn check<M: Frames, L: Ledger>(rt: &impl Abort, mem: &mut M, blank: Blank)
    requires blank { CanOpen blank.name blank.parts L.name L.parts }
{
    let mut steps: Steps<L> = Steps::new(blank);
    boot(mem, &mut steps);
    check_rows(rt, mem, Frame::new(1), &mut steps);
}

#[test]
fn the_rows_of_a_partition_follow_each_other(rt: HostRuntime) -> Result<(), Fail> {
    let mut mem = VecFrames::new(rt.alloc(), 16)?;
    check::<VecFrames, Brand>(&rt, &mut mem, Blank::new(1));
    Ok(())
}
