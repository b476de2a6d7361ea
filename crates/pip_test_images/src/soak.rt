ghost use Rattle.std.specs.Prelude.{◌<◌, ◌≤◌};
ghost use Rattle.pip_base.specs.Opening.{CanOpen};

use crate::ends::check_end;
use pip_base::Steps;
use pip_commands::soak;
use pip_frames::RawFrames;
use pip_io::{Gatherer, MemSink, MemSource};
use pip_model::Port;
use pip_switch::Machine;
use std::marker::Brand;
use std::process::Abort;
use std::sync::ledger::{Blank, Ledger};
use std::test::Fail;

/// Of no steps.
const NO_STEPS: &str = "events 0
word 0
done 0
switch 0
park 0
idle 0
reply 0 0
reply 1 0
reply 2 0
reply 3 0
reply 4 0
reply 5 0
reply 6 0
reply 7 0
reply 8 0
reply 9 0
reply 10 0
reply 11 0
reply 12 0
reply 13 0
reply 14 0
reply 15 0
reply 16 0
reply 17 0
reply 18 0
parts 1
rows 52
hidden 11
end 0
";

/// Of 1000 steps, drawn by 3.
const STEPS: &str = "events 1150
word 21
done 101
switch 30
park 30
idle 821
reply 0 15
reply 1 0
reply 2 0
reply 3 0
reply 4 0
reply 5 115
reply 6 0
reply 7 12
reply 8 0
reply 9 2
reply 10 0
reply 11 1
reply 12 0
reply 13 0
reply 14 0
reply 15 0
reply 16 2
reply 17 0
reply 18 0
parts 3
rows 52
hidden 24
end 1000
";

// Makes a load beside a source whose first read would fail, and compares its text.
fn check(rt: &(impl Abort + AllocGlobal), count: u32, seed: u32, text: &str) -> Result<(), Fail>
    requires count { count ≤ 1000000 }
    requires seed { 1 ≤ seed }
{
    let mut source = MemSource::new(b"unread", &[1]);
    let mut sink = MemSink::new(rt.alloc(), 512, &[])?;
    let ended = soak(rt.alloc(), count, seed, &mut source, &mut sink);
    let written = sink.bytes();
    check_end(rt, "a load", &ended, written, 0, text.as_bytes(), true);
    Ok(())
}

#[test]
fn loads_have_counts(rt: HostRuntime) -> Result<(), Fail> {
    check(&rt, 0, 1, NO_STEPS)?;
    check(&rt, 1000, 3, STEPS)
}

// Makes a load of no steps by a gatherer, where a write fails, and compares the status and the text.
fn check_gathered(
    rt: &(impl Abort + AllocGlobal),
    failing: u32,
    status: u8,
    text: &str,
) -> Result<(), Fail> {
    let writes = [failing];
    let mut sink = Gatherer::new(MemSink::new(rt.alloc(), 512, &writes)?);
    let ended = soak(rt.alloc(), 0, 1, &mut MemSource::new(b"", &[]), &mut sink);
    let written = sink.sink().bytes();
    check_end(
        rt,
        "no steps",
        &ended,
        written,
        status,
        text.as_bytes(),
        status == 0,
    );
    Ok(())
}

#[test]
fn the_write_fails(rt: HostRuntime) -> Result<(), Fail> {
    // The text is one write.
    check_gathered(&rt, 1, 4, "")?;
    check_gathered(&rt, 2, 0, NO_STEPS)
}

// The sum of the numbers at the ends of `count` lines from line `first` on, counted from 0.
fn sum(text: &str, first: usize, count: usize) -> Option<u32> {
    let mut sum: u32 = 0;
    for line in text.lines().skip(first).take(count) {
        let (_, number) = line.rsplit_once(' ')?;
        sum = sum.checked_add(number.parse().ok()?)?;
    }
    Some(sum)
}

// The text of a load of 2000 steps.
fn long_load(rt: &(impl Abort + AllocGlobal)) -> Result<MemSink<'static>, Fail> {
    let mut source = MemSource::new(b"", &[]);
    let mut sink = MemSink::new(rt.alloc(), 512, &[])?;
    soak(rt.alloc(), 2000, 7, &mut source, &mut sink);
    Ok(sink)
}

#[test]
fn each_event_is_counted_once(rt: HostRuntime) -> Result<(), Fail> {
    let load = long_load(&rt)?;
    let text = str::from_utf8(load.bytes())?;
    assert_eq!(rt; sum(text, 1, 24), sum(text, 0, 1));
    assert_eq!(rt; sum(text, 28, 1), Some(2000));
    assert_eq!(rt; long_load(&rt)?.bytes(), load.bytes());
    Ok(())
}

// A word of the machine's memory, where there is a machine.
fn word<L: Ledger>(
    machine: &Option<Machine<RawFrames>>,
    frame: u32,
    index: u32,
    blank: Blank,
) -> Option<u32>
    requires blank { CanOpen blank.name blank.parts L.name L.parts }
{
    let mut steps: Steps<L> = Steps::new(blank);
    match machine {
        None => None,
        Some(machine) => machine.peek(frame, index, &mut steps),
    }
}

#[test]
fn machine_is_handed_back(rt: HostRuntime) -> Result<(), Fail> {
    let mut sink = MemSink::new(rt.alloc(), 512, &[])?;
    let ended = soak(rt.alloc(), 0, 1, &mut MemSource::new(b"", &[]), &mut sink);
    // The word that is stored at 0x410100.
    assert_eq!(rt;
        word::<Brand>(&ended.machine, 28, 64, Blank::new(1)),
        Some(0xffff_f400)
    );
    assert_eq!(rt; word::<Brand>(&ended.machine, 64, 0, Blank::new(1)), None);
    Ok(())
}
