ghost use Rattle.std.specs.Prelude.{◌<◌, ◌≤◌};
ghost use Rattle.pip_base.specs.Opening.{CanOpen};

mod counting;

use crate::compare::same;
use counting::CountingFrames;
use pip_base::{Outcome, Size, Status, Steps};
use pip_frames::{Frames, VecFrames};
use pip_kern::boot;
use pip_model::Port;
use pip_switch::Machine;
use std::marker::Brand;
use std::process::Abort;
use std::sync::ledger::{Blank, Ledger};
use std::test::Fail;

/// What an event answers.
#[derive(Clone, Copy)]
enum Answer {
    Word(u32),
    Done,
    Idle,
    /// A call's value with status 0.
    Reply(u32),
    Refused(Status),
    /// Who ran, and the vector.
    Parked(u32, u32),
    /// Who ran, who runs now, and the vector.
    Switched(u32, u32, u32),
}

// The outcome that an answer stands for.
fn outcome(answer: Answer) -> Outcome {
    match answer {
        Answer::Word(word) => Outcome::Word(word),
        Answer::Done => Outcome::Done,
        Answer::Idle => Outcome::Idle,
        Answer::Reply(value) => Outcome::Reply {
            status: Status::Ok,
            value,
        },
        Answer::Refused(status) => Outcome::Reply { status, value: 0 },
        Answer::Parked(from, vector) => Outcome::Parked { from, vector },
        Answer::Switched(from, to, vector) => Outcome::Switched { from, to, vector },
    }
}

/// One event with what it answers, or a register or a word of a frame that is read.
#[derive(Clone, Copy)]
enum Step {
    Load(u32, u32, Answer),
    Store(u32, u32, u32),
    Call(u32, u32, [u32; 5], Answer),
    Raise(u32),
    Poll(u32, Answer),
    Reg(u32, u32, u32),
    Peek(u32, u32, u32),
    Fetch(u32, Answer),
    /// How many translations of a processor hit and missed so far.
    Counts(u32, u64, u64),
}

// A register of what runs on a processor, 16 for the program counter. None where nothing runs there.
fn register<P: Port>(port: &P, cpu: u32, index: u32) -> Option<u32>
    requires { cpu < P.count port.now }
{
    let ctx = port.ctx(cpu)?;
    if index < 16 {
        Some(ctx.regs[index as usize])
    } else {
        Some(ctx.pc)
    }
}

// Makes one step, and compares.
fn check_step<M: Frames, L: Ledger>(
    rt: &impl Abort,
    port: &mut Machine<M>,
    step: &Step,
    steps: &mut Steps<L>,
) {
    match step {
        Step::Load(cpu, va, answer) => {
            assert!(rt; *cpu < port.cpus());
            let found = port.load(*cpu, *va, Size::Word, steps);
            same(rt, found, outcome(*answer), *va);
        }
        Step::Store(cpu, va, word) => {
            assert!(rt; *cpu < port.cpus());
            let done = port.store(*cpu, *va, Size::Word, *word, steps);
            same(rt, done, Outcome::Done, *va);
        }
        Step::Call(cpu, number, args, answer) => {
            assert!(rt; *cpu < port.cpus());
            let found = port.call(*cpu, *number, args, steps);
            same(rt, found, outcome(*answer), *number);
        }
        Step::Raise(line) => {
            assert!(rt; *line < 16);
            port.raise(*line, steps);
        }
        Step::Poll(cpu, answer) => {
            assert!(rt; *cpu < port.cpus());
            same(rt, port.poll(*cpu, steps), outcome(*answer), "a poll");
        }
        Step::Reg(cpu, index, word) => {
            assert!(rt; *cpu < port.cpus());
            same(rt, register(port, *cpu, *index), Some(*word), *index);
        }
        Step::Peek(frame, index, word) => {
            same(rt, port.peek(*frame, *index, steps), Some(*word), *index);
        }
        Step::Fetch(cpu, answer) => {
            assert!(rt; *cpu < port.cpus());
            same(rt, port.fetch(*cpu, steps), outcome(*answer), "a fetch");
        }
        Step::Counts(cpu, hits, misses) => {
            assert!(rt; *cpu < port.cpus());
            let (hit, missed) = port.counts(*cpu);
            same(rt, hit, *hits, "hits");
            same(rt, missed, *misses, "misses");
        }
    }
}

// Boots the frames under `cpus` processors, and makes the steps one after another. Returns the machine.
fn check<M: Frames + Drop, L: Ledger>(
    rt: &impl Abort,
    frames: M,
    cpus: u32,
    script: &[Step],
    blank: Blank,
) -> Machine<M>
    requires least { 1 ≤ cpus }
    requires most { cpus ≤ 4 }
    requires blank { CanOpen blank.name blank.parts L.name L.parts }
{
    let mut steps: Steps<L> = Steps::new(blank);
    let mut mem = frames;
    boot(&mut mem, &mut steps);
    let mut machine = Machine::new(mem, cpus);
    for step in script {
        check_step(rt, &mut machine, step, &mut steps);
    }
    machine
}

// Does that with a vector of frames.
fn check_script(
    rt: &(impl Abort + AllocGlobal),
    frames: u32,
    cpus: u32,
    script: &[Step],
) -> Result<(), Fail>
    requires few { 16 ≤ frames }
    requires many { frames ≤ 4096 }
    requires least { 1 ≤ cpus }
    requires most { cpus ≤ 4 }
{
    let mem = VecFrames::new(rt.alloc(), frames)?;
    check::<VecFrames, Brand>(rt, mem, cpus, script, Blank::new(1));
    Ok(())
}

// The pages of a child.
const PAGES: [u32; 5] = [0x401000, 0x402000, 0x403000, 0x404000, 0x405000];

static PARKS: [Step; 3] = [
    Step::Load(0, 0x402000, Answer::Word(0)),
    Step::Load(0, 0x403000, Answer::Parked(1, 14)),
    Step::Load(0, 0x402000, Answer::Idle),
];

#[test]
fn an_access_without_a_handler_parks(rt: HostRuntime) -> Result<(), Fail> {
    check_script(&rt, 16, 1, &PARKS)
}

static HITS: [Step; 10] = [
    Step::Counts(0, 0, 0),
    Step::Load(0, 0x400000, Answer::Word(0)),
    Step::Load(0, 0x400000, Answer::Word(0)),
    Step::Counts(0, 1, 1),
    Step::Call(0, 0, PAGES, Answer::Reply(0)),
    Step::Load(0, 0x400000, Answer::Word(0)),
    Step::Counts(0, 1, 2),
    Step::Call(0, 0, PAGES, Answer::Refused(Status::NotFree)),
    Step::Load(0, 0x400000, Answer::Word(0)),
    Step::Counts(0, 2, 2),
];

#[test]
fn a_second_access_of_a_page_hits(rt: HostRuntime) -> Result<(), Fail> {
    check_script(&rt, 32, 1, &HITS)
}

static FETCHES: [Step; 10] = [
    Step::Fetch(0, Answer::Word(0)),
    Step::Store(0, 0x400000, 9),
    Step::Fetch(0, Answer::Word(9)),
    Step::Counts(0, 2, 1),
    Step::Load(0, 0x440000, Answer::Word(0)),
    Step::Fetch(0, Answer::Word(9)),
    Step::Counts(0, 2, 3),
    Step::Call(0, 0, PAGES, Answer::Reply(0)),
    Step::Fetch(0, Answer::Word(9)),
    Step::Counts(0, 2, 4),
];

#[test]
fn code_is_fetched_from_the_page_that_is_kept(rt: HostRuntime) -> Result<(), Fail> {
    check_script(&rt, 128, 1, &FETCHES)
}

static SHARES: [Step; 4] = [
    Step::Load(0, 0x400000, Answer::Word(0)),
    Step::Load(0, 0x440000, Answer::Word(0)),
    Step::Load(0, 0x400000, Answer::Word(0)),
    Step::Counts(0, 0, 3),
];

#[test]
fn two_pages_share_a_place(rt: HostRuntime) -> Result<(), Fail> {
    check_script(&rt, 128, 1, &SHARES)
}

static LOSES: [Step; 4] = [
    Step::Load(0, 0, Answer::Parked(1, 14)),
    Step::Load(0, 0x800000, Answer::Idle),
    Step::Peek(1, 14, 0),
    Step::Peek(1, 16, 0),
];

#[test]
fn a_fault_without_a_block_loses_the_context(rt: HostRuntime) -> Result<(), Fail> {
    check_script(&rt, 32, 1, &LOSES)
}

static FAULTS: [Step; 25] = [
    Step::Call(0, 0, PAGES, Answer::Reply(0)),
    Step::Store(0, 0x406000, 0x407000),
    Step::Store(0, 0x407000, 0x408000),
    Step::Call(
        0,
        3,
        [0x401000, 0xfffff000, 0x406000, 0, 0],
        Answer::Reply(3),
    ),
    Step::Store(0, 0x409100, 0xfffff400),
    Step::Store(0, 0x409400, 0x10000000),
    Step::Call(
        0,
        5,
        [0x409000, 0x401000, 0xfffff000, 3, 0],
        Answer::Reply(0),
    ),
    Step::Store(0, 0xfffff038, 0xfffff400),
    Step::Store(0, 0xfffff400, 0x400400),
    Step::Store(0, 0xfffff0fc, 0xfffff444),
    Step::Store(0, 0x4090fc, 0xfffff444),
    Step::Call(0, 8, [0x401000, 64, 63, 0, 0], Answer::Switched(1, 13, 64)),
    Step::Reg(0, 16, 0x10000000),
    Step::Reg(0, 0, 0),
    Step::Peek(63, 273, 0x400000),
    Step::Load(0, 0x20000000, Answer::Switched(13, 1, 14)),
    Step::Reg(0, 16, 0x400400),
    Step::Reg(0, 0, 14),
    Step::Reg(0, 1, 0x20000000),
    Step::Reg(0, 2, 1),
    Step::Reg(0, 3, 0x401000),
    Step::Load(0, 0x409444, Answer::Word(0x10000000)),
    Step::Call(0, 8, [0x401000, 63, 256, 0, 0], Answer::Switched(1, 13, 63)),
    Step::Reg(0, 16, 0x10000000),
    Step::Peek(13, 16, 0),
];

#[test]
fn a_child_faults_and_goes_on(rt: HostRuntime) -> Result<(), Fail> {
    check_script(&rt, 64, 1, &FAULTS)
}

static GRANDCHILD: [Step; 28] = [
    Step::Call(0, 0, PAGES, Answer::Reply(0)),
    Step::Store(0, 0x406000, 0x407000),
    Step::Store(0, 0x407000, 0x408000),
    Step::Call(
        0,
        3,
        [0x401000, 0xfffff000, 0x406000, 0, 0],
        Answer::Reply(3),
    ),
    Step::Store(0, 0x409100, 0xfffff400),
    Step::Store(0, 0x409400, 0x10000000),
    Step::Call(
        0,
        5,
        [0x409000, 0x401000, 0xfffff000, 3, 0],
        Answer::Reply(0),
    ),
    Step::Store(0, 0xfffff104, 0xfffff400),
    Step::Store(0, 0xfffff400, 0x400100),
    Step::Store(0, 0x40f000, 0x77),
    Step::Call(
        0,
        5,
        [0x40a000, 0x401000, 0xffc0a000, 3, 0],
        Answer::Reply(0),
    ),
    Step::Call(
        0,
        5,
        [0x40b000, 0x401000, 0xffc0b000, 3, 0],
        Answer::Reply(0),
    ),
    Step::Call(
        0,
        5,
        [0x40c000, 0x401000, 0xffc0c000, 3, 0],
        Answer::Reply(0),
    ),
    Step::Call(
        0,
        5,
        [0x40d000, 0x401000, 0xffc0d000, 3, 0],
        Answer::Reply(0),
    ),
    Step::Call(
        0,
        5,
        [0x40e000, 0x401000, 0xffc0e000, 3, 0],
        Answer::Reply(0),
    ),
    Step::Call(
        0,
        5,
        [0x40f000, 0x401000, 0xffc0f000, 1, 0],
        Answer::Reply(0),
    ),
    Step::Call(0, 8, [0x401000, 64, 256, 0, 0], Answer::Switched(1, 13, 64)),
    Step::Call(
        0,
        0,
        [0xffc0a000, 0xffc0b000, 0xffc0c000, 0xffc0d000, 0xffc0f000],
        Answer::Refused(Status::NoRight),
    ),
    Step::Call(
        0,
        0,
        [0xffc0a000, 0xffc0b000, 0xffc0c000, 0xffc0d000, 0xffc0e000],
        Answer::Reply(0),
    ),
    Step::Call(
        0,
        5,
        [0xffc0f000, 0xffc0a000, 0x10000000, 3, 0],
        Answer::Refused(Status::NoRight),
    ),
    Step::Call(
        0,
        5,
        [0xffc0f000, 0xffc0a000, 0x10000000, 1, 0],
        Answer::Refused(Status::NoTable),
    ),
    Step::Peek(6, 10, 0x1601d),
    Step::Peek(18, 10, 0x1600d),
    Step::Peek(7, 10, 0x401003),
    Step::Peek(19, 10, 0xffc0a001),
    Step::Call(0, 8, [0, 65, 256, 0, 0], Answer::Switched(13, 1, 65)),
    Step::Reg(0, 3, 0),
    Step::Call(
        0,
        6,
        [0x401000, 0xffc0a000, 0, 0, 0],
        Answer::Refused(Status::LentOn),
    ),
];

#[test]
fn a_child_makes_a_child(rt: HostRuntime) -> Result<(), Fail> {
    check_script(&rt, 64, 1, &GRANDCHILD)
}

static RUNNING: [Step; 21] = [
    Step::Call(0, 0, PAGES, Answer::Reply(0)),
    Step::Store(0, 0x406000, 0x407000),
    Step::Store(0, 0x407000, 0x408000),
    Step::Call(
        0,
        3,
        [0x401000, 0xfffff000, 0x406000, 0, 0],
        Answer::Reply(3),
    ),
    Step::Store(0, 0x409100, 0xfffff400),
    Step::Store(0, 0x409400, 0x10000000),
    Step::Call(
        0,
        5,
        [0x409000, 0x401000, 0xfffff000, 3, 0],
        Answer::Reply(0),
    ),
    Step::Call(
        0,
        5,
        [0x40f000, 0x401000, 0xffc0f000, 1, 0],
        Answer::Reply(0),
    ),
    Step::Store(0, 0xfffff084, 0xfffff400),
    Step::Store(0, 0xfffff400, 0x400200),
    Step::Call(0, 8, [0x401000, 64, 256, 0, 0], Answer::Switched(1, 13, 64)),
    Step::Load(0, 0xffc0f000, Answer::Word(0)),
    Step::Counts(0, 2, 5),
    Step::Raise(1),
    Step::Poll(1, Answer::Switched(0, 1, 33)),
    Step::Call(
        1,
        1,
        [0x401000, 0, 0, 0, 0],
        Answer::Refused(Status::Running),
    ),
    Step::Call(
        1,
        8,
        [0x401000, 64, 256, 0, 0],
        Answer::Refused(Status::Running),
    ),
    Step::Call(1, 6, [0x401000, 0xffc0f000, 0, 0, 0], Answer::Reply(0)),
    Step::Load(0, 0xffc0f000, Answer::Parked(13, 14)),
    Step::Counts(0, 2, 6),
    Step::Call(1, 1, [0x401000, 0, 0, 0, 0], Answer::Reply(0)),
];

#[test]
fn a_running_child_is_left_alone(rt: HostRuntime) -> Result<(), Fail> {
    check_script(&rt, 64, 2, &RUNNING)
}

static MASKED: [Step; 21] = [
    Step::Store(0, 0xfffff084, 0xfffff400),
    Step::Store(0, 0xfffff08c, 0xfffff488),
    Step::Store(0, 0xfffff0fc, 0xfffff444),
    Step::Store(0, 0xfffff400, 0x400200),
    Step::Store(0, 0xfffff488, 0x400300),
    Step::Call(0, 10, [0, 0, 0, 0, 0], Answer::Reply(0)),
    Step::Raise(3),
    Step::Raise(1),
    Step::Poll(0, Answer::Done),
    Step::Call(0, 11, [0, 0, 0, 0, 0], Answer::Reply(0)),
    Step::Poll(0, Answer::Switched(1, 1, 33)),
    Step::Reg(0, 16, 0x400200),
    Step::Peek(1, 15, 8),
    Step::Peek(1, 14, 1),
    Step::Poll(0, Answer::Done),
    Step::Call(0, 8, [1, 63, 63, 0, 0], Answer::Switched(1, 1, 63)),
    Step::Reg(0, 16, 0x400000),
    Step::Load(0, 0xfffff444, Answer::Word(0x400200)),
    Step::Load(0, 0xfffff448, Answer::Word(0)),
    Step::Peek(1, 14, 0),
    Step::Poll(0, Answer::Switched(1, 1, 35)),
];

#[test]
fn a_masked_line_stays_pending(rt: HostRuntime) -> Result<(), Fail> {
    check_script(&rt, 32, 1, &MASKED)
}

static ENDS: [Step; 13] = [
    Step::Call(0, 0, PAGES, Answer::Reply(0)),
    Step::Store(0, 0x406000, 0x407000),
    Step::Store(0, 0x407000, 0x408000),
    Step::Call(
        0,
        3,
        [0x401000, 0x10000000, 0x406000, 0, 0],
        Answer::Reply(3),
    ),
    Step::Store(0, 0x409000, 0x2a),
    Step::Call(
        0,
        5,
        [0x409000, 0x401000, 0x10000000, 3, 0],
        Answer::Reply(0),
    ),
    Step::Peek(7, 9, 0x401003),
    Step::Call(0, 1, [0x401000, 0, 0, 0, 0], Answer::Reply(0)),
    Step::Peek(7, 9, 0),
    Step::Peek(7, 6, 0),
    Step::Peek(6, 6, 0x1201f),
    Step::Load(0, 0x409000, Answer::Word(0x2a)),
    Step::Load(0, 0x406000, Answer::Word(0)),
];

#[test]
fn a_child_with_a_row_ends(rt: HostRuntime) -> Result<(), Fail> {
    let mem = CountingFrames::new(VecFrames::new(rt.alloc(), 32)?);
    let machine = check::<CountingFrames, Brand>(&rt, mem, 1, &ENDS, Blank::new(1));
    // The row's page comes back by a pair: the child's shadow is read, and the parent's is written. Nothing else here
    // lends a frame for writing.
    assert!(rt; machine.mem().loans() > 0);
    Ok(())
}
