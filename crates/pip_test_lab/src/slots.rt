//! Tests of the command `slots`.
ghost use Rattle.std.specs.Prelude.{◌≤◌, ◌<◌, ◌+◌, ◌*◌, ◌^◌};

use crate::ends::{check_end, image_of};
use arrayvec::ArrayVec;
use pip_io::{MemSink, MemSource};
use pip_lab_commands::slots;
use pip_slots::{RoundSlot, in_turn};
use std::process::Abort;
use std::test::Fail;

// Children of an image, the turns of the slots that they have in turn, and the rounds, where these calls of the sink
// fail, and the status and the text that are wanted.
fn check(
    rt: &(impl Abort + AllocGlobal),
    lines: &str,
    words: (u32, u32, u32),
    fails: &[u32],
    status: u8,
    text: &str,
) -> Result<(), Fail>
    requires least { 1 ≤ words.0 }
    requires most { words.0 ≤ 8 }
    requires steps { words.2 * (words.0 * (words.1 + 2)) < 2 ^ 32 }
{
    let image = image_of(rt, lines)?;
    let mut source = MemSource::new(image.bytes(), &[]);
    let mut sink = MemSink::new(rt.alloc(), 16384, fails)?;
    let ended = slots(
        rt.alloc(),
        words.0,
        words.2,
        in_turn(words.0, words.1),
        &mut source,
        &mut sink,
    );
    let written = sink.bytes();
    check_end(
        rt,
        lines,
        &ended,
        written,
        status,
        text.as_bytes(),
        status == 0,
    );
    Ok(())
}

#[test]
fn a_slot_ends_by_a_line(rt: HostRuntime) -> Result<(), Fail> {
    let image = ".frames 26\n.cpus 1\n.page 0x00400000\nbeq r0 r0 -1\n";
    let text =
        "image 26 1 0 1\nbuilt 0 0x00401000\n0 0 call 8 switch 1 13 63\n4 0 switch 13 1 32\n5 0 call 8 switch 1 13 63\n9 0 switch 13 1 32\nend 10\n";
    check(&rt, image, (1, 3, 2), &[], 0, text)?;
    check(&rt, image, (1, 3, 2), &[1], 4, "")
}

#[test]
fn a_slot_that_its_child_leaves_is_as_long(rt: HostRuntime) -> Result<(), Fail> {
    let image = ".frames 39\n.cpus 1\n.page 0x00400000\nint 64\n.page 0x00401000\nldw r1 r0 0\n";
    let text =
        "image 39 1 0 2\nbuilt 0 0x00402000\nbuilt 1 0x0040e000\n0 0 call 8 switch 1 14 63\n1 0 switch 14 1 64\n5 0 call 8 switch 1 26 63\n6 0 switch 26 1 14\nend 10\n";
    check(&rt, image, (2, 3, 1), &[], 0, text)
}

#[test]
fn a_child_that_cannot_be_entered_keeps_its_slots(rt: HostRuntime) -> Result<(), Fail> {
    let image =
        ".frames 26\n.cpus 1\n.page 0x00400000\nlih r1 65535\nori r1 r1 61692\nstw r0 r1 0\nint 64\n";
    let text =
        "image 26 1 0 1\nbuilt 0 0x00401000\n0 0 call 8 switch 1 13 63\n4 0 switch 13 1 64\n11 0 call 8 reply 16 0x00000000\nend 22\n";
    check(&rt, image, (1, 9, 2), &[], 0, text)
}

#[test]
fn frames_may_be_too_few(rt: HostRuntime) -> Result<(), Fail> {
    let image = ".frames 25\n.cpus 1\n.page 0x00400000\nint 64\n";
    check(&rt, image, (1, 9, 1), &[], 8, "short 12 13\n")
}

// The lines of the second child's three slots.
const OWN_FIRST: &str = "7 0 call 8 switch 1 26 63\n9 0 out 0x00400000\n13 0 switch 26 1 32\n";

const OWN_SECOND: &str =
    "21 0 call 8 switch 1 26 63\n22 0 out 0x00400000\n26 0 out 0x00400004\n27 0 switch 26 1 32\n";

const OWN_THIRD: &str = "35 0 call 8 switch 1 26 63\n39 0 out 0x00400008\n41 0 switch 26 1 32\n";

// Compares three rounds of slots of two children. The first has this program, and writes these lines in its slots. The
// second shows the first word of its block for 63, where it is saved.
fn check_beside(
    rt: &(impl Abort + AllocGlobal),
    program: &str,
    first: &str,
    second: &str,
    third: &str,
) -> Result<(), Fail> {
    let image = format!(in rt.alloc();
        ".frames 39\n.cpus 1\n.page 0x00400000\n{program}.page 0x00401000\nldw r5 r0 -3072\nout r5\naddi r1 r1 1\nbeq r0 r0 -4\n"
    )?;
    let text = format!(in rt.alloc();
        "image 39 1 0 2\nbuilt 0 0x00402000\nbuilt 1 0x0040e000\n{first}{OWN_FIRST}{second}{OWN_SECOND}{third}{OWN_THIRD}end 42\n"
    )?;
    check(rt, image.as_str(), (2, 5, 3), &[], 0, text.as_str())
}

// Does that for each row: the program, and the lines of its three slots.
fn check_all_beside(
    rt: &(impl Abort + AllocGlobal),
    rows: &[(&str, &str, &str, &str)],
) -> Result<(), Fail> {
    for (program, first, second, third) in rows {
        check_beside(rt, program, first, second, third)?;
    }
    Ok(())
}

static COMMON: [(&str, &str, &str, &str); 2] = [
    (
        "beq r0 r0 -1\n",
        "0 0 call 8 switch 1 14 63\n6 0 switch 14 1 32\n",
        "14 0 call 8 switch 1 14 63\n20 0 switch 14 1 32\n",
        "28 0 call 8 switch 1 14 63\n34 0 switch 14 1 32\n",
    ),
    (
        "int 64\nbeq r0 r0 -2\n",
        "0 0 call 8 switch 1 14 63\n1 0 switch 14 1 64\n",
        "14 0 call 8 switch 1 14 63\n16 0 switch 14 1 64\n",
        "28 0 call 8 switch 1 14 63\n30 0 switch 14 1 64\n",
    ),
];

#[test]
fn two_machines_have_a_childs_slots_in_common(rt: HostRuntime) -> Result<(), Fail> {
    check_all_beside(&rt, &COMMON)
}

static PLANTED: [(&str, &str, &str, &str); 2] = [
    (
        "sys 3\nsys 8\nout r1\nstw r0 r0 0\n",
        "0 0 call 8 switch 1 14 63\n1 0 call 3 reply 3 0x00000000\n2 0 call 8 reply 18 0x00000000\n3 0 out 0x00000000\n4 0 switch 14 1 17\n",
        "14 0 call 8 switch 1 14 63\n15 0 switch 14 1 17\n",
        "28 0 call 8 switch 1 14 63\n29 0 switch 14 1 17\n",
    ),
    (
        "",
        "0 0 call 8 switch 1 14 63\n1 0 switch 14 1 6\n",
        "14 0 call 8 switch 1 14 63\n15 0 switch 14 1 6\n",
        "28 0 call 8 switch 1 14 63\n29 0 switch 14 1 6\n",
    ),
];

#[test]
fn a_planted_sibling_does_not_change_a_childs_slots(rt: HostRuntime) -> Result<(), Fail> {
    check_all_beside(&rt, &PLANTED)
}

#[test]
fn a_child_has_the_slots_that_a_round_gives_it(rt: HostRuntime) -> Result<(), Fail> {
    let lines = ".frames 39\n.cpus 1\n.page 0x00400000\nint 64\n.page 0x00401000\nldw r1 r0 0\n";
    let image = image_of(&rt, lines)?;
    let mut source = MemSource::new(image.bytes(), &[]);
    let mut sink = MemSink::new(rt.alloc(), 16384, &[])?;
    let mut round = ArrayVec::new();
    round.push(RoundSlot { child: 1, turns: 1 });
    round.push(RoundSlot { child: 0, turns: 2 });
    round.push(RoundSlot { child: 1, turns: 0 });
    let ended = slots(rt.alloc(), 2, 2, round, &mut source, &mut sink);
    let text =
        "image 39 1 0 2\nbuilt 0 0x00402000\nbuilt 1 0x0040e000\n0 0 call 8 switch 1 26 63\n1 0 switch 26 1 14\n3 0 call 8 switch 1 14 63\n4 0 switch 14 1 64\n7 0 call 8 switch 1 26 63\n8 0 switch 26 1 32\n9 0 call 8 switch 1 26 63\n10 0 switch 26 1 14\n12 0 call 8 switch 1 14 63\n13 0 switch 14 1 6\n16 0 call 8 switch 1 26 63\n17 0 switch 26 1 32\nend 18\n";
    check_end(&rt, lines, &ended, sink.bytes(), 0, text.as_bytes(), true);
    Ok(())
}
