ghost use Rattle.std.specs.Prelude.{◌<◌};

use pip_base::{Frame, Rights, VPage};
use pip_tlb::Cache;
use std::process::Abort;

// What is done with a cache, and what it answers.
#[derive(Clone, Copy)]
enum Step {
    // A partition's page and right at a virtual page are filled in.
    Fill(u32, u32, u32, Rights),
    // A partition looks at a virtual page.
    Look(u32, u32, Option<(u32, Rights)>),
    // The places are emptied.
    Empty,
    // The counts of hits and misses.
    Counts(u64, u64),
}

// Does a step, and compares the answer.
fn check_step(rt: &impl Abort, cache: &mut Cache, step: Step) {
    match step {
        Step::Fill(part, v, page, rights) => {
            assert!(rt; part < 4096 && v < 4096 && page < 4096);
            cache.fill(Frame::new(part), VPage::new(v), Frame::new(page), rights);
        }
        Step::Look(part, v, answer) => {
            assert!(rt; part < 4096 && v < 4096);
            let held = cache.lookup(Frame::new(part), VPage::new(v));
            let numbers = held.map(|(page, rights)| (page.number(), rights));
            assert_eq!(rt; numbers, answer, "partition {part} at {v}");
        }
        Step::Empty => cache.empty(),
        Step::Counts(hits, misses) => {
            assert_eq!(rt; cache.counts(), (hits, misses));
        }
    }
}

#[test]
fn a_cache_answers_by_partition_and_virtual_page(rt: HostRuntime) {
    let mut cache = Cache::new();
    for step in [
        Step::Counts(0, 0),
        Step::Look(1, 0, None),
        Step::Fill(1, 70, 9, Rights::READ),
        // hits, and misses of another virtual page of its place, of another place, of another partition
        Step::Look(1, 70, Some((9, Rights::READ))),
        Step::Look(1, 70, Some((9, Rights::READ))),
        Step::Look(1, 6, None),
        Step::Look(1, 71, None),
        Step::Look(2, 70, None),
        Step::Counts(2, 4),
        // the last entry of a place stands there
        Step::Fill(1, 6, 10, Rights::WRITE),
        Step::Look(1, 70, None),
        Step::Look(1, 6, Some((10, Rights::WRITE))),
        Step::Fill(2, 6, 11, Rights::EXEC),
        Step::Look(1, 6, None),
        Step::Look(2, 6, Some((11, Rights::EXEC))),
        Step::Fill(2, 63, 12, Rights::READ),
        Step::Look(2, 6, Some((11, Rights::EXEC))),
        Step::Look(2, 63, Some((12, Rights::READ))),
        Step::Counts(6, 6),
        // emptied places hold nothing, and the counts go on
        Step::Empty,
        Step::Counts(6, 6),
        Step::Look(2, 6, None),
        Step::Look(2, 63, None),
        Step::Counts(6, 8),
    ] {
        check_step(&rt, &mut cache, step);
    }
}
