ghost use Rattle.std.specs.Prelude.{◌<◌, ◌≤◌, length};

use crate::counters::Counters;
use pip_search::{
    Coming, Extent, Part, Reached, Run, Search, check_part, come_again, explore, must_come,
    reached, runs, runs_to,
};
use std::alloc::{AllocError, Global};
use std::test::Fail;

// Searches two counters below `bound`, from 0 and 0, and answers with the runs of the last label's way, too.
fn search_counters(
    alloc: Global,
    bound: u32,
    seed: u64,
    most: u32,
    limit: u32,
) -> Result<(Search, Extent, Vec<Run>), AllocError>
    requires bound { 0 < bound }
    requires limit { 0 < limit }
{
    let start = [0u32, 0];
    let mut system = Counters { bound, seed };
    let (search, verdict) = explore(&mut system, alloc, &start, most, limit)?;
    if search.found.len() == 0 {
        return Ok((search, verdict, Vec::new(alloc)));
    }
    let way = runs(alloc, &search, search.found.len() - 1)?;
    Ok((search, verdict, way))
}

#[test]
fn two_counters_are_closed(rt: HostRuntime) -> Result<(), Fail> {
    let (search, verdict, way) = search_counters(rt.alloc(), 3, 0, 100, 100)?;
    assert_eq!(rt; verdict, Extent::Closed { depth: 4 });
    assert_eq!(rt; search.visits.len(), 9usize);
    assert_eq!(rt; search.found.len(), 2usize);
    let first = &search.found[0];
    assert_eq!(rt; (first.at, first.choice, first.depth), (3u32, 0u32, 3u32));
    let both = [
        Run {
            choice: 0,
            count: 2,
        },
        Run {
            choice: 1,
            count: 2,
        },
    ];
    assert_eq!(rt; way.as_slice(), both.as_slice());
    Ok(())
}

#[test]
fn a_search_ends_at_its_depth_and_at_its_limit(rt: HostRuntime) -> Result<(), Fail> {
    let (search, verdict, _) = search_counters(rt.alloc(), 3, 1, 2, 100)?;
    assert_eq!(rt; verdict, Extent::Within { depth: 2 });
    assert_eq!(rt; search.visits.len(), 6usize);
    assert!(rt; verdict.covers(2) && !verdict.covers(3));
    let (search, verdict, _) = search_counters(rt.alloc(), 3, 0xffffffffffffffff, 100, 5)?;
    assert_eq!(rt; verdict, Extent::Stopped { depth: 1 });
    assert_eq!(rt; search.visits.len(), 5usize);
    Ok(())
}

#[test]
fn words_of_two_bytes_are_kept(rt: HostRuntime) -> Result<(), Fail> {
    let (search, verdict, way) = search_counters(
        rt.alloc(),
        150,
        0x123456789abcdef0,
        1000,
        22_500,
    )?;
    assert_eq!(rt; verdict, Extent::Closed { depth: 298 });
    assert_eq!(rt; search.visits.len(), 22_500usize);
    let both = [
        Run {
            choice: 0,
            count: 149,
        },
        Run {
            choice: 1,
            count: 149,
        },
    ];
    assert_eq!(rt; way.as_slice(), both.as_slice());
    Ok(())
}

// Checks a part of two counters below 3.
fn check_counters(alloc: Global, way: &[u32], marks: &[u8]) -> Result<Option<Part>, AllocError>
    requires way { length way.now < 9 }
    requires marks { length marks.now < 99 }
{
    let start = [0u32, 0];
    let mut system = Counters { bound: 3, seed: 0 };
    check_part(&mut system, alloc, &start, way, marks)
}

// A key of two small words.
fn key_of(alloc: Global, first: u32, second: u32, depth: u32) -> Result<Reached, AllocError> {
    reached(alloc, &[first, second], depth)
}

#[test]
fn parts_of_two_counters_are_checked(rt: HostRuntime) -> Result<(), Fail> {
    let row = check_counters(rt.alloc(), &[], &[1, 0, 1, 0, 0, 0])?.expect(&rt, "a part");
    assert_eq!(rt;
        (row.keys.len(), row.asked.len(), row.found.len()),
        (3usize, 4usize, 1usize)
    );
    let rest = check_counters(rt.alloc(), &[1], &[1, 1, 1, 1, 0, 0, 0, 1])?.expect(&rt, "a part");
    assert_eq!(rt;
        (rest.keys.len(), rest.asked.len(), rest.found.len()),
        (6usize, 7usize, 2usize)
    );
    assert_eq!(rt; rest.keys[5].depth, 4u32);
    let far = check_counters(rt.alloc(), &[0, 1, 1], &[])?.expect(&rt, "a part");
    let end = key_of(rt.alloc(), 1, 2, 3)?;
    assert_eq!(rt; far.keys.len(), 1usize);
    assert_eq!(rt; far.keys[0].key.as_slice(), end.key.as_slice());
    assert_eq!(rt; far.keys[0].depth, end.depth);
    assert!(rt; check_counters(rt.alloc(), &[0, 2], &[])?.is_none());
    Ok(())
}

// The visit of two counters below 3 after which a label can't come by the first choices alone, and the way to it.
fn lost_by(alloc: Global, label: &[u8], width: u32) -> Result<Option<(usize, Vec<Run>)>, AllocError>
    requires some { 0 < width }
    requires width { width ≤ 2 }
{
    let start = [0u32, 0];
    let mut system = Counters { bound: 3, seed: 0 };
    let (search, verdict) = explore(&mut system, alloc, &start, 100, 100)?;
    let Extent::Closed { .. } = verdict else {
        return Ok(None);
    };
    let Some(place) = come_again(&search, &mut system, alloc, &start, label, width)? else {
        return Ok(None);
    };
    Ok(Some((place, runs_to(alloc, &search, place)?)))
}

#[test]
fn a_label_comes_again_or_is_lost(rt: HostRuntime) -> Result<(), Fail> {
    let alloc = rt.alloc();
    assert!(rt; lost_by(alloc, &[7], 1)?.is_none());
    assert!(rt; lost_by(alloc, &[9], 2)?.is_none());
    assert!(rt; lost_by(alloc, &[9], 1)?.is_some_and(|lost| lost.0 == 0 && lost.1.is_empty()));
    assert!(rt; lost_by(alloc, &[5], 2)?.is_some());
    Ok(())
}

// What is said of a label of two counters below 3, where choices have these classes, if the search closes.
fn coming(alloc: Global, label: &[u8], classes: &[u32]) -> Result<Option<Coming>, AllocError>
    requires classes { length classes.now ≤ 2 }
{
    let start = [0u32, 0];
    let mut system = Counters { bound: 3, seed: 0 };
    let (search, verdict) = explore(&mut system, alloc, &start, 100, 100)?;
    let Extent::Closed { .. } = verdict else {
        return Ok(None);
    };
    let said = must_come(&search, &mut system, alloc, &start, label, classes)?;
    Ok(Some(said))
}

// By how many windows of each class it comes, or none.
fn windows(alloc: Global, label: &[u8], classes: &[u32]) -> Result<Vec<u32>, AllocError>
    requires classes { length classes.now ≤ 2 }
{
    match coming(alloc, label, classes)? {
        Some(Coming::Within { counts }) => Ok(counts),
        Some(Coming::Avoided { .. }) | None => Ok(Vec::new(alloc)),
    }
}

// The loop that avoids it, and the visit where it begins.
fn avoided(
    alloc: Global,
    label: &[u8],
    classes: &[u32],
) -> Result<Option<(usize, Vec<u32>)>, AllocError>
    requires classes { length classes.now ≤ 2 }
{
    match coming(alloc, label, classes)? {
        Some(Coming::Avoided { place, choices }) => Ok(Some((place, choices))),
        Some(Coming::Within { .. }) | None => Ok(None),
    }
}

#[test]
fn a_label_comes_or_a_loop_avoids_it(rt: HostRuntime) -> Result<(), Fail> {
    let alloc = rt.alloc();
    assert_eq!(rt;
        windows(alloc, &[7], &[1, 2])?.as_slice(),
        [0, 3, 0].as_slice()
    );
    assert_eq!(rt;
        windows(alloc, &[7], &[1, 1])?.as_slice(),
        [0, 5].as_slice()
    );
    assert_eq!(rt; windows(alloc, &[7], &[0, 0])?.as_slice(), [5].as_slice());
    assert_eq!(rt; windows(alloc, &[7], &[])?.as_slice(), [5].as_slice());
    assert_eq!(rt;
        windows(alloc, &[7], &[0, 1])?.as_slice(),
        [0, 3].as_slice()
    );
    let (place, choices) = avoided(alloc, &[9], &[1, 2])?.expect(&rt, "a loop");
    assert_eq!(rt; place, 0usize);
    assert_eq!(rt; choices.as_slice(), [0, 1, 0, 0, 1, 1].as_slice());
    let (place, choices) = avoided(alloc, &[5], &[1, 0])?.expect(&rt, "a loop");
    assert_eq!(rt; place, 0usize);
    assert_eq!(rt; choices.as_slice(), [0, 0, 0].as_slice());
    assert!(rt; avoided(alloc, &[9], &[0, 0])?.is_some());
    Ok(())
}
