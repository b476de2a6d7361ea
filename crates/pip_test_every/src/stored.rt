ghost use Rattle.std.specs.Prelude.{◌<◌};

use crate::rows::Rows;
use pip_search::{Extent, come_again, explore};
use std::alloc::{AllocError, Global};
use std::test::Fail;

// How many keys are found, if the search closes and, where `again`, each is read back and found again.
fn count_rows(
    alloc: Global,
    system: &mut Rows,
    limit: u32,
    again: bool,
) -> Result<Option<usize>, AllocError>
    requires limit { 0 < limit }
{
    let mut start = Vec::new(alloc);
    system.fill(0, 0, &mut start)?;
    let (search, verdict) = explore(system, alloc, &start, 10_000, limit)?;
    let Extent::Closed { .. } = verdict else {
        return Ok(None);
    };
    let count = search.visits.len();
    if !again {
        return Ok(Some(count));
    }
    match come_again(&search, system, alloc, &start, &[5], 2)? {
        Some(0) => Ok(Some(count)),
        Some(_) | None => Ok(None),
    }
}

// How many keys of two numbers up to `last` are found, read back and found again.
fn read_rows(
    alloc: Global,
    last: u32,
    first: u32,
    second: u32,
) -> Result<Option<usize>, AllocError> {
    let mut system = Rows {
        last,
        first,
        second,
    };
    count_rows(alloc, &mut system, 5000, true)
}

#[test]
fn keys_of_each_length_around_a_block_are_kept(rt: HostRuntime) -> Result<(), Fail> {
    for second in 1..51u32 {
        assert_eq!(rt; read_rows(rt.alloc(), 2, 1, second)?, Some(9usize));
    }
    for first in 0..51u32 {
        let count = if first == 0 { 1usize } else { 3usize };
        assert_eq!(rt; read_rows(rt.alloc(), 2, first, 0)?, Some(count));
    }
    Ok(())
}

#[test]
fn keys_of_new_blocks_alone_are_kept_whole(rt: HostRuntime) -> Result<(), Fail> {
    assert_eq!(rt; read_rows(rt.alloc(), 40, 12, 12)?, Some(1681usize));
    assert_eq!(rt; read_rows(rt.alloc(), 40, 12, 13)?, Some(1681usize));
    Ok(())
}

#[test]
fn equal_blocks_of_other_keys_are_not_mixed_up(rt: HostRuntime) -> Result<(), Fail> {
    assert_eq!(rt; read_rows(rt.alloc(), 30, 24, 24)?, Some(961usize));
    assert_eq!(rt; read_rows(rt.alloc(), 30, 48, 24)?, Some(961usize));
    assert_eq!(rt; read_rows(rt.alloc(), 30, 25, 47)?, Some(961usize));
    Ok(())
}

#[test]
fn many_keys_of_few_blocks_are_kept(rt: HostRuntime) -> Result<(), Fail> {
    let mut system = Rows {
        last: 99,
        first: 24,
        second: 24,
    };
    let count = count_rows(rt.alloc(), &mut system, 20_000, false)?;
    assert_eq!(rt; count, Some(10_000usize));
    Ok(())
}
