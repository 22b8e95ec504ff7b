//! Rows in order by runs that a set keeps.

use std::alloc::Global;
use std::process::Abort;
use std::test::*;
use wruns::RowRef;
use wsegment::Schema;
use wset::SegmentSet;
use wvalues::{Name, SortKey};

// By a column, ascending, nulls last.
fn by(col: usize) -> SortKey {
    SortKey {
        col,
        desc: false,
        nulls_first: false,
    }
}

// A set of the table `sales` that knows nothing.
fn sales(alloc: Global) -> Result<SegmentSet, Fail> {
    let schema = Schema::read(alloc, b"table sales\nday integer\namount integer\n")?;
    Ok(SegmentSet::new(alloc, schema))
}

fn name(number: u32) -> Result<Name, Fail> {
    let mut digits = [b'0'; 6];
    let mut left = number;
    for place in 0..6 {
        digits[5 - place] = b'0' + (left % 10) as u8;
        left /= 10;
    }
    let start = digits.iter().take_while(|digit| **digit == b'0').count();
    Ok(Name::read(b"east", &digits[start..])?)
}

// Two days in two segments, of which the second is later.
fn two_segments(alloc: Global) -> Result<SegmentSet, Fail> {
    let mut set = sales(alloc)?;
    set.take(name(1)?, b"day,amount\n3,1\n1,2\n")?;
    set.take(name(2)?, b"day,amount\n2,1\n1,1\n")?;
    Ok(set)
}

fn row(segment: u32, row: u32) -> RowRef {
    RowRef { segment, row }
}

// Whether the live segment of a number has the run of a column.
fn has(set: &SegmentSet, i: usize, col: usize) -> bool {
    if i < set.live_count() {
        set.has_run(i, &[by(col)])
    } else {
        false
    }
}

// Whether each live segment has the run of a column.
fn all_have(set: &SegmentSet, col: usize) -> bool {
    for i in 0..set.live_count() {
        if !has(set, i, col) {
            return false;
        }
    }
    true
}

#[test]
fn rows_are_given_by_keys_and_then_by_number(rt: HostRuntime) -> Result<(), Fail> {
    let mut set = two_segments(rt.alloc())?;
    assert!(rt; !has(&set, 0, 0));
    let rows = set.ordered(&[by(0)])?;
    assert_eq!(rt;
        rows.as_slice(),
        [row(0, 1), row(1, 1), row(1, 0), row(0, 0)].as_slice()
    );
    assert!(rt; all_have(&set, 0));
    assert!(rt; !has(&set, 1, 1));
    let again = set.ordered(&[by(1), by(0)])?;
    assert_eq!(rt;
        again.as_slice(),
        [row(1, 1), row(1, 0), row(0, 0), row(0, 1)].as_slice()
    );
    Ok(())
}

#[test]
fn of_five_runs_the_first_is_let_go(rt: HostRuntime) -> Result<(), Fail> {
    let mut set = two_segments(rt.alloc())?;
    for col in 0..5 {
        set.ordered(&[by(col)])?;
        set.ordered(&[by(1)])?;
    }
    assert!(rt; !all_have(&set, 0));
    for col in 1..5 {
        assert!(rt; all_have(&set, col));
    }
    Ok(())
}

// Two segments in order, of which the first is retired.
fn one_retired(alloc: Global) -> Result<SegmentSet, Fail> {
    let mut set = two_segments(alloc)?;
    set.ordered(&[by(0)])?;
    set.retire(name(1)?)?;
    Ok(set)
}

#[test]
fn a_retirement_leaves_the_order_of_a_set_that_never_knew(rt: HostRuntime) -> Result<(), Fail> {
    let mut set = one_retired(rt.alloc())?;
    assert_eq!(rt; set.live_count(), 1);
    assert!(rt; all_have(&set, 0));
    let rows = set.ordered(&[by(0)])?;
    assert_eq!(rt; rows.as_slice(), [row(0, 1), row(0, 0)].as_slice());
    Ok(())
}

#[test]
fn a_floor_over_all_leaves_no_row(rt: HostRuntime) -> Result<(), Fail> {
    let mut set = one_retired(rt.alloc())?;
    set.retire_to(name(2)?)?;
    assert_eq!(rt; set.live_count(), 0);
    assert!(rt; set.ordered(&[by(0)])?.is_empty());
    Ok(())
}

// Two segments, the first of which the set of two knows, with the run of another column.
fn two_others(alloc: Global) -> Result<SegmentSet, Fail> {
    let mut set = sales(alloc)?;
    set.take(name(2)?, b"day,amount\n2,1\n1,1\n")?;
    set.take(name(3)?, b"day,amount\n7,7\n")?;
    set.ordered(&[by(1)])?;
    Ok(set)
}

// Both sets, joined when both have runs.
fn joined(alloc: Global) -> Result<SegmentSet, Fail> {
    let mut set = two_segments(alloc)?;
    set.ordered(&[by(0)])?;
    set.join(&two_others(alloc)?)?;
    Ok(set)
}

#[test]
fn runs_outlive_a_join_and_a_copy(rt: HostRuntime) -> Result<(), Fail> {
    let ours = joined(rt.alloc())?;
    assert_eq!(rt; ours.live_count(), 3);
    assert!(rt; has(&ours, 0, 0) && has(&ours, 1, 0) && has(&ours, 2, 1));
    assert!(rt; !has(&ours, 1, 1));
    let mut copy = sales(rt.alloc())?;
    copy.join(&ours)?;
    assert!(rt; has(&copy, 0, 0) && has(&copy, 2, 1));
    Ok(())
}

// Takes a segment with the same row under each of these numbers.
fn take_each(set: &mut SegmentSet, first: u32, bytes: &[u8]) -> Result<(), Fail> {
    for number in 0..699 {
        set.take(name(first.saturating_add(2 * number))?, bytes)?;
    }
    Ok(())
}

// Retires each tenth of the even numbers, and disputes the odd one behind it.
fn retire_some(set: &mut SegmentSet) -> Result<(), Fail> {
    for number in 1..50 {
        set.retire(name(20 * number)?)?;
        set.dispute(name(20 * number + 1)?)?;
    }
    Ok(())
}

// Live names of even numbers, and then the odd ones between them, of which some are disputed: blocks are cut in two.
#[test]
fn runs_and_numbers_outlive_blocks_that_are_cut(rt: HostRuntime) -> Result<(), Fail> {
    let mut set = sales(rt.alloc())?;
    take_each(&mut set, 2, b"day,amount\n1,1\n")?;
    set.ordered(&[by(0)])?;
    take_each(&mut set, 1, b"day,amount\n2,2\n")?;
    retire_some(&mut set)?;
    let mut live = 0;
    for (live_name, _) in set.lives() {
        assert!(rt; live < set.live_count());
        assert_eq!(rt; set.live_at(live).0, live_name);
        assert_eq!(rt; set.has_run(live, &[by(0)]), live_name.number() % 2 == 0);
        live += 1;
    }
    assert_eq!(rt; live, set.live_count());
    assert_eq!(rt; set.ordered(&[by(0)])?.len(), live);
    Ok(())
}
