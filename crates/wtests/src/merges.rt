//! The rows of three segments in order, which was written by hand.

use std::rc::Rc;
use std::test::Fail;
use wruns::{KeptRuns, RowRef, SegmentRun, merge, ordered, sort_run};
use wsegment::{Schema, Segment};
use wvalues::SortKey;

// By day, the last one first and missing ones at the end, and then by shop.
const KEYS: [SortKey; 2] = [
    SortKey {
        col: 0,
        desc: true,
        nulls_first: false,
    },
    SortKey {
        col: 1,
        desc: false,
        nulls_first: true,
    },
];

// The rows of the made segments in this order, by segment and place.
const IN_ORDER: [(u32, u32); 8] = [
    (2, 0),
    (0, 3),
    (0, 0),
    (1, 0),
    (0, 2),
    (2, 1),
    (2, 2),
    (0, 1),
];

#[test]
fn rows_of_three_segments_are_one_list(rt: HostRuntime) -> Result<(), Fail> {
    let schema = Schema::read(rt.alloc(), b"table sales\nday integer\nshop text\n")?;
    let east = Segment::read(rt.alloc(), &schema, b"day,shop\n5,b\n,a\n3,c\n5,a\n")?;
    let west = Segment::read(rt.alloc(), &schema, b"shop,day\nb,5\n")?;
    let north = Segment::read(rt.alloc(), &schema, b"day,shop\n9,z\n3,c\n,\n")?;
    let first = sort_run(rt.alloc(), &east, &KEYS)?;
    let second = sort_run(rt.alloc(), &west, &KEYS)?;
    let third = sort_run(rt.alloc(), &north, &KEYS)?;
    let sources = [
        SegmentRun::new(&east, &first),
        SegmentRun::new(&west, &second),
        SegmentRun::new(&north, &third),
    ];
    let merged = merge(rt.alloc(), &KEYS, &sources)?;
    let found = ordered(rt.alloc(), &KEYS, &sources)?;
    assert_eq!(rt; merged.len(), IN_ORDER.len());
    assert_eq!(rt; found.len(), IN_ORDER.len());
    for (place, (segment, row)) in IN_ORDER.iter().enumerate() {
        let wanted = RowRef {
            segment: *segment,
            row: *row,
        };
        assert_eq!(rt; merged[place], wanted);
        assert_eq!(rt; found[place], wanted);
    }
    Ok(())
}

// By one column, from the least value on.
fn by(col: usize) -> [SortKey; 1] {
    [SortKey {
        col,
        desc: false,
        nulls_first: false,
    }]
}

// The places of a run in order, none where it is not kept.
fn places<'a>(kept: &'a KeptRuns, keys: &[SortKey]) -> &'a [u32] {
    match kept.find(keys) {
        Some(run) => run.rows(),
        None => &[],
    }
}

// Four runs are kept, and also by what shares them. One that was let go is made again.
#[test]
fn the_first_of_five_runs_is_let_go(rt: HostRuntime) -> Result<(), Fail> {
    let schema = Schema::read(rt.alloc(), b"table sales\nday integer\nshop text\n")?;
    let segment = Segment::read(rt.alloc(), &schema, b"day,shop\n5,b\n3,c\n")?;
    let mut kept = KeptRuns::new(rt.alloc(), Rc::new(rt.alloc(), segment)?);
    for col in 0..5 {
        kept.make(&by(col))?;
    }
    let shared = kept.share()?;
    assert!(rt; shared.find(&by(0)).is_none());
    for col in 1..5 {
        assert!(rt; shared.find(&by(col)).is_some());
        assert!(rt; shared.source(&by(col)).is_some());
    }
    kept.make(&by(0))?;
    assert_eq!(rt; places(&kept, &by(0)), [1, 0].as_slice());
    Ok(())
}
