ghost use Rattle.std.specs.Prelude.{◌≡◌, ◌<◌, ◌^◌, length, slice_index};
ghost use Rattle.wslide.specs.Counts.{IsCount, counts_joined};
ghost use Rattle.wslide.specs.Lawful.{count_laws};
ghost use Rattle.wtests_windows.specs.AffineMaps.{IsMap, maps_joined, map_laws};

use std::alloc::{AllocError, Global};
use std::cell::Cell;
use std::process::Abort;
use std::test::Fail;
use wframe::{
    Frame, FrameBound, FrameExclusion, FrameMode, KeyRows, Partitions, Span, are_in_order,
};
use wslide::{
    CountRows, Fold, FoldTree, Meter, frame_folds, height_is_least, most_is_small, plain_folds,
};
use wvalues::{SortKey, Value, Whole};

const BY_KEY: SortKey = SortKey {
    col: 0,
    desc: false,
    nulls_first: false,
};

// What the folds of frames came to, and how many joins they took; and the same folds by a walk.
#[derive(Drop)]
struct Outcome<P> {
    folds: Vec<P>,
    joins: u64,
    walked: Vec<P>,
}

// The folds of the frames of one partition whose rows stand by these rising keys, in both ways.
fn both_folds<F: Fold>(
    rt: &impl Abort,
    alloc: Global,
    cells: &[&Value],
    frame: Frame,
    fold: &F,
    meter: &mut F::Meter,
) -> Result<Outcome<F::Part>, Fail>
    requires rows { length cells.now ≡ F.rows fold.now }
    requires few { length cells.now < 2 ^ 16 }
    requires fresh { F.count meter.old ≡ 0 }
{
    let by_key = [BY_KEY];
    let values = KeyRows::new(&[], &[], cells.len());
    let keys = KeyRows::new(cells, &by_key, cells.len());
    assert!(rt; are_in_order(&values, &keys));
    let partitions = Partitions::build(alloc, &values, keys, frame)?;
    assert_eq!(rt; partitions.count(), 1);
    let frames = partitions.partition(0);
    assert_eq!(rt; frames.count(), cells.len());
    most_is_small();
    let folds = frame_folds(alloc, fold, &frames, meter)?;
    let joins = fold.joins(meter);
    let walked = plain_folds(alloc, fold, &frames, meter)?;
    Ok(Outcome {
        folds,
        joins,
        walked,
    })
}

const ALL_ROWS: Frame = Frame {
    mode: FrameMode::Rows,
    start: FrameBound::UnboundedPreceding,
    end: FrameBound::UnboundedFollowing,
    exclusion: FrameExclusion::NoOthers,
};

const ALL_BUT_TIES: Frame = Frame {
    mode: FrameMode::Rows,
    start: FrameBound::UnboundedPreceding,
    end: FrameBound::UnboundedFollowing,
    exclusion: FrameExclusion::Ties,
};

const NEAR_BUT_GROUP: Frame = Frame {
    mode: FrameMode::Rows,
    start: FrameBound::Preceding(3),
    end: FrameBound::Following(2),
    exclusion: FrameExclusion::Group,
};

// What is lent of some values.
fn lent<'a>(alloc: Global, values: &'a [Value]) -> Result<Vec<&'a Value>, AllocError> {
    values.iter().collect(alloc)
}

// Keys of so many rows, of which each ten are peers.
fn tens(alloc: Global, rows: u16) -> Result<Vec<Value>, AllocError> {
    let mut keys = Vec::new(alloc);
    for row in 0..rows {
        keys.push(Value::Int(Whole::from((row / 10) as i64)))?;
    }
    Ok(keys)
}

/// How many joins the folds below have made.
#[derive(Drop)]
struct Joins {
    count: u64,
}

/// Counts rows, and in a cell its joins.
#[derive(Drop)]
struct Tally {
    rows: usize,
    joins: Cell<u64>,
}

impl Fold for Tally {
    type Part = u64;

    type Meter = Joins;

    ghost is_part = { λ _. IsCount };

    ghost neutral = { λ _. 0 };

    ghost joined = { λ _. counts_joined };

    ghost rows = { λ tally. tally.rows };

    ghost part_at = { λ _ _. 1 };

    ghost count = { λ joins. joins.count };

    ghost laws = { λ _. count_laws };

    fn joins(&self, meter: &Joins) -> u64 {
        meter.count
    }

    fn unit(&self) -> u64 {
        0
    }

    fn of(&self, _row: usize) -> u64 {
        1
    }

    fn join(&self, meter: &mut Joins, left: u64, right: u64) -> u64 {
        meter.count += 1;
        self.joins.set(self.joins.get().wrapping_add(1));
        left.wrapping_add(right)
    }
}

#[test]
fn a_join_for_each_that_the_meter_shows(rt: HostRuntime) -> Result<(), Fail> {
    let alloc = rt.alloc();
    let keys_values = tens(alloc, 2000)?;
    let keys = lent(alloc, &keys_values)?;
    assert_eq!(rt; keys.len(), 2000);
    for (frame, size, most) in [(ALL_ROWS, 2000, 6_000), (ALL_BUT_TIES, 1991, 16_000)] {
        let tally = Tally {
            rows: keys.len(),
            joins: Cell::new(0),
        };
        let mut meter = Joins { count: 0 };
        let outcome = both_folds(&rt, alloc, &keys, frame, &tally, &mut meter)?;
        assert_eq!(rt; outcome.folds.len(), 2000);
        assert!(rt; outcome.folds.iter().all(|&count| count == size));
        assert_eq!(rt; outcome.folds.as_slice(), outcome.walked.as_slice());
        assert!(rt; outcome.joins <= most);
        assert_eq!(rt; tally.joins.get(), meter.count);
    }
    Ok(())
}

#[test]
fn one_row_takes_few_joins(rt: HostRuntime) -> Result<(), Fail> {
    let alloc = rt.alloc();
    let keys_values = tens(alloc, 1)?;
    let keys = lent(alloc, &keys_values)?;
    assert_eq!(rt; keys.len(), 1);
    for (frame, most) in [(ALL_ROWS, 3), (ALL_BUT_TIES, 8)] {
        let count = CountRows {
            rows: 1,
            filter: None,
        };
        let mut meter = Meter::new();
        let outcome = both_folds(&rt, alloc, &keys, frame, &count, &mut meter)?;
        assert_eq!(rt; outcome.folds.as_slice(), [1].as_slice());
        assert!(rt; outcome.joins <= most);
    }
    Ok(())
}

// The map of a row.
fn map_at(scales: &[u64], shifts: &[u64], row: usize) -> (u64, u64)
    requires scale { row < length scales.now }
    requires shift { row < length shifts.now }
    ensures value { result ≡ (slice_index scales.now row, slice_index shifts.now row) }
    ensures map { IsMap result }
{
    let scale = scales[row];
    let shift = shifts[row];
    (scale, shift)
}

/// The maps of x to `scale * x + shift`, one after another.
#[derive(Drop)]
struct Maps<'a> {
    scales: &'a [u64],
    shifts: &'a [u64],
    ghost one_each: { length shifts.now ≡ length scales.now },
}

impl<'a> Fold for Maps<'a> {
    type Part = (u64, u64);

    type Meter = Joins;

    ghost is_part = { λ _. IsMap };

    ghost neutral = { λ _. (1, 0) };

    ghost joined = { λ _. maps_joined };

    ghost rows = { λ maps. length maps.scales.now };

    ghost part_at = { λ maps row. (slice_index maps.scales.now row, slice_index maps.shifts.now row) };

    ghost count = { λ joins. joins.count };

    ghost laws = { λ _. map_laws };

    fn joins(&self, meter: &Joins) -> u64 {
        meter.count
    }

    fn unit(&self) -> (u64, u64) {
        (1, 0)
    }

    fn of(&self, row: usize) -> (u64, u64) {
        map_at(self.scales, self.shifts, row)
    }

    fn join(&self, meter: &mut Joins, left: (u64, u64), right: (u64, u64)) -> (u64, u64) {
        meter.count += 1;
        (
            left.0.wrapping_mul(right.0),
            left.0.wrapping_mul(right.1).wrapping_add(left.1),
        )
    }
}

#[test]
fn maps_one_after_another(rt: HostRuntime) -> Result<(), Fail> {
    let alloc = rt.alloc();
    let keys_values = tens(alloc, 2000)?;
    let keys = lent(alloc, &keys_values)?;
    let scales: Vec<u64> = (0..2000u64)
        .map(|row| row.wrapping_mul(0x9e37_79b9_7f4a_7c15) | 1)
        .collect(alloc)?;
    let shifts: Vec<u64> = (0..2000u64)
        .map(|row| row.wrapping_mul(0xbf58_476d_1ce4_e5b9))
        .collect(alloc)?;
    assert_eq!(rt; keys.len(), 2000);
    assert_eq!(rt; scales.len(), 2000);
    assert_eq!(rt; shifts.len(), 2000);
    for frame in [ALL_ROWS, ALL_BUT_TIES, NEAR_BUT_GROUP] {
        let maps = Maps {
            scales: &scales,
            shifts: &shifts,
        };
        let mut meter = Joins { count: 0 };
        let outcome = both_folds(&rt, alloc, &keys, frame, &maps, &mut meter)?;
        assert_eq!(rt; outcome.folds.len(), 2000);
        assert_eq!(rt; outcome.folds.as_slice(), outcome.walked.as_slice());
    }
    Ok(())
}

#[test]
fn a_span_of_a_tree(rt: HostRuntime) -> Result<(), Fail> {
    height_is_least();
    let alloc = rt.alloc();
    let maps = Maps {
        scales: &[],
        shifts: &[],
    };
    let mut meter = Joins { count: 0 };
    let parts = [(2, 1), (3, 4), (5, 0), (7, 1), (1, 6)].to_vec(alloc)?;
    let tree = FoldTree::build(alloc, &maps, &mut meter, parts)?;
    let middle = Span { from: 1, to: 4 };
    assert_eq!(rt; tree.fold(&maps, &mut meter, middle), (105, 19));
    assert!(rt; meter.count <= 5 + 9);
    Ok(())
}
