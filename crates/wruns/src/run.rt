//! A segment's rows in the order of keys.
ghost use Rattle.std.specs.Prelude.{◌≡◌, ◌<◌, ◌≤◌, ◌^◌, ◌+◌, ◌*◌, [], ◌∷◌, true, All, IfOk, IfSome, length, map, slice_index_or};
ghost use Rattle.wvalues.specs.Meaning.{meaning, Null};
ghost use Rattle.wruns.specs.Cuts.{between, cut, pieces_of, start_of, AreEnds, AreEndsOf};
ghost use Rattle.wcodes.specs.CodedRows.{code_at};
ghost use Rattle.wruns.specs.Grouping.{AreGrouped, HaveOneCode, TellSharedFrom};
ghost use Rattle.wruns.specs.Runs.{joined, keys_at, run_of, IsGroup, IsRunOf};

use crate::key_columns::{CodedNumbers, Columnar, coded_order_of};
use crate::segment_cells::cell_at;
use std::alloc::{AllocError, Global};
use std::marker::Model;
use wsegment::Segment;
use wvalues::{SortKey, Value};

/// The places of a segment's rows by keys, and then by place, in groups of rows that share their keys. Each place takes 4
/// bytes. Where groups end is kept if they have two rows or more on the average, and else each row is a group of its own.
#[derive(Drop)]
pub struct Run {
    keys: Vec<SortKey>,
    rows: Vec<u32>,
    ends: Option<Vec<u32>>,
}

impl Model for Run {
    ghost use Rattle.wruns.specs.Runs.{RunParts};

    ghost Value = { RunParts };

    ghost use Rattle.wruns.specs.RunInside.{parts_of, HasEnds};

    ghost view = { parts_of };

    ghost invariant = { HasEnds };
}

// Where the group of a number begins.
fn start_of(ends: &[u32], group: usize) -> usize
    requires { group ≤ length ends.now }
    ensures { result ≡ start_of 0 ends.now group }
{
    if group == 0 {
        0
    } else {
        ends[group - 1] as usize
    }
}

// A row alone.
fn single(rows: &[u32], number: usize) -> &[u32]
    requires { number < length rows.now }
    ensures { result.now ≡ slice_index_or (map (λ x. x ∷ []) rows.now) number [] }
{
    &rows[number..number + 1]
}

// The piece of a number, of rows that are cut at these ends.
fn piece<'a>(rows: &'a [u32], ends: &[u32], number: usize) -> &'a [u32]
    requires ends { AreEnds 0 ends.now (length rows.now) }
    requires number { number < length ends.now }
    ensures { result.now ≡ slice_index_or (cut 0 ends.now rows.now) number [] }
{
    &rows[start_of(ends, number)..ends[number] as usize]
}

impl Run {
    /// The keys that it is ordered by.
    pub fn keys(&self) -> &[SortKey]
        ensures { result.now ≡ self.now.keys }
    {
        self.keys.as_slice()
    }

    /// The places of the rows, in order.
    pub fn rows(&self) -> &[u32]
        ensures { result.now ≡ joined self.now.groups }
    {
        self.rows.as_slice()
    }

    /// How many groups there are.
    pub fn groups(&self) -> usize
        ensures { result ≡ length self.now.groups }
    {
        match &self.ends {
            None => self.rows.len(),
            Some(ends) => ends.len(),
        }
    }

    /// The places of the group of a number, from 0 on.
    pub fn group(&self, number: usize) -> &[u32]
        requires { number < length self.now.groups }
        ensures { result.now ≡ slice_index_or self.now.groups number [] }
    {
        match &self.ends {
            None => single(&self.rows, number),
            Some(ends) => piece(&self.rows, ends, number),
        }
    }
}

// The rows of a segment.
#[derive(Clone, Copy)]
struct SegmentColumns<'a> {
    segment: &'a Segment,
    null: &'a Value,
    ghost missing: { meaning null.now ≡ Null },
}

impl<'a> Columnar for SegmentColumns<'a> {
    ghost rows = { λ t. t.segment.now.rows };

    fn count(&self) -> usize {
        self.segment.rows()
    }

    fn column(&self, alloc: Global, col: usize) -> Result<Vec<&Value>, AllocError> {
        let mut column = Vec::with_capacity(alloc, self.segment.rows())?;
        for row in 0..self.segment.rows() {
            column.push(cell_at(self.segment, row, col, self.null))?;
        }
        Ok(column)
    }
}

// Whether two numbers have one code, or none.
fn have_one_code(codes: &[u32], a: usize, b: usize) -> bool
    ensures { result ≡ true → code_at codes.now a ≡ code_at codes.now b }
{
    codes.get(a) == codes.get(b)
}

// Whether two numbers have one code in each list.
fn share_codes(codes: &[Vec<u32>], a: usize, b: usize) -> bool
    ensures { result ≡ true → HaveOneCode a b codes.now }
{
    for list in codes {
        if !have_one_code(list, a, b) {
            return false;
        }
    }
    true
}

/// A segment's rows beside codes by number, where the first row of the segment has this one: rows of which each list has one code
/// share their keys.
#[derive(Clone, Copy)]
pub(crate) struct KeyedRows<'a> {
    pub(crate) segment: &'a Segment,
    pub(crate) keys: &'a [SortKey],
    pub(crate) codes: &'a [Vec<u32>],
    pub(crate) start: usize,
    ghost shared: { TellSharedFrom start keys.now segment.now.rows codes.now },
    ghost few: { start + length segment.now.rows < 2 ^ 32 },
}

// Whether two rows share their keys.
fn share_keys(table: &KeyedRows, a: u32, b: u32) -> bool
    ensures { result ≡ true → keys_at table.now.keys.now table.now.segment.now.rows a ≡ keys_at table.now.keys.now
        table.now.segment.now.rows b }
{
    let count = table.segment.rows();
    let a = a as usize;
    let b = b as usize;
    if a >= count || b >= count {
        return false;
    }
    share_codes(table.codes, table.start + a, table.start + b)
}

// Adds the row at a place to the group that begins with the first one, or ends that and begins another. It gives the place
// where the group begins that has not ended.
fn add_row(
    table: &KeyedRows,
    rows: &[u32],
    first: usize,
    place: usize,
    ends: &mut Vec<u32>,
) -> Result<usize, AllocError>
    requires few { length rows.now < 2 ^ 32 }
    requires place { place < length rows.now }
    requires grouped { AreGrouped table.now.keys.now table.now.segment.now.rows rows.now ends.old.items first place }
    ensures { IfOk result (λ next. AreGrouped table.now.keys.now table.now.segment.now.rows rows.now ends.new.items next (place + 1)) }
{
    if share_keys(table, rows[place], rows[first]) {
        return Ok(first);
    }
    ends.push(place as u32)?;
    Ok(place)
}

// Where the groups of rows in order end, if they have two rows or more on the average.
fn group_ends(
    alloc: Global,
    table: &KeyedRows,
    rows: &[u32],
) -> Result<Option<Vec<u32>>, AllocError>
    requires { length rows.now < 2 ^ 32 }
    ensures ends { IfOk result (λ found. AreEndsOf found rows.now) }
    ensures groups { IfOk result (λ found. All (IsGroup table.now.keys.now table.now.segment.now.rows) (pieces_of found rows.now)) }
    ensures few { IfOk result (λ found. IfSome found (λ ends. length ends.items * 2 ≤ length rows.now)) }
{
    if rows.len() < 2 {
        return Ok(None);
    }
    let mut ends = Vec::new(alloc);
    let mut first = 0;
    for place in 1..rows.len() {
        first = add_row(table, rows, first, place, &mut ends)?;
        if ends.len() >= rows.len() / 2 {
            return Ok(None);
        }
    }
    ends.push(rows.len() as u32)?;
    Ok(Some(ends))
}

/// The run of a segment of which these are the places in order.
pub(crate) fn grouped_run(
    alloc: Global,
    table: &KeyedRows,
    rows: Vec<u32>,
) -> Result<Run, AllocError>
    requires { rows.items ≡ run_of table.now.keys.now table.now.segment.now.rows }
    ensures keys { IfOk result (λ run. run.keys ≡ table.now.keys.now) }
    ensures run { IfOk result (IsRunOf table.now.segment.now.rows) }
{
    let ends = group_ends(alloc, table, &rows)?;
    let keys = Vec::from_slice(alloc, table.keys)?;
    Ok(Run { keys, rows, ends })
}

/// The run of a segment by keys. A column that the rows do not have counts as null, and without keys the rows stand by place.
/// Its one error is want of memory.
pub fn sort_run(alloc: Global, segment: &Segment, keys: &[SortKey]) -> Result<Run, AllocError>
    ensures keys { IfOk result (λ run. run.keys ≡ keys.now) }
    ensures run { IfOk result (IsRunOf segment.now.rows) }
{
    let table = SegmentColumns {
        segment,
        null: &Value::Null,
    };
    let CodedNumbers { numbers, codes } = coded_order_of(alloc, &table, keys)?;
    let keyed = KeyedRows {
        segment,
        keys,
        codes: &codes,
        start: 0,
    };
    let run = grouped_run(alloc, &keyed, numbers)?;
    Ok(run)
}
