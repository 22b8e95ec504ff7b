//! The first rows of the table in an order by columns, where few are asked for: they are found while the rows are gone over, and
//! no list of the others is made.
ghost use Rattle.std.specs.Prelude.{◌≡◌, ◌<◌, ◌≤◌, ◌+◌, ◌-◌, ◌==◌, ◌||◌, ◌∷◌, ◌++◌, [], false, true, All, IfNone, IfOk, IfSome, List};
ghost use Rattle.std.specs.Prelude.{None, OnOk, Some};
ghost use Rattle.std.specs.Prelude.{length, map, slice_index_or, take, ℕ};
ghost use Rattle.std.specs.Option.{is_some};
ghost use Rattle.wvalues.specs.Meaning.{Null, meaning};
ghost use Rattle.wvalues.specs.Order.{key_cmp, keys_cmp};
ghost use Rattle.wplan.specs.Plans.{output_plan, select_plan};
ghost use Rattle.wrows.specs.Columns.{Row};
ghost use Rattle.wrows.specs.Laid.{row_seen, rows_seen};
ghost use Rattle.wruns.specs.Runs.{row_keys};
ghost use Rattle.wtable.specs.Leading.{AnswerForAll, AreInRange, AsksColumns, AsksFirst, HasGone, IsColumnItem, Lead};
ghost use Rattle.wtable.specs.Leading.{is_behind, rows_by};
ghost use Rattle.wtable.specs.Tables.{rows_of_set};

use crate::front::front_rows;
use crate::orders::{asked_of, key_columns};
use std::alloc::{AllocError, Global};
use std::cmp::Ordering;
use wcolumns::value_or_null;
use wplan::{Output, Selection};
use wrows::place_of;
use wsegment::Segment;
use wset::SegmentSet;
use wvalues::{SortKey, Value, compare};

/// When this many rows are held, they are sorted and only the first that are asked for stay.
const MOST_HELD: usize = 2048;

/// How often held rows are cut before the search is given up. Rows in random order need few cuts, rows in nearly reversed order one
/// per thousand rows; then a sample is faster.
const MOST_CUTS: u32 = 12;

/// Rows that hold the first of all that were gone over, in some order by columns.
#[derive(Drop)]
pub struct LeadingRows<'a> {
    pub(crate) rows: Vec<&'a [Value]>,
    /// A row behind which none is held any more: as many as are asked for come before it or are it.
    pub(crate) pivot: Option<&'a [Value]>,
    /// How often held rows were cut.
    pub(crate) cuts: u32,
}

// The order of two rows by a key that is a column.
#[inline]
fn compare_values(a: &[Value], b: &[Value], key: &SortKey) -> Ordering
    ensures { result ≡ key_cmp key.now (slice_index_or (map meaning a.now) key.now.col Null)
        (slice_index_or (map meaning b.now) key.now.col Null) }
{
    let null = Value::Null;
    compare(
        value_or_null(a, &null, key.col),
        value_or_null(b, &null, key.col),
        key,
    )
}

// The order of two rows by keys that are columns.
#[inline]
fn compare_rows(keys: &[SortKey], a: &[Value], b: &[Value]) -> Ordering
    ensures { result ≡ keys_cmp keys.now (row_keys keys.now (map meaning a.now)) (row_keys keys.now (map meaning b.now)) }
{
    for key in keys {
        let order = compare_values(a, b, key);
        if order != Ordering::Equal {
            return order;
        }
    }
    Ordering::Equal
}

// The last of so many rows, none where they are fewer.
fn last_of<'a>(rows: &[&'a [Value]], most: usize) -> Option<&'a [Value]>
    requires { 0 < most }
    ensures within { IfSome result (λ last. most ≤ length rows.now) }
    ensures last { IfSome result (λ last. last ≡ slice_index_or rows.now (most - 1) last) }
    ensures none { IfNone result (length rows.now < most) }
{
    if rows.len() < most {
        None
    } else {
        Some(rows[most - 1])
    }
}

impl<'a> LeadingRows<'a> {
    // No rows yet.
    fn new(alloc: Global) -> LeadingRows<'a>
        ensures leads { (keys : List SortKey) (most : ℕ) → Lead keys most [] result }
        ensures few { length result.rows.items ≡ 0 }
        ensures cuts { result.cuts ≡ 0 }
    {
        LeadingRows {
            rows: Vec::new(alloc),
            pivot: None,
            cuts: 0,
        }
    }

    // Whether a row is none of those that are asked for, whatever follows.
    #[inline]
    fn is_behind(&self, keys: &[SortKey], row: &[Value]) -> bool
        ensures { result ≡ is_behind keys.now (map meaning row.now) self.now.pivot }
    {
        match self.pivot {
            None => false,
            Some(pivot) => compare_rows(keys, row, pivot) != Ordering::Less,
        }
    }

    // Leaves those that come first, of which the last is the pivot, if there are as many as are asked for.
    fn prune(&mut self, keys: &[SortKey], most: usize) -> Result<(), AllocError>
        requires { 0 < most }
        ensures leads { (all : List Row) → Lead keys.now most all self.old → OnOk result (Lead keys.now most all self.new) }
        ensures few { OnOk result (length self.new.rows.items ≤ most) }
        ensures pivot { OnOk result (most ≤ length self.old.rows.items → is_some self.new.pivot ≡ true) }
        ensures last { OnOk result (IfSome self.new.pivot (λ row. row_seen row
            ≡ slice_index_or (rows_by keys.now (rows_seen self.old.rows.items)) (most - 1) [])) }
        ensures cuts { OnOk result (self.new.cuts ≤ self.old.cuts + 1) }
    {
        self.rows.sort_by(|a, b| compare_rows(keys, a, b))?;
        self.rows.truncate(most);
        self.pivot = last_of(&self.rows, most);
        self.cuts = self.cuts.saturating_add(1);
        Ok(())
    }

    // Holds one row more, where it may be asked for.
    #[inline]
    fn push(&mut self, keys: &[SortKey], most: usize, row: &'a [Value]) -> Result<(), AllocError>
        requires some { 0 < most }
        requires fewer { most ≤ 1024 }
        ensures leads { (all : List Row) → Lead keys.now most all self.old
            → OnOk result (Lead keys.now most (all ++ map meaning row.entry.now ∷ []) self.new) }
        ensures few { length self.old.rows.items < 2048 → OnOk result (length self.new.rows.items < 2048) }
        ensures gone { (gone : ℕ) → HasGone self.old gone → OnOk result (HasGone self.new (gone + 1)) }
        ensures behind { is_behind keys.now (map meaning row.entry.now) self.old.pivot ≡ true → OnOk result (self.new ≡ self.old) }
    {
        if self.is_behind(keys, row) {
            return Ok(());
        }
        self.rows.push(row)?;
        if self.rows.len() >= MOST_HELD {
            self.prune(keys, most)?;
        }
        Ok(())
    }
}

// Goes over the rows of a segment, and says whether it did so to the end: it stops where rows were left out too often.
fn push_all<'a>(
    leading: &mut LeadingRows<'a>,
    keys: &[SortKey],
    most: usize,
    segment: &'a Segment,
) -> Result<bool, AllocError>
    requires some { 0 < most }
    requires fewer { most ≤ 1024 }
    ensures leads { (all : List Row) → Lead keys.now most all leading.old
        → IfOk result (λ whole. whole ≡ true → Lead keys.now most (all ++ segment.now.rows) leading.new) }
    ensures few { length leading.old.rows.items < 2048 → OnOk result (length leading.new.rows.items < 2048) }
    ensures gone { (gone : ℕ) → HasGone leading.old gone → OnOk result (HasGone leading.new (gone + length segment.now.rows)) }
    ensures cuts { IfOk result (λ whole. whole ≡ false → 12 ≤ leading.new.cuts) }
{
    for row in 0..segment.rows() {
        if leading.cuts >= MOST_CUTS {
            return Ok(false);
        }
        leading.push(keys, most, segment.row(row))?;
    }
    Ok(true)
}

// Rows that hold the first of all; none where rows were left out too often.
fn first_rows<'a>(
    alloc: Global,
    keys: &[SortKey],
    most: usize,
    set: &'a SegmentSet,
) -> Result<Option<Vec<&'a [Value]>>, AllocError>
    requires some { 0 < most }
    requires fewer { most ≤ 1024 }
    ensures leads { IfOk result (λ found. IfSome found (λ rows. (more : List Row)
        → take most (rows_by keys.now (rows_seen rows.items ++ more)) ≡ take most (rows_by keys.now (rows_of_set set.now ++ more)))) }
    ensures few { IfOk result (λ found. IfSome found (λ rows. length rows.items < 2048)) }
    ensures given { IfOk result (λ found. IfNone found (12288 ≤ length (rows_of_set set.now))) }
{
    let mut leading = LeadingRows::new(alloc);
    'segments: for (_, kept) in set.lives() {
        let segment = kept.segment()?;
        let whole = push_all(&mut leading, keys, most, segment)?;
        if !whole {
            return Ok(None);
        }
    }
    let LeadingRows { rows, .. } = leading;
    Ok(Some(rows))
}

// How many rows a SELECT asks for of the first in its order, with those left out first, where these are few.
fn few_asked(select: &Selection) -> Option<usize>
    ensures few { IfSome result (λ most. most ≤ 1024) }
    ensures offset { IfSome result (λ most. select.now.offset ≤ most) }
    ensures limit { IfSome result (λ most. select.now.limit ≡ Some (most - select.now.offset)) }
    ensures none { IfNone result ((width : ℕ) → ¬ (AsksFirst width select.now)) }
{
    let limit = select.limit?;
    if !asked_of(select).is_selected() {
        return None;
    }
    let most = select.offset + limit;
    Some(most as usize)
}

// Whether the first rows in order are the first as they stand: there are no keys, or no row is asked for.
fn stand_first(keys: &[SortKey], most: usize) -> bool
    ensures { result ≡ (most == 0 || length keys.now == 0) }
{
    most == 0 || keys.is_empty()
}

// Rows among which are the first of all; none where rows were left out too often. Where the first stand in front, none behind them are
// looked at.
fn few_rows<'a>(
    alloc: Global,
    keys: &[SortKey],
    most: usize,
    set: &'a SegmentSet,
) -> Result<Option<Vec<&'a [Value]>>, AllocError>
    requires fewer { most ≤ 1024 }
    ensures leads { IfOk result (λ found. IfSome found (λ rows.
        take most (rows_by keys.now (rows_seen rows.items)) ≡ take most (rows_by keys.now (rows_of_set set.now)))) }
    ensures few { IfOk result (λ found. IfSome found (λ rows. length rows.items < 2048)) }
    ensures least { (most == 0 || length keys.now == 0) ≡ true → IfOk result (λ found. IfSome found (λ rows. length rows.items ≤ most)) }
    ensures given { IfOk result (λ found. IfNone found (12288 ≤ length (rows_of_set set.now))) }
{
    if stand_first(keys, most) {
        let rows = front_rows(alloc, set, most)?;
        return Ok(Some(rows));
    }
    let found = first_rows(alloc, keys, most, set)?;
    Ok(found)
}

// Whether items are plain columns, which are out of range on no row.
fn are_columns(items: &[Output]) -> bool
    ensures range { result ≡ true → AreInRange (map (λ o. o.value) (map output_plan items.now)) }
    ensures none { result ≡ false → ¬ (All IsColumnItem items.now) }
{
    for item in items {
        if place_of(&item.value).is_none() {
            return false;
        }
    }
    true
}

// Whether a SELECT asks for nothing of rows but plain columns, and perhaps an order.
fn only_orders(select: &Selection) -> bool
    ensures condition { result ≡ true → (select_plan select.now).condition ≡ None }
    ensures grouping { result ≡ true → (select_plan select.now).grouping ≡ None }
    ensures windows { result ≡ true → length select.now.windows.items ≡ 0 }
    ensures items { result ≡ true → AreInRange (map (λ o. o.value) (map output_plan select.now.items.items)) }
    ensures none { result ≡ false → ¬ (AsksColumns select.now) }
{
    let None = &select.condition else {
        return false;
    };
    let None = &select.grouping else {
        return false;
    };
    if !select.windows.is_empty() {
        return false;
    }
    are_columns(&select.items)
}

/// Rows of the set's live segments among which are all that the SELECT answers, where it asks for plain columns only, in an order by
/// columns or in none, and OFFSET plus LIMIT is at most 1,024. `None` for another SELECT, or after 12 cuts of the rows that are held,
/// which takes at least 12,288 rows. Fewer than 2,048 rows, lent from the segments: without an order the first ones, as many as OFFSET
/// plus LIMIT, and none where both are 0; then no others are looked at. The one error is that memory was refused, or of a set whose cells
/// are not made (`SegmentSet::make`).
pub fn leading_rows<'a>(
    alloc: Global,
    select: &Selection,
    set: &'a SegmentSet,
) -> Result<Option<Vec<&'a [Value]>>, AllocError>
    ensures answer { IfOk result (λ found. IfSome found
        (λ rows. AnswerForAll (select_plan select.now) (rows_of_set set.now) (rows_seen rows.items))) }
    ensures given { IfOk result (λ found. IfNone found (AsksFirst (length set.now.schema.columns) select.now
        → 12288 ≤ length (rows_of_set set.now))) }
{
    if !only_orders(select) {
        return Ok(None);
    }
    let Some(most) = few_asked(select) else {
        return Ok(None);
    };
    let width = set.schema().columns().len();
    let columns = key_columns(alloc, &select.keys, width)?;
    let Some(keys) = columns else {
        return Ok(None);
    };
    let found = few_rows(alloc, &keys, most, set)?;
    Ok(found)
}
