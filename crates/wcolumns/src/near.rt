//! Columns that are copied, so that their values lie side by side.
ghost use Rattle.std.specs.Prelude.{◌≡◌, All, IfOk, IfSome, List, map, slice_index_or};
ghost use Rattle.std.specs.Borrow.{Bor};
ghost use Rattle.wvalues.specs.declared.value.Value.{Value as Cell};
ghost use Rattle.wvalues.specs.Meaning.{Null, meaning};
ghost use Rattle.wcolumns.specs.Columns.{placed};
ghost use Rattle.wcolumns.specs.Near.{IsNear};

use std::alloc::{AllocError, Global};
use std::rc::Rc;
use wvalues::Value;

/// How many places of an order are looked at to tell whether rows that follow each other there lie apart.
const LOOKS: usize = 64;

/// A copy of a plain column.
#[derive(Drop)]
pub struct NearColumn {
    /// The column's place in each row.
    pub place: usize,
    /// What each row has there, by number.
    pub values: Rc<Vec<Value>>,
}

// A copy of a value that lies in its cell as a whole; none of a text that lies apart from it.
fn copy_of_cell(value: &Value) -> Option<Value>
    ensures { IfSome result (λ copy. meaning copy ≡ meaning value.now) }
{
    match value {
        Value::Null => Some(Value::Null),
        Value::Int(number) => Some(Value::Int(*number)),
        Value::Short(text) => Some(Value::Short(*text)),
        Value::Shared(_) => None,
    }
}

// A copy of what a row has at a place; none where it does not go so far, or has a text there that lies apart from its cell.
fn copy_at(row: &[Value], place: usize) -> Option<Value>
    ensures { IfSome result (λ copy. meaning copy ≡ slice_index_or (map meaning row.now) place Null) }
{
    if place < row.len() {
        copy_of_cell(&row[place])
    } else {
        None
    }
}

// Copies of what rows have at a place; none where one has no copy there.
fn copies_at(
    alloc: Global,
    rows: &[&[Value]],
    place: usize,
) -> Result<Option<Vec<Value>>, AllocError>
    ensures { IfOk result (λ found. IfSome found (λ copies. map meaning copies.items ≡ placed place rows.now)) }
{
    let mut copies = Vec::with_capacity(alloc, rows.len())?;
    for row in rows {
        let Some(copy) = copy_at(row, place) else {
            return Ok(None);
        };
        copies.push(copy)?;
    }
    Ok(Some(copies))
}

impl NearColumn {
    /// A copy of what rows have at a place; none where a row does not go so far, or has a text there that lies apart from its cell.
    pub fn of(
        alloc: Global,
        rows: &[&[Value]],
        place: usize,
    ) -> Result<Option<NearColumn>, AllocError>
        ensures near { IfOk result (λ found. IfSome found (λ near. IsNear rows.now near)) }
        ensures place { IfOk result (λ found. IfSome found (λ near. near.place ≡ place)) }
    {
        let Some(copies) = copies_at(alloc, rows, place)? else {
            return Ok(None);
        };
        let Ok(values) = Rc::new(alloc, copies) else {
            return Err(AllocError);
        };
        Ok(Some(NearColumn { place, values }))
    }
}

/// The copy of the column of a place among some, if it is there.
pub fn near_column(near: &[NearColumn], place: usize) -> Option<&Rc<Vec<Value>>>
    ensures { (rows : List (Bor (List Cell))) → All (IsNear rows) near.now → IfSome result
        (λ values. map meaning values.now.value.items ≡ placed place rows) }
{
    for column in near {
        if column.place == place {
            return Some(&column.values);
        }
    }
    None
}

// Whether another row than the next one stands behind the row at a place of an order.
fn is_parted(order: &[u32], place: usize) -> bool {
    let next = place.saturating_add(1);
    next < order.len() && order[next] != order[place].wrapping_add(1)
}

/// Whether rows that follow each other in an order lie apart, by a few of them. This is a matter of speed alone.
pub fn lie_apart(order: &[u32]) -> bool {
    let step = order.len() / LOOKS;
    let mut parted: usize = 0;
    for look in 0..LOOKS {
        if is_parted(order, step.saturating_mul(look)) {
            parted = parted.saturating_add(1);
        }
    }
    parted > LOOKS / 2
}
