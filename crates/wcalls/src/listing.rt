//! Lists of what columns have for rows.
ghost use Rattle.std.specs.Prelude.{◌≡◌, pos, IfOk, map};
ghost use Rattle.wvalues.specs.Meaning.{Int, meaning};
ghost use Rattle.wcolumns.specs.Columns.{column_seen, columns_seen, counted, read_in};
ghost use Rattle.wrows.specs.Laid.{rows_seen};
ghost use Rattle.wcalls.specs.ListedValues.{is_lent, keeps_values, listed_seen};

use std::alloc::{AllocError, Global};
use waggregate::count_value;
use wcolumns::{Column, LentColumn, OtherRows};
use wrows::batch_end;
use wvalues::Value;

/// The values that a column has: lent where it keeps values, and else made of what it keeps.
#[derive(Drop)]
pub enum ListedColumn<'a> {
    /// Where the column has them.
    Lent(&'a [Value]),
    /// Made of what the column has.
    Made(Vec<Value>),
}

impl<'a> ListedColumn<'a> {
    /// The values.
    pub fn as_slice(&self) -> &[Value]
        ensures { map meaning result.now ≡ listed_seen self.now }
    {
        match self {
            ListedColumn::Lent(values) => values,
            ListedColumn::Made(values) => values.as_slice(),
        }
    }
}

// Counts as values.
fn count_values(alloc: Global, counts: &[u32]) -> Result<Vec<Value>, AllocError>
    ensures { IfOk result (λ values. map meaning values.items ≡ map counted counts.now) }
{
    let mut values = Vec::with_capacity(alloc, counts.len())?;
    for count in counts {
        values.push(count_value(u64::from(*count)))?;
    }
    Ok(values)
}

// A copy of a value. No owners are counted of one that is no text.
fn copied(value: &Value, some_text: bool) -> Result<Value, AllocError>
    ensures { IfOk result (λ copy. meaning copy ≡ meaning value.now) }
{
    match value {
        Value::Int(number) if !some_text => Ok(Value::Int(*number)),
        Value::Null if !some_text => Ok(Value::Null),
        _ => value.duplicate(),
    }
}

// Copies of the values that other rows have. They are looked at before, some at a time.
fn other_values(alloc: Global, others: &OtherRows) -> Result<Vec<Value>, AllocError>
    ensures { IfOk result (λ values. map meaning values.items ≡ read_in others.now) }
{
    let null = Value::Null;
    let count = others.numbers.len();
    let mut values = Vec::with_capacity(alloc, count)?;
    let mut some_text = false;
    let mut seen = 0;
    for row in 0..count {
        if row == seen {
            seen = batch_end(row, count);
            some_text = others.hold_text(&null, &others.numbers[row..seen]);
        }
        let value = copied((&*others).read(&null, others.numbers[row]), some_text)?;
        values.push(value)?;
    }
    Ok(values)
}

// The values that a column has.
fn listed<'b>(alloc: Global, column: &'b Column<'_>) -> Result<ListedColumn<'b>, AllocError>
    ensures seen { IfOk result (λ listed. listed_seen listed ≡ column_seen column.now) }
    ensures lent { IfOk result (λ listed. is_lent listed ≡ keeps_values column.now) }
{
    match column {
        Column::Values(values) => Ok(ListedColumn::Lent(values)),
        Column::Counts(counts) => Ok(ListedColumn::Made(count_values(alloc, counts)?)),
        Column::Others(others) => Ok(ListedColumn::Made(other_values(alloc, others)?)),
    }
}

/// The values that each of some columns has. Those of a column that keeps values are lent, and no list is made of them.
pub fn listed_columns<'b>(
    alloc: Global,
    columns: &[LentColumn<'b>],
) -> Result<Vec<ListedColumn<'b>>, AllocError>
    ensures seen { IfOk result (λ lists. map listed_seen lists.items ≡ columns_seen columns.now) }
    ensures lent { IfOk result (λ lists. map is_lent lists.items ≡ map (λ lent. keeps_values lent.column.now) columns.now) }
{
    let mut lists = Vec::with_capacity(alloc, columns.len())?;
    for lent in columns {
        lists.push(listed(alloc, lent.column)?)?;
    }
    Ok(lists)
}

/// The values of columns, lent.
pub fn lent_columns<'b>(
    alloc: Global,
    lists: &'b [ListedColumn<'_>],
) -> Result<Vec<&'b [Value]>, AllocError>
    ensures { IfOk result (λ columns. rows_seen columns.items ≡ map listed_seen lists.now) }
{
    let mut columns = Vec::with_capacity(alloc, lists.len())?;
    for list in lists {
        columns.push(list.as_slice())?;
    }
    Ok(columns)
}
