//! Whether rows have the same key, and its hash.
ghost use Rattle.std.specs.Prelude.{◌≡◌, length, map};
ghost use Rattle.std.specs.Cmp.Lexicographic.{pointwise};
ghost use Rattle.std.specs.Hash.FoldHasher as folding;
ghost use Rattle.std.specs.List.{fold};
ghost use Rattle.wvalues.specs.Meaning.{Null, meaning};
ghost use Rattle.wvalues.specs.Sameness.{same_meaning};
ghost use Rattle.wrows.specs.Laid.{rows_seen};
ghost use Rattle.wgroup.specs.Grouping.{group_key, set_value};
ghost use Rattle.wgroup.specs.Sight.{key_in};
ghost use Rattle.wgroup.specs.Table.{hash_of_key, key_hash, key_input};

use crate::keyed::GroupingRows;
use std::hash::{FoldHasher, Hash, Hasher};
use wrows::cells_at;
use wvalues::Value;

// A row's value in a column, null behind its end and where the set lacks the column.
fn value_in<'a>(row: &'a [Value], column: Option<usize>, null: &'a Value) -> &'a Value
    requires { meaning null.now ≡ Null }
    ensures { meaning result.now ≡ set_value (map meaning row.now) column }
{
    let Some(column) = column else {
        return null;
    };
    if column < row.len() {
        &row[column]
    } else {
        null
    }
}

// Whether two values are the same.
#[inline(always)]
fn is_same_value(a: &Value, b: &Value) -> bool
    ensures { result ≡ same_meaning (meaning a.now) (meaning b.now) }
{
    match (a, b) {
        (Value::Int(x), Value::Int(y)) => x == y,
        _ => a == b,
    }
}

// Whether a row of cells has these values in the columns of a set.
#[inline(always)]
fn is_key_of(columns: &[Option<usize>], row: &[Value], key: &[Value], null: &Value) -> bool
    requires lacking { meaning null.now ≡ Null }
    requires wide { length key.now ≡ length columns.now }
    ensures { result ≡ pointwise same_meaning (key_in columns.now (map meaning row.now)) (map meaning key.now) }
{
    for place in 0..columns.len() {
        if !is_same_value(value_in(row, columns[place], null), &key[place]) {
            return false;
        }
    }
    true
}

/// Whether a row's key is this one.
#[inline(always)]
pub(crate) fn has_key(keyed: &GroupingRows, row: usize, key: &[Value]) -> bool
    requires { length key.now ≡ length keyed.now.columns.now }
    ensures { result ≡ pointwise same_meaning (group_key keyed.now.columns.now (rows_seen keyed.now.rows.now) row) (map meaning key.now) }
{
    is_key_of(keyed.columns, cells_at(keyed.rows, row), key, keyed.null)
}

// Feeds a hash with a value, in one piece.
fn feed(value: &Value, hasher: &mut FoldHasher)
    ensures { hasher.new ≡ fold folding.write hasher.old (key_input (meaning value.now)) }
{
    match value {
        Value::Null => hasher.write_u8(0),
        Value::Int(number) => number.hash(hasher),
        Value::Short(text) => hasher.write(text.as_str().as_bytes()),
        Value::Shared(text) => hasher.write(text.as_str().as_bytes()),
    }
}

// The hash of a row's values in the columns of a set.
#[inline(always)]
fn hash_of_key(columns: &[Option<usize>], row: &[Value], null: &Value) -> u64
    requires { meaning null.now ≡ Null }
    ensures { result ≡ hash_of_key (key_in columns.now (map meaning row.now)) }
{
    let mut hasher = FoldHasher::default();
    for column in columns {
        feed(value_in(row, *column, null), &mut hasher);
    }
    hasher.finish()
}

/// The hash of a row's key.
#[inline(always)]
pub(crate) fn key_hash(keyed: &GroupingRows, row: usize) -> u64
    ensures { result ≡ key_hash keyed.now row }
{
    hash_of_key(keyed.columns, cells_at(keyed.rows, row), keyed.null)
}
