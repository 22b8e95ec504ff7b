//! The rows that are folded, column by column.
ghost use Rattle.std.specs.Prelude.{◌≡◌, ◌<◌, length, IfOk};

use std::alloc::{AllocError, Global};
use wvalues::{Value, Whole};

/// The keys of so many rows, in order: each `peers` rows have one key, which is the number of their group. So are partition
/// values told, of the rows of a partition.
pub fn keys(alloc: Global, rows: u32, peers: u32) -> Result<Vec<Value>, AllocError>
    requires { 0 < peers }
    ensures { IfOk result (λ keys. length keys.items ≡ rows) }
{
    (0..rows)
        .map(|row| Value::Int(Whole::from((row / peers) as i64)))
        .collect(alloc)
}

/// The numbers of so many rows, which go up and down: 0, 7, 4, 1, 8, 5, 2, 9, 6, 3, and again.
pub fn numbers(alloc: Global, rows: usize) -> Result<Vec<Value>, AllocError>
    ensures { IfOk result (λ numbers. length numbers.items ≡ rows) }
{
    (0..rows)
        .map(|row| Value::Int(Whole::from((row % 10 * 7 % 10) as i64)))
        .collect(alloc)
}

/// What is lent of a column.
pub fn lent<'a>(alloc: Global, values: &'a [Value]) -> Result<Vec<&'a Value>, AllocError>
    ensures { IfOk result (λ lent. length lent.items ≡ length values.now) }
{
    values.iter().collect(alloc)
}
