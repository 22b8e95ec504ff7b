//! What a column has for a row.

use wvalues::Value;

/// What a column has for a row: a value that is lent, or a count.
#[derive(Clone, Copy)]
pub enum Field<'a> {
    Value(&'a Value),
    Count(u32),
}
