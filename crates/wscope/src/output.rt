//! Items of a SELECT list with `*` written out.

use wquery::Expression;

/// An item: a column that `*` brings in, by its place among the source's columns, or an expression.
#[derive(Clone, Copy, Drop)]
pub(crate) enum Output<'a> {
    Placed(usize),
    Spelled(&'a Expression),
}
