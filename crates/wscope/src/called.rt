//! The items of one output name.

use crate::output::Output;

/// The items of one output name, `*` written out.
#[derive(Clone, Copy, Drop)]
pub(crate) struct Called<'a> {
    /// The first of them.
    pub(crate) first: Output<'a>,
    /// Whether one of them has another expression.
    pub(crate) is_ambiguous: bool,
}
