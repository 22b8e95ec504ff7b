//! What resolving has made so far.

use wplan::Selection;

/// The SELECTs that have been made, the innermost first.
#[derive(Drop)]
pub(crate) struct Made {
    pub(crate) selections: Vec<Selection>,
    /// How many SELECTs have been judged, as far as numbers go.
    pub(crate) judged: u64,
}
