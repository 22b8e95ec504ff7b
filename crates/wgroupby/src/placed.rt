/// An element of GROUP BY whose columns are found: the entries of GROUPING SETS. A column, ROLLUP or CUBE by itself is
/// one entry.
#[derive(Drop)]
pub struct PlacedElement {
    pub entries: Vec<PlacedEntry>,
}

/// An entry of GROUPING SETS. A column is its place in the source's row, counted from 0.
#[derive(Drop)]
pub enum PlacedEntry {
    /// The columns of one set, none for `()`.
    Columns(Vec<usize>),
    /// The parts of ROLLUP, each some columns.
    Rollup(Vec<Vec<usize>>),
    /// The parts of CUBE, each some columns.
    Cube(Vec<Vec<usize>>),
}
