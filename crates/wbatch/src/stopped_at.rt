//! Where a batch stopped.
use wvalues::Name;

/// What stands where a batch stopped.
#[derive(Clone, Copy)]
pub enum Stands<'a> {
    /// A segment with this name and these bytes.
    Segment(&'a Name, &'a [u8]),
    /// These bytes, and whatever of the stream has not come.
    Rest(&'a [u8]),
}

/// Where a batch stopped in its stream, for explanations.
#[derive(Clone, Copy)]
pub struct Place<'a> {
    /// How many messages stand before it.
    pub messages: usize,
    /// How many bytes of the stream stand before the rest, where a rest stands there.
    pub bytes: u64,
    /// What stands there.
    pub stands: Stands<'a>,
}
