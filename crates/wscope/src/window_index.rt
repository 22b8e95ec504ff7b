//! WINDOW entries, found by name.

ghost use Rattle.wscope.specs.Windows.{named_windows};
ghost use Rattle.wscope.specs.Indexes.{ArePlaces};

use crate::full_window::FullEntry;
use std::collections::BTreeMap;

/// The WINDOW entries with what they copy, found by name.
#[derive(Drop)]
pub struct WindowIndex<'a> {
    pub entries: Vec<FullEntry<'a>>,
    /// The place of the first entry of each name.
    pub places: BTreeMap<String, usize>,
    pub ghost placed: { ArePlaces places (named_windows entries.items) },
}
