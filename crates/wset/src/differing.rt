//! What is noted of a set's rows and some keys.
ghost use Rattle.std.specs.Prelude.{◌≡◌, ◌↔◌, IsTrue, List, IfSome};
ghost use Rattle.wvalues.specs.Meaning.{Meaning};
ghost use Rattle.wruns.specs.Differing.{AllDiffer};
ghost use Rattle.wruns.specs.Runs.{joined};
ghost use Rattle.wset.specs.KeptOrders.{IsNoteOf};

use std::alloc::Global;
use wvalues::SortKey;

/// Whether no two rows of all live segments share these keys.
#[derive(Drop)]
pub(crate) struct Differing {
    pub(crate) keys: Vec<SortKey>,
    pub(crate) differ: bool,
}

impl Differing {
    /// The note to be kept, if there is memory for it.
    pub(crate) fn note(alloc: Global, keys: &[SortKey], differ: bool) -> Option<Differing>
        ensures keys { IfSome result (λ note. note.keys.items ≡ keys.now) }
        ensures differ { IfSome result (λ note. note.differ ≡ differ) }
    {
        let Ok(keys) = Vec::from_slice(alloc, keys) else {
            return None;
        };
        Some(Differing { keys, differ })
    }

    /// What is noted for these keys, if a note is for them.
    pub(crate) fn told(noted: &Option<Differing>, keys: &[SortKey]) -> Option<bool>
        ensures { (rows : List (List (List Meaning))) → IfSome noted.now (IsNoteOf rows)
            → IfSome result (λ differ. IsTrue differ ↔ AllDiffer keys.now (joined rows)) }
    {
        let Some(note) = noted else {
            return None;
        };
        if note.keys.as_slice() == keys {
            Some(note.differ)
        } else {
            None
        }
    }
}
