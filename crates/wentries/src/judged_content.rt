//! The content of a live name, with or without its cells.
ghost use Rattle.std.specs.Prelude.{◌≡◌, ◌↔◌, [], IfOk, IfSome, IsTrue, is_some};
ghost use Rattle.std.specs.List.{IsAmong};
ghost use Rattle.wentries.specs.Cells.{parts_of};

use std::alloc::{AllocError, Global};
use std::rc::Rc;
use wruns::{KeptRuns, SegmentRun};
use wsegment::{Judged, Segment};
use wvalues::SortKey;

/// A content as it is kept.
#[derive(Drop)]
pub(crate) enum Cells {
    /// It was judged, and its cells are not made.
    Unmade(Rc<Judged>),
    /// Its segment, with the runs that were made of it.
    Made(KeptRuns),
}

impl Cells {
    /// What was judged.
    pub(crate) fn judged(&self) -> &Judged
        ensures { result.now ≡ (parts_of self.now).content }
    {
        match self {
            Cells::Unmade(judged) => judged.as_ref(),
            Cells::Made(runs) => runs.segment().judged().as_ref(),
        }
    }

    /// The segment, if its cells are made.
    pub(crate) fn segment(&self) -> Option<&Segment>
        ensures { IfSome result (λ segment. segment.now ≡ (parts_of self.now).content) }
    {
        match self {
            Cells::Unmade(_) => None,
            Cells::Made(runs) => Some(runs.segment()),
        }
    }

    /// The segment with its runs, which are shared, and its cells, which are made where they are not.
    pub(crate) fn made(&self, alloc: Global) -> Result<KeptRuns, AllocError>
        ensures { IfOk result (λ runs. runs ≡ parts_of self.now) }
    {
        match self {
            Cells::Unmade(judged) => segment_of(alloc, judged),
            Cells::Made(runs) => runs.share(),
        }
    }

    /// The segment with its run of these keys, if it is kept.
    pub(crate) fn source(&self, keys: &[SortKey]) -> Option<SegmentRun<'_>>
        ensures found { IsTrue (is_some result) ↔ IsAmong (parts_of self.now).orders keys.now }
        ensures keys { IfSome result (λ s. s.run.now.keys ≡ keys.now) }
        ensures segment { IfSome result (λ s. s.segment.now ≡ (parts_of self.now).content) }
    {
        match self {
            Cells::Unmade(_) => None,
            Cells::Made(runs) => runs.source(keys),
        }
    }
}

/// The segment of what was judged, of which no run was made.
fn segment_of(alloc: Global, judged: &Rc<Judged>) -> Result<KeptRuns, AllocError>
    ensures { IfOk result (λ runs. runs ≡ record { content = judged.now.value; orders = [] }) }
{
    let segment = Segment::of(alloc, judged)?;
    let Ok(segment) = Rc::new(alloc, segment) else {
        return Err(AllocError);
    };
    Ok(KeptRuns::new(alloc, segment))
}
