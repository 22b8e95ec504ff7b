//! A live name's content, as one set keeps it.
ghost use Rattle.std.specs.Prelude.{◌≡◌, ◌↔◌, ◌≤◌, ◌++◌, ◌∷◌, [], IfOk, IfSome, IsTrue, OnErr, OnOk, is_some, length};
ghost use Rattle.std.specs.List.{IsAmong};
ghost use Rattle.circular_buffer.specs.Buffer.{keep_last};
ghost use Rattle.wruns.specs.Dealing.{IsRunBy};
ghost use Rattle.wruns.specs.Runs.{IsRunOf};
ghost use Rattle.wentries.specs.Cells.{parts_of};
ghost use Rattle.wentries.specs.Keeping.{IsAdded};

use crate::judged_content::Cells;
use std::alloc::{AllocError, Global};
use std::marker::Model;
use std::rc::Rc;
use wruns::{KeptRuns, Run, SegmentRun};
use wsegment::{Judged, Segment};
use wvalues::SortKey;

/// A live name's content, as one set keeps it: the bytes as they were judged, the cells, where they are made, and the runs that are
/// kept of them. It is shared by the sets that know it until one of them makes cells or a run. It is one pointer, so that an entry
/// stays small. In a contract it is the segment's content, and the keys of the runs: which cells are made is no part of it.
#[derive(Drop)]
pub struct Kept {
    cells: Rc<Cells>,
}

impl Model for Kept {
    ghost use Rattle.wruns.specs.KeptRuns.{KeptParts};
    ghost use Rattle.wentries.specs.Cells.{parts_of};

    ghost Value = { KeptParts };

    ghost view = { λ kept. parts_of kept.cells.value };
}

impl Kept {
    /// A segment that no other set knows yet.
    pub fn new(alloc: Global, segment: Segment) -> Result<Kept, AllocError>
        ensures { IfOk result (λ kept. kept ≡ record { content = segment; orders = [] }) }
    {
        let Ok(segment) = Rc::new(alloc, segment) else {
            return Err(AllocError);
        };
        Kept::of(alloc, Cells::Made(KeptRuns::new(alloc, segment)))
    }

    /// What was judged, of which no cell is made.
    pub fn unmade(alloc: Global, judged: Rc<Judged>) -> Result<Kept, AllocError>
        ensures { IfOk result (λ kept. kept ≡ record { content = judged.value; orders = [] }) }
    {
        Kept::of(alloc, Cells::Unmade(judged))
    }

    /// A content that is kept so.
    fn of(alloc: Global, cells: Cells) -> Result<Kept, AllocError>
        ensures { IfOk result (λ kept. kept ≡ parts_of cells) }
    {
        let Ok(cells) = Rc::new(alloc, cells) else {
            return Err(AllocError);
        };
        Ok(Kept { cells })
    }

    /// The segment, if its cells are made: `AllocError` where they are not, for want of memory or since nobody asked for them by
    /// `SegmentSet::make`.
    pub fn segment(&self) -> Result<&Segment, AllocError>
        ensures { IfOk result (λ segment. segment.now ≡ self.now.content) }
    {
        match self.cells.as_ref().segment() {
            Some(segment) => Ok(segment),
            None => Err(AllocError),
        }
    }

    /// What was judged.
    pub(crate) fn judged(&self) -> &Judged
        ensures { result.now ≡ self.now.content }
    {
        self.cells.as_ref().judged()
    }

    /// How many rows it has. No cell is made for that.
    pub fn rows(&self) -> usize
        ensures count { result ≡ length self.now.content.rows }
        ensures few { result ≤ 1000000 }
    {
        self.judged().rows()
    }

    /// The segment's bytes.
    pub fn bytes(&self) -> &[u8]
        ensures { result.now ≡ self.now.content.bytes }
    {
        self.judged().bytes()
    }

    /// The same for another set. Nothing of it is copied.
    pub fn share(&self) -> Result<Kept, AllocError>
        ensures { IfOk result (λ kept. kept ≡ self.now) }
    {
        let cells = self.cells.clone()?;
        Ok(Kept { cells })
    }

    /// Makes the cells, if they are not made. Other sets keep what they have. Where it finds no memory nothing is changed.
    pub(crate) fn make_cells(&mut self, alloc: Global) -> Result<(), AllocError>
        ensures { self.new ≡ self.old }
    {
        if self.segment().is_ok() {
            return Ok(());
        }
        let runs = self.cells.as_ref().made(alloc)?;
        *self = Kept::of(alloc, Cells::Made(runs))?;
        Ok(())
    }

    /// The same segment with the run of these keys besides.
    fn with_run(&self, alloc: Global, keys: &[SortKey]) -> Result<Kept, AllocError>
        ensures content { IfOk result (λ kept. kept.content ≡ self.now.content) }
        ensures has { IfOk result (λ kept. IsAmong kept.orders keys.now) }
        ensures made { (IsAmong self.now.orders keys.now → ⊥)
            → IfOk result (λ kept. kept.orders ≡ keep_last 4 (self.now.orders ++ keys.now ∷ [])) }
    {
        let mut runs = self.cells.as_ref().made(alloc)?;
        runs.make(keys)?;
        Kept::of(alloc, Cells::Made(runs))
    }

    /// Makes the run of these keys, if it is not kept; of five runs the one that was made first is let go. Other sets keep
    /// the runs that they have. Where it finds no memory nothing is changed.
    pub(crate) fn make(&mut self, alloc: Global, keys: &[SortKey]) -> Result<(), AllocError>
        ensures content { self.new.content ≡ self.old.content }
        ensures kept { IsAmong self.old.orders keys.now → self.new ≡ self.old }
        ensures made { (IsAmong self.old.orders keys.now → ⊥)
            → OnOk result (self.new.orders ≡ keep_last 4 (self.old.orders ++ keys.now ∷ [])) }
        ensures has { OnOk result (IsAmong self.new.orders keys.now) }
        ensures adds { IsAdded keys.now self.old.orders self.new.orders }
        ensures err { OnErr result (self.new ≡ self.old) }
    {
        if self.has(keys) {
            return Ok(());
        }
        *self = self.with_run(alloc, keys)?;
        Ok(())
    }

    /// The same segment with this run besides.
    fn with(&self, alloc: Global, run: &Rc<Run>) -> Result<Kept, AllocError>
        requires { IsRunOf self.now.content.rows run.now.value }
        ensures content { IfOk result (λ kept. kept.content ≡ self.now.content) }
        ensures has { IfOk result (λ kept. IsAmong kept.orders run.now.value.keys) }
        ensures made { (IsAmong self.now.orders run.now.value.keys → ⊥)
            → IfOk result (λ kept. kept.orders ≡ keep_last 4 (self.now.orders ++ run.now.value.keys ∷ [])) }
    {
        let mut runs = self.cells.as_ref().made(alloc)?;
        let shared = run.clone()?;
        runs.keep_run(shared)?;
        Kept::of(alloc, Cells::Made(runs))
    }

    /// Keeps the run of these keys, which is shared, if none is kept; of five runs the one that was kept first is let go. Other sets
    /// keep the runs that they have. Where it finds no memory nothing is changed.
    pub(crate) fn keep_run(
        &mut self,
        alloc: Global,
        keys: &[SortKey],
        run: &Rc<Run>,
    ) -> Result<(), AllocError>
        requires { IsRunBy keys.now self.old.content.rows run.now.value }
        ensures content { self.new.content ≡ self.old.content }
        ensures kept { IsAmong self.old.orders keys.now → self.new ≡ self.old }
        ensures made { (IsAmong self.old.orders keys.now → ⊥)
            → OnOk result (self.new.orders ≡ keep_last 4 (self.old.orders ++ keys.now ∷ [])) }
        ensures has { OnOk result (IsAmong self.new.orders keys.now) }
        ensures adds { IsAdded keys.now self.old.orders self.new.orders }
        ensures err { OnErr result (self.new ≡ self.old) }
    {
        if self.has(keys) {
            return Ok(());
        }
        *self = self.with(alloc, run)?;
        Ok(())
    }

    /// Whether the run of these keys is kept.
    pub fn has(&self, keys: &[SortKey]) -> bool
        ensures { IsTrue result ↔ IsAmong self.now.orders keys.now }
    {
        self.cells.as_ref().source(keys).is_some()
    }

    /// The segment with its run of these keys, if it is kept.
    pub fn source(&self, keys: &[SortKey]) -> Option<SegmentRun<'_>>
        ensures found { IsTrue (is_some result) ↔ IsAmong self.now.orders keys.now }
        ensures keys { IfSome result (λ s. s.run.now.keys ≡ keys.now) }
        ensures segment { IfSome result (λ s. s.segment.now ≡ self.now.content) }
    {
        self.cells.as_ref().source(keys)
    }
}
