//! The runs that are kept of a segment.
ghost use Rattle.std.specs.Prelude.{◌≡◌, ◌↔◌, ◌≤◌, ◌^◌, ◌++◌, ◌∷◌, [], All, IfOk, IfSome, IsOk};
ghost use Rattle.std.specs.Prelude.{IsTrue, List, OnErr, OnOk, is_some, length, map};
ghost use Rattle.std.specs.List.{IsAmong};
ghost use Rattle.circular_buffer.specs.Buffer.{keep_last};
ghost use Rattle.wvalues.specs.Meaning.{Meaning};
ghost use Rattle.wruns.specs.Runs.{IsRunOf};
ghost use Rattle.wruns.specs.KeptRuns.{keys_kept, run_values, runs_in, HasRoom};

use crate::run::{Run, sort_run};
use crate::segment_run::SegmentRun;
use circular_buffer::HeapCircularBuffer;
use std::alloc::{AllocError, Global};
use std::marker::Model;
use std::rc::Rc;
use wsegment::Segment;
use wvalues::SortKey;

/// The most runs that are kept of a segment.
const MOST_RUNS: usize = 4;

/// A segment with the runs that were made of it last. In a contract it is the segment's content and the keys of the runs, the
/// first made first: a run is the one list of the segment's rows for its keys, so its keys say all of it.
#[derive(Drop)]
pub struct KeptRuns {
    alloc: Global,
    segment: Rc<Segment>,
    runs: Option<HeapCircularBuffer<Rc<Run>>>,
}

impl Model for KeptRuns {
    ghost use Rattle.wruns.specs.KeptRuns.{KeptParts};

    ghost Value = { KeptParts };

    ghost use Rattle.wruns.specs.KeptInside.{parts_of, IsKept};

    ghost view = { parts_of };

    ghost invariant = { IsKept };
}

// Whether a run is by these keys.
fn is_by(run: &Run, keys: &[SortKey]) -> bool
    ensures { IsTrue result ↔ (run.now.keys ≡ keys.now) }
{
    run.keys() == keys
}

// The run of these keys among some.
fn find_in<'a>(runs: &'a HeapCircularBuffer<Rc<Run>>, keys: &[SortKey]) -> Option<&'a Run>
    ensures found { IsTrue (is_some result) ↔ IsAmong (keys_kept runs.now.items) keys.now }
    ensures keys { IfSome result (λ run. run.now.keys ≡ keys.now) }
    ensures one { (rows : List (List Meaning)) → All (λ r. IsRunOf rows r.value) runs.now.items
        → IfSome result (λ run. IsRunOf rows run.now) }
{
    for i in 0..runs.len() {
        let Some(run) = runs.get(i) else {
            return None;
        };
        if is_by(run.as_ref(), keys) {
            return Some(run.as_ref());
        }
    }
    None
}

// Keeps a run. The first of four is let go.
fn keep(
    alloc: Global,
    runs: &mut Option<HeapCircularBuffer<Rc<Run>>>,
    run: Rc<Run>,
) -> Result<(), AllocError>
    requires { HasRoom runs.old }
    ensures ok { OnOk result (runs_in runs.new ≡ keep_last 4 (runs_in runs.old ++ run ∷ [])) }
    ensures room { HasRoom runs.new }
    ensures err { OnErr result (runs.new ≡ runs.old) }
{
    match runs {
        Some(kept) => {
            kept.push_back(run);
            Ok(())
        }
        None => {
            let mut kept = HeapCircularBuffer::with_capacity(alloc, MOST_RUNS)?;
            kept.push_back(run);
            *runs = Some(kept);
            Ok(())
        }
    }
}

impl KeptRuns {
    /// A segment of which no run was made. It takes no memory.
    pub fn new(alloc: Global, segment: Rc<Segment>) -> KeptRuns
        ensures { result ≡ record { content = segment.value; orders = [] } }
    {
        KeptRuns {
            alloc,
            segment,
            runs: None,
        }
    }

    /// The segment.
    pub fn segment(&self) -> &Segment
        ensures { result.now ≡ self.now.content }
    {
        self.segment.as_ref()
    }

    /// The run of these keys, if it is kept. It takes no memory, and changes nothing.
    pub fn find(&self, keys: &[SortKey]) -> Option<&Run>
        ensures found { IsTrue (is_some result) ↔ IsAmong self.now.orders keys.now }
        ensures keys { IfSome result (λ run. run.now.keys ≡ keys.now) }
        ensures one { IfSome result (λ run. IsRunOf self.now.content.rows run.now) }
    {
        match &self.runs {
            Some(runs) => find_in(runs, keys),
            None => None,
        }
    }

    /// Makes the run of these keys, if it is not kept: one that is kept takes no memory. Of five runs the one that was made first
    /// is let go. After want of memory all is as it was.
    pub fn make(&mut self, keys: &[SortKey]) -> Result<(), AllocError>
        ensures content { self.new.content ≡ self.old.content }
        ensures kept { IsAmong self.old.orders keys.now → self.new.orders ≡ self.old.orders }
        ensures needless { IsAmong self.old.orders keys.now → IsOk result }
        ensures made { (IsAmong self.old.orders keys.now → ⊥)
            → OnOk result (self.new.orders ≡ keep_last 4 (self.old.orders ++ keys.now ∷ [])) }
        ensures has { OnOk result (IsAmong self.new.orders keys.now) }
        ensures err { OnErr result (self.new ≡ self.old) }
    {
        if self.find(keys).is_some() {
            return Ok(());
        }
        let run = sort_run(self.alloc, self.segment.as_ref(), keys)?;
        let Ok(shared) = Rc::new(self.alloc, run) else {
            return Err(AllocError);
        };
        keep(self.alloc, &mut self.runs, shared)
    }

    /// Keeps a run of the segment that was made elsewhere, if none of its keys is kept: else it takes no memory. Of five runs the
    /// one that was made first is let go. After want of memory all is as it was.
    pub fn keep_run(&mut self, run: Rc<Run>) -> Result<(), AllocError>
        requires { IsRunOf self.old.content.rows run.value }
        ensures content { self.new.content ≡ self.old.content }
        ensures kept { IsAmong self.old.orders run.value.keys → self.new.orders ≡ self.old.orders }
        ensures needless { IsAmong self.old.orders run.value.keys → IsOk result }
        ensures made { (IsAmong self.old.orders run.value.keys → ⊥)
            → OnOk result (self.new.orders ≡ keep_last 4 (self.old.orders ++ run.value.keys ∷ [])) }
        ensures has { OnOk result (IsAmong self.new.orders run.value.keys) }
        ensures err { OnErr result (self.new ≡ self.old) }
    {
        if self.find(run.as_ref().keys()).is_some() {
            return Ok(());
        }
        keep(self.alloc, &mut self.runs, run)
    }

    /// The segment with the run of these keys, if it is kept.
    pub fn source(&self, keys: &[SortKey]) -> Option<SegmentRun<'_>>
        ensures found { IsTrue (is_some result) ↔ IsAmong self.now.orders keys.now }
        ensures keys { IfSome result (λ s. s.run.now.keys ≡ keys.now) }
        ensures segment { IfSome result (λ s. s.segment.now ≡ self.now.content) }
    {
        match self.find(keys) {
            Some(run) => Some(SegmentRun::new(self.segment(), run)),
            None => None,
        }
    }

    /// The same for another set: the segment and its runs are shared.
    pub fn share(&self) -> Result<KeptRuns, AllocError>
        ensures { IfOk result (λ kept. kept ≡ self.now) }
    {
        let segment = self.segment.clone()?;
        let runs = shared(self.alloc, &self.runs)?;
        Ok(KeptRuns {
            alloc: self.alloc,
            segment,
            runs,
        })
    }
}

// The same runs in a ring of their own.
fn shared_ring(
    alloc: Global,
    ring: &HeapCircularBuffer<Rc<Run>>,
) -> Result<HeapCircularBuffer<Rc<Run>>, AllocError>
    requires { ring.now.capacity ≡ 4 }
    ensures runs { IfOk result (λ kept. run_values kept.items ≡ run_values ring.now.items) }
    ensures room { IfOk result (λ kept. kept.capacity ≡ 4) }
{
    let mut kept = HeapCircularBuffer::with_capacity(alloc, MOST_RUNS)?;
    for i in 0..ring.len() {
        let Some(run) = ring.get(i) else {
            unreachable!()
        };
        kept.push_back(run.clone()?);
    }
    Ok(kept)
}

// The same, where there is a ring.
fn shared(
    alloc: Global,
    runs: &Option<HeapCircularBuffer<Rc<Run>>>,
) -> Result<Option<HeapCircularBuffer<Rc<Run>>>, AllocError>
    requires { HasRoom runs.now }
    ensures runs { IfOk result (λ kept. run_values (runs_in kept) ≡ run_values (runs_in runs.now)) }
    ensures room { IfOk result HasRoom }
{
    match runs {
        None => Ok(None),
        Some(ring) => {
            let kept = shared_ring(alloc, ring)?;
            Ok(Some(kept))
        }
    }
}
