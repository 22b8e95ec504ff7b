//! A set of segments and retirements under one declaration.
ghost use Rattle.std.specs.Prelude.{true, false, ◌≡◌, ◌≢◌, ◌↔◌, ◌⊎◌, ◌<◌, [], All, IsTrue, IfSome, is_some, length, map as list_map};
ghost use Rattle.std.specs.Prelude.{option_map, slice_get, slice_index_or, Some, Ok, Err, IsOk, IfOk, IfErr, OnOk, OnErr};
ghost use Rattle.std.specs.FinMap as map;
ghost use Rattle.std.specs.Option.{option_copied};
ghost use Rattle.wsegment.specs.Outcome.{Fails};
ghost use Rattle.wsegment.specs.Rows.{rows_of};
ghost use Rattle.wentries.specs.Knowledge.{Live, Disputed, Retired as Gone, Floor};
ghost use Rattle.wset.specs.Views.{IsSettled, floor_of, is_below, join, known_in, lives};
ghost use Rattle.wset.specs.Items.{SegmentItem, RetirementItem, FloorItem, view_of_item};
ghost use Rattle.wset.specs.Words.{floor_word, is_reached, retired_word, status_word, taken_word};
ghost use Rattle.wset.specs.Listing.{listed};
ghost use Rattle.std.specs.List.{IsAmong};
ghost use Rattle.wruns.specs.Dealing.{AreRunsOf};
ghost use Rattle.wruns.specs.Differing.{AllDiffer};
ghost use Rattle.wruns.specs.Refs.{refs_by};
ghost use Rattle.wruns.specs.Runs.{joined};
ghost use Rattle.wset.specs.Running.{live_rows};
ghost use Rattle.wset.specs.Sets.{Becomes, LivesAreRead};
ghost use Rattle.wentries.specs.Keeping.{AreAdded};
ghost use Rattle.wentries.specs.Holding.{IsReadBy, IsHeldBy, known_of};
ghost use Rattle.wset.specs.Lending.{AreLivesOf, IsAbove, IsBehindOrigins, only_disputed};

use crate::differing::Differing;
use crate::kept_order::{KeptOrder, is_by, order_kept, unpacked};
use crate::merge::{joined, teaches};
use crate::outcomes::{JoinError, Retired, TakeError, Taken};
use crate::running::{RunSizes, can_be_dealt, segments, sources};
use crate::starts::{live_count_in, live_in, put_counted, raise_counted, starts_of};
use crate::walk::{Lives, Names};
use std::alloc::{AllocError, Global};
use std::marker::Model;
use std::rc::Rc;
use wentries::{
    Block, Held, Kept, Listed, Status, count_after, end_before, end_before_origin, floor_in,
    held_in, in_blocks, is_low, keep_in, listing, make_cells_in, make_in,
};
use wruns::{Dealt, RowRef, Run, deal_runs};
use wsegment::{Judged, Schema, Segment, SegmentFault};
use wvalues::{Name, SortKey};

/// What is known of each name, and the declaration by which all its segments were read.
///
/// In a contract it is the declaration, the view, and the keys of the runs that are kept of each live segment, in the order
/// of names. It keeps an entry for each floor and for each name above it that is not unknown, in the order of names and in
/// blocks of at most 512, which are cut in two as they grow, and beside the blocks how many live names stand before each, at
/// most one order of the rows of all live segments, and of one list of keys at most whether no two of these rows share them; both
/// are let go when what is known changes, or would have changed but for want of memory. A segment's bytes and cells are shared
/// by all sets that know it, and so are its runs, so a set that is new and then joins another is a cheap copy of it.
///
/// An eager set (`new`) makes the cells of a segment as it takes it, for queries that are to come; a lazy one (`lazy`) makes none
/// before it is told to by `make` or asked by `ordered` or `all_differ`. What is shared with another set has the cells that that one
/// made, so who needs them calls `make`, whatever the set.
#[derive(Drop)]
pub struct SegmentSet {
    alloc: Global,
    schema: Schema,
    blocks: Vec<Block>,
    starts: Vec<usize>,
    count: usize,
    order: Option<KeptOrder>,
    differing: Option<Differing>,
    is_lazy: bool,
}

impl Model for SegmentSet {
    ghost use Rattle.wset.specs.Sets.{DeclaredView};
    ghost use Rattle.wset.specs.Codes.{coded_declared_view};

    ghost Value = { DeclaredView };

    ghost coded = { coded_declared_view };

    ghost use Rattle.wset.specs.Storing.{declared_view, IsOrderly};

    ghost view = { declared_view };

    ghost invariant = { IsOrderly };
}

impl SegmentSet {
    /// A set that knows nothing, for segments of this declaration. It takes no memory. It makes the cells of a segment as it takes it.
    pub fn new(alloc: Global, schema: Schema) -> SegmentSet
        ensures { result ≡ record { schema = schema; view = map.empty; orders = [] } }
    {
        SegmentSet::empty(alloc, schema, false)
    }

    /// The same, but it judges what it takes, and makes no cells before `make`, `ordered` or `all_differ`.
    pub fn lazy(alloc: Global, schema: Schema) -> SegmentSet
        ensures { result ≡ record { schema = schema; view = map.empty; orders = [] } }
    {
        SegmentSet::empty(alloc, schema, true)
    }

    /// A set that knows nothing, and makes cells as it takes segments, unless it is lazy.
    fn empty(alloc: Global, schema: Schema, is_lazy: bool) -> SegmentSet
        ensures { result ≡ record { schema = schema; view = map.empty; orders = [] } }
    {
        SegmentSet {
            alloc,
            schema,
            blocks: Vec::new(alloc),
            starts: Vec::new(alloc),
            count: 0,
            order: None,
            differing: None,
            is_lazy,
        }
    }

    /// A set that knows nothing, for segments of the same declaration, which is lazy where this one is. `AllocError`: the
    /// declaration is shared too often. It takes no other memory.
    pub fn like(&self, alloc: Global) -> Result<SegmentSet, AllocError>
        ensures { IfOk result (λ set. set ≡ record { schema = self.now.schema; view = map.empty; orders = [] }) }
    {
        let schema = self.schema.copy()?;
        Ok(SegmentSet::empty(alloc, schema, self.is_lazy))
    }

    /// The declaration that `new` was handed, by which each live segment was read.
    pub fn schema(&self) -> &Schema
        ensures schema { result.now ≡ self.now.schema }
        ensures read { LivesAreRead self.now }
        ensures settled { IsSettled self.now.view }
    {
        &self.schema
    }

    /// What is held of a name, if it is not unknown.
    fn held(&self, name: &Name) -> Option<&Held>
        ensures known { option_map known_of (option_copied result) ≡ map.get self.now.view name.now }
        ensures read { IfSome result (λ held. IsHeldBy self.now.schema held.now) }
        ensures settled { IsSettled self.now.view }
    {
        held_in(&self.blocks, name)
    }

    /// The segment of a name that is live with these bytes.
    fn known_segment(&self, name: &Name, bytes: &[u8]) -> Option<&Kept>
        ensures known { IsTrue (is_some result) ↔ (map.get self.now.view name.now ≡ Some (Live bytes.now)) }
        ensures bytes { IfSome result (λ kept. kept.now.content.bytes ≡ bytes.now) }
        ensures read { IfSome result (λ kept. IsReadBy self.now.schema kept.now.content) }
        ensures settled { IsSettled self.now.view }
    {
        match self.held(name) {
            Some(Held::Live(known)) if known.bytes() == bytes => Some(known),
            Some(Held::Live(_)) => None,
            Some(Held::Disputed) => None,
            Some(Held::Retired) => None,
            Some(Held::Floor) => None,
            None => None,
        }
    }

    /// Whether a floor is above the name.
    fn is_low(&self, name: &Name) -> bool
        ensures low { result ≡ is_below self.now.view name.now }
        ensures settled { IsSettled self.now.view }
    {
        is_low(&self.blocks, name)
    }

    /// Puts what is held of a name, in the place of what was.
    fn put(&mut self, name: Name, held: Held) -> Result<(), AllocError>
        requires read { IsHeldBy self.old.schema held }
        requires high { is_below self.old.view name ≡ false }
        requires marks { known_of held ≢ Floor }
        ensures ok { OnOk result
            (Becomes self.old (map.insert self.old.view name (known_of held)) self.new) }
        ensures err { OnErr result (self.new ≡ self.old) }
    {
        let count = count_after(&self.blocks, self.count, &name)?;
        self.order = None;
        self.differing = None;
        put_counted(self.alloc, &mut self.blocks, &mut self.starts, name, held)?;
        self.count = count;
        Ok(())
    }

    /// Takes bytes that were read before under a name that is not live with them.
    fn take_read(&mut self, name: Name, kept: Kept) -> Result<Taken, AllocError>
        requires read { IsReadBy self.old.schema kept.content }
        requires other { map.get self.old.view name ≢ Some (Live kept.content.bytes) }
        ensures word { IfOk result (λ word. word ≡ taken_word (known_in self.old.view name) kept.content.bytes) }
        ensures ok { let item = view_of_item (SegmentItem name kept.content.bytes) in
            OnOk result (Becomes self.old (join self.old.view item) self.new) }
        ensures idle { (result ≡ Ok Taken.Same) ⊎ (result ≡ Ok Taken.Ignored) → self.new ≡ self.old }
        ensures err { OnErr result (self.new ≡ self.old) }
    {
        if self.is_low(&name) {
            return Ok(Taken::Ignored);
        }
        match self.held(&name) {
            None => {
                self.put(name, Held::Live(kept))?;
                Ok(Taken::New)
            }
            Some(Held::Live(_)) => {
                self.put(name, Held::Disputed)?;
                Ok(Taken::Disputed)
            }
            Some(Held::Disputed) => Ok(Taken::Ignored),
            Some(Held::Retired) => Ok(Taken::Ignored),
            Some(Held::Floor) => Ok(Taken::Ignored),
        }
    }

    /// Reads bytes: all their cells, or in a lazy set no more than whether they are a segment.
    fn read(&self, bytes: &[u8]) -> Result<Kept, SegmentFault>
        ensures read { IfOk result (λ kept. IsReadBy self.now.schema kept.content) }
        ensures bytes { IfOk result (λ kept. kept.content.bytes ≡ bytes.now) }
        ensures refused { IfErr result (λ fault. Fails fault (rows_of self.now.schema bytes.now)) }
        ensures long { 67108864 < length bytes.now → result ≡ Err SegmentFault.TooLong }
    {
        if self.is_lazy {
            return self.judge(bytes);
        }
        let segment = Segment::read(self.alloc, &self.schema, bytes)?;
        let kept = Kept::new(self.alloc, segment)?;
        Ok(kept)
    }

    /// Reads bytes without their cells.
    fn judge(&self, bytes: &[u8]) -> Result<Kept, SegmentFault>
        ensures read { IfOk result (λ kept. IsReadBy self.now.schema kept.content) }
        ensures bytes { IfOk result (λ kept. kept.content.bytes ≡ bytes.now) }
        ensures refused { IfErr result (λ fault. Fails fault (rows_of self.now.schema bytes.now)) }
        ensures long { 67108864 < length bytes.now → result ≡ Err SegmentFault.TooLong }
    {
        let judged = Judged::read(self.alloc, &self.schema, bytes)?;
        let Ok(judged) = Rc::new(self.alloc, judged) else {
            return Err(SegmentFault::NoMemory);
        };
        let kept = Kept::unmade(self.alloc, judged)?;
        Ok(kept)
    }

    /// Takes a segment: these bytes under this name. The bytes are read first, whatever is known of the
    /// name, unless it is live with these bytes, which were read before: that takes no memory, as bytes that are too long take
    /// none. Where they are refused, or memory runs out, and where they tell nothing new, the set is as it was, its runs included.
    pub fn take(&mut self, name: Name, bytes: &[u8]) -> Result<Taken, TakeError>
        ensures word { IfOk result (λ word. word ≡ taken_word (known_in self.old.view name) bytes.now) }
        ensures ok { let item = view_of_item (SegmentItem name bytes.now) in
            OnOk result (Becomes self.old (join self.old.view item) self.new) }
        ensures read { OnOk result (IsOk (rows_of self.old.schema bytes.now)) }
        ensures refused { IfErr result (λ fault. Fails fault (rows_of self.old.schema bytes.now)) }
        ensures err { OnErr result (self.new ≡ self.old) }
        ensures idle { (result ≡ Ok Taken.Same) ⊎ (result ≡ Ok Taken.Ignored) → self.new ≡ self.old }
        ensures same { known_in self.old.view name ≡ Some (Live bytes.now) → result ≡ Ok Taken.Same }
        ensures long { 67108864 < length bytes.now → result ≡ Err SegmentFault.TooLong }
    {
        if self.known_segment(&name, bytes).is_some() {
            return Ok(Taken::Same);
        }
        let kept = self.read(bytes)?;
        let taken = self.take_read(name, kept)?;
        Ok(taken)
    }

    /// Takes a segment of which the bytes were judged by the set's declaration, and shares them: what `take` does, but they are not
    /// judged again. Where memory runs out the set is as it was.
    pub fn take_judged(&mut self, name: Name, judged: &Rc<Judged>) -> Result<Taken, AllocError>
        requires { IsReadBy self.old.schema judged.now.value }
        ensures word { IfOk result (λ word. word ≡ taken_word (known_in self.old.view name) judged.now.value.bytes) }
        ensures ok { let item = view_of_item (SegmentItem name judged.now.value.bytes) in
            OnOk result (Becomes self.old (join self.old.view item) self.new) }
        ensures err { OnErr result (self.new ≡ self.old) }
        ensures idle { (result ≡ Ok Taken.Same) ⊎ (result ≡ Ok Taken.Ignored) → self.new ≡ self.old }
        ensures same { known_in self.old.view name ≡ Some (Live judged.now.value.bytes) → result ≡ Ok Taken.Same }
    {
        if self.known_segment(&name, judged.bytes()).is_some() {
            return Ok(Taken::Same);
        }
        let kept = self.kept_of(judged)?;
        let taken = self.take_read(name, kept)?;
        Ok(taken)
    }

    /// What was judged, as the set keeps it.
    fn kept_of(&self, judged: &Rc<Judged>) -> Result<Kept, AllocError>
        ensures { IfOk result (λ kept. kept ≡ record { content = judged.now.value; orders = [] }) }
    {
        if self.is_lazy {
            return Kept::unmade(self.alloc, judged.clone()?);
        }
        let segment = Segment::of(self.alloc, judged)?;
        Kept::new(self.alloc, segment)
    }

    /// Takes a segment beside another set of the same declaration, which does not change: what `take`
    /// does, but where the other has the name live with these bytes its segment is shared, and no byte
    /// is read again.
    pub fn take_beside(
        &mut self,
        name: Name,
        bytes: &[u8],
        known: &SegmentSet,
    ) -> Result<Taken, TakeError>
        requires { self.old.schema ≡ known.now.schema }
        ensures word { IfOk result (λ word. word ≡ taken_word (known_in self.old.view name) bytes.now) }
        ensures ok { let item = view_of_item (SegmentItem name bytes.now) in
            OnOk result (Becomes self.old (join self.old.view item) self.new) }
        ensures read { OnOk result (IsOk (rows_of self.old.schema bytes.now)) }
        ensures refused { IfErr result (λ fault. Fails fault (rows_of self.old.schema bytes.now)) }
        ensures err { OnErr result (self.new ≡ self.old) }
        ensures idle { (result ≡ Ok Taken.Same) ⊎ (result ≡ Ok Taken.Ignored) → self.new ≡ self.old }
        ensures same { known_in self.old.view name ≡ Some (Live bytes.now) → result ≡ Ok Taken.Same }
        ensures long { 67108864 < length bytes.now → result ≡ Err SegmentFault.TooLong }
    {
        if self.known_segment(&name, bytes).is_some() {
            return Ok(Taken::Same);
        }
        let Some(kept) = known.known_segment(&name, bytes) else {
            return self.take(name, bytes);
        };
        let shared = kept.share()?;
        let taken = self.take_read(name, shared)?;
        Ok(taken)
    }

    /// Retires a name. A name that is retired takes no memory; there, and where memory runs out, the set is as it was.
    pub fn retire(&mut self, name: Name) -> Result<Retired, AllocError>
        ensures word { IfOk result (λ word. word ≡ retired_word (known_in self.old.view name)) }
        ensures ok { let item = view_of_item (RetirementItem name) in
            OnOk result (Becomes self.old (join self.old.view item) self.new) }
        ensures err { OnErr result (self.new ≡ self.old) }
        ensures same { known_in self.old.view name ≡ Some Gone → result ≡ Ok Retired.Same }
        ensures idle { result ≡ Ok Retired.Same → self.new ≡ self.old }
    {
        if self.is_retired(&name) {
            return Ok(Retired::Same);
        }
        self.put(name, Held::Retired)?;
        Ok(Retired::New)
    }

    /// Whether a floor of the name's origin is not below the name.
    fn is_reached(&self, name: &Name) -> bool
        ensures reached { result ≡ is_reached self.now.view name.now }
        ensures settled { IsSettled self.now.view }
    {
        if self.is_low(name) {
            return true;
        }
        match self.held(name) {
            Some(Held::Floor) => true,
            Some(Held::Live(_)) => false,
            Some(Held::Disputed) => false,
            Some(Held::Retired) => false,
            None => false,
        }
    }

    /// Retires all names of an origin up to this one, for good: a floor. What is held below it is dropped: that looks
    /// at the entries of the blocks from the origin's first name to the floor, and takes a step for each other block only
    /// where a live name is dropped, or blocks come or go. Where all origins of which something is known stand before that
    /// of the floor, nothing is below it, and it is put behind all entries as any name is, with no pass over the blocks. A
    /// floor that does not rise takes no memory; there, and where memory runs out, the set is as it was.
    pub fn retire_to(&mut self, name: Name) -> Result<Retired, AllocError>
        ensures word { IfOk result (λ word. word ≡ floor_word self.old.view name) }
        ensures ok { let item = view_of_item (FloorItem name) in
            OnOk result (Becomes self.old (join self.old.view item) self.new) }
        ensures err { OnErr result (self.new ≡ self.old) }
        ensures same { is_reached self.old.view name ≡ true → result ≡ Ok Retired.Same }
        ensures idle { result ≡ Ok Retired.Same → self.new ≡ self.old }
    {
        if self.is_reached(&name) {
            return Ok(Retired::Same);
        }
        let most = count_after(&self.blocks, self.count, &name)?;
        self.order = None;
        self.differing = None;
        let entries = raise_counted(self.alloc, &mut self.blocks, &mut self.starts, name, most)?;
        self.count = entries;
        Ok(Retired::New)
    }

    /// The greatest number up to which all names of an origin are retired by a floor. It is found by a binary search
    /// among the blocks and a walk through one of them, of at most 512 entries, and takes no memory.
    pub fn floor(&self, origin: &[u8]) -> Option<u32>
        ensures { result ≡ floor_of self.now.view origin.now }
    {
        floor_in(&self.blocks, origin)
    }

    /// Whether a retirement of the name tells nothing new.
    fn is_retired(&self, name: &Name) -> bool
        ensures retired { IsTrue result ↔ (known_in self.now.view name.now ≡ Some Gone) }
        ensures high { result ≡ false → is_below self.now.view name.now ≡ false }
        ensures other { result ≡ false → map.get self.now.view name.now ≢ Some Floor }
        ensures settled { IsSettled self.now.view }
    {
        if self.is_low(name) {
            return true;
        }
        match self.held(name) {
            Some(Held::Retired) => true,
            Some(Held::Floor) => true,
            Some(Held::Live(_)) => false,
            Some(Held::Disputed) => false,
            None => false,
        }
    }

    /// Whether a dispute of the name tells nothing new: it is disputed or retired.
    fn is_settled(&self, name: &Name) -> bool
        ensures word { IsTrue result ↔ (known_in self.now.view name.now ≡ Some Disputed) ⊎ (known_in self.now.view name.now ≡ Some Gone) }
        ensures high { result ≡ false → is_below self.now.view name.now ≡ false }
        ensures settled { IsSettled self.now.view }
    {
        if self.is_low(name) {
            return true;
        }
        match self.held(name) {
            None => false,
            Some(Held::Live(_)) => false,
            Some(Held::Disputed) => true,
            Some(Held::Retired) => true,
            Some(Held::Floor) => true,
        }
    }

    /// Makes a name disputed, unless it is retired: two different contents of it are known, though
    /// neither is at hand. A name that is disputed or retired takes no memory; there, and where memory runs out, the set
    /// is as it was.
    pub fn dispute(&mut self, name: Name) -> Result<(), AllocError>
        ensures ok { OnOk result
            (Becomes self.old (join self.old.view (only_disputed name)) self.new) }
        ensures err { OnErr result (self.new ≡ self.old) }
        ensures same { (known_in self.old.view name ≡ Some Disputed) ⊎ (known_in self.old.view name ≡ Some Gone) → IsOk result }
        ensures idle { (known_in self.old.view name ≡ Some Disputed) ⊎ (known_in self.old.view name ≡ Some Gone)
            → self.new ≡ self.old }
    {
        if self.is_settled(&name) {
            return Ok(());
        }
        self.put(name, Held::Disputed)
    }

    /// Learns all that the other set knows. Sets of different declarations are not joined; there, and
    /// where memory runs out, the set is as it was.
    ///
    /// Each join looks the other's names up in this set, up to the first that teaches something; one that teaches nothing
    /// makes no list and takes no memory. Any other then goes over the names of both sets, whatever the segments' sizes: it
    /// makes a list of the entries of each set and one of both, some 64 bytes a name each, and puts the last into blocks of
    /// 512, so that each entry is shared three times. Segments and their runs are shared: none is read or made, and no byte
    /// or cell is copied. Of a segment that both have the runs of this set stay.
    pub fn join(&mut self, other: &SegmentSet) -> Result<(), JoinError>
        ensures ok { OnOk result (Becomes self.old (join self.old.view other.now.view) self.new) }
        ensures same { OnOk result (self.old.schema ≡ other.now.schema) }
        ensures refused { result ≡ Err JoinError.OtherSchema → self.old.schema ≢ other.now.schema }
        ensures other { self.old.schema ≢ other.now.schema → result ≡ Err JoinError.OtherSchema }
        ensures known { self.old.schema ≡ other.now.schema → join self.old.view other.now.view ≡ self.old.view → IsOk result }
        ensures idle { self.old.schema ≡ other.now.schema → join self.old.view other.now.view ≡ self.old.view → self.new ≡ self.old }
        ensures err { OnErr result (self.new ≡ self.old) }
    {
        if !self.schema.is_same(&other.schema) {
            return Err(JoinError::OtherSchema);
        }
        if !teaches(&self.blocks, &other.blocks) {
            return Ok(());
        }
        let Ok(entries) = joined(self.alloc, &self.blocks, &other.blocks) else {
            return Err(JoinError::NoMemory);
        };
        let names = entries.len();
        let Ok(blocks) = in_blocks(self.alloc, &entries) else {
            return Err(JoinError::NoMemory);
        };
        let Ok(starts) = starts_of(self.alloc, &blocks) else {
            return Err(JoinError::NoMemory);
        };
        self.order = None;
        self.differing = None;
        self.blocks = blocks;
        self.starts = starts;
        self.count = names;
        Ok(())
    }

    /// Makes the run of these keys of each live segment that has none. Where it finds no memory the runs that were made so
    /// far stay.
    fn make_runs(&mut self, keys: &[SortKey]) -> Result<(), AllocError>
        ensures same { Becomes self.old self.old.view self.new }
        ensures has { OnOk result (All (λ orders. IsAmong orders keys.now) self.new.orders) }
        ensures adds { AreAdded keys.now self.old.orders self.new.orders }
    {
        make_in(self.alloc, &mut self.blocks, keys)?;
        Ok(())
    }

    /// How many names are live. It takes constant time.
    pub fn live_count(&self) -> usize
        ensures count { result ≡ length (lives self.now.view) }
        ensures orders { result ≡ length self.now.orders }
    {
        live_count_in(&self.blocks, &self.starts)
    }

    /// The i-th live name from 0, in the order of names, and its content, which was read by the set's declaration. It is
    /// found by a binary search among the blocks and a walk through one of them, of at most 512 entries, and takes no
    /// memory.
    pub fn live_at(&self, i: usize) -> (Name, &Kept)
        requires { i < length (lives self.now.view) }
        ensures known { slice_get (lives self.now.view) i ≡ Some (result.0, result.1.now.content.bytes) }
        ensures read { IsReadBy self.now.schema result.1.now.content }
    {
        live_in(&self.blocks, &self.starts, i)
    }

    /// Whether the run of these keys is kept of the segment of `live_at(i)`. It takes the time of `live_at` and looks at the
    /// keys of at most four runs, and takes no memory.
    pub fn has_run(&self, i: usize, keys: &[SortKey]) -> bool
        requires { i < length (lives self.now.view) }
        ensures { IsTrue result ↔ IsAmong (slice_index_or self.now.orders i []) keys.now }
    {
        let (_, kept) = live_in(&self.blocks, &self.starts, i);
        kept.has(keys)
    }

    /// The rows of all live segments by these keys, if their order is kept.
    fn kept_rows(&self, keys: &[SortKey]) -> Result<Option<Vec<RowRef>>, AllocError>
        ensures { IfOk result (λ found. IfSome found (λ refs. refs.items ≡ refs_by keys.now (live_rows self.now))) }
    {
        let Some(order) = &self.order else {
            return Ok(None);
        };
        if !is_by(order, keys) {
            return Ok(None);
        }
        let rows = unpacked(self.alloc, order)?;
        Ok(Some(rows))
    }

    /// The rows of all live segments, merged from their runs of these keys, and the sizes of these.
    fn merged(&self, keys: &[SortKey]) -> Result<(Vec<RowRef>, RunSizes), AllocError>
        requires { All (λ orders. IsAmong orders keys.now) self.now.orders }
        ensures { IfOk result (λ told. told.0.items ≡ refs_by keys.now (live_rows self.now)) }
    {
        let sources = sources(self.alloc, &self.blocks, keys)?;
        let rows = wruns::ordered(self.alloc, keys, &sources)?;
        Ok((rows, RunSizes::of_sources(&sources)))
    }

    /// Keeps the order of the rows of all live segments by these keys in the place of the one before, which is let go first. Where
    /// it finds no memory none is kept.
    fn keep_order(&mut self, keys: &[SortKey], rows: &[RowRef])
        requires { rows.now ≡ refs_by keys.now (live_rows self.old) }
        ensures { self.new ≡ self.old }
    {
        self.order = None;
        if let Ok(order) = order_kept(self.alloc, keys, rows) {
            self.order = order;
        }
    }

    /// Keeps the order of the rows of all live segments, if runs of these sizes cost much to merge again.
    fn keep_costly(&mut self, keys: &[SortKey], rows: &[RowRef], sizes: RunSizes)
        requires { rows.now ≡ refs_by keys.now (live_rows self.old) }
        ensures { self.new ≡ self.old }
    {
        if sizes.cost_much() {
            self.keep_order(keys, rows);
        }
    }

    /// The rows of all live segments, merged from their runs of these keys. Where that costs much, and there are several segments,
    /// the order is kept in the place of the one before, if there is memory for it.
    fn merge(&mut self, keys: &[SortKey]) -> Result<Vec<RowRef>, AllocError>
        requires { All (λ orders. IsAmong orders keys.now) self.old.orders }
        ensures list { IfOk result (λ refs. refs.items ≡ refs_by keys.now (live_rows self.old)) }
        ensures same { self.new ≡ self.old }
    {
        let (rows, sizes) = self.merged(keys)?;
        self.keep_costly(keys, &rows, sizes);
        Ok(rows)
    }

    /// The rows of all live segments by keys, and the run of each of them, dealt out of that order.
    fn dealt(&self, keys: &[SortKey]) -> Result<Dealt, AllocError>
        ensures rows { IfOk result (λ dealt. dealt.rows.items ≡ refs_by keys.now (live_rows self.now)) }
        ensures runs { IfOk result (λ dealt. AreRunsOf keys.now (live_rows self.now) dealt.runs.items) }
    {
        let segments = segments(self.alloc, &self.blocks)?;
        let dealt = deal_runs(self.alloc, &segments, keys)?;
        Ok(dealt)
    }

    /// Keeps runs by these keys, one for each live segment, where it has none. Where it finds no memory the runs that were kept so
    /// far stay.
    fn keep_runs(&mut self, keys: &[SortKey], runs: &[Rc<Run>]) -> Result<(), AllocError>
        requires { AreRunsOf keys.now (live_rows self.old) runs.now }
        ensures same { Becomes self.old self.old.view self.new }
        ensures has { OnOk result (All (λ orders. IsAmong orders keys.now) self.new.orders) }
        ensures adds { AreAdded keys.now self.old.orders self.new.orders }
    {
        keep_in(self.alloc, &mut self.blocks, keys, runs)?;
        Ok(())
    }

    /// The rows of all live segments by keys, sorted at once as one table. Each segment keeps the run that this order has of it,
    /// and the order is kept as after a merge.
    fn sort_and_deal(&mut self, keys: &[SortKey]) -> Result<Vec<RowRef>, AllocError>
        ensures list { IfOk result (λ refs. refs.items ≡ refs_by keys.now (live_rows self.old)) }
        ensures has { OnOk result (All (λ orders. IsAmong orders keys.now) self.new.orders) }
        ensures adds { AreAdded keys.now self.old.orders self.new.orders }
        ensures same { Becomes self.old self.old.view self.new }
    {
        self.make()?;
        let Dealt { rows, runs } = self.dealt(keys)?;
        self.keep_runs(keys, &runs)?;
        let sizes = RunSizes::of_runs(&runs);
        self.keep_costly(keys, &rows, sizes);
        Ok(rows)
    }

    /// The rows of all live segments by keys, from their runs, which are made where a segment has none.
    fn make_and_merge(&mut self, keys: &[SortKey]) -> Result<Vec<RowRef>, AllocError>
        ensures list { IfOk result (λ refs. refs.items ≡ refs_by keys.now (live_rows self.old)) }
        ensures has { OnOk result (All (λ orders. IsAmong orders keys.now) self.new.orders) }
        ensures adds { AreAdded keys.now self.old.orders self.new.orders }
        ensures same { Becomes self.old self.old.view self.new }
    {
        self.make_runs(keys)?;
        let kept = self.kept_rows(keys)?;
        match kept {
            Some(rows) => Ok(rows),
            None => self.merge(keys),
        }
    }

    /// The rows of all live segments by keys, then by name and place: `segment` of a row is the number of its segment for
    /// `live_at`. A value that is not there, as no column has this number, is null.
    ///
    /// Each live segment has a run of these keys afterwards, by which the rows are found in order the next time; of five runs
    /// of a segment the one that was made first is let go, and no other is made or let go. Where none has one yet, and there
    /// are several, all rows are sorted at once and the runs are dealt out of that order; else each run that is missing is made
    /// by itself. Where several segments have many different keys the order is kept, too, in the place of the one before, until
    /// what is known changes: 4 bytes a row; where memory runs out for that alone, none is kept. What is known stays as it is,
    /// also where memory runs out before the rows are found: then the runs that were made so far stay.
    pub fn ordered(&mut self, keys: &[SortKey]) -> Result<Vec<RowRef>, AllocError>
        ensures list { IfOk result (λ refs. refs.items ≡ refs_by keys.now (live_rows self.old)) }
        ensures has { OnOk result (All (λ orders. IsAmong orders keys.now) self.new.orders) }
        ensures adds { AreAdded keys.now self.old.orders self.new.orders }
        ensures same { Becomes self.old self.old.view self.new }
    {
        if self.live_count() > 1 && can_be_dealt(&self.blocks, keys) {
            self.sort_and_deal(keys)
        } else {
            self.make_and_merge(keys)
        }
    }

    /// Whether no two rows of all live segments share these keys, told from the rows in their order.
    fn rows_differ(&self, keys: &[SortKey], rows: &[RowRef]) -> Result<bool, AllocError>
        requires { rows.now ≡ refs_by keys.now (live_rows self.now) }
        ensures { IfOk result (λ differ. IsTrue differ ↔ AllDiffer keys.now (joined (live_rows self.now))) }
    {
        let segments = segments(self.alloc, &self.blocks)?;
        Ok(wruns::all_differ(keys, &segments, rows))
    }

    /// Whether no two rows of all live segments share these keys, told from these rows, which [`SegmentSet::ordered`] gave for them.
    ///
    /// Each row is compared with the next one, up to the first two that share their keys, and the answer is noted beside the keys, in
    /// the place of the one for other keys before. A note for these keys is found without a look at a row, until what is known changes.
    /// Where memory runs out for the note alone, none is kept. `AllocError` where it runs out before: for the cells of a segment that
    /// has none, or for a list of the segments.
    pub fn all_differ(&mut self, keys: &[SortKey], rows: &[RowRef]) -> Result<bool, AllocError>
        requires rows { rows.now ≡ refs_by keys.now (live_rows self.old) }
        ensures differ { IfOk result (λ differ. differ ≡ true → AllDiffer keys.now (joined (live_rows self.old))) }
        ensures shared { IfOk result (λ differ. differ ≡ false → AllDiffer keys.now (joined (live_rows self.old)) → ⊥) }
        ensures same { self.new ≡ self.old }
    {
        if let Some(differ) = Differing::told(&self.differing, keys) {
            return Ok(differ);
        }
        self.make()?;
        let differ = self.rows_differ(keys, rows)?;
        self.differing = Differing::note(self.alloc, keys, differ);
        Ok(differ)
    }

    /// How a name stands.
    pub fn status(&self, name: Name) -> Status
        ensures { result ≡ status_word (known_in self.now.view name) }
    {
        if self.is_low(&name) {
            return Status::Retired;
        }
        match self.held(&name) {
            None => Status::Unknown,
            Some(Held::Floor) => Status::Retired,
            Some(held) => held.status(),
        }
    }

    /// Each floor, and each name above it that is not unknown, in the order of names.
    #[tactic(auto, using(crate::proofs::KeptSets::names_listed))]
    pub fn list(&self) -> Result<Vec<Listed>, AllocError>
        ensures { IfOk result
            (λ all. all.items ≡ list_map (listed self.now.schema) (map.entries self.now.view)) }
    {
        let all = listing(self.alloc, &self.blocks)?;
        Ok(all)
    }

    /// How many names `names` has: each floor, and each name above it that is not unknown.
    #[tactic(auto, using(crate::proofs::KeptSets::names_counted))]
    pub fn name_count(&self) -> usize
        ensures count { result ≡ length (map.entries self.now.view) }
        ensures settled { IsSettled self.now.view }
    {
        self.count
    }

    /// Each floor, and each name above it that is not unknown, with what is known of it, in the order of names, in one pass.
    #[tactic(auto, using(crate::proofs::KeptSets::names_told))]
    pub fn names(&self) -> Names<'_>
        ensures { result ≡ map.entries self.now.view }
    {
        Names::new(&self.blocks)
    }

    /// Whether all names that are not unknown stand before the name. It takes constant time.
    pub fn ends_before(&self, name: &Name) -> bool
        ensures before { IsTrue result ↔ IsAbove self.now.view name.now }
        ensures settled { IsSettled self.now.view }
    {
        end_before(&self.blocks, name)
    }

    /// Whether all origins of which something is known stand before that of the name. It takes constant time.
    pub fn ends_before_origin(&self, name: &Name) -> bool
        ensures before { IsTrue result ↔ IsBehindOrigins self.now.view name.now }
        ensures settled { IsSettled self.now.view }
    {
        end_before_origin(&self.blocks, name)
    }

    /// Makes the cells of each live segment that has none. Where it finds no memory those that were made so far stay. What a
    /// contract sees of the set stays as it is.
    pub fn make(&mut self) -> Result<(), AllocError>
        ensures { self.new ≡ self.old }
    {
        make_cells_in(self.alloc, &mut self.blocks)?;
        Ok(())
    }

    /// Each live name and its content, in the order of names, in one pass.
    #[tactic(auto, using(crate::proofs::KeptSets::lives_known, crate::proofs::KeptSets::lives_read))]
    pub fn lives(&self) -> Lives<'_>
        ensures { AreLivesOf self.now result }
    {
        Lives::new(&self.blocks)
    }
}
