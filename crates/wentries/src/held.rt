//! What a set holds of a name.
ghost use Rattle.std.specs.Prelude.{◌≡◌, false, drop, length, IfOk, OnOk};
ghost use Rattle.wentries.specs.Keeping.{AreAdded, BeginWithRuns, HeldHasRun, orders_held, plain_held, rows_held};
ghost use Rattle.wentries.specs.Knowledge.{Live, join_known};
ghost use Rattle.wentries.specs.Holding.{IsReadBy, status_of_known, told_of, IsHeldBy, known_of, row_count_of};
ghost use Rattle.wsegment.specs.Declaration.{Declaration};

use crate::kept_content::Kept;
use crate::known::Known;
use crate::status::Status;
use std::alloc::{AllocError, Global};
use std::rc::Rc;
use wruns::Run;
use wvalues::SortKey;

/// What is held of a name that is not unknown. The bytes of disputed and retired names are dropped.
#[derive(Drop)]
pub enum Held {
    Live(Kept),
    Disputed,
    Retired,
    /// It is retired, and so are all names of its origin with a smaller number.
    Floor,
}

/// What two sets know together of a name that is live in both.
fn contents_joined(ours: &Kept, theirs: &Kept) -> Result<Held, AllocError>
    ensures known { IfOk result
        (λ held. known_of held ≡ join_known (Live ours.now.content.bytes) (Live theirs.now.content.bytes)) }
    ensures read { IfOk result (λ held. (d : Declaration) → IsReadBy d ours.now.content → IsHeldBy d held) }
{
    if ours.bytes() != theirs.bytes() {
        return Ok(Held::Disputed);
    }
    let shared = ours.share()?;
    Ok(Held::Live(shared))
}

impl Held {
    /// The same, for another set.
    pub(crate) fn share(&self) -> Result<Held, AllocError>
        ensures { IfOk result (λ held. held ≡ self.now) }
    {
        match self {
            Held::Live(kept) => {
                let shared = kept.share()?;
                Ok(Held::Live(shared))
            }
            Held::Disputed => Ok(Held::Disputed),
            Held::Retired => Ok(Held::Retired),
            Held::Floor => Ok(Held::Floor),
        }
    }

    /// What two sets know together of a name of which they hold these.
    pub(crate) fn joined(&self, other: &Held) -> Result<Held, AllocError>
        ensures known { IfOk result
            (λ held. known_of held ≡ join_known (known_of self.now) (known_of other.now)) }
        ensures read { IfOk result (λ held. (d : Declaration) → IsHeldBy d self.now → IsHeldBy d held) }
    {
        match (self, other) {
            (Held::Floor, _) | (_, Held::Floor) => Ok(Held::Floor),
            (Held::Retired, _) | (_, Held::Retired) => Ok(Held::Retired),
            (Held::Disputed, _) | (_, Held::Disputed) => Ok(Held::Disputed),
            (Held::Live(ours), Held::Live(theirs)) => contents_joined(ours, theirs),
        }
    }

    /// Whether another's knowledge of a name adds to this.
    pub fn learns(&self, other: &Held) -> bool
        ensures known { result ≡ false → join_known (known_of self.now) (known_of other.now) ≡ known_of self.now }
        ensures new { join_known (known_of self.now) (known_of other.now) ≡ known_of self.now → result ≡ false }
    {
        match (self, other) {
            (Held::Floor, _) => false,
            (_, Held::Floor) => true,
            (Held::Retired, _) => false,
            (_, Held::Retired) => true,
            (Held::Disputed, _) => false,
            (Held::Live(_), Held::Disputed) => true,
            (Held::Live(ours), Held::Live(theirs)) => ours.bytes() != theirs.bytes(),
        }
    }

    /// Makes the run of these keys of a segment that has none.
    pub(crate) fn make(&mut self, alloc: Global, keys: &[SortKey]) -> Result<(), AllocError>
        ensures plain { plain_held self.new ≡ plain_held self.old }
        ensures has { OnOk result (HeldHasRun keys.now self.new) }
        ensures adds { AreAdded keys.now (orders_held self.old) (orders_held self.new) }
    {
        match self {
            Held::Live(kept) => kept.make(alloc, keys),
            Held::Disputed | Held::Retired | Held::Floor => Ok(()),
        }
    }

    /// Keeps the first of some runs by these keys, if there is a segment, and gives those that are left.
    pub(crate) fn keep_run<'a>(
        &mut self,
        alloc: Global,
        keys: &[SortKey],
        runs: &'a [Rc<Run>],
    ) -> Result<&'a [Rc<Run>], AllocError>
        requires { BeginWithRuns keys.now (rows_held self.old) runs.now }
        ensures plain { plain_held self.new ≡ plain_held self.old }
        ensures has { OnOk result (HeldHasRun keys.now self.new) }
        ensures adds { AreAdded keys.now (orders_held self.old) (orders_held self.new) }
        ensures left { IfOk result (λ left. left.now ≡ drop (length (rows_held self.old)) runs.now) }
    {
        match self {
            Held::Live(kept) => {
                kept.keep_run(alloc, keys, &runs[0])?;
                Ok(&runs[1..])
            }
            Held::Disputed | Held::Retired | Held::Floor => Ok(runs),
        }
    }

    /// Makes the cells of a segment that has none.
    pub(crate) fn make_cells(&mut self, alloc: Global) -> Result<(), AllocError>
        ensures { self.new ≡ self.old }
    {
        match self {
            Held::Live(kept) => kept.make_cells(alloc),
            Held::Disputed | Held::Retired | Held::Floor => Ok(()),
        }
    }

    /// The number of rows of the segment, and none where there is no segment.
    pub(crate) fn rows(&self) -> usize
        ensures { result ≡ row_count_of self.now }
    {
        match self {
            Held::Live(kept) => kept.rows(),
            Held::Disputed | Held::Retired | Held::Floor => 0,
        }
    }

    /// What is known of a name of which this is held.
    pub fn lent(&self) -> Known<'_>
        ensures { told_of result ≡ known_of self.now }
    {
        match self {
            Held::Live(kept) => Known::Live(kept.judged()),
            Held::Disputed => Known::Disputed,
            Held::Retired => Known::Retired,
            Held::Floor => Known::Floor,
        }
    }

    /// How a name stands of which this is held.
    pub fn status(&self) -> Status
        ensures { result ≡ status_of_known (known_of self.now) }
    {
        match self {
            Held::Live(_) => Status::Live,
            Held::Disputed => Status::Disputed,
            Held::Retired => Status::Retired,
            Held::Floor => Status::Floor,
        }
    }
}
