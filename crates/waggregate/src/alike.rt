//! Which calls are fed alike.
ghost use Rattle.std.specs.Prelude.{◌≡◌};
ghost use Rattle.waggregate.specs.Alike.{asked_so_far, extremes_alike, is_fed_by};
ghost use Rattle.waggregate.specs.Summaries.{with_asked};

use crate::feeding::is_null;
use crate::summaries::Extremes;
use wplan::{Aggregate, AggregateFunction, GroupCall};
use wrows::place_of;

// Whether an aggregate reads the column of a place, or none.
fn is_read_by(aggregate: &Aggregate, place: usize) -> bool
    ensures { result ≡ is_fed_by place aggregate.now }
{
    match place_of(&aggregate.argument) {
        None => is_null(&aggregate.argument),
        Some(other) => other == place,
    }
}

// The extremes that some aggregates ask for, if there are any, and those that another one does.
fn with_asked(found: Option<Extremes>, function: AggregateFunction) -> Extremes
    ensures { result ≡ with_asked (asked_so_far found) function }
{
    let extremes = match found {
        None => Extremes::none(),
        Some(extremes) => extremes,
    };
    extremes.with(function)
}

/// The extremes that those of the calls ask for which are fed alike: the aggregates without FILTER that read the column of a place,
/// or none, up to the first one that reads another. None where no call is fed so.
#[tactic(auto, using(crate::proofs::AlikeFacts::asked_from))]
pub fn extremes_of(calls: &[GroupCall], place: usize) -> Option<Extremes>
    ensures { result ≡ extremes_alike place calls.now }
{
    let mut found: Option<Extremes> = None;
    for call in calls {
        let GroupCall::Aggregated(aggregate) = call else {
            continue;
        };
        if !is_read_by(aggregate, place) {
            break;
        }
        if aggregate.filter.is_none() {
            found = Some(with_asked(found, aggregate.function));
        }
    }
    found
}
