//! Orders of rows that several windows share.
ghost use Rattle.std.specs.Prelude.{◌≡◌, ◌≤◌, ◌<◌, ◌+◌, ◌-◌, ◌^◌, if◌then◌else◌, List, length, min, slice_index_or};
ghost use Rattle.std.specs.Prelude.{Ok, IfSome, OnErr, OnOk};
ghost use Rattle.std.specs.List.{list_any};
ghost use Rattle.std.specs.Option.{is_some};
ghost use Rattle.wplan.specs.Plans.{window_plan};
ghost use Rattle.wshare.specs.Sameness.{is_same_order};
ghost use Rattle.wrows.specs.Columns.{Row};
ghost use Rattle.wrows.specs.Laid.{rows_seen};
ghost use Rattle.wrows.specs.Outcomes.{Gives};
ghost use Rattle.wcalls.specs.Ordered.{ordered_rows};
ghost use Rattle.wplanner.specs.KeptOrders.{AreOrdersOf, serves, with_shared};
ghost use Rattle.wtable.specs.TableOrders.{ArePresortedOf, presorts};

use std::alloc::{AllocError, Global};
use waggregate::Tally;
use wcalls::{WindowOrder, share_order};
use wplan::ResolvedWindow;
use wrows::AnswerFault;
use wtable::{PresortedOrder, take_presorted};
use wvalues::Value;

/// The rows in the order of a window.
#[derive(Drop)]
pub(crate) struct KeptOrder<'a> {
    pub(crate) window: &'a ResolvedWindow,
    pub(crate) order: WindowOrder<'a>,
}

// The place of an order that is also that of a window.
fn place_shared(kept: &[KeptOrder], window: &ResolvedWindow) -> Option<usize>
    ensures found { is_some result ≡ list_any (serves window.now) kept.now }
    ensures place { IfSome result (λ place. place < length kept.now) }
    ensures order { (rows : List Row) → AreOrdersOf rows kept.now → IfSome result (λ place. (d : KeptOrder)
        → ordered_rows rows (window_plan window.now) ≡ Ok (slice_index_or kept.now place d).order) }
{
    for (place, shared) in kept.iter().enumerate() {
        if share_order(shared.window, window) {
            return Some(place);
        }
    }
    None
}

// Takes out an order that is also that of a window, if there is one.
fn take_shared<'a>(
    kept: &mut Vec<KeptOrder<'a>>,
    window: &ResolvedWindow,
) -> Option<WindowOrder<'a>>
    ensures found { is_some result ≡ list_any (serves window.now) kept.old.items }
    ensures order { (rows : List Row) → AreOrdersOf rows kept.old.items
        → IfSome result (λ order. ordered_rows rows (window_plan window.now) ≡ Ok order) }
    ensures others { (rows : List Row) → AreOrdersOf rows kept.old.items → AreOrdersOf rows kept.new.items }
    ensures fewer { length kept.new.items + (if list_any (serves window.now) kept.old.items then 1 else 0) ≡ length kept.old.items }
{
    match place_shared(kept.as_slice(), window) {
        None => None,
        Some(place) => {
            let KeptOrder { order, .. } = kept.remove(place);
            Some(order)
        }
    }
}

// The rows in the order of a window, whose numbers are taken out where it is presorted, with what is known of their keys. It
// counts among the orders.
fn new_order<'a>(
    alloc: Global,
    window: &ResolvedWindow,
    rows: &'a [&'a [Value]],
    presorted: &mut Vec<PresortedOrder>,
    made: &mut Tally,
) -> Result<WindowOrder<'a>, AnswerFault>
    requires { ArePresortedOf (rows_seen rows.now) presorted.old.items }
    ensures order { Gives (λ order. order) result (ordered_rows (rows_seen rows.now) (window_plan window.now)) }
    ensures others { ArePresortedOf (rows_seen rows.now) presorted.new.items }
    ensures taken { length presorted.new.items + (if list_any (presorts window.now) presorted.old.items then 1 else 0)
        ≡ length presorted.old.items }
    ensures made { made.new ≤ made.old + 1 }
    ensures counted { OnOk result (made.new ≡ min (made.old + 1) (2 ^ 64 - 1)) }
    ensures none { OnErr result (made.new ≡ made.old) }
{
    match take_presorted(presorted, window) {
        Some(taken) => WindowOrder::presorted(alloc, window, rows, taken, made),
        None => WindowOrder::new(alloc, window, rows, made),
    }
}

/// The rows in the order of a window: a kept order that it shares, which is taken out, else a new one, which counts among
/// the orders.
pub(crate) fn order_of<'a>(
    alloc: Global,
    window: &ResolvedWindow,
    rows: &'a [&'a [Value]],
    kept: &mut Vec<KeptOrder<'a>>,
    presorted: &mut Vec<PresortedOrder>,
    made: &mut Tally,
) -> Result<WindowOrder<'a>, AnswerFault>
    requires kept { AreOrdersOf (rows_seen rows.now) kept.old.items }
    requires presorted { ArePresortedOf (rows_seen rows.now) presorted.old.items }
    ensures order { Gives (λ order. order) result (ordered_rows (rows_seen rows.now) (window_plan window.now)) }
    ensures others { AreOrdersOf (rows_seen rows.now) kept.new.items }
    ensures presorted { ArePresortedOf (rows_seen rows.now) presorted.new.items }
    ensures fewer { length kept.new.items + (if list_any (serves window.now) kept.old.items then 1 else 0) ≡ length kept.old.items }
    ensures made { made.new ≤ made.old + (if list_any (serves window.now) kept.old.items then 0 else 1) }
    ensures counted { OnOk result (made.new ≡ (if list_any (serves window.now) kept.old.items then made.old
        else min (made.old + 1) (2 ^ 64 - 1))) }
    ensures none { OnErr result (made.new ≡ made.old) }
{
    match take_shared(kept, window) {
        Some(order) => Ok(order),
        None => new_order(alloc, window, rows, presorted, made),
    }
}

// Whether one of the later windows shares the order of this one.
fn is_shared_later(window: &ResolvedWindow, later: &[ResolvedWindow]) -> bool
    ensures { result ≡ list_any (is_same_order window.now) later.now }
{
    later.iter().any(|other| share_order(window, other))
}

/// Keeps the order of a window's rows, where one of the later windows shares it.
pub(crate) fn keep_shared<'a>(
    kept: &mut Vec<KeptOrder<'a>>,
    window: &'a ResolvedWindow,
    order: WindowOrder<'a>,
    later: &[ResolvedWindow],
) -> Result<(), AllocError>
    ensures kept { OnOk result (kept.new.items ≡ with_shared later.now (record {
      window = window.entry;
      order =
          order.entry;
    }) kept.old.items) }
    ensures orders { (rows : List Row) → ordered_rows rows (window_plan window.entry.now) ≡ Ok order.entry
        → AreOrdersOf rows kept.old.items → AreOrdersOf rows kept.new.items }
{
    if is_shared_later(window, later) {
        kept.push(KeptOrder { window, order })?;
    }
    Ok(())
}
