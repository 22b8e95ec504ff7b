//! Windows with their defaults written out.

ghost use Rattle.std.specs.Prelude.{◌≡◌, ◌++◌, ◌<◌, ◌^◌, IfOk, OnOk, map, Some};
ghost use Rattle.wquery.specs.Tree.{view_over, view_optional_over, reach_of, view_call, view_key, view_keys, views, trees, keys};
ghost use Rattle.wplan.specs.Formula.{formula};
ghost use Rattle.wplan.specs.Plans.{key_plan, window_plan, call_plan};
ghost use Rattle.wscope.specs.Earlier.{windows_in};
ghost use Rattle.wscope.specs.Windows.{named_windows, expanded_window};
ghost use Rattle.wdistinct.specs.Calls.{call_trees};
ghost use Rattle.wbinding.specs.Resolving.{layout_of, resolved};
ghost use Rattle.wbinding.specs.Functions.{call_function as function_of_call};
ghost use Rattle.wresolve.specs.Selecting.{nulls_first as stand_first, sort_key as sort_key_of, key_made, trees_made, keys_made};
ghost use Rattle.wresolve.specs.Selecting.{frame_made, or_no_others, window_made, entries_made, own_window, window_of_reach};
ghost use Rattle.wresolve.specs.Selecting.{place_of_reach, is_own_window as is_with_own, own_windows as windows_of_calls};
ghost use Rattle.wresolve.specs.Selecting.{window_place as place_of_window, place_over as place_of_call};
ghost use Rattle.wresolve.specs.Selecting.{has_own_window as is_with_window, calls_made};

use std::alloc::{AllocError, Global};
use wbinding::{RowLayout, build, build_function, build_listed};
use wnodes::frame_end;
use wplan::{CallOver, Expr, ResolvedFrame, ResolvedKey, ResolvedWindow};
use wquery::{
    Call, Expression, Frame, FrameBound, FrameExclusion, FrameMode, Key, NullOrder, Over,
};
use wscope::{Earlier, FullEntry, FullWindow, WindowIndex};
use wvalues::SortKey;

fn nulls_first(descending: bool, nulls: Option<NullOrder>) -> bool
    ensures { result ≡ stand_first descending nulls }
{
    match nulls {
        None => descending,
        Some(NullOrder::First) => true,
        Some(NullOrder::Last) => false,
    }
}

/// How the rows stand by a key, with where its nulls stand.
pub(crate) fn sort_key(descending: bool, nulls: Option<NullOrder>) -> SortKey
    ensures { result ≡ sort_key_of descending nulls }
{
    SortKey {
        col: 0,
        desc: descending,
        nulls_first: nulls_first(descending, nulls),
    }
}

#[tactic(auto, unfolding(wquery::specs::Tree::view_key, wquery::specs::Tree::view))]
fn build_key(alloc: Global, layout: &RowLayout, key: &Key) -> Result<ResolvedKey, AllocError>
    ensures { IfOk result (λ k. key_plan k ≡ key_made (resolved (layout_of layout.now) (view_key key.now).expression)
        (view_key key.now).descending (view_key key.now).nulls) }
{
    let value = build(alloc, layout, &key.expression)?;
    Ok(ResolvedKey {
        value,
        order: sort_key(key.descending, key.nulls),
    })
}

fn build_keys(
    alloc: Global,
    layout: &RowLayout,
    order: &[Key],
) -> Result<Vec<ResolvedKey>, AllocError>
    ensures { IfOk result (λ made. map key_plan made.items ≡ keys_made (layout_of layout.now) (keys (view_keys order.now))) }
{
    let mut made = Vec::with_capacity(alloc, order.len())?;
    'keys: for key in order {
        let next = build_key(alloc, layout, key)?;
        made.push(next)?;
    }
    Ok(made)
}

#[tactic(auto, using(crate::proofs::Listed::trees_made_map))]
fn build_partition(
    alloc: Global,
    layout: &RowLayout,
    partition: &[Expression],
) -> Result<Vec<Expr>, AllocError>
    ensures { IfOk result (λ made. map formula made.items ≡ trees_made (layout_of layout.now) (trees (views partition.now))) }
{
    let made = build_listed(alloc, layout, partition)?;
    Ok(made)
}

fn exclusion_or_none(exclusion: Option<FrameExclusion>) -> FrameExclusion
    ensures { result ≡ or_no_others exclusion }
{
    match exclusion {
        None => FrameExclusion::NoOthers,
        Some(exclusion) => exclusion,
    }
}

fn frame_of(frame: &Frame) -> ResolvedFrame
    ensures { result ≡ frame_made (Some frame.now) }
{
    let start = frame.start;
    let end = frame_end(frame);
    ResolvedFrame {
        mode: frame.mode,
        start,
        end,
        exclusion: exclusion_or_none(frame.exclusion),
    }
}

// A frame clause with its defaults written out. Without one it is RANGE UNBOUNDED PRECEDING.
fn resolved_frame(window: &FullWindow) -> ResolvedFrame
    ensures { result ≡ frame_made (expanded_window window.now).frame }
{
    match window.frame {
        None => ResolvedFrame {
            mode: FrameMode::Range,
            start: FrameBound::UnboundedPreceding,
            end: FrameBound::CurrentRow,
            exclusion: FrameExclusion::NoOthers,
        },
        Some(frame) => frame_of(frame),
    }
}

fn build_window(
    alloc: Global,
    layout: &RowLayout,
    window: &FullWindow,
) -> Result<ResolvedWindow, AllocError>
    ensures { IfOk result (λ w. window_plan w ≡ window_made (layout_of layout.now) (expanded_window window.now)) }
{
    let partition = build_partition(alloc, layout, window.partition)?;
    let keys = build_keys(alloc, layout, window.order)?;
    Ok(ResolvedWindow {
        partition,
        keys,
        frame: resolved_frame(window),
    })
}

/// The windows of WINDOW entries, used or not.
pub(crate) fn build_entries(
    alloc: Global,
    layout: &RowLayout,
    entries: &[FullEntry],
) -> Result<Vec<ResolvedWindow>, AllocError>
    ensures { IfOk result (λ made. map window_plan made.items ≡ entries_made (layout_of layout.now) (named_windows entries.now)) }
{
    let mut made = Vec::with_capacity(alloc, entries.len())?;
    'entries: for entry in entries {
        let next = build_window(alloc, layout, &entry.window)?;
        made.push(next)?;
    }
    Ok(made)
}

#[tactic(auto, unfolding(wquery::specs::Tree::view_over, wquery::specs::Tree::view_window))]
fn push_window_over(
    alloc: Global,
    layout: &RowLayout,
    entries: &WindowIndex,
    windows: &mut Vec<ResolvedWindow>,
    over: &Over,
) -> Result<(), AllocError>
    ensures { OnOk result (map window_plan windows.new.items ≡ map window_plan windows.old.items ++ window_of_reach
        (layout_of layout.now) (windows_in entries.now) (view_over over.now)) }
{
    let Over::Windowed(window) = over else {
        return Ok(());
    };
    let earlier = Earlier {
        index: entries,
        before: None,
    };
    let window = earlier.expanded(window);
    let made = build_window(alloc, layout, &window)?;
    windows.push(made)?;
    Ok(())
}

fn push_optional_window(
    alloc: Global,
    layout: &RowLayout,
    entries: &WindowIndex,
    windows: &mut Vec<ResolvedWindow>,
    over: &Option<Over>,
) -> Result<(), AllocError>
    ensures { OnOk result (map window_plan windows.new.items ≡ map window_plan windows.old.items ++ window_of_reach
        (layout_of layout.now) (windows_in entries.now) (reach_of (view_optional_over over.now))) }
{
    match over {
        None => Ok(()),
        Some(over) => push_window_over(alloc, layout, entries, windows, over),
    }
}

fn push_own_window(
    alloc: Global,
    layout: &RowLayout,
    entries: &WindowIndex,
    windows: &mut Vec<ResolvedWindow>,
    call: &Call,
) -> Result<(), AllocError>
    ensures { OnOk result (map window_plan windows.new.items ≡ map window_plan windows.old.items ++ own_window
        (layout_of layout.now) (windows_in entries.now) (view_call call.now)) }
{
    push_optional_window(alloc, layout, entries, windows, &call.over)
}

/// The windows that calls have of their own, behind those so far.
pub(crate) fn push_own_windows(
    alloc: Global,
    layout: &RowLayout,
    entries: &WindowIndex,
    windows: &mut Vec<ResolvedWindow>,
    calls: &[&Call],
) -> Result<(), AllocError>
    ensures { OnOk result (map window_plan windows.new.items ≡ map window_plan windows.old.items ++ windows_of_calls
        (layout_of layout.now) (windows_in entries.now) (call_trees calls.now)) }
{
    'calls: for call in calls {
        push_own_window(alloc, layout, entries, windows, call)?;
    }
    Ok(())
}

fn window_place(entries: &[FullEntry], name: &str) -> usize
    ensures { result ≡ place_of_window (named_windows entries.now) name.now }
{
    let mut place = 0;
    'entries: for entry in entries {
        if entry.name == name {
            return place;
        }
        place += 1;
    }
    place
}

#[tactic(auto, unfolding(wquery::specs::Tree::view_over, wquery::specs::Tree::view_window))]
fn place_of_over(entries: &WindowIndex, next: usize, over: &Option<Over>) -> usize
    ensures { result ≡ place_of_reach (windows_in entries.now) next (reach_of (view_optional_over over.now)) }
{
    match over {
        None => next,
        Some(Over::Named(name)) => window_place(entries.entries.as_slice(), name.as_str()),
        Some(Over::Windowed(_)) => next,
    }
}

fn place_over(entries: &WindowIndex, next: usize, call: &Call) -> usize
    ensures { result ≡ place_of_call (windows_in entries.now) next (view_call call.now) }
{
    place_of_over(entries, next, &call.over)
}

#[tactic(auto, unfolding(wquery::specs::Tree::view_over, wquery::specs::Tree::view_window))]
fn is_own_window(over: &Option<Over>) -> bool
    ensures { result ≡ is_with_own (reach_of (view_optional_over over.now)) }
{
    match over {
        None => false,
        Some(Over::Named(_)) => false,
        Some(Over::Windowed(_)) => true,
    }
}

fn has_own_window(call: &Call) -> bool
    ensures { result ≡ is_with_window (view_call call.now) }
{
    is_own_window(&call.over)
}

fn build_call(
    alloc: Global,
    layout: &RowLayout,
    entries: &WindowIndex,
    next: usize,
    call: &Call,
) -> Result<CallOver, AllocError>
    ensures { IfOk result (λ c. call_plan c ≡ record {
      window =
          place_of_call (windows_in entries.now) next (view_call call.now);
      function =
          function_of_call (layout_of layout.now) (view_call call.now);
    }) }
{
    let function = build_function(alloc, layout, call)?;
    Ok(CallOver {
        window: place_over(entries, next, call),
        function,
    })
}

/// The calls with OVER, where the next window of a call's own has this place.
pub(crate) fn build_calls(
    alloc: Global,
    layout: &RowLayout,
    entries: &WindowIndex,
    first: usize,
    calls: &[&Call],
) -> Result<Vec<CallOver>, AllocError>
    requires { first < 2 ^ 63 }
    ensures { IfOk result (λ made. map call_plan made.items ≡ calls_made (layout_of layout.now) (windows_in entries.now)
        first (call_trees calls.now)) }
{
    let mut made = Vec::with_capacity(alloc, calls.len())?;
    let mut next = first;
    'calls: for call in calls {
        let built = build_call(alloc, layout, entries, next, call)?;
        made.push(built)?;
        if has_own_window(call) {
            next += 1;
        }
    }
    Ok(made)
}
