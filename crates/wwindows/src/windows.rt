//! The rules on windows, what they copy and their frames: Q19 to Q24.

ghost use Rattle.std.specs.Prelude.{◌≡◌, ◌&&◌, ◌||◌, Bool, List, [], Option, Some, map, not, is_some};
ghost use Rattle.std.specs.List.{list_any};
ghost use Rattle.std.specs.Option.{option_copied};
ghost use Rattle.wquery.specs.Tree.{Reach, keys, view_key, view_keys, trees, views, view_window, view_call, view_optional_over, reach_of};
ghost use Rattle.wquery.specs.QueryTree.{view_entry};
ghost use Rattle.wnodes.specs.Bounds.{end_of};
ghost use Rattle.wscope.specs.Earlier.{seen, windows_in};
ghost use Rattle.wscope.specs.Finding.{finds};
ghost use Rattle.wscope.specs.Indexes.{is_place, place_of, repeats};
ghost use Rattle.wscope.specs.Scope.{some_anywhere};
ghost use Rattle.wscope.specs.Scoped.{IsExpanded, scope_clauses, scope_columns};
ghost use Rattle.wscope.specs.Sources.{all_titled};
ghost use Rattle.wscope.specs.Types.{type_of as type_in};
ghost use Rattle.wscope.specs.Windows.{Expanded, window_named, or_none, named_windows, expanded_window, expand_tree, lent_frame};
ghost use Rattle.wwindows.specs.Windows.{reach_is, some_entry_after, is_unknown_window as is_no_window};
ghost use Rattle.wwindows.specs.Windows.{copies_unknown as copies_no_window, is_over_unknown as is_over_no_window, breaks_entries};
ghost use Rattle.wwindows.specs.Windows.{is_bad_copy as is_wrong_copy, copies_badly as is_copied_wrongly};
ghost use Rattle.wwindows.specs.Windows.{is_over_bad_copy as is_over_wrong_copy, own_window_is, entry_is, has_keys, has_trees};
ghost use Rattle.wwindows.specs.Windows.{some_window, breaks_window_names, breaks_copies, is_long as is_long_bound};
ghost use Rattle.wwindows.specs.Windows.{is_offset as is_offset_bound, has_bad_bounds as are_bad_bounds, has_bad_frame, lacks_groups};
ghost use Rattle.wwindows.specs.Windows.{is_groups, is_range, is_text_type as is_type_of_texts, has_range_key as is_range_key};
ghost use Rattle.wwindows.specs.Windows.{lacks_range_key, breaks_bounds, breaks_groups, breaks_ranges};

use wnodes::{bound_place, frame_end};
use wquery::{Expression, Frame, FrameBound, FrameMode, Key, Over, Window, WindowEntry};
use wscope::{
    DataType, Earlier, FullEntry, FullWindow, Look, NodeTest, Scope, SourceColumn, WindowIndex,
    any_anywhere, found_if, type_of,
};

/// A test of what stands behind OVER.
pub(crate) trait ReachTest {
    ghost holds: { Self → Reach → Bool };

    /// Whether the rule is broken by it.
    fn is_hit(&self, over: &Option<Over>) -> bool
        ensures { result ≡ holds self.now (reach_of (view_optional_over over.now)) };
}

/// The calls whose OVER is hit.
#[derive(Drop)]
pub(crate) struct CallOver<'a, T> {
    pub(crate) test: &'a T,
}

impl<'a, T: ReachTest> NodeTest for CallOver<'a, T> {
    ghost sees = { λ o. finds (reach_is (T.holds o.test.now)) };

    #[tactic(auto, unfolding(wquery::specs::Tree::view, wquery::specs::Tree::view_call, wquery::specs::Tree::view_over))]
    fn look(&self, node: &Expression) -> Look {
        match node {
            Expression::Call(call) => found_if(self.test.is_hit(&call.over)),
            _ => Look::Below,
        }
    }
}

/// Whether the OVER of some call of the query is hit.
pub(crate) fn any_over<T: ReachTest>(test: &T, scope: &Scope) -> bool
    ensures { result ≡ some_anywhere (scope_columns scope.now) (scope_clauses scope.now) (finds (reach_is (T.holds test.now))) }
{
    any_anywhere(&CallOver { test }, scope)
}

fn is_unknown_window(windows: Earlier, name: &str) -> bool
    ensures { result ≡ is_no_window (seen windows.entry) (Some name.now) }
{
    windows.find(name).is_none()
}

#[tactic(auto, unfolding(wquery::specs::Tree::view_window))]
fn copies_unknown(windows: Earlier, window: &Window) -> bool
    ensures { result ≡ copies_no_window (seen windows.entry) (view_window window.now) }
{
    match &window.copied {
        None => false,
        Some(name) => is_unknown_window(windows, name.as_str()),
    }
}

/// A window name that no entry has.
#[derive(Drop)]
struct UnknownWindow<'a, 'b> {
    windows: Earlier<'a, 'b>,
}

impl<'a, 'b> ReachTest for UnknownWindow<'a, 'b> {
    ghost holds = { λ u. is_over_no_window (seen u.windows) };

    #[tactic(auto, unfolding(wquery::specs::Tree::view_over, wquery::specs::Tree::view_window))]
    fn is_hit(&self, over: &Option<Over>) -> bool {
        match over {
            None => false,
            Some(Over::Named(name)) => is_unknown_window(self.windows, name.as_str()),
            Some(Over::Windowed(window)) => copies_unknown(self.windows, window),
        }
    }
}

fn any_entry_unknown(windows: &WindowIndex, entries: &[WindowEntry]) -> bool
    ensures { result ≡ some_entry_after (windows_in windows.now) 0 copies_no_window (map view_entry entries.now) }
{
    let mut place = 0;
    'entries: for entry in entries {
        if copies_unknown(windows.before(place), &entry.window) {
            return true;
        }
        place += 1;
    }
    false
}

/// Q19.
pub fn names_unknown_window(scope: &Scope) -> bool
    ensures { result ≡ breaks_window_names (windows_in scope.now.windows) (scope_columns scope.now) (scope_clauses scope.now) }
{
    if any_entry_unknown(&scope.windows, scope.query.windows.as_slice()) {
        return true;
    }
    let windows = Earlier {
        index: &scope.windows,
        before: None,
    };
    any_over(&UnknownWindow { windows }, scope)
}

fn is_found_at(found: Option<&usize>, place: usize) -> bool
    ensures { result ≡ is_place place (option_copied found.entry) }
{
    match found {
        None => false,
        Some(first) => *first == place,
    }
}

/// Whether no entry before this place has the name.
fn is_first(windows: &WindowIndex, name: &str, place: usize) -> bool
    ensures { result ≡ is_place place (place_of name.now (windows_in windows.now)) }
{
    is_found_at(windows.places.get(name), place)
}

fn repeats_names(windows: &WindowIndex, entries: &[FullEntry]) -> bool
    requires { windows.now.entries.items ≡ entries.now }
    ensures { result ≡ repeats [] (named_windows entries.now) }
{
    let mut place = 0;
    'entries: for entry in entries {
        if !is_first(windows, entry.name, place) {
            return true;
        }
        place += 1;
    }
    false
}

/// Q20.
pub fn repeats_windows(scope: &Scope) -> bool
    requires { IsExpanded scope.now }
    ensures { result ≡ breaks_entries (scope_clauses scope.now).windows }
{
    repeats_names(&scope.windows, scope.windows.entries.as_slice())
}

/// Whether there is no key.
fn is_unordered(order: &[Key]) -> bool
    ensures { result ≡ not (has_keys (keys (view_keys order.now))) }
{
    order.is_empty()
}

fn has_order(windows: Earlier, name: &str) -> bool
    ensures { result ≡ has_keys (or_none (window_named (seen windows.entry) name.now)).order }
{
    match windows.find(name) {
        None => false,
        Some(window) => !is_unordered(window.order),
    }
}

fn is_framed(frame: Option<&Frame>) -> bool
    ensures { result ≡ is_some (lent_frame frame.entry) }
{
    match frame {
        None => false,
        Some(_) => true,
    }
}

fn has_frame(windows: Earlier, name: &str) -> bool
    ensures { result ≡ is_some (or_none (window_named (seen windows.entry) name.now)).frame }
{
    match windows.find(name) {
        None => false,
        Some(window) => is_framed(window.frame),
    }
}

fn is_partitioned(partition: &[Expression]) -> bool
    ensures { result ≡ has_trees (trees (views partition.now)) }
{
    !partition.is_empty()
}

fn orders_again(windows: Earlier, name: &str, order: &[Key]) -> bool
    ensures { result ≡ (has_keys (keys (view_keys order.now)) && has_keys (or_none (window_named (seen windows.entry) name.now)).order) }
{
    if is_unordered(order) {
        return false;
    }
    has_order(windows, name)
}

fn is_bad_copy(windows: Earlier, name: &str, partition: &[Expression], order: &[Key]) -> bool
    ensures { result ≡ is_wrong_copy (seen windows.entry) (Some name.now) (trees (views partition.now)) (keys (view_keys order.now)) }
{
    if is_partitioned(partition) {
        return true;
    }
    if orders_again(windows, name, order) {
        return true;
    }
    has_frame(windows, name)
}

#[tactic(auto, unfolding(wquery::specs::Tree::view_window, wquery::specs::Tree::view, wquery::specs::Tree::view_key))]
fn copies_badly(windows: Earlier, window: &Window) -> bool
    ensures { result ≡ is_copied_wrongly (seen windows.entry) (view_window window.now) }
{
    match &window.copied {
        None => false,
        Some(name) => is_bad_copy(
            windows,
            name.as_str(),
            window.partition.as_slice(),
            window.order.as_slice(),
        ),
    }
}

/// A copy that adds what it may not.
#[derive(Drop)]
struct BadCopy<'a, 'b> {
    windows: Earlier<'a, 'b>,
}

impl<'a, 'b> ReachTest for BadCopy<'a, 'b> {
    ghost holds = { λ b. is_over_wrong_copy (seen b.windows) };

    #[tactic(auto, unfolding(wquery::specs::Tree::view_over, wquery::specs::Tree::view_window))]
    fn is_hit(&self, over: &Option<Over>) -> bool {
        match over {
            None => false,
            Some(Over::Named(_)) => false,
            Some(Over::Windowed(window)) => copies_badly(self.windows, window),
        }
    }
}

fn any_entry_bad(windows: &WindowIndex, entries: &[WindowEntry]) -> bool
    ensures { result ≡ some_entry_after (windows_in windows.now) 0 is_copied_wrongly (map view_entry entries.now) }
{
    let mut place = 0;
    'entries: for entry in entries {
        if copies_badly(windows.before(place), &entry.window) {
            return true;
        }
        place += 1;
    }
    false
}

/// Q21.
pub fn copies_wrongly(scope: &Scope) -> bool
    ensures { result ≡ breaks_copies (windows_in scope.now.windows) (scope_columns scope.now) (scope_clauses scope.now) }
{
    if any_entry_bad(&scope.windows, scope.query.windows.as_slice()) {
        return true;
    }
    let windows = Earlier {
        index: &scope.windows,
        before: None,
    };
    any_over(&BadCopy { windows }, scope)
}

/// A test of a window with what it copies.
pub(crate) trait WindowTest {
    ghost holds: { Self → Expanded → Bool };

    /// Whether the rule is broken by it.
    fn is_hit(&self, window: FullWindow) -> bool
        ensures { result ≡ holds self.now (expanded_window window.entry) };
}

fn is_window_hit<T: WindowTest>(test: &T, windows: Earlier, window: &Window) -> bool
    ensures { result ≡ T.holds test.now (expand_tree (seen windows.entry) (view_window window.now)) }
{
    test.is_hit(windows.expanded(window))
}

/// The windows of calls that are hit.
#[derive(Drop)]
struct OwnWindow<'a, 'b, T> {
    windows: Earlier<'a, 'b>,
    test: &'b T,
}

impl<'a, 'b, T: WindowTest> ReachTest for OwnWindow<'a, 'b, T> {
    ghost holds = { λ o. own_window_is (seen o.windows) (T.holds o.test.now) };

    #[tactic(auto, unfolding(wquery::specs::Tree::view_over, wquery::specs::Tree::view_window))]
    fn is_hit(&self, over: &Option<Over>) -> bool {
        match over {
            None => false,
            Some(Over::Named(_)) => false,
            Some(Over::Windowed(window)) => is_window_hit(self.test, self.windows, window),
        }
    }
}

fn any_listed<T: WindowTest>(test: &T, entries: &[FullEntry]) -> bool
    ensures { result ≡ list_any (entry_is (T.holds test.now)) (named_windows entries.now) }
{
    'entries: for entry in entries {
        if test.is_hit(entry.window) {
            return true;
        }
    }
    false
}

fn any_entry<T: WindowTest>(test: &T, windows: &WindowIndex) -> bool
    ensures { result ≡ list_any (entry_is (T.holds test.now)) (windows_in windows.now) }
{
    any_listed(test, windows.entries.as_slice())
}

/// Whether some window of the query is hit, used or not.
fn any_window<T: WindowTest>(test: &T, scope: &Scope) -> bool
    ensures { result ≡ some_window (windows_in scope.now.windows) (scope_columns scope.now) (scope_clauses scope.now) (T.holds test.now) }
{
    if any_entry(test, &scope.windows) {
        return true;
    }
    let windows = Earlier {
        index: &scope.windows,
        before: None,
    };
    any_over(&OwnWindow { windows, test }, scope)
}

fn is_long(bound: &FrameBound) -> bool
    ensures { result ≡ is_long_bound bound.now }
{
    match bound {
        FrameBound::Preceding(n) => n.get() >= 1 << 63,
        FrameBound::Following(n) => n.get() >= 1 << 63,
        _ => false,
    }
}

/// A start behind all rows, an end before all rows, an end of an earlier kind than the start, or an offset of 2^63 or
/// more.
fn has_bad_bounds(frame: &Frame) -> bool
    ensures { result ≡ are_bad_bounds frame.now }
{
    let last = frame_end(frame);
    let start = bound_place(&frame.start);
    let end = bound_place(&last);
    if start == 4 {
        return true;
    }
    if end == 0 {
        return true;
    }
    if end < start {
        return true;
    }
    if is_long(&frame.start) {
        return true;
    }
    is_long(&last)
}

/// A frame with bounds that go wrong.
#[derive(Drop)]
struct BadBounds;

impl WindowTest for BadBounds {
    ghost holds = { λ _. has_bad_frame };

    fn is_hit(&self, window: FullWindow) -> bool {
        match window.frame {
            None => false,
            Some(frame) => has_bad_bounds(frame),
        }
    }
}

/// Q22.
pub fn bounds_wrongly(scope: &Scope) -> bool
    ensures { result ≡ breaks_bounds (windows_in scope.now.windows) (scope_columns scope.now) (scope_clauses scope.now) }
{
    any_window(&BadBounds, scope)
}

fn counts_groups(frame: &Frame) -> bool
    ensures { result ≡ is_groups frame.now.mode }
{
    matches!(frame.mode, FrameMode::Groups)
}

/// GROUPS without ORDER BY.
#[derive(Drop)]
struct UnorderedGroups;

impl WindowTest for UnorderedGroups {
    ghost holds = { λ _. lacks_groups };

    fn is_hit(&self, window: FullWindow) -> bool {
        match window.frame {
            None => false,
            Some(frame) => counts_groups(frame) && is_unordered(window.order),
        }
    }
}

/// Q23.
pub fn has_unordered_groups(scope: &Scope) -> bool
    ensures { result ≡ breaks_groups (windows_in scope.now.windows) (scope_columns scope.now) (scope_clauses scope.now) }
{
    any_window(&UnorderedGroups, scope)
}

fn is_offset(bound: &FrameBound) -> bool
    ensures { result ≡ is_offset_bound bound.now }
{
    matches!(bound, FrameBound::Preceding(_) | FrameBound::Following(_))
}

fn is_text_type(data_type: DataType) -> bool
    ensures { result ≡ is_type_of_texts data_type }
{
    matches!(data_type, DataType::Text)
}

#[tactic(auto, unfolding(wquery::specs::Tree::view_key, wquery::specs::Tree::view))]
fn is_number_key(columns: &[SourceColumn], key: &Key) -> bool
    ensures { result ≡ not (is_type_of_texts (type_in (all_titled columns.now) (view_key key.now).expression)) }
{
    !is_text_type(type_of(columns, &key.expression))
}

/// Exactly one key, which is no text.
fn has_range_key(columns: &[SourceColumn], order: &[Key]) -> bool
    ensures { result ≡ is_range_key (all_titled columns.now) (keys (view_keys order.now)) }
{
    if order.len() != 1 {
        return false;
    }
    is_number_key(columns, &order[0])
}

/// RANGE with an offset and without exactly one key that is no text.
#[derive(Drop)]
struct WrongRangeKey<'a> {
    columns: &'a [SourceColumn],
}

fn has_range_offset(frame: &Frame) -> bool
    ensures { result ≡ (is_range frame.now.mode && (is_offset_bound frame.now.start || is_offset_bound (end_of frame.now))) }
{
    if !matches!(frame.mode, FrameMode::Range) {
        return false;
    }
    is_offset(&frame.start) || is_offset(&frame_end(frame))
}

impl<'a> WindowTest for WrongRangeKey<'a> {
    ghost holds = { λ w. lacks_range_key (all_titled w.columns.now) };

    fn is_hit(&self, window: FullWindow) -> bool {
        match window.frame {
            None => false,
            Some(frame) => has_range_offset(frame) && !has_range_key(self.columns, window.order),
        }
    }
}

/// Q24.
pub fn has_wrong_range_key(scope: &Scope) -> bool
    ensures { result ≡ breaks_ranges (windows_in scope.now.windows) (scope_columns scope.now) (scope_clauses scope.now) }
{
    let test = WrongRangeKey {
        columns: scope.columns,
    };
    any_window(&test, scope)
}
