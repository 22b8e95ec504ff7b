//! The parts of a window, each in a list of its own.
ghost use Rattle.std.specs.Prelude.{◌≡◌, IfOk, length, map};
ghost use Rattle.std.specs.List.{list_all};
ghost use Rattle.std.specs.Option.{is_some};
ghost use Rattle.wplan.specs.Formula.{formula};
ghost use Rattle.wplan.specs.declared.expr.Expr.{out-Expr};
ghost use Rattle.wplan.specs.Plans.{key_plan, window_plan};
ghost use Rattle.wrows.specs.Outcomes.{Gives};
ghost use Rattle.wrows.specs.Columns.{lists_of};
ghost use Rattle.wrows.specs.Laid.{formulas_seen, rows_seen};
ghost use Rattle.wrows.specs.PlainColumns.{is_plain, plain_place};
ghost use Rattle.wrows.specs.Sorting.{ascending};
ghost use Rattle.wcalls.specs.Listed.{are_lent, lists_in};
ghost use Rattle.wcalls.specs.Frames.{bound_of, exclusion_of, frame_of, mode_of};

use crate::row_keys::RowKeys;
use crate::row_lists::row_lists;
use std::alloc::{AllocError, Global};
use wframe::{Frame, FrameBound, FrameExclusion, FrameMode};
use wplan::{Expr, ResolvedFrame, ResolvedKey, ResolvedWindow};
use wrows::AnswerFault;
use wvalues::{SortKey, Value};

/// The order of partition values.
const ASCENDING: SortKey = SortKey {
    col: 0,
    desc: false,
    nulls_first: false,
};

// Each of some expressions, lent.
fn lent_values(alloc: Global, values: &[Expr]) -> Result<Vec<&Expr>, AllocError>
    ensures values { IfOk result (λ lent. formulas_seen lent.items ≡ map formula values.now) }
    ensures plain { IfOk result (λ lent. list_all is_plain lent.items ≡ list_all (λ e. is_some (plain_place (out-Expr e))) values.now) }
    ensures len { IfOk result (λ lent. length lent.items ≡ length values.now) }
{
    let mut lent = Vec::with_capacity(alloc, values.len())?;
    for value in values {
        lent.push(value)?;
    }
    Ok(lent)
}

// How partition values are ordered.
fn value_orders(alloc: Global, values: &[Expr]) -> Result<Vec<SortKey>, AllocError>
    ensures orders { IfOk result (λ orders. orders.items ≡ ascending (map formula values.now)) }
    ensures len { IfOk result (λ orders. length orders.items ≡ length values.now) }
{
    let mut orders = Vec::with_capacity(alloc, values.len())?;
    for _ in values {
        orders.push(ASCENDING)?;
    }
    Ok(orders)
}

/// The values of keys. `AllocError`: a growth was refused.
pub fn key_values(alloc: Global, keys: &[ResolvedKey]) -> Result<Vec<&Expr>, AllocError>
    ensures values { IfOk result (λ values. formulas_seen values.items ≡ map (λ k. k.value) (map key_plan keys.now)) }
    ensures plain { IfOk result (λ values. list_all is_plain values.items
        ≡ list_all (λ k. is_some (plain_place (out-Expr k.value))) keys.now) }
    ensures len { IfOk result (λ values. length values.items ≡ length keys.now) }
{
    let mut values = Vec::with_capacity(alloc, keys.len())?;
    for key in keys {
        values.push(&key.value)?;
    }
    Ok(values)
}

/// How keys are ordered. `AllocError`: a growth was refused.
pub fn key_orders(alloc: Global, keys: &[ResolvedKey]) -> Result<Vec<SortKey>, AllocError>
    ensures orders { IfOk result (λ orders. orders.items ≡ map (λ k. k.order) (map key_plan keys.now)) }
    ensures len { IfOk result (λ orders. length orders.items ≡ length keys.now) }
{
    let mut orders = Vec::with_capacity(alloc, keys.len())?;
    for key in keys {
        orders.push(key.order)?;
    }
    Ok(orders)
}

/// The partition values of rows, in their order. Where all are plain columns, they are lent from the rows.
pub(crate) fn partition_keys<'a>(
    alloc: Global,
    window: &ResolvedWindow,
    rows: &'a [&'a [Value]],
) -> Result<RowKeys<'a>, AnswerFault>
    ensures gives { Gives (λ values. lists_in values.lists) result (lists_of (window_plan window.now).partition (rows_seen rows.now)) }
    ensures orders { IfOk result (λ values. values.orders.items ≡ ascending (window_plan window.now).partition) }
    ensures lent { IfOk result (λ values. are_lent values.lists
        ≡ list_all (λ e. is_some (plain_place (out-Expr e))) window.now.partition.items) }
{
    let values = lent_values(alloc, &window.partition)?;
    let lists = row_lists(alloc, &values, rows)?;
    let orders = value_orders(alloc, &window.partition)?;
    Ok(RowKeys { lists, orders })
}

/// The keys of rows, in their order. Where the values of all are plain columns, they are lent from the rows.
pub(crate) fn window_keys<'a>(
    alloc: Global,
    window: &ResolvedWindow,
    rows: &'a [&'a [Value]],
) -> Result<RowKeys<'a>, AnswerFault>
    ensures gives { Gives (λ keys. lists_in keys.lists) result (lists_of (map (λ k. k.value) (window_plan window.now).keys)
        (rows_seen rows.now)) }
    ensures orders { IfOk result (λ keys. keys.orders.items ≡ map (λ k. k.order) (window_plan window.now).keys) }
    ensures lent { IfOk result (λ keys. are_lent keys.lists
        ≡ list_all (λ k. is_some (plain_place (out-Expr k.value))) window.now.keys.items) }
{
    let values = key_values(alloc, &window.keys)?;
    let lists = row_lists(alloc, &values, rows)?;
    let orders = key_orders(alloc, &window.keys)?;
    Ok(RowKeys { lists, orders })
}

fn mode_of(mode: wquery::FrameMode) -> FrameMode
    ensures { result ≡ mode_of mode }
{
    match mode {
        wquery::FrameMode::Rows => FrameMode::Rows,
        wquery::FrameMode::Range => FrameMode::Range,
        wquery::FrameMode::Groups => FrameMode::Groups,
    }
}

fn bound_of(bound: wquery::FrameBound) -> FrameBound
    ensures { result ≡ bound_of bound }
{
    match bound {
        wquery::FrameBound::UnboundedPreceding => FrameBound::UnboundedPreceding,
        wquery::FrameBound::Preceding(offset) => FrameBound::Preceding(offset.get()),
        wquery::FrameBound::CurrentRow => FrameBound::CurrentRow,
        wquery::FrameBound::Following(offset) => FrameBound::Following(offset.get()),
        wquery::FrameBound::UnboundedFollowing => FrameBound::UnboundedFollowing,
    }
}

fn exclusion_of(exclusion: wquery::FrameExclusion) -> FrameExclusion
    ensures { result ≡ exclusion_of exclusion }
{
    match exclusion {
        wquery::FrameExclusion::CurrentRow => FrameExclusion::CurrentRow,
        wquery::FrameExclusion::Group => FrameExclusion::Group,
        wquery::FrameExclusion::Ties => FrameExclusion::Ties,
        wquery::FrameExclusion::NoOthers => FrameExclusion::NoOthers,
    }
}

/// The frame of a window, as a partition has it.
pub(crate) fn frame_of(frame: &ResolvedFrame) -> Frame
    ensures { result ≡ frame_of frame.now }
{
    Frame {
        mode: mode_of(frame.mode),
        start: bound_of(frame.start),
        end: bound_of(frame.end),
        exclusion: exclusion_of(frame.exclusion),
    }
}
