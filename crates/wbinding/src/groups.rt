//! GROUP BY, and what the row of a group holds behind its columns.

ghost use Rattle.std.specs.Prelude.{◌≡◌, IfOk, map};
ghost use Rattle.wquery.specs.GroupElements.{view_columns, view_part, view_group_entry, view_element};
ghost use Rattle.wquery.specs.Tree.{view, view_call, view_column, views};
ghost use Rattle.wscope.specs.Sources.{all_titled};
ghost use Rattle.wgroupby.specs.Held.{element_in, entry_in, lists_in};
ghost use Rattle.wgroupby.specs.Rules.{element_by, entry_by};
ghost use Rattle.wplan.specs.Plans.{group_call_plan};
ghost use Rattle.wbinding.specs.Resolving.{layout_of};
ghost use Rattle.wbinding.specs.Groups.{column_place, elements_made, group_call_made};

use crate::functions::build_aggregate;
use crate::layout::RowLayout;
use std::alloc::{AllocError, Global};
use wgroupby::{PlacedElement, PlacedEntry};
use wplan::GroupCall;
use wquery::{Arguments, Call, Column, Expression, GroupElement, GroupEntry};
use wscope::{SourceColumn, place_named};

fn place_of_column(columns: &[SourceColumn], column: &Column) -> usize
    ensures { result ≡ column_place (all_titled columns.now) (view_column column.now) }
{
    place_named(columns, column.name.as_str())
}

fn places_of_columns(
    alloc: Global,
    columns: &[SourceColumn],
    list: &[Column],
) -> Result<Vec<usize>, AllocError>
    ensures { IfOk result (λ places. places.items ≡ map (column_place (all_titled columns.now)) (view_columns list.now)) }
{
    let mut places = Vec::with_capacity(alloc, list.len())?;
    'list: for column in list {
        places.push(place_of_column(columns, column))?;
    }
    Ok(places)
}

fn places_of_parts(
    alloc: Global,
    columns: &[SourceColumn],
    parts: &[Vec<Column>],
) -> Result<Vec<Vec<usize>>, AllocError>
    ensures { IfOk result (λ made. lists_in made.items ≡ map (map (column_place (all_titled columns.now))) (map view_part parts.now)) }
{
    let mut made = Vec::with_capacity(alloc, parts.len())?;
    'parts: for part in parts {
        let places = places_of_columns(alloc, columns, part.as_slice())?;
        made.push(places)?;
    }
    Ok(made)
}

fn build_entry(
    alloc: Global,
    columns: &[SourceColumn],
    entry: &GroupEntry,
) -> Result<PlacedEntry, AllocError>
    ensures { IfOk result (λ made. entry_in made ≡ entry_by (column_place (all_titled columns.now)) (view_group_entry entry.now)) }
{
    match entry {
        GroupEntry::Columns(list) => {
            let places = places_of_columns(alloc, columns, list.as_slice())?;
            Ok(PlacedEntry::Columns(places))
        }
        GroupEntry::Rollup(parts) => {
            let places = places_of_parts(alloc, columns, parts.as_slice())?;
            Ok(PlacedEntry::Rollup(places))
        }
        GroupEntry::Cube(parts) => {
            let places = places_of_parts(alloc, columns, parts.as_slice())?;
            Ok(PlacedEntry::Cube(places))
        }
    }
}

fn build_entries(
    alloc: Global,
    columns: &[SourceColumn],
    entries: &[GroupEntry],
) -> Result<Vec<PlacedEntry>, AllocError>
    ensures { IfOk result (λ made. map entry_in made.items ≡ map (entry_by (column_place (all_titled columns.now)))
        (map view_group_entry entries.now)) }
{
    let mut made = Vec::with_capacity(alloc, entries.len())?;
    'entries: for entry in entries {
        let placed = build_entry(alloc, columns, entry)?;
        made.push(placed)?;
    }
    Ok(made)
}

fn build_element(
    alloc: Global,
    columns: &[SourceColumn],
    element: &GroupElement,
) -> Result<PlacedElement, AllocError>
    ensures { IfOk result (λ made. element_in made ≡ element_by (column_place (all_titled columns.now)) (view_element element.now)) }
{
    let entries = build_entries(alloc, columns, element.entries.as_slice())?;
    Ok(PlacedElement { entries })
}

/// The elements of GROUP BY, each column by its place in the source's row. A name that no column has is the place behind
/// that row.
pub fn build_elements(
    alloc: Global,
    columns: &[SourceColumn],
    elements: &[GroupElement],
) -> Result<Vec<PlacedElement>, AllocError>
    ensures { IfOk result (λ made. map element_in made.items ≡ elements_made (all_titled columns.now) (map view_element elements.now)) }
{
    let mut made = Vec::with_capacity(alloc, elements.len())?;
    'elements: for element in elements {
        let placed = build_element(alloc, columns, element)?;
        made.push(placed)?;
    }
    Ok(made)
}

#[tactic(auto, unfolding(wquery::specs::Tree::view))]
fn place_of(columns: &[SourceColumn], e: &Expression) -> usize
    ensures { result ≡ column_place (all_titled columns.now) (view e.now) }
{
    match e {
        Expression::Column(column) => place_of_column(columns, column),
        _ => columns.len(),
    }
}

fn places_of(
    alloc: Global,
    columns: &[SourceColumn],
    list: &[Expression],
) -> Result<Vec<usize>, AllocError>
    ensures { IfOk result (λ places. places.items ≡ map (column_place (all_titled columns.now)) (views list.now)) }
{
    let mut places = Vec::with_capacity(alloc, list.len())?;
    'list: for e in list {
        places.push(place_of(columns, e))?;
    }
    Ok(places)
}

/// What stands behind the columns of a group's row: GROUPING, of columns by their places in the source's row, or an
/// aggregate. The layout is that of the source's row.
pub fn build_group_call(
    alloc: Global,
    layout: &RowLayout,
    call: &Call,
) -> Result<GroupCall, AllocError>
    ensures { IfOk result (λ made. group_call_plan made ≡ group_call_made (layout_of layout.now) (view_call call.now)) }
{
    match &call.arguments {
        Arguments::Star => {
            let aggregate = build_aggregate(alloc, layout, call)?;
            Ok(GroupCall::Aggregated(aggregate))
        }
        Arguments::Listed(_) => {
            let aggregate = build_aggregate(alloc, layout, call)?;
            Ok(GroupCall::Aggregated(aggregate))
        }
        Arguments::Columns(list) => {
            let places = places_of(alloc, layout.columns, list.as_slice())?;
            Ok(GroupCall::GroupingOf(places))
        }
    }
}
