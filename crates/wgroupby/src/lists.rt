//! How long the lists of GROUP BY are.

ghost use Rattle.std.specs.Prelude.{◌≡◌, ◌||◌, map};
ghost use Rattle.std.specs.List.{list_any};
ghost use Rattle.wquery.specs.GroupElements.{view_columns, view_part, view_group_entry, view_element};
ghost use Rattle.wgroupby.specs.Rules.{is_long, are_parts_long as are_long_parts, is_entry_long as is_long_entry};
ghost use Rattle.wgroupby.specs.Rules.{is_element_long as is_long_element, breaks_lists};

use wquery::{Column, GroupElement, GroupEntry};

// The most entries of one list.
const MAX_ENTRIES: usize = 16;

fn are_many(columns: &[Column]) -> bool
    ensures { result ≡ is_long (view_columns columns.now) }
{
    columns.len() > MAX_ENTRIES
}

fn any_long_part(parts: &[Vec<Column>]) -> bool
    ensures { result ≡ list_any is_long (map view_part parts.now) }
{
    'parts: for part in parts {
        if are_many(part.as_slice()) {
            return true;
        }
    }
    false
}

fn are_parts_long(parts: &[Vec<Column>]) -> bool
    ensures { result ≡ are_long_parts (map view_part parts.now) }
{
    if parts.len() > MAX_ENTRIES {
        return true;
    }
    any_long_part(parts)
}

fn is_entry_long(entry: &GroupEntry) -> bool
    ensures { result ≡ is_long_entry (view_group_entry entry.now) }
{
    match entry {
        GroupEntry::Columns(columns) => are_many(columns.as_slice()),
        GroupEntry::Rollup(parts) => are_parts_long(parts.as_slice()),
        GroupEntry::Cube(parts) => are_parts_long(parts.as_slice()),
    }
}

fn any_long_entry(entries: &[GroupEntry]) -> bool
    ensures { result ≡ list_any is_long_entry (map view_group_entry entries.now) }
{
    'entries: for entry in entries {
        if is_entry_long(entry) {
            return true;
        }
    }
    false
}

fn is_element_long(element: &GroupElement) -> bool
    ensures { result ≡ is_long_element (view_element element.now) }
{
    if element.entries.len() > MAX_ENTRIES {
        return true;
    }
    any_long_entry(element.entries.as_slice())
}

fn any_long_element(elements: &[GroupElement]) -> bool
    ensures { result ≡ list_any is_long_element (map view_element elements.now) }
{
    'elements: for element in elements {
        if is_element_long(element) {
            return true;
        }
    }
    false
}

/// Whether there are over 16 elements of GROUP BY, or over 16 entries in a list in parentheses there: of GROUPING SETS, of
/// ROLLUP, of CUBE, of a set or of a part.
pub fn has_long_list(elements: &[GroupElement]) -> bool
    ensures { result ≡ breaks_lists (map view_element elements.now) }
{
    if elements.len() > MAX_ENTRIES {
        return true;
    }
    any_long_element(elements)
}
