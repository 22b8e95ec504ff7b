//! The columns that GROUP BY names, in all its elements.

ghost use Rattle.std.specs.Prelude.{◌≡◌, ◌∷◌, [], ◌++◌, ℕ, List, map, IfOk, OnOk};
ghost use Rattle.std.specs.BTreeSet.{contains_text};
ghost use Rattle.std.specs.List.{list_any, flat_map};
ghost use Rattle.wquery.specs.GroupElements.{all_columns, entry_columns, view_columns, view_part, view_group_entry, view_element};
ghost use Rattle.wquery.specs.Tree.{view_column};
ghost use Rattle.wscope.specs.Called.{names};
ghost use Rattle.wscope.specs.Groups.{AddsNames, lent_columns};

use std::alloc::{AllocError, Global};
use std::collections::BTreeSet;
use wquery::{Column, GroupElement, GroupEntry};

fn push_columns<'a>(made: &mut Vec<&'a Column>, columns: &'a [Column]) -> Result<(), AllocError>
    ensures { OnOk result (lent_columns made.new.items ≡ lent_columns made.old.items ++ view_columns columns.now) }
{
    'columns: for column in columns {
        made.push(column)?;
    }
    Ok(())
}

fn push_parts<'a>(made: &mut Vec<&'a Column>, parts: &'a [Vec<Column>]) -> Result<(), AllocError>
    ensures { OnOk result (lent_columns made.new.items ≡ lent_columns made.old.items ++ flat_map (λ part. part) (map view_part parts.now)) }
{
    'parts: for part in parts {
        push_columns(made, part.as_slice())?;
    }
    Ok(())
}

fn push_entry<'a>(made: &mut Vec<&'a Column>, entry: &'a GroupEntry) -> Result<(), AllocError>
    ensures { OnOk result (lent_columns made.new.items ≡ lent_columns made.old.items ++ entry_columns (view_group_entry entry.now)) }
{
    match entry {
        GroupEntry::Columns(columns) => push_columns(made, columns.as_slice()),
        GroupEntry::Rollup(parts) => push_parts(made, parts.as_slice()),
        GroupEntry::Cube(parts) => push_parts(made, parts.as_slice()),
    }
}

fn push_entries<'a>(made: &mut Vec<&'a Column>, entries: &'a [GroupEntry]) -> Result<(), AllocError>
    ensures { OnOk result (lent_columns made.new.items ≡ lent_columns made.old.items ++ flat_map entry_columns
        (map view_group_entry entries.now)) }
{
    'entries: for entry in entries {
        push_entry(made, entry)?;
    }
    Ok(())
}

/// The columns that GROUP BY names, from the first to the last.
pub(crate) fn grouped_columns<'a>(
    alloc: Global,
    grouping: &'a [GroupElement],
) -> Result<Vec<&'a Column>, AllocError>
    ensures { IfOk result (λ made. lent_columns made.items ≡ all_columns (map view_element grouping.now)) }
{
    let mut made = Vec::new(alloc);
    'grouping: for element in grouping {
        push_entries(&mut made, element.entries.as_slice())?;
    }
    Ok(made)
}

fn add_name(alloc: Global, known: &mut BTreeSet<String>, column: &Column) -> Result<(), AllocError>
    ensures { OnOk result (AddsNames known.old known.new (view_column column.now ∷ [])) }
{
    let name = String::from_str(alloc, column.name.as_str())?;
    known.insert(name)?;
    Ok(())
}

/// The names of these columns.
pub(crate) fn column_names(
    alloc: Global,
    columns: &[&Column],
) -> Result<BTreeSet<String>, AllocError>
    ensures { IfOk result (λ known. (q : List ℕ) → contains_text known q ≡ list_any (names q) (lent_columns columns.now)) }
{
    let mut known = BTreeSet::new(alloc);
    'columns: for column in columns {
        add_name(alloc, &mut known, column)?;
    }
    Ok(known)
}
