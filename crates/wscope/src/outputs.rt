//! The columns of a table and of a query's answer.

ghost use Rattle.std.specs.Prelude.{◌≡◌, ◌++◌, [], ◌∷◌, map, IfOk};
ghost use Rattle.wquery.specs.QueryTree.{view_item};
ghost use Rattle.wscope.specs.Sources.{all_titled, titled, kind_type, declared_columns as columns_of_table};
ghost use Rattle.wscope.specs.Sources.{known as known_type, answered, derived_column};

use crate::data_type::DataType;
use crate::names::output_name;
use crate::source::SourceColumn;
use crate::typing::type_of;
use std::alloc::{AllocError, Global};
use std::rc::RcStr;
use wquery::Item;
use wsegment::{Column, Kind, Schema};

fn type_of_kind(kind: Kind) -> DataType
    ensures { result ≡ kind_type kind }
{
    match kind {
        Kind::Integer => DataType::Integer,
        Kind::Text => DataType::Text,
    }
}

/// The type of a derived column: null is a text.
pub fn known(data_type: DataType) -> DataType
    ensures { result ≡ known_type data_type }
{
    match data_type {
        DataType::Null => DataType::Text,
        _ => data_type,
    }
}

fn declared_column(alloc: Global, column: &Column) -> Result<SourceColumn, AllocError>
    ensures { IfOk result (λ made. all_titled (made ∷ []) ≡ columns_of_table (column.now ∷ [])) }
{
    let name = RcStr::from_str(alloc, column.name())?;
    Ok(SourceColumn {
        name,
        data_type: type_of_kind(column.kind()),
    })
}

/// The columns of the declared table.
pub fn declared_columns(alloc: Global, schema: &Schema) -> Result<Vec<SourceColumn>, AllocError>
    ensures { IfOk result (λ made. all_titled made.items ≡ columns_of_table schema.now.columns) }
{
    let columns = schema.columns();
    let mut made = Vec::with_capacity(alloc, columns.len())?;
    'columns: for column in columns {
        let next = declared_column(alloc, column)?;
        made.push(next)?;
    }
    Ok(made)
}

fn derived(column: &SourceColumn) -> Result<SourceColumn, AllocError>
    ensures { IfOk result (λ made. titled made ≡ derived_column (titled column.now)) }
{
    let name = column.name.clone()?;
    Ok(SourceColumn {
        name,
        data_type: known(column.data_type),
    })
}

fn push_columns(made: &mut Vec<SourceColumn>, columns: &[SourceColumn]) -> Result<(), AllocError>
    ensures { IfOk result (λ _. all_titled made.new.items ≡ all_titled made.old.items ++ map derived_column (all_titled columns.now)) }
{
    'columns: for column in columns {
        let next = derived(column)?;
        made.push(next)?;
    }
    Ok(())
}

fn push_output(
    alloc: Global,
    made: &mut Vec<SourceColumn>,
    columns: &[SourceColumn],
    item: &Item,
) -> Result<(), AllocError>
    ensures { IfOk result (λ _. all_titled made.new.items ≡ all_titled made.old.items ++ answered (all_titled columns.now)
        (view_item item.now ∷ [])) }
{
    match item {
        Item::All => push_columns(made, columns),
        Item::Value { expression, alias } => {
            let name = RcStr::from_str(alloc, output_name(expression, alias))?;
            let data_type = known(type_of(columns, expression));
            let pushed = made.push(SourceColumn { name, data_type })?;
            Ok(pushed)
        }
    }
}

/// The columns of a query's answer, `*` written out: their output names and types, null being a text.
pub fn output_columns(
    alloc: Global,
    columns: &[SourceColumn],
    items: &[Item],
) -> Result<Vec<SourceColumn>, AllocError>
    ensures { IfOk result (λ made. all_titled made.items ≡ answered (all_titled columns.now) (map view_item items.now)) }
{
    let mut made = Vec::with_capacity(alloc, items.len())?;
    'items: for item in items {
        push_output(alloc, &mut made, columns, item)?;
    }
    Ok(made)
}
