//! The SELECT list with `*` written out.

ghost use Rattle.std.specs.Prelude.{◌≡◌, ◌++◌, ◌∷◌, [], IfOk, OnOk, map, ◌-◌};
ghost use Rattle.wquery.specs.Tree.{name_bytes, view};
ghost use Rattle.wquery.specs.QueryTree.{Computed, view_item};
ghost use Rattle.wscope.specs.Sources.{Spelled, all_titled, columns_from, written_out as all_shown};
ghost use Rattle.wresolve.specs.Shown.{shown_of, shown_items};
ghost use Rattle.wresolve.specs.Selecting.{item_at, called_or as item_called, key_shown};

use std::alloc::{AllocError, Global};
use std::rc::RcStr;
use wquery::{Expression, Item};
use wscope::{DataType, SourceColumn, output_name, type_of};

/// What an item or a key stands for.
#[derive(Clone, Copy, Drop)]
pub enum ShownValue<'a> {
    /// A column that `*` brings in, by its place among the source's columns.
    Column(usize),
    Expression(&'a Expression),
    /// An item that is not there, which is NULL.
    Nothing,
}

/// An item of the SELECT list, `*` written out.
#[derive(Clone, Copy, Drop)]
pub struct ShownOutput<'a> {
    pub name: &'a str,
    pub data_type: DataType,
    pub value: ShownValue<'a>,
}

fn push_column<'a>(
    shown: &mut Vec<ShownOutput<'a>>,
    place: usize,
    column: &'a SourceColumn,
) -> Result<(), AllocError>
    ensures { OnOk result (shown_items shown.new.items ≡ shown_items shown.old.items ++ columns_from place (all_titled (column.now ∷ []))) }
{
    shown.push(ShownOutput {
        name: column.name.as_str(),
        data_type: column.data_type,
        value: ShownValue::Column(place),
    })?;
    Ok(())
}

fn push_columns<'a>(
    shown: &mut Vec<ShownOutput<'a>>,
    columns: &'a [SourceColumn],
) -> Result<(), AllocError>
    ensures { OnOk result (shown_items shown.new.items ≡ shown_items shown.old.items ++ columns_from 0 (all_titled columns.now)) }
{
    let mut place = 0;
    'columns: for column in columns {
        push_column(shown, place, column)?;
        place += 1;
    }
    Ok(())
}

fn push_value<'a>(
    shown: &mut Vec<ShownOutput<'a>>,
    columns: &'a [SourceColumn],
    expression: &'a Expression,
    alias: &'a Option<RcStr>,
) -> Result<(), AllocError>
    ensures { OnOk result (shown_items shown.new.items ≡ shown_items shown.old.items ++ all_shown (all_titled columns.now)
        (Computed (view expression.now) (name_bytes alias.now) ∷ [])) }
{
    shown.push(ShownOutput {
        name: output_name(expression, alias),
        data_type: type_of(columns, expression),
        value: ShownValue::Expression(expression),
    })?;
    Ok(())
}

fn push_item<'a>(
    shown: &mut Vec<ShownOutput<'a>>,
    columns: &'a [SourceColumn],
    item: &'a Item,
) -> Result<(), AllocError>
    ensures { OnOk result (shown_items shown.new.items ≡ shown_items shown.old.items ++ all_shown (all_titled columns.now)
        (view_item item.now ∷ [])) }
{
    match item {
        Item::All => push_columns(shown, columns),
        Item::Value { expression, alias } => push_value(shown, columns, expression, alias),
    }
}

/// The SELECT list over some columns, `*` written out.
pub(crate) fn written_out<'a>(
    alloc: Global,
    columns: &'a [SourceColumn],
    items: &'a [Item],
) -> Result<Vec<ShownOutput<'a>>, AllocError>
    ensures { IfOk result (λ shown. shown_items shown.items ≡ all_shown (all_titled columns.now) (map view_item items.now)) }
{
    let mut shown = Vec::with_capacity(alloc, items.len())?;
    'items: for item in items {
        push_item(&mut shown, columns, item)?;
    }
    Ok(shown)
}

fn called_or<'a>(shown: &[ShownOutput<'a>], name: &str, otherwise: &'a Expression) -> ShownValue<'a>
    ensures { shown_of result ≡ item_called (Spelled (view otherwise.now)) name.now (shown_items shown.now) }
{
    'shown: for item in shown {
        if item.name == name {
            return item.value;
        }
    }
    ShownValue::Expression(otherwise)
}

fn item_value<'a>(shown: &[ShownOutput<'a>], place: usize) -> ShownValue<'a>
    ensures { shown_of result ≡ item_at place (shown_items shown.now) }
{
    if place < shown.len() {
        let item = &shown[place];
        return item.value;
    }
    ShownValue::Nothing
}

// The item of a number that counts from 1; a number that is no place gives nothing, and 0 the first.
#[tactic(auto, using(crate::proofs::Placed::item_at_past))]
fn numbered<'a>(shown: &[ShownOutput<'a>], n: u128) -> ShownValue<'a>
    ensures { shown_of result ≡ item_at (n - 1) (shown_items shown.now) }
{
    let place = n.saturating_sub(1);
    if place >= shown.len() as u128 {
        return ShownValue::Nothing;
    }
    item_value(shown, place as usize)
}

/// What a key of the query's ORDER BY stands for: a bare number for an item, a bare name for an output first.
#[tactic(auto, unfolding(wquery::specs::Tree::view))]
pub(crate) fn key_value<'a>(shown: &[ShownOutput<'a>], key: &'a Expression) -> ShownValue<'a>
    ensures { shown_of result ≡ key_shown (shown_items shown.now) (view key.now) }
{
    match key {
        Expression::Number(n) => numbered(shown, n.get()),
        Expression::Column(column) => match &column.qualifier {
            None => called_or(shown, column.name.as_str(), key),
            Some(_) => ShownValue::Expression(key),
        },
        _ => ShownValue::Expression(key),
    }
}
