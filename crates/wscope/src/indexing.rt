//! The output names of a SELECT list, found by name.

ghost use Rattle.std.specs.Prelude.{◌≡◌, ◌||◌, ◌++◌, ◌∷◌, [], List, map, not, IfOk, OnOk};
ghost use Rattle.std.specs.List.{list_any};
ghost use Rattle.std.specs.Option.{option_copied};
ghost use Rattle.wquery.specs.QueryTree.{ItemTree, view_item};
ghost use Rattle.wscope.specs.declared.data_type.DataType.{DataType};
ghost use Rattle.wscope.specs.Sources.{ShownItem, all_titled, columns_from, written_out};
ghost use Rattle.wscope.specs.Called.{is_star, same_shown};
ghost use Rattle.wscope.specs.Outputs.{shown, first_of, first_or, has_two, IsIndex};

use crate::called::Called;
use crate::comparing::same_output;
use crate::names::output_name;
use crate::output::Output;
use crate::source::SourceColumn;
use std::alloc::{AllocError, Global};
use std::collections::BTreeMap;
use wquery::Item;

// The items of a name with one more behind them.
#[tactic(auto, using(crate::proofs::Own::own_shown))]
fn with_item<'a>(
    columns: &[SourceColumn],
    known: Option<&Called<'a>>,
    output: Output<'a>,
) -> Called<'a>
    ensures first { shown result.first ≡ first_or (first_of (option_copied known.entry)) (shown output.entry) }
    ensures ambiguous { result.is_ambiguous
        ≡ (has_two (option_copied known.entry) || not (same_shown (all_titled columns.now) (shown result.first) (shown output.entry))) }
{
    match known {
        None => Called {
            first: output,
            is_ambiguous: false,
        },
        Some(called) => Called {
            first: called.first,
            is_ambiguous: called.is_ambiguous || !same_output(columns, called.first, output),
        },
    }
}

// One more item behind those so far.
fn add<'a>(
    called: &mut BTreeMap<&'a str, Called<'a>>,
    columns: &[SourceColumn],
    name: &'a str,
    output: Output<'a>,
) -> Result<(), AllocError>
    ensures { (is : List ShownItem) (type_of : DataType) → IsIndex called.old (all_titled columns.now) is
        → OnOk result (IsIndex called.new (all_titled columns.now) (is ++ record {
          name = name.now;
          type = type_of;
          shown =
              shown output.entry;
        } ∷ [])) }
{
    let next = with_item(columns, called.get(&name), output);
    called.insert(name, next)?;
    Ok(())
}

// The columns behind the items so far.
fn add_columns<'a>(
    called: &mut BTreeMap<&'a str, Called<'a>>,
    columns: &'a [SourceColumn],
) -> Result<(), AllocError>
    ensures { (is : List ShownItem) → IsIndex called.old (all_titled columns.now) is
        → OnOk result (IsIndex called.new (all_titled columns.now) (is ++ columns_from 0 (all_titled columns.now))) }
{
    let mut place = 0;
    'columns: for column in columns {
        add(called, columns, column.name.as_str(), Output::Placed(place))?;
        place += 1;
    }
    Ok(())
}

// What `*` brings in behind the items so far: nothing new behind another `*`.
fn add_star<'a>(
    called: &mut BTreeMap<&'a str, Called<'a>>,
    columns: &'a [SourceColumn],
    is_repeated: bool,
) -> Result<(), AllocError>
    ensures { (items : List ItemTree) → is_repeated ≡ list_any is_star items
        → IsIndex called.old (all_titled columns.now) (written_out (all_titled columns.now) items)
        → OnOk result (IsIndex called.new (all_titled columns.now) (written_out (all_titled columns.now) items
        ++ columns_from 0 (all_titled columns.now))) }
{
    if is_repeated {
        return Ok(());
    }
    add_columns(called, columns)
}

fn add_item<'a>(
    called: &mut BTreeMap<&'a str, Called<'a>>,
    columns: &'a [SourceColumn],
    item: &'a Item,
    is_repeated: bool,
) -> Result<(), AllocError>
    ensures { (items : List ItemTree) → is_repeated ≡ list_any is_star items
        → IsIndex called.old (all_titled columns.now) (written_out (all_titled columns.now) items)
        → OnOk result (IsIndex called.new (all_titled columns.now) (written_out (all_titled columns.now)
        (items ++ view_item item.now ∷ []))) }
{
    match item {
        Item::All => add_star(called, columns, is_repeated),
        Item::Value { expression, alias } => {
            let name = output_name(expression, alias);
            add(called, columns, name, Output::Spelled(expression))
        }
    }
}

// Whether `*` stands among the items so far or is the next one.
fn has_star_by(has_star: bool, item: &Item) -> bool
    ensures { result ≡ (has_star || is_star (view_item item.now)) }
{
    if has_star {
        return true;
    }
    matches!(item, Item::All)
}

/// The items over these columns by their output names, `*` written out.
pub(crate) fn output_index<'a>(
    alloc: Global,
    columns: &'a [SourceColumn],
    items: &'a [Item],
) -> Result<BTreeMap<&'a str, Called<'a>>, AllocError>
    ensures { IfOk result (λ made. IsIndex made (all_titled columns.now) (written_out (all_titled columns.now) (map view_item items.now))) }
{
    let mut called = BTreeMap::new(alloc);
    let mut has_star = false;
    'items: for item in items {
        add_item(&mut called, columns, item, has_star)?;
        has_star = has_star_by(has_star, item);
    }
    Ok(called)
}
