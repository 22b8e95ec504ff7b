//! The parts of a SELECT's items, each in a list of its own.
ghost use Rattle.std.specs.Prelude.{◌≡◌, IfOk, IfSome, length, map};
ghost use Rattle.std.specs.Rc.{rc_str_bytes};
ghost use Rattle.wplan.specs.Formula.{At};
ghost use Rattle.wplan.specs.Plans.{output_plan};
ghost use Rattle.std.specs.List.{list_all};
ghost use Rattle.std.specs.Option.{is_some};
ghost use Rattle.wplan.specs.declared.expr.Expr.{out-Expr};
ghost use Rattle.wrows.specs.Laid.{formulas_seen};
ghost use Rattle.wrows.specs.PlainColumns.{plain_place};

use std::alloc::{AllocError, Global};
use std::rc::RcStr;
use wplan::{Expr, Output};
use wrows::place_of;

/// The values of items.
pub(crate) fn item_values(alloc: Global, items: &[Output]) -> Result<Vec<&Expr>, AllocError>
    ensures values { IfOk result (λ values. formulas_seen values.items ≡ map (λ o. o.value) (map output_plan items.now)) }
    ensures len { IfOk result (λ values. length values.items ≡ length items.now) }
{
    let mut values = Vec::with_capacity(alloc, items.len())?;
    for item in items {
        values.push(&item.value)?;
    }
    Ok(values)
}

/// The output names of items.
pub(crate) fn item_names(alloc: Global, items: &[Output]) -> Result<Vec<RcStr>, AllocError>
    ensures names { IfOk result (λ names. map rc_str_bytes names.items ≡ map (λ o. o.name) (map output_plan items.now)) }
    ensures len { IfOk result (λ names. length names.items ≡ length items.now) }
{
    let mut names = Vec::with_capacity(alloc, items.len())?;
    for item in items {
        names.push(item.name.clone()?)?;
    }
    Ok(names)
}

/// The places of items, where each is a plain column.
pub(crate) fn item_places(alloc: Global, items: &[Output]) -> Result<Option<Vec<usize>>, AllocError>
    ensures places { IfOk result (λ found. IfSome found (λ places. map (λ o. o.value) (map output_plan items.now) ≡ map At places.items)) }
    ensures found { IfOk result (λ found. is_some found ≡ list_all (λ o. is_some (plain_place (out-Expr o.value))) items.now) }
{
    let mut places = Vec::with_capacity(alloc, items.len())?;
    for item in items {
        let Some(place) = place_of(&item.value) else {
            return Ok(None);
        };
        places.push(place)?;
    }
    Ok(Some(places))
}
