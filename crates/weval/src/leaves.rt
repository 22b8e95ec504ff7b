//! Comparisons of values that are looked at where they lie.

ghost use Rattle.std.specs.Prelude.{◌≡◌, ◌&&◌, Bool, IfSome, get_or, length, map};
ghost use Rattle.std.specs.Option.{is_some};
ghost use Rattle.wvalues.specs.Meaning.{meaning, Null};
ghost use Rattle.wplan.specs.declared.expr.Expr.{out-Expr};
ghost use Rattle.wplan.specs.Formula.{formula, Compared, Within};
ghost use Rattle.weval.specs.Leaves.{is_leaf, is_place_below};
ghost use Rattle.weval.specs.Values.{Held, Judged, order_of, turned, value_in, value_of};

use crate::operating::{judge, order};
use std::cmp::Ordering;
use wplan::Expr;
use wquery::Comparison;
use wvalues::{Truth, Value};

// How a value stands to the one at a place of a row. A place that the row lacks is null, and in no order.
fn order_with_place(x: &Value, row: &[Value], place: usize) -> Option<Ordering>
    ensures { result ≡ order_of (meaning x.now) (get_or (map meaning row.now) place Null) }
{
    if place < row.len() {
        order(x, &row[place])
    } else {
        None
    }
}

// How a value stands to that of an expression, where this is a value by itself or one at a place.
#[tactic(auto, unfolding(wplan::specs::Formula::formula))]
fn order_with_leaf(x: &Value, e: &Expr, row: &[Value]) -> Option<Option<Ordering>>
    ensures found { is_some result ≡ is_leaf (out-Expr e.now) }
    ensures held { IfSome result (λ o. value_of (map meaning row.now) (formula e.now)
        ≡ Held (value_in (value_of (map meaning row.now) (formula e.now)))) }
    ensures order { IfSome result (λ o. o ≡ order_of (meaning x.now) (value_in (value_of (map meaning row.now) (formula e.now)))) }
{
    match e {
        Expr::Place(place) => Some(order_with_place(x, row, *place)),
        Expr::Number(n) => match x {
            Value::Int(m) => Some(Some(m.cmp(n))),
            _ => Some(None),
        },
        Expr::Text(text) => match x {
            Value::Short(t) => Some(Some(t.as_str().cmp(text.as_str()))),
            Value::Shared(t) => Some(Some(t.cmp(text))),
            _ => Some(None),
        },
        Expr::Null => Some(None),
        _ => None,
    }
}

/// How the value at a place of a row compares with a value or with that at another place, where it is these that are
/// compared. Neither is copied.
#[tactic(auto, using(crate::proofs::LeafFacts::compared_leaves), unfolding(wplan::specs::Formula::formula))]
pub(crate) fn compared_in_place(
    comparison: Comparison,
    left: &Expr,
    right: &Expr,
    row: &[Value],
) -> Option<Truth>
    ensures found { is_some result ≡ (is_place_below (length row.now) (out-Expr left.now) && is_leaf (out-Expr right.now)) }
    ensures truth { IfSome result (λ t. value_of (map meaning row.now) (Compared comparison (formula left.now)
        (formula right.now)) ≡ Judged t) }
{
    let Expr::Place(place) = left else {
        return None;
    };
    if *place >= row.len() {
        return None;
    }
    match order_with_leaf(&row[*place], right, row) {
        None => None,
        Some(found) => Some(judge(comparison, found)),
    }
}

/// Whether the value at a place of a row lies between two, where each of these is a value by itself or one at a place. None
/// is copied.
#[tactic(auto, using(crate::proofs::LeafFacts::between_leaves))]
pub(crate) fn between_in_place(
    operand: &Expr,
    low: &Expr,
    high: &Expr,
    row: &[Value],
) -> Option<Truth>
    ensures found { is_some result ≡ (is_place_below (length row.now) (out-Expr operand.now)
        && (is_leaf (out-Expr low.now) && is_leaf (out-Expr high.now))) }
    ensures truth { (negated : Bool) → IfSome result (λ t. value_of (map meaning row.now)
        (Within negated (formula operand.now) (formula low.now) (formula high.now)) ≡ Judged (turned negated t)) }
{
    let above = compared_in_place(Comparison::GreaterOrEqual, operand, low, row)?;
    let below = compared_in_place(Comparison::LessOrEqual, operand, high, row)?;
    Some(above.and(below))
}
