//! What operators make of values and truths.

ghost use Rattle.std.specs.Prelude.{◌≡◌, ◌+ℤ◌, ◌-ℤ◌, ◌*ℤ◌, List, map};
ghost use Rattle.wvalues.specs.Meaning.{meaning, Meaning};
ghost use Rattle.wvalues.specs.declared.truth.Truth.TheVariants.{No};
ghost use Rattle.wplan.specs.Formula.{constant, formulas};
ghost use Rattle.wvalues.specs.Truth.{opposite};
ghost use Rattle.weval.specs.Values.{Judged, ranged, on_numbers, apply, order_of, meets, judged, compared};
ghost use Rattle.weval.specs.Values.{turned, is_among, is_null, between, signed, value_in, truth_of};
ghost use Rattle.weval.specs.Cells.{outcome, Comes};

use crate::cell::Cell;
use std::cmp::Ordering;
use wplan::Constants;
use wquery::{Comparison, Operator};
use wvalues::{Truth, Value, Whole};

// A number, where there is one in range.
fn in_range(number: Option<Whole>) -> Option<Cell>
    ensures { Comes result (ranged number) }
{
    number.map(|n| Cell::Value(Value::Int(n)))
}

fn sum(x: &Cell, y: &Cell) -> Option<Cell>
    ensures { Comes result (on_numbers (λ a b. a +ℤ b) (value_in (outcome x.now)) (value_in (outcome y.now))) }
{
    match (x, y) {
        (Cell::Value(Value::Int(x)), Cell::Value(Value::Int(y))) => in_range(x.add(*y)),
        _ => Some(Cell::Value(Value::Null)),
    }
}

fn difference(x: &Cell, y: &Cell) -> Option<Cell>
    ensures { Comes result (on_numbers (λ a b. a -ℤ b) (value_in (outcome x.now)) (value_in (outcome y.now))) }
{
    match (x, y) {
        (Cell::Value(Value::Int(x)), Cell::Value(Value::Int(y))) => in_range(x.sub(*y)),
        _ => Some(Cell::Value(Value::Null)),
    }
}

fn product(x: &Cell, y: &Cell) -> Option<Cell>
    ensures { Comes result (on_numbers (λ a b. a *ℤ b) (value_in (outcome x.now)) (value_in (outcome y.now))) }
{
    match (x, y) {
        (Cell::Value(Value::Int(x)), Cell::Value(Value::Int(y))) => in_range(x.mul(*y)),
        _ => Some(Cell::Value(Value::Null)),
    }
}

/// What an operator makes of two operands, `None` where that is out of range.
pub(crate) fn applied(operator: Operator, x: &Cell, y: &Cell) -> Option<Cell>
    ensures { Comes result (apply operator (outcome x.now) (outcome y.now)) }
{
    match operator {
        Operator::Or => Some(Cell::Truth(x.truth().or(y.truth()))),
        Operator::And => Some(Cell::Truth(x.truth().and(y.truth()))),
        Operator::Plus => sum(x, y),
        Operator::Minus => difference(x, y),
        Operator::Times => product(x, y),
    }
}

/// How two values stand, where they stand in an order.
pub(crate) fn order(x: &Value, y: &Value) -> Option<Ordering>
    ensures { result ≡ order_of (meaning x.now) (meaning y.now) }
{
    match (x, y) {
        (Value::Int(x), Value::Int(y)) => Some(x.cmp(y)),
        (Value::Null | Value::Int(_), _) | (_, Value::Null | Value::Int(_)) => None,
        _ => Some(x.text().cmp(y.text())),
    }
}

/// Whether an order is what a comparison asks for.
#[inline(always)]
pub(crate) fn is_met(comparison: Comparison, order: Ordering) -> bool
    ensures { result ≡ meets comparison order }
{
    match comparison {
        Comparison::Equal => order.is_eq(),
        Comparison::NotEqual => order.is_ne(),
        Comparison::Less => order.is_lt(),
        Comparison::LessOrEqual => order.is_le(),
        Comparison::Greater => order.is_gt(),
        Comparison::GreaterOrEqual => order.is_ge(),
    }
}

/// What a comparison says of an order.
pub(crate) fn judge(comparison: Comparison, order: Option<Ordering>) -> Truth
    ensures { result ≡ judged comparison order }
{
    match order {
        None => Truth::Unknown,
        Some(order) if is_met(comparison, order) => Truth::Yes,
        Some(_) => Truth::No,
    }
}

/// How two values compare.
pub(crate) fn cells_compared(comparison: Comparison, x: &Cell, y: &Cell) -> Truth
    ensures { result ≡ compared comparison (value_in (outcome x.now)) (value_in (outcome y.now)) }
{
    match (x, y) {
        (Cell::Value(x), Cell::Value(y)) => judge(comparison, order(x, y)),
        _ => Truth::Unknown,
    }
}

/// How two values compare, as a truth.
pub(crate) fn compared_cell(comparison: Comparison, x: &Cell, y: &Cell) -> Cell
    ensures { outcome result ≡ Judged (compared comparison (value_in (outcome x.now)) (value_in (outcome y.now))) }
{
    Cell::Truth(cells_compared(comparison, x, y))
}

// Whether a value is equal to one of a list's constants.
fn value_among(x: &Value, list: &Constants) -> Truth
    ensures { (row : List Meaning) → is_among row (meaning x.now) No (formulas (map constant list.now)) ≡ Judged result }
{
    if list.has_equal(x) {
        Truth::Yes
    } else if list.has_apart(x) {
        Truth::Unknown
    } else {
        Truth::No
    }
}

/// Whether what an expression comes to is equal to one of a list's constants.
pub(crate) fn cell_among(x: &Cell, list: &Constants) -> Truth
    ensures { (row : List Meaning) → is_among row (value_in (outcome x.now)) No (formulas (map constant list.now)) ≡ Judged result }
{
    match x {
        Cell::Value(value) => value_among(value, list),
        Cell::Truth(_) => value_among(&Value::Null, list),
    }
}

/// NOT, where it stands.
pub(crate) fn turned_truth(negated: bool, truth: Truth) -> Truth
    ensures { result ≡ turned negated truth }
{
    if negated { truth.not() } else { truth }
}

// Whether it is null, as an unknown truth is.
fn null_truth(x: &Cell) -> Truth
    ensures { result ≡ is_null (outcome x.now) }
{
    match x {
        Cell::Value(Value::Null) | Cell::Truth(Truth::Unknown) => Truth::Yes,
        _ => Truth::No,
    }
}

/// IS NULL, or IS NOT NULL.
pub(crate) fn null_cell(negated: bool, x: &Cell) -> Cell
    ensures { outcome result ≡ Judged (turned negated (is_null (outcome x.now))) }
{
    Cell::Truth(turned_truth(negated, null_truth(x)))
}

/// NOT.
pub(crate) fn negated_cell(x: &Cell) -> Cell
    ensures { outcome result ≡ Judged (opposite (truth_of (outcome x.now))) }
{
    Cell::Truth(x.truth().not())
}

// Whether a value lies between two.
fn between_truth(x: &Cell, low: &Cell, high: &Cell) -> Truth
    ensures { result ≡ between (value_in (outcome x.now)) (value_in (outcome low.now)) (value_in (outcome high.now)) }
{
    let above = cells_compared(Comparison::GreaterOrEqual, x, low);
    let below = cells_compared(Comparison::LessOrEqual, x, high);
    above.and(below)
}

/// BETWEEN, or NOT BETWEEN.
pub(crate) fn between_cell(negated: bool, x: &Cell, low: &Cell, high: &Cell) -> Cell
    ensures { outcome result ≡ Judged (turned negated (between (value_in (outcome x.now)) (value_in (outcome low.now))
        (value_in (outcome high.now)))) }
{
    Cell::Truth(turned_truth(negated, between_truth(x, low, high)))
}

/// A sign before a number.
pub(crate) fn signed_cell(minus: bool, x: &Cell) -> Cell
    ensures { outcome result ≡ signed minus (value_in (outcome x.now)) }
{
    match x {
        Cell::Value(Value::Int(n)) => Cell::Value(Value::Int(if minus { n.neg() } else { *n })),
        _ => Cell::Value(Value::Null),
    }
}
