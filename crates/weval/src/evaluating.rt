//! The value of an expression on a row.

ghost use Rattle.std.specs.Prelude.{◌≡◌, ◌⊎◌, true, Err, map, get_or};
ghost use Rattle.std.specs.Rc.{rc_str_bytes};
ghost use Rattle.wvalues.specs.Meaning.{meaning, Null, Text};
ghost use Rattle.wvalues.specs.declared.truth.Truth.TheVariants.{No};
ghost use Rattle.wplan.specs.Formula.{formula, formulas, operand_of};
ghost use Rattle.weval.specs.Values.{Outcome, value_of, value_along, is_among, value_in, Held};
ghost use Rattle.weval.specs.Values.{Judged, after, apply, compared, turned, truth_of};
ghost use Rattle.weval.specs.Cells.{outcome, Gives, GivesTruth};
ghost use Rattle.weval.specs.Reads.{is_text_value, reads_text, links_read_text, some_read_text};
ghost use Rattle.weval.specs.declared.cell.EvalFault.TheVariants.{NoMemory};

use crate::cell::{Cell, EvalFault};
use crate::leaves::{between_in_place, compared_in_place};
use crate::operating::{
    applied, between_cell, cell_among, cells_compared, compared_cell, negated_cell, null_cell,
    signed_cell, turned_truth,
};
use std::rc::RcStr;
use wplan::{Expr, Further};
use wquery::Comparison;
use wvalues::{Truth, Value};

fn shared(text: &RcStr) -> Result<Cell, EvalFault>
    ensures { Gives result (Held (Text (rc_str_bytes text.now))) }
{
    let text = text.clone()?;
    Ok(Cell::Value(Value::Shared(text)))
}

fn copied(value: &Value) -> Result<Cell, EvalFault>
    ensures gives { Gives result (Held (meaning value.now)) }
    ensures memory { result ≡ Err NoMemory → is_text_value (meaning value.now) ≡ true }
{
    match value {
        Value::Null => Ok(Cell::Value(Value::Null)),
        Value::Int(n) => Ok(Cell::Value(Value::Int(*n))),
        Value::Short(text) => Ok(Cell::Value(Value::Short(*text))),
        Value::Shared(text) => shared(text),
    }
}

// The value at a place of a row, null where the row has none.
fn at(row: &[Value], place: usize) -> Result<Cell, EvalFault>
    ensures gives { Gives result (Held (get_or (map meaning row.now) place Null)) }
    ensures memory { result ≡ Err NoMemory → is_text_value (get_or (map meaning row.now) place Null) ≡ true }
{
    match row.get(place) {
        Some(value) => copied(value),
        None => Ok(Cell::Value(Value::Null)),
    }
}

/// What an expression comes to on a row: a value or a truth. It is out of range where any part of it is, whatever the
/// other parts come to: both sides of AND and OR, and all entries of a list, are evaluated.
///
/// Texts are shared, so it takes no memory; `NoMemory` is answered where a text of the expression or of the row is shared
/// too often.
#[cycle(eval)]
#[tactic(auto, unfolding(wplan::specs::Formula::formula, wplan::specs::Formula::operand_of))]
pub fn eval(e: &Expr, row: &[Value]) -> Result<Cell, EvalFault>
    ensures gives { Gives result (value_of (map meaning row.now) (formula e.now)) }
    ensures memory { result ≡ Err NoMemory → reads_text (map meaning row.now) (formula e.now) ≡ true }
{
    match e {
        Expr::Null => Ok(Cell::Value(Value::Null)),
        Expr::Number(n) => Ok(Cell::Value(Value::Int(*n))),
        Expr::Text(text) => shared(text),
        Expr::Place(place) => at(row, *place),
        Expr::Not(operand) => Ok(negated_cell(&eval(operand, row)?)),
        Expr::Sign { minus, operand } => Ok(signed_cell(*minus, &eval(operand, row)?)),
        Expr::Chain { first, links } => eval_chain(eval(first, row), links.as_slice(), row),
        Expr::Compare {
            comparison,
            left,
            right,
        } => match compared_in_place(*comparison, left, right, row) {
            Some(truth) => Ok(Cell::Truth(truth)),
            None => Ok(compared_cell(*comparison, &eval(left, row)?, &eval(right, row)?)),
        },
        Expr::IsNull { negated, operand } => Ok(null_cell(*negated, &eval(operand, row)?)),
        Expr::Between {
            negated,
            operand,
            low,
            high,
        } => match between_in_place(operand, low, high, row) {
            Some(truth) => Ok(Cell::Truth(turned_truth(*negated, truth))),
            None => {
                let (x, y, z) = (eval(operand, row)?, eval(low, row)?, eval(high, row)?);
                Ok(between_cell(*negated, &x, &y, &z))
            }
        },
        Expr::In {
            negated,
            operand,
            list,
        } => eval_in(*negated, &eval(operand, row)?, list.as_slice(), row),
        Expr::InConstants {
            negated,
            operand,
            list,
        } => Ok(Cell::Truth(turned_truth(*negated, cell_among(&eval(operand, row)?, list)))),
    }
}

// A chain of which the first operand gave this.
#[cycle(eval)]
fn eval_chain(
    first: Result<Cell, EvalFault>,
    links: &[Further],
    row: &[Value],
) -> Result<Cell, EvalFault>
    ensures gives { (o : Outcome) → Gives first o → Gives result (value_along (map meaning row.now) o (map operand_of links.now)) }
    ensures memory { result ≡ Err NoMemory → (first ≡ Err NoMemory)
        ⊎ (links_read_text (map meaning row.now) (map operand_of links.now) ≡ true) }
{
    match first {
        Err(f) => Err(f),
        Ok(x) => eval_links(x, links, row),
    }
}

#[cycle(eval)]
fn eval_links(first: Cell, links: &[Further], row: &[Value]) -> Result<Cell, EvalFault>
    ensures gives { Gives result (value_along (map meaning row.now) (outcome first) (map operand_of links.now)) }
    ensures memory { result ≡ Err NoMemory → links_read_text (map meaning row.now) (map operand_of links.now) ≡ true }
{
    let mut so_far = first;
    'links: for link in links {
        match eval_link(&so_far, link, row) {
            Err(f) => return Err(f),
            Ok(next) => so_far = next,
        }
    }
    Ok(so_far)
}

#[cycle(eval)]
fn eval_link(so_far: &Cell, link: &Further, row: &[Value]) -> Result<Cell, EvalFault>
    ensures gives { Gives result (after (value_of (map meaning row.now) (formula link.now.operand))
        (λ y. apply link.now.operator (outcome so_far.now) y)) }
    ensures memory { result ≡ Err NoMemory → reads_text (map meaning row.now) (formula link.now.operand) ≡ true }
{
    let operand = eval(&link.operand, row)?;
    applied(link.operator, so_far, &operand).ok_or(EvalFault::OutOfRange)
}

#[cycle(eval)]
fn eval_in(negated: bool, x: &Cell, list: &[Expr], row: &[Value]) -> Result<Cell, EvalFault>
    ensures gives { Gives result (after (is_among (map meaning row.now) (value_in (outcome x.now)) No
        (formulas (map formula list.now))) (λ found. Judged (turned negated (truth_of found)))) }
    ensures memory { result ≡ Err NoMemory → some_read_text (map meaning row.now) (formulas (map formula list.now)) ≡ true }
{
    match eval_among(x, list, row) {
        Err(f) => Err(f),
        Ok(found) => Ok(Cell::Truth(turned_truth(negated, found))),
    }
}

// Whether a value is equal to one of a list.
#[cycle(eval)]
fn eval_among(x: &Cell, list: &[Expr], row: &[Value]) -> Result<Truth, EvalFault>
    ensures gives { GivesTruth result (is_among (map meaning row.now) (value_in (outcome x.now)) No (formulas (map formula list.now))) }
    ensures memory { result ≡ Err NoMemory → some_read_text (map meaning row.now) (formulas (map formula list.now)) ≡ true }
{
    let mut found = Truth::No;
    'list: for e in list {
        let y = eval(e, row)?;
        found = found.or(cells_compared(Comparison::Equal, x, &y));
    }
    Ok(found)
}
