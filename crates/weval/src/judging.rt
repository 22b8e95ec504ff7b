//! The truth of a condition on a row.
//!
//! A comparison and BETWEEN are judged where the values lie, and a chain of them by AND or OR by their truths: no cell is made of
//! any of them. What is none of these is evaluated.

ghost use Rattle.std.specs.Prelude.{◌≡◌, ◌⊎◌, Err, IfSome, Some, map, true};
ghost use Rattle.std.specs.List.{list_all};
ghost use Rattle.std.specs.Option.{is_some};
ghost use Rattle.wvalues.specs.Meaning.{meaning};
ghost use Rattle.wplan.specs.Formula.{formula, operand_of};
ghost use Rattle.weval.specs.Values.{Judged, Outcome, apply, value_along, value_of};
ghost use Rattle.weval.specs.Conditions.{Says, is_logical};
ghost use Rattle.weval.specs.Reads.{links_read_text, reads_text};
ghost use Rattle.weval.specs.declared.cell.EvalFault.TheVariants.{NoMemory};

use crate::cell::EvalFault;
use crate::evaluating::eval;
use crate::leaves::{between_in_place, compared_in_place};
use crate::operating::turned_truth;
use wplan::{Expr, Further};
use wquery::Operator;
use wvalues::{Truth, Value};

fn is_logical(operator: Operator) -> bool
    ensures { result ≡ is_logical operator }
{
    matches!(operator, Operator::Or | Operator::And)
}

// Whether each operator of a chain joins truths.
fn are_logical(links: &[Further]) -> bool
    ensures { result ≡ list_all (λ l. is_logical l.operator) links.now }
{
    links.iter().all(|link| is_logical(link.operator))
}

// What AND or OR makes of two truths.
fn joined(operator: Operator, x: Truth, y: Truth) -> Truth
    ensures { is_logical operator ≡ true → apply operator (Judged x) (Judged y) ≡ Judged result }
{
    match operator {
        Operator::Or => x.or(y),
        Operator::And => x.and(y),
        Operator::Plus | Operator::Minus | Operator::Times => Truth::Unknown,
    }
}

// The truth of an expression that is evaluated. A value is no condition, and unknown.
fn evaluated_truth(e: &Expr, row: &[Value]) -> Result<Truth, EvalFault>
    ensures says { Says result (value_of (map meaning row.now) (formula e.now)) }
    ensures memory { result ≡ Err NoMemory → reads_text (map meaning row.now) (formula e.now) ≡ true }
{
    match eval(e, row) {
        Ok(cell) => Ok(cell.truth()),
        Err(fault) => Err(fault),
    }
}

// The truth of an expression: of a comparison and of BETWEEN where the values lie, if that can be.
#[tactic(auto, unfolding(wplan::specs::Formula::formula))]
fn test_truth(e: &Expr, row: &[Value]) -> Result<Truth, EvalFault>
    ensures says { Says result (value_of (map meaning row.now) (formula e.now)) }
    ensures memory { result ≡ Err NoMemory → reads_text (map meaning row.now) (formula e.now) ≡ true }
{
    match e {
        Expr::Compare {
            comparison,
            left,
            right,
        } => match compared_in_place(*comparison, left, right, row) {
            Some(truth) => Ok(truth),
            None => evaluated_truth(e, row),
        },
        Expr::Between {
            negated,
            operand,
            low,
            high,
        } => match between_in_place(operand, low, high, row) {
            Some(truth) => Ok(turned_truth(*negated, truth)),
            None => evaluated_truth(e, row),
        },
        _ => evaluated_truth(e, row),
    }
}

// The truth of a chain by AND and OR of which the operands so far say this.
fn links_truth(first: Truth, links: &[Further], row: &[Value]) -> Result<Truth, EvalFault>
    ensures says { list_all (λ l. is_logical l.operator) links.now ≡ true
        → Says result (value_along (map meaning row.now) (Judged first) (map operand_of links.now)) }
    ensures memory { result ≡ Err NoMemory → links_read_text (map meaning row.now) (map operand_of links.now) ≡ true }
{
    let mut so_far = first;
    'links: for link in links {
        match test_truth(&link.operand, row) {
            Err(fault) => return Err(fault),
            Ok(truth) => so_far = joined(link.operator, so_far, truth),
        }
    }
    Ok(so_far)
}

// The truth of a chain of which the first operand says this; none where an operator in it joins values.
fn chain_truth(
    first: Result<Truth, EvalFault>,
    links: &[Further],
    row: &[Value],
) -> Option<Result<Truth, EvalFault>>
    ensures found { is_some result ≡ list_all (λ l. is_logical l.operator) links.now }
    ensures says { (o : Outcome) → Says first o → IfSome result (λ truth. Says truth (value_along (map meaning row.now) o
        (map operand_of links.now))) }
    ensures memory { result ≡ Some (Err NoMemory) → (first ≡ Err NoMemory)
        ⊎ (links_read_text (map meaning row.now) (map operand_of links.now) ≡ true) }
{
    if !are_logical(links) {
        return None;
    }
    match first {
        Err(fault) => Some(Err(fault)),
        Ok(truth) => Some(links_truth(truth, links, row)),
    }
}

/// What an expression says as a condition on a row: a value is unknown. It is out of range where any part of it is, whatever the
/// other parts come to: both sides of AND and OR are judged.
///
/// `NoMemory` is answered only where a text of the expression or of the row is shared too often, as by `eval`.
pub fn truth_on(e: &Expr, row: &[Value]) -> Result<Truth, EvalFault>
    ensures says { Says result (value_of (map meaning row.now) (formula e.now)) }
    ensures memory { result ≡ Err NoMemory → reads_text (map meaning row.now) (formula e.now) ≡ true }
{
    let Expr::Chain { first, links } = e else {
        return test_truth(e, row);
    };
    match chain_truth(test_truth(first, row), links.as_slice(), row) {
        Some(truth) => truth,
        None => evaluated_truth(e, row),
    }
}
