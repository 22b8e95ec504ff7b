//! Makes expressions over rows.

ghost use Rattle.std.specs.Prelude.{◌≡◌, IfOk, map};
ghost use Rattle.wplan.specs.Formula.{formula, chained, operand_of, Constant, Negation};
ghost use Rattle.wplan.specs.Formula.{Signed, Compared, NullTest, Within};
ghost use Rattle.wbinding.specs.Resolving.{literal};

use std::alloc::{AllocError, Global};
use std::rc::RcStr;
use wplan::{Expr, Further};
use wquery::Comparison;
use wvalues::Whole;

#[tactic(auto, unfolding(wplan::specs::Formula::formula))]
pub(crate) fn number(n: u128) -> Expr
    ensures { formula result ≡ Constant (literal n) }
{
    if n >= 1 << 95 {
        return Expr::Null;
    }
    match Whole::new(n as i128) {
        Some(whole) => Expr::Number(whole),
        None => Expr::Null,
    }
}

#[tactic(auto, unfolding(wplan::specs::Formula::formula))]
pub(crate) fn not(alloc: Global, e: Expr) -> Result<Expr, AllocError>
    ensures { IfOk result (λ x. formula x ≡ Negation (formula e)) }
{
    Ok(Expr::Not(Box::new(alloc, e)?))
}

#[tactic(auto, unfolding(wplan::specs::Formula::formula))]
pub(crate) fn sign(alloc: Global, minus: bool, e: Expr) -> Result<Expr, AllocError>
    ensures { IfOk result (λ x. formula x ≡ Signed minus (formula e)) }
{
    Ok(Expr::Sign {
        minus,
        operand: Box::new(alloc, e)?,
    })
}

#[tactic(auto, unfolding(wplan::specs::Formula::formula))]
pub(crate) fn compared(
    alloc: Global,
    comparison: Comparison,
    l: Expr,
    r: Expr,
) -> Result<Expr, AllocError>
    ensures { IfOk result (λ x. formula x ≡ Compared comparison (formula l) (formula r)) }
{
    Ok(Expr::Compare {
        comparison,
        left: Box::new(alloc, l)?,
        right: Box::new(alloc, r)?,
    })
}

#[tactic(auto, unfolding(wplan::specs::Formula::formula, wplan::specs::Formula::operand_of))]
pub(crate) fn chain(alloc: Global, first: Expr, links: Vec<Further>) -> Result<Expr, AllocError>
    ensures { IfOk result (λ x. formula x ≡ chained (formula first) (map operand_of links.items)) }
{
    Ok(Expr::Chain {
        first: Box::new(alloc, first)?,
        links,
    })
}

#[tactic(auto, unfolding(wplan::specs::Formula::formula))]
pub(crate) fn null_test(alloc: Global, negated: bool, e: Expr) -> Result<Expr, AllocError>
    ensures { IfOk result (λ x. formula x ≡ NullTest negated (formula e)) }
{
    Ok(Expr::IsNull {
        negated,
        operand: Box::new(alloc, e)?,
    })
}

#[tactic(auto, unfolding(wplan::specs::Formula::formula))]
pub(crate) fn within(
    alloc: Global,
    negated: bool,
    e: Expr,
    low: Expr,
    high: Expr,
) -> Result<Expr, AllocError>
    ensures { IfOk result (λ x. formula x ≡ Within negated (formula e) (formula low) (formula high)) }
{
    Ok(Expr::Between {
        negated,
        operand: Box::new(alloc, e)?,
        low: Box::new(alloc, low)?,
        high: Box::new(alloc, high)?,
    })
}
