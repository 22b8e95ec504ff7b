//! Makes IN a list.

ghost use Rattle.std.specs.Prelude.{◌≡◌, IfOk, IfSome, map, true};
ghost use Rattle.std.specs.Option.{is_some};
ghost use Rattle.wvalues.specs.Meaning.{meaning, Int};
ghost use Rattle.wplan.specs.declared.expr.Expr.{out-Expr};
ghost use Rattle.wplan.specs.declared.expr.Expr.TheOpen as layer;
ghost use Rattle.wplan.specs.Formula.{formula, formulas, constant, Among, Constant, Signed};
ghost use Rattle.wbinding.specs.Lookups.{are_constants, is_constant, is_lookup, is_number_above_zero};

use std::alloc::{AllocError, Global};
use wplan::{Constants, Expr};
use wvalues::{Value, Whole};

// A number that stands without a sign, which is not below zero.
fn unsigned(number: Whole) -> Option<Value>
    ensures found { is_some result ≡ is_constant (layer.Number number) }
    ensures value { IfSome result (λ v. constant (meaning v) ≡ Constant (Int number)) }
{
    if number.get() < 0 {
        return None;
    }
    Some(Value::Int(number))
}

// A number behind a minus.
#[tactic(auto, unfolding(wplan::specs::Formula::formula))]
fn negative(operand: &Expr) -> Option<Value>
    ensures found { is_some result ≡ is_number_above_zero (out-Expr operand.now) }
    ensures value { IfSome result (λ v. constant (meaning v) ≡ Signed true (formula operand.now)) }
{
    match operand {
        Expr::Number(number) if number.get() > 0 => Some(Value::Int(number.neg())),
        _ => None,
    }
}

// The value of a constant.
#[tactic(auto, unfolding(wplan::specs::Formula::formula))]
fn constant_of(e: &Expr) -> Result<Option<Value>, AllocError>
    ensures found { IfOk result (λ value. is_some value ≡ is_constant (out-Expr e.now)) }
    ensures value { IfOk result (λ value. IfSome value (λ v. constant (meaning v) ≡ formula e.now)) }
{
    match e {
        Expr::Null => Ok(Some(Value::Null)),
        Expr::Text(text) => Ok(Some(Value::Shared(text.clone()?))),
        Expr::Number(number) => Ok(unsigned(*number)),
        Expr::Sign {
            minus: true,
            operand,
        } => Ok(negative(operand)),
        _ => Ok(None),
    }
}

// The values of a list that has constants alone.
fn constants_of(alloc: Global, list: &[Expr]) -> Result<Option<Vec<Value>>, AllocError>
    ensures found { IfOk result (λ values. is_some values ≡ are_constants list.now) }
    ensures values { IfOk result (λ values. IfSome values (λ vs. map constant (map meaning vs.items) ≡ map formula list.now)) }
{
    let mut values = Vec::new(alloc);
    'list: for e in list {
        match constant_of(e)? {
            None => return Ok(None),
            Some(value) => values.push(value)?,
        }
    }
    Ok(Some(values))
}

/// IN a list. Where this has constants alone, they are made to be looked up, and else each of them is compared.
#[tactic(auto, unfolding(wplan::specs::Formula::formula))]
pub(crate) fn among(
    alloc: Global,
    negated: bool,
    e: Expr,
    list: Vec<Expr>,
) -> Result<Expr, AllocError>
    ensures formula { IfOk result (λ x. formula x ≡ Among negated (formula e) (formulas (map formula list.items))) }
    ensures lookup { IfOk result (λ x. is_lookup (out-Expr x) ≡ are_constants list.items) }
{
    let constants = constants_of(alloc, list.as_slice())?;
    let operand = Box::new(alloc, e)?;
    match constants {
        Some(values) => Ok(Expr::InConstants {
            negated,
            operand,
            list: Constants::new(alloc, values)?,
        }),
        None => Ok(Expr::In {
            negated,
            operand,
            list,
        }),
    }
}
