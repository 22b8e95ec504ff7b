//! The arguments of calls.

ghost use Rattle.std.specs.Prelude.{◌≡◌, IfOk};
ghost use Rattle.wvalues.specs.Meaning.{meaning};
ghost use Rattle.wquery.specs.Tree.{view, view_arguments, trees, views, Signed};
ghost use Rattle.wplan.specs.Formula.{formula};
ghost use Rattle.wbinding.specs.Resolving.{resolved, literal, layout_of};
ghost use Rattle.wbinding.specs.Functions.{argument, tree_at, number_or, literal_of, negative, tree_or_null};

use crate::layout::RowLayout;
use crate::resolving::build;
use std::alloc::{AllocError, Global};
use wplan::Expr;
use wquery::{Arguments, Expression};
use wvalues::{Value, Whole};

fn tree_of(list: &[Expression], place: usize) -> Option<&Expression>
    ensures { tree_or_null result ≡ tree_at place (trees (views list.now)) }
{
    if place < list.len() {
        return Some(&list[place]);
    }
    None
}

#[tactic(auto, unfolding(wquery::specs::Tree::view_arguments, wquery::specs::Tree::view))]
fn argument_at(arguments: &Arguments, place: usize) -> Option<&Expression>
    ensures { tree_or_null result ≡ argument place (view_arguments arguments.now) }
{
    match arguments {
        Arguments::Star => None,
        Arguments::Listed(list) => tree_of(list.as_slice(), place),
        Arguments::Columns(_) => None,
    }
}

#[tactic(auto, unfolding(wquery::specs::Tree::view))]
fn number_in(e: &Expression, default: u128) -> u128
    ensures { result ≡ number_or default (view e.now) }
{
    match e {
        Expression::Number(n) => n.get(),
        _ => default,
    }
}

/// The number literal that stands at a place, or else a default.
pub(crate) fn number_at(arguments: &Arguments, place: usize, default: u128) -> u128
    ensures { result ≡ number_or default (argument place (view_arguments arguments.now)) }
{
    match argument_at(arguments, place) {
        Some(e) => number_in(e, default),
        None => default,
    }
}

fn positive_value(n: u128) -> Value
    ensures { meaning result ≡ literal n }
{
    if n >= 1 << 95 {
        return Value::Null;
    }
    match Whole::new(n as i128) {
        Some(whole) => Value::Int(whole),
        None => Value::Null,
    }
}

fn negative_value(n: u128) -> Value
    ensures { meaning result ≡ negative n }
{
    if n >= 1 << 95 {
        return Value::Null;
    }
    match Whole::new(-(n as i128)) {
        Some(whole) => Value::Int(whole),
        None => Value::Null,
    }
}

#[tactic(auto, unfolding(wquery::specs::Tree::view))]
fn signed_value(minus: bool, operand: &Expression) -> Value
    ensures { meaning result ≡ literal_of (Signed minus (view operand.now)) }
{
    if !minus {
        return Value::Null;
    }
    match operand {
        Expression::Number(n) => negative_value(n.get()),
        _ => Value::Null,
    }
}

#[tactic(auto, unfolding(wquery::specs::Tree::view))]
fn literal_in(e: &Expression) -> Result<Value, AllocError>
    ensures { IfOk result (λ v. meaning v ≡ literal_of (view e.now)) }
{
    match e {
        Expression::Number(n) => Ok(positive_value(n.get())),
        Expression::Text(text) => {
            let text = text.clone()?;
            Ok(Value::Shared(text))
        }
        Expression::Sign { minus, operand } => Ok(signed_value(*minus, operand)),
        _ => Ok(Value::Null),
    }
}

/// The literal that stands at a place, NULL where there is none.
pub(crate) fn literal_at(arguments: &Arguments, place: usize) -> Result<Value, AllocError>
    ensures { IfOk result (λ v. meaning v ≡ literal_of (argument place (view_arguments arguments.now))) }
{
    match argument_at(arguments, place) {
        Some(e) => literal_in(e),
        None => Ok(Value::Null),
    }
}

/// The argument that stands at a place, NULL where there is none.
#[tactic(auto, unfolding(wplan::specs::Formula::formula))]
pub(crate) fn build_argument(
    alloc: Global,
    layout: &RowLayout,
    arguments: &Arguments,
    place: usize,
) -> Result<Expr, AllocError>
    ensures { IfOk result (λ x. formula x ≡ resolved (layout_of layout.now) (argument place (view_arguments arguments.now))) }
{
    match argument_at(arguments, place) {
        Some(e) => build(alloc, layout, e),
        None => Ok(Expr::Null),
    }
}
