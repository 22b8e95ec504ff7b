//! What each form of expression takes and gives: the one table of types.

ghost use Rattle.std.specs.Prelude.{◌≡◌};
ghost use Rattle.wquery.specs.Tree.{view};
ghost use Rattle.wscope.specs.Signature.{chain_signature, form, signature_of as signature_in};

use crate::data_type::DataType;
use wquery::{ChainKind, Expression};

/// What is asked of the operands right below a node.
#[derive(Clone, Copy, Drop)]
pub enum Takes {
    /// Nothing: there are none, or each type will do.
    Any,
    Truths,
    /// Integers, and NULL.
    Integers,
    /// All of them integers or all of them texts, and NULL.
    Alike,
    /// What the function of a call asks.
    Arguments,
}

/// The type of a node.
#[derive(Clone, Copy, Drop)]
pub enum Gives {
    Known(DataType),
    /// That of the column.
    ItsColumn,
    /// That which the function of a call gives.
    ItsFunction,
}

/// What a form of expression takes and gives.
#[derive(Clone, Copy, Drop)]
pub struct Signature {
    pub takes: Takes,
    pub gives: Gives,
}

fn formed(takes: Takes, data_type: DataType) -> Signature
    ensures { result ≡ form takes data_type }
{
    Signature {
        takes,
        gives: Gives::Known(data_type),
    }
}

fn of_chain(kind: ChainKind) -> Signature
    ensures { result ≡ chain_signature kind }
{
    match kind {
        ChainKind::Disjunction => formed(Takes::Truths, DataType::Truth),
        ChainKind::Conjunction => formed(Takes::Truths, DataType::Truth),
        ChainKind::Sum => formed(Takes::Integers, DataType::Integer),
        ChainKind::Product => formed(Takes::Integers, DataType::Integer),
    }
}

/// What the form of an expression takes and gives.
#[tactic(auto, unfolding(wquery::specs::Tree::view, wquery::specs::Tree::view_call))]
pub fn signature_of(e: &Expression) -> Signature
    ensures { result ≡ signature_in (view e.now) }
{
    match e {
        Expression::Null => formed(Takes::Any, DataType::Null),
        Expression::Number(_) => formed(Takes::Any, DataType::Integer),
        Expression::Text(_) => formed(Takes::Any, DataType::Text),
        Expression::Column(_) => Signature {
            takes: Takes::Any,
            gives: Gives::ItsColumn,
        },
        Expression::Call(_) => Signature {
            takes: Takes::Arguments,
            gives: Gives::ItsFunction,
        },
        Expression::Not(_) => formed(Takes::Truths, DataType::Truth),
        Expression::Sign { .. } => formed(Takes::Integers, DataType::Integer),
        Expression::Chain { kind, .. } => of_chain(*kind),
        Expression::Compare { .. } => formed(Takes::Alike, DataType::Truth),
        Expression::IsNull { .. } => formed(Takes::Any, DataType::Truth),
        Expression::Between { .. } => formed(Takes::Alike, DataType::Truth),
        Expression::In { .. } => formed(Takes::Alike, DataType::Truth),
    }
}
