use crate::constants::Constants;
use std::rc::RcStr;
use wquery::{Comparison, Operator};
use wvalues::Whole;

/// An expression over the values of a row. Chains are lists, so a walk goes as deep as the nesting alone.
#[derive(Drop)]
#[cycle(expr)]
pub enum Expr {
    Null,
    Number(Whole),
    Text(RcStr),
    /// The value at a place of the row, counted from 0: a column, an aggregate, or what a call with OVER answers.
    Place(usize),
    Not(Box<Expr>),
    Sign {
        minus: bool,
        operand: Box<Expr>,
    },
    /// Operands joined from the left.
    Chain {
        first: Box<Expr>,
        links: Vec<Further>,
    },
    Compare {
        comparison: Comparison,
        left: Box<Expr>,
        right: Box<Expr>,
    },
    IsNull {
        negated: bool,
        operand: Box<Expr>,
    },
    Between {
        negated: bool,
        operand: Box<Expr>,
        low: Box<Expr>,
        high: Box<Expr>,
    },
    In {
        negated: bool,
        operand: Box<Expr>,
        list: Vec<Expr>,
    },
    /// IN of which the list has constants alone, numbers below zero with a minus.
    InConstants {
        negated: bool,
        operand: Box<Expr>,
        list: Constants,
    },
}

/// A further operand of a chain, with the operator before it.
#[derive(Drop)]
#[cycle(expr)]
pub struct Further {
    pub operator: Operator,
    pub operand: Expr,
}
