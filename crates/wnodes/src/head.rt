//! What a node of an expression says itself, the nodes below it left out.

use crate::marks::{FrameMark, Operators, OrderMarks};
use std::rc::RcStr;
use wquery::{ChainKind, Comparison};

/// What stands in the parentheses of a call, and of how many expressions.
#[derive(Clone, Copy, PartialEq, Eq, Hash, Drop)]
pub(crate) enum GivenHead {
    Star,
    Listed(usize),
    Columns(usize),
}

/// What a call reaches over.
#[derive(Clone, Copy, PartialEq, Eq, Hash, Drop)]
pub(crate) enum OverHead<'a> {
    Group,
    Named(&'a RcStr),
    Windowed {
        copied: &'a Option<RcStr>,
        partition: usize,
        order: OrderMarks<'a>,
        frame: FrameMark<'a>,
    },
}

/// What a node says itself, as equality sees it: two heads are equal where the nodes differ at most in those below them. A
/// column is told by its name alone.
#[derive(Clone, Copy, PartialEq, Eq, Hash, Drop)]
pub(crate) enum Head<'a> {
    Null,
    Number(u128),
    Text(&'a RcStr),
    Column(&'a RcStr),
    Call {
        name: &'a RcStr,
        given: GivenHead,
        is_filtered: bool,
        over: OverHead<'a>,
    },
    Not,
    Sign {
        minus: bool,
    },
    Chain {
        kind: ChainKind,
        operators: Operators<'a>,
    },
    Compare(Comparison),
    IsNull {
        negated: bool,
    },
    Between {
        negated: bool,
    },
    In {
        negated: bool,
        count: usize,
    },
}
