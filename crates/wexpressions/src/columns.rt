//! Reads columns, and GROUPING; `depth` levels of nesting are left.

ghost use Rattle.std.specs.Prelude.{◌≡◌, ◌-◌, map};
ghost use Rattle.wquery.specs.Tree.{Tree, view, view_column};
ghost use Rattle.wexpressions.specs.Grammar.{Closed, column, grouping_call};
ghost use Rattle.wexpressions.specs.Grips.{any_class, element_class};
ghost use Rattle.wexpressions.specs.Finding.{outcome, Answers};
ghost use Rattle.wtokens.specs.Notation.{Listed, Room, meanings};

use crate::fault::ParseFault;
use crate::frames::copied_name;
use crate::lists::{Element, elements};
use crate::nesting::{closed_off, one_level};
use std::alloc::Global;
use std::rc::RcStr;
use wlexer::{Symbol, Token};
use wquery::{Arguments, Call, Column, Expression};
use wtokens::symbol;

/// One element at least, with commas between them, and the closing parenthesis; they take a level.
pub fn nested<E: Element>(
    alloc: Global,
    depth: u32,
    tokens: &[Token],
) -> Result<(Vec<E::Read>, &[Token]), ParseFault>
    ensures { Answers (Room depth (Closed (Listed (E.spelling (depth - 1))))) any_class (meanings tokens.now)
        (outcome (λ x. map E.said x.0.items) (λ x. x.1.now) result) }
{
    one_level(depth)?;
    let (list, rest) = elements::<E>(alloc, depth - 1, tokens)?;
    closed_off(list, rest)
}

/// The columns of a list.
pub struct Columns;

impl Element for Columns {
    type Read = Column;

    ghost tree = { Tree };

    ghost said = { view_column };

    ghost spelling = { λ _. column };

    fn read(
        _alloc: Global,
        _depth: u32,
        tokens: &[Token],
    ) -> Result<(Column, &[Token]), ParseFault> {
        let (first, rest) = copied_name(tokens)?;
        let Some(after) = symbol(rest, Symbol::Dot) else {
            let column = Column {
                qualifier: None,
                name: first,
            };
            return Ok((column, rest));
        };
        let qualifier = Some(first);
        let (name, rest) = copied_name(after)?;
        Ok((Column { qualifier, name }, rest))
    }
}

/// The columns of a list, each as an expression.
struct GroupingColumns;

impl Element for GroupingColumns {
    type Read = Expression;

    ghost tree = { Tree };

    ghost said = { view };

    ghost spelling = { λ _. column };

    fn read(
        alloc: Global,
        depth: u32,
        tokens: &[Token],
    ) -> Result<(Expression, &[Token]), ParseFault> {
        let (column, rest) = Columns::read(alloc, depth, tokens)?;
        Ok((Expression::Column(column), rest))
    }
}

/// The columns of GROUPING, behind the word.
pub(crate) fn grouping_call(
    alloc: Global,
    depth: u32,
    tokens: &[Token],
) -> Result<(Expression, &[Token]), ParseFault>
    ensures { Answers (grouping_call depth) any_class (meanings tokens.now) (outcome (λ x. view x.0) (λ x. x.1.now) result) }
{
    let Some(after) = symbol(tokens, Symbol::OpenParenthesis) else {
        return Err(ParseFault::Syntax);
    };
    let (columns, rest) = nested::<GroupingColumns>(alloc, depth, after)?;
    let name = made!(RcStr::from_str(alloc, "grouping"), columns);
    let call = Call {
        name,
        arguments: Arguments::Columns(columns),
        filter: None,
        over: None,
    };
    let call = Box::new(alloc, call)?;
    Ok((Expression::Call(call), rest))
}
