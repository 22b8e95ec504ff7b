//! Expressions of queries as expressions over rows.

ghost use Rattle.std.specs.Prelude.{◌≡◌, ◌+◌, IfOk, map};
ghost use Rattle.wquery.specs.Tree.{view, view_call, view_link, views};
ghost use Rattle.wplan.specs.Formula.{formula, formulas, operand_of, Among, At};
ghost use Rattle.wdistinct.specs.Places.{place_of_same};
ghost use Rattle.wbinding.specs.Resolving.{branch_made, cell_of, layout_of, resolved, width};
ghost use Rattle.wscope.specs.Types.{place_named as place_of_name};

use crate::bound_expressions::{chain, compared, not, null_test, number, sign, within};
use crate::layout::RowLayout;
use crate::lookups::among;
use std::alloc::{AllocError, Global};
use wplan::{Expr, Further};
use wquery::{Call, Expression, Link};
use wscope::place_named;

#[tactic(auto, unfolding(wplan::specs::Formula::formula))]
fn field(layout: &RowLayout, name: &str) -> Expr
    ensures { formula result ≡ At (cell_of (layout_of layout.now) (place_of_name (layout_of layout.now).columns name.now)) }
{
    Expr::Place(layout.cell(place_named(layout.columns, name)))
}

// What a call answers stands behind the row's own cells.
#[tactic(auto, unfolding(wplan::specs::Formula::formula))]
fn answer(layout: &RowLayout, call: &Call) -> Expr
    ensures { formula result ≡ At (width (layout_of layout.now) + place_of_same (layout_of layout.now).calls (view_call call.now)) }
{
    Expr::Place(layout.width() + layout.calls.place(call))
}

/// The expression over a row.
#[cycle(resolving)]
#[tactic(auto, unfolding(wquery::specs::Tree::view, wplan::specs::Formula::formula, wquery::specs::Tree::view_link))]
pub fn build(alloc: Global, layout: &RowLayout, e: &Expression) -> Result<Expr, AllocError>
    ensures { IfOk result (λ x. formula x ≡ resolved (layout_of layout.now) (view e.now)) }
{
    match e {
        Expression::Null => Ok(Expr::Null),
        Expression::Number(n) => Ok(number(n.get())),
        Expression::Text(text) => Ok(Expr::Text(text.clone()?)),
        Expression::Column(column) => Ok(field(layout, column.name.as_str())),
        Expression::Not(operand) => not(alloc, build(alloc, layout, operand)?),
        Expression::Sign { minus, operand } => sign(alloc, *minus, build(alloc, layout, operand)?),
        Expression::Chain { first, links, .. } => {
            let x = build(alloc, layout, first)?;
            let further = build_links(alloc, layout, links.as_slice())?;
            chain(alloc, x, further)
        }
        Expression::Compare {
            comparison,
            left,
            right,
        } => {
            let x = build(alloc, layout, left)?;
            compared(alloc, *comparison, x, build(alloc, layout, right)?)
        }
        Expression::IsNull { negated, operand } => {
            null_test(alloc, *negated, build(alloc, layout, operand)?)
        }
        Expression::Between {
            negated,
            operand,
            low,
            high,
        } => {
            let x = build(alloc, layout, operand)?;
            let y = build(alloc, layout, low)?;
            within(alloc, *negated, x, y, build(alloc, layout, high)?)
        }
        Expression::In {
            negated,
            operand: item,
            list,
        } => build_list_test(alloc, layout, *negated, list, build(alloc, layout, item)?),
        Expression::Call(call) => Ok(answer(layout, call)),
    }
}

// IN a list, of which the operand is made.
#[cycle(resolving)]
fn build_list_test(
    alloc: Global,
    layout: &RowLayout,
    negated: bool,
    list: &[Expression],
    operand: Expr,
) -> Result<Expr, AllocError>
    ensures { IfOk result (λ x. formula x ≡ Among negated (formula operand)
        (formulas (map (resolved (layout_of layout.now)) (views list.now)))) }
{
    let made = build_listed(alloc, layout, list)?;
    among(alloc, negated, operand, made)
}

#[cycle(resolving)]
fn build_links(
    alloc: Global,
    layout: &RowLayout,
    links: &[Link],
) -> Result<Vec<Further>, AllocError>
    ensures { IfOk result (λ made. map operand_of made.items ≡ map (branch_made (layout_of layout.now)) (map view_link links.now)) }
{
    let mut made = Vec::new(alloc);
    'links: for link in links {
        let operand = build(alloc, layout, &link.operand)?;
        made.push(Further {
            operator: link.operator,
            operand,
        })?;
    }
    Ok(made)
}

/// The expressions over a row, one after another.
#[cycle(resolving)]
pub fn build_listed(
    alloc: Global,
    layout: &RowLayout,
    list: &[Expression],
) -> Result<Vec<Expr>, AllocError>
    ensures { IfOk result (λ made. map formula made.items ≡ map (resolved (layout_of layout.now)) (views list.now)) }
{
    let mut made = Vec::new(alloc);
    'list: for e in list {
        let x = build(alloc, layout, e)?;
        made.push(x)?;
    }
    Ok(made)
}
