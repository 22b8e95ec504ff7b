//! Reads expressions, row by row of the grammar; `depth` levels of nesting are left.

ghost use Rattle.std.specs.Prelude.{◌≡◌, true, false, Some, None};
ghost use Rattle.std.specs.Rc.{rc_str_bytes};
ghost use Rattle.wquery.specs.declared.expression.ChainKind.TheVariants.{Disjunction, Sum};
ghost use Rattle.wquery.specs.Tree.{view, views, view_arguments, view_key, view_keys, view_window};
ghost use Rattle.wquery.specs.Tree.{view_optional, view_optional_over, filter_of, reach_of};
ghost use Rattle.wtokens.specs.Notation.{GoesOn, Listed, meanings};
ghost use Rattle.wexpressions.specs.Grammar.{Closed, ChainRank, deeper, inner, operand, chain, condition, sum, range, comparison};
ghost use Rattle.wexpressions.specs.Grammar.{negation, sign, test, null_tested, compared, range_tested, range_test, among, between};
ghost use Rattle.wexpressions.specs.Grammar.{up_to, primary, column_or_call, qualified, everything_closed, call, arguments};
ghost use Rattle.wexpressions.specs.Grammar.{optional_filter, optional_over, window_inside, window, partition, order, key};
ghost use Rattle.wexpressions.specs.Grips.{any_class, filter_class, sign_class, range_class, comparison_class, negation_class};
ghost use Rattle.wexpressions.specs.Grips.{nulls_class, list_class, partition_class, order_class, frame_class, Stops, kind_class};
ghost use Rattle.wexpressions.specs.Grips.{operand_class};
ghost use Rattle.wexpressions.specs.Finding.{outcome, got_or_refused, Answers, IsNoTest};

use crate::columns::grouping_call;
use crate::fault::ParseFault;
use crate::frames::{
    copied_name, descending, nulls_placed, optional_frame, optional_name, optional_not,
};
use crate::lists::push;
use crate::nesting::{closed_off, one_level};
use std::alloc::Global;
use std::rc::RcStr;
use wlexer::{Keyword, Symbol, Token};
use wquery::{Arguments, Call, ChainKind, Column, Expression, Key, Over, Window, build};
use wtokens::{
    behind_comma, comparison_operator, keyword, leading_sign, name, number, operator, symbol, text,
};

#[cycle(parser)]
fn operand(
    alloc: Global,
    kind: ChainKind,
    depth: u32,
    tokens: &[Token],
) -> Result<(Expression, &[Token]), ParseFault>
    ensures { Answers (operand depth kind) (operand_class kind) (meanings tokens.now) (outcome (λ x. view x.0) (λ x. x.1.now) result) }
{
    match kind {
        ChainKind::Disjunction => chain(alloc, ChainKind::Conjunction, depth, tokens),
        ChainKind::Conjunction => negation(alloc, depth, tokens),
        ChainKind::Sum => chain(alloc, ChainKind::Product, depth, tokens),
        ChainKind::Product => sign(alloc, depth, tokens),
    }
}

/// A chain of this kind, or one operand of it.
#[cycle(parser)]
pub fn chain(
    alloc: Global,
    kind: ChainKind,
    depth: u32,
    tokens: &[Token],
) -> Result<(Expression, &[Token]), ParseFault>
    ensures { Answers (chain depth kind) (kind_class kind) (meanings tokens.now) (outcome (λ x. view x.0) (λ x. x.1.now) result) }
{
    let (first, rest) = operand(alloc, kind, depth, tokens)?;
    goes_on(alloc, kind, depth, first, rest)
}

#[cycle(parser)]
fn goes_on(
    alloc: Global,
    kind: ChainKind,
    depth: u32,
    first: Expression,
    tokens: &[Token],
) -> Result<(Expression, &[Token]), ParseFault>
    ensures { Answers (GoesOn kind (operand depth kind) (view first)) (kind_class kind) (meanings tokens.now)
        (outcome (λ x. view x.0) (λ x. x.1.now) result) }
{
    let mut tree = first;
    let mut rest = tokens;
    'chain: while let Some((operator, after)) = operator(kind, rest) {
        let (next, left) = got!(operand(alloc, kind, depth, after), tree);
        match build::join(alloc, kind, tree, operator, next) {
            Err(_) => return Err(ParseFault::NoMemory),
            Ok(longer) => tree = longer,
        }
        rest = left;
    }
    Ok((tree, rest))
}

#[cycle(parser)]
fn negation(
    alloc: Global,
    depth: u32,
    tokens: &[Token],
) -> Result<(Expression, &[Token]), ParseFault>
    ensures { Answers (negation depth) negation_class (meanings tokens.now) (outcome (λ x. view x.0) (λ x. x.1.now) result) }
{
    let Some(after) = keyword(tokens, Keyword::Not) else {
        return test(alloc, depth, tokens);
    };
    one_level(depth)?;
    let (e, rest) = negation(alloc, depth - 1, after)?;
    let operand = Box::new(alloc, e)?;
    Ok((Expression::Not(operand), rest))
}

#[cycle(parser)]
fn test(alloc: Global, depth: u32, tokens: &[Token]) -> Result<(Expression, &[Token]), ParseFault>
    ensures { Answers (test depth) negation_class (meanings tokens.now) (outcome (λ x. view x.0) (λ x. x.1.now) result) }
{
    let (e, rest) = comparison(alloc, depth, tokens)?;
    null_tested(alloc, e, rest)
}

fn null_tested(
    alloc: Global,
    e: Expression,
    tokens: &[Token],
) -> Result<(Expression, &[Token]), ParseFault>
    ensures { Answers (null_tested (view e)) negation_class (meanings tokens.now) (outcome (λ x. view x.0) (λ x. x.1.now) result) }
{
    let Some(after) = keyword(tokens, Keyword::Is) else {
        return Ok((e, tokens));
    };
    let (negated, after) = optional_not(after);
    let Some(rest) = keyword(after, Keyword::Null) else {
        drop(e);
        return Err(ParseFault::Syntax);
    };
    let operand = Box::new(alloc, e)?;
    Ok((Expression::IsNull { negated, operand }, rest))
}

#[cycle(parser)]
fn comparison(
    alloc: Global,
    depth: u32,
    tokens: &[Token],
) -> Result<(Expression, &[Token]), ParseFault>
    ensures { Answers (comparison depth) comparison_class (meanings tokens.now) (outcome (λ x. view x.0) (λ x. x.1.now) result) }
{
    let (left, rest) = range(alloc, depth, tokens)?;
    compared(alloc, depth, left, rest)
}

#[cycle(parser)]
fn compared(
    alloc: Global,
    depth: u32,
    left: Expression,
    tokens: &[Token],
) -> Result<(Expression, &[Token]), ParseFault>
    ensures { Answers (compared (range depth) (view left)) comparison_class (meanings tokens.now)
        (outcome (λ x. view x.0) (λ x. x.1.now) result) }
{
    let Some((comparison, after)) = comparison_operator(tokens) else {
        return Ok((left, tokens));
    };
    let (right, rest) = got!(range(alloc, depth, after), left);
    let left = made!(Box::new(alloc, left), right);
    let right = made!(Box::new(alloc, right), left);
    let compared = Expression::Compare {
        comparison,
        left,
        right,
    };
    Ok((compared, rest))
}

#[cycle(parser)]
fn range(alloc: Global, depth: u32, tokens: &[Token]) -> Result<(Expression, &[Token]), ParseFault>
    ensures { Answers (range depth) range_class (meanings tokens.now) (outcome (λ x. view x.0) (λ x. x.1.now) result) }
{
    let (e, rest) = chain(alloc, ChainKind::Sum, depth, tokens)?;
    range_tested(alloc, depth, e, rest)
}

/// Whether BETWEEN or IN comes first, or NOT.
fn range_test_follows(tokens: &[Token]) -> bool
    ensures yes { result ≡ true → Stops range_class (meanings tokens.now) → ⊥ }
    ensures other { result ≡ false → IsNoTest (meanings tokens.now) }
{
    keyword(tokens, Keyword::Not).is_some()
        || keyword(tokens, Keyword::Between).is_some()
        || keyword(tokens, Keyword::In).is_some()
}

#[cycle(parser)]
fn range_tested(
    alloc: Global,
    depth: u32,
    e: Expression,
    tokens: &[Token],
) -> Result<(Expression, &[Token]), ParseFault>
    ensures { Answers (range_tested (sum depth) (deeper depth (ChainRank Sum)) (view e)) range_class (meanings tokens.now)
        (outcome (λ x. view x.0) (λ x. x.1.now) result) }
{
    if range_test_follows(tokens) {
        let (negated, after) = optional_not(tokens);
        return range_test(alloc, depth, negated, e, after);
    }
    Ok((e, tokens))
}

#[cycle(parser)]
fn range_test(
    alloc: Global,
    depth: u32,
    negated: bool,
    e: Expression,
    tokens: &[Token],
) -> Result<(Expression, &[Token]), ParseFault>
    ensures { Answers (range_test (sum depth) (deeper depth (ChainRank Sum)) (view e) negated) range_class
        (meanings tokens.now) (outcome (λ x. view x.0) (λ x. x.1.now) result) }
{
    if let Some(after) = keyword(tokens, Keyword::Between) {
        return between(alloc, depth, negated, e, after);
    }
    match keyword(tokens, Keyword::In) {
        None => {
            drop(e);
            Err(ParseFault::Syntax)
        }
        Some(after) => among(alloc, depth, negated, e, after),
    }
}

/// A list in parentheses, behind IN.
#[cycle(parser)]
fn among(
    alloc: Global,
    depth: u32,
    negated: bool,
    e: Expression,
    tokens: &[Token],
) -> Result<(Expression, &[Token]), ParseFault>
    ensures { Answers (among (deeper depth (ChainRank Sum)) (view e) negated) range_class (meanings tokens.now)
        (outcome (λ x. view x.0) (λ x. x.1.now) result) }
{
    let Some(after) = symbol(tokens, Symbol::OpenParenthesis) else {
        drop(e);
        return Err(ParseFault::Syntax);
    };
    let (list, rest) = got!(closed_list(alloc, ChainKind::Sum, depth, after), e);
    let operand = made!(Box::new(alloc, e), list);
    let among = Expression::In {
        negated,
        operand,
        list,
    };
    Ok((among, rest))
}

/// Two ends, behind BETWEEN.
#[cycle(parser)]
fn between(
    alloc: Global,
    depth: u32,
    negated: bool,
    e: Expression,
    tokens: &[Token],
) -> Result<(Expression, &[Token]), ParseFault>
    ensures { Answers (between (sum depth) (view e) negated) range_class (meanings tokens.now)
        (outcome (λ x. view x.0) (λ x. x.1.now) result) }
{
    let (low, rest) = got!(chain(alloc, ChainKind::Sum, depth, tokens), e);
    up_to(alloc, depth, negated, e, low, rest)
}

/// The upper end, behind the lower one.
#[cycle(parser)]
fn up_to(
    alloc: Global,
    depth: u32,
    negated: bool,
    e: Expression,
    low: Expression,
    tokens: &[Token],
) -> Result<(Expression, &[Token]), ParseFault>
    ensures { Answers (up_to (sum depth) (view e) negated (view low)) range_class (meanings tokens.now)
        (outcome (λ x. view x.0) (λ x. x.1.now) result) }
{
    let Some(after) = keyword(tokens, Keyword::And) else {
        drop(e);
        drop(low);
        return Err(ParseFault::Syntax);
    };
    let (high, rest) = got!(chain(alloc, ChainKind::Sum, depth, after), e, low);
    let operand = made!(Box::new(alloc, e), low, high);
    let low = made!(Box::new(alloc, low), operand, high);
    let high = made!(Box::new(alloc, high), operand, low);
    let between = Expression::Between {
        negated,
        operand,
        low,
        high,
    };
    Ok((between, rest))
}

#[cycle(parser)]
fn sign(alloc: Global, depth: u32, tokens: &[Token]) -> Result<(Expression, &[Token]), ParseFault>
    ensures { Answers (sign depth) sign_class (meanings tokens.now) (outcome (λ x. view x.0) (λ x. x.1.now) result) }
{
    let Some((minus, after)) = leading_sign(tokens) else {
        return primary(alloc, depth, tokens);
    };
    one_level(depth)?;
    let (e, rest) = sign(alloc, depth - 1, after)?;
    let operand = Box::new(alloc, e)?;
    Ok((Expression::Sign { minus, operand }, rest))
}

#[cycle(parser)]
fn primary(
    alloc: Global,
    depth: u32,
    tokens: &[Token],
) -> Result<(Expression, &[Token]), ParseFault>
    ensures { Answers (primary depth (inner depth)) sign_class (meanings tokens.now) (outcome (λ x. view x.0) (λ x. x.1.now) result) }
{
    if let Some((n, rest)) = number(tokens) {
        return Ok((Expression::Number(*n), rest));
    }
    if let Some((text, rest)) = text(tokens) {
        let text = text.clone()?;
        return Ok((Expression::Text(text), rest));
    }
    if let Some(rest) = keyword(tokens, Keyword::Null) {
        return Ok((Expression::Null, rest));
    }
    if let Some((name, rest)) = name(tokens) {
        let name = name.clone()?;
        return column_or_call(alloc, depth, name, rest);
    }
    if let Some(after) = keyword(tokens, Keyword::Grouping) {
        return grouping_call(alloc, depth, after);
    }
    match symbol(tokens, Symbol::OpenParenthesis) {
        None => Err(ParseFault::Syntax),
        Some(after) => closed(alloc, depth, after),
    }
}

#[cycle(parser)]
fn closed(alloc: Global, depth: u32, tokens: &[Token]) -> Result<(Expression, &[Token]), ParseFault>
    ensures { Answers (Closed (inner depth)) any_class (meanings tokens.now) (outcome (λ x. view x.0) (λ x. x.1.now) result) }
{
    one_level(depth)?;
    let (e, rest) = chain(alloc, ChainKind::Disjunction, depth - 1, tokens)?;
    closed_off(e, rest)
}

#[cycle(parser)]
fn column_or_call(
    alloc: Global,
    depth: u32,
    own: RcStr,
    tokens: &[Token],
) -> Result<(Expression, &[Token]), ParseFault>
    ensures { Answers (column_or_call depth (inner depth) (rc_str_bytes own)) sign_class (meanings tokens.now)
        (outcome (λ x. view x.0) (λ x. x.1.now) result) }
{
    if let Some(after) = symbol(tokens, Symbol::Dot) {
        return qualified(own, after);
    }
    match symbol(tokens, Symbol::OpenParenthesis) {
        None => {
            let column = Column {
                qualifier: None,
                name: own,
            };
            Ok((Expression::Column(column), tokens))
        }
        Some(after) => call(alloc, depth, own, after),
    }
}

fn qualified(qualifier: RcStr, tokens: &[Token]) -> Result<(Expression, &[Token]), ParseFault>
    ensures { Answers (qualified (rc_str_bytes qualifier)) any_class (meanings tokens.now) (outcome (λ x. view x.0) (λ x. x.1.now) result) }
{
    let (name, rest) = copied_name(tokens)?;
    let column = Column {
        qualifier: Some(qualifier),
        name,
    };
    Ok((Expression::Column(column), rest))
}

#[cycle(parser)]
fn call(
    alloc: Global,
    depth: u32,
    name: RcStr,
    tokens: &[Token],
) -> Result<(Expression, &[Token]), ParseFault>
    ensures { Answers (call depth (inner depth) (rc_str_bytes name)) sign_class (meanings tokens.now)
        (outcome (λ x. view x.0) (λ x. x.1.now) result) }
{
    let (arguments, rest) = arguments(alloc, depth, tokens)?;
    let (filter, rest) = got!(optional_filter(alloc, depth, rest), name, arguments);
    let (over, rest) = got!(optional_over(alloc, depth, rest), name, arguments, filter);
    let call = Call {
        name,
        arguments,
        filter,
        over,
    };
    let call = Box::new(alloc, call)?;
    Ok((Expression::Call(call), rest))
}

#[cycle(parser)]
fn arguments(
    alloc: Global,
    depth: u32,
    tokens: &[Token],
) -> Result<(Arguments, &[Token]), ParseFault>
    ensures { Answers (arguments depth (inner depth)) any_class (meanings tokens.now)
        (outcome (λ x. view_arguments x.0) (λ x. x.1.now) result) }
{
    if let Some(rest) = symbol(tokens, Symbol::CloseParenthesis) {
        return Ok((Arguments::Listed(Vec::new(alloc)), rest));
    }
    if let Some(after) = symbol(tokens, Symbol::Asterisk) {
        return match everything_closed(depth, after) {
            None => Err(ParseFault::Syntax),
            Some((star, rest)) => Ok((star, rest)),
        };
    }
    let (list, rest) = closed_list(alloc, ChainKind::Disjunction, depth, tokens)?;
    Ok((Arguments::Listed(list), rest))
}

fn everything_closed(depth: u32, tokens: &[Token]) -> Option<(Arguments, &[Token])>
    ensures { Answers (everything_closed depth) any_class (meanings tokens.now) (got_or_refused (λ x. view_arguments x.0)
        (λ x. x.1.now) result) }
{
    if depth == 0 {
        return None;
    }
    let rest = symbol(tokens, Symbol::CloseParenthesis)?;
    Some((Arguments::Star, rest))
}

#[cycle(parser)]
fn closed_list(
    alloc: Global,
    kind: ChainKind,
    depth: u32,
    tokens: &[Token],
) -> Result<(Vec<Expression>, &[Token]), ParseFault>
    ensures { Answers (Closed (Listed (deeper depth (ChainRank kind)))) any_class (meanings tokens.now)
        (outcome (λ x. views x.0.items) (λ x. x.1.now) result) }
{
    one_level(depth)?;
    let (list, rest) = list(alloc, kind, depth - 1, tokens)?;
    closed_off(list, rest)
}

#[cycle(parser)]
fn list(
    alloc: Global,
    kind: ChainKind,
    depth: u32,
    tokens: &[Token],
) -> Result<(Vec<Expression>, &[Token]), ParseFault>
    ensures { Answers (Listed (chain depth kind)) list_class (meanings tokens.now) (outcome (λ x. views x.0.items) (λ x. x.1.now) result) }
{
    comma_list!(alloc, tokens, left => chain(alloc, kind, depth, left))
}

#[cycle(parser)]
fn optional_filter(
    alloc: Global,
    depth: u32,
    tokens: &[Token],
) -> Result<(Option<Expression>, &[Token]), ParseFault>
    ensures { Answers (optional_filter (inner depth)) filter_class (meanings tokens.now)
        (outcome (λ x. filter_of (view_optional x.0)) (λ x. x.1.now) result) }
{
    let Some(after) = keyword(tokens, Keyword::Filter) else {
        return Ok((None, tokens));
    };
    let Some(after) = symbol(after, Symbol::OpenParenthesis) else {
        return Err(ParseFault::Syntax);
    };
    let Some(after) = keyword(after, Keyword::Where) else {
        return Err(ParseFault::Syntax);
    };
    let (e, rest) = closed(alloc, depth, after)?;
    Ok((Some(e), rest))
}

#[cycle(parser)]
fn optional_over(
    alloc: Global,
    depth: u32,
    tokens: &[Token],
) -> Result<(Option<Over>, &[Token]), ParseFault>
    ensures { Answers (optional_over depth (inner depth)) sign_class (meanings tokens.now)
        (outcome (λ x. reach_of (view_optional_over x.0)) (λ x. x.1.now) result) }
{
    let Some(after) = keyword(tokens, Keyword::Over) else {
        return Ok((None, tokens));
    };
    if let Some(after) = symbol(after, Symbol::OpenParenthesis) {
        let (window, rest) = window_inside(alloc, depth, after)?;
        return Ok((Some(Over::Windowed(window)), rest));
    }
    let (name, rest) = copied_name(after)?;
    Ok((Some(Over::Named(name)), rest))
}

/// A window, behind its opening parenthesis.
#[cycle(parser)]
pub fn window_inside(
    alloc: Global,
    depth: u32,
    tokens: &[Token],
) -> Result<(Window, &[Token]), ParseFault>
    ensures { Answers (window_inside depth (inner depth)) any_class (meanings tokens.now)
        (outcome (λ x. view_window x.0) (λ x. x.1.now) result) }
{
    if let Some(rest) = symbol(tokens, Symbol::CloseParenthesis) {
        return Ok((
            build::window(None, Vec::new(alloc), Vec::new(alloc), None),
            rest,
        ));
    }
    one_level(depth)?;
    let (window, rest) = window(alloc, depth - 1, tokens)?;
    closed_off(window, rest)
}

#[cycle(parser)]
fn window(alloc: Global, depth: u32, tokens: &[Token]) -> Result<(Window, &[Token]), ParseFault>
    ensures { Answers (window (condition depth)) frame_class (meanings tokens.now) (outcome (λ x. view_window x.0) (λ x. x.1.now) result) }
{
    let (copied, rest) = optional_name(tokens)?;
    let (partition, rest) = partition(alloc, depth, rest)?;
    let (order, rest) = got!(order(alloc, depth, rest), copied, partition);
    let Some((frame, rest)) = optional_frame(rest) else {
        drop(copied);
        drop(partition);
        drop(order);
        return Err(ParseFault::Syntax);
    };
    Ok((build::window(copied, partition, order, frame), rest))
}

#[cycle(parser)]
fn partition(
    alloc: Global,
    depth: u32,
    tokens: &[Token],
) -> Result<(Vec<Expression>, &[Token]), ParseFault>
    ensures { Answers (partition (condition depth)) partition_class (meanings tokens.now)
        (outcome (λ x. views x.0.items) (λ x. x.1.now) result) }
{
    let Some(after) = keyword(tokens, Keyword::Partition) else {
        return Ok((Vec::new(alloc), tokens));
    };
    match keyword(after, Keyword::By) {
        None => Err(ParseFault::Syntax),
        Some(after) => list(alloc, ChainKind::Disjunction, depth, after),
    }
}

/// The keys behind ORDER BY, none where it is left out.
#[cycle(parser)]
pub fn order(
    alloc: Global,
    depth: u32,
    tokens: &[Token],
) -> Result<(Vec<Key>, &[Token]), ParseFault>
    ensures { Answers (order (condition depth)) order_class (meanings tokens.now) (outcome (λ x. view_keys x.0.items)
        (λ x. x.1.now) result) }
{
    let Some(after) = keyword(tokens, Keyword::Order) else {
        return Ok((Vec::new(alloc), tokens));
    };
    match keyword(after, Keyword::By) {
        None => Err(ParseFault::Syntax),
        Some(after) => keys(alloc, depth, after),
    }
}

#[cycle(parser)]
fn keys(alloc: Global, depth: u32, tokens: &[Token]) -> Result<(Vec<Key>, &[Token]), ParseFault>
    ensures { Answers (Listed (key (condition depth))) list_class (meanings tokens.now) (outcome (λ x. view_keys x.0.items)
        (λ x. x.1.now) result) }
{
    comma_list!(alloc, tokens, left => key(alloc, depth, left))
}

#[cycle(parser)]
fn key(alloc: Global, depth: u32, tokens: &[Token]) -> Result<(Key, &[Token]), ParseFault>
    ensures { Answers (key (condition depth)) nulls_class (meanings tokens.now) (outcome (λ x. view_key x.0) (λ x. x.1.now) result) }
{
    let (e, rest) = chain(alloc, ChainKind::Disjunction, depth, tokens)?;
    let (descending, rest) = descending(rest);
    let Some((nulls, rest)) = nulls_placed(rest) else {
        drop(e);
        return Err(ParseFault::Syntax);
    };
    Ok((build::key(e, descending, nulls), rest))
}
