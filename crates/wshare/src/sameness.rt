//! Expressions that are written alike, and windows that order rows alike.

ghost use Rattle.std.specs.Prelude.{◌≡◌, true, map};
ghost use Rattle.std.specs.Cmp.Lexicographic.{pointwise};
ghost use Rattle.std.proofs.Math.Bool.{beq};
ghost use Rattle.std.specs.Rc.{rc_str_bytes};
ghost use Rattle.wvalues.specs.Meaning.{Null, Int, Text};
ghost use Rattle.wvalues.specs.Sameness.{same_meaning};
ghost use Rattle.wplan.specs.declared.expr.Expr.{out-Expr};
ghost use Rattle.wplan.specs.Formula.{Constant, At, Negation, Signed, Compared, NullTest, Within};
ghost use Rattle.wplan.specs.Formula.{Among, chained, constant, formula, formulas, operand_of};
ghost use Rattle.wplan.specs.Plans.{key_plan, window_plan};
ghost use Rattle.wshare.specs.Sameness.{is_null_word, is_number, is_text, is_place, is_negation, is_sign, is_chain, is_comparison};
ghost use Rattle.wshare.specs.Sameness.{is_null_test, is_range_test, is_list_test, is_constants_test, is_same, is_same_key, is_same_link};
ghost use Rattle.wshare.specs.Sameness.{is_same_order, same_comparison, same_operator, same_sort_key};

use std::rc::RcStr;
use wplan::{Constants, Expr, Further, ResolvedKey, ResolvedWindow};
use wquery::{Comparison, Operator};
use wvalues::{SortKey, Whole};

fn same_operator(a: Operator, b: Operator) -> bool
    ensures exact { result ≡ same_operator a b }
    ensures alike { result ≡ true → a ≡ b }
{
    a == b
}

fn same_comparison(a: Comparison, b: Comparison) -> bool
    ensures exact { result ≡ same_comparison a b }
    ensures alike { result ≡ true → a ≡ b }
{
    a == b
}

fn same_flag(a: bool, b: bool) -> bool
    ensures exact { result ≡ beq a b }
    ensures alike { result ≡ true → a ≡ b }
{
    a == b
}

fn same_sort_key(a: SortKey, b: SortKey) -> bool
    ensures exact { result ≡ same_sort_key a b }
    ensures alike { result ≡ true → a ≡ b }
{
    a.col == b.col && (same_flag(a.desc, b.desc) && same_flag(a.nulls_first, b.nulls_first))
}

#[tactic(auto, unfolding(wplan::specs::Formula::formula))]
fn is_null_word(e: &Expr) -> bool
    ensures exact { result ≡ is_null_word (out-Expr e.now) }
    ensures alike { result ≡ true → Constant Null ≡ formula e.now }
{
    matches!(e, Expr::Null)
}

#[tactic(auto, unfolding(wplan::specs::Formula::formula))]
fn is_number(e: &Expr, number: Whole) -> bool
    ensures exact { result ≡ is_number number (out-Expr e.now) }
    ensures alike { result ≡ true → Constant (Int number) ≡ formula e.now }
{
    match e {
        Expr::Number(other) => number.get() == other.get(),
        _ => false,
    }
}

#[tactic(auto, unfolding(wplan::specs::Formula::formula))]
fn is_text(e: &Expr, text: &RcStr) -> bool
    ensures exact { result ≡ is_text (rc_str_bytes text.now) (out-Expr e.now) }
    ensures alike { result ≡ true → Constant (Text (rc_str_bytes text.now)) ≡ formula e.now }
{
    match e {
        Expr::Text(other) => text.as_str() == other.as_str(),
        _ => false,
    }
}

#[tactic(auto, unfolding(wplan::specs::Formula::formula))]
fn is_place(e: &Expr, place: usize) -> bool
    ensures exact { result ≡ is_place place (out-Expr e.now) }
    ensures alike { result ≡ true → At place ≡ formula e.now }
{
    match e {
        Expr::Place(other) => place == *other,
        _ => false,
    }
}

#[cycle(sameness)]
#[tactic(auto, unfolding(wplan::specs::Formula::formula))]
fn is_negation(e: &Expr, operand: &Expr) -> bool
    ensures exact { result ≡ is_negation (is_same operand.now) (out-Expr e.now) }
    ensures alike { result ≡ true → Negation (formula operand.now) ≡ formula e.now }
{
    match e {
        Expr::Not(x) => same_value(x, operand),
        _ => false,
    }
}

#[cycle(sameness)]
#[tactic(auto, unfolding(wplan::specs::Formula::formula))]
fn is_sign(e: &Expr, minus: bool, operand: &Expr) -> bool
    ensures exact { result ≡ is_sign minus (is_same operand.now) (out-Expr e.now) }
    ensures alike { result ≡ true → Signed minus (formula operand.now) ≡ formula e.now }
{
    match e {
        Expr::Sign {
            minus: other,
            operand: x,
        } => { same_flag(minus, *other) && same_value(x, operand) }
        _ => false,
    }
}

#[cycle(sameness)]
#[tactic(auto, unfolding(wplan::specs::Formula::formula))]
fn is_chain(e: &Expr, first: &Expr, links: &[Further]) -> bool
    ensures exact { result ≡ is_chain (is_same first.now) (map is_same_link links.now) (out-Expr e.now) }
    ensures alike { result ≡ true → chained (formula first.now) (map operand_of links.now) ≡ formula e.now }
{
    match e {
        Expr::Chain {
            first: x,
            links: others,
        } => { same_value(x, first) && same_links(others.as_slice(), links) }
        _ => false,
    }
}

#[cycle(sameness)]
#[tactic(auto, unfolding(wplan::specs::Formula::formula))]
fn is_comparison(e: &Expr, comparison: Comparison, left: &Expr, right: &Expr) -> bool
    ensures exact { result ≡ is_comparison comparison (is_same left.now) (is_same right.now) (out-Expr e.now) }
    ensures alike { result ≡ true → Compared comparison (formula left.now) (formula right.now) ≡ formula e.now }
{
    match e {
        Expr::Compare {
            comparison: other,
            left: x,
            right: y,
        } => {
            same_comparison(comparison, *other) && (same_value(x, left) && same_value(y, right))
        }
        _ => false,
    }
}

#[cycle(sameness)]
#[tactic(auto, unfolding(wplan::specs::Formula::formula))]
fn is_null_test(e: &Expr, negated: bool, operand: &Expr) -> bool
    ensures exact { result ≡ is_null_test negated (is_same operand.now) (out-Expr e.now) }
    ensures alike { result ≡ true → NullTest negated (formula operand.now) ≡ formula e.now }
{
    match e {
        Expr::IsNull {
            negated: other,
            operand: x,
        } => { same_flag(negated, *other) && same_value(x, operand) }
        _ => false,
    }
}

#[cycle(sameness)]
#[tactic(auto, unfolding(wplan::specs::Formula::formula))]
fn is_range_test(e: &Expr, negated: bool, operand: &Expr, low: &Expr, high: &Expr) -> bool
    ensures exact { result ≡ is_range_test negated (is_same operand.now) (is_same low.now) (is_same high.now) (out-Expr e.now) }
    ensures alike { result ≡ true → Within negated (formula operand.now) (formula low.now) (formula high.now) ≡ formula e.now }
{
    let Expr::Between {
        negated: other,
        operand: x,
        low: y,
        high: z,
    } = e
    else {
        return false;
    };
    same_flag(negated, *other)
        && (same_value(x, operand) && (same_value(y, low) && same_value(z, high)))
}

#[cycle(sameness)]
#[tactic(auto, unfolding(wplan::specs::Formula::formula))]
fn is_list_test(e: &Expr, negated: bool, operand: &Expr, list: &[Expr]) -> bool
    ensures exact { result ≡ is_list_test negated (is_same operand.now) (map is_same list.now) (out-Expr e.now) }
    ensures alike { result ≡ true → Among negated (formula operand.now) (formulas (map formula list.now)) ≡ formula e.now }
{
    let Expr::In {
        negated: other,
        operand: x,
        list: others,
    } = e
    else {
        return false;
    };
    same_flag(negated, *other) && (same_value(x, operand) && same_values(others.as_slice(), list))
}

// Whether constants are the same as others, one by one.
fn same_constants(list: &Constants, others: &Constants) -> bool
    ensures exact { result ≡ pointwise same_meaning others.now list.now }
    ensures alike { result ≡ true → others.now ≡ list.now }
{
    others.values() == list.values()
}

#[cycle(sameness)]
#[tactic(auto, unfolding(wplan::specs::Formula::formula))]
fn is_constants_test(e: &Expr, negated: bool, operand: &Expr, list: &Constants) -> bool
    ensures exact { result ≡ is_constants_test negated (is_same operand.now) list.now (out-Expr e.now) }
    ensures alike { result ≡ true → Among negated (formula operand.now) (formulas (map constant list.now)) ≡ formula e.now }
{
    let Expr::InConstants {
        negated: other,
        operand: x,
        list: others,
    } = e
    else {
        return false;
    };
    same_flag(negated, *other) && (same_value(x, operand) && same_constants(others, list))
}

// Whether an expression is written as another one is, part by part.
#[cycle(sameness)]
#[tactic(auto, unfolding(wplan::specs::Formula::formula, wplan::specs::Formula::operand_of, crate::specs::Sameness::is_same, crate::specs::Sameness::is_same_link))]
fn same_value(e: &Expr, other: &Expr) -> bool
    ensures exact { result ≡ is_same other.now e.now }
    ensures alike { result ≡ true → formula other.now ≡ formula e.now }
{
    match other {
        Expr::Null => is_null_word(e),
        Expr::Number(number) => is_number(e, *number),
        Expr::Text(text) => is_text(e, text),
        Expr::Place(place) => is_place(e, *place),
        Expr::Not(operand) => is_negation(e, operand),
        Expr::Sign { minus, operand } => is_sign(e, *minus, operand),
        Expr::Chain { first, links } => is_chain(e, first, links.as_slice()),
        Expr::Compare {
            comparison,
            left,
            right,
        } => is_comparison(e, *comparison, left, right),
        Expr::IsNull { negated, operand } => is_null_test(e, *negated, operand),
        Expr::Between {
            negated,
            operand,
            low,
            high,
        } => is_range_test(e, *negated, operand, low, high),
        Expr::In {
            negated,
            operand,
            list,
        } => is_list_test(e, *negated, operand, list.as_slice()),
        Expr::InConstants {
            negated,
            operand,
            list,
        } => is_constants_test(e, *negated, operand, list),
    }
}

// Whether expressions are written as others are, one by one.
#[cycle(sameness)]
fn same_values(list: &[Expr], others: &[Expr]) -> bool
    ensures exact { result ≡ pointwise is_same others.now list.now }
    ensures alike { result ≡ true → map formula others.now ≡ map formula list.now }
{
    let mut place = 0;
    'values: for x in list {
        if place >= others.len() || !same_value(x, &others[place]) {
            return false;
        }
        place += 1;
    }
    place == others.len()
}

// Whether the further operands of a chain are written as those of another one, one by one.
#[cycle(sameness)]
fn same_links(links: &[Further], others: &[Further]) -> bool
    ensures exact { result ≡ pointwise is_same_link others.now links.now }
    ensures alike { result ≡ true → map operand_of others.now ≡ map operand_of links.now }
{
    let mut place = 0;
    'links: for x in links {
        if place >= others.len() || !same_link(x, &others[place]) {
            return false;
        }
        place += 1;
    }
    place == others.len()
}

#[cycle(sameness)]
#[tactic(auto, unfolding(wplan::specs::Formula::formula, wplan::specs::Formula::operand_of, crate::specs::Sameness::is_same, crate::specs::Sameness::is_same_link))]
fn same_link(link: &Further, other: &Further) -> bool
    ensures exact { result ≡ is_same_link other.now link.now }
    ensures alike { result ≡ true → operand_of other.now ≡ operand_of link.now }
{
    same_operator(other.operator, link.operator) && same_value(&link.operand, &other.operand)
}

fn same_key(key: &ResolvedKey, other: &ResolvedKey) -> bool
    ensures exact { result ≡ is_same_key other.now key.now }
    ensures alike { result ≡ true → key_plan other.now ≡ key_plan key.now }
{
    same_sort_key(other.order, key.order) && same_value(&key.value, &other.value)
}

fn same_keys(keys: &[ResolvedKey], others: &[ResolvedKey]) -> bool
    ensures exact { result ≡ pointwise is_same_key others.now keys.now }
    ensures alike { result ≡ true → map key_plan others.now ≡ map key_plan keys.now }
{
    let mut place = 0;
    'keys: for key in keys {
        if place >= others.len() || !same_key(key, &others[place]) {
            return false;
        }
        place += 1;
    }
    place == others.len()
}

/// Whether two windows are over the same partition values and keys, whatever their frames: expressions that are
/// written alike, and keys that go alike, of which the nulls stand alike. It takes no memory, and goes as deep as the
/// nesting alone.
#[tactic(auto, unfolding(crate::specs::Sameness::is_same_order))]
pub fn same_order(a: &ResolvedWindow, b: &ResolvedWindow) -> bool
    ensures exact { result ≡ is_same_order a.now b.now }
    ensures values { result ≡ true → (window_plan a.now).partition ≡ (window_plan b.now).partition }
    ensures keys { result ≡ true → (window_plan a.now).keys ≡ (window_plan b.now).keys }
{
    same_values(&b.partition, &a.partition) && same_keys(&b.keys, &a.keys)
}
