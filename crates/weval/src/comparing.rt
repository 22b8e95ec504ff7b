//! Conditions that compare what a row has at places with numbers, made ready for many rows.
//!
//! A test is judged in a few instructions, so that the processor has many rows on their way from memory at once.

ghost use Rattle.std.specs.Prelude.{◌≡◌, ◌&&◌, ◌∷◌, [], IfOk, IfSome, false, map, true};
ghost use Rattle.std.specs.List.{list_all};
ghost use Rattle.std.specs.Option.{is_some};
ghost use Rattle.wquery.specs.declared.expression.Comparison.TheVariants.{GreaterOrEqual, LessOrEqual};
ghost use Rattle.wvalues.specs.Meaning.{meaning};
ghost use Rattle.wplan.specs.declared.expr.Expr.{out-Expr};
ghost use Rattle.wplan.specs.Formula.{formula, operand_of, Compared, Within};
ghost use Rattle.weval.specs.Joining.{Adds, IsTestOf, Joins};
ghost use Rattle.weval.specs.NumberTests.{Decide, are_number_tests, is_and, is_number, is_number_link, is_number_test};
ghost use Rattle.weval.specs.NumberTests.{is_place, passes, passes_all};

use crate::operating::is_met;
use std::alloc::{AllocError, Global};
use wplan::{Expr, Further};
use wquery::{Comparison, Operator};
use wvalues::{Value, Whole};

/// A comparison of the value at a place of a row with a number.
#[derive(Clone, Copy)]
pub struct NumberTest {
    /// The place in the row, counted from 0.
    pub place: usize,
    /// How the value has to compare with the number.
    pub comparison: Comparison,
    /// The number.
    pub number: Whole,
}

impl NumberTest {
    // Whether a row passes it. A null, a text and a place that the row lacks do not.
    #[inline(always)]
    fn passes(&self, row: &[Value]) -> bool
        ensures { result ≡ passes (map meaning row.now) self.now }
    {
        if self.place >= row.len() {
            return false;
        }
        match &row[self.place] {
            Value::Int(number) => is_met(self.comparison, number.cmp(&self.number)),
            _ => false,
        }
    }
}

/// Comparisons with numbers, of which a row has to pass all.
#[derive(Drop)]
pub struct NumberTests {
    /// The comparisons.
    pub tests: Vec<NumberTest>,
}

impl NumberTests {
    /// Whether a row passes all of them. A null, a text and a place that the row lacks pass none.
    #[inline(always)]
    pub fn pass(&self, row: &[Value]) -> bool
        ensures { result ≡ passes_all self.now.tests.items (map meaning row.now) }
    {
        self.tests.iter().all(|test| test.passes(row))
    }
}

// The test of a comparison, where it is one of the value at a place with a number.
#[tactic(auto, unfolding(wplan::specs::Formula::formula))]
fn test_of(left: &Expr, comparison: Comparison, right: &Expr) -> Option<NumberTest>
    ensures found { is_some result ≡ (is_place (out-Expr left.now) && is_number (out-Expr right.now)) }
    ensures test { IfSome result (IsTestOf comparison (formula left.now) (formula right.now)) }
{
    let Expr::Place(place) = left else {
        return None;
    };
    match right {
        Expr::Number(number) => Some(NumberTest {
            place: *place,
            comparison,
            number: *number,
        }),
        _ => None,
    }
}

// Appends the test of a comparison, where it is one. It says whether it is.
#[tactic(auto, using(crate::proofs::NumberFacts::compared_adds))]
fn push_comparison(
    tests: &mut Vec<NumberTest>,
    left: &Expr,
    comparison: Comparison,
    right: &Expr,
) -> Result<bool, AllocError>
    ensures found { IfOk result (λ found. found ≡ (is_place (out-Expr left.now) && is_number (out-Expr right.now))) }
    ensures added { IfOk result (λ found. found ≡ true
        → Adds tests.old.items tests.new.items (Compared comparison (formula left.now) (formula right.now))) }
{
    match test_of(left, comparison, right) {
        None => Ok(false),
        Some(test) => {
            tests.push(test)?;
            Ok(true)
        }
    }
}

// Appends the tests of BETWEEN, where it is one of the value at a place and two numbers. It says whether it is.
#[tactic(auto, using(crate::proofs::NumberFacts::between_adds))]
fn push_between(
    tests: &mut Vec<NumberTest>,
    operand: &Expr,
    low: &Expr,
    high: &Expr,
) -> Result<bool, AllocError>
    ensures found { IfOk result (λ found. found ≡ (is_place (out-Expr operand.now)
        && (is_number (out-Expr low.now) && is_number (out-Expr high.now)))) }
    ensures added { IfOk result (λ found. found ≡ true
        → Adds tests.old.items tests.new.items (Within false (formula operand.now) (formula low.now) (formula high.now))) }
{
    let Some(above) = test_of(operand, Comparison::GreaterOrEqual, low) else {
        return Ok(false);
    };
    let Some(below) = test_of(operand, Comparison::LessOrEqual, high) else {
        return Ok(false);
    };
    tests.push(above)?;
    tests.push(below)?;
    Ok(true)
}

// Appends the tests of a comparison or of BETWEEN, where it is one with numbers. It says whether it is.
#[tactic(auto, unfolding(wplan::specs::Formula::formula))]
fn push_tests(tests: &mut Vec<NumberTest>, e: &Expr) -> Result<bool, AllocError>
    ensures found { IfOk result (λ found. found ≡ is_number_test (out-Expr e.now)) }
    ensures added { IfOk result (λ found. found ≡ true → Adds tests.old.items tests.new.items (formula e.now)) }
{
    match e {
        Expr::Compare {
            comparison,
            left,
            right,
        } => push_comparison(tests, left, *comparison, right),
        Expr::Between {
            negated: false,
            operand,
            low,
            high,
        } => push_between(tests, operand, low, high),
        _ => Ok(false),
    }
}

fn is_and(operator: Operator) -> bool
    ensures { result ≡ is_and operator }
{
    matches!(operator, Operator::And)
}

// Appends the tests of a further operand, where it is one with numbers behind an AND. It says whether it is.
fn push_link(tests: &mut Vec<NumberTest>, link: &Further) -> Result<bool, AllocError>
    ensures found { IfOk result (λ found. found ≡ is_number_link link.now) }
    ensures added { IfOk result (λ found. found ≡ true → Joins tests.old.items tests.new.items (operand_of link.now ∷ [])) }
{
    if !is_and(link.operator) {
        return Ok(false);
    }
    push_tests(tests, &link.operand)
}

// Appends the tests of the further operands of a chain, where all are such. It says whether they are.
fn push_links(tests: &mut Vec<NumberTest>, links: &[Further]) -> Result<bool, AllocError>
    ensures found { IfOk result (λ found. found ≡ list_all is_number_link links.now) }
    ensures added { IfOk result (λ found. found ≡ true → Joins tests.old.items tests.new.items (map operand_of links.now)) }
{
    'links: for link in links {
        match push_link(tests, link) {
            Err(fault) => return Err(fault),
            Ok(false) => return Ok(false),
            Ok(true) => {}
        }
    }
    Ok(true)
}

// Appends the tests of a condition, where it is one with numbers, or several joined by AND. It says whether it is.
fn push_all(tests: &mut Vec<NumberTest>, e: &Expr) -> Result<bool, AllocError>
    ensures found { IfOk result (λ found. found ≡ are_number_tests (out-Expr e.now)) }
    ensures added { IfOk result (λ found. found ≡ true → tests.old.items ≡ [] → Decide tests.new.items (formula e.now)) }
{
    let Expr::Chain { first, links } = e else {
        return push_tests(tests, e);
    };
    let found = push_tests(tests, first)?;
    if !found {
        return Ok(false);
    }
    push_links(tests, links.as_slice())
}

/// The tests that decide a condition, where it compares the value at a place with a number, or asks whether it lies between two
/// numbers, or is several of these joined by AND. None for all other conditions.
pub fn number_tests(alloc: Global, e: &Expr) -> Result<Option<NumberTests>, AllocError>
    ensures found { IfOk result (λ tests. is_some tests ≡ are_number_tests (out-Expr e.now)) }
    ensures decide { IfOk result (λ tests. IfSome tests (λ tests. Decide tests.tests.items (formula e.now))) }
{
    let mut tests = Vec::new(alloc);
    let found = push_all(&mut tests, e)?;
    if found {
        Ok(Some(NumberTests { tests }))
    } else {
        Ok(None)
    }
}
