//! The calls in a query that break a rule: Q13, Q15, Q16 and Q18.

ghost use Rattle.std.specs.Prelude.{◌≡◌, ◌<◌, length, true, IfSome};
ghost use Rattle.wspots.specs.Scene.{standing_at, tokens_of};
ghost use Rattle.wspots.specs.Breaches.{IsAmong, wrong_call, is_own_grouping, long_grouping, bars_windows, misplaced_function};
ghost use Rattle.wspots.specs.Breaches.{misplaced_standing, misplaced_aggregate, misplaced_grouping, wrong_filter};

use crate::notes::{Breach, Told};
use crate::scene::Scene;
use wclauses::{Arguments, Clause, function_at, is_grouping};
use wscope::Function;

/// The most columns of GROUPING.
const MOST_GROUPING_COLUMNS: usize = 31;

/// A function that there is not, or that does not take so many arguments.
pub(crate) fn wrong_call(scene: &Scene<'_>, number: usize) -> Option<Breach>
    ensures breach { result ≡ wrong_call scene.now number }
    ensures among { IsAmong (tokens_of scene.now) result }
{
    let token = scene.function(number)?;
    let Some(function) = function_at(scene.written.tokens, token) else {
        return Some(Breach::at(token, Told::Functions));
    };
    match scene.arguments(token) {
        Arguments::Star if matches!(function, Function::Count) => None,
        Arguments::Star => Some(Breach::at(token, Told::Star)),
        Arguments::Listed(count) if function.takes(count) => None,
        Arguments::Listed(_) => Some(Breach::at(token, Told::Takes(token, function))),
    }
}

// Whether a token is GROUPING of columns in this SELECT.
#[tactic(auto, using(crate::proofs::Within::grouping_within))]
fn is_own_grouping(scene: &Scene<'_>, token: usize) -> bool
    ensures value { result ≡ is_own_grouping scene.now token }
    ensures among { result ≡ true → token < length (tokens_of scene.now) }
{
    is_grouping(scene.written.tokens, token) && scene.has_token(token)
}

/// GROUPING of more columns than it takes.
pub(crate) fn long_grouping(scene: &Scene<'_>, token: usize) -> Option<Breach>
    ensures breach { result ≡ long_grouping scene.now token }
    ensures among { IsAmong (tokens_of scene.now) result }
{
    if !is_own_grouping(scene, token) {
        return None;
    }
    match scene.arguments(token) {
        Arguments::Listed(count) if count > MOST_GROUPING_COLUMNS => Some(Breach::at(
            token,
            Told::LongGrouping,
        )),
        _ => None,
    }
}

// Whether no call with OVER may stand where a token does.
fn bars_windows(scene: &Scene<'_>, token: usize) -> bool
    ensures { result ≡ bars_windows (standing_at scene.now token) }
{
    let Some(standing) = scene.written.clauses.standing(token) else {
        return false;
    };
    match standing.clause {
        Clause::Condition => true,
        Clause::Having => true,
        Clause::Windows => true,
        _ => standing.is_in_call,
    }
}

/// A call with OVER where none may stand, or a window function without OVER.
pub(crate) fn misplaced_function(scene: &Scene<'_>, number: usize) -> Option<Breach>
    ensures breach { result ≡ misplaced_function scene.now number }
    ensures among { IsAmong (tokens_of scene.now) result }
{
    let token = scene.function(number)?;
    let function = function_at(scene.written.tokens, token)?;
    let is_right = if scene.has_over(token) {
        !bars_windows(scene, token)
    } else {
        function.is_aggregate()
    };
    if is_right {
        return None;
    }
    Some(Breach::at(token, Told::Nothing))
}

// What is broken by an aggregate without OVER, or GROUPING, where a token stands.
fn misplaced_at(scene: &Scene<'_>, token: usize) -> Option<Breach>
    ensures breach { result ≡ misplaced_standing (standing_at scene.now token) token }
    ensures place { IfSome result (λ breach. breach.token ≡ token) }
{
    let standing = scene.written.clauses.standing(token)?;
    if standing.clause == Clause::Condition {
        return Some(Breach::at(token, Told::Condition));
    }
    if standing.is_in_aggregate {
        return Some(Breach::at(token, Told::Nothing));
    }
    None
}

/// An aggregate without OVER in WHERE, or within another one.
pub(crate) fn misplaced_aggregate(scene: &Scene<'_>, number: usize) -> Option<Breach>
    ensures breach { result ≡ misplaced_aggregate scene.now number }
    ensures among { IsAmong (tokens_of scene.now) result }
{
    let token = scene.function(number)?;
    if !scene.is_group_call(token) {
        return None;
    }
    misplaced_at(scene, token)
}

/// GROUPING in WHERE, or within an aggregate without OVER.
pub(crate) fn misplaced_grouping(scene: &Scene<'_>, token: usize) -> Option<Breach>
    ensures breach { result ≡ misplaced_grouping scene.now token }
    ensures among { IsAmong (tokens_of scene.now) result }
{
    if !is_own_grouping(scene, token) {
        return None;
    }
    misplaced_at(scene, token)
}

/// A function with FILTER that is no aggregate.
pub(crate) fn wrong_filter(scene: &Scene<'_>, number: usize) -> Option<Breach>
    ensures breach { result ≡ wrong_filter scene.now number }
    ensures among { IsAmong (tokens_of scene.now) result }
{
    let token = scene.function(number)?;
    let function = function_at(scene.written.tokens, token)?;
    if function.is_aggregate() || !scene.has_filter(token) {
        return None;
    }
    Some(Breach::at(token, Told::Nothing))
}
