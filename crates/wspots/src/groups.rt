//! The columns of a grouped query that are not in GROUP BY: Q17.

ghost use Rattle.std.specs.Prelude.{◌≡◌};
ghost use Rattle.wspots.specs.Scene.{tokens_of};
ghost use Rattle.wspots.specs.Breaches.{IsAmong, wants_grouped};
ghost use Rattle.wspots.specs.Names.{ungrouped_column, ungrouped_star};

use crate::notes::{Breach, Told};
use crate::scene::Scene;
use wclauses::{Clause, is_star};

// Whether only columns of GROUP BY may stand where a token does, keys of ORDER BY that are items aside.
fn wants_grouped(scene: &Scene<'_>, token: usize) -> bool
    ensures { result ≡ wants_grouped scene.now token }
{
    let Some(standing) = scene.written.clauses.standing(token) else {
        return false;
    };
    if standing.is_in_grouping {
        return true;
    }
    if !scene.is_grouped || standing.is_in_aggregate {
        return false;
    }
    standing.clause != Clause::Condition
}

/// A column that is not in GROUP BY, where only those may stand.
pub(crate) fn ungrouped_column(scene: &Scene<'_>, number: usize) -> Option<Breach>
    ensures breach { result ≡ ungrouped_column scene.now number }
    ensures among { IsAmong (tokens_of scene.now) result }
{
    let named = scene.column(number)?;
    if scene.groups_by(named.name) || !wants_grouped(scene, named.token) {
        return None;
    }
    if scene.is_output(number, &named) {
        return None;
    }
    Some(Breach::at(named.token, Told::Ungrouped))
}

/// The item `*` of a grouped SELECT, where it stands for a column that is not in GROUP BY.
#[tactic(auto, using(crate::proofs::Within::star_within))]
pub(crate) fn ungrouped_star(scene: &Scene<'_>, token: usize) -> Option<Breach>
    ensures breach { result ≡ ungrouped_star scene.now token }
    ensures among { IsAmong (tokens_of scene.now) result }
{
    let place = scene.ungrouped?;
    if !is_star(scene.written.tokens, token) || !scene.has_token(token) {
        return None;
    }
    Some(Breach::at(token, Told::UngroupedStar(place)))
}
