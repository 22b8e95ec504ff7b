//! The values of a subcommand's options and positionals.
ghost use Rattle.std.specs.Prelude.{◌≡◌, ◌≢◌, ◌∷◌, [], codes, map, IfOk, Some, true, is_some};
ghost use Rattle.clap.specs.Words.{found_of, rows_of, first_of, subcommand_rows_of};
ghost use Rattle.wcommand.specs.Choices.{HasValue, HasValues, HasPaths, IsChoiceIn, IsChoice};
ghost use Rattle.wcommand.specs.Required.{IsWhole, have_values};

use crate::choice::{Choice, Paths};
use clap::ArgMatches;
use std::alloc::{AllocError, Global};

// The value of the option or positional of this name.
fn value<'a>(found: &ArgMatches<'a>, name: &str) -> &'a str
    requires { is_some (first_of name.now (rows_of (found_of found.now))) ≡ true }
    ensures { HasValue (rows_of (found_of found.now)) name.now result.now }
{
    found.get_str(name).unwrap()
}

// The values of the positional of this name.
fn values<'a, 'm>(found: &'m ArgMatches<'a>, name: &str) -> &'m [&'a str]
    requires { is_some (first_of name.now (rows_of (found_of found.now))) ≡ true }
    ensures { HasValues (rows_of (found_of found.now)) name.now (map (λ value. value.now) result.now) }
{
    found.get_strs(name).unwrap()
}

fn paths<'a>(found: &ArgMatches<'a>) -> Paths<'a>
    requires table { is_some (first_of (codes "table") (rows_of (found_of found.now))) ≡ true }
    requires store { is_some (first_of (codes "store") (rows_of (found_of found.now))) ≡ true }
    ensures { HasPaths (rows_of (found_of found.now)) result }
{
    let table = value(found, "table");
    let store = value(found, "store");
    Paths { table, store }
}

fn take<'a>(found: &ArgMatches<'a>) -> Choice<'a>
    requires { have_values (rows_of (found_of found.now)) (codes "table" ∷ codes "store" ∷ codes "ORIGIN" ∷ codes "NUMBER"
        ∷ codes "CSV" ∷ []) ≡ true }
    ensures { IsChoiceIn (codes "take") (rows_of (found_of found.now)) result }
{
    let paths = paths(found);
    let origin = value(found, "ORIGIN");
    let number = value(found, "NUMBER");
    let csv = value(found, "CSV");
    Choice::Take {
        paths,
        origin,
        number,
        csv,
    }
}

fn retire<'a>(found: &ArgMatches<'a>) -> Choice<'a>
    requires { have_values (rows_of (found_of found.now)) (codes "table" ∷ codes "store" ∷ codes "ORIGIN" ∷ codes "NUMBER" ∷ []) ≡ true }
    ensures { IsChoiceIn (codes "retire") (rows_of (found_of found.now)) result }
{
    let paths = paths(found);
    let origin = value(found, "ORIGIN");
    let number = value(found, "NUMBER");
    Choice::Retire {
        paths,
        origin,
        number,
    }
}

fn floor<'a>(found: &ArgMatches<'a>) -> Choice<'a>
    requires { have_values (rows_of (found_of found.now)) (codes "table" ∷ codes "store" ∷ codes "ORIGIN" ∷ codes "NUMBER" ∷ []) ≡ true }
    ensures { IsChoiceIn (codes "floor") (rows_of (found_of found.now)) result }
{
    let paths = paths(found);
    let origin = value(found, "ORIGIN");
    let number = value(found, "NUMBER");
    Choice::Floor {
        paths,
        origin,
        number,
    }
}

fn join<'a>(found: &ArgMatches<'a>) -> Choice<'a>
    requires { have_values (rows_of (found_of found.now)) (codes "table" ∷ codes "store" ∷ codes "OTHER" ∷ []) ≡ true }
    ensures { IsChoiceIn (codes "join") (rows_of (found_of found.now)) result }
{
    let paths = paths(found);
    let other = value(found, "OTHER");
    Choice::Join { paths, other }
}

fn list<'a>(found: &ArgMatches<'a>) -> Choice<'a>
    requires { have_values (rows_of (found_of found.now)) (codes "table" ∷ codes "store" ∷ []) ≡ true }
    ensures { IsChoiceIn (codes "list") (rows_of (found_of found.now)) result }
{
    let paths = paths(found);
    Choice::List { paths }
}

fn feed<'a>(found: &ArgMatches<'a>) -> Choice<'a>
    requires { have_values (rows_of (found_of found.now)) (codes "table" ∷ codes "store" ∷ codes "STREAM" ∷ []) ≡ true }
    ensures { IsChoiceIn (codes "feed") (rows_of (found_of found.now)) result }
{
    let paths = paths(found);
    let stream = value(found, "STREAM");
    Choice::Feed { paths, stream }
}

fn ask<'a>(alloc: Global, found: &ArgMatches<'a>) -> Result<Choice<'a>, AllocError>
    requires { have_values (rows_of (found_of found.now)) (codes "table" ∷ codes "store" ∷ codes "QUERY" ∷ []) ≡ true }
    ensures { IfOk result (λ choice. IsChoiceIn (codes "ask") (rows_of (found_of found.now)) choice) }
{
    let paths = paths(found);
    let queries = Vec::from_slice(alloc, values(found, "QUERY"))?;
    Ok(Choice::Ask { paths, queries })
}

fn shell<'a>(found: &ArgMatches<'a>) -> Choice<'a>
    requires { have_values (rows_of (found_of found.now)) (codes "table" ∷ codes "store" ∷ []) ≡ true }
    ensures { IsChoiceIn (codes "shell") (rows_of (found_of found.now)) result }
{
    let paths = paths(found);
    Choice::Shell { paths }
}

// The choice of the name and matches of a subcommand that has no list of values.
fn in_other<'a>(name: &str, found: &ArgMatches<'a>) -> Choice<'a>
    requires whole { IsWhole (Some (name.now, rows_of (found_of found.now))) }
    requires other { name.now ≢ codes "ask" }
    ensures { IsChoiceIn name.now (rows_of (found_of found.now)) result }
{
    if name == "take" {
        return take(found);
    }
    if name == "retire" {
        return retire(found);
    }
    if name == "floor" {
        return floor(found);
    }
    if name == "join" {
        return join(found);
    }
    if name == "feed" {
        return feed(found);
    }
    if name == "list" {
        return list(found);
    }
    if name == "shell" {
        return shell(found);
    }
    Choice::Session
}

// The choice of a subcommand's name and matches.
fn in_subcommand<'a>(
    alloc: Global,
    name: &str,
    found: &ArgMatches<'a>,
) -> Result<Choice<'a>, AllocError>
    requires { IsWhole (Some (name.now, rows_of (found_of found.now))) }
    ensures { IfOk result (λ choice. IsChoiceIn name.now (rows_of (found_of found.now)) choice) }
{
    if name == "ask" {
        return ask(alloc, found);
    }
    Ok(in_other(name, found))
}

/// What the matches choose. `AllocError`: a growth was refused.
pub(crate) fn choice_of<'a>(
    alloc: Global,
    matches: &ArgMatches<'a>,
) -> Result<Choice<'a>, AllocError>
    requires { IsWhole (subcommand_rows_of matches.now) }
    ensures { IfOk result (λ choice. IsChoice (subcommand_rows_of matches.now) choice) }
{
    match matches.subcommand() {
        None => Ok(Choice::Session),
        Some((name, found)) => in_subcommand(alloc, name, found),
    }
}
