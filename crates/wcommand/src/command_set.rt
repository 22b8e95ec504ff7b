//! The command set, as `clap` builds it.
ghost use Rattle.std.specs.Prelude.{◌≡◌, IfOk, false, codes, true};
ghost use Rattle.clap.specs.Words.{app_of, rule_of, shape_of, with_rule, new_app};
ghost use Rattle.clap.specs.declared.builder.command.Command.TheViews.{out-Command as fields_of};
ghost use Rattle.wcommand.specs.CommandSet.{ask_shape, command_set, feed_shape, floor_shape, join_shape, list_shape};
ghost use Rattle.wcommand.specs.CommandSet.{option_rule, positional_rule, program_app, repeated_rule, retire_shape};
ghost use Rattle.wcommand.specs.CommandSet.{session_shape, shell_shape, take_shape, unversioned_app};

use crate::help;
use clap::builder::ValueParser;
use clap::{Arg, Command};
use std::alloc::{AllocError, Global};

// `--name FILE`, which has to be given. No path is empty.
fn option<'a>(alloc: Global, name: &'a str, about: &'a str) -> Arg<'a>
    ensures rule { rule_of result ≡ option_rule name.entry.now }
    ensures local { result.global ≡ false }
{
    Arg::new(alloc, name)
        .long(name)
        .required(true)
        .value_name("FILE")
        .value_parser(ValueParser::NonEmptyString)
        .help(about)
}

// A positional, which has to be given.
fn positional<'a>(alloc: Global, name: &'a str, about: &'a str) -> Arg<'a>
    ensures rule { rule_of result ≡ positional_rule name.entry.now }
    ensures local { result.global ≡ false }
{
    Arg::new(alloc, name).required(true).help(about)
}

// A positional, which has to be given, and may be given any number of times.
fn repeated<'a>(alloc: Global, name: &'a str, about: &'a str) -> Arg<'a>
    ensures rule { rule_of result ≡ repeated_rule name.entry.now }
    ensures local { result.global ≡ false }
{
    positional(alloc, name, about).num_args(1..)
}

// A subcommand on a table and a store, before its positionals.
fn on_files<'a>(
    alloc: Global,
    name: &'a str,
    about: &'a str,
    after: &'a str,
) -> Result<Command<'a>, AllocError>
    ensures shape { IfOk result (λ c. app_of c
        ≡ with_rule (with_rule (new_app name.entry.now) (option_rule (codes "table"))) (option_rule (codes "store"))) }
    ensures local { IfOk result (λ c. (fields_of c).has_globals ≡ false) }
{
    let command = Command::new(alloc, name)
        .about(about)
        .after_help(after)
        .arg(option(alloc, "table", "The declaration of the table"))?
        .arg(option(
            alloc,
            "store",
            "The store; a file that does not exist is an empty store",
        ))?;
    Ok(command)
}

fn take<'a>(alloc: Global) -> Result<Command<'a>, AllocError>
    ensures shape { IfOk result (λ c. shape_of c ≡ take_shape) }
    ensures local { IfOk result (λ c. (fields_of c).has_globals ≡ false) }
{
    let command = on_files(alloc, "take", help::TAKE, help::AFTER_TAKE)?
        .arg(positional(
            alloc,
            "ORIGIN",
            "Who made the rows: 1 to 32 of a-z, 0-9, _ and -",
        ))?
        .arg(positional(alloc, "NUMBER", "Which of theirs they are: 1 to 999999999"))?
        .arg(positional(alloc, "CSV", "The CSV file of the rows"))?;
    Ok(command)
}

fn retire<'a>(alloc: Global) -> Result<Command<'a>, AllocError>
    ensures shape { IfOk result (λ c. shape_of c ≡ retire_shape) }
    ensures local { IfOk result (λ c. (fields_of c).has_globals ≡ false) }
{
    let command = on_files(alloc, "retire", help::RETIRE, help::AFTER_RETIRE)?
        .arg(positional(alloc, "ORIGIN", "The origin of the name"))?
        .arg(positional(alloc, "NUMBER", "The number of the name"))?;
    Ok(command)
}

fn floor<'a>(alloc: Global) -> Result<Command<'a>, AllocError>
    ensures shape { IfOk result (λ c. shape_of c ≡ floor_shape) }
    ensures local { IfOk result (λ c. (fields_of c).has_globals ≡ false) }
{
    let command = on_files(alloc, "floor", help::FLOOR, help::AFTER_FLOOR)?
        .arg(positional(alloc, "ORIGIN", "The origin of the names"))?
        .arg(positional(alloc, "NUMBER", "The greatest number that is retired"))?;
    Ok(command)
}

fn join<'a>(alloc: Global) -> Result<Command<'a>, AllocError>
    ensures shape { IfOk result (λ c. shape_of c ≡ join_shape) }
    ensures local { IfOk result (λ c. (fields_of c).has_globals ≡ false) }
{
    let command = on_files(alloc, "join", help::JOIN, help::AFTER_JOIN)?.arg(positional(
        alloc,
        "OTHER",
        "The other store's file",
    ))?;
    Ok(command)
}

fn feed<'a>(alloc: Global) -> Result<Command<'a>, AllocError>
    ensures shape { IfOk result (λ c. shape_of c ≡ feed_shape) }
    ensures local { IfOk result (λ c. (fields_of c).has_globals ≡ false) }
{
    let command = on_files(alloc, "feed", help::FEED, help::AFTER_FEED)?.arg(positional(
        alloc,
        "STREAM",
        "The file or pipe of the stream",
    ))?;
    Ok(command)
}

fn list<'a>(alloc: Global) -> Result<Command<'a>, AllocError>
    ensures shape { IfOk result (λ c. shape_of c ≡ list_shape) }
    ensures local { IfOk result (λ c. (fields_of c).has_globals ≡ false) }
{
    on_files(alloc, "list", help::LIST, help::AFTER_LIST)
}

fn ask<'a>(alloc: Global) -> Result<Command<'a>, AllocError>
    ensures shape { IfOk result (λ c. shape_of c ≡ ask_shape) }
    ensures local { IfOk result (λ c. (fields_of c).has_globals ≡ false) }
{
    let command = on_files(alloc, "ask", help::ASK, help::AFTER_ASK)?.arg(repeated(
        alloc,
        "QUERY",
        "A SELECT, as one word",
    ))?;
    Ok(command)
}

fn shell<'a>(alloc: Global) -> Result<Command<'a>, AllocError>
    ensures shape { IfOk result (λ c. shape_of c ≡ shell_shape) }
    ensures local { IfOk result (λ c. (fields_of c).has_globals ≡ false) }
{
    on_files(alloc, "shell", help::SHELL, help::AFTER_SHELL)
}

fn session<'a>(alloc: Global) -> Command<'a>
    ensures shape { shape_of result ≡ session_shape }
    ensures local { (fields_of result).has_globals ≡ false }
{
    Command::new(alloc, "session")
        .about(help::SESSION)
        .after_help(help::AFTER_SESSION)
}

// The program without its version, which takes words behind its name alone.
fn unversioned<'a>(alloc: Global) -> Result<Command<'a>, AllocError>
    ensures shape { IfOk result (λ c. app_of c ≡ unversioned_app) }
    ensures local { IfOk result (λ c. (fields_of c).has_globals ≡ false) }
{
    let command = Command::new(alloc, "wstore")
        .no_binary_name(true)
        .bin_name("wstore")?;
    Ok(command)
}

// The program, before its subcommands.
fn program<'a>(alloc: Global) -> Result<Command<'a>, AllocError>
    ensures shape { IfOk result (λ c. app_of c ≡ program_app) }
    ensures local { IfOk result (λ c. (fields_of c).has_globals ≡ false) }
{
    let command = unversioned(alloc)?
        .version(help::VERSION)
        .propagate_version(true)
        .about(help::ABOUT)
        .after_help(help::AFTER);
    Ok(command)
}

/// The program with its subcommands.
pub(crate) fn command_set<'a>(alloc: Global) -> Result<Command<'a>, AllocError>
    ensures { IfOk result (λ c. app_of c ≡ command_set) }
{
    let command = program(alloc)?
        .subcommand(session(alloc))?
        .subcommand(take(alloc)?)?
        .subcommand(retire(alloc)?)?
        .subcommand(floor(alloc)?)?
        .subcommand(join(alloc)?)?
        .subcommand(feed(alloc)?)?
        .subcommand(list(alloc)?)?
        .subcommand(ask(alloc)?)?
        .subcommand(shell(alloc)?)?;
    Ok(command)
}
