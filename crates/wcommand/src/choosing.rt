//! From words to a choice.
ghost use Rattle.std.specs.Prelude.{◌≡◌, map, chars, string_bytes, encode_utf8_all, true, IfErr, IfOk};
ghost use Rattle.clap.specs.Words.{kind_of, subcommand_rows_of, takes};
ghost use Rattle.wcommand.specs.CommandSet.{command_set};
ghost use Rattle.wcommand.specs.declared.fault.WordsFault.TheVariants.{NoMemory};
ghost use Rattle.wcommand.specs.Choices.{Chooses, IsChoice, IsFaultFor};
ghost use Rattle.wcommand.specs.Required.{IsWhole};
ghost use Rattle.wcommand.specs.ShownTexts.{shown};

use crate::choice::Choice;
use crate::command_set::command_set;
use crate::fault::WordsFault;
use crate::values::choice_of;
use clap::error::ErrorKind;
use clap::{ArgMatches, Error};
use std::alloc::{AllocError, Global};

// A character as it is shown: one that a terminal would obey is replaced, but for a line feed.
fn shown(c: char) -> char
    ensures { result ≡ shown c }
{
    if c.is_control() && c != '\n' {
        '\u{fffd}'
    } else {
        c
    }
}

// A text as it is shown: words that are not understood may have any characters.
fn text_shown(alloc: Global, text: &str) -> Result<String, AllocError>
    ensures { IfOk result (λ shown_text. string_bytes shown_text ≡ encode_utf8_all (map shown (chars text.now))) }
{
    let mut shown_text = String::new(alloc);
    'characters: for c in text.chars() {
        if let Err(fault) = shown_text.push(shown(c)) {
            return Err(fault);
        }
    }
    Ok(shown_text)
}

// What an error of the parse says.
fn words_fault(alloc: Global, error: &Error) -> WordsFault
    ensures { IsFaultFor (kind_of error.now) result }
{
    if let ErrorKind::OutOfMemory = error.kind() {
        return WordsFault::NoMemory;
    }
    let Ok(text) = format!(in alloc; "{error}") else {
        return WordsFault::NoMemory;
    };
    if !error.use_stderr() {
        return WordsFault::Help(text);
    }
    match text_shown(alloc, text.as_str()) {
        Ok(text) => WordsFault::Refused(text),
        Err(_) => WordsFault::NoMemory,
    }
}

// What the matches choose.
fn chosen<'a>(alloc: Global, matches: &ArgMatches<'a>) -> Result<Choice<'a>, WordsFault>
    requires { IsWhole (subcommand_rows_of matches.now) }
    ensures choice { IfOk result (λ choice. IsChoice (subcommand_rows_of matches.now) choice) }
    ensures lacks { IfErr result (λ fault. fault ≡ NoMemory) }
{
    let choice = choice_of(alloc, matches)?;
    Ok(choice)
}

/// The subcommand that the words behind the program's name choose, with its values; `WordsFault::Help` where they ask
/// for help or the version, `WordsFault::Refused` where they are not understood, and `WordsFault::NoMemory` alone may
/// come in place of any of these.
pub fn choose<'a>(alloc: Global, words: &'a [&'a str]) -> Result<Choice<'a>, WordsFault>
    ensures chosen { Chooses (map (λ word. word.now) words.entry.now) result }
    ensures taken { takes command_set (map (λ word. word.now) words.entry.now) ≡ true → IfErr result (λ fault. fault ≡ NoMemory) }
{
    let command = command_set(alloc)?;
    match command.try_get_matches_from(words) {
        Ok(matches) => chosen(alloc, &matches),
        Err(error) => Err(words_fault(alloc, &error)),
    }
}
