//! Lists of names, and answers.
ghost use Rattle.std.specs.Prelude.{◌≡◌, ◌++◌, IfOk, OnOk};
ghost use Rattle.std.specs.List.{flat_map};
ghost use Rattle.wreplies.specs.Spelling.{answer_text, listed_text, names_text, status_text};
ghost use Rattle.wreplies.specs.Texts.{bytes_of};

use crate::text::{Text, push_at, push_number};
use std::alloc::{AllocError, Global};
use wset::{Listed, Status};

// Adds how a name stands.
fn push_status(text: &mut Vec<u8>, status: Status, rows: usize) -> Result<(), AllocError>
    ensures { OnOk result (text.new.items ≡ text.old.items ++ status_text status rows) }
{
    match status {
        Status::Unknown => text.extend_from_slice(b" unknown\n"),
        Status::Live => push_at(text, b" live ", rows as u64),
        Status::Disputed => text.extend_from_slice(b" disputed\n"),
        Status::Retired => text.extend_from_slice(b" retired\n"),
        Status::Floor => text.extend_from_slice(b" floor\n"),
    }
}

// Adds the line of a name.
fn push_listed(text: &mut Vec<u8>, listed: &Listed) -> Result<(), AllocError>
    ensures { OnOk result (text.new.items ≡ text.old.items ++ listed_text listed.now) }
{
    text.extend_from_slice(listed.name.origin())?;
    text.push(b' ')?;
    push_number(text, u64::from(listed.name.number()))?;
    push_status(text, listed.status, listed.rows)?;
    Ok(())
}

// Adds the lines of names.
fn push_all(text: &mut Vec<u8>, all: &[Listed]) -> Result<(), AllocError>
    ensures { OnOk result (text.new.items ≡ text.old.items ++ flat_map listed_text all.now) }
{
    for listed in all {
        push_listed(text, listed)?;
    }
    Ok(())
}

/// A list of names, each with how it stands and with its rows where it is live. `AllocError`: a growth was refused.
pub fn names(alloc: Global, all: &[Listed]) -> Result<Text, AllocError>
    ensures { IfOk result (λ text. bytes_of text ≡ names_text all.now) }
{
    let mut text = Vec::new(alloc);
    push_at(&mut text, b"list ", all.len() as u64)?;
    push_all(&mut text, all)?;
    Ok(Text::Made(text))
}

/// The answer to a query behind its length. `AllocError`: a growth was refused.
pub fn answer(alloc: Global, bytes: &[u8]) -> Result<Text, AllocError>
    ensures { IfOk result (λ text. bytes_of text ≡ answer_text bytes.now) }
{
    let mut text = Vec::new(alloc);
    push_at(&mut text, b"answer ", bytes.len() as u64)?;
    text.extend_from_slice(bytes)?;
    Ok(Text::Made(text))
}
