//! Subcommands on bytes.
ghost use Rattle.std.specs.Prelude.{◌≡◌, ◌≤◌, true, IfOk, OnErr, length, option_map};
ghost use Rattle.wcommand.specs.Inputs.{is_act};
ghost use Rattle.wexchange.specs.Judging.{HasTable};
ghost use Rattle.wreplies.specs.Spelling.{name_text};
ghost use Rattle.wscript.specs.Commands.{AreName};
ghost use Rattle.wact.specs.Outcomes.{IsRefused};
ghost use Rattle.wact.specs.Acts.{Acts, ActsBy, ActsOn, ActsRead, Joins, Lists, MayLack, MayLackBy};
ghost use Rattle.wact.specs.Acts.{MayLackOn, MayLackRead, OnName, Retires, RetiresTo, Takes};
ghost use Rattle.wact.specs.Opening.{purpose_of};

use crate::acted::{Acted, answered, refused, stored};
use crate::feeding::feed;
use crate::opening::{Purpose, hashed, node_of};
use crate::queries::ask;
use std::alloc::{AllocError, Global};
use wcommand::Choice;
use wexchange::{FileFault, Hashed};
use wreplies::{
    Text, names, refused_file, refused_name, refused_segment, refused_table, retired, taken,
};
use wsegment::{Schema, SchemaFault, SegmentFault};
use wstore::Node;
use wvalues::{Name, NameFault};

// Takes a segment under a name.
fn take_under(
    alloc: Global,
    node: &mut Node,
    old: &Option<Hashed<'_>>,
    name: Name,
    csv: &[u8],
) -> Result<Acted, AllocError>
    ensures takes { IfOk result (λ acted. Takes node.old.schema node.old.view old.now csv.now acted name) }
    ensures lacks { OnErr result (length csv.now ≤ 67108864) }
{
    match node.take(name, csv) {
        Ok(word) => stored(node, old, Text::Fixed(taken(word))),
        Err(SegmentFault::NoMemory) => Err(AllocError),
        Err(fault) => Ok(refused(refused_segment(alloc, fault)?)),
    }
}

// Retires a name.
fn retire_name(node: &mut Node, old: &Option<Hashed<'_>>, name: Name) -> Result<Acted, AllocError>
    ensures { IfOk result (λ acted. Retires node.old.schema node.old.view old.now acted name) }
{
    let word = node.retire(name)?;
    stored(node, old, Text::Fixed(retired(word)))
}

// Retires all names up to one.
fn retire_to(node: &mut Node, old: &Option<Hashed<'_>>, name: Name) -> Result<Acted, AllocError>
    ensures { IfOk result (λ acted. RetiresTo node.old.schema node.old.view old.now acted name) }
{
    let word = node.retire_to(name)?;
    stored(node, old, Text::Fixed(retired(word)))
}

// The refusal of a name.
fn bad_name(fault: NameFault) -> Acted
    ensures { IsRefused result (name_text fault) }
{
    refused(Text::Fixed(refused_name(fault)))
}

fn take(
    alloc: Global,
    node: &mut Node,
    old: &Option<Hashed<'_>>,
    origin: &str,
    number: &str,
    csv: &[u8],
) -> Result<Acted, AllocError>
    ensures does { IfOk result (λ acted. OnName origin.now number.now acted (Takes node.old.schema node.old.view
        old.now csv.now acted)) }
    ensures lacks { OnErr result (AreName origin.now number.now × (length csv.now ≤ 67108864)) }
{
    match Name::read(origin.as_bytes(), number.as_bytes()) {
        Ok(name) => take_under(alloc, node, old, name, csv),
        Err(fault) => Ok(bad_name(fault)),
    }
}

fn retire(
    node: &mut Node,
    old: &Option<Hashed<'_>>,
    origin: &str,
    number: &str,
) -> Result<Acted, AllocError>
    ensures does { IfOk result (λ acted. OnName origin.now number.now acted (Retires node.old.schema node.old.view
        old.now acted)) }
    ensures lacks { OnErr result (AreName origin.now number.now) }
{
    match Name::read(origin.as_bytes(), number.as_bytes()) {
        Ok(name) => retire_name(node, old, name),
        Err(fault) => Ok(bad_name(fault)),
    }
}

fn floor(
    node: &mut Node,
    old: &Option<Hashed<'_>>,
    origin: &str,
    number: &str,
) -> Result<Acted, AllocError>
    ensures does { IfOk result (λ acted. OnName origin.now number.now acted (RetiresTo node.old.schema node.old.view
        old.now acted)) }
    ensures lacks { OnErr result (AreName origin.now number.now) }
{
    match Name::read(origin.as_bytes(), number.as_bytes()) {
        Ok(name) => retire_to(node, old, name),
        Err(fault) => Ok(bad_name(fault)),
    }
}

// Joins what another store's file tells.
fn join(
    alloc: Global,
    node: &mut Node,
    old: &Option<Hashed<'_>>,
    other: &[u8],
) -> Result<Acted, AllocError>
    ensures does { IfOk result (λ acted. Joins node.old.schema node.old.view old.now other.now acted) }
    ensures lacks { OnErr result (HasTable node.old.schema other.now) }
{
    match node.get(other) {
        Ok(()) => stored(node, old, Text::Fixed(b"ok\n")),
        Err(FileFault::NoMemory) => Err(AllocError),
        Err(fault) => Ok(refused(refused_file(alloc, fault)?)),
    }
}

fn list(alloc: Global, node: &Node) -> Result<Acted, AllocError>
    ensures { IfOk result (λ acted. Lists node.now.schema node.now.view acted) }
{
    let all = node.list()?;
    let text = names(alloc, all.as_slice())?;
    Ok(answered(text))
}

// What a subcommand does on a node that knows the store, which has these bytes, if it is there.
fn act_on(
    alloc: Global,
    choice: &Choice<'_>,
    node: &mut Node,
    old: &Option<Hashed<'_>>,
    other: &[u8],
) -> Result<Acted, AllocError>
    requires { is_act choice.now ≡ true }
    ensures does { IfOk result (λ acted. ActsOn node.old.schema node.old.view choice.now
        old.now other.now acted) }
    ensures lacks { OnErr result (MayLackOn node.old.schema choice.now other.now) }
{
    match *choice {
        Choice::Session => unreachable!(),
        Choice::Shell { .. } => unreachable!(),
        Choice::Take { origin, number, .. } => take(alloc, node, old, origin, number, other),
        Choice::Retire { origin, number, .. } => retire(node, old, origin, number),
        Choice::Floor { origin, number, .. } => floor(node, old, origin, number),
        Choice::Join { .. } => join(alloc, node, old, other),
        Choice::Feed { .. } => feed(alloc, node, old, other),
        Choice::List { .. } => list(alloc, node),
        Choice::Ask { ref queries, .. } => ask(alloc, node, queries.as_slice()),
    }
}

// What a subcommand opens a node for.
fn purpose_of(choice: &Choice<'_>) -> Purpose
    ensures { result ≡ purpose_of choice.now }
{
    match choice {
        Choice::Ask { .. } => Purpose::Asking,
        _ => Purpose::Telling,
    }
}

// What a subcommand does where the table's declaration is read.
fn act_by(
    alloc: Global,
    choice: &Choice<'_>,
    schema: Schema,
    store: &Option<Hashed<'_>>,
    other: &[u8],
) -> Result<Acted, AllocError>
    requires { is_act choice.now ≡ true }
    ensures acts { IfOk result (λ acted. ActsBy schema choice.now store.now other.now acted) }
    ensures lacks { OnErr result (MayLackBy schema choice.now store.now other.now) }
{
    match node_of(alloc, schema, store, purpose_of(choice)) {
        Ok(mut node) => act_on(alloc, choice, &mut node, store, other),
        Err(FileFault::NoMemory) => Err(AllocError),
        Err(fault) => Ok(refused(refused_file(alloc, fault)?)),
    }
}

// What a subcommand does where the declaration of the table is read, and else why it is none.
fn act_read(
    alloc: Global,
    choice: &Choice<'_>,
    declared: Result<Schema, SchemaFault>,
    store: Option<&[u8]>,
    other: &[u8],
) -> Result<Acted, AllocError>
    requires { is_act choice.now ≡ true }
    ensures acts { IfOk result (λ acted. ActsRead declared choice.now (option_map (λ bytes. bytes.now) store.entry) other.now acted) }
    ensures lacks { OnErr result (MayLackRead declared choice.now (option_map (λ bytes. bytes.now) store.entry) other.now) }
{
    match declared {
        Ok(schema) => act_by(alloc, choice, schema, &hashed(store), other),
        Err(SchemaFault::NoMemory) => Err(AllocError),
        Err(fault) => Ok(refused(Text::Fixed(refused_table(fault)))),
    }
}

/// What the subcommand of a choice gives on the bytes of the table's file, of the store's file if there is one, and
/// of CSV, OTHER or STREAM, which are empty where the subcommand has none. The table is judged first, then the store, then the
/// subcommand. There is a new store only where the subcommand is done and the old one has other bytes than it is to have.
/// `AllocError`: memory was refused while the declaration was read, or, once it was valid, while the store was read or the
/// subcommand done.
#[tactic(auto, using(crate::proofs::Outcomes::acts, crate::proofs::Outcomes::lacks))]
pub fn act(
    alloc: Global,
    choice: &Choice<'_>,
    table: &[u8],
    store: Option<&[u8]>,
    other: &[u8],
) -> Result<Acted, AllocError>
    requires { is_act choice.now ≡ true }
    ensures acts { IfOk result (λ acted. Acts choice.now table.now (option_map (λ bytes. bytes.now) store.entry) other.now acted) }
    ensures lacks { OnErr result (MayLack choice.now table.now (option_map (λ bytes. bytes.now) store.entry) other.now) }
{
    act_read(alloc, choice, Schema::read(alloc, table), store, other)
}
