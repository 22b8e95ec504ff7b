//! The calls in which growths are refused.

use crate::case::{Call, Case, NodeCall, SetCall};
use crate::failure::Failure;
use crate::orders::{lists_of, orders_text};
use crate::replies::{
    DONE, acted_text, answer_text, file_fault_text, file_of, reply_text, taken_text,
};
use crate::state::{Sound, State, set_of};
use crate::windows::{folds_text, places_text};
use std::alloc::{AllocError, Global};
use wact::act;
use wcommand::{WordsFault, choose};
use wexchange::read;
use wplanner::{execute, print};
use wreplies::{Text, names, retired};
use wset::{JoinError, SegmentSet};
use wstore::Node;
use wstream::PushFault;
use wvalues::SortKey;

/// What a call is lent that was made before it.
#[derive(Drop)]
pub enum Lent {
    Nothing,
    Set(SegmentSet),
    Query(Sound),
    Keys(Vec<Vec<SortKey>>),
}

fn join(set: &mut SegmentSet, lent: &Lent) -> Result<Text, AllocError> {
    let Lent::Set(other) = lent else {
        return Ok(Text::Fixed(b"no set\n"));
    };
    match set.join(other) {
        Ok(()) => Ok(DONE),
        Err(JoinError::NoMemory) => Err(AllocError),
        Err(JoinError::OtherSchema) => Ok(Text::Fixed(b"other schema\n")),
    }
}

fn read_file(alloc: Global, set: &SegmentSet, file: &[u8]) -> Result<Text, AllocError> {
    match read(alloc, set.schema(), file) {
        Ok(made) => Ok(Text::Made(file_of(alloc, &made)?)),
        Err(fault) => file_fault_text(alloc, fault),
    }
}

fn execute_query(alloc: Global, set: &mut SegmentSet, lent: &Lent) -> Result<Text, AllocError> {
    let Lent::Query(query) = lent else {
        return Ok(Text::Fixed(b"no query\n"));
    };
    match execute(alloc, set, &query.resolved) {
        Ok(table) => Ok(Text::Made(print(alloc, &table)?)),
        Err(fault) => answer_text(alloc, Err(fault)),
    }
}

fn order_rows(alloc: Global, set: &mut SegmentSet, lent: &Lent) -> Result<Text, AllocError> {
    let Lent::Keys(lists) = lent else {
        return Ok(Text::Fixed(b"no keys\n"));
    };
    orders_text(alloc, set, lists)
}

fn call_set(
    alloc: Global,
    set: &mut SegmentSet,
    call: SetCall,
    text: &str,
    lent: &Lent,
) -> Result<Text, AllocError> {
    match call {
        SetCall::Take(name) => taken_text(alloc, set.take(name, text.as_bytes())),
        SetCall::Retire(name) => Ok(Text::Fixed(retired(set.retire(name)?))),
        SetCall::RetireTo(name) => Ok(Text::Fixed(retired(set.retire_to(name)?))),
        SetCall::Dispute(name) => {
            set.dispute(name)?;
            Ok(DONE)
        }
        SetCall::Join => join(set, lent),
        SetCall::List => names(alloc, set.list()?.as_slice()),
        SetCall::Write => Ok(Text::Made(file_of(alloc, set)?)),
        SetCall::Read => read_file(alloc, set, text.as_bytes()),
        SetCall::Execute => execute_query(alloc, set, lent),
        SetCall::Ordered => order_rows(alloc, set, lent),
    }
}

fn pushed_text(told: Result<(), PushFault>) -> Result<Text, AllocError> {
    match told {
        Ok(()) => Ok(DONE),
        Err(PushFault::NoMemory) => Err(AllocError),
        Err(PushFault::Bad) => Ok(Text::Fixed(b"refused B1\n")),
    }
}

fn call_node(
    alloc: Global,
    node: &mut Node,
    call: NodeCall,
    text: &[u8],
) -> Result<Text, AllocError> {
    match call {
        NodeCall::List => names(alloc, node.list()?.as_slice()),
        NodeCall::Put => Ok(Text::Made(node.put()?)),
        NodeCall::Get => match node.get(text) {
            Ok(()) => Ok(DONE),
            Err(fault) => file_fault_text(alloc, fault),
        },
        NodeCall::Feed => pushed_text(node.feed(text)),
        NodeCall::NextReply => match node.next_reply() {
            Ok(Some(reply)) => reply_text(alloc, reply),
            Ok(None) => Ok(Text::Fixed(b"none\n")),
            Err(_) => Ok(Text::Fixed(b"refused B1\n")),
        },
        NodeCall::Ask => answer_text(alloc, node.ask(text)),
    }
}

// What words choose is done on the bytes of the files of a case, if it is to be.
fn call_words(alloc: Global, case: &Case<'_>, is_done: bool) -> Result<Text, AllocError> {
    let words: Vec<&str> = case.text.lines().collect(alloc)?;
    let choice = match choose(alloc, words.as_slice()) {
        Ok(choice) => choice,
        Err(WordsFault::NoMemory) => return Err(AllocError),
        Err(WordsFault::Help(text)) => return Ok(Text::Made(text.into_bytes())),
        Err(WordsFault::Refused(text)) => return Ok(Text::Made(text.into_bytes())),
    };
    if !is_done || !choice.is_act() {
        return Ok(DONE);
    }
    let table = case.table.as_bytes();
    let store = Some(case.store.as_bytes());
    let acted = act(alloc, &choice, table, store, case.other.as_bytes())?;
    acted_text(alloc, &acted)
}

impl Lent {
    /// What the call of a case is lent.
    pub fn new(alloc: Global, state: &State, case: &Case<'_>) -> Result<Lent, Failure> {
        let schema = state.set.schema();
        match case.call {
            Call::Set(SetCall::Join) => Ok(Lent::Set(set_of(alloc, schema, case.other)?)),
            Call::Set(SetCall::Execute) => Ok(Lent::Query(Sound::read(alloc, schema, case.text)?)),
            Call::Set(SetCall::Ordered) => Ok(Lent::Keys(lists_of(alloc, case.text)?)),
            _ => Ok(Lent::Nothing),
        }
    }
}

/// Makes the call of a case: what it is told, or that a growth was refused.
pub fn make(
    alloc: Global,
    state: &mut State,
    case: &Case<'_>,
    lent: &Lent,
) -> Result<Text, AllocError> {
    match case.call {
        Call::Set(call) => call_set(alloc, &mut state.set, call, case.text, lent),
        Call::Node(call) => call_node(alloc, &mut state.node, call, case.text.as_bytes()),
        Call::Push => pushed_text(state.inbox.push(case.text.as_bytes())),
        Call::Folds(aggregate, exclusion) => folds_text(alloc, aggregate, exclusion),
        Call::Places(function) => places_text(alloc, function),
        Call::Choose => call_words(alloc, case, false),
        Call::Act => call_words(alloc, case, true),
    }
}
