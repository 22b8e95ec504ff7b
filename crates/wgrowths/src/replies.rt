//! What calls are told.

use std::alloc::{AllocError, Global};
use wact::Acted;
use wexchange::{FileFault, write};
use wplanner::AskFault;
use wreplies::{Text, refused_file, refused_query, refused_segment, retired, taken};
use wset::{SegmentSet, TakeError, Taken};
use wstore::Reply;
use wstream::Message;
use wvalues::Counted;

/// The text of a call that has nothing to tell.
pub const DONE: Text = Text::Fixed(b"ok\n");

/// Adds a text.
pub fn push_text(text: &mut Vec<u8>, told: Result<Text, AllocError>) -> Result<(), AllocError> {
    let told = told?;
    text.extend_from_slice(told.as_slice())
}

/// The file of a set.
pub fn file_of(alloc: Global, set: &SegmentSet) -> Result<Vec<u8>, AllocError> {
    let mut output = Counted::new(Vec::new(alloc));
    match write(set, &mut output) {
        Ok(()) => Ok(output.into_inner()),
        Err(_) => Err(AllocError),
    }
}

/// What taking a segment is told.
pub fn taken_text(alloc: Global, told: Result<Taken, TakeError>) -> Result<Text, AllocError> {
    match told {
        Ok(word) => Ok(Text::Fixed(taken(word))),
        Err(TakeError::NoMemory) => Err(AllocError),
        Err(fault) => refused_segment(alloc, fault),
    }
}

/// What a file is told that is not read.
pub fn file_fault_text(alloc: Global, fault: FileFault) -> Result<Text, AllocError> {
    match fault {
        FileFault::NoMemory => Err(AllocError),
        _ => refused_file(alloc, fault),
    }
}

/// What a query is told.
pub fn answer_text(alloc: Global, told: Result<Vec<u8>, AskFault>) -> Result<Text, AllocError> {
    match told {
        Ok(bytes) => Ok(Text::Made(bytes)),
        Err(AskFault::NoMemory) => Err(AllocError),
        Err(fault) => refused_query(alloc, fault),
    }
}

/// What a message is told.
pub fn reply_text(alloc: Global, reply: Reply) -> Result<Text, AllocError> {
    match reply {
        Reply::Taken(word) => Ok(Text::Fixed(taken(word))),
        Reply::Retired(word) => Ok(Text::Fixed(retired(word))),
        Reply::Refused(fault) => refused_segment(alloc, fault),
        Reply::NoMemory => Err(AllocError),
    }
}

/// What a subcommand gives: what is printed, the status, and the new store.
pub fn acted_text(alloc: Global, acted: &Acted) -> Result<Text, AllocError> {
    let mut text = Vec::from_slice(alloc, acted.output.as_slice())?;
    text.push(b'0'.saturating_add(acted.status))?;
    text.push(b'\n')?;
    if let Some(store) = &acted.store {
        text.extend_from_slice(store.as_slice())?;
    }
    Ok(Text::Made(text))
}

/// Adds what a message says.
pub fn push_message(text: &mut Vec<u8>, message: &Message<'_>) -> Result<(), AllocError> {
    let (word, name) = match message {
        Message::Take(name, bytes) => {
            text.extend_from_slice(bytes)?;
            (b'S', name)
        }
        Message::Retire(name) => (b'R', name),
        Message::RetireTo(name) => (b'U', name),
    };
    text.push(word)?;
    text.extend_from_slice(name.origin())?;
    text.push(b'\n')?;
    Ok(())
}
