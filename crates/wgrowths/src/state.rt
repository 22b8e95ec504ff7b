//! The state on which calls are made, and what is told of it.
ghost use Rattle.std.specs.Prelude.{◌≡◌, true};
ghost use Rattle.wplan.specs.Plans.{plans};
ghost use Rattle.wplanner.specs.Sound.{is_sound_query};

use crate::case::Case;
use crate::failure::Failure;
use crate::replies::{answer_text, file_of, push_message, push_text, reply_text};
use std::alloc::{AllocError, Global};
use wask::{accepted_is_sound, ask};
use wexchange::{Hashed, read_beside};
use wlexer::lex;
use wparser::parse;
use wplan::Resolved;
use wquery::Query;
use wreplies::names;
use wresolve::resolve;
use wsegment::Schema;
use wset::{Listed, SegmentSet};
use wstore::Node;
use wstream::Inbox;

/// The query that shows the rows as they lie.
const ALL: &[u8] = b"SELECT * FROM sales";

/// The query that shows the rows in the order of the first column, by the runs that are kept.
const SORTED: &[u8] = b"SELECT * FROM sales ORDER BY 1";

/// More messages than the stream of a case has.
const MESSAGES: usize = 100;

/// A query that breaks no rule.
#[derive(Drop)]
pub struct Sound {
    pub resolved: Resolved,
    ghost sound: { is_sound_query (plans resolved) ≡ true },
}

fn parsed(alloc: Global, text: &str) -> Result<Query, Failure> {
    let Ok(tokens) = lex(alloc, text.as_bytes()) else {
        return Err(Failure::Case);
    };
    match parse(alloc, &tokens) {
        Ok(query) => Ok(query),
        Err(_) => Err(Failure::Case),
    }
}

impl Sound {
    fn of(alloc: Global, schema: &Schema, query: &Query) -> Result<Sound, Failure> {
        accepted_is_sound();
        match resolve(alloc, schema, query) {
            Ok(resolved) => Ok(Sound { resolved }),
            Err(_) => Err(Failure::Case),
        }
    }

    /// The query that a text spells.
    pub fn read(alloc: Global, schema: &Schema, text: &str) -> Result<Sound, Failure> {
        match parsed(alloc, text) {
            Ok(query) => Sound::of(alloc, schema, &query),
            Err(failure) => Err(failure),
        }
    }
}

/// The set that a file tells, which has its cells.
pub fn set_of(alloc: Global, schema: &Schema, file: &str) -> Result<SegmentSet, Failure> {
    let Ok(copied) = schema.copy() else {
        return Err(Failure::Case);
    };
    let empty = SegmentSet::new(alloc, copied);
    match read_beside(alloc, &empty, &Hashed::bare(file.as_bytes())) {
        Ok(set) => Ok(set),
        Err(_) => Err(Failure::Case),
    }
}

// A node that knows what the store tells, and holds the stream.
fn node_of(alloc: Global, schema: Schema, case: &Case<'_>) -> Result<Node, Failure> {
    let mut node = Node::new(alloc, schema);
    let is_told = node.get(case.store.as_bytes()).is_ok();
    if is_told && node.feed(case.stream.as_bytes()).is_ok() {
        Ok(node)
    } else {
        Err(Failure::Case)
    }
}

// An inbox that holds the stream.
fn inbox_of(alloc: Global, case: &Case<'_>) -> Result<Inbox, Failure> {
    let mut inbox = Inbox::new(alloc);
    match inbox.push(case.stream.as_bytes()) {
        Ok(()) => Ok(inbox),
        Err(_) => Err(Failure::Case),
    }
}

/// A set and a node that know the same, and an inbox that holds what the node's does.
#[derive(Drop)]
pub struct State {
    pub set: SegmentSet,
    pub node: Node,
    pub inbox: Inbox,
}

// Adds a list of names.
fn push_list(
    alloc: Global,
    text: &mut Vec<u8>,
    list: Result<Vec<Listed>, AllocError>,
) -> Result<(), AllocError> {
    let all = list?;
    push_text(text, names(alloc, all.as_slice()))
}

// Adds a file.
fn push_file(text: &mut Vec<u8>, file: Result<Vec<u8>, AllocError>) -> Result<(), AllocError> {
    let bytes = file?;
    text.extend_from_slice(bytes.as_slice())
}

impl State {
    /// The state before the call of a case.
    pub fn new(alloc: Global, case: &Case<'_>) -> Result<State, Failure> {
        let Ok(schema) = Schema::read(alloc, case.table.as_bytes()) else {
            return Err(Failure::Case);
        };
        let set = set_of(alloc, &schema, case.store)?;
        let node = node_of(alloc, schema, case)?;
        let inbox = inbox_of(alloc, case)?;
        Ok(State { set, node, inbox })
    }

    // Adds the file of the set, its list and its rows.
    fn push_set(&mut self, alloc: Global, text: &mut Vec<u8>) -> Result<(), AllocError> {
        push_file(text, file_of(alloc, &self.set))?;
        push_list(alloc, text, self.set.list())?;
        push_text(text, answer_text(alloc, ask(alloc, &mut self.set, ALL)))?;
        push_text(text, answer_text(alloc, ask(alloc, &mut self.set, SORTED)))
    }

    // Adds the file of the node, its list and its rows.
    fn push_node(&mut self, alloc: Global, text: &mut Vec<u8>) -> Result<(), AllocError> {
        push_file(text, self.node.put())?;
        push_list(alloc, text, self.node.list())?;
        push_text(text, answer_text(alloc, self.node.ask(ALL)))?;
        push_text(text, answer_text(alloc, self.node.ask(SORTED)))
    }

    // Adds what the node tells of each message that it holds.
    fn push_replies(&mut self, alloc: Global, text: &mut Vec<u8>) -> Result<(), AllocError> {
        for _ in 0..MESSAGES {
            match self.node.next_reply() {
                Ok(Some(reply)) => push_text(text, reply_text(alloc, reply))?,
                Ok(None) => break,
                Err(_) => return text.extend_from_slice(b"refused B1\n"),
            }
        }
        Ok(())
    }

    // Adds each message that the inbox holds.
    fn push_messages(&mut self, text: &mut Vec<u8>) -> Result<(), AllocError> {
        for _ in 0..MESSAGES {
            match self.inbox.next() {
                Ok(Some(message)) => push_message(text, &message)?,
                Ok(None) => break,
                Err(_) => return text.extend_from_slice(b"refused B1\n"),
            }
        }
        Ok(())
    }

    /// Adds what the state is: what the set and the node know, and then each message that is held, which is handled.
    pub fn tell(&mut self, alloc: Global, text: &mut Vec<u8>) -> Result<(), AllocError> {
        self.push_set(alloc, text)?;
        self.push_node(alloc, text)?;
        self.push_replies(alloc, text)?;
        self.push_messages(text)
    }
}
