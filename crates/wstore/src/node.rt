//! One node.
ghost use Rattle.std.specs.Prelude.{◌≡◌, ◌⊎◌, ◌<◌, ◌++◌, length, map as list_map, true, false};
ghost use Rattle.std.specs.Prelude.{Ok, Err, IsOk, IfOk, IfErr, OnOk, OnErr, MatchResult};
ghost use Rattle.std.specs.FinMap as map;
ghost use Rattle.wsegment.specs.Outcome.{Fails};
ghost use Rattle.wsegment.specs.Rows.{rows_of};
ghost use Rattle.wset.specs.Views.{join, known_in};
ghost use Rattle.wset.specs.Items.{SegmentItem, RetirementItem, FloorItem, view_of_item};
ghost use Rattle.wentries.specs.Holding.{IsReadBy};
ghost use Rattle.wset.specs.Words.{floor_word, retired_word, taken_word};
ghost use Rattle.wset.specs.Listing.{listed};
ghost use Rattle.wexchange.specs.Files.{file_of};
ghost use Rattle.wexchange.specs.Judging.{IsFault};
ghost use Rattle.wstore.specs.History.{MayNeedMemory};
ghost use Rattle.wstore.specs.Nodes.{IsTold, LearnsFile, NextReply, fresh_node};
ghost use Rattle.wask.specs.Answer.{IsAnswer};
ghost use Rattle.wask.specs.Texts.{IsText};

use std::alloc::{AllocError, Global};
use std::marker::Model;
use std::rc::Rc;
use wask::{AskFault, ask};
use wexchange::{FileFault, Hashed, read_beside, write_over};
use wsegment::{Judged, Schema, SegmentFault};
use wset::{Listed, Retired, SegmentSet, TakeError, Taken};
use wstream::{BadStream, Inbox, Message, PushFault};
use wvalues::{Counted, Name};

/// What a message of a stream was told.
#[derive(Clone, Copy, Debug, PartialEq, Eq)]
pub enum Reply {
    /// A segment was taken.
    Taken(Taken),
    /// A name was retired, or all names of its origin up to it.
    Retired(Retired),
    /// The bytes are no segment.
    Refused(SegmentFault),
    /// A growth was refused. The message is spent, and the node knows nothing of it.
    NoMemory,
}

/// A node: what it knows under a declaration, the queries that it answers, and its delivery stream. Contracts see it
/// as the declaration and the view, the bytes of the stream that were not handled, and whether the stream was found
/// bad.
#[derive(Drop)]
pub struct Node {
    alloc: Global,
    set: SegmentSet,
    inbox: Inbox,
}

impl Model for Node {
    ghost use Rattle.wstore.specs.Nodes.{NodeState, coded_node};

    ghost Value = { NodeState };

    ghost coded = { coded_node };

    ghost view = { λ n. record { schema = n.set.schema; view = n.set.view; held = n.inbox.held; is_bad = n.inbox.is_bad } };
}

// Takes the segment of a message.
#[tactic(auto, using(crate::proofs::Lacking::err_needs, crate::proofs::Lacking::on_err_needs))]
fn take_message(set: &mut SegmentSet, name: Name, bytes: &[u8]) -> Reply
    ensures told { IsTold set.old.schema set.old.view (SegmentItem name bytes.now) result set.new.view }
    ensures schema { set.new.schema ≡ set.old.schema }
{
    match set.take(name, bytes) {
        Ok(word) => Reply::Taken(word),
        Err(SegmentFault::NoMemory) => Reply::NoMemory,
        Err(fault) => Reply::Refused(fault),
    }
}

// Retires the name of a message.
#[tactic(auto, using(crate::proofs::Lacking::err_needs, crate::proofs::Lacking::on_err_needs))]
fn retire_message(set: &mut SegmentSet, name: Name) -> Reply
    ensures told { IsTold set.old.schema set.old.view (RetirementItem name) result set.new.view }
    ensures schema { set.new.schema ≡ set.old.schema }
{
    match set.retire(name) {
        Ok(word) => Reply::Retired(word),
        Err(_) => Reply::NoMemory,
    }
}

// Retires all names up to that of a message.
#[tactic(auto, using(crate::proofs::Lacking::err_needs, crate::proofs::Lacking::on_err_needs))]
fn floor_message(set: &mut SegmentSet, name: Name) -> Reply
    ensures told { IsTold set.old.schema set.old.view (FloorItem name) result set.new.view }
    ensures schema { set.new.schema ≡ set.old.schema }
{
    match set.retire_to(name) {
        Ok(word) => Reply::Retired(word),
        Err(_) => Reply::NoMemory,
    }
}

impl Node {
    /// A node that knows nothing. It takes no memory. It makes the cells of a segment as it takes it, for queries that are to come.
    pub fn new(alloc: Global, schema: Schema) -> Node
        ensures { result ≡ fresh_node schema map.empty }
    {
        Node {
            alloc,
            set: SegmentSet::new(alloc, schema),
            inbox: Inbox::new(alloc),
        }
    }

    /// The same, but it judges what it takes, and makes no cells before it is asked.
    pub fn lazy(alloc: Global, schema: Schema) -> Node
        ensures { result ≡ fresh_node schema map.empty }
    {
        Node {
            alloc,
            set: SegmentSet::lazy(alloc, schema),
            inbox: Inbox::new(alloc),
        }
    }

    /// The declaration of the node's table.
    pub fn schema(&self) -> &Schema
        ensures { result.now ≡ self.now.schema }
    {
        self.set.schema()
    }

    /// Takes a segment, as `SegmentSet::take` does. One that is live with these bytes needs no memory, nor do bytes that are too long.
    #[tactic(auto, using(crate::proofs::Lacking::err_needs, crate::proofs::Lacking::on_err_needs))]
    pub fn take(&mut self, name: Name, bytes: &[u8]) -> Result<Taken, TakeError>
        ensures word { IfOk result (λ word. word ≡ taken_word (known_in self.old.view name) bytes.now) }
        ensures ok { OnOk result (self.new ≡ record self.old { view = join self.old.view (view_of_item (SegmentItem name bytes.now)) }) }
        ensures read { OnOk result (IsOk (rows_of self.old.schema bytes.now)) }
        ensures refused { IfErr result (λ fault. Fails fault (rows_of self.old.schema bytes.now)) }
        ensures err { OnErr result (self.new ≡ self.old) }
        ensures lacks { OnErr result (MayNeedMemory self.old.view (SegmentItem name bytes.now)) }
        ensures long { 67108864 < length bytes.now → result ≡ Err SegmentFault.TooLong }
    {
        self.set.take(name, bytes)
    }

    /// Takes a segment of which the bytes were judged by the node's declaration, as `SegmentSet::take_judged` does. One that is live
    /// with these bytes needs no memory.
    #[tactic(auto, using(crate::proofs::Lacking::err_needs, crate::proofs::Lacking::on_err_needs))]
    pub fn take_judged(&mut self, name: Name, judged: &Rc<Judged>) -> Result<Taken, AllocError>
        requires { IsReadBy self.old.schema judged.now.value }
        ensures word { IfOk result (λ word. word ≡ taken_word (known_in self.old.view name) judged.now.value.bytes) }
        ensures ok { OnOk result (self.new ≡ record self.old {
          view =
              join self.old.view (view_of_item (SegmentItem name judged.now.value.bytes));
        }) }
        ensures err { OnErr result (self.new ≡ self.old) }
        ensures lacks { OnErr result (MayNeedMemory self.old.view (SegmentItem name judged.now.value.bytes)) }
    {
        self.set.take_judged(name, judged)
    }

    /// Retires a name, as `SegmentSet::retire` does. One that is retired needs no memory.
    #[tactic(auto, using(crate::proofs::Lacking::err_needs, crate::proofs::Lacking::on_err_needs))]
    pub fn retire(&mut self, name: Name) -> Result<Retired, AllocError>
        ensures word { IfOk result (λ word. word ≡ retired_word (known_in self.old.view name)) }
        ensures ok { OnOk result (self.new ≡ record self.old { view = join self.old.view (view_of_item (RetirementItem name)) }) }
        ensures err { OnErr result (self.new ≡ self.old) }
        ensures lacks { OnErr result (MayNeedMemory self.old.view (RetirementItem name)) }
    {
        self.set.retire(name)
    }

    /// Retires all names of an origin up to this one, as `SegmentSet::retire_to` does. A floor that does not rise needs
    /// no memory.
    #[tactic(auto, using(crate::proofs::Lacking::err_needs, crate::proofs::Lacking::on_err_needs))]
    pub fn retire_to(&mut self, name: Name) -> Result<Retired, AllocError>
        ensures word { IfOk result (λ word. word ≡ floor_word self.old.view name) }
        ensures ok { OnOk result (self.new ≡ record self.old { view = join self.old.view (view_of_item (FloorItem name)) }) }
        ensures err { OnErr result (self.new ≡ self.old) }
        ensures lacks { OnErr result (MayNeedMemory self.old.view (FloorItem name)) }
    {
        self.set.retire_to(name)
    }

    /// The exchange file of what the node knows.
    pub fn put(&self) -> Result<Vec<u8>, AllocError>
        ensures { IfOk result (λ bytes. bytes.items ≡ file_of self.now.schema self.now.view) }
    {
        self.put_over(&Hashed::bare(&[]))
    }

    /// The same, that is to stand in place of old bytes. What of their beginning stands in it too is compared, and not hashed again. Room
    /// is made for as many bytes before, which is a matter of memory alone.
    pub fn put_over(&self, old: &Hashed<'_>) -> Result<Vec<u8>, AllocError>
        ensures { IfOk result (λ bytes. bytes.items ≡ file_of self.now.schema self.now.view) }
    {
        let mut room = Vec::new(self.alloc);
        let _ = room.reserve(old.bytes().len());
        let mut output = Counted::new(room);
        match write_over(&self.set, &mut output, old) {
            Ok(()) => Ok(output.into_inner()),
            Err(_) => Err(AllocError),
        }
    }

    /// Learns all that an exchange file tells. A segment that the node has live with these bytes is compared, and not
    /// read again. Where the bytes are no such file of the node's table, or memory runs out, the node is as it was.
    pub fn get(&mut self, bytes: &[u8]) -> Result<(), FileFault>
        ensures ok { OnOk result (LearnsFile self.old bytes.now self.new) }
        ensures refused { IfErr result (λ fault. IsFault self.old.schema bytes.now fault) }
        ensures err { OnErr result (self.new ≡ self.old) }
    {
        self.get_hashed(&Hashed::bare(bytes))
    }

    /// The same, where the bytes are hashed.
    pub fn get_hashed(&mut self, bytes: &Hashed<'_>) -> Result<(), FileFault>
        ensures ok { OnOk result (LearnsFile self.old bytes.now self.new) }
        ensures refused { IfErr result (λ fault. IsFault self.old.schema bytes.now fault) }
        ensures err { OnErr result (self.new ≡ self.old) }
    {
        match read_beside(self.alloc, &self.set, bytes) {
            Ok(set) => match self.set.join(&set) {
                Ok(()) => Ok(()),
                // The file is of the node's table, so that a join fails for want of memory alone.
                Err(_) => Err(FileFault::NoMemory),
            },
            Err(fault) => Err(fault),
        }
    }

    /// Adds a piece at the end of the node's delivery stream. Where the stream was found bad, or memory runs out, the
    /// piece does not enter it.
    pub fn feed(&mut self, piece: &[u8]) -> Result<(), PushFault>
        ensures ok { OnOk result (self.new ≡ record self.old { held = self.old.held ++ piece.now }) }
        ensures good { OnOk result (self.old.is_bad ≡ false) }
        ensures bad { result ≡ Err PushFault.Bad → self.old.is_bad ≡ true }
        ensures stays_bad { self.old.is_bad ≡ true → result ≡ Err PushFault.Bad }
        ensures err { OnErr result (self.new ≡ self.old) }
    {
        self.inbox.push(piece)
    }

    /// How many bytes of the stream are held: those behind the last message that was handled.
    pub fn pending(&self) -> usize
        ensures { result ≡ length self.now.held }
    {
        self.inbox.pending()
    }

    /// Handles the next message of the stream, if it is whole: takes the segment, or retires the name, or all names
    /// up to it. Where no message can stand there the stream is bad, and stays so.
    pub fn next_reply(&mut self) -> Result<Option<Reply>, BadStream>
        ensures { NextReply self.old result self.new }
    {
        match self.inbox.next() {
            Err(fault) => Err(fault),
            Ok(None) => Ok(None),
            Ok(Some(Message::Take(name, bytes))) => {
                Ok(Some(take_message(&mut self.set, *name, bytes)))
            }
            Ok(Some(Message::Retire(name))) => Ok(Some(retire_message(&mut self.set, *name))),
            Ok(Some(Message::RetireTo(name))) => Ok(Some(floor_message(&mut self.set, *name))),
        }
    }

    /// Each floor, and each name above it that is not unknown, in the order of names.
    pub fn list(&self) -> Result<Vec<Listed>, AllocError>
        ensures { IfOk result (λ all. all.items ≡ list_map (listed self.now.schema) (map.entries self.now.view)) }
    {
        self.set.list()
    }

    /// The bytes of the answer to a query, or why there is none. What the node knows stays as it is; cells of its segments are made
    /// where they are missing.
    pub fn ask(&mut self, text: &[u8]) -> Result<Vec<u8>, AskFault>
        ensures answer { MatchResult result
            (λ bytes. IsAnswer self.old.schema self.old.view text.now (Ok bytes.items))
            (λ fault. (fault ≡ AskFault.NoMemory) ⊎ IsAnswer self.old.schema self.old.view text.now (Err fault)) }
        ensures lacks { result ≡ Err AskFault.NoMemory → IsText text.now }
        ensures same { self.new ≡ self.old }
    {
        ask(self.alloc, &mut self.set, text)
    }
}
