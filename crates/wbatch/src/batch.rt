//! Deliveries in order, made from a stream that comes in blocks.
ghost use Rattle.std.specs.Prelude.{◌≡◌, ◌⊎◌, ◌++◌, [], true, false, None, Some, Err, IfOk, IfErr, OnOk, OnErr, length, map};
ghost use Rattle.std.specs.List.{AllByRecursion};
ghost use Rattle.wstream.specs.Messages.{IsOpen};
ghost use Rattle.wbatch.specs.Batches.{ended, stream_of};
ghost use Rattle.wbatch.specs.Deliveries.{Adds, AddsAll, IsNext, IsReady, StopsBehind, StopsNext, item_of};
ghost use Rattle.wbatch.specs.declared.stop.Stop.{Stop};
ghost use Rattle.wbatch.specs.Streams.{IsDelivered, IsUndelivered, Stops, stream_text};

use crate::delivery::{Delivery, delivered};
use crate::stop::Stop;
use crate::stopped_at::{Place, Stands};
use std::alloc::Global;
use std::marker::Model;
use wsegment::Schema;
use wstream::{Inbox, Message};

/// The deliveries of a stream, in order, and the bytes behind the last message that was whole. Contracts see it as the
/// declaration, the items that are delivered, these bytes, and why no more come, if none do.
#[derive(Drop)]
pub struct Batch {
    alloc: Global,
    schema: Schema,
    deliveries: Vec<Delivery>,
    inbox: Inbox,
    /// How many bytes of the stream have come, which is for people alone.
    bytes: u64,
    stopped: Option<Stop>,
}

impl Model for Batch {
    ghost use Rattle.std.specs.Prelude.{map};
    ghost use Rattle.wbatch.specs.Batches.{CanBeDelivered, Filled};
    ghost use Rattle.wbatch.specs.Deliveries.{item_of};

    ghost Value = { Filled };

    ghost view = { λ b. record { schema = b.schema; items = map item_of b.deliveries.items; held = b.inbox.held; stopped = b.stopped } };

    ghost invariant = { λ b. CanBeDelivered b.schema b.deliveries.items b.inbox b.stopped };
}

// What the next message delivers, if it is whole.
fn next_delivery(
    alloc: Global,
    schema: &Schema,
    inbox: &mut Inbox,
) -> Result<Option<Delivery>, Stop>
    ensures { IsNext schema.now inbox.old result inbox.new }
{
    match inbox.next() {
        Err(_) => Err(Stop::Bad),
        Ok(None) => Ok(None),
        Ok(Some(message)) => match delivered(alloc, schema, message) {
            Ok(delivery) => Ok(Some(delivery)),
            Err(reason) => Err(reason),
        },
    }
}

// Adds what the next message delivers, if it is whole. It answers whether none is.
fn add_next(
    alloc: Global,
    schema: &Schema,
    inbox: &mut Inbox,
    deliveries: &mut Vec<Delivery>,
) -> Result<bool, Stop>
    requires good { inbox.old.is_bad ≡ false }
    requires ready { AllByRecursion (IsReady schema.now) deliveries.old.items }
    ensures more { IfOk result (λ is_end. is_end ≡ false → Adds schema.now deliveries.old.items inbox.old deliveries.new.items inbox.new) }
    ensures end { IfOk result (λ is_end. is_end ≡ true → IsOpen inbox.old.held × (inbox.new.held ≡ inbox.old.held)
        × (inbox.new.is_bad ≡ false) × (deliveries.new ≡ deliveries.old)) }
    ensures stops { IfErr result (Stops schema.now (stream_text (map item_of deliveries.old.items) inbox.old.held)) }
    ensures left { OnErr result (deliveries.new.items ≡ deliveries.old.items) }
    ensures next { IfErr result (StopsNext schema.now inbox.old.held) }
    ensures ready { AllByRecursion (IsReady schema.now) deliveries.new.items }
{
    let delivery = match next_delivery(alloc, schema, inbox) {
        Ok(Some(delivery)) => delivery,
        Ok(None) => return Ok(true),
        Err(reason) => return Err(reason),
    };
    match deliveries.push(delivery) {
        Ok(()) => Ok(false),
        Err(_) => Err(Stop::NoMemory),
    }
}

// Adds what the messages deliver that are whole.
fn add_whole(
    alloc: Global,
    schema: &Schema,
    inbox: &mut Inbox,
    deliveries: &mut Vec<Delivery>,
) -> Result<(), Stop>
    requires good { inbox.old.is_bad ≡ false }
    requires ready { AllByRecursion (IsReady schema.now) deliveries.old.items }
    ensures ok { OnOk result (AddsAll schema.now deliveries.old.items inbox.old deliveries.new.items inbox.new) }
    ensures stops { IfErr result (Stops schema.now (stream_text (map item_of deliveries.old.items) inbox.old.held)) }
    ensures front { IfErr result (StopsBehind schema.now (map item_of deliveries.new.items)
        (stream_text (map item_of deliveries.old.items) inbox.old.held)) }
    ensures ready { AllByRecursion (IsReady schema.now) deliveries.new.items }
{
    'messages: loop {
        let is_end = match add_next(alloc, schema, inbox, deliveries) {
            Ok(is_end) => is_end,
            Err(reason) => return Err(reason),
        };
        if is_end {
            return Ok(());
        }
    }
}

// Takes the next bytes of a stream, and adds what the messages deliver that are whole then.
fn add_block(
    alloc: Global,
    schema: &Schema,
    inbox: &mut Inbox,
    deliveries: &mut Vec<Delivery>,
    block: &[u8],
) -> Result<(), Stop>
    requires good { inbox.old.is_bad ≡ false }
    requires ready { AllByRecursion (IsReady schema.now) deliveries.old.items }
    ensures ready { AllByRecursion (IsReady schema.now) deliveries.new.items }
    ensures same { OnOk result (stream_text (map item_of deliveries.new.items) inbox.new.held
        ≡ stream_text (map item_of deliveries.old.items) inbox.old.held ++ block.now) }
    ensures unfinished { OnOk result (IsOpen inbox.new.held) }
    ensures good { OnOk result (inbox.new.is_bad ≡ false) }
    ensures stops { IfErr result (Stops schema.now (stream_text (map item_of deliveries.old.items) inbox.old.held ++ block.now)) }
    ensures front { IfErr result (StopsBehind schema.now (map item_of deliveries.new.items)
        (stream_text (map item_of deliveries.old.items) inbox.old.held ++ block.now)) }
{
    match inbox.push(block) {
        Ok(()) => add_whole(alloc, schema, inbox, deliveries),
        Err(_) => Err(Stop::NoMemory),
    }
}

impl Batch {
    /// A batch of a stream of which nothing has come, whose segments are judged by this declaration. It takes no memory.
    pub fn new(alloc: Global, schema: Schema) -> Batch
        ensures { result ≡ record { schema = schema; items = []; held = []; stopped = None } }
    {
        Batch {
            alloc,
            schema,
            deliveries: Vec::new(alloc),
            inbox: Inbox::new(alloc),
            bytes: 0,
            stopped: None,
        }
    }

    /// Adds the next bytes of the stream: what its messages deliver that are whole then. It stops at the first message that
    /// cannot be delivered, at bytes that no message begins with, and where a growth is refused; it answers that from then on, and
    /// has the items of the messages before.
    pub fn push(&mut self, block: &[u8]) -> Result<(), Stop>
        ensures schema { self.new.schema ≡ self.old.schema }
        ensures stream { OnOk result (stream_of self.new ≡ stream_of self.old ++ block.now) }
        ensures goes_on { OnOk result ((self.old.stopped ≡ None) × (self.new.stopped ≡ None)) }
        ensures stops { IfErr result (λ reason. (self.old.stopped ≡ Some reason)
            ⊎ Stops self.old.schema (stream_of self.old ++ block.now) reason) }
        ensures front { self.old.stopped ≡ None
            → IfErr result (StopsBehind self.old.schema self.new.items (stream_of self.old ++ block.now)) }
        ensures stopped { IfErr result (λ reason. self.new.stopped ≡ Some reason) }
        ensures stays { (reason : Stop) → self.old.stopped ≡ Some reason → (result ≡ Err reason) × (self.new ≡ self.old) }
    {
        if let Some(reason) = self.stopped {
            return Err(reason);
        }
        self.bytes = self.bytes.saturating_add(block.len() as u64);
        match add_block(
            self.alloc,
            &self.schema,
            &mut self.inbox,
            &mut self.deliveries,
            block,
        ) {
            Ok(()) => Ok(()),
            Err(reason) => {
                self.stopped = Some(reason);
                Err(reason)
            }
        }
    }

    /// Whether the stream may end here: all its messages can be delivered, and it ends behind the last of them. Where it does not,
    /// it is why it stopped, or `Bad`.
    pub fn end(&self) -> Result<(), Stop>
        ensures ended { result ≡ ended self.now.stopped self.now.held }
        ensures whole { OnOk result (self.now.held ≡ []) }
        ensures goes_on { OnOk result (self.now.stopped ≡ None) }
        ensures stops { IfErr result (λ reason. (self.now.stopped ≡ Some reason)
            ⊎ IsUndelivered self.now.schema (stream_of self.now) reason) }
    {
        if let Some(reason) = self.stopped {
            return Err(reason);
        }
        if self.inbox.pending() > 0 {
            return Err(Stop::Bad);
        }
        Ok(())
    }

    /// What is delivered, in order.
    pub fn deliveries(&self) -> &[Delivery]
        ensures items { map item_of result.now ≡ self.now.items }
        ensures delivered { AllByRecursion (IsDelivered self.now.schema) self.now.items }
        ensures ready { AllByRecursion (IsReady self.now.schema) result.now }
    {
        self.deliveries.as_slice()
    }

    /// Where the stream stopped, or where it ends inside a message.
    pub fn place(&self) -> Place<'_> {
        let rest = self.inbox.rest();
        let stands = match self.inbox.handed() {
            Ok(Some(Message::Take(name, bytes))) => Stands::Segment(name, bytes),
            _ => Stands::Rest(rest),
        };
        Place {
            messages: self.deliveries.len(),
            bytes: self.bytes.saturating_sub(rest.len() as u64),
            stands,
        }
    }
}
