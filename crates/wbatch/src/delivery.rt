//! What a message of a delivery stream delivers.
ghost use Rattle.std.specs.Prelude.{◌≡◌, IfOk, IfErr};
ghost use Rattle.wvalues.specs.Names.{NameParts};
ghost use Rattle.wset.specs.Items.{SegmentItem};
ghost use Rattle.wentries.specs.Holding.{IsReadBy};
ghost use Rattle.wstream.specs.Messages.{IsMessage};
ghost use Rattle.wstream.specs.Inboxes as messages;
ghost use Rattle.wbatch.specs.Deliveries.{IsReady, IsRefused, item_of};

use crate::stop::Stop;
use std::alloc::Global;
use std::rc::Rc;
use wsegment::{Judged, Schema, SegmentFault};
use wstream::Message;
use wvalues::Name;

/// What a message of a delivery stream delivers.
#[derive(Drop)]
pub enum Delivery {
    /// This segment is a content of the name.
    Segment(Name, Rc<Judged>),
    /// The name is retired.
    Retirement(Name),
    /// All names of its origin up to this one are retired.
    Floor(Name),
}

// A segment's bytes, judged by the declaration.
fn judge(alloc: Global, schema: &Schema, bytes: &[u8]) -> Result<Judged, Stop>
    ensures read { IfOk result (λ judged. IsReadBy schema.now judged) }
    ensures bytes { IfOk result (λ judged. judged.bytes ≡ bytes.now) }
    ensures refused { (name : NameParts) → IfErr result (λ reason. IsRefused schema.now (SegmentItem name bytes.now) reason) }
{
    match Judged::read(alloc, schema, bytes) {
        Ok(judged) => Ok(judged),
        Err(SegmentFault::NoMemory) => Err(Stop::NoMemory),
        Err(fault) => Err(Stop::Segment(fault)),
    }
}

// What the segment of a message delivers.
fn segment_delivered(
    alloc: Global,
    schema: &Schema,
    name: Name,
    bytes: &[u8],
) -> Result<Delivery, Stop>
    requires { IsMessage (SegmentItem name bytes.now) }
    ensures item { IfOk result (λ delivery. item_of delivery ≡ SegmentItem name bytes.now) }
    ensures ready { IfOk result (λ delivery. IsReady schema.now delivery) }
    ensures refused { IfErr result (λ reason. IsRefused schema.now (SegmentItem name bytes.now) reason) }
{
    let judged = match judge(alloc, schema, bytes) {
        Ok(judged) => judged,
        Err(reason) => return Err(reason),
    };
    match Rc::new(alloc, judged) {
        Ok(shared) => Ok(Delivery::Segment(name, shared)),
        Err(_) => Err(Stop::NoMemory),
    }
}

/// What a message delivers, where a segment is one that the declaration reads.
pub(crate) fn delivered(
    alloc: Global,
    schema: &Schema,
    message: Message<'_>,
) -> Result<Delivery, Stop>
    requires { IsMessage (messages.item_of message) }
    ensures item { IfOk result (λ delivery. item_of delivery ≡ messages.item_of message.entry) }
    ensures ready { IfOk result (λ delivery. IsReady schema.now delivery) }
    ensures refused { IfErr result (λ reason. IsRefused schema.now (messages.item_of message.entry) reason) }
{
    match message {
        Message::Take(name, bytes) => segment_delivered(alloc, schema, *name, bytes),
        Message::Retire(name) => Ok(Delivery::Retirement(*name)),
        Message::RetireTo(name) => Ok(Delivery::Floor(*name)),
    }
}
