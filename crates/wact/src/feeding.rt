//! Feeds a store the deliveries of a stream.
ghost use Rattle.std.specs.Prelude.{◌≡◌, ◌++◌, ◌∷◌, [], None, Ok, false, map, IfErr, IfOk, OnErr, OnOk};
ghost use Rattle.std.specs.List.{AllByRecursion};
ghost use Rattle.wsegment.specs.Spelling.{ReadsDeclaration};
ghost use Rattle.wset.specs.Items.{SegmentItem, view_of_item};
ghost use Rattle.wentries.specs.Holding.{IsReadBy};
ghost use Rattle.wset.specs.Views.{join, known_in};
ghost use Rattle.wset.specs.Words.{taken_word};
ghost use Rattle.wbatch.specs.Batches.{stream_of};
ghost use Rattle.wbatch.specs.Deliveries.{IsReady, item_of};
ghost use Rattle.wbatch.specs.Streams.{IsUndelivered};
ghost use Rattle.wcommand.specs.declared.choice.Choice.{Choice};
ghost use Rattle.wstore.specs.Replies.{fed_text};
ghost use Rattle.wact.specs.Acts.{Acts};
ghost use Rattle.wact.specs.Delivering.{Delivers, IsFeed, IsRefusedSo, MayLackSo};
ghost use Rattle.wact.specs.Streams.{Feeds, delivered_view};

use crate::acted::{Acted, refused, stored};
use crate::opening::{Opened, Purpose, open_store};
use itoa::Buffer;
use std::alloc::{AllocError, Global};
use wbatch::{Batch, Delivery, Stop};
use wexchange::Hashed;
use wreplies::{Text, refused_segment, retired, taken};
use wstore::Node;

// Delivers an item. It answers the line of what it is told.
#[tactic(auto, using(crate::proofs::Delivering::delivers_one))]
fn deliver(node: &mut Node, delivery: &Delivery) -> Result<&'static [u8], AllocError>
    requires { IsReady node.old.schema delivery.now }
    ensures { IfOk result (λ line. Delivers (item_of delivery.now ∷ []) node.old node.new [] line.now) }
{
    match delivery {
        Delivery::Segment(name, judged) => {
            let word = node.take_judged(*name, judged)?;
            Ok(taken(word))
        }
        Delivery::Retirement(name) => {
            let word = node.retire(*name)?;
            Ok(retired(word))
        }
        Delivery::Floor(name) => {
            let word = node.retire_to(*name)?;
            Ok(retired(word))
        }
    }
}

// Delivers an item, and adds its line.
#[tactic(auto, using(crate::proofs::Delivering::delivers_behind))]
fn deliver_next(node: &mut Node, delivery: &Delivery, text: &mut Vec<u8>) -> Result<(), AllocError>
    requires { IsReady node.old.schema delivery.now }
    ensures { OnOk result (Delivers (item_of delivery.now ∷ []) node.old node.new text.old.items text.new.items) }
{
    let line = deliver(node, delivery)?;
    text.extend_from_slice(line)
}

// Delivers items one after the other, and adds the line of each.
fn deliver_all(
    node: &mut Node,
    deliveries: &[Delivery],
    text: &mut Vec<u8>,
) -> Result<(), AllocError>
    requires { AllByRecursion (IsReady node.old.schema) deliveries.now }
    ensures { OnOk result (Delivers (map item_of deliveries.now) node.old node.new text.old.items text.new.items) }
{
    for delivery in deliveries {
        deliver_next(node, delivery, text)?;
    }
    Ok(())
}

// Adds the number of messages behind their lines.
fn add_count(text: &mut Vec<u8>, count: usize) -> Result<(), AllocError>
    ensures { OnOk result (text.new.items ≡ text.old.items ++ fed_text count false) }
{
    let mut buffer = Buffer::new();
    text.extend_from_slice(b"fed ")?;
    text.extend_from_slice(buffer.format(count).as_bytes())?;
    text.push(b'\n')?;
    Ok(())
}

/// What feeding a stream gives that is not delivered. Nothing of it is stored. `AllocError`: memory ran out while it was read, or a
/// growth was refused, as only a refusal with the number of a row may need one.
pub fn undelivered(alloc: Global, reason: Stop) -> Result<Acted, AllocError>
    ensures refused { IfOk result (IsRefusedSo reason) }
    ensures lacks { OnErr result (MayLackSo reason) }
{
    match reason {
        Stop::Segment(fault) => {
            let text = refused_segment(alloc, fault)?;
            Ok(refused(text))
        }
        Stop::Bad => Ok(refused(Text::Fixed(b"refused B1\n"))),
        Stop::NoMemory => Err(AllocError),
    }
}

/// What feeding a stream gives on a node that knows the store, which has these bytes, if it is there. The batch was filled from
/// the whole stream, under the declaration of the node, and has not stopped. `AllocError`: a growth was refused.
pub fn feed_node(
    alloc: Global,
    node: &mut Node,
    store: &Option<Hashed<'_>>,
    batch: &Batch,
) -> Result<Acted, AllocError>
    requires declared { batch.now.schema ≡ node.old.schema }
    requires goes_on { batch.now.stopped ≡ None }
    requires whole { batch.now.held ≡ [] }
    ensures feeds { IfOk result (λ acted. Feeds node.old.schema node.old.view store.now
        (stream_of batch.now) acted) }
    ensures knows { OnOk result ((node.new.schema ≡ node.old.schema)
        × (node.new.view ≡ delivered_view node.old.view batch.now.items)) }
{
    let deliveries = batch.deliveries();
    let mut text = Vec::new(alloc);
    deliver_all(node, deliveries, &mut text)?;
    add_count(&mut text, deliveries.len())?;
    stored(node, store, Text::Made(text))
}

/// What feeding a stream gives on the bytes of the table's file and of the store's, if there is one. The batch was filled from
/// the whole stream, under this table's declaration, and has not stopped. `AllocError`: a growth was refused.
pub fn feed_store(
    alloc: Global,
    table: &[u8],
    store: &Option<Hashed<'_>>,
    batch: &Batch,
) -> Result<Acted, AllocError>
    requires declared { ReadsDeclaration table.now (Ok batch.now.schema) }
    requires goes_on { batch.now.stopped ≡ None }
    requires whole { batch.now.held ≡ [] }
    ensures { IfOk result (λ acted. (choice : Choice) → IsFeed choice
        → Acts choice table.now store.now (stream_of batch.now) acted) }
{
    match open_store(alloc, table, store, Purpose::Telling)? {
        Opened::Node(mut node) => feed_node(alloc, &mut node, store, batch),
        Opened::Refused(text) => Ok(refused(text)),
    }
}

// Fills a batch from a whole stream.
fn fill(batch: &mut Batch, stream: &[u8]) -> Result<(), Stop>
    requires new { batch.old ≡ record { schema = batch.old.schema; items = []; held = []; stopped = None } }
    ensures schema { batch.new.schema ≡ batch.old.schema }
    ensures goes_on { OnOk result (batch.new.stopped ≡ None) }
    ensures whole { OnOk result (batch.new.held ≡ []) }
    ensures stream { OnOk result (stream_of batch.new ≡ stream.now) }
    ensures stops { IfErr result (IsUndelivered batch.old.schema stream.now) }
{
    match batch.push(stream) {
        Ok(()) => batch.end(),
        Err(reason) => Err(reason),
    }
}

/// Delivers all messages of a stream to a node, or tells the first of them that has a fault. Of a stream that is not
/// delivered whole, nothing is stored.
pub(crate) fn feed(
    alloc: Global,
    node: &mut Node,
    old: &Option<Hashed<'_>>,
    stream: &[u8],
) -> Result<Acted, AllocError>
    ensures { IfOk result (λ acted. Feeds node.old.schema node.old.view old.now stream.now acted) }
{
    let schema = node.schema().copy()?;
    let mut batch = Batch::new(alloc, schema);
    match fill(&mut batch, stream) {
        Ok(()) => feed_node(alloc, node, old, &batch),
        Err(reason) => undelivered(alloc, reason),
    }
}
