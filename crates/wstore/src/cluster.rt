//! The nodes of a script, under one declaration.
ghost use Rattle.std.specs.Prelude.{◌≡◌, ◌≤◌, ℕ, List, [], Ok, Err, IsErr, true, length, replicate, IfOk, IfErr, OnOk, OnErr};
ghost use Rattle.wlines.specs.Pending.{IsSoundWriter};
ghost use Rattle.wlines.specs.Sent.{sent};
ghost use Rattle.std.specs.FinMap as map;
ghost use Rattle.wsegment.specs.Declaration.{Declaration};
ghost use Rattle.wvalues.specs.NameReading.{ReadsName};
ghost use Rattle.wscript.specs.Commands.{Command as Spelled, Take, Retire as Retiring, RetireTo as RetiringTo, Listing};
ghost use Rattle.wscript.specs.Commands.{Ask, Put, Get, longest_segment, longest_text, node_count, slot_count};
ghost use Rattle.wvalues.specs.Names.{NameParts};
ghost use Rattle.wset.specs.Items.{FloorItem, RetirementItem, view_of};
ghost use Rattle.wstore.specs.History.{MayNeedMemory, Step, is_put, known};
ghost use Rattle.wstore.specs.Nodes.{fresh_node};
ghost use Rattle.wstore.specs.Replies.{ask_text, get_text, take_text};
ghost use Rattle.wreplies.specs.Texts.{bytes_of};

use crate::feeding::feed_node;
use crate::node::Node;
use crate::script_run::RunFault;
use crate::slot::Slot;
use std::alloc::{AllocError, Global};
use std::io::Write;
use std::marker::Model;
use wexchange::FileFault;
use wlines::Outbox;
use wplanner::AskFault;
use wreplies::{Text, answer, names, refused_file, refused_query, refused_segment, retired, taken};
use wscript::{NODES, NodeNumber, Order, SLOTS, SlotNumber};
use wsegment::{Schema, SegmentFault};
use wset::{TakeError, Taken};
use wvalues::{Counted, Name};

/// The nodes and slots of a script. A slot holds the exchange file of what a node knew when it was put, or no bytes.
/// Contracts see them as what the nodes stand for, and the bytes of the slots.
#[derive(Drop)]
pub(crate) struct Cluster {
    alloc: Global,
    nodes: Vec<Node>,
    slots: Vec<Slot>,
}

impl Model for Cluster {
    ghost use Rattle.std.specs.Prelude.{◌≡◌, length};
    ghost use Rattle.wscript.specs.Commands.{node_count, slot_count};
    ghost use Rattle.wstore.specs.Standing.{Places, coded_places, places};

    ghost Value = { Places };

    ghost coded = { coded_places };

    ghost view = { λ c. places c.nodes.items c.slots.items };

    ghost invariant = { λ c. (length c.nodes.items ≡ node_count) × (length c.slots.items ≡ slot_count) };
}

// Nodes that know nothing.
fn new_nodes(alloc: Global, schema: &Schema) -> Result<Vec<Node>, AllocError>
    ensures { IfOk result (λ nodes. nodes.items ≡ replicate node_count (fresh_node schema.now map.empty)) }
{
    let mut nodes = Vec::new(alloc);
    for _ in 0..NODES {
        let copied = schema.copy()?;
        nodes.push(Node::new(alloc, copied))?;
    }
    Ok(nodes)
}

// Slots that hold no bytes.
fn empty_slots(alloc: Global) -> Result<Vec<Slot>, AllocError>
    ensures { IfOk result (λ slots. slots.items ≡ replicate slot_count []) }
{
    let mut slots = Vec::new(alloc);
    for _ in 0..SLOTS {
        slots.push(Slot::empty(alloc))?;
    }
    Ok(slots)
}

// What a take came to, as it is spelled. `AllocError`: a refusal found no memory.
fn take_text(alloc: Global, outcome: Result<Taken, TakeError>) -> Result<Text, AllocError>
    ensures text { IfOk result (λ text. bytes_of text ≡ take_text outcome) }
    ensures lacks { OnErr result (IsErr outcome) }
{
    match outcome {
        Ok(word) => Ok(Text::Fixed(taken(word))),
        Err(fault) => {
            let text = refused_segment(alloc, fault)?;
            Ok(text)
        }
    }
}

// What a query came to, as it is spelled.
fn ask_text(alloc: Global, outcome: Result<Vec<u8>, AskFault>) -> Result<Text, AllocError>
    ensures { IfOk result (λ text. bytes_of text ≡ ask_text outcome) }
{
    match outcome {
        Ok(bytes) => {
            let text = answer(alloc, &bytes)?;
            Ok(text)
        }
        Err(fault) => {
            let text = refused_query(alloc, fault)?;
            Ok(text)
        }
    }
}

// What reading a slot came to, as it is spelled. `AllocError`: the refusal of a segment found no memory.
fn get_text(alloc: Global, outcome: Result<(), FileFault>) -> Result<Text, AllocError>
    ensures text { IfOk result (λ text. bytes_of text ≡ get_text outcome) }
    ensures lacks { OnErr result ((refused : SegmentFault) × (outcome ≡ Err (FileFault.Segment refused))) }
{
    match outcome {
        Ok(()) => Ok(Text::Fixed(b"ok\n")),
        Err(fault) => {
            let text = refused_file(alloc, fault)?;
            Ok(text)
        }
    }
}

impl Cluster {
    ghost use Rattle.std.specs.Prelude.{◌+◌, ◌-◌, ◌<◌, slice_index_or};
    ghost use Rattle.wstore.specs.Standing.{StandAt, AnswersAs, places};
    ghost use Rattle.wscript.specs.Requests.{IsOrderAt};
    ghost use Rattle.wstore.specs.Feeding.{FedAs};
    ghost use Rattle.wstore.specs.Steps.{FedPart};

    /// Nodes that know nothing.
    pub(crate) fn new(alloc: Global, schema: &Schema) -> Result<Cluster, AllocError>
        ensures { IfOk result (λ c. c ≡ places (replicate node_count (fresh_node schema.now map.empty)) (replicate slot_count [])) }
    {
        let nodes = new_nodes(alloc, schema)?;
        let slots = empty_slots(alloc)?;
        Ok(Cluster {
            alloc,
            nodes,
            slots,
        })
    }

    // The node of a number.
    fn node(&self, number: NodeNumber) -> &Node
        ensures place { number - 1 + 1 ≡ number }
        ensures in_range { number - 1 < node_count }
        ensures node { result.now ≡ slice_index_or self.now.nodes (number - 1) result.now }
    {
        &self.nodes[number.place()]
    }

    /// Takes a segment at a node.
    pub(crate) fn take(
        &mut self,
        node: NodeNumber,
        name: Name,
        bytes: &[u8],
    ) -> Result<Text, AllocError>
        ensures answers { IfOk result (λ text. (d : Declaration) (h : List Step) (origin number : List ℕ)
            → length bytes.now ≤ longest_segment → ReadsName origin number (Ok name) → StandAt d self.old h
            → AnswersAs d self.new h (Take node origin number bytes.now) (bytes_of text)) }
        ensures err { OnErr result (self.new ≡ self.old) }
    {
        let place = node.place();
        let outcome = self.nodes[place].take(name, bytes);
        take_text(self.alloc, outcome)
    }

    /// Retires a name at a node.
    pub(crate) fn retire(&mut self, node: NodeNumber, name: Name) -> Result<Text, AllocError>
        ensures answers { IfOk result (λ text. (d : Declaration) (h : List Step) (origin number : List ℕ)
            → ReadsName origin number (Ok name) → StandAt d self.old h
            → AnswersAs d self.new h (Retiring node origin number) (bytes_of text)) }
        ensures err { OnErr result (self.new ≡ self.old) }
        ensures lacks { OnErr result ((d : Declaration) (h : List Step) → StandAt d self.old h
            → MayNeedMemory (view_of (known h node)) (RetirementItem name)) }
    {
        let place = node.place();
        let word = self.nodes[place].retire(name)?;
        Ok(Text::Fixed(retired(word)))
    }

    /// Retires all names up to one at a node.
    pub(crate) fn retire_to(&mut self, node: NodeNumber, name: Name) -> Result<Text, AllocError>
        ensures answers { IfOk result (λ text. (d : Declaration) (h : List Step) (origin number : List ℕ)
            → ReadsName origin number (Ok name) → StandAt d self.old h
            → AnswersAs d self.new h (RetiringTo node origin number) (bytes_of text)) }
        ensures err { OnErr result (self.new ≡ self.old) }
        ensures lacks { OnErr result ((d : Declaration) (h : List Step) → StandAt d self.old h
            → MayNeedMemory (view_of (known h node)) (FloorItem name)) }
    {
        let place = node.place();
        let word = self.nodes[place].retire_to(name)?;
        Ok(Text::Fixed(retired(word)))
    }

    /// Lists the names that a node knows.
    pub(crate) fn list(&self, node: NodeNumber) -> Result<Text, AllocError>
        ensures { IfOk result (λ text. (d : Declaration) (h : List Step) → StandAt d self.now h
            → AnswersAs d self.now h (Listing node) (bytes_of text)) }
    {
        let all = self.node(node).list()?;
        let text = names(self.alloc, &all)?;
        Ok(text)
    }

    /// Asks a node.
    pub(crate) fn ask(&mut self, node: NodeNumber, text: &[u8]) -> Result<Text, AllocError>
        ensures answers { IfOk result (λ reply. (d : Declaration) (h : List Step) → length text.now ≤ longest_text
            → StandAt d self.old h → AnswersAs d self.new h (Ask node text.now) (bytes_of reply)) }
        ensures same { self.new ≡ self.old }
    {
        let place = node.place();
        let outcome = self.nodes[place].ask(text);
        ask_text(self.alloc, outcome)
    }

    /// Puts the exchange file of what a node knows into a slot. Later steps of the node do not reach it.
    pub(crate) fn put(&mut self, node: NodeNumber, slot: SlotNumber) -> Result<Text, AllocError>
        ensures answers { IfOk result (λ text. (d : Declaration) (h : List Step) → StandAt d self.old h
            → AnswersAs d self.new h (Put node slot) (bytes_of text)) }
        ensures err { OnErr result (self.new ≡ self.old) }
    {
        let from = node.place();
        let to = slot.place();
        let bytes = self.nodes[from].put()?;
        self.slots[to] = Slot::new(bytes);
        Ok(Text::Fixed(b"ok\n"))
    }

    /// Joins what the file of a slot tells into a node, or refuses the slot's bytes. A slot that was not put needs no
    /// memory.
    pub(crate) fn get(&mut self, slot: SlotNumber, node: NodeNumber) -> Result<Text, AllocError>
        ensures answers { IfOk result (λ text. (d : Declaration) (h : List Step) → StandAt d self.old h
            → AnswersAs d self.new h (Get slot node) (bytes_of text)) }
        ensures err { OnErr result (self.new ≡ self.old) }
        ensures lacks { OnErr result ((d : Declaration) (h : List Step) → StandAt d self.old h → is_put h slot ≡ true) }
    {
        let from = slot.place();
        let to = node.place();
        let file = self.slots[from].as_slice();
        let outcome = self.nodes[to].get(file);
        get_text(self.alloc, outcome)
    }

    /// Feeds a node a piece of its delivery stream, and writes what its messages are told.
    pub(crate) fn feed<W: Write>(
        &mut self,
        outbox: &mut Outbox,
        output: &mut Counted<W>,
        node: NodeNumber,
        piece: &[u8],
    ) -> Result<(), RunFault>
        requires { IsSoundWriter output.old }
        ensures ok { OnOk result ((d : Declaration) (h : List Step) → StandAt d self.old h
            → FedAs d self.new h node piece.now (sent W.contents outbox.old output.old) (sent W.contents outbox.new output.new)) }
        ensures answered { OnOk result (outbox.new.is_answered ≡ true) }
        ensures sound { OnOk result (IsSoundWriter output.new) }
        ensures part { OnErr result ((d : Declaration) (h : List Step) → StandAt d self.old h
            → FedPart h node piece.now (sent W.contents outbox.old output.old) (sent W.contents outbox.new output.new)) }
        ensures fault { IfErr result (λ e. e ≡ RunFault.Write) }
        ensures cause { OnErr result (output.new.failures ≡ 1) }
    {
        let place = node.place();
        feed_node(self.alloc, outbox, output, &mut self.nodes[place], piece)
    }

    /// The reply of a node.
    pub(crate) fn answer(&mut self, node: NodeNumber, order: &Order) -> Result<Text, AllocError>
        ensures answers { IfOk result (λ text. (d : Declaration) (h : List Step) (c : Spelled) → IsOrderAt node order.now c
            → StandAt d self.old h → AnswersAs d self.new h c (bytes_of text)) }
        ensures err { OnErr result (self.new ≡ self.old) }
        ensures lacks { OnErr result ((slot : ℕ) (d : Declaration) (h : List Step) → order.now ≡ Order.Get slot
            → StandAt d self.old h → is_put h slot ≡ true) }
        ensures retires { OnErr result ((name : NameParts) (d : Declaration) (h : List Step) → order.now ≡ Order.Retire name
            → StandAt d self.old h → MayNeedMemory (view_of (known h node)) (RetirementItem name)) }
        ensures rises { OnErr result ((name : NameParts) (d : Declaration) (h : List Step) → order.now ≡ Order.RetireTo name
            → StandAt d self.old h → MayNeedMemory (view_of (known h node)) (FloorItem name)) }
    {
        match order {
            Order::Take(name, bytes) => self.take(node, *name, bytes),
            Order::Retire(name) => self.retire(node, *name),
            Order::RetireTo(name) => self.retire_to(node, *name),
            Order::List => self.list(node),
            Order::Ask(text) => self.ask(node, text),
            Order::Put(slot) => self.put(node, *slot),
            Order::Get(slot) => self.get(*slot, node),
        }
    }
}
