//! Commands, as they are read.
use crate::numbers::{NodeNumber, SlotNumber};
use wvalues::{Name, NameFault};

/// Why the form of a command refuses it, whatever a node knows.
#[derive(Clone, Copy, Debug)]
pub enum Refusal {
    /// A declaration over 65,536 bytes. It was dropped.
    LongDeclaration,
    /// The words of the name spell none. A body was dropped.
    BadName(NameFault),
    /// A segment over 67,108,864 bytes. It was dropped.
    LongSegment,
    /// A query over 65,536 bytes. It was dropped.
    LongQuery,
}

/// What a node is told, asked, puts or gets, with its body.
#[derive(Drop)]
pub enum Order {
    /// Takes the bytes of a segment under a name.
    Take(Name, Vec<u8>),
    /// Retires a name.
    Retire(Name),
    /// Retires all names of an origin up to one.
    RetireTo(Name),
    /// Lists what is known.
    List,
    /// Answers the text of a query.
    Ask(Vec<u8>),
    /// Puts the node's exchange file into a slot.
    Put(SlotNumber),
    /// Joins the exchange file in a slot into the node.
    Get(SlotNumber),
}

/// A command.
#[derive(Drop)]
pub enum Command {
    /// Declares the table by the text of its declaration.
    Declare(Vec<u8>),
    /// One that its form refuses.
    Refused(Refusal),
    /// What a node is to do.
    At(NodeNumber, Order),
    /// A piece of a node's delivery stream.
    Feed(NodeNumber, Vec<u8>),
}

/// What was found behind a header line.
#[derive(Drop)]
pub enum Found {
    /// The form has no body.
    Nothing,
    /// A body, which is kept.
    Kept(Vec<u8>),
    /// A body over its limit, or under words that spell no name.
    Dropped,
    /// A body that is to be kept, found no memory and was dropped.
    NoMemory,
}

/// What stands next in a script.
#[derive(Drop)]
pub enum Request {
    /// A command, with its body.
    Whole(Command),
    /// A command, not a declaration, whose body is within its limit, found no memory and was dropped.
    NoMemory,
    /// A declaration within its limit that found no memory and was dropped.
    NoRoom,
    /// The end of the input.
    Closed,
    /// No command: the run ends here.
    Malformed,
}
