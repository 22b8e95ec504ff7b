//! What is tried.

use crate::failure::Failure;
use std::alloc::Global;
use wframe::FrameExclusion;
use wvalues::Name;

/// A call on a set.
#[derive(Clone, Copy)]
pub enum SetCall {
    Take(Name),
    Retire(Name),
    RetireTo(Name),
    Dispute(Name),
    /// With what OTHER tells.
    Join,
    List,
    /// As a file.
    Write,
    /// TEXT, as a file.
    Read,
    /// TEXT, as a query that is resolved before.
    Execute,
    /// By each list of keys that TEXT spells, one after the other.
    Ordered,
}

/// A call on a node.
#[derive(Clone, Copy)]
pub enum NodeCall {
    List,
    Put,
    Get,
    Feed,
    NextReply,
    Ask,
}

/// What is folded over each frame.
#[derive(Clone, Copy)]
pub enum Aggregate {
    Count,
    Sum,
    Least,
    Greatest,
}

/// A function that tells a place or a number of each row.
#[derive(Clone, Copy)]
pub enum PlaceFunction {
    RowNumber,
    Rank,
    DenseRank,
    Ntile,
    Lag,
    Lead,
    FirstValue,
    LastValue,
    NthValue,
}

/// A call in which growths are refused.
#[derive(Clone, Copy)]
pub enum Call {
    Set(SetCall),
    Node(NodeCall),
    /// A piece is added to an inbox.
    Push,
    Folds(Aggregate, FrameExclusion),
    Places(PlaceFunction),
    /// The words of a command line choose a subcommand.
    Choose,
    /// And it is done on the bytes of its files.
    Act,
}

/// A call with the state on which it is made.
#[derive(Clone, Copy)]
pub struct Case<'a> {
    /// The last of the growths that are refused, each in a round of its own; 0 refuses none.
    pub rounds: u32,
    pub call: Call,
    /// The declaration of the table.
    pub table: &'a str,
    /// The exchange file of what is known.
    pub store: &'a str,
    /// What the delivery stream holds.
    pub stream: &'a str,
    /// The content, piece, file, query or lists of keys that the call is lent; of `choose` and `act` the words, one a line.
    pub text: &'a str,
    /// The bytes of the other file: a store that is joined, or those of CSV or OTHER.
    pub other: &'a str,
}

fn aggregate_of(word: &str) -> Result<Aggregate, Failure> {
    match word {
        "count" => Ok(Aggregate::Count),
        "sum" => Ok(Aggregate::Sum),
        "min" => Ok(Aggregate::Least),
        "max" => Ok(Aggregate::Greatest),
        _ => Err(Failure::Case),
    }
}

fn exclusion_of(word: &str) -> Result<FrameExclusion, Failure> {
    match word {
        "no-others" => Ok(FrameExclusion::NoOthers),
        "current-row" => Ok(FrameExclusion::CurrentRow),
        _ => Err(Failure::Case),
    }
}

fn place_function_of(word: &str) -> Result<PlaceFunction, Failure> {
    match word {
        "row_number" => Ok(PlaceFunction::RowNumber),
        "rank" => Ok(PlaceFunction::Rank),
        "dense_rank" => Ok(PlaceFunction::DenseRank),
        "ntile" => Ok(PlaceFunction::Ntile),
        "lag" => Ok(PlaceFunction::Lag),
        "lead" => Ok(PlaceFunction::Lead),
        "first_value" => Ok(PlaceFunction::FirstValue),
        "last_value" => Ok(PlaceFunction::LastValue),
        "nth_value" => Ok(PlaceFunction::NthValue),
        _ => Err(Failure::Case),
    }
}

// The call that a word tells by itself.
fn plain_call(word: &str) -> Result<Call, Failure> {
    match word {
        "join" => Ok(Call::Set(SetCall::Join)),
        "list" => Ok(Call::Set(SetCall::List)),
        "write" => Ok(Call::Set(SetCall::Write)),
        "read" => Ok(Call::Set(SetCall::Read)),
        "execute" => Ok(Call::Set(SetCall::Execute)),
        "ordered" => Ok(Call::Set(SetCall::Ordered)),
        "node-list" => Ok(Call::Node(NodeCall::List)),
        "put" => Ok(Call::Node(NodeCall::Put)),
        "get" => Ok(Call::Node(NodeCall::Get)),
        "feed" => Ok(Call::Node(NodeCall::Feed)),
        "next_reply" => Ok(Call::Node(NodeCall::NextReply)),
        "ask" => Ok(Call::Node(NodeCall::Ask)),
        "push" => Ok(Call::Push),
        "choose" => Ok(Call::Choose),
        "act" => Ok(Call::Act),
        _ => Err(Failure::Case),
    }
}

// The call on a name.
fn name_call(word: &str, name: Name) -> Result<Call, Failure> {
    match word {
        "take" => Ok(Call::Set(SetCall::Take(name))),
        "retire" => Ok(Call::Set(SetCall::Retire(name))),
        "retire_to" => Ok(Call::Set(SetCall::RetireTo(name))),
        "dispute" => Ok(Call::Set(SetCall::Dispute(name))),
        _ => Err(Failure::Case),
    }
}

// The call that words spell: a word alone, `folds AGGREGATE EXCLUSION`, or a word with the origin and number of a name.
fn call_of(alloc: Global, text: &str) -> Result<Call, Failure> {
    let words: Vec<&str> = text.split_whitespace().collect(alloc)?;
    match words.as_slice() {
        [word] => plain_call(word),
        ["places", function] => Ok(Call::Places(place_function_of(function)?)),
        ["frame_folds", aggregate, exclusion] => Ok(Call::Folds(
            aggregate_of(aggregate)?,
            exclusion_of(exclusion)?,
        )),
        [word, origin, number] => match Name::read(origin.as_bytes(), number.as_bytes()) {
            Ok(name) => name_call(word, name),
            Err(_) => Err(Failure::Case),
        },
        _ => Err(Failure::Case),
    }
}

impl<'a> Case<'a> {
    /// The case that paragraphs spell.
    pub fn read(alloc: Global, paragraphs: &'a [&'a str]) -> Result<Case<'a>, Failure> {
        let &[rounds, call, table, store, stream, text, other] = paragraphs else {
            return Err(Failure::Case);
        };
        let Ok(rounds) = rounds.parse::<u32>() else {
            return Err(Failure::Case);
        };
        let call = call_of(alloc, call)?;
        Ok(Case {
            rounds,
            call,
            table,
            store,
            stream,
            text,
            other,
        })
    }
}
