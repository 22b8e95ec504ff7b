//! Queries, answered one after the other.
ghost use Rattle.std.specs.Prelude.{◌≡◌, IfOk, OnErr, OnOk, map};
ghost use Rattle.wask.specs.Texts.{IsText};
ghost use Rattle.wact.specs.Queries.{Asks, IsReply, RepliesFollow, ReplyFollows};
ghost use Rattle.wreplies.specs.Texts.{bytes_of};

use crate::acted::{Acted, replied};
use std::alloc::{AllocError, Global};
use wreplies::{Text, refused_query};
use wstore::{AskFault, Node};

/// The reply to a query.
#[derive(Drop)]
pub struct QueryReply {
    /// The bytes of the answer alone, or the refusal.
    pub text: Text,
    /// Whether the query is refused.
    pub is_refused: bool,
}

/// Answers a query on what the node knows. `AllocError`: a growth was refused; never for a query that is too long or not UTF-8.
pub fn reply(alloc: Global, node: &mut Node, query: &[u8]) -> Result<QueryReply, AllocError>
    ensures replies { IfOk result (λ reply. IsReply node.old.schema node.old.view query.now (bytes_of reply.text) reply.is_refused) }
    ensures lacks { OnErr result (IsText query.now) }
    ensures same { node.new ≡ node.old }
{
    let (text, is_refused) = match node.ask(query) {
        Ok(answer) => (Text::Made(answer), false),
        Err(AskFault::NoMemory) => return Err(AllocError),
        Err(fault) => (refused_query(alloc, fault)?, true),
    };
    Ok(QueryReply { text, is_refused })
}

// The bytes of a text, behind which more can be added.
fn bytes(alloc: Global, text: Text) -> Result<Vec<u8>, AllocError>
    ensures { IfOk result (λ bytes. bytes.items ≡ bytes_of text) }
{
    match text {
        Text::Fixed(bytes) => Vec::from_slice(alloc, bytes),
        Text::Made(bytes) => Ok(bytes),
    }
}

// Adds the reply to a query, behind an empty line.
fn add_reply(
    alloc: Global,
    node: &mut Node,
    query: &str,
    output: &mut Vec<u8>,
    is_refused: &mut bool,
) -> Result<(), AllocError>
    ensures adds { OnOk result (ReplyFollows node.old.schema node.old.view query.now output.old.items output.new.items
        is_refused.old is_refused.new) }
    ensures same { node.new ≡ node.old }
{
    let answer = reply(alloc, node, query.as_bytes())?;
    output.push(b'\n')?;
    output.extend_from_slice(answer.text.as_slice())?;
    *is_refused = *is_refused || answer.is_refused;
    Ok(())
}

// Adds the reply to each of the queries.
fn add_replies(
    alloc: Global,
    node: &mut Node,
    queries: &[&str],
    output: &mut Vec<u8>,
    is_refused: &mut bool,
) -> Result<(), AllocError>
    ensures adds { OnOk result (RepliesFollow node.old.schema node.old.view (map (λ query. query.now) queries.now)
        output.old.items output.new.items is_refused.old is_refused.new) }
    ensures same { OnOk result (node.new ≡ node.old) }
{
    for query in queries {
        add_reply(alloc, node, query, output, is_refused)?;
    }
    Ok(())
}

/// Answers queries one after the other, whichever of them are refused.
pub(crate) fn ask(alloc: Global, node: &mut Node, queries: &[&str]) -> Result<Acted, AllocError>
    ensures { IfOk result (λ acted. Asks node.old.schema node.old.view (map (λ query. query.now) queries.now) acted) }
{
    let Some((first, others)) = queries.split_first() else {
        return Ok(replied(Text::Fixed(b""), false));
    };
    let answer = reply(alloc, node, first.as_bytes())?;
    let mut is_refused = answer.is_refused;
    let mut output = bytes(alloc, answer.text)?;
    add_replies(alloc, node, others, &mut output, &mut is_refused)?;
    Ok(replied(Text::Made(output), is_refused))
}
