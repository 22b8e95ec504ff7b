//! What a subcommand gives.
ghost use Rattle.std.specs.Prelude.{◌≡◌, IfOk, option_map};
ghost use Rattle.wexchange.specs.Files.{file_of};
ghost use Rattle.wreplies.specs.Texts.{bytes_of};
ghost use Rattle.wact.specs.Outcomes.{Becomes, IsAnswered, IsRefused, IsReplied, IsStored};

use std::alloc::AllocError;
use wexchange::Hashed;
use wreplies::Text;
use wstore::Node;

/// The status of what was done.
pub const DONE: u8 = 0;

/// The status of a refusal.
pub const REFUSED: u8 = 1;

/// What a subcommand gives.
#[derive(Drop)]
pub struct Acted {
    /// What is printed to standard output.
    pub output: Text,
    /// The exit status: `DONE` or `REFUSED`.
    pub status: u8,
    /// The bytes of the store from now on, where they are other than those that it had.
    pub store: Option<Vec<u8>>,
}

/// A refusal: this is printed, with status 1, and there is no new store.
pub fn refused(output: Text) -> Acted
    ensures { IsRefused result (bytes_of output) }
{
    Acted {
        output,
        status: REFUSED,
        store: None,
    }
}

/// What is told of a store that stays as it is.
pub(crate) fn answered(output: Text) -> Acted
    ensures { IsAnswered result (bytes_of output) }
{
    Acted {
        output,
        status: DONE,
        store: None,
    }
}

// The new bytes, where the old ones are others.
fn changed(old: &Option<Hashed<'_>>, new: Vec<u8>) -> Option<Vec<u8>>
    ensures { Becomes old.now new.items (option_map (λ bytes. bytes.items) result) }
{
    let Some(hashed) = old else {
        return Some(new);
    };
    if hashed.bytes() == new.as_slice() {
        return None;
    }
    Some(new)
}

// The file of what the node knows, which is to stand in place of the old bytes.
fn put(node: &Node, old: &Option<Hashed<'_>>) -> Result<Vec<u8>, AllocError>
    ensures { IfOk result (λ bytes. bytes.items ≡ file_of node.now.schema node.now.view) }
{
    match old {
        Some(hashed) => node.put_over(hashed),
        None => node.put(),
    }
}

/// What is told of queries, with the status of a refusal where one of them is refused.
pub(crate) fn replied(output: Text, is_refused: bool) -> Acted
    ensures { IsReplied result (bytes_of output) is_refused }
{
    Acted {
        output,
        status: if is_refused { REFUSED } else { DONE },
        store: None,
    }
}

/// What is told, with the store that knows what the node does, where the old one has other bytes.
pub(crate) fn stored(
    node: &Node,
    old: &Option<Hashed<'_>>,
    output: Text,
) -> Result<Acted, AllocError>
    ensures { IfOk result (λ acted. IsStored node.now.schema node.now.view old.now acted (bytes_of output)) }
{
    let new = put(node, old)?;
    Ok(Acted {
        output,
        status: DONE,
        store: changed(old, new),
    })
}
