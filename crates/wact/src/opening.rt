//! The node of a table and a store.
ghost use Rattle.std.specs.Prelude.{◌≡◌, IfErr, IfOk, OnErr, option_map};
ghost use Rattle.std.specs.FinMap as map;
ghost use Rattle.wstore.specs.Nodes.{fresh_node};
ghost use Rattle.wact.specs.Acts.{HasFault, Knows, MayLackIn};
ghost use Rattle.wact.specs.Opening.{MayLackOpening, Opens, OpensBy};

use std::alloc::{AllocError, Global};
use wexchange::{FileFault, Hashed};
use wreplies::{Text, refused_file, refused_table};
use wsegment::{Schema, SchemaFault};
use wstore::Node;

/// What a table and a store open.
#[derive(Drop)]
pub enum Opened {
    /// A node that knows what the store does.
    Node(Node),
    /// The table or the store is refused.
    Refused(Text),
}

/// What a node is opened for. What it answers does not depend on that.
#[derive(Clone, Copy, Debug, PartialEq, Eq)]
pub enum Purpose {
    /// Queries are asked of it, so the cells of a segment are made as it is read.
    Asking,
    /// It is told something, or lists what it knows, for which no cell is made.
    Telling,
}

/// The bytes of a store, hashed, if there is one.
pub fn hashed(store: Option<&[u8]>) -> Option<Hashed<'_>>
    ensures { result ≡ option_map (λ bytes. bytes.now) store.entry }
{
    match store {
        Some(bytes) => Some(Hashed::of(bytes)),
        None => None,
    }
}

// A node that knows nothing.
fn empty_node(alloc: Global, schema: Schema, purpose: Purpose) -> Node
    ensures { result ≡ fresh_node schema map.empty }
{
    match purpose {
        Purpose::Asking => Node::new(alloc, schema),
        Purpose::Telling => Node::lazy(alloc, schema),
    }
}

/// A node that knows what the store's file tells.
pub(crate) fn node_of(
    alloc: Global,
    schema: Schema,
    store: &Option<Hashed<'_>>,
    purpose: Purpose,
) -> Result<Node, FileFault>
    ensures declared { IfOk result (λ node. node.schema ≡ schema) }
    ensures known { IfOk result (λ node. Knows schema store.now node.view) }
    ensures refused { IfErr result (λ fault. HasFault schema store.now fault) }
{
    let mut node = empty_node(alloc, schema, purpose);
    match store {
        None => Ok(node),
        Some(bytes) => match node.get_hashed(bytes) {
            Ok(()) => Ok(node),
            Err(fault) => Err(fault),
        },
    }
}

// What a store opens where the table's declaration is read.
fn open_by(
    alloc: Global,
    schema: Schema,
    store: &Option<Hashed<'_>>,
    purpose: Purpose,
) -> Result<Opened, AllocError>
    ensures opens { IfOk result (λ opened. OpensBy schema store.now opened) }
    ensures lacks { OnErr result (MayLackIn schema store.now) }
{
    match node_of(alloc, schema, store, purpose) {
        Ok(node) => Ok(Opened::Node(node)),
        Err(FileFault::NoMemory) => Err(AllocError),
        Err(fault) => Ok(Opened::Refused(refused_file(alloc, fault)?)),
    }
}

/// Opens the table's declaration and, if there is one, the store's file. `Refused` has the refusal to print: of the declaration,
/// else of the store. `AllocError`: memory was refused while either was read or a refusal written; never for a declaration over
/// 65,536 bytes.
pub fn open_store(
    alloc: Global,
    table: &[u8],
    store: &Option<Hashed<'_>>,
    purpose: Purpose,
) -> Result<Opened, AllocError>
    ensures opens { IfOk result (λ opened. Opens table.now store.now opened) }
    ensures lacks { OnErr result (MayLackOpening table.now store.now) }
{
    match Schema::read(alloc, table) {
        Ok(schema) => open_by(alloc, schema, store, purpose),
        Err(SchemaFault::NoMemory) => Err(AllocError),
        Err(fault) => Ok(Opened::Refused(Text::Fixed(refused_table(fault)))),
    }
}
