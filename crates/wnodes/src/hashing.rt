//! What calls are hashed by.

ghost use Rattle.std.specs.Prelude.{◌≡◌};
ghost use Rattle.wquery.specs.Tree.{view, view_call};
ghost use Rattle.wnodes.specs.Nodes.{found};
ghost use Rattle.wnodes.specs.Children.{found_all, nodes_left};
ghost use Rattle.wnodes.specs.Heads.{said};
ghost use Rattle.wnodes.specs.Hashed.{written};
ghost use Rattle.wnodes.specs.Sketch.{behind, sketch_of, sketching};

use crate::children::Children;
use crate::head::Head;
use std::hash::{DefaultHasher, Hash, Hasher};
use wquery::{Call, Expression};

fn hash_head(state: &mut DefaultHasher, head: &Head)
    ensures { state.new ≡ behind (written (said head.now)) state.old }
{
    head.hash(state);
}

// A node, and then those below it.
#[cycle(sketching)]
fn hash_node(state: &mut DefaultHasher, e: &Expression)
    ensures { state.new ≡ found sketching (view e.now) state.old }
{
    hash_head(state, &Head::of(e));
    hash_beside(state, Children::below(e));
}

#[cycle(sketching)]
fn hash_beside(state: &mut DefaultHasher, nodes: Children)
    ensures { state.new ≡ found_all sketching (nodes_left nodes.entry) state.old }
{
    let mut rest = nodes;
    'nodes: while let Some(e) = rest.take_first() {
        hash_node(state, e);
    }
}

/// A number that equal calls share.
pub fn sketch(call: &Call) -> u64
    ensures { result ≡ sketch_of (view_call call.now) }
{
    let mut state = DefaultHasher::new();
    hash_head(&mut state, &Head::of_call(call));
    hash_beside(&mut state, Children::of_call(call));
    state.finish()
}
