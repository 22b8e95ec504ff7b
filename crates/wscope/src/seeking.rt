//! Walks through the nodes of an expression.

ghost use Rattle.std.specs.Prelude.{◌≡◌};
ghost use Rattle.wquery.specs.Tree.{Tree, view, view_window, own_window};
ghost use Rattle.wscope.specs.Seeking.{seeking, some_node, some_below, some_reach};
ghost use Rattle.wnodes.specs.Children.{found_all, nodes_left};
ghost use Rattle.wscope.specs.declared.look.Look.{Look};

use crate::look::Look;
use wnodes::Children;
use wquery::{Expression, Window};

/// A test of the nodes of expressions.
pub trait NodeTest {
    /// What it says of a node.
    ghost sees: { Self → Tree → Look };

    /// What it says of a node.
    fn look(&self, node: &Expression) -> Look
        ensures { result ≡ sees self.now (view node.now) };
}

/// Whether some node of the expression is found.
#[cycle(seeking)]
pub fn any_node<T: NodeTest>(test: &T, e: &Expression) -> bool
    ensures { result ≡ some_node (T.sees test.now) (view e.now) }
{
    match test.look(e) {
        Look::Found => true,
        Look::Closed => false,
        Look::Below => any_below(test, e),
    }
}

/// Whether some node below this one is found.
#[cycle(seeking)]
pub fn any_below<T: NodeTest>(test: &T, e: &Expression) -> bool
    ensures { result ≡ some_below (T.sees test.now) (view e.now) }
{
    match Children::of(e) {
        None => false,
        Some(nodes) => any_beside(test, nodes),
    }
}

/// Whether some node of expressions that stand side by side is found.
#[cycle(seeking)]
fn any_beside<T: NodeTest>(test: &T, nodes: Children) -> bool
    ensures { result ≡ found_all (seeking (T.sees test.now)) (nodes_left nodes.entry) }
{
    let mut rest = nodes;
    'nodes: while let Some(e) = rest.take_first() {
        if any_node(test, e) {
            return true;
        }
    }
    false
}

/// Whether some node of a window is found.
pub(crate) fn any_in_window<T: NodeTest>(test: &T, window: &Window) -> bool
    ensures { result ≡ some_reach (T.sees test.now) (own_window (view_window window.now)) }
{
    any_beside(test, Children::of_window(window))
}
