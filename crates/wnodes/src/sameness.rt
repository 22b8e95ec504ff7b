//! Expressions that are equal.

ghost use Rattle.std.specs.Prelude.{◌≡◌};
ghost use Rattle.wquery.specs.Tree.{view, view_call};
ghost use Rattle.wnodes.specs.Sameness.{is_same};
ghost use Rattle.wnodes.specs.Children.{nodes_left};
ghost use Rattle.wnodes.specs.Heads.{all_same, said};

use crate::children::Children;
use crate::head::Head;
use wquery::{Call, Expression};

fn same_head(a: &Head, b: &Head) -> bool
    ensures { result ≡ is_same (said a.now) (said b.now) }
{
    *a == *b
}

#[cycle(sameness)]
fn same_beside(a: Children, b: Children) -> bool
    ensures { result ≡ all_same (nodes_left a.entry) (nodes_left b.entry) }
{
    let mut left = a;
    let mut right = b;
    'nodes: while let Some(x) = left.take_first() {
        let Some(y) = right.take_first() else {
            return false;
        };
        if !same(x, y) {
            return false;
        }
    }
    right.take_first().is_none()
}

/// Whether two expressions are equal. A column is the same where its name is.
#[cycle(sameness)]
pub fn same(a: &Expression, b: &Expression) -> bool
    ensures { result ≡ is_same (view a.now) (view b.now) }
{
    same_head(&Head::of(a), &Head::of(b)) && same_beside(Children::below(a), Children::below(b))
}

/// Whether two calls are equal.
pub fn same_call(a: &Call, b: &Call) -> bool
    ensures { result ≡ is_same (view_call a.now) (view_call b.now) }
{
    same_head(&Head::of_call(a), &Head::of_call(b))
        && same_beside(Children::of_call(a), Children::of_call(b))
}
