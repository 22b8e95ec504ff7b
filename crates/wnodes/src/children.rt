//! The nodes right below a node of an expression.

ghost use Rattle.std.specs.Prelude.{◌≡◌, ◌∷◌, ◌++◌, [], map, MatchOption};
ghost use Rattle.wquery.specs.Tree.{NoLinks, filter_of, keys, linked, own_window, reach_of, view, view_arguments, view_call};
ghost use Rattle.wquery.specs.Tree.{view_keys, view_link, view_optional, view_optional_over, view_window, views};
ghost use Rattle.wnodes.specs.Nodes.{found_filter, found_given, found_keys, found_links};
ghost use Rattle.wnodes.specs.Children.{children_in, children_of, nodes_left, standing, standing_in};

use std::slice::from_ref;
use wquery::{Arguments, Call, Expression, Key, Link, Over, Window};

/// Nodes that stand side by side, in the order of the text.
#[derive(Clone, Copy, Drop)]
pub struct Children<'a> {
    first: &'a [Expression],
    second: &'a [Expression],
    third: &'a [Expression],
    links: &'a [Link],
    keys: &'a [Key],
}

fn alone(e: &Expression) -> &[Expression]
    ensures { result.now ≡ e.now ∷ [] }
{
    from_ref(e)
}

#[tactic(auto, unfolding(wquery::specs::Tree::view_arguments, wquery::specs::Tree::view))]
fn given(arguments: &Arguments) -> &[Expression]
    ensures { standing_in (views result.now) ≡ found_given standing (view_arguments arguments.now) }
{
    match arguments {
        Arguments::Star => &[],
        Arguments::Listed(list) => list.as_slice(),
        Arguments::Columns(columns) => columns.as_slice(),
    }
}

#[tactic(auto, unfolding(wquery::specs::Tree::view))]
fn filtered(filter: &Option<Expression>) -> &[Expression]
    ensures { standing_in (views result.now) ≡ found_filter standing (filter_of (view_optional filter.now)) }
{
    filter.as_slice()
}

impl<'a> Children<'a> {
    /// None.
    #[tactic(auto, unfolding(crate::specs::Children::nodes_left))]
    pub(crate) fn none() -> Children<'a>
        ensures { nodes_left result ≡ [] }
    {
        Children::listed(&[], &[], &[])
    }

    #[tactic(auto, unfolding(crate::specs::Children::nodes_left))]
    fn listed(
        first: &'a [Expression],
        second: &'a [Expression],
        third: &'a [Expression],
    ) -> Children<'a>
        ensures { nodes_left result ≡ standing_in (views first.now) ++ (standing_in (views second.now) ++ standing_in (views third.now)) }
    {
        Children {
            first,
            second,
            third,
            links: &[],
            keys: &[],
        }
    }

    /// A node.
    pub(crate) fn one(e: &'a Expression) -> Children<'a>
        ensures { nodes_left result ≡ view e.now ∷ [] }
    {
        Children::listed(alone(e), &[], &[])
    }

    /// Two nodes.
    pub(crate) fn two(left: &'a Expression, right: &'a Expression) -> Children<'a>
        ensures { nodes_left result ≡ view left.now ∷ view right.now ∷ [] }
    {
        Children::listed(alone(left), alone(right), &[])
    }

    /// Three nodes.
    pub(crate) fn three(
        first: &'a Expression,
        second: &'a Expression,
        third: &'a Expression,
    ) -> Children<'a>
        ensures { nodes_left result ≡ view first.now ∷ view second.now ∷ view third.now ∷ [] }
    {
        Children::listed(alone(first), alone(second), alone(third))
    }

    /// A node, and then those of a list.
    pub(crate) fn with_list(e: &'a Expression, list: &'a [Expression]) -> Children<'a>
        ensures { nodes_left result ≡ view e.now ∷ standing_in (views list.now) }
    {
        Children::listed(alone(e), &[], list)
    }

    /// The operands of a chain.
    #[tactic(auto, unfolding(crate::specs::Children::nodes_left))]
    pub(crate) fn chained(first: &'a Expression, links: &'a [Link]) -> Children<'a>
        ensures { nodes_left result ≡ view first.now ∷ found_links standing (linked NoLinks (map view_link links.now)) }
    {
        Children {
            first: alone(first),
            second: &[],
            third: &[],
            links,
            keys: &[],
        }
    }

    #[tactic(auto, unfolding(crate::specs::Children::nodes_left))]
    fn sorted(
        first: &'a [Expression],
        second: &'a [Expression],
        third: &'a [Expression],
        order: &'a [Key],
    ) -> Children<'a>
        ensures { nodes_left result ≡ standing_in (views first.now)
            ++ (standing_in (views second.now) ++ (standing_in (views third.now) ++ found_keys standing (keys (view_keys order.now)))) }
    {
        Children {
            first,
            second,
            third,
            links: &[],
            keys: order,
        }
    }

    #[tactic(auto, unfolding(wquery::specs::Tree::view_window, wquery::specs::Tree::view, wquery::specs::Tree::view_key))]
    fn windowed(
        first: &'a [Expression],
        second: &'a [Expression],
        window: &'a Window,
    ) -> Children<'a>
        ensures { nodes_left result ≡ standing_in (views first.now) ++ (standing_in (views second.now) ++ children_in
            (own_window (view_window window.now))) }
    {
        Children::sorted(
            first,
            second,
            window.partition.as_slice(),
            window.order.as_slice(),
        )
    }

    /// The expressions of a window.
    pub fn of_window(window: &'a Window) -> Children<'a>
        ensures { nodes_left result ≡ children_in (own_window (view_window window.now)) }
    {
        Children::windowed(&[], &[], window)
    }

    #[tactic(auto, unfolding(wquery::specs::Tree::view_over, wquery::specs::Tree::view_window))]
    fn called(
        given: &'a [Expression],
        filter: &'a [Expression],
        over: &'a Option<Over>,
    ) -> Children<'a>
        ensures { nodes_left result ≡ standing_in (views given.now) ++ (standing_in (views filter.now) ++ children_in
            (reach_of (view_optional_over over.now))) }
    {
        match over {
            None => Children::listed(given, filter, &[]),
            Some(Over::Named(_)) => Children::listed(given, filter, &[]),
            Some(Over::Windowed(window)) => Children::windowed(given, filter, window),
        }
    }

    /// The nodes right below a call.
    pub(crate) fn of_call(call: &'a Call) -> Children<'a>
        ensures { nodes_left result ≡ children_of (view_call call.now) }
    {
        Children::called(given(&call.arguments), filtered(&call.filter), &call.over)
    }

    /// The first of the nodes, which is taken off.
    #[tactic(auto, unfolding(crate::specs::Children::nodes_left, wquery::specs::Tree::view, wquery::specs::Tree::view_link, wquery::specs::Tree::view_key))]
    pub fn take_first(&mut self) -> Option<&'a Expression>
        ensures { MatchOption result (nodes_left self.old ≡ []) (λ e. nodes_left self.old ≡ view e.now ∷ nodes_left self.new) }
    {
        if let Some((e, rest)) = self.first.split_first() {
            self.first = rest;
            return Some(e);
        }
        if let Some((e, rest)) = self.second.split_first() {
            self.second = rest;
            return Some(e);
        }
        if let Some((e, rest)) = self.third.split_first() {
            self.third = rest;
            return Some(e);
        }
        if let Some((link, rest)) = self.links.split_first() {
            self.links = rest;
            return Some(&link.operand);
        }
        if let Some((key, rest)) = self.keys.split_first() {
            self.keys = rest;
            return Some(&key.expression);
        }
        None
    }
}
