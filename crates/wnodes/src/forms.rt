//! The forms of expression: what a node of each says itself, and the nodes right below it.

ghost use Rattle.std.specs.Prelude.{◌≡◌, [], MatchOption};
ghost use Rattle.wquery.specs.Tree.{Among, Joined, NullWord, own_window, reach_of, trees, view, view_arguments, view_call};
ghost use Rattle.wquery.specs.Tree.{view_optional_over, view_window, views};
ghost use Rattle.wnodes.specs.Children.{children_of, nodes_left};
ghost use Rattle.wnodes.specs.Heads.{bare, bare_given, bare_reach, bare_trees, left_out, said, said_given, said_links, said_over};

use crate::children::Children;
use crate::head::{GivenHead, Head, OverHead};
use crate::marks::{FrameMark, Operators, OrderMarks};
use wquery::{Arguments, Call, ChainKind, Expression, Link, Over, Window};

// How many expressions there are, which are left out.
#[tactic(auto, using(crate::proofs::Bare::left_out_is))]
fn count(list: &[Expression]) -> usize
    ensures { left_out result ≡ bare_trees (trees (views list.now)) }
{
    list.len()
}

#[tactic(auto, unfolding(wquery::specs::Tree::view_arguments, wquery::specs::Tree::view))]
fn given_head(arguments: &Arguments) -> GivenHead
    ensures { said_given result ≡ bare_given (view_arguments arguments.now) }
{
    match arguments {
        Arguments::Star => GivenHead::Star,
        Arguments::Listed(list) => GivenHead::Listed(count(list)),
        Arguments::Columns(columns) => GivenHead::Columns(count(columns)),
    }
}

#[tactic(auto, using(crate::proofs::Bare::window_is))]
fn window_head(window: &Window) -> OverHead
    ensures { said_over result ≡ bare_reach (own_window (view_window window.now)) }
{
    OverHead::Windowed {
        copied: &window.copied,
        partition: count(&window.partition),
        order: OrderMarks {
            keys: window.order.as_slice(),
        },
        frame: FrameMark {
            frame: &window.frame,
        },
    }
}

#[tactic(auto, unfolding(wquery::specs::Tree::view_over, wquery::specs::Tree::view_window))]
fn over_head(over: &Option<Over>) -> OverHead
    ensures { said_over result ≡ bare_reach (reach_of (view_optional_over over.now)) }
{
    match over {
        None => OverHead::Group,
        Some(Over::Named(name)) => OverHead::Named(name),
        Some(Over::Windowed(window)) => window_head(window),
    }
}

// A line for each form of expression: the head of its node, and the nodes right below it, of which one is read.
macro_rules! form {
    ($e:expr, $read:ident) => {
        match $e {
            Expression::Null => $read!(Head::Null, None),
            Expression::Number(number) => $read!(Head::Number(number.get()), None),
            Expression::Text(text) => $read!(Head::Text(text), None),
            Expression::Column(column) => $read!(Head::Column(&column.name), None),
            Expression::Call(call) => $read!(Head::of_call(call), Some(Children::of_call(call))),
            Expression::Not(operand) => $read!(Head::Not, Some(Children::one(operand))),
            Expression::Sign { minus, operand } => {
                $read!(Head::Sign { minus: *minus }, Some(Children::one(operand)))
            }
            Expression::Chain { kind, first, links } => {
                $read!(Head::chain(*kind, links), Some(Children::chained(first, links)))
            }
            Expression::Compare {
                comparison,
                left,
                right,
            } => $read!(Head::Compare(*comparison), Some(Children::two(left, right))),
            Expression::IsNull { negated, operand } => {
                $read!(Head::IsNull { negated: *negated }, Some(Children::one(operand)))
            }
            Expression::Between {
                negated,
                operand,
                low,
                high,
            } => $read!(Head::Between { negated: *negated }, Some(Children::three(operand, low, high))),
            Expression::In {
                negated,
                operand,
                list,
            } => $read!(Head::in_list(*negated, list), Some(Children::with_list(operand, list))),
        }
    };
}

// The head of a line.
macro_rules! head {
    ($head:expr, $children:expr) => {
        $head
    };
}

// The nodes below of a line.
macro_rules! children {
    ($head:expr, $children:expr) => {
        $children
    };
}

impl<'a> Head<'a> {
    /// What a call says itself.
    #[tactic(auto, using(crate::proofs::Views::view_call_is))]
    pub(crate) fn of_call(call: &'a Call) -> Head<'a>
        ensures { said result ≡ bare (view_call call.now) }
    {
        Head::Call {
            name: &call.name,
            given: given_head(&call.arguments),
            is_filtered: call.filter.is_some(),
            over: over_head(&call.over),
        }
    }

    fn chain(kind: ChainKind, links: &'a [Link]) -> Head<'a>
        ensures { said result ≡ Joined kind NullWord (said_links links.now) }
    {
        Head::Chain {
            kind,
            operators: Operators { links },
        }
    }

    fn in_list(negated: bool, list: &'a [Expression]) -> Head<'a>
        ensures { said result ≡ Among negated NullWord (bare_trees (trees (views list.now))) }
    {
        Head::In {
            negated,
            count: count(list),
        }
    }

    /// What the node of an expression says itself.
    #[tactic(auto, unfolding(wquery::specs::Tree::view, wquery::specs::Tree::view_call, wquery::specs::Tree::view_link))]
    pub(crate) fn of(e: &'a Expression) -> Head<'a>
        ensures { said result ≡ bare (view e.now) }
    {
        form!(e, head)
    }
}

impl<'a> Children<'a> {
    /// The nodes right below a node, where there are some.
    #[tactic(auto, unfolding(wquery::specs::Tree::view, wquery::specs::Tree::view_call, wquery::specs::Tree::view_link))]
    pub fn of(e: &'a Expression) -> Option<Children<'a>>
        ensures { MatchOption result (children_of (view e.now) ≡ []) (λ nodes. nodes_left nodes ≡ children_of (view e.now)) }
    {
        form!(e, children)
    }

    /// The nodes right below a node, none where there are none.
    pub(crate) fn below(e: &'a Expression) -> Children<'a>
        ensures { nodes_left result ≡ children_of (view e.now) }
    {
        match Children::of(e) {
            None => Children::none(),
            Some(nodes) => nodes,
        }
    }
}
