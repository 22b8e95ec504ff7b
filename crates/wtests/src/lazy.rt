//! Sets and nodes that make no cells before they are asked.
ghost use Rattle.std.specs.Prelude.{◌≡◌, IfOk};

use std::alloc::{AllocError, Global};
use std::process::Abort;
use std::rc::Rc;
use std::test::*;
use wask::ask;
use wsegment::{Judged, Schema, SegmentFault};
use wset::{SegmentSet, Taken};
use wstore::Node;
use wvalues::{Name, SortKey};

// It reads every cell, in order and through a window.
const QUERY: &[u8] =
    b"SELECT day, shop, sum(day) OVER (ORDER BY day, shop) AS so_far FROM sales ORDER BY day, shop";

fn schema(alloc: Global) -> Result<Schema, Fail> {
    Ok(Schema::read(alloc, b"table sales\nday integer\nshop text\n")?)
}

fn name(number: &[u8]) -> Result<Name, Fail> {
    Ok(Name::read(b"east", number)?)
}

// What was judged, behind a pointer.
fn shared(alloc: Global, judged: Judged) -> Result<Rc<Judged>, AllocError>
    ensures { IfOk result (λ shared. shared.value ≡ judged) }
{
    match Rc::new(alloc, judged) {
        Ok(shared) => Ok(shared),
        Err(_) => Err(AllocError),
    }
}

// Takes bytes that are judged before.
fn take_judged(
    alloc: Global,
    set: &mut SegmentSet,
    number: &[u8],
    bytes: &[u8],
) -> Result<Taken, Fail> {
    let judged = shared(alloc, Judged::read(alloc, set.schema(), bytes)?)?;
    let taken = set.take_judged(name(number)?, &judged)?;
    Ok(taken)
}

// The same in a node.
fn node_takes_judged(
    alloc: Global,
    node: &mut Node,
    number: &[u8],
    bytes: &[u8],
) -> Result<Taken, Fail> {
    let judged = shared(alloc, Judged::read(alloc, node.schema(), bytes)?)?;
    let taken = node.take_judged(name(number)?, &judged)?;
    Ok(taken)
}

// The set with two segments, the second of bytes that were judged before.
fn filled(alloc: Global, set: SegmentSet) -> Result<SegmentSet, Fail> {
    let mut set = set;
    set.take(name(b"1")?, b"day,shop\n3,b\n1,a\n")?;
    take_judged(alloc, &mut set, b"2", b"shop,day\nc,2\n,1\n")?;
    Ok(set)
}

// A lazy set with two segments.
fn lazy_set(alloc: Global) -> Result<SegmentSet, Fail> {
    filled(alloc, SegmentSet::lazy(alloc, schema(alloc)?))
}

// An eager set with the same segments.
fn eager_set(alloc: Global) -> Result<SegmentSet, Fail> {
    filled(alloc, SegmentSet::new(alloc, schema(alloc)?))
}

// How many live contents have no cells.
fn unmade(set: &SegmentSet) -> usize {
    let mut count: usize = 0;
    for (_, kept) in set.lives() {
        if kept.segment().is_err() {
            count = count.saturating_add(1);
        }
    }
    count
}

// Two sets have the same list and the same answer.
fn compare(
    rt: &impl Abort,
    alloc: Global,
    eager: &mut SegmentSet,
    lazy: &mut SegmentSet,
    answer: &[u8],
) -> Result<(), Fail> {
    assert!(rt; lazy.list()?.as_slice() == eager.list()?.as_slice());
    assert_eq!(rt; ask(alloc, eager, QUERY)?.as_slice(), answer);
    assert_eq!(rt; ask(alloc, lazy, QUERY)?.as_slice(), answer);
    Ok(())
}

#[test]
fn a_lazy_set_makes_cells_when_it_is_asked(rt: HostRuntime) -> Result<(), Fail> {
    let mut eager = eager_set(rt.alloc())?;
    let mut lazy = lazy_set(rt.alloc())?;
    assert_eq!(rt; (unmade(&eager), unmade(&lazy)), (0, 2));
    let answer = b"day,shop,so_far\n1,a,1\n1,,2\n2,c,4\n3,b,7\n";
    compare(&rt, rt.alloc(), &mut eager, &mut lazy, answer)?;
    assert_eq!(rt; unmade(&lazy), 0);
    Ok(())
}

// By day, from the least on.
fn by_day() -> [SortKey; 1] {
    [SortKey {
        col: 0,
        desc: false,
        nulls_first: false,
    }]
}

#[test]
fn an_order_makes_the_cells_that_it_needs(rt: HostRuntime) -> Result<(), Fail> {
    let mut lazy = lazy_set(rt.alloc())?;
    assert_eq!(rt; lazy.ordered(&by_day())?.len(), 4);
    assert_eq!(rt; unmade(&lazy), 0);
    Ok(())
}

#[test]
fn what_is_beside_is_not_read_again(rt: HostRuntime) -> Result<(), Fail> {
    let mut known = lazy_set(rt.alloc())?;
    known.make()?;
    let mut new = known.like(rt.alloc())?;
    let taken = new.take_beside(name(b"1")?, b"day,shop\n3,b\n1,a\n", &known)?;
    assert_eq!(rt; taken, Taken::New);
    assert_eq!(rt; unmade(&new), 0);
    Ok(())
}

// A set of the same table, with a third name and with what the first one has.
fn other_set(alloc: Global, set: &SegmentSet) -> Result<SegmentSet, Fail> {
    let mut other = set.like(alloc)?;
    other.take(name(b"3")?, b"day,shop\n5,d\n")?;
    other.take(name(b"1")?, b"day,shop\n3,b\n1,a\n")?;
    Ok(other)
}

// Joins another set, and retires the second name.
fn join_and_retire(set: &mut SegmentSet, other: &SegmentSet) -> Result<(), Fail> {
    set.join(other)?;
    set.retire(name(b"2")?)?;
    Ok(())
}

#[test]
fn a_lazy_set_joins_and_retires_as_an_eager_one(rt: HostRuntime) -> Result<(), Fail> {
    let mut eager = eager_set(rt.alloc())?;
    let mut lazy = lazy_set(rt.alloc())?;
    let other = other_set(rt.alloc(), &lazy)?;
    join_and_retire(&mut eager, &other)?;
    join_and_retire(&mut lazy, &other)?;
    assert_eq!(rt; (unmade(&eager), unmade(&lazy)), (1, 2));
    let answer = b"day,shop,so_far\n1,a,1\n3,b,4\n5,d,9\n";
    compare(&rt, rt.alloc(), &mut eager, &mut lazy, answer)
}

#[test]
fn a_lazy_set_refuses_as_an_eager_one(rt: HostRuntime) -> Result<(), Fail> {
    let mut lazy = lazy_set(rt.alloc())?;
    let wrong = lazy.take(name(b"3")?, b"day,shop\n1,a\nx,a\n");
    assert!(rt; wrong == Err(SegmentFault::NotInteger { row: 2 }));
    let short = lazy.take(name(b"3")?, b"day\n1\n");
    assert!(rt; short == Err(SegmentFault::MissingColumn));
    Ok(())
}

#[test]
fn a_lazy_set_disputes_as_an_eager_one(rt: HostRuntime) -> Result<(), Fail> {
    let mut lazy = lazy_set(rt.alloc())?;
    let taken = take_judged(rt.alloc(), &mut lazy, b"2", b"shop,day\nc,2\n,1\n")?;
    assert_eq!(rt; taken, Taken::Same);
    let other = take_judged(rt.alloc(), &mut lazy, b"2", b"shop,day\nc,2\n")?;
    assert_eq!(rt; other, Taken::Disputed);
    lazy.make()?;
    assert_eq!(rt; (lazy.live_count(), unmade(&lazy)), (1, 0));
    Ok(())
}

// An eager node with one segment.
fn eager_node(alloc: Global) -> Result<Node, Fail> {
    let mut node = Node::new(alloc, schema(alloc)?);
    node.take(name(b"1")?, b"day,shop\n3,b\n1,a\n")?;
    Ok(node)
}

// A node learns what another one knows.
fn learn(node: &mut Node, other: &Node) -> Result<(), Fail> {
    Ok(node.get(&other.put()?)?)
}

#[test]
fn a_lazy_node_answers_as_an_eager_one(rt: HostRuntime) -> Result<(), Fail> {
    let mut eager = eager_node(rt.alloc())?;
    let mut lazy = Node::lazy(rt.alloc(), schema(rt.alloc())?);
    learn(&mut lazy, &eager)?;
    node_takes_judged(rt.alloc(), &mut lazy, b"2", b"day,shop\n4,\n")?;
    learn(&mut eager, &lazy)?;
    let answer = b"day,shop,so_far\n1,a,1\n3,b,4\n4,,8\n".as_slice();
    assert_eq!(rt; eager.ask(QUERY)?.as_slice(), answer);
    assert_eq!(rt; lazy.ask(QUERY)?.as_slice(), answer);
    Ok(())
}
