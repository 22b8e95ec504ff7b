//! How much work an answer takes: joins of the folds of frames, orders of rows, and the runs that it leaves.

use std::alloc::Global;
use std::process::Abort;
use std::test::*;
use wask::{accepted_is_sound, ask};
use wlexer::lex;
use wparser::parse;
use wplanner::{Table, execute};
use wresolve::resolve;
use wsegment::Schema;
use wset::SegmentSet;
use wvalues::{Name, SortKey};

// How many rows there are: enough that a fold for each row of all rows would show.
const ROWS: usize = 2000;

// One shop sold one piece on one day, so many times.
fn same_sales(alloc: Global) -> Result<SegmentSet, Fail> {
    let schema = Schema::read(
        alloc,
        b"table sales\nday integer\nshop text\namount integer\n",
    )?;
    let mut bytes = Vec::from_slice(alloc, b"day,shop,amount\n")?;
    for _ in 0..ROWS {
        bytes.extend_from_slice(b"1,a,1\n")?;
    }
    let mut sales = SegmentSet::new(alloc, schema);
    sales.take(Name::read(b"east", b"1")?, &bytes)?;
    Ok(sales)
}

fn table_of(alloc: Global, sales: &mut SegmentSet, text: &[u8]) -> Result<Table, Fail> {
    let tokens = lex(alloc, text)?;
    let query = parse(alloc, &tokens)?;
    let resolved = resolve(alloc, sales.schema(), &query)?;
    accepted_is_sound();
    let table = execute(alloc, sales, &resolved)?;
    Ok(table)
}

// The work of an answer is no more than this: the joins of all folds, and the orders made.
fn compare_work<R: Abort + AllocGlobal>(
    rt: &R,
    sales: &mut SegmentSet,
    text: &[u8],
    joins: usize,
    orders: u64,
) -> Result<(), Fail> {
    let table = table_of(rt.alloc(), sales, text)?;
    assert_eq!(rt; table.rows(), ROWS);
    assert!(rt; table.joins() <= joins as u64, "{} joins", table.joins());
    assert_eq!(rt; table.orders(), orders);
    Ok(())
}

// A frame that slides takes at most three joins a row, one that leaves out rows eight, and one of the whole partition is
// folded once for all of its rows.
#[test]
fn folds_take_few_joins_a_row(rt: HostRuntime) -> Result<(), Fail> {
    let mut sales = same_sales(rt.alloc())?;
    let slides = b"SELECT sum(amount) OVER (ORDER BY day ROWS 5 PRECEDING) FROM sales";
    compare_work(&rt, &mut sales, slides, 3 * ROWS, 1)?;
    let leaves_out =
        b"SELECT min(amount) OVER (ORDER BY day ROWS BETWEEN 900 PRECEDING AND 900 FOLLOWING EXCLUDE CURRENT ROW) FROM sales";
    compare_work(&rt, &mut sales, leaves_out, 8 * ROWS, 1)?;
    let whole = b"SELECT max(amount) OVER (PARTITION BY shop) FROM sales";
    compare_work(&rt, &mut sales, whole, ROWS, 1)
}

// The joins of an answer of all rows are as many as this at least, and at most.
fn compare_joins<R: Abort + AllocGlobal>(
    rt: &R,
    sales: &mut SegmentSet,
    text: &[u8],
    least: usize,
    most: usize,
) -> Result<(), Fail> {
    let table = table_of(rt.alloc(), sales, text)?;
    assert_eq!(rt; table.rows(), ROWS);
    assert!(rt; table.joins() >= least as u64, "{} joins", table.joins());
    assert!(rt; table.joins() <= most as u64, "{} joins", table.joins());
    Ok(())
}

// To fold rows takes at least one join less than there are rows, however it is done: all rows of the table in the first query, all
// but one in the second. So a count that stands still is seen. Where no aggregate has a frame nothing is joined.
#[test]
fn folds_take_as_many_joins_as_they_must(rt: HostRuntime) -> Result<(), Fail> {
    let mut sales = same_sales(rt.alloc())?;
    let whole = b"SELECT max(amount) OVER () FROM sales";
    compare_joins(&rt, &mut sales, whole, 1999, 3 * ROWS)?;
    let others =
        b"SELECT max(amount) OVER (ROWS BETWEEN UNBOUNDED PRECEDING AND UNBOUNDED FOLLOWING EXCLUDE CURRENT ROW) FROM sales";
    compare_joins(&rt, &mut sales, others, 1998, 8 * ROWS)?;
    let plain = b"SELECT day, shop, amount FROM sales WHERE amount = 1";
    compare_joins(&rt, &mut sales, plain, 0, 0)
}

// Windows of the same partition values and keys share one order, whatever their frames; another key makes another, and
// so does each ORDER BY.
#[test]
fn an_order_is_made_once(rt: HostRuntime) -> Result<(), Fail> {
    let mut sales = same_sales(rt.alloc())?;
    let shared =
        b"SELECT rank() OVER (ORDER BY day), lag(day) OVER w, row_number() OVER (w ROWS 1 PRECEDING) FROM sales WINDOW w AS (ORDER BY day)";
    compare_work(&rt, &mut sales, shared, 0, 1)?;
    let two =
        b"SELECT rank() OVER (ORDER BY day), rank() OVER (ORDER BY amount), rank() OVER (ORDER BY day) FROM sales ORDER BY shop";
    compare_work(&rt, &mut sales, two, 0, 3)
}

// By a column, ascending, nulls last.
fn by(col: usize) -> SortKey {
    SortKey {
        col,
        desc: false,
        nulls_first: false,
    }
}

// Whether each live segment keeps the run of a key.
fn have_run(sales: &SegmentSet, key: SortKey) -> bool {
    let keys = [key];
    for place in 0..sales.live_count() {
        if !sales.has_run(place, &keys) {
            return false;
        }
    }
    true
}

// A query leaves the runs of its windows and of its ORDER BY, which the next one finds; of five orders the first is let go. Where
// WHERE keeps few rows, these are sorted, and no run is made.
#[test]
fn queries_leave_runs(rt: HostRuntime) -> Result<(), Fail> {
    let mut sales = same_sales(rt.alloc())?;
    assert!(rt; !have_run(&sales, by(0)));
    table_of(
        rt.alloc(),
        &mut sales,
        b"SELECT day, sum(amount) OVER (ORDER BY day) FROM sales",
    )?;
    assert!(rt; have_run(&sales, by(0)));
    table_of(
        rt.alloc(),
        &mut sales,
        b"SELECT day FROM sales WHERE amount = 0 ORDER BY amount",
    )?;
    assert!(rt; !have_run(&sales, by(2)));
    let orders: [&[u8]; 4] = [
        b"SELECT day FROM sales WHERE amount = 1 ORDER BY amount",
        b"SELECT rank() OVER (PARTITION BY shop ORDER BY day) FROM sales",
        b"SELECT day FROM sales ORDER BY day DESC",
        b"SELECT day FROM sales ORDER BY shop",
    ];
    for text in &orders {
        table_of(rt.alloc(), &mut sales, text)?;
    }
    assert!(rt; !have_run(&sales, by(0)));
    assert!(rt; have_run(&sales, by(1)));
    assert!(rt; have_run(&sales, by(2)));
    Ok(())
}

// So does a text that is asked, whose rows are printed where they lie.
#[test]
fn texts_leave_runs(rt: HostRuntime) -> Result<(), Fail> {
    let mut sales = same_sales(rt.alloc())?;
    assert!(rt; !have_run(&sales, by(0)));
    ask(
        rt.alloc(),
        &mut sales,
        b"SELECT day, sum(amount) OVER (ORDER BY day) FROM sales",
    )?;
    assert!(rt; have_run(&sales, by(0)));
    ask(
        rt.alloc(),
        &mut sales,
        b"SELECT day FROM sales WHERE amount = 0 ORDER BY amount",
    )?;
    assert!(rt; !have_run(&sales, by(2)));
    Ok(())
}
