use crate::expr::Expr;
use std::rc::RcStr;
use wquery::{FrameBound, FrameExclusion, FrameMode};
use wvalues::{SortKey, Value};

/// What an aggregate makes of the rows that it is fed.
#[derive(Clone, Copy, PartialEq, Eq)]
pub enum AggregateFunction {
    /// `count(*)`, the number of rows.
    CountRows,
    /// `count(v)`, the number of values that are not null.
    Count,
    Sum,
    Min,
    Max,
}

/// An aggregate with its argument and its filter. The argument of `count(*)` is NULL, at which it does not look.
#[derive(Drop)]
pub struct Aggregate {
    pub function: AggregateFunction,
    pub argument: Expr,
    pub filter: Option<Expr>,
}

/// What the row of a group holds behind its columns.
#[derive(Drop)]
pub enum GroupCall {
    /// An aggregate without OVER, over the rows of the group.
    Aggregated(Aggregate),
    /// GROUPING of columns, by their places in the source's row: the number whose bits, the last column's lowest, are 1
    /// where the set of the group lacks that column.
    GroupingOf(Vec<usize>),
}

/// GROUP BY and HAVING. The row of a group holds its columns and behind them what its calls answer; HAVING is over that
/// row.
#[derive(Drop)]
pub struct Grouping {
    /// The places of the columns in the source's row, each once, in the order in which GROUP BY first names them.
    pub columns: Vec<usize>,
    /// The sets of these columns, each with its own groups. Without GROUP BY there is one, the empty one.
    pub sets: Vec<Vec<usize>>,
    /// The aggregates without OVER, and GROUPING.
    pub calls: Vec<GroupCall>,
    pub having: Option<Expr>,
}

/// A key of an order, of which the column is not read.
#[derive(Drop)]
pub struct ResolvedKey {
    pub value: Expr,
    pub order: SortKey,
}

/// A frame clause with its defaults written out. An offset counts rows in ROWS, units of the key in RANGE, and peer
/// groups in GROUPS.
#[derive(Clone, Copy)]
pub struct ResolvedFrame {
    pub mode: FrameMode,
    pub start: FrameBound,
    pub end: FrameBound,
    pub exclusion: FrameExclusion,
}

/// A window with what it copies and its defaults written out.
#[derive(Drop)]
pub struct ResolvedWindow {
    pub partition: Vec<Expr>,
    pub keys: Vec<ResolvedKey>,
    pub frame: ResolvedFrame,
}

/// A function over a window.
#[derive(Drop)]
pub enum WindowFunction {
    RowNumber,
    Rank,
    DenseRank,
    /// `ntile`, with the number of tiles.
    Tile(u128),
    /// The value so many rows before, else the default.
    Lag {
        value: Expr,
        rows: u128,
        default: Value,
    },
    /// The value so many rows after, else the default.
    Lead {
        value: Expr,
        rows: u128,
        default: Value,
    },
    FirstValue(Expr),
    LastValue(Expr),
    /// The value at a place of the frame, counted from 1, else null.
    NthValue {
        value: Expr,
        place: u128,
    },
    Aggregated(Aggregate),
}

/// A call with OVER: the place of its window among those of the SELECT, and its function.
#[derive(Drop)]
pub struct CallOver {
    pub window: usize,
    pub function: WindowFunction,
}

/// An item: its output name and its value.
#[derive(Drop)]
pub struct Output {
    pub name: RcStr,
    pub value: Expr,
}

/// One SELECT.
///
/// The condition is over the source's rows. The windows and their calls are over the kept rows, or over the rows of
/// the groups where there is a grouping. Items and keys are over these rows with what the calls answer, in their
/// order, behind the cells.
#[derive(Drop)]
pub struct Selection {
    /// What WHERE says.
    pub condition: Option<Expr>,
    pub grouping: Option<Grouping>,
    /// Those of the WINDOW clause, used or not, and those of the calls.
    pub windows: Vec<ResolvedWindow>,
    pub calls: Vec<CallOver>,
    pub items: Vec<Output>,
    /// What ORDER BY says.
    pub keys: Vec<ResolvedKey>,
    /// How many rows are left out first.
    pub offset: u128,
    /// How many rows are answered at most.
    pub limit: Option<u128>,
}

/// A query with each name and default resolved: its SELECTs, the innermost first. The first is over the declared table,
/// each other one over the answer of the one before.
#[derive(Drop)]
pub struct Resolved {
    pub selections: Vec<Selection>,
}
