//! What a line of input asks for.
ghost use Rattle.std.specs.Prelude.{◌<◌, ◌^◌};

use thiserror::Error;
use wframe::{Frame, FrameBound, FrameExclusion, FrameMode};

/// What is folded over each frame.
#[derive(Clone, Copy, Debug, PartialEq, Eq)]
pub enum Aggregate {
    Count,
    Sum,
    Least,
    Greatest,
}

/// Partitions that are to be made, and the frames that are to be folded.
///
/// It is spelled by eight words: ROWS PARTITION PEERS MODE START END EXCLUSION AGGREGATE. MODE is `rows`, `range` or `groups`;
/// START and END are `unbounded-preceding`, `N-preceding`, `current-row`, `N-following` or `unbounded-following`;
/// EXCLUSION is `current-row`, `group`, `ties` or `no-others`; AGGREGATE is `count`, `sum`, `min` or `max`.
#[derive(Clone, Copy, Debug)]
pub struct Case {
    /// How many rows there are: from 1 to 2^31 - 1.
    pub rows: u32,
    /// How many rows a partition has, of which the last may have fewer: at least 1.
    pub partition: u32,
    /// How many rows a group of peers has, of which the last may have fewer: at least 1.
    pub peers: u32,
    pub frame: Frame,
    pub aggregate: Aggregate,
    ghost some: { 0 < rows },
    ghost few: { rows < 2 ^ 31 },
    ghost parted: { 0 < partition },
    ghost grouped: { 0 < peers },
}

/// Why a line is no case: its first word that is missing, or not as it has to be.
#[derive(Clone, Copy, Debug, PartialEq, Eq, Error)]
pub enum CaseFault {
    #[error("the first word, ROWS, is a number from 1 to 2147483647")]
    Rows,
    #[error("the second word, PARTITION, is a number from 1 to 4294967295")]
    Partition,
    #[error("the third word, PEERS, is a number from 1 to 4294967295")]
    Peers,
    #[error("the fourth word, MODE, is rows, range or groups")]
    Mode,
    #[error("the fifth word, START, is a bound, as unbounded-preceding, 10-preceding or current-row")]
    Start,
    #[error("the sixth word, END, is a bound, as current-row, 10-following or unbounded-following")]
    End,
    #[error("the seventh word, EXCLUSION, is current-row, group, ties or no-others")]
    Exclusion,
    #[error("the eighth word, AGGREGATE, is count, sum, min or max")]
    Aggregate,
    #[error("a ninth word stands behind the case")]
    Behind,
}
