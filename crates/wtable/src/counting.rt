//! The number of the table's rows, for queries that ask nothing else of them.
ghost use Rattle.std.specs.Prelude.{◌≡◌, ◌-◌, ◌<◌, ◌^◌, IfErr, IfOk, None, Ok, Err, length, min};
ghost use Rattle.wrows.specs.Plain.{kept_of};
ghost use Rattle.wtable.specs.Tables.{rows_of_set};

use wrows::AnswerFault;
use wset::SegmentSet;

/// The most rows that are kept.
const MOST_ROWS: usize = 2_147_483_647;

/// How many rows the live segments have, no further than a count goes.
pub(crate) fn row_count(set: &SegmentSet) -> usize
    ensures { result ≡ min (length (rows_of_set set.now)) (2 ^ 64 - 1) }
{
    let mut count = 0usize;
    'segments: for (_, segment) in set.lives() {
        count = count.saturating_add(segment.rows());
    }
    count
}

/// How many rows the live segments have, `TooManyRows` where they are more than 2,147,483,647. No list of them is made.
pub fn kept_count(set: &SegmentSet) -> Result<usize, AnswerFault>
    ensures kept { IfOk result (λ count. kept_of None (rows_of_set set.now) ≡ Ok (rows_of_set set.now)) }
    ensures count { IfOk result (λ count. length (rows_of_set set.now) ≡ count) }
    ensures few { IfOk result (λ count. count < 2 ^ 31) }
    ensures refused { IfErr result (λ fault. kept_of None (rows_of_set set.now) ≡ Err fault) }
{
    let count = row_count(set);
    if count > MOST_ROWS {
        return Err(AnswerFault::TooManyRows);
    }
    Ok(count)
}
