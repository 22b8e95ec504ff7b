//! The groups of rows by a table of the keys that were seen, where these are few beside the rows.
//!
//! The table is given up where there are many groups, which a sort finds sooner, or where rows were compared with many groups
//! that stand apart, as those of keys that were chosen for their hashes do.
ghost use Rattle.std.specs.Prelude.{◌≡◌, ◌+◌, ◌*◌, ◌-◌, ◌<◌, ◌≤◌, ◌^◌, false, length, min, IfOk, IfSome};
ghost use Rattle.wrows.specs.Laid.{rows_seen};
ghost use Rattle.wgroup.specs.Grouping.{agree};
ghost use Rattle.wgroup.specs.Sight.{IsSight, group_numbers};
ghost use Rattle.wgroup.specs.Table.{Holds, alike};

use crate::group_slots::{GroupTable, empty_table};
use crate::keyed::GroupingRows;
use crate::sight::Sight;
use std::alloc::{AllocError, Global};
use wvalues::Value;

/// The fewest rows that have a table.
const FEWEST_ROWS: usize = 1 << 9;

/// How many rows a group has at least, in the mean of all, where a table that grows with the rows finds it.
const ROWS_OF_GROUP: usize = 1 << 5;

/// The most groups of the smallest table.
const FEW_GROUPS: usize = 1 << 11;

/// The most groups of the largest table.
const MANY_GROUPS: usize = 1 << 17;

/// How many slots there are to a group at least.
const SLOTS_OF_GROUP: usize = 1 << 2;

/// With how many groups that stand apart a row is compared at most, in the mean of all rows.
const MOST_LOOKS: usize = 8;

/// Of how many rows the groups are guessed before they are found.
const GUESSED: usize = 1 << 6;

// The most groups of so many rows that are found by a table.
fn most_groups(rows: usize) -> usize
    ensures some { 1 ≤ result }
    ensures few { result ≤ 2 ^ 17 }
{
    (rows / ROWS_OF_GROUP).clamp(FEW_GROUPS, MANY_GROUPS)
}

// Whether a table is slower than a sort of so many rows: there are more groups than it is for, or rows were compared with many
// that stand apart.
fn is_slow(table: &GroupTable, most: usize, rows: usize) -> bool
    ensures few { result ≡ false → length table.now.firsts.items ≤ most }
    ensures looks { result ≡ false → table.now.looks ≤ min (rows * 8) (2 ^ 64 - 1) }
{
    if table.firsts.len() > most {
        return true;
    }
    table.looks > rows.saturating_mul(MOST_LOOKS)
}

// The numbers of the groups of rows, by a table without groups, unless that is given up. Rows are compared with no more groups that
// stand apart than that many in the mean, and once more with all of them.
fn number_rows(
    alloc: Global,
    keyed: &GroupingRows,
    most: usize,
    table: &mut GroupTable,
) -> Result<Option<Vec<u32>>, AllocError>
    requires rows { length keyed.now.rows.now < 2 ^ 31 }
    requires few { most ≤ 2 ^ 17 }
    requires held { Holds keyed.now 0 table.old }
    requires unlooked { table.old.looks ≡ 0 }
    ensures held { IfOk result (λ numbers. IfSome numbers (λ numbers. Holds keyed.now (length keyed.now.rows.now) table.new)) }
    ensures numbers { IfOk result (λ numbers. IfSome numbers (λ numbers. numbers.items ≡ group_numbers (alike keyed.now)
        (length keyed.now.rows.now))) }
    ensures looks { table.new.looks ≤ length keyed.now.rows.now * 8 + most }
{
    let count = keyed.rows.len();
    let mut numbers = Vec::with_capacity(alloc, count)?;
    let mut guesses = [0u32; GUESSED];
    for row in 0..count {
        if row % GUESSED == 0 {
            table.guess(keyed, row, &mut guesses);
        }
        numbers.push(table.number_guessed(keyed, row, guesses[row % GUESSED])?)?;
        if is_slow(table, most, count) {
            return Ok(None);
        }
    }
    Ok(Some(numbers))
}

// The groups of rows, by a table, unless that is given up.
fn tabled_groups(alloc: Global, keyed: &GroupingRows) -> Result<Option<Sight>, AllocError>
    requires { length keyed.now.rows.now < 2 ^ 31 }
    ensures { IfOk result (λ seen. IfSome seen (λ sight. IsSight (alike keyed.now) (length keyed.now.rows.now)
        sight.firsts.items sight.numbers.items)) }
{
    let most = most_groups(keyed.rows.len());
    let mut table = empty_table(alloc, (most * SLOTS_OF_GROUP).next_power_of_two())?;
    let Some(numbers) = number_rows(alloc, keyed, most, &mut table)? else {
        return Ok(None);
    };
    Ok(Some(Sight {
        firsts: table.firsts,
        numbers,
    }))
}

/// The groups of rows that agree on the columns of a set, unless a sort of the rows finds them sooner: where the rows are few,
/// or a table is given up.
pub(crate) fn seen_groups(
    alloc: Global,
    columns: &[Option<usize>],
    rows: &[&[Value]],
) -> Result<Option<Sight>, AllocError>
    requires { length rows.now < 2 ^ 31 }
    ensures { IfOk result (λ seen. IfSome seen (λ sight. IsSight (agree columns.now (rows_seen rows.now)) (length rows.now)
        sight.firsts.items sight.numbers.items)) }
{
    if rows.len() < FEWEST_ROWS {
        return Ok(None);
    }
    let keyed = GroupingRows {
        columns,
        rows,
        null: &Value::Null,
    };
    let seen = tabled_groups(alloc, &keyed)?;
    Ok(seen)
}
