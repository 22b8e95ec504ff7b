//! The first of the rows that are the same as a row.
ghost use Rattle.std.specs.Prelude.{◌≡◌, ℕ, ◌*◌, ◌<◌, true, false, length, set, slice_index_or, IfOk};
ghost use Rattle.wgroup.specs.Sight.{IsFirst, same_row};

use std::alloc::{AllocError, Global};
use wrows::{slice_of, sorted_numbers};
use wvalues::{SortKey, Value};

// Whether two rows have the same cells.
fn are_same(cells: &[Value], width: usize, count: usize, one: usize, other: usize) -> bool
    requires laid { length cells.now ≡ count * width }
    requires one { one < count }
    requires other { other < count }
    ensures { result ≡ same_row width cells.now one other }
{
    let left = slice_of(cells, width, one);
    let right = slice_of(cells, width, other);
    left == right
}

// The first row that has the same cells as a row, where another one leads the rows before it in order.
fn leader_of(cells: &[Value], width: usize, count: usize, leader: u32, row: u32) -> u32
    requires laid { length cells.now ≡ count * width }
    requires leader { leader < count }
    requires row { row < count }
    ensures kept { same_row width cells.now leader row ≡ true → result ≡ leader }
    ensures begun { same_row width cells.now leader row ≡ false → result ≡ row }
    ensures within { result < count }
{
    if are_same(cells, width, count, leader as usize, row as usize) {
        leader
    } else {
        row
    }
}

// Puts down which row leads a row.
fn put_leader(leaders: &mut Vec<u32>, row: u32, leader: u32)
    requires { row < length leaders.old.items }
    ensures { leaders.new.items ≡ set leaders.old.items row leader }
{
    leaders[row as usize] = leader;
}

/// The first row, for each row, that has the same cells. Rows that are the same are neighbors in the order of the cells,
/// the first one in front.
pub(crate) fn find_leaders(
    alloc: Global,
    cells: &[Value],
    keys: &[SortKey],
    width: usize,
    count: usize,
) -> Result<Vec<u32>, AllocError>
    requires laid { length cells.now ≡ count * width }
    requires keys { length keys.now ≡ width }
    ensures firsts { IfOk result (λ leaders. (row : ℕ) → row < count
        → IsFirst (same_row width cells.now) count row (slice_index_or leaders.items row 0)) }
    ensures len { IfOk result (λ leaders. length leaders.items ≡ count) }
{
    let order = sorted_numbers(alloc, cells, keys, count)?;
    let mut leaders = vec![in alloc; 0u32; count]?;
    let mut leader = 0;
    for place in 0..count {
        let row = order[place];
        let next = leader_of(cells, width, count, leader, row);
        put_leader(&mut leaders, row, next);
        leader = next;
    }
    Ok(leaders)
}
