//! The numbers of peer groups, one for each row.
ghost use Rattle.std.specs.Prelude.{◌≡◌, ◌<◌, ◌≤◌, ◌-◌, ◌^◌, length, OnOk};
ghost use Rattle.wvalues.specs.Order.{keys_cmp};
ghost use Rattle.wframe.specs.KeyRows.{key_lists, sort_keys};
ghost use Rattle.wframe.specs.Peers.{group_number};
ghost use Rattle.wframe.specs.Numbered.{AreNumbered};

use crate::peers::PeerEnds;
use std::alloc::AllocError;

// The number of a row's peer group, after that of the row before.
fn next_number(peers: &PeerEnds, row: usize, last: usize) -> usize
    requires row { row < length (key_lists peers.now.rows) }
    requires last { 0 < row → last ≡ group_number (keys_cmp (sort_keys peers.now.rows)) (key_lists peers.now.rows) (row - 1) }
    requires small { 0 < row → last < row }
    ensures number { result ≡ group_number (keys_cmp (sort_keys peers.now.rows)) (key_lists peers.now.rows) row }
    ensures small { result ≤ row }
{
    if row == 0 {
        return 0;
    }
    if peers.end(row - 1) == row {
        return last + 1;
    }
    last
}

/// Puts the number of each row's peer group, from 0, in the place of what a list has.
pub fn number_groups(numbers: &mut Vec<u32>, peers: &PeerEnds) -> Result<(), AllocError>
    requires room { length (key_lists peers.now.rows) < 2 ^ 32 }
    ensures { OnOk result (AreNumbered (keys_cmp (sort_keys peers.now.rows)) (key_lists peers.now.rows) numbers.new.items) }
{
    numbers.clear();
    let mut number = 0;
    for row in 0..peers.rows().count() {
        number = next_number(peers, row, number);
        numbers.push(number as u32)?;
    }
    Ok(())
}
