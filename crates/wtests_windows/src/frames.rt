ghost use Rattle.std.specs.Prelude.{length};
ghost use Rattle.wvalues.specs.Order.{keys_cmp};
ghost use Rattle.wframe.specs.KeyRows.{key_lists, sort_keys};
ghost use Rattle.wframe.specs.Peers.{is_upto};

use std::alloc::{AllocError, Global};
use std::cell::Cell;
use std::process::Abort;
use std::test::Fail;
use wframe::*;
use wvalues::{SortKey, Value, Whole};

const ASCENDING: SortKey = SortKey {
    col: 0,
    desc: false,
    nulls_first: false,
};

// What is lent of some values.
fn lent<'a>(alloc: Global, values: &'a [Value]) -> Result<Vec<&'a Value>, AllocError> {
    values.iter().collect(alloc)
}

/// Passes what stands no later than the row in the order of the rows, and counts how often it is asked.
#[derive(Drop)]
struct AskedCut<'a> {
    rows: KeyRows<'a>,
    calls: Cell<u64>,
}

impl<'a> Cut for AskedCut<'a> {
    ghost row_count = { λ cut. length (key_lists cut.rows) };

    ghost passes = { λ cut. is_upto (keys_cmp (sort_keys cut.rows)) (key_lists cut.rows) };

    fn is_passed(&self, row: usize, place: usize) -> bool {
        self.calls.set(self.calls.get().wrapping_add(1));
        !self.rows.compare(row, place).is_lt()
    }

    fn end_of_equals(&self, row: usize) -> usize {
        let count = self.rows.count();
        if row + 1 < count { row + 1 } else { count }
    }
}

// A thousand keys, each greater than the one before.
fn rising_keys(alloc: Global) -> Result<Vec<Value>, AllocError> {
    let mut keys = Vec::new(alloc);
    for number in 0..1000i64 {
        keys.push(Value::Int(Whole::from(number)))?;
    }
    Ok(keys)
}

#[test]
fn the_end_of_a_frame_moves_along(rt: HostRuntime) -> Result<(), Fail> {
    let values = rising_keys(rt.alloc())?;
    let cells = lent(rt.alloc(), &values)?;
    let order = [ASCENDING];
    assert_eq!(rt; cells.len(), 1000);
    let keys = KeyRows::new(&cells, &order, 1000);
    assert!(rt; are_in_order(&keys, &keys));
    let mut numbers = Vec::new(rt.alloc());
    let mut group_ends = Vec::new(rt.alloc());
    push_peers(&mut numbers, &mut group_ends, &keys, 0)?;
    let peers = PeerEnds::new(keys, &numbers, &group_ends, 0, 0);
    let cut = AskedCut {
        rows: keys,
        calls: Cell::new(0),
    };
    let mut ends = Vec::new(rt.alloc());
    push_group_cuts(&mut ends, &cut, &peers)?;
    let wanted: Vec<u32> = (1..1001).collect(rt.alloc())?;
    assert_eq!(rt; ends.as_slice(), wanted.as_slice());
    assert!(rt; cut.calls.get() <= 2000);
    Ok(())
}
