//! What joins two sets.

use std::test::Fail;
use wsegment::Schema;
use wset::{JoinError, SegmentSet};

#[test]
fn sets_of_two_declarations_are_not_joined(rt: HostRuntime) -> Result<(), Fail> {
    let sales = Schema::read(rt.alloc(), b"table sales\nday integer\n")?;
    let stock = Schema::read(rt.alloc(), b"table stock\nday integer\n")?;
    let mut one = SegmentSet::new(rt.alloc(), sales);
    let other = SegmentSet::new(rt.alloc(), stock);
    assert_eq!(rt; one.join(&other), Err(JoinError::OtherSchema));
    Ok(())
}
