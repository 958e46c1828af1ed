//! Requests between pinned ranges.

use nursery_gaps::Nursery;
use std::test::Fail;

#[test]
fn words_between_pinned_ranges(rt: HostRuntime) -> Result<(), Fail> {
    let mut nursery = Nursery::new(rt.alloc(), 16, 4)?;
    nursery.reset(&[(5, 4)]);
    assert_eq!(rt; nursery.spare(), 12);
    assert_eq!(rt; nursery.bump(6), Some(9));
    assert_eq!(rt; nursery.bump(4), None);
    assert_eq!(rt; nursery.spare(), 2);
    assert_eq!(rt; nursery.bump(2), Some(15));
    assert_eq!(rt; nursery.bump(1), None);
    assert_eq!(rt; nursery.used_range(0), Some((5, 4)));
    assert_eq!(rt; nursery.used_range(1), Some((9, 8)));
    assert_eq!(rt; nursery.used_range(2), None);
    Ok(())
}
