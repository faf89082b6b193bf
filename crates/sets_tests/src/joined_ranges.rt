//! Tests of `open_ranges`.
use open_ranges::*;
use std::test::Fail;

// Ranges apart, one that fills a gap, one over all of them, and one that is there already.
#[test]
fn ranges_join(rt: HostRuntime) -> Result<(), Fail> {
    let mut set = OpenRanges::empty(rt.alloc());
    assert_eq!(rt; set.count(), 0);
    set.add(10, 20)?;
    set.add(30, 40)?;
    assert_eq!(rt; set.count_with(20, 30), 30);
    assert_eq!(rt; set.count(), 20);
    set.add(20, 30)?;
    assert_eq!(rt; set.count(), 30);
    assert_eq!(rt; set.count_with(15, 25), 30);
    set.add(5, 45)?;
    assert_eq!(rt; set.count(), 40);
    set.add(4_294_967_294, 4_294_967_295)?;
    assert_eq!(rt; set.count(), 41);
    Ok(())
}
