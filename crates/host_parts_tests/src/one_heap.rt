//! A heap of four slots, with values worked out by hand.
use arrayvec::ArrayVec;
use host_heap::*;
use place_heap::{Key, PlaceHeap};
use std::test::Fail;

// A slot that comes, one that has another key, and one that goes, and a slot that isn't there.
#[test]
fn each_call(rt: HostRuntime) -> Result<(), Fail> {
    let mut heap = PlaceHeap::new(rt.alloc(), 4)?;
    let by = |first, second| Key { first, second };
    replace(&mut heap, 3, Some(by(5, 1)));
    replace(&mut heap, 1, Some(by(5, 0)));
    replace(&mut heap, 2, Some(by(9, 2)));
    replace(&mut heap, 0, Some(by(1, 3)));
    replace(&mut heap, 2, Some(by(4, 2)));
    replace(&mut heap, 0, None);
    replace(&mut heap, 0, None);
    assert_eq!(rt; first(&heap), Some((2, by(4, 2))));
    assert_eq!(rt; key(&heap, 3), Some(by(5, 1)));
    assert_eq!(rt; key(&heap, 0), None);
    let mut items = ArrayVec::new();
    first_k(&heap, 2, &mut items);
    assert_eq!(rt; items.as_slice(), &[(2, by(4, 2)), (1, by(5, 0))][..]);
    Ok(())
}
