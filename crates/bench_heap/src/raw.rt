// The mix over the raw heap.
ghost use Rattle.std.specs.Prelude.{◌≡◌, ◌<◌, length};

use crate::mix::{Change, Slot};
use arrayvec::ArrayVec;
use place_heap::{Item, Key, PlaceHeap, Steps};
use std::alloc::{AllocError, Global};
use std::sync::ledger::{Blank, Ledger};

fn set<L: Ledger>(heap: &mut PlaceHeap, slot: Slot, key: Key, steps: &mut Steps<L>)
    requires { length heap.old.cells ≡ 8192 }
    ensures { length heap.new.cells ≡ 8192 }
{
    if heap.has(slot.number, steps) {
        heap.update(slot.number, key, steps);
        return;
    }
    if heap.key(slot.number, steps).is_none() {
        heap.insert(slot.number, key, steps);
    }
}

fn unset<L: Ledger>(heap: &mut PlaceHeap, slot: Slot, steps: &mut Steps<L>)
    requires { length heap.old.cells ≡ 8192 }
    ensures { length heap.new.cells ≡ 8192 }
{
    if heap.has(slot.number, steps) {
        heap.remove(slot.number, steps);
    }
}

/// The first eight slots after these changes.
pub(crate) fn by_heap<L: Ledger>(
    alloc: Global,
    mix: &[Change],
    blank: Blank,
) -> Result<ArrayVec<Item, 8>, AllocError>
    requires { (blank.name ≡ L.name) × (blank.parts ≡ L.parts) × (0 < L.parts) }
{
    let mut steps = Steps::<L>::new(blank);
    let mut heap = PlaceHeap::new(alloc, 8192)?;
    for change in mix {
        match *change {
            Change::Set(slot, key) => set(&mut heap, slot, key, &mut steps),
            Change::Unset(slot) => unset(&mut heap, slot, &mut steps),
        }
    }
    let mut out = ArrayVec::new();
    heap.first_k(8, &mut out, &mut steps);
    Ok(out)
}
