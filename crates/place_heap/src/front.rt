//! The first few items of a heap in order, by a frontier of places that may come next.
ghost use Rattle.std.specs.Prelude.{◌≡◌, ◌+◌, ◌*◌, ◌<◌, ◌≤◌, take, length};
ghost use Rattle.arrayvec.specs.ArrayVec.{array_vec_len};
ghost use Rattle.place_heap.specs.Held.{list_of, items_of};
ghost use Rattle.place_heap.specs.Front.{IsLeast, with_child};

use crate::cells::Cells;
use crate::heap::PlaceHeap;
use crate::key::{Item, stands_before};
use crate::sift::item_at;
use crate::steps::Steps;
use arrayvec::ArrayVec;
use std::sync::ledger::Ledger;

/// A place with its item.
#[derive(Clone, Copy, Default)]
pub(crate) struct Candidate {
    place: u32,
    item: Item,
}

/// Where the item stands that stands before all others.
fn least_of(front: &[Candidate]) -> usize
    requires { 0 < length front.now }
    ensures { IsLeast front.now result }
{
    let mut best = 0;
    for i in 1..front.len() {
        let (slot, key) = front[i].item;
        let (best_slot, best_key) = front[best].item;
        if stands_before(slot, key, best_slot, best_key) {
            best = i;
        }
    }
    best
}

/// Adds a place to the frontier, if an item lies there, in at most one step.
fn add<L: Ledger>(
    cells: &Cells,
    len: u32,
    place: u32,
    front: &mut ArrayVec<Candidate, 16>,
    steps: &mut Steps<L>,
)
    requires within { len ≤ length cells.now.list }
    requires room { array_vec_len front.old < 16 }
    ensures front { front.new.items ≡ with_child (items_of cells.now.list) len place front.old.items }
    ensures steps { steps.new ≤ steps.old + 1 }
{
    if place < len {
        front.push(Candidate {
            place,
            item: item_at(cells, place, steps),
        });
    }
}

impl PlaceHeap {
    /// Makes `out` the first `k` slots in order with their keys, or all where there are fewer.
    pub fn first_k<L: Ledger>(&self, k: u32, out: &mut ArrayVec<Item, 8>, steps: &mut Steps<L>)
        requires { k ≤ 8 }
        ensures list { out.new.items ≡ take k (list_of self.now) }
        ensures steps { steps.new ≤ steps.old + 4 * k + 4 }
    {
        out.clear();
        let mut front: ArrayVec<Candidate, 16> = ArrayVec::new();
        add(&self.cells, self.len, 0, &mut front, steps);
        'pops: while out.len() < k as usize && !front.is_empty() {
            let at = least_of(front.as_slice());
            let next = front.remove(at);
            out.push(next.item);
            add(&self.cells, self.len, 2 * next.place + 1, &mut front, steps);
            add(&self.cells, self.len, 2 * next.place + 2, &mut front, steps);
        }
    }
}
