//! Heaps of 8 slots, with values worked out by hand.
ghost use Rattle.std.specs.Prelude.{◌≡◌, ◌<◌, length};

use arrayvec::ArrayVec;
use place_heap::{Cell, Cells, Item, Key, PlaceHeap, Steps};
use std::alloc::{AllocError, Global};
use std::marker::Brand;
use std::sync::ledger::{Blank, Ledger};
use std::test::*;

fn key(first: u64, second: u64) -> Key {
    Key { first, second }
}

fn insert<L: Ledger>(heap: &mut PlaceHeap, slot: u32, key: Key, steps: &mut Steps<L>)
    requires { slot < length heap.old.cells }
    ensures { length heap.new.cells ≡ length heap.old.cells }
{
    if heap.key(slot, steps).is_none() {
        heap.insert(slot, key, steps);
    }
}

fn update<L: Ledger>(heap: &mut PlaceHeap, slot: u32, key: Key, steps: &mut Steps<L>)
    requires { slot < length heap.old.cells }
    ensures { length heap.new.cells ≡ length heap.old.cells }
{
    if heap.has(slot, steps) {
        heap.update(slot, key, steps);
    }
}

fn remove<L: Ledger>(heap: &mut PlaceHeap, slot: u32, steps: &mut Steps<L>)
    requires { slot < length heap.old.cells }
    ensures { length heap.new.cells ≡ length heap.old.cells }
{
    if heap.has(slot, steps) {
        heap.remove(slot, steps);
    }
}

fn listed<L: Ledger>(heap: &PlaceHeap, steps: &mut Steps<L>) -> ArrayVec<Item, 8> {
    let mut out = ArrayVec::new();
    heap.first_k(8, &mut out, steps);
    out
}

/// The list before and after a key shrinks and a slot goes, and then what is left of two slots.
type Lists = (ArrayVec<Item, 8>, ArrayVec<Item, 8>, Option<Key>, bool);

fn changed<L: Ledger>(alloc: Global, blank: Blank) -> Result<Lists, AllocError>
    requires { (blank.name ≡ L.name) × (blank.parts ≡ L.parts) × (0 < L.parts) }
{
    let mut steps = Steps::<L>::new(blank);
    let mut heap = PlaceHeap::new(alloc, 8)?;
    insert(&mut heap, 3, key(5, 0), &mut steps);
    insert(&mut heap, 1, key(5, 0), &mut steps);
    insert(&mut heap, 2, key(4, 9), &mut steps);
    let before = listed(&heap, &mut steps);
    update(&mut heap, 3, key(1, 0), &mut steps);
    remove(&mut heap, 2, &mut steps);
    let after = listed(&heap, &mut steps);
    let has = heap.has(2, &mut steps);
    Ok((before, after, heap.key(3, &mut steps), has))
}

#[test]
fn lists_by_key_and_slot(rt: HostRuntime) {
    let (before, after, kept, has) = changed::<Brand>(rt.alloc(), Blank::new(1)).expect(
        &rt, "memory",
    );
    let want = [(2, key(4, 9)), (1, key(5, 0)), (3, key(5, 0))];
    assert_eq!(&rt; before.as_slice(), &want[..]);
    let want = [(3, key(1, 0)), (1, key(5, 0))];
    assert_eq!(&rt; after.as_slice(), &want[..]);
    assert_eq!(&rt; kept, Some(key(1, 0)));
    assert!(&rt; !has);
}

/// The first of an empty heap, the first after the first slot's key grew, and the list then.
type Firsts = (Option<Item>, Option<Item>, ArrayVec<Item, 8>);

fn grown<L: Ledger>(alloc: Global, blank: Blank) -> Result<Firsts, AllocError>
    requires { (blank.name ≡ L.name) × (blank.parts ≡ L.parts) × (0 < L.parts) }
{
    let mut steps = Steps::<L>::new(blank);
    let mut heap = PlaceHeap::new(alloc, 8)?;
    let none = heap.first(&mut steps);
    insert(&mut heap, 0, key(1, 0), &mut steps);
    insert(&mut heap, 1, key(2, 0), &mut steps);
    insert(&mut heap, 2, key(3, 0), &mut steps);
    update(&mut heap, 0, key(9, 0), &mut steps);
    let first = heap.first(&mut steps);
    Ok((none, first, listed(&heap, &mut steps)))
}

#[test]
fn moves_away_from_the_front(rt: HostRuntime) {
    let (none, first, all) = grown::<Brand>(rt.alloc(), Blank::new(1)).expect(&rt, "memory");
    assert_eq!(&rt; none, None);
    assert_eq!(&rt; first, Some((1, key(2, 0))));
    assert_eq!(&rt; all.as_slice().last().copied(), Some((0, key(9, 0))));
}

#[test]
fn counts_slots(rt: HostRuntime) {
    let heap = PlaceHeap::new(rt.alloc(), 8).expect(&rt, "memory");
    assert_eq!(&rt; heap.len(), 0);
    assert_eq!(&rt; heap.cap(), 8);
}

fn put_one<L: Ledger>(alloc: Global, blank: Blank, cell: Cell) -> Result<[Cell; 3], AllocError>
    requires { (blank.name ≡ L.name) × (blank.parts ≡ L.parts) × (0 < L.parts) }
{
    let mut steps = Steps::<L>::new(blank);
    let mut cells = Cells::new(alloc, 3)?;
    cells.put(1, cell, &mut steps);
    let first = cells.get(0, &mut steps);
    let second = cells.get(1, &mut steps);
    let third = cells.get(cells.cap() - 1, &mut steps);
    Ok([first, second, third])
}

#[test]
fn puts_one_cell(rt: HostRuntime) {
    let cell = Cell {
        key: key(7, 8),
        slot: 9,
        at: 1,
    };
    let unused = Cell {
        key: key(0, 0),
        slot: 0,
        at: 3,
    };
    let all = put_one::<Brand>(rt.alloc(), Blank::new(1), cell).expect(&rt, "memory");
    assert_eq!(&rt; all[0], unused);
    assert_eq!(&rt; all[1], cell);
    assert_eq!(&rt; all[2], unused);
}
