//! One heap of a host's rows, as its timers, its pacer and its grants have it: a call says what holds of a slot, whether
//! or not the heap has it.
//!
//! The model is that of [`PlaceHeap`]: the list of its slots with their keys, in order. The main promise: `put`
//! gives a slot its key, `take_out` takes it out, and every other slot stays as it was; `replace` is one of the two,
//! and the other calls only look. Each call counts its steps in a ledger of its own, which nobody reads, and takes no
//! memory. The lemmas of a list of things of one's own, each of which stands for an item of a heap, are in
//! `proofs/Books`.
#![tactic(auto)]

ghost use Rattle.std.specs.Prelude.{◌≡◌, ◌<◌, ◌≤◌, length, take};
ghost use Rattle.place_heap.specs.Order.{first_of, key_in, placed, replaced, without};
ghost use Rattle.place_heap.specs.Held.{list_of};

use arrayvec::ArrayVec;
use place_heap::{Item, Key, PlaceHeap, Steps};
use std::marker::Brand;
use std::sync::ledger::{Blank, Ledger};

/// Gives a slot this key, or takes it out where there is none, whether or not the heap holds it.
pub fn replace(heap: &mut PlaceHeap, slot: u32, key: Option<Key>)
    requires { slot < length heap.old.cells }
    ensures list { list_of heap.new ≡ replaced slot key (list_of heap.old) }
    ensures cap { length heap.new.cells ≡ length heap.old.cells }
{
    match key {
        Some(key) => put(heap, slot, key),
        None => take_out(heap, slot),
    }
}

/// Gives a slot this key, whether or not the heap holds it.
pub fn put(heap: &mut PlaceHeap, slot: u32, key: Key)
    requires { slot < length heap.old.cells }
    ensures list { list_of heap.new ≡ placed (slot, key) (without slot (list_of heap.old)) }
    ensures cap { length heap.new.cells ≡ length heap.old.cells }
{
    put_counted::<Brand>(heap, slot, key, Blank::new(1));
}

// Gives the slot its key, and counts its steps in this ledger.
fn put_counted<L: Ledger>(heap: &mut PlaceHeap, slot: u32, key: Key, blank: Blank)
    requires blank { (blank.name ≡ L.name) × (blank.parts ≡ L.parts) × (0 < L.parts) }
    requires slot { slot < length heap.old.cells }
    ensures list { list_of heap.new ≡ placed (slot, key) (without slot (list_of heap.old)) }
    ensures cap { length heap.new.cells ≡ length heap.old.cells }
{
    let mut steps = Steps::<L>::new(blank);
    heap.put(slot, key, &mut steps);
}

/// Takes a slot out, if the heap holds it.
pub fn take_out(heap: &mut PlaceHeap, slot: u32)
    requires { slot < length heap.old.cells }
    ensures list { list_of heap.new ≡ without slot (list_of heap.old) }
    ensures cap { length heap.new.cells ≡ length heap.old.cells }
{
    take_out_counted::<Brand>(heap, slot, Blank::new(1));
}

// Takes the slot out, and counts its steps in this ledger.
fn take_out_counted<L: Ledger>(heap: &mut PlaceHeap, slot: u32, blank: Blank)
    requires blank { (blank.name ≡ L.name) × (blank.parts ≡ L.parts) × (0 < L.parts) }
    requires slot { slot < length heap.old.cells }
    ensures list { list_of heap.new ≡ without slot (list_of heap.old) }
    ensures cap { length heap.new.cells ≡ length heap.old.cells }
{
    let mut steps = Steps::<L>::new(blank);
    heap.take_out(slot, &mut steps);
}

/// The slot that stands before all others, with its key, if the heap holds any.
pub fn first(heap: &PlaceHeap) -> Option<Item>
    ensures { result ≡ first_of (list_of heap.now) }
{
    first_counted::<Brand>(heap, Blank::new(1))
}

// Looks for the first slot, and counts its steps in this ledger.
fn first_counted<L: Ledger>(heap: &PlaceHeap, blank: Blank) -> Option<Item>
    requires { (blank.name ≡ L.name) × (blank.parts ≡ L.parts) × (0 < L.parts) }
    ensures { result ≡ first_of (list_of heap.now) }
{
    heap.first(&mut Steps::<L>::new(blank))
}

/// The key of a slot, if the heap holds it.
pub fn key(heap: &PlaceHeap, slot: u32) -> Option<Key>
    requires { slot < length heap.now.cells }
    ensures { result ≡ key_in slot (list_of heap.now) }
{
    key_counted::<Brand>(heap, slot, Blank::new(1))
}

// Looks for the key, and counts its steps in this ledger.
fn key_counted<L: Ledger>(heap: &PlaceHeap, slot: u32, blank: Blank) -> Option<Key>
    requires blank { (blank.name ≡ L.name) × (blank.parts ≡ L.parts) × (0 < L.parts) }
    requires slot { slot < length heap.now.cells }
    ensures { result ≡ key_in slot (list_of heap.now) }
{
    heap.key(slot, &mut Steps::<L>::new(blank))
}

/// Makes `out` the first `k` slots with their keys, at most 8, or all where there are fewer.
pub fn first_k(heap: &PlaceHeap, k: u32, out: &mut ArrayVec<Item, 8>)
    requires { k ≤ 8 }
    ensures { out.new.items ≡ take k (list_of heap.now) }
{
    first_k_counted::<Brand>(heap, k, out, Blank::new(1));
}

// Looks for the first `k` slots, and counts its steps in this ledger.
fn first_k_counted<L: Ledger>(heap: &PlaceHeap, k: u32, out: &mut ArrayVec<Item, 8>, blank: Blank)
    requires blank { (blank.name ≡ L.name) × (blank.parts ≡ L.parts) × (0 < L.parts) }
    requires k { k ≤ 8 }
    ensures { out.new.items ≡ take k (list_of heap.now) }
{
    heap.first_k(k, out, &mut Steps::<L>::new(blank));
}
