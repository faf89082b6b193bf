//! The heap: slots with their keys, in heap order in a block of cells, with the place of each slot.
ghost use Rattle.std.specs.Prelude.{◌≡◌, ℕ, ◌+◌, ◌*◌, ◌^◌, ◌<◌, ◌≤◌, ◌↔◌, [], false, length, max, None};
ghost use Rattle.std.specs.Prelude.{IsTrue, IsSome, IfOk, slice_index};
ghost use Rattle.place_heap.specs.Order.{placed, without, key_in, first_of, bits};
ghost use Rattle.place_heap.specs.Held.{list_of, places_of, IsKept};
ghost use Rattle.place_heap.specs.Sifted.{MayMove, IsSifted};

use crate::cells::{Block, Cells};
use crate::key::{Item, Key, stands_before};
use crate::sift::{item_at, place_item, place_of, put_item, put_place, sift_down, sift_up};
use crate::steps::Steps;
use std::alloc::{AllocError, Global};
use std::marker::Model;
use std::sync::ledger::Ledger;

/// A heap of slots by key, ties by slot. It is seen as its cells and the number of its items,
/// which `list_of` shows in order.
#[derive(Drop)]
pub struct PlaceHeap {
    pub(crate) cells: Cells,
    pub(crate) len: u32,
}

impl Model for PlaceHeap {
    ghost use Rattle.place_heap.specs.Held.{Held, AreKept};

    ghost Value = { Held };

    ghost view = { λ h. record { cells = h.cells.list; len = h.len; spot = h.cells.spot } };

    ghost invariant = { λ h. AreKept h.cells.list h.len };
}

impl PlaceHeap {
    /// An empty heap of slots below `cap`. Fails where memory runs out.
    pub fn new(alloc: Global, cap: u32) -> Result<PlaceHeap, AllocError>
        requires { cap ≤ 8192 }
        ensures empty { IfOk result (λ heap. list_of heap ≡ []) }
        ensures cap { IfOk result (λ heap. length heap.cells ≡ cap) }
        ensures kept { IfOk result IsKept }
    {
        Ok(PlaceHeap {
            cells: Cells::new(alloc, cap)?,
            len: 0,
        })
    }

    /// Takes a heap apart that doesn't free its block.
    pub(crate) fn into_block(self) -> Block
        requires { self.spot.frees ≡ false }
        ensures base { result.base ≡ self.spot.base }
        ensures len { length result.slots ≡ length self.cells }
    {
        let PlaceHeap { cells, len: _len } = self;
        cells.into_block()
    }

    /// How many slots the heap holds.
    pub fn len(&self) -> u32
        ensures list { result ≡ length (list_of self.now) }
        ensures len { result ≡ self.now.len }
    {
        self.len
    }

    /// How many slots there are.
    pub fn cap(&self) -> u32
        ensures { result ≡ length self.now.cells }
    {
        self.cells.cap()
    }

    /// Whether the heap holds a slot.
    pub fn has<L: Ledger>(&self, slot: u32, steps: &mut Steps<L>) -> bool
        requires { slot < length self.now.cells }
        ensures present { IsTrue result ↔ IsSome (key_in slot (list_of self.now)) }
        ensures steps { steps.new ≤ steps.old + 2 }
    {
        place_of(&self.cells, slot, steps) < self.len
    }

    /// The key of a slot, if the heap holds it.
    pub fn key<L: Ledger>(&self, slot: u32, steps: &mut Steps<L>) -> Option<Key>
        requires { slot < length self.now.cells }
        ensures key { result ≡ key_in slot (list_of self.now) }
        ensures steps { steps.new ≤ steps.old + 2 }
    {
        let place = place_of(&self.cells, slot, steps);
        if place < self.len {
            Some(item_at(&self.cells, place, steps).1)
        } else {
            None
        }
    }

    /// The slot that stands before all others, with its key.
    pub fn first<L: Ledger>(&self, steps: &mut Steps<L>) -> Option<Item>
        ensures first { result ≡ first_of (list_of self.now) }
        ensures steps { steps.new ≤ steps.old + 1 }
    {
        if self.len == 0 {
            return None;
        }
        Some(item_at(&self.cells, 0, steps))
    }

    /// Adds a slot with its key.
    pub fn insert<L: Ledger>(&mut self, slot: u32, key: Key, steps: &mut Steps<L>)
        requires slot { slot < length self.old.cells }
        requires absent { key_in slot (list_of self.old) ≡ None }
        ensures list { list_of self.new ≡ placed (slot, key) (list_of self.old) }
        ensures cap { length self.new.cells ≡ length self.old.cells }
        ensures spot { self.new.spot ≡ self.old.spot }
        ensures kept { IsKept self.new }
        ensures steps { steps.new ≤ steps.old + 12 * bits (max self.old.len self.new.len) + 24 }
    {
        let from = self.len;
        place_item(&mut self.cells, from, slot, key, steps);
        self.len = from + 1;
        sift_up(&mut self.cells, from + 1, from, slot, key, steps);
    }

    /// Gives a slot another key.
    pub fn update<L: Ledger>(&mut self, slot: u32, key: Key, steps: &mut Steps<L>)
        requires { IsSome (key_in slot (list_of self.old)) }
        ensures list { list_of self.new ≡ placed (slot, key) (without slot (list_of self.old)) }
        ensures cap { length self.new.cells ≡ length self.old.cells }
        ensures spot { self.new.spot ≡ self.old.spot }
        ensures kept { IsKept self.new }
        ensures steps { steps.new ≤ steps.old + 12 * bits (max self.old.len self.new.len) + 24 }
    {
        let place = place_of(&self.cells, slot, steps);
        self.rekey(place, slot, key, steps);
    }

    // Gives the slot that stands at a place another key.
    fn rekey<L: Ledger>(&mut self, place: u32, slot: u32, key: Key, steps: &mut Steps<L>)
        requires slot { slot < length self.old.cells }
        requires place { place ≡ slice_index (places_of self.old.cells) slot }
        requires held { place < self.old.len }
        ensures list { list_of self.new ≡ placed (slot, key) (without slot (list_of self.old)) }
        ensures cap { length self.new.cells ≡ length self.old.cells }
        ensures spot { self.new.spot ≡ self.old.spot }
        ensures kept { IsKept self.new }
        ensures steps { steps.new ≤ steps.old + 12 * bits (max self.old.len self.new.len) + 23 }
    {
        let len = self.len;
        let had = item_at(&self.cells, place, steps).1;
        if had == key {
            return;
        }
        put_item(&mut self.cells, place, slot, key, steps);
        sift(&mut self.cells, len, place, slot, had, slot, key, steps);
    }

    /// Takes a slot out.
    pub fn remove<L: Ledger>(&mut self, slot: u32, steps: &mut Steps<L>)
        requires { IsSome (key_in slot (list_of self.old)) }
        ensures list { list_of self.new ≡ without slot (list_of self.old) }
        ensures cap { length self.new.cells ≡ length self.old.cells }
        ensures spot { self.new.spot ≡ self.old.spot }
        ensures kept { IsKept self.new }
        ensures steps { steps.new ≤ steps.old + 12 * bits (max self.old.len self.new.len) + 24 }
    {
        let place = place_of(&self.cells, slot, steps);
        self.remove_at(place, slot, steps);
    }

    // Takes out the slot that stands at a place.
    fn remove_at<L: Ledger>(&mut self, place: u32, slot: u32, steps: &mut Steps<L>)
        requires slot { slot < length self.old.cells }
        requires place { place ≡ slice_index (places_of self.old.cells) slot }
        requires held { place < self.old.len }
        ensures list { list_of self.new ≡ without slot (list_of self.old) }
        ensures cap { length self.new.cells ≡ length self.old.cells }
        ensures spot { self.new.spot ≡ self.old.spot }
        ensures kept { IsKept self.new }
        ensures steps { steps.new ≤ steps.old + 12 * bits (max self.old.len self.new.len) + 23 }
    {
        let last = self.len - 1;
        let (last_slot, key) = item_at(&self.cells, last, steps);
        let cap = self.cells.cap();
        put_place(&mut self.cells, slot, cap, steps);
        self.len = last;
        if place < last {
            let had = item_at(&self.cells, place, steps).1;
            place_item(&mut self.cells, place, last_slot, key, steps);
            sift(
                &mut self.cells,
                last,
                place,
                slot,
                had,
                last_slot,
                key,
                steps,
            );
        }
    }

    /// Gives a slot this key, whether or not the heap holds it.
    pub fn put<L: Ledger>(&mut self, slot: u32, key: Key, steps: &mut Steps<L>)
        requires { slot < length self.old.cells }
        ensures list { list_of self.new ≡ placed (slot, key) (without slot (list_of self.old)) }
        ensures cap { length self.new.cells ≡ length self.old.cells }
        ensures spot { self.new.spot ≡ self.old.spot }
        ensures steps { steps.new ≤ steps.old + 12 * bits (max self.old.len self.new.len) + 26 }
    {
        let place = place_of(&self.cells, slot, steps);
        if place < self.len {
            self.rekey(place, slot, key, steps);
        } else {
            self.insert(slot, key, steps);
        }
    }

    /// Takes a slot out, if the heap holds it.
    pub fn take_out<L: Ledger>(&mut self, slot: u32, steps: &mut Steps<L>)
        requires { slot < length self.old.cells }
        ensures list { list_of self.new ≡ without slot (list_of self.old) }
        ensures cap { length self.new.cells ≡ length self.old.cells }
        ensures spot { self.new.spot ≡ self.old.spot }
        ensures steps { steps.new ≤ steps.old + 12 * bits (max self.old.len self.new.len) + 26 }
    {
        let place = place_of(&self.cells, slot, steps);
        if place < self.len {
            self.remove_at(place, slot, steps);
        }
    }
}

/// Moves an item that took the place of another to where it belongs.
fn sift<L: Ledger>(
    cells: &mut Cells,
    len: u32,
    from: u32,
    had_slot: u32,
    had: Key,
    slot: u32,
    key: Key,
    steps: &mut Steps<L>,
)
    requires { MayMove cells.old.list len from (had_slot, had) (slot, key) }
    ensures sifted { IsSifted cells.old.list cells.new.list len }
    ensures spot { cells.new.spot ≡ cells.old.spot }
    ensures steps { (b : ℕ) → len < 2 ^ b → steps.new ≤ steps.old + 10 * b + 2 }
{
    if stands_before(slot, key, had_slot, had) {
        sift_up(cells, len, from, slot, key, steps);
    } else {
        sift_down(cells, len, from, slot, key, steps);
    }
}
