//! Reads and writes of items and of their index, and the moves that keep heap order.
ghost use Rattle.std.specs.Prelude.{◌≡◌, ℕ, ◌+◌, ◌-◌, ◌*◌, ◌/◌, ◌^◌, ◌<◌, ◌≤◌, length, slice_set, slice_index};
ghost use Rattle.place_heap.specs.Held.{items_of, places_of, at};
ghost use Rattle.place_heap.specs.Sifted.{CanSiftUp, CanSiftDown, IsSifted, IsLeastChild};

use crate::cells::{Cell, Cells};
use crate::key::{Item, Key, stands_before};
use crate::steps::Steps;
use std::sync::ledger::Ledger;

/// The item in a place, in one step.
pub(crate) fn item_at<L: Ledger>(cells: &Cells, i: u32, steps: &mut Steps<L>) -> Item
    requires { i < length cells.now.list }
    ensures item { result ≡ at (items_of cells.now.list) i }
    ensures steps { steps.new ≡ steps.old + 1 }
{
    let cell = cells.get(i, steps);
    (cell.slot, cell.key)
}

/// The place of a slot, in one step.
pub(crate) fn place_of<L: Ledger>(cells: &Cells, slot: u32, steps: &mut Steps<L>) -> u32
    requires { slot < length cells.now.list }
    ensures place { result ≡ slice_index (places_of cells.now.list) slot }
    ensures steps { steps.new ≡ steps.old + 1 }
{
    cells.get(slot, steps).at
}

/// Puts an item in a place, in two steps.
pub(crate) fn put_item<L: Ledger>(
    cells: &mut Cells,
    i: u32,
    slot: u32,
    key: Key,
    steps: &mut Steps<L>,
)
    requires { i < length cells.old.list }
    ensures items { items_of cells.new.list ≡ slice_set (items_of cells.old.list) i (slot, key) }
    ensures places { places_of cells.new.list ≡ places_of cells.old.list }
    ensures len { length cells.new.list ≡ length cells.old.list }
    ensures spot { cells.new.spot ≡ cells.old.spot }
    ensures steps { steps.new ≡ steps.old + 2 }
{
    let at = cells.get(i, steps).at;
    cells.put(i, Cell { key, slot, at }, steps);
}

/// Notes the place of a slot, in one step.
pub(crate) fn put_place<L: Ledger>(cells: &mut Cells, slot: u32, place: u32, steps: &mut Steps<L>)
    requires { slot < length cells.old.list }
    ensures items { items_of cells.new.list ≡ items_of cells.old.list }
    ensures places { places_of cells.new.list ≡ slice_set (places_of cells.old.list) slot place }
    ensures len { length cells.new.list ≡ length cells.old.list }
    ensures spot { cells.new.spot ≡ cells.old.spot }
    ensures steps { steps.new ≡ steps.old + 1 }
{
    cells.put_at(slot, place, steps);
}

/// Puts an item in a place and notes the place of its slot, in three steps.
pub(crate) fn place_item<L: Ledger>(
    cells: &mut Cells,
    i: u32,
    slot: u32,
    key: Key,
    steps: &mut Steps<L>,
)
    requires place { i < length cells.old.list }
    requires slot { slot < length cells.old.list }
    ensures items { items_of cells.new.list ≡ slice_set (items_of cells.old.list) i (slot, key) }
    ensures places { places_of cells.new.list ≡ slice_set (places_of cells.old.list) slot i }
    ensures len { length cells.new.list ≡ length cells.old.list }
    ensures spot { cells.new.spot ≡ cells.old.spot }
    ensures steps { steps.new ≡ steps.old + 3 }
{
    put_item(cells, i, slot, key, steps);
    put_place(cells, slot, i, steps);
}

/// Moves the item at a place up, until its parent stands before it.
pub(crate) fn sift_up<L: Ledger>(
    cells: &mut Cells,
    len: u32,
    from: u32,
    slot: u32,
    key: Key,
    steps: &mut Steps<L>,
)
    requires { CanSiftUp cells.old.list len from (slot, key) }
    ensures sifted { IsSifted cells.old.list cells.new.list len }
    ensures spot { cells.new.spot ≡ cells.old.spot }
    ensures steps { (b : ℕ) → from < 2 ^ b → steps.new ≤ steps.old + 9 * b + 1 }
{
    let mut i = from;
    'up: while i > 0 {
        let above = (i - 1) / 2;
        let (other_slot, other) = item_at(cells, above, steps);
        if !stands_before(slot, key, other_slot, other) {
            return;
        }
        place_item(cells, i, other_slot, other, steps);
        place_item(cells, above, slot, key, steps);
        i = above;
    }
}

/// The child of a place whose item stands before that of the other, in at most two steps.
fn least_child<L: Ledger>(cells: &Cells, len: u32, i: u32, steps: &mut Steps<L>) -> (u32, Item)
    requires within { len ≤ length cells.now.list }
    requires small { length cells.now.list ≤ 8192 }
    requires child { 2 * i + 1 < len }
    ensures least { IsLeastChild (items_of cells.now.list) len i result.0 result.1 }
    ensures steps { steps.new ≤ steps.old + 2 }
{
    let left = 2 * i + 1;
    let item = item_at(cells, left, steps);
    let right = left + 1;
    if right == len {
        return (left, item);
    }
    let other = item_at(cells, right, steps);
    if stands_before(other.0, other.1, item.0, item.1) {
        (right, other)
    } else {
        (left, item)
    }
}

/// Moves the item at a place down, until it stands before its children.
pub(crate) fn sift_down<L: Ledger>(
    cells: &mut Cells,
    len: u32,
    from: u32,
    slot: u32,
    key: Key,
    steps: &mut Steps<L>,
)
    requires { CanSiftDown cells.old.list len from (slot, key) }
    ensures sifted { IsSifted cells.old.list cells.new.list len }
    ensures spot { cells.new.spot ≡ cells.old.spot }
    ensures steps { (b : ℕ) → len < 2 ^ b → steps.new ≤ steps.old + 10 * b + 2 }
{
    let mut i = from;
    'down: while 2 * i + 1 < len {
        let (below, (other_slot, other)) = least_child(cells, len, i, steps);
        if !stands_before(other_slot, other, slot, key) {
            return;
        }
        place_item(cells, i, other_slot, other, steps);
        place_item(cells, below, slot, key, steps);
        i = below;
    }
}
