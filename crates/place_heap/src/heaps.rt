//! Heaps whose cells lie in one block. The cells of one place of all heaps stand side by side, so that the first
//! cells of all heaps share pages.
ghost use Rattle.std.specs.Prelude.{◌≡◌, ◌+◌, ◌<◌, ◌≤◌, List, [], ◌∷◌, ◌++◌, length, IfOk, OnOk, Option, slice_index_or, slice_set};
ghost use Rattle.std.specs.List.{AllByRecursion};
ghost use Rattle.place_heap.specs.declared.cells.Cell.{Cell};
ghost use Rattle.place_heap.specs.Held.{Held, list_of};
ghost use Rattle.place_heap.specs.Order.{replaced};
ghost use Rattle.place_heap.specs.Heaps.{IsEmpty, IsReplaced, AreBefore, no_heap};

use crate::cells::{Base, Cells, Pile, allocate, free};
use crate::heap::PlaceHeap;
use crate::key::Key;
use crate::steps::Steps;
use std::alloc::{AllocError, Global};
use std::marker::{Brand, Model};
use std::sync::ledger::{Blank, Ledger};

/// Heaps of as many slots each, by their numbers.
pub struct PlaceHeaps {
    heaps: Vec<PlaceHeap>,
    base: Base,
    many: u32,
    cap: u32,
    pile: Pile,
    alloc: Global,
}

impl Model for PlaceHeaps {
    ghost use Rattle.std.specs.Prelude.{vec_capacity, ◌≤◌};
    ghost use Rattle.place_heap.specs.Heaps.{Heaps, AreLaid};

    ghost Value = { Heaps };

    ghost view = { λ h. record { list = h.heaps.items; many = h.many; cap = h.cap } };

    ghost invariant = { λ h. AreLaid h.heaps.items h.base h.many h.cap h.pile.base h.pile.len h.pile.strips ×
        (h.many ≤ vec_capacity h.heaps) };
}

impl PlaceHeaps {
    /// So many empty heaps of slots below `cap`. Fails where memory runs out.
    pub fn open(alloc: Global, many: u32, cap: u32) -> Result<PlaceHeaps, AllocError>
        requires { (many ≤ 32) × (cap ≤ 8192) }
        ensures many { IfOk result (λ heaps. length heaps.list ≡ many) }
        ensures empty { IfOk result (λ heaps. AllByRecursion (IsEmpty cap) heaps.list) }
    {
        let mut heaps = PlaceHeaps::reserve(alloc, many, cap)?;
        for _ in 0..many {
            heaps.grow()?;
        }
        Ok(heaps)
    }

    // Room for so many heaps.
    fn reserve(alloc: Global, many: u32, cap: u32) -> Result<PlaceHeaps, AllocError>
        requires { (many ≤ 32) × (cap ≤ 8192) }
        ensures { IfOk result (λ heaps. heaps ≡ record { list = []; many = many; cap = cap }) }
    {
        let heaps = Vec::with_capacity(alloc, many as usize)?;
        let (base, pile) = allocate(&alloc, many as usize, cap as usize)?;
        Ok(PlaceHeaps {
            heaps,
            base,
            many,
            cap,
            pile,
            alloc,
        })
    }

    // One more empty heap.
    fn grow(&mut self) -> Result<(), AllocError>
        requires { length self.old.list < self.old.many }
        ensures more { OnOk result ((h : Held) ×
            (self.new ≡ record self.old { list = self.old.list ++ h ∷ [] }) × IsEmpty self.old.cap h) }
    {
        let first = self.heaps.len();
        let cells = Cells::part(self.alloc, self.base, first, self.cap, &mut self.pile)?;
        self.heaps.push_reserved(PlaceHeap { cells, len: 0 });
        Ok(())
    }

    /// A heap by its number.
    pub fn get(&self, i: u32) -> &PlaceHeap
        requires { i < length self.now.list }
        ensures { result.now ≡ slice_index_or self.now.list i no_heap }
    {
        &self.heaps[i as usize]
    }

    /// Gives a slot of a heap this key, or takes it out where there is none, whether or not the heap holds it.
    pub fn replace(&mut self, i: u32, slot: u32, key: Option<Key>)
        requires heap { i < length self.old.list }
        requires slot { slot < length (slice_index_or self.old.list i no_heap).cells }
        ensures { (h : Held) × (self.new ≡ record self.old { list = slice_set self.old.list i h }) ×
            IsReplaced slot key (slice_index_or self.old.list i no_heap) h }
    {
        replace::<Brand>(&mut self.heaps[i as usize], slot, key, Blank::new(1));
    }
}

// Gives a slot this key, or takes it out, and counts the steps in this ledger.
fn replace<L: Ledger>(heap: &mut PlaceHeap, slot: u32, key: Option<Key>, blank: Blank)
    requires blank { (blank.name ≡ L.name) × (blank.parts ≡ L.parts) × (0 < L.parts) }
    requires slot { slot < length heap.old.cells }
    ensures list { list_of heap.new ≡ replaced slot key (list_of heap.old) }
    ensures cap { length heap.new.cells ≡ length heap.old.cells }
    ensures spot { heap.new.spot ≡ heap.old.spot }
{
    let mut steps = Steps::<L>::new(blank);
    match key {
        Some(key) => heap.put(slot, key, &mut steps),
        None => heap.take_out(slot, &mut steps),
    }
}

// Puts the cells of heaps back into their block, the last first.
fn gather(mut heaps: Vec<PlaceHeap>, mut pile: Pile) -> Pile
    requires { AreBefore heaps.items pile.base pile.len pile.strips }
    ensures base { result.base ≡ record pile.base { first = 0 } }
    ensures len { result.len ≡ pile.len }
    ensures many { length result.strips ≡ length heaps.items + length pile.strips }
    ensures even { AllByRecursion (λ (cells : List (Option Cell)). length cells ≡ pile.len) result.strips }
{
    while let Some(heap) = heaps.pop() {
        pile.join(heap.into_block());
    }
    pile
}

impl Drop for PlaceHeaps {
    fn drop(self) {
        let PlaceHeaps {
            heaps,
            base,
            many,
            cap,
            pile,
            alloc,
        } = self;
        let pile = gather(heaps, pile);
        free(&alloc, base, many as usize, cap as usize, pile);
    }
}
