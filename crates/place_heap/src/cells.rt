//! A block of cells in raw memory, which are first written when they are put.
ghost use Rattle.std.specs.Prelude.{
  ◌≡◌,
  ◌≢◌,
  ℕ,
  ◌+◌,
  ◌<◌,
  ◌≤◌,
  List,
  [],
  ◌∷◌,
  Option,
  Some,
  None,
  length,
  replicate,
  slice_index_or,
  slice_set,
  IfOk,
  OnOk,
  OnErr,
  false,
};
ghost use Rattle.place_heap.specs.declared.cells.Cell.{Cell};
ghost use Rattle.place_heap.specs.Ownership.{block_owns, block_lends, pile_owns};
ghost use Rattle.place_heap.specs.declared.cells.Base.{Base};
ghost use Rattle.place_heap.specs.Cells.{cell_at, noted_place, unused_cell, blanks, after, IsNear, IsWhole};

use crate::key::Key;
use crate::steps::Steps;
use std::alloc::{AllocError, Allocator, Global};
use std::marker::Model;
use std::mem::{align_of, size_of};
use std::sync::ledger::Ledger;

/// What lies in one cell: an item of the heap, and the place of the slot that the cell is for.
#[derive(Clone, Copy, Debug, PartialEq, Eq)]
pub struct Cell {
    pub key: Key,
    pub slot: u32,
    pub at: u32,
}

/// Where the cells of a heap lie: the first is the cell `first` of a block, and each other lies `stride` cells behind
/// the one before. A copy of it owns nothing.
#[derive(Clone, Copy)]
pub(crate) struct Base {
    ptr: *mut Cell,
    first: usize,
    stride: usize,
}

impl Base {
    /// The base of another heap in the same block.
    fn of_heap(self, first: usize) -> Base
        ensures { result ≡ record self { first = first } }
    {
        Base { first, ..self }
    }
}

/// The owner of the cells of one heap. It takes no bytes.
#[derive(Drop)]
pub(crate) struct Block {
    ghost base: { Base },
    ghost slots: { List (Option Cell) },
}

impl Model for Block {
    ghost also_owns = { λ b. block_owns b.base b.slots };

    ghost also_shares = { λ b _ κ. block_lends b.base b.slots κ };
}

/// The owner of what is left of a block of `stride` heaps of `len` cells, from the heap `first` on, and of the right
/// to free it. It takes no bytes.
#[derive(Drop)]
pub(crate) struct Pile {
    ghost base: { Base },
    ghost len: { ℕ },
    ghost strips: { List (List (Option Cell)) },
}

impl Model for Pile {
    ghost also_owns = { λ p. pile_owns p.base p.len p.strips };
}

/// Takes room for `many` heaps of `len` cells.
pub(crate) fn allocate(alloc: &Global, many: usize, len: usize) -> Result<(Base, Pile), AllocError>
    requires { (many ≤ 32) × (len ≤ 8192) }
    ensures { IfOk result (λ r. (r.0.first ≡ 0) × (r.0.stride ≡ many) ×
        (r.1 ≡ record { base = r.0; len = len; strips = replicate many (blanks len) })) }
{
    match alloc.allocate(len * many * size_of::<Cell>(), align_of::<Cell>()) {
        Ok(block) => {
            let base = Base {
                ptr: block as *mut Cell,
                first: 0,
                stride: many,
            };
            Ok((base, Pile {}))
        }
        Err(error) => Err(error),
    }
}

/// Gives a block back to the allocator.
pub(crate) fn free(alloc: &Global, base: Base, many: usize, len: usize, pile: Pile)
    requires { (pile.base ≡ base) × (base.first ≡ 0) × (base.stride ≡ many) × (pile.len ≡ len) ×
        IsWhole many len pile.strips × (many ≤ 32) × (len ≤ 8192) }
{
    let Pile {} = pile;
    unsafe {
        alloc.deallocate(
            base.ptr as *mut u8,
            len * many * size_of::<Cell>(),
            align_of::<Cell>(),
        );
    }
}

impl Pile {
    /// Takes the cells of the first heap out.
    fn split(&mut self) -> Block
        requires { self.old.strips ≢ [] }
        ensures { (result.base ≡ self.old.base) × (self.old.strips ≡ result.slots ∷ self.new.strips) ×
            (self.new ≡ record self.old { base = after self.old.base; strips = self.new.strips }) }
    {
        Block {}
    }

    /// Puts the cells of a heap back before the others.
    pub(crate) fn join(&mut self, block: Block)
        requires { after block.base ≡ self.old.base }
        ensures { self.new ≡ record self.old { base = block.base; strips = block.slots ∷ self.old.strips } }
    {
        let Block {} = block;
    }
}

impl Block {
    /// Puts a value into a cell, whatever was there.
    fn write(&mut self, base: Base, index: usize, cell: Cell)
        requires { (base ≡ self.old.base) × IsNear base ×
            (index < length self.old.slots) × (length self.old.slots ≤ 8192) }
        ensures { self.new ≡ record self.old { slots = slice_set self.old.slots index (Some cell) } }
    {
        unsafe { base.ptr.add(index * base.stride + base.first).write(cell) }
    }

    /// Puts another place into a cell that was written.
    fn write_place(&mut self, base: Base, index: usize, at: u32)
        requires { (base ≡ self.old.base) × IsNear base × (length self.old.slots ≤ 8192) ×
            ((x : Cell) × (slice_index_or self.old.slots index None ≡ Some x)) }
        ensures { (x : Cell) × (slice_index_or self.old.slots index None ≡ Some x) ×
            (self.new ≡ record self.old { slots = slice_set self.old.slots index (Some (record x { at = at })) }) }
    {
        unsafe { (*base.ptr.add(index * base.stride + base.first)).at = at }
    }

    /// Returns the value of a cell that was written.
    fn read(&self, base: Base, index: usize) -> &Cell
        requires { (base ≡ self.now.base) × IsNear base × (length self.now.slots ≤ 8192) ×
            ((x : Cell) × (slice_index_or self.now.slots index None ≡ Some x)) }
        ensures { slice_index_or self.now.slots index None ≡ Some result.now }
    {
        unsafe { &*base.ptr.add(index * base.stride + base.first) }
    }
}

// The mark of a cell that was written.
const WRITTEN: u8 = 255;

// The mark of a cell that wasn't written, whose slot is absent.
const ABSENT: u8 = 254;

/// Cells of a heap, each with a value. They are seen as their list, and where they lie. A cell is written when it is
/// first put, so that the system hands out no memory for it before; until then its mark alone says the place of its
/// slot.
pub struct Cells {
    base: Base,
    cap: u32,
    block: Block,
    // The right to free the block, if no other heap lies in it.
    right: Option<Pile>,
    marks: Vec<u8>,
    alloc: Global,
}

impl Model for Cells {
    ghost use Rattle.place_heap.specs.Held.{Laid};
    ghost use Rattle.std.specs.Prelude.{is_some};
    ghost use Rattle.std.specs.Option.{ForSome};
    ghost use Rattle.place_heap.specs.Cells.{laid, AreCells, IsRight};

    ghost Value = { Laid };

    ghost view = { λ c. laid c.marks.items c.block.base c.block.slots (is_some c.right) c.cap };

    ghost invariant = { λ c. AreCells c.base c.marks.items c.block.base c.block.slots c.cap ×
        ForSome c.right (λ p. IsRight c.base c.cap p.base p.len p.strips) };
}

// A cell with no item.
#[inline(always)]
fn unused(at: u32) -> Cell
    ensures { result ≡ unused_cell at }
{
    let key = Key {
        first: 0,
        second: 0,
    };
    Cell { key, slot: 0, at }
}

// Where the slot of a cell is by its mark.
#[inline(always)]
fn place_of_mark(mark: u8, cap: u32) -> u32
    ensures { result ≡ noted_place cap mark }
{
    if mark == ABSENT { cap } else { u32::from(mark) }
}

// The mark that says where a slot is, and `WRITTEN` where none does.
#[inline(always)]
fn mark_of_place(at: u32, cap: u32) -> u8
    ensures says { result < 255 → noted_place cap result ≡ at }
    ensures none { result ≡ 255 → (254 ≤ at) × (at ≢ cap) }
{
    if at == cap {
        ABSENT
    } else if at < u32::from(ABSENT) {
        at as u8
    } else {
        WRITTEN
    }
}

impl Cells {
    /// `cap` cells, which no slot and no item is in. Fails where memory runs out.
    pub fn new(alloc: Global, cap: u32) -> Result<Cells, AllocError>
        requires { cap ≤ 8192 }
        ensures { IfOk result (λ cells. cells.list ≡ replicate cap (unused_cell cap)) }
    {
        let marks = vec![in alloc; ABSENT; cap as usize]?;
        let (base, mut pile) = allocate(&alloc, 1, cap as usize)?;
        let block = pile.split();
        Ok(Cells {
            base,
            cap,
            block,
            right: Some(pile),
            marks,
            alloc,
        })
    }

    /// `cap` cells, which no slot and no item is in, as the first of what is left of a block.
    pub(crate) fn part(
        alloc: Global,
        base: Base,
        first: usize,
        cap: u32,
        pile: &mut Pile,
    ) -> Result<Cells, AllocError>
        requires base { (pile.old.base ≡ record base { first = first }) ×
            (first < 32) × (base.stride ≤ 32) × (cap ≤ 8192) }
        requires strips { (rest : List (List (Option Cell))) × (pile.old.strips ≡ blanks cap ∷ rest) }
        ensures cells { IfOk result (λ cells. cells.list ≡ replicate cap (unused_cell cap)) }
        ensures spot { IfOk result (λ cells. cells.spot ≡ record { base = pile.old.base; frees = false }) }
        ensures pile { OnOk result (
            (pile.new ≡ record pile.old { base = after pile.old.base; strips = pile.new.strips }) ×
            (pile.old.strips ≡ blanks cap ∷ pile.new.strips)) }
        ensures same { OnErr result (pile.new ≡ pile.old) }
    {
        let marks = vec![in alloc; ABSENT; cap as usize]?;
        let block = pile.split();
        Ok(Cells {
            base: base.of_heap(first),
            cap,
            block,
            right: None,
            marks,
            alloc,
        })
    }

    /// Takes cells apart that don't free their block.
    pub(crate) fn into_block(self) -> Block
        requires { self.spot.frees ≡ false }
        ensures base { result.base ≡ self.spot.base }
        ensures len { length result.slots ≡ length self.list }
    {
        let Cells {
            base: _base,
            cap: _cap,
            block,
            right: _right,
            marks: _marks,
            alloc: _alloc,
        } = self;
        block
    }

    /// How many cells there are, at most 8192.
    pub fn cap(&self) -> u32
        ensures len { result ≡ length self.now.list }
        ensures small { result ≤ 8192 }
    {
        self.cap
    }

    /// The cell at a place, in one step.
    pub fn get<L: Ledger>(&self, i: u32, steps: &mut Steps<L>) -> Cell
        requires { i < length self.now.list }
        ensures value { result ≡ cell_at self.now.list i }
        ensures steps { steps.new ≡ steps.old + 1 }
    {
        steps.tick(); // a read
        let mark = self.marks[i as usize];
        if mark == WRITTEN {
            *self.block.read(self.base, i as usize)
        } else {
            unused(place_of_mark(mark, self.cap))
        }
    }

    /// Puts a cell in a place, in one step.
    pub fn put<L: Ledger>(&mut self, i: u32, cell: Cell, steps: &mut Steps<L>)
        requires { i < length self.old.list }
        ensures cells { self.new ≡ record self.old { list = slice_set self.old.list i cell } }
        ensures steps { steps.new ≡ steps.old + 1 }
    {
        steps.tick(); // a write
        self.block.write(self.base, i as usize, cell);
        self.marks[i as usize] = WRITTEN;
    }

    /// Puts another place in a cell, in one step.
    pub fn put_at<L: Ledger>(&mut self, i: u32, at: u32, steps: &mut Steps<L>)
        requires { i < length self.old.list }
        ensures cells { self.new ≡ record self.old {
          list = slice_set self.old.list i (record (cell_at self.old.list i) { at = at });
        } }
        ensures steps { steps.new ≡ steps.old + 1 }
    {
        if self.marks[i as usize] == WRITTEN {
            steps.tick(); // a write
            return self.block.write_place(self.base, i as usize, at);
        }
        let mark = mark_of_place(at, self.cap);
        if mark == WRITTEN {
            return self.put(i, unused(at), steps);
        }
        steps.tick(); // a write
        self.marks[i as usize] = mark;
    }
}

impl Drop for Cells {
    fn drop(self) {
        let Cells {
            base,
            cap,
            block,
            right,
            marks,
            alloc,
        } = self;
        let _marks = marks;
        if let Some(mut pile) = right {
            pile.join(block);
            free(&alloc, base, 1, cap as usize, pile);
        }
    }
}
