//! The bytes of all pages of a pool, stored from the first write to a page on.

ghost use Rattle.std.specs.Prelude.{◌≡◌, ◌≢◌, ℕ, ◌+◌, ◌-◌, ◌*◌, ◌<◌, ◌≤◌, max, min, length, replicate, slice_index, vec_len, vec_capacity, IfOk};
ghost use Rattle.msg_pool.specs.Pages.{byte_at};

use std::alloc::{AllocError, Global};
use std::marker::Model;

/// How many bytes a page has.
pub(crate) const PAGE: u32 = 4096;

/// The bytes of so many pages, all zero at first. The room for all of them is taken at opening, but a page's bytes are
/// stored only when it is first written, so that the system hands out no memory for them before.
#[derive(Drop)]
pub(crate) struct Block {
    // The bytes of the first pages. Those of all later pages are zero.
    stored: Vec<u8>,
    // How many bytes of each stored page count, from its first one on. Its other bytes are zero, whatever is stored.
    ends: Vec<u16>,
    pages: u32,
}

impl Model for Block {
    ghost use Rattle.std.specs.Prelude.{ℕ, ◌*◌, List, vec_capacity};

    ghost Value = { List ℕ };

    ghost use Rattle.msg_pool.specs.Stored.{bytes_in, AreStored};

    ghost view = { λ b. bytes_in b.stored.items b.ends.items (b.pages * 4096) };

    ghost invariant = { λ b. AreStored b.stored.items b.ends.items (vec_capacity b.stored) (vec_capacity b.ends) b.pages };
}

impl Block {
    /// So many pages of zeros. Fails where memory runs out.
    pub(crate) fn new(alloc: Global, pages: u32) -> Result<Block, AllocError>
        ensures { IfOk result (λ block. block ≡ replicate (pages * 4096) 0) }
    {
        let stored = Vec::with_capacity(alloc, pages as usize * PAGE as usize)?;
        let ends = Vec::with_capacity(alloc, pages as usize)?;
        Ok(Block {
            stored,
            ends,
            pages,
        })
    }

    /// Writes bytes over those of a page from `place` on.
    pub(crate) fn put_piece(&mut self, page: u32, place: usize, piece: &[u8])
        requires page { page * 4096 + 4096 ≤ length self.old }
        requires fits { place + length piece.now ≤ 4096 }
        ensures len { length self.new ≡ length self.old }
        ensures put { (k : ℕ) → k < length piece.now → byte_at self.new page (place + k) ≡ slice_index piece.now k }
        ensures before { (k : ℕ) → k < place → byte_at self.new page k ≡ byte_at self.old page k }
        ensures behind { (k : ℕ) → place + length piece.now ≤ k → byte_at self.new page k ≡ byte_at self.old page k }
        ensures others { (q k : ℕ) → k < 4096 → q ≢ page → byte_at self.new q k ≡ byte_at self.old q k }
    {
        store_page(&mut self.stored, &mut self.ends, page);
        let end = self.ends[page as usize] as usize;
        zero_gap(&mut self.stored, page, end, place);
        put_stored(&mut self.stored, page, place, piece);
        raise_end(&mut self.ends, page, place + piece.len());
    }

    /// Makes each byte of a page zero.
    pub(crate) fn zero_page(&mut self, page: u32)
        requires { page * 4096 + 4096 ≤ length self.old }
        ensures len { length self.new ≡ length self.old }
        ensures zeros { (k : ℕ) → k < 4096 → byte_at self.new page k ≡ 0 }
        ensures others { (q k : ℕ) → k < 4096 → q ≢ page → byte_at self.new q k ≡ byte_at self.old q k }
    {
        end_at_first(&mut self.ends, page);
    }

    /// Copies the bytes of a page to those of a list from `from` on, as far as there are any.
    pub(crate) fn copy_piece(&self, page: u32, out: &mut [u8], from: usize)
        requires page { page * 4096 + 4096 ≤ length self.now }
        requires from { from ≤ length out.old }
        ensures copied { (k : ℕ) → k < 4096 → from + k < length out.old → slice_index out.new (from + k) ≡ byte_at self.now page k }
        ensures before { (k : ℕ) → k < from → slice_index out.new k ≡ slice_index out.old k }
    {
        let count = count_from(out.len(), from);
        let counted = counted(&self.ends, page, count);
        copy_stored(&self.stored, page, out, from, counted);
        zero_part(out, from + counted, from + count);
    }
}

// Stores zeros up to the end of a page, where it isn't stored yet.
fn store_page(stored: &mut Vec<u8>, ends: &mut Vec<u16>, page: u32)
    requires room { page * 4096 + 4096 ≤ vec_capacity stored.old }
    requires room_of_ends { page < vec_capacity ends.old }
    requires whole { vec_len stored.old ≡ vec_len ends.old * 4096 }
    ensures len { vec_len ends.new ≡ max (vec_len ends.old) (page + 1) }
    ensures whole { vec_len stored.new ≡ vec_len ends.new * 4096 }
    ensures bytes { (i : ℕ) → slice_index stored.new.items i ≡ slice_index stored.old.items i }
    ensures ends { (q : ℕ) → slice_index ends.new.items q ≡ slice_index ends.old.items q }
    ensures capacity { vec_capacity stored.old ≤ vec_capacity stored.new }
    ensures capacity_of_ends { vec_capacity ends.old ≤ vec_capacity ends.new }
{
    let count = page as usize + 1;
    if ends.len() < count {
        let Ok(()) = stored.resize(count * PAGE as usize, 0) else {
            unreachable!()
        };
        let Ok(()) = ends.resize(count, 0) else {
            unreachable!()
        };
    }
}

// Makes the bytes of a page that is stored from `end` to before `place` zero, if there are any.
fn zero_gap(stored: &mut Vec<u8>, page: u32, end: usize, place: usize)
    requires page { page * 4096 + 4096 ≤ vec_len stored.old }
    requires place { place ≤ 4096 }
    ensures len { vec_len stored.new ≡ vec_len stored.old }
    ensures capacity { vec_capacity stored.new ≡ vec_capacity stored.old }
    ensures zeros { (k : ℕ) → end ≤ k → k < place → slice_index stored.new.items (page * 4096 + k) ≡ 0 }
    ensures below { (i : ℕ) → i < page * 4096 + end → slice_index stored.new.items i ≡ slice_index stored.old.items i }
    ensures behind { (i : ℕ) → page * 4096 + place ≤ i → slice_index stored.new.items i ≡ slice_index stored.old.items i }
{
    if end < place {
        let start = page as usize * PAGE as usize;
        stored[start + end..start + place].fill(0);
    }
}

// Writes bytes over those of a page that is stored, from `place` on.
fn put_stored(stored: &mut Vec<u8>, page: u32, place: usize, piece: &[u8])
    requires page { page * 4096 + 4096 ≤ vec_len stored.old }
    requires fits { place + length piece.now ≤ 4096 }
    ensures len { vec_len stored.new ≡ vec_len stored.old }
    ensures capacity { vec_capacity stored.new ≡ vec_capacity stored.old }
    ensures put { (k : ℕ) → k < length piece.now → slice_index stored.new.items (page * 4096 + place + k) ≡ slice_index piece.now k }
    ensures before { (i : ℕ) → i < page * 4096 + place → slice_index stored.new.items i ≡ slice_index stored.old.items i }
    ensures after { (i : ℕ) → page * 4096 + place + length piece.now ≤ i → slice_index stored.new.items i ≡ slice_index stored.old.items i }
{
    let from = page as usize * PAGE as usize + place;
    stored[from..from + piece.len()].copy_from_slice(piece);
}

// Raises how many bytes of a page count to this number, if they are fewer.
fn raise_end(ends: &mut Vec<u16>, page: u32, place: usize)
    requires page { page < vec_len ends.old }
    requires place { place ≤ 4096 }
    ensures len { vec_len ends.new ≡ vec_len ends.old }
    ensures capacity { vec_capacity ends.new ≡ vec_capacity ends.old }
    ensures end { slice_index ends.new.items page ≡ max (slice_index ends.old.items page) place }
    ensures others { (q : ℕ) → q ≢ page → slice_index ends.new.items q ≡ slice_index ends.old.items q }
{
    if (ends[page as usize] as usize) < place {
        ends[page as usize] = place as u16;
    }
}

// Makes no byte of a page count.
fn end_at_first(ends: &mut Vec<u16>, page: u32)
    ensures len { vec_len ends.new ≡ vec_len ends.old }
    ensures capacity { vec_capacity ends.new ≡ vec_capacity ends.old }
    ensures none { slice_index ends.new.items page ≡ 0 }
    ensures others { (q : ℕ) → q ≢ page → slice_index ends.new.items q ≡ slice_index ends.old.items q }
{
    if (page as usize) < ends.len() {
        ends[page as usize] = 0;
    }
}

// How many bytes of a list stand from a place on, of a page at most.
fn count_from(len: usize, from: usize) -> usize
    requires { from ≤ len }
    ensures { result ≡ min (len - from) 4096 }
{
    (len - from).min(PAGE as usize)
}

// How many bytes of a page count, of its first so many.
fn counted(ends: &[u16], page: u32, count: usize) -> usize
    ensures counted { result ≡ min count (slice_index ends.now page) }
    ensures stored { 0 < result → page < length ends.now }
{
    match ends.get(page as usize) {
        Some(end) => count.min(*end as usize),
        None => 0,
    }
}

// Copies the first bytes of a page that is stored to those of a list from `from` on, so many.
fn copy_stored(stored: &[u8], page: u32, out: &mut [u8], from: usize, count: usize)
    requires page { 0 < count → page * 4096 + 4096 ≤ length stored.now }
    requires fits { from + count ≤ length out.old }
    requires within { count ≤ 4096 }
    ensures len { length out.new ≡ length out.old }
    ensures copied { (k : ℕ) → k < count → slice_index out.new (from + k) ≡ slice_index stored.now (page * 4096 + k) }
    ensures before { (k : ℕ) → k < from → slice_index out.new k ≡ slice_index out.old k }
{
    if count > 0 {
        let start = page as usize * PAGE as usize;
        out[from..from + count].copy_from_slice(&stored[start..start + count]);
    }
}

// Makes the bytes of a list from a place to before another one zero.
fn zero_part(out: &mut [u8], from: usize, to: usize)
    requires order { from ≤ to }
    requires within { to ≤ length out.old }
    ensures len { length out.new ≡ length out.old }
    ensures zeros { (k : ℕ) → from ≤ k → k < to → slice_index out.new k ≡ 0 }
    ensures before { (k : ℕ) → k < from → slice_index out.new k ≡ slice_index out.old k }
{
    out[from..to].fill(0);
}
