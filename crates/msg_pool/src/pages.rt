//! Chains of pages in a block, by a table of next pages.

ghost use Rattle.std.specs.Prelude.{◌≡◌, ◌≢◌, ℕ, ◌+◌, ◌-◌, ◌*◌, ◌<◌, ◌≤◌, length, slice_index, vec_len, IfOk};
ghost use Rattle.msg_pool.specs.Pages.{pages_for, byte_at, page_at, IsChain, HasNoRepeat};
ghost use Rattle.msg_pool.specs.Near.{IsNear};

use crate::block::{Block, PAGE};
use std::alloc::{AllocError, Global};

/// A chain of pages that holds `len` bytes, from the page `first` on.
#[derive(Clone, Copy)]
pub(crate) struct Chain {
    pub(crate) first: u32,
    pub(crate) len: u32,
}

/// The page that was found last: so many steps after the first one of a chain.
#[derive(Clone, Copy)]
pub(crate) struct Near {
    pub(crate) first: u32,
    pub(crate) steps: u32,
    pub(crate) page: u32,
}

/// The table in which each page is followed by the one with the next number.
pub(crate) fn linked(alloc: Global, pages: u32) -> Result<Vec<u32>, AllocError>
    requires { pages ≤ 4096 }
    ensures len { IfOk result (λ next. vec_len next ≡ pages) }
    ensures linked { IfOk result (λ next. (k : ℕ) → k < pages → slice_index next.items k ≡ k + 1) }
{
    let mut next = Vec::with_capacity(alloc, pages as usize)?;
    for page in 0..pages {
        next.push(page + 1)?;
    }
    Ok(next)
}

/// The page that is so many steps after the first one of a chain.
pub(crate) fn nth_page(next: &[u32], first: u32, steps: u32) -> u32
    requires { IsChain next.now first steps }
    ensures { result ≡ page_at next.now first steps }
{
    let mut page = first;
    for _ in 0..steps {
        page = next[page as usize];
    }
    page
}

/// The page that is so many steps after the first one of a chain, from the last one that was found on, if that comes
/// before it. Afterwards it is the last one that was found.
fn near_page(next: &[u32], near: &mut Near, first: u32, steps: u32) -> u32
    requires chain { IsChain next.now first steps }
    requires near { IsNear next.now near.old }
    ensures page { result ≡ page_at next.now first steps }
    ensures near { IsNear next.now near.new }
{
    let page = if near.first == first && near.steps <= steps {
        nth_page(next, near.page, steps - near.steps)
    } else {
        nth_page(next, first, steps)
    };
    *near = Near { first, steps, page };
    page
}

/// Makes each byte of so many pages of a chain zero, and returns the page after them.
pub(crate) fn zero_chain(block: &mut Block, next: &[u32], first: u32, count: u32) -> u32
    requires block { length block.old ≡ length next.now * 4096 }
    requires chain { IsChain next.now first count }
    ensures page { result ≡ page_at next.now first count }
    ensures len { length block.new ≡ length block.old }
    ensures zeros { (i k : ℕ) → i < count → k < 4096 → byte_at block.new (page_at next.now first i) k ≡ 0 }
    ensures kept { (q k : ℕ) → k < 4096 → ((i : ℕ) → i < count → q ≢ page_at next.now first i) → byte_at block.new q k ≡ byte_at block.old q k }
{
    let mut page = first;
    for _ in 0..count {
        block.zero_page(page);
        page = next[page as usize];
    }
    page
}

/// Writes bytes over those of a chain of pages from `offset` on, and finds the page where they begin.
pub(crate) fn write_chain(
    block: &mut Block,
    next: &[u32],
    near: &mut Near,
    first: u32,
    offset: u32,
    bytes: &[u8],
)
    requires size { offset + length bytes.now ≤ 1000000 }
    requires block { length block.old ≡ length next.now * 4096 }
    requires chain { IsChain next.now first (pages_for (offset + length bytes.now)) }
    requires apart { HasNoRepeat next.now first (pages_for (offset + length bytes.now)) }
    requires near { IsNear next.now near.old }
    ensures near { IsNear next.now near.new }
    ensures len { length block.new ≡ length block.old }
    ensures written { (i k : ℕ) → k < 4096 → offset ≤ i * 4096 + k → i * 4096 + k < offset + length bytes.now
        → byte_at block.new (page_at next.now first i) k ≡ slice_index bytes.now (i * 4096 + k - offset) }
    ensures kept { (q k : ℕ) → k < 4096 → ((i : ℕ) → offset ≤ i * 4096 + k → i * 4096 + k < offset + length bytes.now → q ≢ page_at next.now first i)
        → byte_at block.new q k ≡ byte_at block.old q k }
{
    let end = offset + bytes.len() as u32;
    let mut page = near_page(next, near, first, offset / PAGE);
    for i in offset / PAGE..end.div_ceil(PAGE) {
        let start = i * PAGE;
        let from = offset.max(start);
        let to = end.min(start + PAGE);
        let piece = &bytes[(from - offset) as usize..(to - offset) as usize];
        block.put_piece(page, (from - start) as usize, piece);
        page = next[page as usize];
    }
}

/// Copies the bytes of a chain of pages to a list, as many as it has.
pub(crate) fn copy_chain(block: &Block, next: &[u32], first: u32, out: &mut [u8])
    requires size { length out.old ≤ 1000000 }
    requires block { length block.now ≡ length next.now * 4096 }
    requires chain { IsChain next.now first (pages_for (length out.old)) }
    ensures { (i k : ℕ) → k < 4096 → i * 4096 + k < length out.old → slice_index out.new (i * 4096 + k) ≡ byte_at block.now (page_at next.now first i) k }
{
    let count = (out.len() as u32).div_ceil(PAGE);
    let mut page = first;
    for i in 0..count {
        block.copy_piece(page, out, (i * PAGE) as usize);
        page = next[page as usize];
    }
}
