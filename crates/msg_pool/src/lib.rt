//! Room for the bytes of messages, all of it taken at opening.
//!
//! A [`MsgPool`] is one block of pages; a [`Lease`] is the right to some of its bytes, which stand in a chain of pages.
//! A contract sees the pool as its number of pages and a map from the leases' numbers to their bytes, and a lease as
//! its number and its length. A new lease is all zeros, a write changes the bytes of one lease alone, and the pages of
//! the leases and the free ones add up to all pages. Only `new` takes memory.
#![tactic(auto)]

mod block;
mod pages;
mod pool;
mod scratch;

pub use pool::{Lease, MsgPool, PoolFull};
pub use scratch::Scratch;
