//! A heap of slots by key, ties by slot, in one block of raw memory that is taken once.
//!
//! The model: a `PlaceHeap` is its cells and the number of its items, and `list_of` shows it as the
//! sorted list of its slots with their keys. The promise: each call changes that list exactly as it
//! says, in a number of steps that grows with the binary digits of the length; one read or write of a
//! cell is one step, in any ledger. `Cells` alone touches raw memory.
#![tactic(auto)]

mod cells;
mod front;
mod heap;
mod heaps;
mod key;
mod sift;
mod steps;

pub use cells::{Cell, Cells};
pub use heap::PlaceHeap;
pub use heaps::PlaceHeaps;
pub use key::{Item, Key};
pub use steps::Steps;
