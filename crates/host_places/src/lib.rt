//! Rows of calls at fixed places.
//!
//! A [`Rows`] has room for so many rows, all of it taken at opening. A call's row gets a free place and stays there
//! until it is removed, so that a place may stand for the row; a call is found by halving an index in order of call.
//! The model: how many places there are, and the map from each call to its place and row. The promise: a call here
//! changes the row of its own call alone, each place is below the room, and no two calls have one place. Only `open`
//! takes memory.
#![tactic(auto)]

mod index;
mod table;

pub use table::Rows;
