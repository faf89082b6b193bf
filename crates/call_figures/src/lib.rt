//! The calls of a simulated run: what is known of each, how long it takes alone, and how much slower it was, by rank.
//!
//! Moments and spans are picoseconds. A call is found by its id, in whichever life of its client it was made.
//! Main promises: a call alone takes as long as its bytes need on two links, with their delays. A rank is the nearest one of all calls
//! that were measured. Those that are open or failed are slower than all others.
#![tactic(auto)]

mod alone;
mod calls;
mod figures;
mod interval;
mod ranks;
mod transfer;
mod transfers;

pub use alone::{call_alone, message_alone, response_to};
pub use calls::{CallEnd, SimCall, SimCalls};
pub use figures::{Figures, Slowdowns};
pub use interval::Interval;
pub use ranks::{Rank, rank_of};
pub use transfer::Transfer;
pub use transfers::Transfers;
