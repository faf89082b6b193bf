//! The packets that a world sent, as far as a later delivery can show them.
//!
//! Model: a list of [`Kept`] packets, by number. A packet is whole with its datagram; once it is late for good (version 1)
//! only its tick is kept, and once it is certainly stale (version 2) only its receiver and its sender's clock.
//! Promise: a packet that was put in stays what it was, but for that; and after a `reserve` the tick of the first packet
//! that is still whole has one that isn't too old yet. Memory is taken in `reserve` alone, and a failed one loses nothing.
//!
//! The datagrams of a tick lie in one block, which is given up whole. What is kept then takes sixteen bytes a packet
//! (version 2), or four to five for each tick in which packets were sent (version 1; `LateTicks` has the exceptions).
#![tactic(auto)]

mod block;
mod late;
mod late_ticks;
mod packets;
mod past;
mod tick;

pub use packets::{Kept, Packets};
