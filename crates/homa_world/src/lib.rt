//! All hosts with their clocks and services, the packets on their way, and what each event does.
//!
//! The model: a [`World`] stands for a plain world of `homa_plain` (`StandsFor`). Of packets that were sent long ago it keeps
//! only what a later delivery can show, so it may stand for several plain worlds, which no event tells apart.
//! Main promise: `apply` does what the event does to the plain world, with the lines that are told of it. Or the event
//! is refused for the plain world's cause, or because there is no memory, and the world stands for what it stood for.
#![tactic(auto)]

mod arrivals;
mod entries;
mod kinds;
mod opening;
mod parts;
mod printed;
mod rest;
mod shown;
mod world;

pub use kinds::LineKind;
pub use parts::{First, Last, WorldParts};
pub use shown::Passing;
pub use world::World;
