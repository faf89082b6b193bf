//! Strict priority queues between hosts, and calls that are drawn for them.
//!
//! A `Fabric` holds what is on its way: for each host eight queues, by level, of at most 256 packets each. In each
//! round it hands a host packets, the highest level first, within a budget of bytes; by draws of a generator it loses
//! or repeats them. From the same generator come the calls that are to be made. Contracts see the fabric of the
//! definitions (`generated_runs`) beside the life of a packet.
//!
//! Main promise: each call does to the fabric what its definition does, so that it all is a function of the seed. All
//! memory is taken by `Fabric::open`. Tests stand in `run_tests`.
#![tactic(auto)]

mod draws;
mod inbound;
mod network;
mod queued;

pub use draws::Traffic;
pub use network::Fabric;
