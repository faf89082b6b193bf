//! The hosts of a node with their services: a clock that is set from outside, and packets that go outside.
//!
//! The model: [`NodeHosts`] is seen as its parts ([`NodeParts`]), which stand for each plain world of these hosts at this tick,
//! in which so many packets were sent, whatever its services will answer (`specs/Standing`).
//! Main promise: a call, a datagram that comes and a turn are the plain event in each of these worlds, with its entries and its
//! packets as frames, and no service answers what it may not. Nothing is kept of the packets but how many were sent. Over
//! [`Fair`] services it is known besides that each answer has 1 to 1,000,000 bytes and a hold of at most 1,000,000 ticks.
#![tactic(auto)]

mod fair;
mod hosts;
mod parts;

pub use fair::Fair;
pub use hosts::NodeHosts;
pub use parts::{Last, NodeParts};
