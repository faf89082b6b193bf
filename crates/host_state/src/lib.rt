//! What a host has beside its rows: its clock, its cutoffs and those of its peers, the calls that finished, and the
//! entries of its step.
//! Rules: CUTOFFS to senders with old ones, ACKs for finished calls, and the level at which a packet is sent.
//!
//! The model: a [`Control`] is a record of these parts of the plain host, with the marks of what was told. `IsAt` says
//! that a control and an outbox are those of a plain host in the midst of a step.
//! Main promise: each call is the plain step's move of the same name, in what it tells, in its frames, and in these parts
//! of the host.
#![tactic(auto)]

mod control;
mod cutoffs_packets;
mod finished;
mod marks;
mod saying;
mod sends;

pub use control::Control;
pub use cutoffs_packets::Peer;
pub use saying::{Outcome, Said};
pub use sends::Leaving;
