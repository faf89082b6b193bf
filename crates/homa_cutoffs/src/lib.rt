//! The priority levels of messages that need no grant, and the cutoffs between them.
//! Rules: how a receiver computes the cutoffs that CUTOFFS carry, and at which level a sender's unscheduled bytes go.
//! `host_state/src/cutoffs_packets` says to whom CUTOFFS are sent.
//!
//! A host notes the lengths of the last 256 messages opened to it in a `Recent`, and works out its cutoffs from them.
//! Contracts see a list of numbers, the oldest first. A sender takes a message's level from the cutoffs, by `Levels`.
//!
//! Main promise: `Recent::balance` answers the cutoffs that share the noted messages' weight among the levels
//! from k to 7: each bound is the least length up to which the messages have their levels' share of it. And
//! `Levels::level` answers the greatest level from k on whose bound a length doesn't exceed, and k where there is none.
#![tactic(auto)]

mod bounds;
mod levels;
mod recent;

pub use levels::Levels;
pub use recent::Recent;
