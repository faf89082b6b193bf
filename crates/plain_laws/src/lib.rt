//! Laws of the plain definitions: which messages are granted to, which rows act, computed cutoffs, what comes in and
//! goes out of a message, and packets as bytes.
//!
//! No function here does anything: each states laws, and its body is empty. No crate stands on this one, so an edit of a
//! law proves this crate alone. The lemmas behind the laws are in `homa_plain/proofs`, where the crates above cite them.
//! Worked rows of the same definitions stand in `proofs/`: each was worked out by hand.
//!
//! Main promise: `whole_messages`: pieces of one message, in any order and however often they come, make that message.
#![tactic(auto)]

mod busy;
mod cutoffs;
mod grants;
mod incoming;
mod outgoing;
mod timers;
mod wire;

pub use busy::resends;
pub use cutoffs::{cutoff_bounds, message_levels, recent_lengths};
pub use grants::{choices, grants_made};
pub use incoming::{arrivals, incoming_messages, message_gaps, whole_messages};
pub use outgoing::{grants_received, outgoing_messages, sends};
pub use timers::due_rows;
pub use wire::{no_packet, one_packet, one_spelling, payload_is_last, spelled_length};
