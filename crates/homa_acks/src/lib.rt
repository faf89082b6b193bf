//! The calls that finished at a client and that their servers may forget, kept for each server in order.
//! Rules: an ACK of five finished calls together, and of one that rides on a request.
//!
//! An [`AckBook`] is seen as a list of lists, one for each host as a peer. It has the calls that finished there and of
//! which the peer wasn't told yet, the oldest first. A call is an incarnation and a sequence number of the client. Each
//! list is below five.
//!
//! Main promise: each finished call leaves the book once, in order: five together as an [`AckBatch`], as soon as there
//! are five, or the oldest alone with the next request to that peer. The lists of the other peers stay.
#![tactic(auto)]

mod book;
mod five_acks;

pub use book::AckBook;
pub use five_acks::AckBatch;
