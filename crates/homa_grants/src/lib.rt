//! The incoming messages of a receiver that aren't whole, and which of them are granted to.
//! Rules: overcommitment (GRANTs to a few messages at a time, one of each sender), and SRPT (the fewest missing bytes
//! first). `homa_host/src/grants` says how far each is granted, and `grant_priorities` there at which
//! priority.
//!
//! A [`GrantBook`] is seen as the list of its messages in order of how many bytes are missing, ties by the order in
//! which they were opened. Each message is under a slot, the place of its row. The main promise: of all messages
//! `choose` tells the slots of the first few with different senders, and every other call changes the list exactly as
//! it says. No call walks over all messages: each sender has a heap of its messages, and one heap over the senders is
//! keyed by their first messages. Only `open` takes memory.
#![tactic(auto)]

mod book;

pub use book::GrantBook;
