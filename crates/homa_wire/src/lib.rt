//! Packets to bytes and back, in both versions of the wire format.
//!
//! Model: a datagram is a list of bytes. `homa_plain`'s `specs/Wire.antt` says which packets are well formed,
//! how each is spelled, and which packet a list of bytes spells.
//!
//! Main promise: `encode` writes the one spelling of a well-formed packet; `decode` answers the packet that
//! the bytes spell and where its payload stands, and `None` exactly where they spell none.
//! Neither takes memory.
#![tactic(auto)]

mod bodies;
mod fields;
mod fits;
mod header;
mod reading;
mod writing;

pub use reading::{Span, decode};
pub use writing::encode;
