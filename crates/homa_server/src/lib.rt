//! The calls that a host serves.
//! Rules: a request runs once, BUSY, UNKNOWN, RESEND after silence, NEED_ACK, ACK, and a tombstone for as long as
//! packets may come.
//!
//! A row is seen as its plain row, but for the bytes of a request that arrives, which stand in a pool of the host
//! (`specs/Held`); a row and its pool together are the plain row of `homa_plain` (`seen_server`).
//!
//! Main promise: each call does to the row what the plain rule of its name does, answers what the rule says, and leaves
//! all other leases of the pool alone. The service runs exactly where the rule says so, is asked before anything
//! changes, and what it answers is what it allows.
#![tactic(auto)]

mod answers;
mod busy;
mod gets;
mod lent;
mod opens;
mod resends;
mod row;
mod sends;
mod state;
mod table;
mod timers;
mod tombstones;
mod unknown;

pub use answers::{ServerAct, ServerDid};
pub use table::ServerTable;
