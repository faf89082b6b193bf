//! The calls that a host has made, as their client: what it remembers of each, and the rules for their packets.
//! Rules: RESEND after silence, BUSY, UNKNOWN, which begins a call anew or ends it as forgotten, timeouts, and an ACK
//! for NEED_ACK.
//!
//! A [`ClientTable`] has room for so many live calls, all of it taken at opening; a call's row stands at a place of
//! its own. Contracts see the map from each call to its row and place; with the pool, in which the bytes of the
//! responses stand, it is the map of plain rows (`seen_rows` in `specs/AtTable`).
//! Main promise: each call does to the plain row of its own call what the rule for it says, and answers as the rule
//! does. It leaves all other rows, their places, and the bytes of all other leases as they are. Only `open` takes
//! memory.
#![tactic(auto)]

mod answers;
mod busy;
mod gets;
mod lent;
mod resends;
mod row;
mod sends;
mod table;

pub use answers::{ClientAct, ClientDid};
pub use table::ClientTable;
