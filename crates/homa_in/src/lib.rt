//! The receiver's part of a message: which bytes have arrived, what is missing, and up to where its sender may send.
//!
//! An [`Incoming`] is seen as its sender, length, order, granted end, missing bytes and lease; with the pool in which
//! its bytes stand it is the plain incoming message of `homa_plain` (`seen` in `specs/Part`). All parts of a host stand
//! in one pool, each under a lease of its own (`AreIn`): `open_part`, `put_piece` and `close_part` are for those.
//! Main promise: a piece that is accepted makes exactly the plain message with that piece, and bytes that had arrived
//! keep their values. Each answer is the one that the plain message gives. The bytes of all other leases stay, and the
//! pages that are taken or given back are those of the part (`Moves`). Nothing here takes memory.
#![tactic(auto)]

mod arriving;
mod given;
mod pieces;
mod putting;

pub use arriving::{Accepted, Incoming};
pub use given::{Moment, Piece};
pub use putting::{Opening, Put, close_part, open_part, put_piece};
