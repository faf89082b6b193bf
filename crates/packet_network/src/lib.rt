//! The packets of a simulated network that are under way: cards, links, the switch's outputs, and what becomes of each.
//!
//! Moments and spans are picoseconds. A packet waits at its sender's card, takes the link to the switch, waits at its
//! receiver's output, and takes the link to its host. Main promises: each packet that was sent or came twice was
//! delivered, lost, refused by a full output or too old, or is under way. A link has one packet at a time. What is drawn
//! of a packet goes by its name alone.
#![tactic(auto)]

mod chance;
mod event;
mod fates;
mod flow;
mod measure;
mod network;
mod outlet;
mod outlets;
mod packet;
mod paths;
mod stop;
mod tally;

pub use event::{Begun, Reached, Task};
pub use fates::Fates;
pub use measure::{Down, Level, Waits};
pub use network::PacketNetwork;
pub use packet::{PacketCause, Piece, PieceGrant, SimPacket};
pub use stop::NetworkStop;
