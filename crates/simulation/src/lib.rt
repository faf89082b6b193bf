//! One run of a simulated network: the events that it gives happen in a world, and it heeds what they tell.
//!
//! Model: a run is a list of turns. In each the network gives a step. If that is an event, the plain world does it, and the
//! network heeds each entry that it tells, with what the world shows of its packet.
//! Main promise: the events of a run are the plain world's, one after the other, with the answers that its own `run` lines
//! show. If they are printed and the run came to its end, the sink took the settings and the line of each event, and nothing
//! else.
#![tactic(auto)]

mod events;
mod host_network;
mod lines;
mod network;
mod running;
mod services;
mod setup;
mod stop;

pub use host_network::HostNetwork;
pub use running::{Far, Telling, simulate};
pub use services::suites;
pub use stop::SimStop;
