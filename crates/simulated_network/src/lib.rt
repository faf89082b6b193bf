//! The network of a simulated run: all of a run but its world of hosts.
//!
//! It tells what happens next in the world, an event at a time, and heeds what the world's lines tell: which packets are sent, which
//! calls are made and end, what receivers grant. From that it knows the calls with their messages, and what is measured.
#![tactic(auto)]

mod arrivals;
mod heeding;
mod known;
mod link_use;
mod mark;
mod network;
mod outcome;
mod receivers;
mod step;
mod tasks;
mod trouble;
mod window;

pub use link_use::LinkUse;
pub use network::SimulatedNetwork;
pub use outcome::RunOutcome;
pub use packet_network::{Fates, Level, NetworkStop, Waits};
pub use step::{RunStep, SentDatagram};
pub use trouble::Trouble;
pub use window::Window;
