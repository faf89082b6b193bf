//! Hosts in order, each with its service, and the room for what one step of one of them leaves.
//!
//! The model: [`Stage`] is seen as its hosts, as `host_view` sees a host, the services at their places and the spare ones, and
//! the frames and the whole message of the last step (`specs/Staged`).
//! Main promise: a call, a delivery and a turn are each the plain step of that host alone, whose service is asked exactly where
//! the step shows an answer; every other host and every other service stays.
#![tactic(auto)]

mod numbers;
mod stage;

pub use numbers::number_on;
pub use stage::Stage;
