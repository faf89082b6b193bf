//! The parts of a network: what is due and when, a link that takes bytes at a rate, and a port with eight queues.
//!
//! Moments and spans are picoseconds: at 10, 25, 40 and 100 Gbit/s a byte takes a whole number of them, so that nothing is rounded.
//!
//! Main promise: of what is due the earliest comes first, and of what is due at one moment what was entered first. A
//! link has one packet at a time, and holds it for exactly as long as its bytes take. A port gives the first packet of
//! its highest level. Each packet that came to a port was refused, was given, or still waits.
#![tactic(auto)]

mod agenda;
mod link;
mod port;
#[cfg(test)]
mod tests;

pub use agenda::{Agenda, Due};
pub use link::{Link, Passage};
pub use port::{LEVELS, Port, Waiting};
