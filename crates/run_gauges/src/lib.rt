//! What waits over time, and how the time of a receiver's link is spent.
//!
//! Moments are picoseconds. A moment before the last one that was told counts as that one, so time never goes back.
//! Main promise: a gauge's area is the sum of what waited times its span. The spans in which a link was taken and was
//! idle are all of its time. The withheld part is within the wasted one, and that within the idle one.
#![tactic(auto)]

mod gauge;
mod receiver;
mod spans;
#[cfg(test)]
mod tests;

pub use gauge::Gauge;
pub use receiver::{Receiver, SENDERS};
pub use spans::{Spans, Use};
