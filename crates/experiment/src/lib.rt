//! An experiment: what is asked of a simulated network, the text that says it, and the draws that it makes.
//!
//! Moments and spans are picoseconds, of which a byte takes a whole number at each rate that a link may have.
//! Main promises: a text gives an experiment of which each value is within its range, or a fault that names line and word.
//! A length that is drawn stands in the table. The mean on the wire is that of the table.
#![tactic(auto)]

mod amounts;
mod draft;
mod draws;
mod fault;
mod fits;
mod framing;
mod gaps;
mod grammar;
mod happenings;
mod load;
mod marks;
mod network;
mod numbers;
mod reading;
mod sizes;
mod statement;
mod steps;
mod tables;
mod trial;
mod verbs;
mod workload;

pub use amounts::Amount;
pub use draws::{Draws, PacketName};
pub use fault::{ExperimentFault, Wrong};
pub use framing::Framing;
pub use gaps::{ARRIVALS, LENGTHS, gap_of, wire_of_call};
pub use load::{Hot, Load};
pub use marks::{Injection, ListedCall, Restarting, Shifting};
pub use network::{Card, Network};
pub use reading::read;
pub use steps::Step;
pub use trial::Experiment;
pub use workload::Workload;
