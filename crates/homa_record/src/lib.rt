//! A node's run as a schedule: an observer that prints the events which stand for what it is told.
//!
//! Model: the notes of `node_runs`: a tick, settings or none, and the datagrams that were sent in the last `life` ticks.
//! Promise: what is printed of a report, what is kept of it and what is strange are those of the definitions (`told`, `kept`
//! and `strange` in `node_runs/specs/Recorder.antt`). A datagram that comes is compared with those of its bucket alone,
//! however many are kept, and each is given up when its life is over. Tests stand in `node_io_tests`.
#![tactic(auto)]

mod book;
mod recorder;
mod store;

pub use recorder::Recorder;
