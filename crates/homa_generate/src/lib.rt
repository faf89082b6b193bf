//! Generated runs over any world: what `make` prints of one, and what `gen` counts.
//!
//! Model: a run is the definitions' (`generated_runs`), of a seed and a number of calls; what the services answer isn't
//! known before, so a run goes on whatever they will answer.
//! Main promise: `make` prints the schedule of the run, `count` its summary, with the answers that its own `run` lines
//! show, which the boxes allow; where `make` stops early, a front of the schedule was printed. Tests stand in `run_tests`.
#![tactic(auto)]

mod events;
mod lines;
mod printing;
mod rounds;
mod setup;
mod tally;
mod worlds;

pub use printing::{count, make};
pub use tally::Counts;
pub use worlds::GenerateWorld;
