//! The quiet call, carried out: in how many rounds a call between two hosts is done.
//!
//! The model: a [`QuietCall`] is seen as the two plain hosts, the clock and the frames under way. It stands for the world
//! that the definition of the quiet call has after as many rounds (`homa_plain/specs/Quiet`). A round delivers every
//! frame that was under way when it began, in order, and is then one tick; frames that were delivered are given up.
//! Main promise: `quiet_rounds` answers exactly the number of the definition, which is within the bound that
//! `quiet_laws` proves; or there is no memory.
#![tactic(auto)]

mod call;
mod filler;
mod frames;
mod rounds;

pub use call::{QuietCall, bound};
pub use filler::Filler;
pub use rounds::{put_quiet, quiet_rounds};
