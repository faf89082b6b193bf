//! What a checker keeps of the lines of a trace, and how one line more changes it.
//!
//! The model: what is kept of the lines before ([`Trace`](src/trace.rt)) follows a `View` of `trace_rules` (`Follows` of
//! `specs/Traces.antt`). It is of each host its clock, its lives and its incoming messages, and of each packet its
//! header. It is of each call what rests on deliveries, and what the block's delivery may be taken back to.
//! Main promise: `Trace::new` follows no line. After `Trace::take` of a line that has its shape, and runs its call
//! once, what is kept follows the lines with that one. That holds as long as each message is within its window
//! (`IsTaken` of `specs/Changes.antt`). `Trace::to_test` and `Trace::is_within` tell that at one call.
#![tactic(auto)]

mod block;
mod host;
mod take;
mod trace;

pub use block::{Delivery, Due, Here, Named, is_same};
pub use host::{Host, is_same_host};
pub use take::{is_event, is_last};
pub use trace::Trace;
