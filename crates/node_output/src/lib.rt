//! What the commands `node` and `record` print: the trace of a node's run, and its recording.
//!
//! Model: around a run (`Around`) are the bytes that the sink took, the datagrams that the net took and gave, and the ticks
//! that the clock is to give, if they are observable.
//! Promise: the output is the text or the recording that the definitions give for the script, with the answers, ticks and
//! datagrams that arrived. A recording ends at the first foreign datagram. If the run is broken off, the output is a prefix.
#![tactic(auto)]

mod recording;
mod recording_end;
mod trace;
mod trace_end;

pub use recording::print_recording;
pub use recording_end::{Recorded, put_end as put_recording_end};
pub use trace::{print_node, put_end};
pub use trace_end::{Broken, NodeEnd, told_end};
