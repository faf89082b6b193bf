//! The top call: what the program does, from the words of the command line and its input to its output and its status.
//!
//! Model: a source is the bytes that it has left, and a sink those that it took. A net is what it did, in order, with the
//! datagrams that it took and gave, and a clock the ticks that it is to give.
//! Main promise: with the word `replay` and the status `Done` or `Refused`, the sink took the replay text of the source's
//! bytes. If the schedule opens a world, each line of it obeys all laws. Otherwise the sink took a prefix. Each other command
//! prints the text that its definition gives for its input, or a part of it, as its status says.
#![tactic(auto)]

mod commands;
mod exit;
mod running;
mod service_suites;
mod words;

pub use exit::ExitStatus;
pub use quiet_call::quiet_rounds;
pub use running::run;
pub use service_suites::suites;
pub use words::Command;
