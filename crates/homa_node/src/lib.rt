//! The run of a node: the local hosts of a script, over a net and a clock, told to an observer.
//!
//! Model: a run has come to a plain world of the definition's node, after these reports and datagrams, with these calls
//! still to be made, and goes on so whatever is read, answered, ticked and received later (`IsAt`).
//! Promise: `serve` answers as the definition's run ends. What was told and sent is that run's, line by line and
//! datagram by datagram, with the ticks and the receives that were given. Where it stops before, what was told and sent
//! is a prefix of a run that begins with what was given.
#![tactic(auto)]

mod ahead;
mod calling;
mod opening;
mod opens;
mod places;
mod printer;
mod serving;

pub use ahead::{NextCall, look, take_due};
pub use calling::{start_call, starts};
pub use node_turns::NodeStop;
pub use opening::{Node, open_node, read_setup};
pub use opens::OpenHosts;
pub use places::{connect, first_incs, locals};
pub use printer::Printer;
pub use serving::serve;
