//! What the hosts of a node do in a loop turn, over a net and an observer, and why they stop.
//!
//! Model: hosts stand for plain worlds, whatever their services will answer (`LoopHosts`). What they do is a part of the
//! definition's course, whatever was told before and is answered, received and called later (`HasActed`).
//! Promise: `hears`, `has_turn` and `hosts_act` do that part of the course, tell its reports, send its datagrams and
//! take what it receives, in order. Where they stop, a prefix of its reports was told and a prefix of its datagrams was
//! sent.
#![tactic(auto)]

mod acts;
mod hosting;
mod stop;
mod telling;

pub use acts::{clock_stands, has_turn, hears, hosts_act};
pub use hosting::LoopHosts;
pub use stop::NodeStop;
pub use telling::{send_frames, tell_entries};
