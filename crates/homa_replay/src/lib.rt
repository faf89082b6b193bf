//! The replay of a schedule, line by line and event by event, over any world.
//!
//! Model: a world that is played is seen as the plain world without answers, since nobody knows at a line what a service
//! will answer at a later one. What is due of a replay is a function of the bytes and of the answers that are to come.
//! Main promise: where `carry_on` is done, the sink took the text of the replay of the bytes that the source had, with
//! the answers that its own `run` lines show. Where it stops early, the sink took a prefix of that.
#![tactic(auto)]

mod ahead;
mod carrying;
mod flush_sink;
mod lines;
mod part;
mod replay_world;
mod replays;
mod stop;

pub use carrying::{begin, carry_on};
pub use flush_sink::FlushSink;
pub use replay_world::ReplayWorld;
pub use replays::{OpenWorld, finish, replay};
pub use stop::Stop;
