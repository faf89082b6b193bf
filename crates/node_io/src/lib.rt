//! Where a node's datagrams, its ticks and its listeners are: a net, a clock and an observer as traits, with objects in
//! memory and real ones. It stands apart from `homa_io`, which knows nothing of Homa: these know hosts and entries.
//!
//! Model: a net knows the hosts that were bound or routed; it tells what is queued, what it took and what it gave, each
//! an optional list, since nothing is known of datagrams outside of the process. A clock's ticks never fall. An observer
//! appends to what its sink took what it tells of each report of a node, and keeps notes.
//! Promise: what a receive gives is from another host that is known; where the net tells, it is the oldest such datagram,
//! and nothing only where there is none. A call fails only where the count of faults rose, and an answer leaves it.
#![tactic(auto)]

mod clock;
mod faults;
mod hosts;
mod memory;
mod net;
mod observer;
mod real;
mod sockets;
mod sure;

pub use clock::{Clock, MemClock};
pub use memory::MemNet;
pub use net::{Got, Net, NetFailed};
pub use observer::{Observer, SeenFault};
pub use real::{TickClock, UdpNet};
pub use std::alloc::AllocError as NoMemory;
pub use sure::SureNet;
