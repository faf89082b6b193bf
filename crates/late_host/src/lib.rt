//! A host whose requests its caller answers, once for each call and as late as it likes.
//!
//! The model (`Late`): an asking host (`driven_host`), and the calls that are kept, with the datagram that asked last for each.
//! A [`LateHost`] tells a call when it asks first. From then on it keeps the call, until a step ran it, its caller declines
//! it, or it has to make room. When the answer comes, the host takes the step of the kept datagram with that answer.
//! Main promises: each call of a `LateHost` is one step of the plain host, or leaves the host as it was. `deliver` doesn't tell
//! a call again that is kept. An answer that runs a call runs its own. A kept datagram is delivered at most `keep` ticks after
//! it came.
#![tactic(auto)]

mod bytes;
mod kept;
mod late;
mod outcomes;
mod ran;

pub use bytes::Bytes;
pub use kept::KeptCall;
pub use late::LateHost;
pub use outcomes::{Answered, Heard};
