//! The plain types of Homa's public surface, and the definitions that every contract above speaks of.
//!
//! The types hold no state and take no memory: ids, settings, packets, events, entries of a trace and
//! the names of all refusals. `specs/` says what is a valid setting, what an entry's line is and what a
//! schedule stands for, as definitions that compute. What every trace obeys is in `trace_rules`.
//!
//! Main promise: `Settings::check` returns the first fault in the order of the settings, and none exactly
//! if the settings are valid.
#![tactic(auto)]

mod entry;
mod event;
mod fault;
mod frame;
mod id;
mod limits;
mod old_packets;
mod packet;
mod row;
mod settings;
mod spans;

pub use entry::{Entry, Why};
pub use event::Event;
pub use fault::{LineFault, ScriptFault, StartFault, WorldFault};
pub use frame::Frame;
pub use id::{CallId, HostId};
pub use limits::{
    LAST_HOST_TICK, LAST_TICK, LONGEST_HOLD, LONGEST_INPUT, LONGEST_MESSAGE, LONGEST_PIECE,
    MOST_SERVICES, MOST_SKEW,
};
pub use packet::{Body, Cutoffs, Kind, More, Packet, Role};
pub use row::{Emitted, OutFacts, RowFacts};
pub use settings::{Name, SettingFault, Settings};
