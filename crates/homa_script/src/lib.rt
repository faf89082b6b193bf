//! Schedules: read line by line, and printed.
//!
//! Model: a reader of a schedule is a `Script`: where it stands in its input, the bytes beside its
//! last event, and its first stop. `homa_plain` says what the bytes of a schedule stand for.
//! Promise: the settings, events, ticks and refusals that are read are those of the definition, in
//! their order and with the numbers of their lines, whatever parts the source gives the bytes in.
//! What is printed of an event is read as just this event.
#![tactic(auto)]

mod event;
mod laws;
mod next;
mod opening;
mod put;
mod read;
mod reader;

pub use laws::reads_back;
pub use next::Next;
pub use put::{put_event, put_settings};
pub use reader::Reader;
pub use script_lines::ScriptStop;
