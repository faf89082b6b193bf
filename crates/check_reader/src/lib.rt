//! Lines of a trace, read back as the entries that they tell.
//!
//! Model: a line is the words of an entry with one space between two, and an entry is one whose numbers
//! its types hold: `Fits` of `specs/Told.antt`.
//! Promise: `read_entry` answers an entry exactly where the line is that of one, and then that entry.
//! `entry_lines` says that no other entry has this line. The other files of `specs/` say what each reader
//! inside answers; no public clause rests on them.
#![tactic(auto)]

mod bodies;
mod entries;
mod faults;
mod laws;

pub use entries::read_entry;
pub use laws::entry_lines;
