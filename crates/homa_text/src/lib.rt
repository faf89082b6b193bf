//! The line of each entry of a trace, which a program writes. Other lines of words are in `written_lines`.
//!
//! Model: an entry is a list of words, and its line is these with one space between two.
//! Promise: what is written is the line of each entry. After a fault the sink took a prefix of it.
#![tactic(auto)]

mod entry_words;
mod fault_words;
mod frequent_calls;
mod frequent_entries;
mod frequent_lines;
mod held_entries;
mod put;

pub use held_entries::put_held;
pub use put::put_entry;
