//! Lines of text that a program reads: the lines of an input, their words, and the numbers, bytes and settings that they spell.
//!
//! Model: a reader of lines is a `Reading`: the bytes that it took and that belong to no line yet, the last line, and how
//! many bytes and lines came. A word is a list of bytes.
//! Promise: the lines that are read are those of the input, whatever parts the source gives it in, and a word is read as
//! the number, the bytes or the setting that it spells.
#![tactic(auto)]

mod bytes;
mod input;
mod line_room;
mod lines;
mod name;
mod number;
mod scan;
mod words;

pub use bytes::{counting_bytes, read_bytes};
pub use lines::{LineGot, Lines};
pub use name::{read_name, start_bytes, told_settings};
pub use number::read_number;
pub use words::word;
