//! Lines of words that a program writes, and bytes, numbers and hex that are added to a text.
//!
//! Model: a word is a list of bytes, and a line is its words with one space between two. Of a text a part may be held
//! that isn't written yet.
//! Promise: what is written is the line of the words. After a fault the sink took a prefix of it.
#![tactic(auto)]

mod adding;
mod held;
mod line;
mod line_buffer;
mod written;

pub use adding::{add, add_hex, add_number};
pub use held::{Held, append, put_hex};
pub use line::put_line;
pub use line_buffer::LineBuffer;
pub use written::Word;
