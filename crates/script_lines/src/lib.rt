//! The lines of a script, one by one, and the words of a line with the operands that they are.
//!
//! Model: where a reader stands in its input is a `Place`; what was read is said by `IsRead`: some
//! bytes came, and whatever follows them, what was due of all is what is due of the rest.
//! Promise: the next line is the definition's, with its number, whatever parts the source gives the
//! bytes in; it is refused by what it is made of just where `text_in` refuses it.
#![tactic(auto)]

mod line;
mod stop;
mod words;

pub use line::{last_line, next_line};
pub use stop::ScriptStop;
pub use words::{Words, is_comment, read_up_to};
