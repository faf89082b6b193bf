//! What a host exposes: its books, the entries of its last step, and the frames that it sent.
//!
//! The model: a host is seen as [`Seen`](specs/Seen.antt), the plain host beside the places of its rows and the marks of
//! its last step. An [`Outbox`] is a list of frames. A [`Mark`] is an entry without its bytes, which are elsewhere.
//! Main promise: what the books return is what the plain step needs, and the marks of a step with its frames are the
//! step's entries.
#![tactic(auto)]

mod laws;
mod mark;
mod outbox;

pub use laws::{due_by_book, grants_by_book, marks_are_entries, pump_by_picking};
pub use mark::Mark;
pub use outbox::{Outbox, SentFrame};
