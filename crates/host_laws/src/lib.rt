//! Laws of the plain host's steps that a host of tables and books rests on.
//!
//! The model: the plain host of `homa_plain`. No function here does anything: each states laws, and its body is empty.
//! Main promise: the hosts that a host's rows name are such as there are, after every rule. What a step tells is told
//! of its own host at its own clock. While a step ends, no request and no response changes.
#![tactic(auto)]

mod laws;

pub use laws::{entries_are_marks, rows_keep_bytes, rows_know_peers};
