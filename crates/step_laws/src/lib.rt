//! Laws of the plain host's steps: what a step does to rows, to order numbers and to its service.
//!
//! The model: a host is the plain host of `homa_plain`, and a step of it is a fold of moves, a call, an arrival or a
//! turn. No function here does anything: each states laws, and its body is empty.
//! Main promise: a move changes the row of its own call alone, and picking the first due row anew, 32 times, is the
//! turn.
#![tactic(auto)]

mod laws;

pub use laws::{
    moves_stay_with_their_call, one_answer_a_step, rows_have_different_orders, step_bounds,
    turn_by_picking,
};
