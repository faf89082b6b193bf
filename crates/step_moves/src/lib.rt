//! The moves of a host's step, and the steps of a world's hosts, without a word on what the lines of a trace show.
//!
//! The model: a move (`IsMove`) is the work before it and after it, the lines printed between, and the rows left.
//! A step is a fold of moves (`Folds`), each of one call's row, of a GRANT or of a piece that leaves.
//! Main promise: `served-move`, `asked-move` and the moves of `SendMoves`; the folds over the acts of a turn, acknowledged
//! calls, GRANTs and the pump, for any invariant of the work.
#![tactic(auto)]
