//! A checker of one trace, from its bytes to its verdict.
//!
//! Model: a `Trace` of `check_lines` stores what a `View` of `trace_rules` says of the lines so far. Each line is judged by
//! it (`judge`), taken, and then tested for windows (`step`).
//! Main promise: `check` returns the verdict that `check_verdict` defines on the source's bytes. It is yes exactly if there is
//! a line, and each has its shape and obeys all laws. Otherwise it names the first line that doesn't, and the first clause that fails.
//! A fault of the source is returned exactly if there was one. `NoMemory` may come at any time.
#![tactic(auto)]

mod grant;
mod judge;
mod print;
mod step;
mod text;
mod verdict;

pub use print::put_verdict;
pub use text::check;
pub use verdict::{CheckStop, Clause, Verdict};
