//! The laws of every trace of the plain world, joined, with its shape, and of every replay.
//!
//! The model: each law holds of every trace by the crates below (`trace_once`, `trace_returned`, `trace_fails`,
//! `trace_granting`); here they are put together. The shape is proved here: which lines stand where, how packets are
//! numbered, and that a line names only calls that were made. A schedule that opens a world tells the trace of that world
//! for the events of its lines, one line behind the other, and ends with a last line.
//! Main promises: `laws_on_every_trace`; `every_replay_obeys`.
#![tactic(auto)]

mod replays;

ghost use Rattle.trace_rules.specs.Laws.{Fails};
ghost use Rattle.trace_rules.specs.Shape.{Shape};
ghost use Rattle.trace_rules.specs.Judge.{Obeys};
ghost use Rattle.trace_steps.specs.Always.{HoldsAlways};
ghost use Rattle.trace_laws.specs.Shaped.{HoldsWithCause};

pub use replays::{every_replay_obeys, replays_are_traces};

/// A call times out only when it is unanswered, and in a closed block exactly the call fails as forgotten of which an
/// UNKNOWN that counts says so. It is so of every trace of the plain world, at each line, also with a last line behind
/// it. The settings are valid, first ticks go up to 1,000,000,000,000, and first incarnations are at least 1 and stay
/// at most 4,294,967,295 with the number of spares added. Boxes and answers may be of any number, and lists of events
/// of any length.
pub fn fails_on_every_trace()
    ensures { HoldsAlways Fails }
{}

/// The first line of a trace and no other is that of the settings, which are valid. Packets are numbered from 0, and
/// none is delivered before it was sent. A call is new, of a message between two hosts of the run; and a line names
/// only a call that was made. It is so of every trace, as `fails_on_every_trace` says; of the last lines that refuse
/// one, with those that have a cause that may refuse one.
pub fn shape_on_every_trace()
    ensures { HoldsWithCause Shape }
{}

/// Each line of a trace has the shape and obeys all five laws: once, returned, handed up, fails and granting. It is so of
/// every trace of the plain world, as `shape_on_every_trace` says.
pub fn laws_on_every_trace()
    ensures { HoldsWithCause Obeys }
{}
