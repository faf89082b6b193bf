//! Once, of every trace of the plain world: a call runs at most once in each life of its server, as it was made.
//!
//! The model: a world and the lines that were told of it. A call stands at its client and at one host (`Stand`), with
//! the two clocks, its `call` line and its rows. `specs/Lifetime` says what holds of it at every moment, and of each of
//! its packets; `specs/Kept` says it of a whole world. Each rule of the plain host keeps it, by itself, and so does
//! each move of a step, each event and every list of events. That is so whatever is lost, repeated, late, restarted or
//! shifted; once is judged at each line on the way.
//! Main promise: `once_on_every_trace`.
#![tactic(auto)]

ghost use Rattle.trace_rules.specs.Laws.{Once};
ghost use Rattle.trace_steps.specs.Always.{HoldsAlways};

/// A call runs at most once in each life of its server, with the service and on the request of its `call` line. It is
/// so of every trace of the plain world, at each line, also with a last line behind it. The settings are valid, first
/// ticks go up to 1,000,000,000,000, and first incarnations are at least 1 and stay at most 4,294,967,295 with the
/// number of spares added. Boxes and answers may be of any number, and lists of events of any length.
pub fn once_on_every_trace()
    ensures { HoldsAlways Once }
{}
