//! Timeouts, of every trace of the plain world: a call times out only when it is unanswered.
//!
//! The model: a world and the lines that were told of it. Of each live call's row the counted RESENDs are those that the
//! lines tell since the call's last renewal, and the row knows whether the last byte of the request was sent exactly
//! where the lines do. That is carried through each move of a host's step, each event and every list of events.
//! Main promise: `timeouts_are_unanswered`, the first half of fails.
#![tactic(auto)]

ghost use Rattle.trace_steps.specs.Always.{HoldsAlways};
ghost use Rattle.trace_fails.specs.Timeouts.{TimesOut};

/// A call times out only after `tries` RESENDs since its last renewal, each at least `resend` ticks after the one before,
/// and the timeout at least `resend` ticks after the last, all by its client's own clock. A packet from the call's server
/// in its latest life renews the call, UNKNOWN aside, and so does a piece of the request until its last byte was sent.
/// It is so of every trace of the plain world, at each line, also with a last line behind it.
pub fn timeouts_are_unanswered()
    ensures { HoldsAlways TimesOut }
{}
