//! Grants, of every trace of the plain world: a host grants to the messages that its choice picks, and never beyond the window.
//!
//! The model: a world and the lines that were told of it. A host's messages by its rows are those that the lines have
//! of it. Of two of them the same came first by the host's order numbers and by the places of the lines: a message is
//! new by both or by none. So the choice picks the same messages by both. That is carried through each move of a host's
//! step, each event and every list of events.
//! Main promise: `grants_are_allowed`.
#![tactic(auto)]

ghost use Rattle.trace_steps.specs.Always.{HoldsAlways};
ghost use Rattle.trace_rules.specs.Granting.{Granting};

/// Each GRANT is to a chosen message, with its new end, which exceeds its granted end; and with each line no incoming
/// message is granted more than a window beyond as many bytes as have arrived of it. It is so of every trace of the
/// plain world, at each line, also with a last line behind it.
pub fn grants_are_allowed()
    ensures { HoldsAlways Granting }
{}
