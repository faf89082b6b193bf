//! Returned, handed up and forgotten calls, of every trace of the plain world. A call is done with the response of its
//! run in the life that sent the packet. A closed block has exactly the runs, the done calls and the forgotten ones
//! that its delivery makes due.
//!
//! The model: `specs/Tales` says what the lines of a trace tell of a call's messages against the rows of its client and
//! its server. It is carried through each delivery (`Deliver`, `RequestBlock`, `ResponseBlock`), each move of a host's
//! step, each event and every list of events; the laws are judged at each line on the way.
//! Main promises: `returned_on_every_trace`, `handed_up_on_every_trace`, `forgotten_on_every_trace`.
#![tactic(auto)]

ghost use Rattle.trace_rules.specs.Laws.{Returned, HandedUp};
ghost use Rattle.trace_steps.specs.Always.{HoldsAlways};
ghost use Rattle.trace_returned.specs.Closing.{Forgotten};

/// A call is done in the block of a response's delivery, with the response of its run in the life that sent the packet.
/// It is so of every trace of the plain world, at each line, also with a last line behind it. The settings are valid,
/// first ticks go up to 1,000,000,000,000, and first incarnations are at least 1 and stay at most 4,294,967,295 with
/// the number of spares added. Boxes and answers may be of any number, and lists of events of any length.
pub fn returned_on_every_trace()
    ensures { HoldsAlways Returned }
{}

/// In a closed block exactly those calls run, and exactly those are done, whose message its delivery makes whole. It is
/// so of every trace, as `returned_on_every_trace` says.
pub fn handed_up_on_every_trace()
    ensures { HoldsAlways HandedUp }
{}

/// In a closed block exactly the call fails as forgotten of which an UNKNOWN that counts says so: all that the law fails
/// says, but for timeouts. It is so of every trace, as `returned_on_every_trace` says.
pub fn forgotten_on_every_trace()
    ensures { HoldsAlways Forgotten }
{}
