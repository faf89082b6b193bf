//! The laws of a node's trace, proved.
//!
//! The model: a node is a plain world of which only the local hosts act (`node_runs`). No code stands here; a law is the
//! contract of a function that does nothing.
//! Main promise: let a node's net hand up what the node's hosts sent, with version 1 within `life` ticks, and no other packet.
//! Then each line of its trace has the shape and obeys all five laws (`node_traces_obey`). Each event of a node does what one of the world does, with a line
//! that says the same; but its clock may go on by many ticks at once.
#![tactic(auto)]

ghost use Rattle.node_trace_laws.specs.Honest.{NodeTracesObey, NoneIsBroken, UsualIsHonest};
ghost use Rattle.node_trace_laws.specs.Taken.{WholeTextsObey, FrontsObey};

/// Up to the first packet that the net made up or held too long, the lines of a node obey the laws, however its run goes on or
/// breaks off. Its services answer 1 to 1,000,000 bytes, with a hold of at most 1,000,000 ticks. Let each
/// datagram in the first n lines be no packet, or one that was sent before in this run to this host by this sender,
/// with version 1 in the last `life` ticks. Then these lines have the shape and obey all five laws, the last line too.
/// Where that is so of all lines, a judge finds none that breaks a law.
pub fn node_traces_obey()
    ensures obeys { NodeTracesObey }
    ensures judged { NoneIsBroken }
{}

/// Where nothing of a node's run is strange to a recorder, its net was honest. Each datagram that came is no packet, or
/// one that was sent before in this run to this host by this sender, in the last `life` ticks. So the laws hold of all
/// its lines.
pub fn usual_nets_are_honest()
    ensures { UsualIsHonest }
{}

/// Where a sink took all of a node's text, it took the run's lines. Where it took a prefix of it, as in a run that is
/// broken off, it took the first lines whole, with their line feeds, and maybe a part of the next one. Where the net
/// was honest in the lines that were taken whole, these have the shape and obey all five laws.
pub fn what_is_taken_obeys()
    ensures whole { WholeTextsObey }
    ensures fronts { FrontsObey }
{}
