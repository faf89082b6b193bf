//! The laws of what a node prints, proved.
//!
//! Model: what a sink took of a node's run, whole or in part, as `print_node` of `node_output` says it. There is no code
//! here: a law is the contract of a function that does nothing.
//! Main promise (`what_is_printed_obeys`): if a node's net gives only packets that the node's hosts sent, with version 1 within
//! `life` ticks, the lines that the sink took whole have the shape and obey all five laws. It holds however the run ended or was
//! broken off.
#![tactic(auto)]

ghost use Rattle.node_print_laws.specs.Printed.{WholePrintsObey, PartPrintsObey};

/// If all of a node's text was printed, the sink took the lines of the script's run. If the run was broken off, or a write
/// failed, it took the first of these lines whole, and perhaps a part of the next one.
///
/// If the net was honest in the lines that were taken whole, they have the shape and obey all five laws. The script is one
/// that is opened, and the services answer as each service does.
pub fn what_is_printed_obeys()
    ensures whole { WholePrintsObey }
    ensures parts { PartPrintsObey }
{}
