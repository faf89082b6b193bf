//! What `check` says of a node's text, proved.
//!
//! Model: a node's text is the lines of its run, in order (`node_runs`). A text is a trace if each line is an entry's, has
//! its shape and obeys all laws (`check_verdict`). There is no code here: a law is the contract of a function that does
//! nothing.
//! Main promise: if a node's net is honest and gives datagrams, the text is a trace (`node_texts_are_traces`). Each line
//! fits its types, is read back, and obeys the laws.
#![tactic(auto)]

ghost use Rattle.check_node_laws.specs.Checked.{NodeTextsAreTraces};

/// The text of a node's run is a trace of as many lines as the run has, so the verdict on it is yes.
///
/// This holds of each run, whatever its services answer, under three conditions. Its net is honest in all lines. Its net
/// gives bytes, at most 1,500 at once. The text is no longer than an input may be.
pub fn node_texts_are_traces()
    ensures { NodeTextsAreTraces }
{}
