// A node's run, printed.
ghost use Rattle.std.specs.Prelude.{◌≡◌, ℕ, List, Some, false};
ghost use Rattle.homa_io.specs.Writing.{IsWritten};
ghost use Rattle.homa_plain.specs.declared.id.HostId.{HostId as Host};
ghost use Rattle.homa_plain.specs.Text.{line_text};
ghost use Rattle.node_runs.specs.Texts.{end_entry};
ghost use Rattle.node_turns.specs.Faults.{counts};
ghost use Rattle.node_output.specs.TraceEnds.{end_seen, IsTold, HaveFaults};
ghost use Rattle.node_output.specs.Traces.{around, IsPrinted};

use crate::trace_end::{Broken, NodeEnd, told_end};
use homa_io::{Sink, Source, WriteFailed};
use homa_node::{OpenHosts, Printer, serve};
use homa_plain::Entry;
use homa_text::put_entry;
use node_io::{Clock, Net};
use std::alloc::Global;

/// Prints the last line of a run. After an error the sink took a prefix of it.
pub fn put_end<K: Sink>(sink: &mut K, end: &NodeEnd) -> Result<(), WriteFailed>
    requires told { IsTold end.now }
    ensures { IsWritten K.taken K.faults K.is_same result sink.old sink.new (line_text (end_entry (end_seen end.now))) }
{
    let entry = match *end {
        NodeEnd::Ended { turns } => Entry::Finished { n: turns },
        NodeEnd::Refused { line, fault } => Entry::Refused { line, fault },
        NodeEnd::Stalled { turns, now } => Entry::Stalled { turns, now },
    };
    put_entry(sink, &entry)
}

/// Runs a node by its script, and prints its trace with its last line. It prints each line at once. What is said of bytes,
/// datagrams and ticks holds if source, sink, net and clock are observable, as those in memory are.
pub fn print_node<B: Drop, H: OpenHosts<B> + Drop, S: Source, K: Sink, N: Net, C: Clock>(
    alloc: Global,
    source: &mut S,
    sink: &mut K,
    net: &mut N,
    clock: &mut C,
    boxes: B,
) -> Result<NodeEnd, Broken>
    requires ready { H.are_ready boxes }
    requires none_known { (h : Host) → N.known net.old h ≡ false }

    // The output is the run's text, with its last line; or a prefix of it.
    ensures printed { (bytes : List ℕ) → S.left source.old ≡ Some bytes → IsPrinted (H.are_allowed boxes) bytes (S.left source.new)
        (around (K.taken sink.old) (N.acts net.old) (N.sent net.old) (N.gave net.old) (C.ticks clock.old))
        (around (K.taken sink.new) (N.acts net.new) (N.sent net.new) (N.gave net.new) (C.ticks clock.new)) result }

    // A fault is returned exactly if its count rose; the other counts stay.
    ensures faults { HaveFaults (counts (S.faults source.old) (N.faults net.old) (K.faults sink.old))
        (counts (S.faults source.new) (N.faults net.new) (K.faults sink.new)) result }
{
    let mut printer = Printer::new(&mut *sink);
    let answer = serve::<B, H, S, N, C, Printer<&mut K>>(
        alloc,
        source,
        net,
        clock,
        boxes,
        &mut printer,
    );
    let end = told_end(answer)?;
    match put_end(sink, &end) {
        Ok(()) => Ok(end),
        Err(_) => Err(Broken::Write),
    }
}
