// A node's run, recorded.
ghost use Rattle.std.specs.Prelude.{◌≡◌, ℕ, List, Some, false};
ghost use Rattle.homa_plain.specs.declared.id.HostId.{HostId as Host};
ghost use Rattle.node_runs.specs.Recorder.{no_notes};
ghost use Rattle.node_turns.specs.Faults.{counts};
ghost use Rattle.homa_record.specs.Printing.{sink_of, notes_of};
ghost use Rattle.node_output.specs.Traces.{around};
ghost use Rattle.node_output.specs.RecordingEnds.{HaveFaults};
ghost use Rattle.node_output.specs.Recorded.{HasRecorded};

use crate::recording_end::{Recorded, put_end};
use homa_io::{Sink, Source};
use homa_node::{OpenHosts, serve};
use homa_record::Recorder;
use node_io::{Clock, Net};
use std::alloc::Global;

// Serves a node, prints its run as a schedule with its last line, and returns the sink.
fn record_to<B: Drop, H: OpenHosts<B> + Drop, S: Source, K: Sink, N: Net, C: Clock>(
    alloc: Global,
    source: &mut S,
    recorder: Recorder<K>,
    net: &mut N,
    clock: &mut C,
    boxes: B,
) -> (Recorded, K)
    requires ready { H.are_ready boxes }
    requires none_known { (h : Host) → N.known net.old h ≡ false }
    requires no_notes { notes_of recorder ≡ no_notes }
    ensures recorded { (bytes : List ℕ) → S.left source.old ≡ Some bytes → HasRecorded (H.are_allowed boxes) bytes (S.left source.new)
        (around (K.taken (sink_of recorder)) (N.acts net.old) (N.sent net.old) (N.gave net.old) (C.ticks clock.old))
        (around (K.taken result.1) (N.acts net.new) (N.sent net.new) (N.gave net.new) (C.ticks clock.new)) result.0 }
    ensures faults { HaveFaults (counts (S.faults source.old) (N.faults net.old) (K.faults (sink_of recorder)))
        (counts (S.faults source.new) (N.faults net.new) (K.faults result.1)) result.0 }
    ensures same { K.is_same (sink_of recorder) result.1 }
{
    let mut recorder = recorder;
    let served = serve::<B, H, S, N, C, Recorder<K>>(
        alloc,
        source,
        net,
        clock,
        boxes,
        &mut recorder,
    );
    let mut sink = recorder.into_sink();
    let end = put_end(&mut sink, served);
    (end, sink)
}

/// Runs a node by its script, and prints its run as a schedule, with its last line. It prints each line at once.
///
/// It stops at the first foreign datagram: a packet that the host from which it came didn't send to this one in the last
/// `life` ticks. The last line then has it. What is said of bytes, datagrams and ticks holds if source, sink, net and clock
/// are observable, as those in memory are.
pub fn print_recording<B: Drop, H: OpenHosts<B> + Drop, S: Source, K: Sink, N: Net, C: Clock>(
    alloc: Global,
    source: &mut S,
    sink: &mut K,
    net: &mut N,
    clock: &mut C,
    boxes: B,
) -> Recorded
    requires ready { H.are_ready boxes }
    requires none_known { (h : Host) → N.known net.old h ≡ false }

    // The output is the recording of the run, with its last line; or a prefix of it.
    ensures recorded { (bytes : List ℕ) → S.left source.old ≡ Some bytes → HasRecorded (H.are_allowed boxes) bytes (S.left source.new)
        (around (K.taken sink.old) (N.acts net.old) (N.sent net.old) (N.gave net.old) (C.ticks clock.old))
        (around (K.taken sink.new) (N.acts net.new) (N.sent net.new) (N.gave net.new) (C.ticks clock.new)) result }

    // A fault is returned exactly if its count rose; the other counts stay.
    ensures faults { HaveFaults (counts (S.faults source.old) (N.faults net.old) (K.faults sink.old))
        (counts (S.faults source.new) (N.faults net.new) (K.faults sink.new)) result }
{
    let recorder = match Recorder::open(alloc, sink) {
        Ok(recorder) => recorder,
        Err(_) => return Recorded::NoMemory,
    };
    let (end, _sink) = record_to::<B, H, S, &mut K, N, C>(
        alloc, source, recorder, net, clock, boxes,
    );
    end
}
