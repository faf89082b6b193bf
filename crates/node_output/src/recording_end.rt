// How a recording ends, and its last line.
ghost use Rattle.std.specs.Prelude.{◌≡◌, ◌⊎◌};
ghost use Rattle.homa_io.specs.Outside.{HasRisen, appended, TookFront};
ghost use Rattle.homa_plain.specs.Entries.{PlainRefused, IsCause};
ghost use Rattle.homa_plain.specs.Text.{line_text};
ghost use Rattle.node_output.specs.RecordingEnds.{PutsEnd, end_of};
ghost use Rattle.node_output.specs.declared.recording_end.Recorded.TheVariants as status;

use homa_io::Sink;
use homa_plain::{Entry, LineFault, WorldFault};
use homa_text::put_entry;
use node_io::SeenFault;
use node_turns::NodeStop;
use written_lines::Word::{Number, Text};
use written_lines::put_line;

/// How a recording ended, or why it was broken off.
#[derive(Clone, Copy, Debug, PartialEq, Eq)]
pub enum Recorded {
    /// The run came to its end.
    Done,
    /// A line of the script is refused.
    Refused,
    /// The run took its last loop turn before the clock reached the end.
    Stalled,
    /// A packet arrived that its sender hadn't sent to this host in the last `life` ticks.
    Stranger,
    /// The source counted a fault.
    ReadFailed,
    /// The sink counted a fault.
    WriteFailed,
    /// The net counted a fault.
    NetFailed,
    /// There is no memory.
    NoMemory,
}

// Prints that a line is refused.
fn put_refused<K: Sink>(sink: &mut K, line: u64, fault: LineFault) -> Recorded
    requires { IsCause fault }
    ensures ends { ((K.taken sink.new ≡ appended (K.taken sink.old) (line_text (PlainRefused line fault))) × (K.faults sink.new ≡ K.faults sink.old)
        × (result ≡ status.Refused))
        ⊎ (TookFront (K.taken sink.old) (K.taken sink.new) (line_text (PlainRefused line fault)) × HasRisen (K.faults sink.old) (K.faults sink.new)
        × (result ≡ status.WriteFailed)) }
    ensures same { K.is_same sink.old sink.new }
{
    match put_entry(sink, &Entry::Refused { line, fault }) {
        Ok(()) => Recorded::Refused,
        Err(_) => Recorded::WriteFailed,
    }
}

/// Prints the last line of a recording, if the node came to an end: the comment `# ok N`, or the line of a refusal or of a
/// run that stalled. Otherwise it prints nothing. If the sink fails, it took a prefix of the line.
pub fn put_end<K: Sink>(sink: &mut K, served: Result<u64, NodeStop>) -> Recorded
    ensures ends { PutsEnd (K.taken sink.old) (K.taken sink.new) (K.faults sink.old) (K.faults sink.new) served result (end_of served) }
    ensures same { K.is_same sink.old sink.new }
{
    match served {
        Ok(turns) => match put_line(sink, &[Text(b"#"), Text(b"ok"), Number(turns)]) {
            Ok(()) => Recorded::Done,
            Err(_) => Recorded::WriteFailed,
        },
        Err(NodeStop::Script { line, fault }) => put_refused(sink, line, LineFault::Script(fault)),
        Err(NodeStop::Start { line, fault }) => {
            put_refused(sink, line, LineFault::World(WorldFault::Start(fault)))
        }
        Err(NodeStop::Host(line)) => {
            put_refused(sink, line, LineFault::World(WorldFault::NoSuchHost))
        }
        Err(NodeStop::Stalled { turns, now }) => {
            match put_entry(sink, &Entry::Stalled { turns, now }) {
                Ok(()) => Recorded::Stalled,
                Err(_) => Recorded::WriteFailed,
            }
        }
        Err(NodeStop::Read) => Recorded::ReadFailed,
        Err(NodeStop::Net) => Recorded::NetFailed,
        Err(NodeStop::Seen(SeenFault::Stranger)) => Recorded::Stranger,
        Err(NodeStop::Seen(SeenFault::Write(_))) => Recorded::WriteFailed,
        Err(NodeStop::Seen(SeenFault::NoMemory)) => Recorded::NoMemory,
        Err(NodeStop::NoMemory) => Recorded::NoMemory,
    }
}
