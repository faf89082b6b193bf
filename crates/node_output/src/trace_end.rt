// How a run ended, or why it was broken off.
ghost use Rattle.std.specs.Prelude.{◌≡◌, IfOk};
ghost use Rattle.node_output.specs.TraceEnds.{end_told, IsTold};

use homa_plain::{LineFault, WorldFault};
use node_io::SeenFault;
use node_turns::NodeStop;

/// How a run ended, as its last line says.
#[derive(Clone, Copy, Debug, PartialEq, Eq)]
pub enum NodeEnd {
    /// The clock reached the end, after so many loop turns.
    Ended { turns: u64 },
    /// A line is refused, by its number from 1.
    Refused { line: u64, fault: LineFault },
    /// The run took so many loop turns before the clock reached the end; its tick is `now`.
    Stalled { turns: u64, now: u64 },
}

/// Why a run was broken off, without a last line.
#[derive(Clone, Copy, Debug, PartialEq, Eq)]
pub enum Broken {
    /// The source counted a fault.
    Read,
    /// The sink counted a fault.
    Write,
    /// The net counted a fault.
    Net,
    /// There is no memory.
    NoMemory,
}

/// Returns the end of a node's run that was printed, or why it was broken off.
pub fn told_end(answer: Result<u64, NodeStop>) -> Result<NodeEnd, Broken>
    ensures end { result ≡ end_told answer }
    ensures told { IfOk result IsTold }
{
    match answer {
        Ok(turns) => Ok(NodeEnd::Ended { turns }),
        Err(NodeStop::Script { line, fault }) => Ok(NodeEnd::Refused {
            line,
            fault: LineFault::Script(fault),
        }),
        Err(NodeStop::Start { line, fault }) => Ok(NodeEnd::Refused {
            line,
            fault: LineFault::World(WorldFault::Start(fault)),
        }),
        Err(NodeStop::Host(line)) => Ok(NodeEnd::Refused {
            line,
            fault: LineFault::World(WorldFault::NoSuchHost),
        }),
        Err(NodeStop::Stalled { turns, now }) => Ok(NodeEnd::Stalled { turns, now }),
        Err(NodeStop::Read) => Err(Broken::Read),
        Err(NodeStop::Net) => Err(Broken::Net),
        Err(NodeStop::Seen(SeenFault::Write(_))) => Err(Broken::Write),
        // A printer takes no datagram for foreign.
        Err(NodeStop::Seen(SeenFault::Stranger | SeenFault::NoMemory) | NodeStop::NoMemory) => {
            Err(Broken::NoMemory)
        }
    }
}
