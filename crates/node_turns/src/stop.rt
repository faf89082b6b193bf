// Why a node stops before its end.
use homa_io::ReadFailed;
use homa_plain::{ScriptFault, StartFault};
use node_io::{NetFailed, SeenFault};
use std::alloc::AllocError;
use thiserror::Error;

/// Why a node stops before its end.
#[derive(Clone, Copy, Debug, PartialEq, Eq, Error)]
pub enum NodeStop {
    /// A line is refused by its words.
    #[error("line {line} is refused: {fault:?}")]
    Script { line: u64, fault: ScriptFault },
    /// A call can't start.
    #[error("the call in line {line} can't start: {fault:?}")]
    Start { line: u64, fault: StartFault },
    /// A line names a host that isn't there.
    #[error("line {0} names a host that isn't there")]
    Host(u64),
    /// The source gave a fault.
    #[error("the script can't be read")]
    Read,
    /// The net gave a fault.
    #[error("the net failed")]
    Net,
    /// The observer didn't take a report.
    #[error("a report wasn't taken: {0:?}")]
    Seen(SeenFault),
    /// The last loop turn was done.
    #[error("stalled at tick {now} after {turns} loop turns")]
    Stalled { turns: u64, now: u64 },
    /// There is no memory.
    #[error("out of memory")]
    NoMemory,
}

impl From<NetFailed> for NodeStop {
    ghost use Rattle.std.specs.Prelude.{◌≡◌};
    ghost use Rattle.node_turns.specs.declared.stop.NodeStop.TheVariants.{Net};

    ghost from_gives = { λ _ stop. stop ≡ Net };

    fn from(_: NetFailed) -> Self {
        NodeStop::Net
    }
}

impl From<ReadFailed> for NodeStop {
    ghost use Rattle.std.specs.Prelude.{◌≡◌};
    ghost use Rattle.node_turns.specs.declared.stop.NodeStop.TheVariants.{Read};

    ghost from_gives = { λ _ stop. stop ≡ Read };

    fn from(_: ReadFailed) -> Self {
        NodeStop::Read
    }
}

impl From<AllocError> for NodeStop {
    ghost use Rattle.std.specs.Prelude.{◌≡◌};
    ghost use Rattle.node_turns.specs.declared.stop.NodeStop.TheVariants.{NoMemory};

    ghost from_gives = { λ _ stop. stop ≡ NoMemory };

    fn from(_: AllocError) -> Self {
        NodeStop::NoMemory
    }
}

impl From<SeenFault> for NodeStop {
    ghost use Rattle.std.specs.Prelude.{◌≡◌};
    ghost use Rattle.node_turns.specs.Seen.{seen_stop};

    ghost from_gives = { λ fault stop. stop ≡ seen_stop fault };

    fn from(fault: SeenFault) -> Self {
        match fault {
            SeenFault::NoMemory => NodeStop::NoMemory,
            fault => NodeStop::Seen(fault),
        }
    }
}
