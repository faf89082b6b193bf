// What is due in a network, and what it tells.
ghost use Rattle.std.specs.Prelude.{◌<◌};

use crate::packet::{Piece, SimPacket};
use homa_plain::HostId;

/// What its user entered: it comes back when its moment is there.
#[derive(Clone, Copy, Debug, PartialEq, Eq)]
pub enum Task {
    /// The clock of the world goes on.
    Clock,
    /// A host has its turn.
    Turn(HostId),
    /// A client makes calls.
    Calls(HostId),
    /// A call that was listed is made.
    Listed(u32),
    /// A host restarts, by the restart's place in the list.
    Restart(u32),
    /// A datagram is injected, by its place in the list.
    Inject(u32),
    /// A clock is set, by the shift's place in the list.
    Shift(u32),
}

/// A card or an output, by its host.
#[derive(Clone, Copy, Debug, PartialEq, Eq)]
pub(crate) struct Place {
    pub(crate) host: u16,
    ghost within: { host < 32 },
}

/// What is due.
#[derive(Clone, Copy, Debug, PartialEq, Eq)]
pub(crate) enum NetworkEvent {
    Task(Task),
    /// The last bit of a packet left the card of this host.
    CardFree(Place),
    /// The last bit of a packet left the output to this host.
    OutputFree(Place),
    AtSwitch(SimPacket),
    AtHost(SimPacket),
}

/// A packet began to leave a queue: that of this host, with these bytes of a message, and after this wait.
#[derive(Clone, Copy, Debug, PartialEq, Eq)]
pub struct Begun {
    pub host: HostId,
    pub piece: Option<Piece>,
    pub wait: u64,
}

/// What happened next.
#[derive(Clone, Copy, Debug, PartialEq, Eq)]
pub enum Reached {
    /// A task is due.
    Task(Task),
    /// A packet began to leave its sender's card.
    Card(Begun),
    /// A packet began to leave the switch's output to its receiver.
    Output(Begun),
    /// A packet is at its host.
    AtHost(SimPacket),
    /// Something of which nothing is to be told.
    Nothing,
}
