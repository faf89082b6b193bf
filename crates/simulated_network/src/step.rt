// What happens next.
use homa_plain::{Event, HostId};

/// What happens next in a run.
#[derive(Clone, Copy, Debug, PartialEq, Eq)]
pub enum RunStep {
    /// The run is over: the calls that are measured have ended, or too many more were drawn, or nothing is due.
    Over,
    /// Time went on in the network alone.
    Inside,
    /// An event of the world. An injected datagram has so many counting bytes.
    Event {
        event: Event,
        bytes: u32,
    },
    /// A client is to call a server with so many bytes, if it may have one more live call.
    Call {
        client: HostId,
        server: HostId,
        bytes: u32,
    },
}

/// A datagram that is sent: how many bytes it has, and at which tick it is sent.
#[derive(Clone, Copy, Debug, PartialEq, Eq)]
pub struct SentDatagram {
    pub len: u32,
    pub tick: u64,
}
