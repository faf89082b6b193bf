// Hosts and calls.

/// A host's number: 0 to `hosts` - 1.
#[derive(Clone, Copy, Debug, PartialEq, Eq, PartialOrd, Ord, Hash)]
pub struct HostId(pub u16);

/// A call: its client, the client's incarnation at the call (at least 1), and the client's sequence number.
#[derive(Clone, Copy, Debug, PartialEq, Eq, PartialOrd, Ord, Hash)]
pub struct CallId {
    pub client: HostId,
    pub inc: u32,
    pub seq: u32,
}
