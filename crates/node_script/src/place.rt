// Where the hosts are.
use homa_plain::HostId;

/// Where a host is, and the port where it is reached.
#[derive(Clone, Copy, Debug, PartialEq, Eq)]
pub enum Place {
    /// In this node, in this incarnation, at least 1.
    Local { inc: u32, port: u16 },
    /// Elsewhere.
    Remote { port: u16 },
}

/// A host that a line names.
#[derive(Clone, Copy, Debug, PartialEq, Eq)]
pub struct Naming {
    /// The host, which may be none of the settings'.
    pub host: HostId,
    /// Where it is.
    pub place: Place,
}
