// What a host says of a row in its tables.
use crate::{CallId, HostId};

/// The facts of a row's outgoing message: its length in bytes, its service, the bytes above the greatest end
/// sent (`left`), its order, the level of its granted bytes (0 to 7), and whether bytes wait to be sent.
#[derive(Clone, Copy, Debug, PartialEq, Eq)]
pub struct OutFacts {
    pub length: u32,
    pub service: u8,
    pub left: u32,
    pub order: u64,
    pub prio: u8,
    pub waiting: bool,
}

/// The facts of a row: its call, the host at the other end, its order, and its outgoing message, if it has one.
#[derive(Clone, Copy, Debug, PartialEq, Eq)]
pub struct RowFacts {
    pub id: CallId,
    pub peer: HostId,
    pub order: u64,
    pub out: Option<OutFacts>,
}

/// What became of a row that was to send.
#[derive(Clone, Copy, Debug, PartialEq, Eq)]
pub enum Emitted {
    /// The bytes from the first number up to but without the second were taken.
    Sent(u32, u32),
    /// Its next packet has more payload than there is credit for.
    Short,
    /// It may not send now.
    Rests,
}
