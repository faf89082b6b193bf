// What the calls of a server answer.
// Rules: the answers that stand for BUSY, UNKNOWN, RESEND, NEED_ACK and a tombstone.
use homa_plain::CallId;

/// What a packet did.
#[derive(Debug, PartialEq, Eq, Drop)]
pub enum ServerDid {
    /// Nothing: no row changed, and nothing is said.
    Nothing,
    /// The row in this slot may have changed.
    Touched(u32),
    /// The request was opened in this slot, and isn't whole.
    Opened(u32),
    /// The request is whole, and the service ran; `opened` tells whether this packet opened the request, and `hold` for
    /// how many ticks the response is held back.
    Ran { slot: u32, opened: bool, hold: u32 },
    /// The call has no row, and there is no room for it: there are `rows` rows, as many as there may be.
    FullRows { rows: u32 },
    /// The request needs `need` pages, of which only `free` are free.
    FullPages { need: u32, free: u32 },
    /// The request in this slot would have been left with more than 64 gaps, and the piece wasn't taken.
    Gaps(u32),
    /// The client is to be told BUSY: the row in this slot can't give yet what the packet asks for.
    Busy(u32),
    /// The client is to be told UNKNOWN: a tombstone of the call is in this slot, or the call has no row.
    Unknown(Option<u32>),
}

/// What a row did whose timer was due.
#[derive(Clone, Copy, Debug, PartialEq, Eq)]
pub enum ServerAct {
    /// The client is asked for the request's bytes from the first number up to the second, not with it.
    Resend(u32, u32),
    /// The request was given up, and the row is gone.
    Drop(CallId),
    /// The response was held back, and goes out from now on.
    Release,
    /// The client is asked whether the response has arrived.
    NeedAck,
    /// The response was given up. A tombstone of the call stays up to this tick.
    Bury(CallId, u64),
    /// The tombstone is gone.
    Free(CallId),
}
